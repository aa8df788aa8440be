//! Configuration requests as a root complex sends them.
use arrayvec::ArrayVec;
use config_core::{CfgFault, CfgRequest, decode, encode};

/// CfgWr0 of FEDC0000h to the register at 010h.
const WRITE: [u8; 16] = [
    0x44, 0, 0, 1, 0, 8, 0x69, 0x0F, 1, 0, 0, 0x10, 0, 0, 0xDC, 0xFE,
];

/// A byte of the write is another: which fault is reported then.
fn is_refused(place: usize, byte: u8, fault: CfgFault) -> bool {
    let mut bytes = WRITE;
    if place < 16 {
        bytes[place] = byte;
    }
    decode(&bytes) == Err(fault)
}

#[test]
fn a_write_is_read(rt: HostRuntime) {
    let wanted = CfgRequest {
        writes: true,
        is_type_1: false,
        requester: 8,
        tag: 0x69,
        bus: 1,
        device: 0,
        function: 0,
        register: 0x010,
        enables: 15,
        value: 0xFEDC_0000,
    };
    assert!(rt; decode(&WRITE) == Ok(wanted));
}

#[test]
fn faults_are_reported_in_order(rt: HostRuntime) {
    let mut right = decode(&WRITE[..11]) == Err(CfgFault::Short);
    right &= decode(&WRITE[..12]) == Err(CfgFault::LengthMismatch);
    right &= is_refused(0, 0x04, CfgFault::LengthMismatch);
    right &= is_refused(0, 0x42, CfgFault::Kind);
    right &= is_refused(2, 0xC0, CfgFault::Digest);
    right &= is_refused(2, 0x44, CfgFault::Poisoned);
    right &= is_refused(3, 2, CfgFault::LengthMismatch);
    right &= is_refused(1, 0x10, CfgFault::Fields);
    right &= is_refused(7, 0xFF, CfgFault::Fields);
    assert!(rt; right);
}

#[test]
fn a_request_is_written_as_it_was_read(rt: HostRuntime) {
    let mut right = false;
    let mut bytes = ArrayVec::new();
    if let Ok(request) = decode(&WRITE) {
        encode(&request, &mut bytes);
        right = bytes.as_slice() == &WRITE[..];
    }
    assert!(rt; right);
}

#[test]
fn faults_have_numbers_and_names(rt: HostRuntime) {
    let mut right = CfgFault::Short.number() == 1 && CfgFault::Short.name() == "Short";
    right &= CfgFault::Fields.number() == 6 && CfgFault::Fields.name() == "Fields";
    assert!(rt; right);
}
