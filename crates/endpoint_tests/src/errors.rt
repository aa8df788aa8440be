//! TLPs that have no completion, and what the registers say of them.
use crate::session::{answers, device, take};
use endpoint_core::{Endpoint, Handled, Malformed, Room};
use tlp_core::TlpFault;

/// What becomes of TLPs that don't wait.
fn come(endpoint: &mut Endpoint, room: &mut Room) -> bool {
    take(
        endpoint,
        room,
        "74000001 00000050 00000000 00000000 19000000",
    ) == Some(Handled::Ignored)
        && take(endpoint, room, "4A000001 00000004 00086300 34121E7C") == Some(Handled::Unexpected)
        && take(endpoint, room, "40000001 0008000F FEDC0000 11223344") == Some(Handled::Unsupported)
        && take(endpoint, room, "40004001 0008000F FEDC0000 11223344") == Some(Handled::Unsupported)
        && take(
            endpoint,
            room,
            "40000002 000800FF FEDC0FFC 11223344 55667788",
        ) == Some(Handled::Malformed(Malformed::Boundary))
        && take(endpoint, room, "00000001")
            == Some(Handled::Malformed(Malformed::Packet(TlpFault::Short)))
        && answers(endpoint, room, "")
}

/// Each bit of Device Status that reports an error, and Detected Parity Error; then a reset.
fn are_reported(endpoint: &mut Endpoint, room: &mut Room) -> bool {
    take(endpoint, room, "04000001 0008710F 01000058") == Some(Handled::Waits)
        && take(endpoint, room, "04000001 0008720F 01000004") == Some(Handled::Waits)
        && answers(endpoint, room, "4A000001 00000004 00087100 00000F00")
        && answers(endpoint, room, "4A000001 00000004 00087200 00001080")
}

#[test]
fn errors_are_reported(rt: HostRuntime) {
    let mut room = Room::new();
    let mut right = false;
    if let Ok(mut endpoint) = device(rt.alloc()) {
        right = come(&mut endpoint, &mut room) && are_reported(&mut endpoint, &mut room);
        endpoint.reset();
        right &= take(&mut endpoint, &mut room, "04000001 0008710F 01000058")
            == Some(Handled::Waits);
        right &= answers(
            &mut endpoint,
            &mut room,
            "4A000001 00000004 00087100 00000000",
        );
    }
    assert!(rt; right);
}
