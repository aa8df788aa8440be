//! A peer that breaks rules.
use crate::port::session::{enters, refusal, sends, takes};
use dllp_core::{Class, DllpFault};
use flow_control::LaneCredits;
use link_crc::Check;
use port_core::{DllpReceived, DllpRefusal, EnterRefusal, LinkPort, LinkState, Received};

/// Little credit.
const FEW: LaneCredits = LaneCredits {
    ph: 1,
    pd: 8,
    nph: 1,
    npd: 2,
    cplh: 0,
    cpld: 0,
};

/// A FetchAdd, which takes a header and a data unit.
const ADD: [u8; 16] = [0x4C, 0, 0, 1, 1, 0, 5, 0, 0, 0, 0, 0x40, 7, 0, 0, 0];

/// The FetchAdd as packets 000h and 001h.
const ADD_0: [u8; 18] = [0, 0, 0x4C, 0, 0, 1, 1, 0, 5, 0, 0, 0, 0, 0x40, 7, 0, 0, 0];

const ADD_1: [u8; 18] = [0, 1, 0x4C, 0, 0, 1, 1, 0, 5, 0, 0, 0, 0, 0x40, 7, 0, 0, 0];

/// A port of little credit in FC_INIT2, of a peer that advertises 1 header and 2 data units of non-posted requests.
fn begin(port: &mut LinkPort) -> bool {
    takes(port, [0x40, 0x04, 0x00, 0x40])
        && takes(port, [0x50, 0x00, 0x40, 0x02])
        && takes(port, [0x60, 0x00, 0x00, 0x00])
        && sends(port, &[0xC0, 0x00, 0x40, 0x08])
        && sends(port, &[0xD0, 0x00, 0x40, 0x02])
        && sends(port, &[0xE0, 0x00, 0x00, 0x00])
        && port.state() == LinkState::Init2
}

/// More than was advertised is handed up with a note, and its credits are back.
fn overflow_is_noted(port: &mut LinkPort) -> bool {
    let first = port.receive(&ADD_0, Check::Good);
    let second = port.receive(&ADD_1, Check::Good);
    let is_first = match first {
        Received::Accepted { overflows, .. } => !overflows,
        _ => false,
    };
    let is_second = match second {
        Received::Accepted { overflows, .. } => overflows,
        _ => false,
    };
    is_first
        && is_second
        && port.state() == LinkState::Active
        && sends(port, &[0, 0, 0, 1])
        && sends(port, &[0x90, 0x00, 0x80, 0x03])
        && sends(port, &[])
}

#[test]
fn overflow(rt: HostRuntime) {
    let mut port = LinkPort::new(FEW, rt.alloc());
    port.up(rt.alloc());
    assert!(rt; begin(&mut port) && overflow_is_noted(&mut port));
}

/// A port sends no more than the peer's credits, until an UpdateFC.
fn credits_are_kept(port: &mut LinkPort) -> bool {
    takes(port, [0xE0, 0x00, 0x00, 0x00])
        && enters(port, &ADD, 0)
        && refusal(port, &ADD) == Some(EnterRefusal::NoCredits(Class::NonPosted))
        && takes(port, [0x90, 0x00, 0x80, 0x03])
        && enters(port, &ADD, 1)
}

#[test]
fn no_credits(rt: HostRuntime) {
    let mut port = LinkPort::new(FEW, rt.alloc());
    port.up(rt.alloc());
    assert!(rt; begin(&mut port) && credits_are_kept(&mut port));
}

/// An Ack counts once its packet was given out, and a replay takes nothing of that back.
fn acks_count_what_was_given(port: &mut LinkPort) -> bool {
    takes(port, [0xE0, 0x00, 0x00, 0x00])
        && enters(port, &ADD, 0)
        && port.receive_dllp(&[0, 0, 0, 0], Check::Good) == Err(DllpRefusal::NotOutstanding)
        && sends(port, &ADD_0)
        && port.replay() == 1
        && takes(port, [0x00, 0x00, 0x00, 0x00])
}

#[test]
fn acks(rt: HostRuntime) {
    let mut port = LinkPort::new(FEW, rt.alloc());
    port.up(rt.alloc());
    assert!(rt; begin(&mut port) && acks_count_what_was_given(&mut port));
}

#[test]
fn dllps_that_are_refused(rt: HostRuntime) {
    let mut port = LinkPort::new(FEW, rt.alloc());
    port.up(rt.alloc());
    assert_eq!(rt;
        port.receive_dllp(&[0x40, 0x3F, 0xC0, 0x40], Check::Good),
        Err(DllpRefusal::CreditLimit)
    );
    assert!(rt; begin(&mut port));
    let rows: [(&[u8], Result<DllpReceived, DllpRefusal>); 10] = [
        (
            &[0x00, 0x00, 0x00],
            Err(DllpRefusal::Bytes(DllpFault::Short)),
        ),
        (&[0x02, 0x00, 0x00, 0x01], Ok(DllpReceived::Gone)),
        (&[0x24, 0x00, 0x00, 0x00], Ok(DllpReceived::Gone)),
        (&[0x30, 0xAB, 0xCD, 0xEF], Ok(DllpReceived::Gone)),
        (&[0x41, 0x08, 0x00, 0x80], Ok(DllpReceived::Gone)),
        (
            &[0xC0, 0x40, 0x00, 0x00],
            Err(DllpRefusal::Bytes(DllpFault::Scaled)),
        ),
        (&[0x00, 0x00, 0x00, 0x05], Err(DllpRefusal::NotOutstanding)),
        (&[0x90, 0x30, 0x00, 0x00], Err(DllpRefusal::CreditLimit)),
        (&[0x40, 0x00, 0x00, 0x00], Ok(DllpReceived::Gone)),
        (&[0x00, 0x00, 0x0F, 0xFF], Ok(DllpReceived::Took)),
    ];
    for (bytes, want) in rows {
        assert_eq!(rt; port.receive_dllp(bytes, Check::Good), want);
    }
    assert_eq!(rt;
        port.receive_dllp(&[0xC0, 0, 0, 0], Check::Failed),
        Ok(DllpReceived::Gone)
    );
    assert_eq!(rt; port.state(), LinkState::Init2);
}

#[test]
fn names(rt: HostRuntime) {
    let rows = [
        (EnterRefusal::NotActive, 1, "NotActive"),
        (EnterRefusal::NoCredits(Class::Posted), 2, "NoCredits"),
        (EnterRefusal::WindowFull, 3, "WindowFull"),
        (EnterRefusal::Memory, 4, "Memory"),
    ];
    for (refusal, number, name) in rows {
        assert!(rt; refusal.number() == number && refusal.name() == name);
    }
    let rows = [
        (DllpRefusal::Bytes(DllpFault::Scaled), 3, "Scaled"),
        (DllpRefusal::NotOutstanding, 4, "NotOutstanding"),
        (DllpRefusal::CreditLimit, 5, "CreditLimit"),
    ];
    for (refusal, number, name) in rows {
        assert!(rt; refusal.number() == number && refusal.name() == name);
    }
}
