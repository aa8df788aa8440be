//! Worked rows of a port that advertises 16, 64, 16, 16 and infinite completions.
use crate::port::session::{CREDITS, enters, hands_up, initialize, refusal, sends, takes};
use dllp_core::Class;
use flow_control::Need;
use link_crc::Check;
use port_core::{
    DllpReceived, EnterRefusal, InitStage, LinkDllp, LinkPort, LinkState, Received, decode, need_at,
};

/// Packet 000h, a CfgRd0, and the completion that answers it.
const READ: [u8; 14] = [0, 0, 0x04, 0, 0, 1, 0, 8, 0x63, 0x0F, 1, 0, 0, 0];

const ANSWER: [u8; 16] = [
    0x4A, 0, 0, 1, 0, 0, 0, 4, 0, 8, 0x63, 0, 0x34, 0x12, 0x1E, 0x7C,
];

const ANSWER_PACKET: [u8; 18] = [
    0, 0, 0x4A, 0, 0, 1, 0, 0, 0, 4, 0, 8, 0x63, 0, 0x34, 0x12, 0x1E, 0x7C,
];

/// Packet 001h, a CfgWr0.
const WRITE: [u8; 18] = [
    0, 1, 0x44, 0, 0, 1, 0, 8, 0x64, 0x0F, 1, 0, 0, 0x10, 0xFF, 0xFF, 0xFF, 0xFF,
];

#[test]
fn nothing_before_initialization(rt: HostRuntime) {
    let mut port = LinkPort::new(CREDITS, rt.alloc());
    assert_eq!(rt; port.receive(&READ, Check::Good), Received::Dropped);
    assert!(rt; sends(&mut port, &[]));
    assert_eq!(rt;
        port.receive_dllp(&[0x40, 8, 0, 0x80], Check::Good),
        Ok(DllpReceived::Gone)
    );
    port.up(rt.alloc());
    assert_eq!(rt; port.receive(&READ, Check::Good), Received::Dropped);
    assert_eq!(rt; refusal(&mut port, &ANSWER), Some(EnterRefusal::NotActive));
    assert_eq!(rt;
        port.receive_dllp(&[0, 0, 0, 0], Check::Good),
        Ok(DllpReceived::Gone)
    );
}

#[test]
fn initialization(rt: HostRuntime) {
    let mut port = LinkPort::new(CREDITS, rt.alloc());
    port.up(rt.alloc());
    assert!(rt; initialize(&mut port));
    assert_eq!(rt; port.state(), LinkState::Active);
    port.down(rt.alloc());
    assert_eq!(rt; port.state(), LinkState::Inactive);
}

/// A read is answered, comes again, and a write comes with a failed check.
fn packets_are_right(port: &mut LinkPort) -> bool {
    hands_up(port, &READ)
        && enters(port, &ANSWER, 0)
        && sends(port, &[0, 0, 0, 0])
        && sends(port, &[0x90, 0x04, 0x40, 0x10])
        && sends(port, &ANSWER_PACKET)
        && sends(port, &[])
        && port.receive(&READ, Check::Good) == Received::Duplicate
        && port.receive(&WRITE, Check::Failed) == Received::NakNow
        && port.receive(&WRITE, Check::Failed) == Received::Quiet
        && sends(port, &[0x10, 0, 0, 0])
        && sends(port, &[])
        && hands_up(port, &WRITE)
        && sends(port, &[0, 0, 0, 1])
        && sends(port, &[0x90, 0x04, 0x80, 0x11])
}

#[test]
fn packets(rt: HostRuntime) {
    let mut port = LinkPort::new(CREDITS, rt.alloc());
    port.up(rt.alloc());
    assert!(rt; initialize(&mut port) && packets_are_right(&mut port));
}

/// The completion is sent again until it is acknowledged.
fn replays_are_right(port: &mut LinkPort) -> bool {
    enters(port, &ANSWER, 0)
        && sends(port, &ANSWER_PACKET)
        && port.replay() == 1
        && sends(port, &ANSWER_PACKET)
        && takes(port, [0x10, 0, 0x0F, 0xFF])
        && sends(port, &ANSWER_PACKET)
        && takes(port, [0, 0, 0, 0])
        && port.replay() == 0
        && sends(port, &[])
}

#[test]
fn replays(rt: HostRuntime) {
    let mut port = LinkPort::new(CREDITS, rt.alloc());
    port.up(rt.alloc());
    assert!(rt; initialize(&mut port) && replays_are_right(&mut port));
}

/// Four replays without progress stop the sender.
fn stops(port: &mut LinkPort) -> bool {
    let mut right = enters(port, &ANSWER, 0);
    for _ in 0..4 {
        right &= sends(port, &ANSWER_PACKET) && port.replay() == 1;
    }
    right && sends(port, &[]) && port.retrained() && sends(port, &ANSWER_PACKET)
}

#[test]
fn fourth_replay_stops(rt: HostRuntime) {
    let mut port = LinkPort::new(CREDITS, rt.alloc());
    port.up(rt.alloc());
    assert!(rt; initialize(&mut port) && stops(&mut port));
}

/// The timers make DLLPs due again, those of infinite credits apart.
fn refreshes(port: &mut LinkPort) -> bool {
    port.refresh();
    let mut right = sends(port, &[0x40, 0x04, 0x00, 0x40]);
    port.refresh();
    right &= initialize(port);
    port.refresh();
    right
        && sends(port, &[0, 0, 0x0F, 0xFF])
        && sends(port, &[0x80, 0x04, 0x00, 0x40])
        && sends(port, &[0x90, 0x04, 0x00, 0x10])
        && sends(port, &[])
}

#[test]
fn timers(rt: HostRuntime) {
    let mut port = LinkPort::new(CREDITS, rt.alloc());
    port.up(rt.alloc());
    assert!(rt; refreshes(&mut port));
}

#[test]
fn initfcs_as_bytes(rt: HostRuntime) {
    assert!(rt;
        match decode(&[0xD0, 0x04, 0x40, 0x10]) {
            Ok(LinkDllp::Init(InitStage::Second, Class::NonPosted, first)) => {
                first.header == 17 && first.units == 16
            }
            _ => false,
        }
    );
}

/// The class and the data units of a TLP that begins with these bytes.
fn takes_of(first: u8, high: u8, low: u8) -> Option<Need> {
    need_at(&[first, 0, high, low])
}

fn need(class: Class, units: u16) -> Option<Need> {
    Some(Need {
        class,
        header: 1,
        units,
    })
}

#[test]
fn needs_of_any_tlp(rt: HostRuntime) {
    let rows = [
        (0x00, 0x00, 0x20, need(Class::NonPosted, 0)),
        (0x60, 0x00, 0x05, need(Class::Posted, 2)),
        (0x40, 0x00, 0x00, need(Class::Posted, 256)),
        (0x44, 0x00, 0x01, need(Class::NonPosted, 1)),
        (0x34, 0x00, 0x00, need(Class::Posted, 0)),
        (0x74, 0x00, 0x01, need(Class::Posted, 1)),
        (0x0B, 0x00, 0x00, need(Class::Completion, 0)),
        (0x4A, 0x03, 0xFF, need(Class::Completion, 256)),
        (0x80, 0x00, 0x00, None),
    ];
    for (first, high, low, want) in rows {
        assert_eq!(rt; takes_of(first, high, low), want, "{first}");
    }
    assert_eq!(rt; need_at(&[0, 0, 0]), None);
}
