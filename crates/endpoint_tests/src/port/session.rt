//! A port beside the bytes of its link.
use arrayvec::ArrayVec;
use flow_control::LaneCredits;
use link_crc::Check;
use port_core::{DllpReceived, EnterRefusal, LinkPort, Outgoing, Received};

/// The credits of an endpoint: completions are infinite.
pub const CREDITS: LaneCredits = LaneCredits {
    ph: 16,
    pd: 64,
    nph: 16,
    npd: 16,
    cplh: 0,
    cpld: 0,
};

/// Whether these are the bytes that the port sends next, or nothing for none.
pub fn sends(port: &mut LinkPort, bytes: &[u8]) -> bool {
    let mut out = ArrayVec::new();
    let sent = port.next(&mut out);
    (sent == Outgoing::Nothing) == bytes.is_empty() && out.as_slice() == bytes
}

/// Whether a DLLP takes effect.
pub fn takes(port: &mut LinkPort, dllp: [u8; 4]) -> bool {
    port.receive_dllp(&dllp, Check::Good) == Ok(DllpReceived::Took)
}

/// Whether a packet is handed up, and its credits go back at once.
pub fn hands_up(port: &mut LinkPort, packet: &[u8]) -> bool {
    match port.receive(packet, Check::Good) {
        Received::Accepted {
            need: Some(need),
            overflows: false,
        } => {
            port.free(need);
            true
        }
        _ => false,
    }
}

/// Whether the TLP that these bytes spell enters under this number.
pub fn enters(port: &mut LinkPort, tlp: &[u8], number: u16) -> bool {
    match tlp_core::decode(tlp) {
        Ok(tlp) => match port.enter(&tlp.lend()) {
            Ok(got) => got.value() == number,
            Err(_) => false,
        },
        Err(_) => false,
    }
}

/// Why the TLP that these bytes spell doesn't enter.
pub fn refusal(port: &mut LinkPort, tlp: &[u8]) -> Option<EnterRefusal> {
    match tlp_core::decode(tlp) {
        Ok(tlp) => port.enter(&tlp.lend()).err(),
        Err(_) => None,
    }
}

/// Initialization with a peer that advertises 32, 128, 32, 32 and infinite completions, up to the first InitFC2.
pub fn initialize(port: &mut LinkPort) -> bool {
    sends(port, &[0x40, 0x04, 0x00, 0x40])
        && sends(port, &[0x50, 0x04, 0x00, 0x10])
        && sends(port, &[0x60, 0x00, 0x00, 0x00])
        && sends(port, &[])
        && takes(port, [0x40, 0x08, 0x00, 0x80])
        && takes(port, [0x50, 0x08, 0x00, 0x20])
        && takes(port, [0x60, 0x00, 0x00, 0x00])
        && sends(port, &[0xC0, 0x04, 0x00, 0x40])
        && sends(port, &[0xD0, 0x04, 0x00, 0x10])
        && sends(port, &[0xE0, 0x00, 0x00, 0x00])
        && sends(port, &[])
        && takes(port, [0xC0, 0x08, 0x00, 0x80])
}
