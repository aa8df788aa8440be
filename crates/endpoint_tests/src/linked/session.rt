//! A device beside the digits of its link.
use crate::port::CREDITS;
use arrayvec::ArrayVec;
use config_core::Setup;
use endpoint_core::Room;
use endpoint_log::Recording;
use hex_text::HexLine;
use link_crc::Check;
use linked_endpoint::{Arrived, LinkedEndpoint};
use port_core::DllpReceived;
use std::alloc::{AllocError, Global};

/// A device of 4096 bytes.
pub fn device(alloc: Global) -> Result<LinkedEndpoint, AllocError> {
    match Setup::new(4096, 0x1234, 0x7C1E) {
        Some(setup) => LinkedEndpoint::new(alloc, setup, CREDITS),
        None => Err(AllocError),
    }
}

/// What becomes of a packet of these digits. All requests that may act do so then.
pub fn arrives(linked: &mut LinkedEndpoint, room: &mut Room, digits: &str) -> Option<Arrived> {
    let mut line = HexLine::new();
    if digits.len() > 512 || !line.read(digits.as_bytes()) {
        return None;
    }
    let mut recording = Recording::Lost;
    let arrived = linked
        .receive(line.bytes(), Check::Good, room, &mut recording)
        .ok()?;
    linked.settle(room, &mut recording).ok()?;
    Some(arrived)
}

/// Whether a DLLP of these digits takes effect.
pub fn takes(linked: &mut LinkedEndpoint, digits: &str) -> bool {
    let mut line = HexLine::new();
    if digits.len() > 512 || !line.read(digits.as_bytes()) {
        return false;
    }
    linked.receive_dllp(line.bytes(), Check::Good) == Ok(DllpReceived::Took)
}

/// Whether what is sent next has these digits, and zeros behind them; or, without digits, nothing is sent.
pub fn sends(linked: &mut LinkedEndpoint, digits: &str) -> bool {
    let mut line = HexLine::new();
    if digits.len() > 512 || !line.read(digits.as_bytes()) {
        return false;
    }
    let wanted = line.bytes();
    let mut out = ArrayVec::new();
    linked.next(&mut out);
    match (out.get(..wanted.len()), out.get(wanted.len()..)) {
        (Some(front), Some(rest)) => {
            front == wanted
                && rest.iter().all(|byte| *byte == 0)
                && (!wanted.is_empty() || rest.is_empty())
        }
        _ => false,
    }
}
