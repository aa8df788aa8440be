//! A device beside the digits of its TLPs.
use config_core::Setup;
use endpoint_core::{Endpoint, Handled, Room};
use hex_text::HexLine;
use std::alloc::{AllocError, Global};
use tlp_core::{MAX_TLP, encode_lent};

/// A device of 4096 bytes.
pub fn device(alloc: Global) -> Result<Endpoint, AllocError> {
    match Setup::new(4096, 0x1234, 0x7C1E) {
        Some(setup) => Endpoint::new(alloc, setup),
        None => Err(AllocError),
    }
}

/// What becomes of a TLP of these digits.
pub fn take(endpoint: &mut Endpoint, room: &mut Room, digits: &str) -> Option<Handled> {
    let mut line = HexLine::new();
    if digits.len() > 512 || !line.read(digits.as_bytes()) {
        return None;
    }
    endpoint.take(line.bytes(), room).ok()
}

/// Whether the next completion has these digits, and zeros behind them; or there is none.
pub fn answers(endpoint: &mut Endpoint, room: &mut Room, digits: &str) -> bool {
    let mut line = HexLine::new();
    if digits.len() > 512 || !line.read(digits.as_bytes()) {
        return false;
    }
    let wanted = line.bytes();
    let mut bytes = [0; MAX_TLP];
    let len = match endpoint.act(room) {
        Some(completion) => encode_lent(&completion, &mut bytes),
        None => 0,
    };
    match (
        bytes[..len].get(..wanted.len()),
        bytes[..len].get(wanted.len()..),
    ) {
        (Some(front), Some(rest)) => front == wanted && rest.iter().all(|byte| *byte == 0),
        _ => false,
    }
}
