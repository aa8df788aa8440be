//! Worked requests, served.
use arrayvec::ArrayVec;
use completer_core::{need_to_answer, serve};
use flow_control::Need;
use seq_memory::{Extent, Memory};
use std::alloc::{AllocError, Global};
use tlp_core::{Tlp, decode, encode};

/// A FetchAdd of 7 at 40h.
const REQUEST: [u8; 16] = [0x4C, 0, 0, 1, 1, 0, 5, 0, 0, 0, 0, 0x40, 7, 0, 0, 0];

/// Its completion, with the 4 bytes before.
const COMPLETION: [u8; 16] = [0x4A, 0, 0, 1, 0, 0, 0, 4, 1, 0, 5, 0, 0, 0, 0, 0];

/// Whether these are the bytes of the packet.
fn is_spelled(packet: &Tlp, bytes: &[u8]) -> bool {
    let mut canonical = ArrayVec::new();
    encode(packet, &mut canonical);
    canonical.as_slice() == bytes
}

/// The request is served; whether it's answered by the completion.
fn is_answered(memory: &mut Memory, request: &Tlp) -> Result<bool, AllocError> {
    match serve(memory, request, 0)? {
        Some(completion) => Ok(is_spelled(&completion, &COMPLETION)),
        None => Ok(false),
    }
}

/// Whether the one entry added 7 to zeros.
fn has_added(memory: &Memory) -> bool {
    let bytes = memory.bytes();
    memory.entries().len() == 1
        && bytes.len() == 4096
        && &bytes[0x40..0x48] == [7, 0, 0, 0, 0, 0, 0, 0].as_slice()
}

/// Whether the request needs credits for 4 bytes, is answered, and leaves the sum.
fn is_served(memory: &mut Memory, request: &Tlp) -> Result<bool, AllocError> {
    let need = need_to_answer(memory, request);
    let answered = is_answered(memory, request)?;
    Ok(need == Some(Need::completion(4)) && answered && has_added(memory))
}

/// The request's bytes, served.
fn serves(memory: &mut Memory) -> Result<bool, AllocError> {
    match decode(&REQUEST) {
        Ok(request) => is_served(memory, &request),
        Err(_) => Ok(false),
    }
}

fn new_serves(alloc: Global) -> Result<bool, AllocError> {
    let mut memory = Memory::new(alloc, Extent::new(0, 4096, 64).unwrap())?;
    serves(&mut memory)
}

#[test]
fn fetch_add(rt: HostRuntime) {
    assert!(rt; new_serves(rt.alloc()) == Ok(true));
}
