//! One packet at the device.
ghost use Rattle.std.specs.Prelude.{◌≡◌, ◌≤◌, IsErr, length};
ghost use Rattle.tlp_core.specs.Layout.{canonical};
ghost use Rattle.c_buffer.specs.Buffer.{filled};
ghost use Rattle.seq_memory.specs.Limits.{IsBlock};
ghost use Rattle.c_device.specs.Call.{served, call};

use c_buffer::{Failure, Length, tell};
use completer_core::answer_lent;
use seq_memory::{ReplyData, is_block};
use tlp_core::{
    COMPLETION_HEADER, MAX_TLP, TlpRef, decode_lent, encode_lent, put_completion_header,
};

/// The bytes of buffer that a call asks for, whatever its completion has.
pub const MAX_COMPLETION: usize = MAX_TLP;

/// Puts the canonical bytes of the completion to the front of a buffer of at least
/// [`MAX_COMPLETION`] bytes, and returns how many they are.
#[inline(always)]
pub fn tell_completion(completion: &TlpRef<'_>, buffer: &mut [u8]) -> Length
    requires { 144 ≤ length buffer.old }
    ensures length { result ≡ length (canonical completion.now) }
    ensures buffer { buffer.new ≡ filled buffer.old (canonical completion.now) }
{
    let mut header = [0; COMPLETION_HEADER];
    if put_completion_header(completion, &mut header) {
        let end = COMPLETION_HEADER + completion.payload.len();
        buffer[..COMPLETION_HEADER].copy_from_slice(&header);
        buffer[COMPLETION_HEADER..end].copy_from_slice(completion.payload);
        return Length::new(end);
    }
    let mut room = [0; MAX_TLP];
    let count = encode_lent(completion, &mut room);
    tell(&room[..count], buffer)
}

/// Answers a packet.
fn answer_packet(
    base: u64,
    block: u16,
    bytes: &mut [u8],
    packet: &TlpRef<'_>,
    buffer: &mut [u8],
) -> Result<Length, Failure>
    requires block { IsBlock block }
    requires buffer { 144 ≤ length buffer.old }
    ensures outcome { result ≡ (served base block bytes.old buffer.old packet.now).outcome }
    ensures bytes { bytes.new ≡ (served base block bytes.old buffer.old packet.now).bytes }
    ensures buffer { buffer.new ≡ (served base block bytes.old buffer.old packet.now).buffer }
    ensures unchanged { IsErr result → (bytes.new ≡ bytes.old) × (buffer.new ≡ buffer.old) }
{
    if packet.header.kind.is_completion() {
        return Err(Failure::NoRequest);
    }
    let mut room = ReplyData::new();
    match answer_lent(base, block, bytes, packet, &mut room) {
        Some(completion) => Ok(tell_completion(&completion, buffer)),
        None => Ok(Length::new(0)),
    }
}

/// Answers the packet over the caller's bytes, whose first has the address `base`, by blocks of
/// `block` bytes. Ok is how many bytes the completion at the front of `buffer` has, 0 for a posted
/// write, which has none. With an error nothing has changed: `WrongBlock`, then `SmallBuffer` for
/// fewer than 144 bytes, then the number of the fault if `packet` is no packet, then `NoRequest` for
/// a completion. A request across a block or outside the bytes changes none of them, and its
/// completion, if it has one, says so.
pub fn answer_bytes(
    base: u64,
    block: u16,
    bytes: &mut [u8],
    packet: &[u8],
    buffer: &mut [u8],
) -> Result<Length, Failure>
    ensures outcome { result ≡ (call base block bytes.old packet.now buffer.old).outcome }
    ensures bytes { bytes.new ≡ (call base block bytes.old packet.now buffer.old).bytes }
    ensures buffer { buffer.new ≡ (call base block bytes.old packet.now buffer.old).buffer }
    ensures unchanged { IsErr result → (bytes.new ≡ bytes.old) × (buffer.new ≡ buffer.old) }
{
    if !is_block(block) {
        return Err(Failure::WrongBlock);
    }
    if buffer.len() < MAX_COMPLETION {
        return Err(Failure::SmallBuffer);
    }
    match decode_lent(packet) {
        Ok(packet) => answer_packet(base, block, bytes, &packet, buffer),
        Err(fault) => Err(Failure::Fault(fault.number())),
    }
}
