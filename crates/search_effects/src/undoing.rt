//! One operation of the sequential memory that can be taken back.
//!
//! [`act`] does an operation on bytes; here is what the memory would answer, and how the bytes are made again what they
//! were before it. Nothing here takes memory.
ghost use Rattle.std.specs.Prelude.{◌≡◌, ℕ, List};
ghost use Rattle.seq_memory.specs.Limits.{IsBlock};
ghost use Rattle.seq_memory.specs.Step.{after, answer};
ghost use Rattle.search_effects.specs.Saved.{saved_at};

use seq_memory::laws::{only_the_place_changes, refused_and_read_change_nothing};
use seq_memory::{Refusal, ReplyData, ReplyRef, perform_lent, refusal_lent};
use tlp_core::{OpRef, Payload, payload_of};

/// What the memory whose bytes begin at `base` would answer to the operation, by blocks of `block`
/// bytes. The reply's data is put into the room, whose content doesn't count.
#[tactic(auto, using(crate::proofs::UndoApart::apart))]
pub fn reply<'r>(
    base: u64,
    block: u16,
    bytes: &[u8],
    op: &OpRef<'_>,
    room: &'r mut ReplyData,
) -> ReplyRef<'r>
    requires { IsBlock block }
    ensures { result ≡ answer base block bytes.now op.now }
{
    match refusal_lent(base, block, bytes.len(), op) {
        Some(Refusal::Aborted) => ReplyRef::Aborted,
        Some(Refusal::Unsupported) => ReplyRef::Unsupported,
        None => {
            let from = (op.address() - base) as usize;
            let mut place = payload_of(&bytes[from..from + op.size() as usize]);
            perform_lent(op.address(), block, place.as_mut_slice(), op, room)
        }
    }
}

/// Performs the operation on the bytes.
pub fn act(base: u64, block: u16, bytes: &mut [u8], op: &OpRef<'_>)
    requires { IsBlock block }
    ensures { bytes.new ≡ after base block bytes.old op.now }
{
    refused_and_read_change_nothing();
    if refusal_lent(base, block, bytes.len(), op).is_some() {
        return;
    }
    let mut room = ReplyData::new();
    let _ = perform_lent(base, block, bytes, op, &mut room);
}

/// Performs the operation on the bytes, as [`act`] does. The bytes that were at its place, if it is served, for
/// [`put_back`]; else none.
pub fn overwrite(base: u64, block: u16, bytes: &mut [u8], op: &OpRef<'_>) -> Payload
    requires { IsBlock block }
    ensures bytes { bytes.new ≡ after base block bytes.old op.now }
    ensures old { result.items ≡ saved_at base block bytes.old op.now }
{
    refused_and_read_change_nothing();
    if refusal_lent(base, block, bytes.len(), op).is_some() {
        return payload_of(&[]);
    }
    let from = (op.address() - base) as usize;
    let old = payload_of(&bytes[from..from + op.size() as usize]);
    let mut room = ReplyData::new();
    let _ = perform_lent(base, block, bytes, op, &mut room);
    old
}

/// Makes the bytes what they were before the operation, if `old` is what [`overwrite`] returned then.
pub fn put_back(base: u64, block: u16, bytes: &mut [u8], op: &OpRef<'_>, old: &[u8])
    requires { IsBlock block }
    ensures { (m : List ℕ) → bytes.old ≡ after base block m op.now → old.now ≡ saved_at base block m op.now → bytes.new ≡ m }
{
    only_the_place_changes();
    refused_and_read_change_nothing();
    if refusal_lent(base, block, bytes.len(), op).is_some() {
        return;
    }
    let from = (op.address() - base) as usize;
    let place = &mut bytes[from..from + op.size() as usize];
    if place.len() == old.len() {
        place.copy_from_slice(old);
    }
}
