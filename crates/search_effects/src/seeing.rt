//! What a request can be answered.
ghost use Rattle.std.specs.Prelude.{◌≡◌, ◌+◌, ◌<◌, ◌≤◌, ◌⊎◌, ℕ, true, false, List, length, IsTrue, slice_index};
ghost use Rattle.arrayvec.specs.ArrayVec.{ArrayVec};
ghost use Rattle.tlp_core.specs.Operation.{address_of, count_of};
ghost use Rattle.seq_memory.specs.declared.reply.ReplyOf.TheVariants as replies;
ghost use Rattle.seq_memory.specs.Step.{after, answer};
ghost use Rattle.search_effects.specs.Effects as effects;
ghost use Rattle.search_effects.specs.Effects.{AreSameBut};

use crate::puts::{is_read, place_of};
use crate::ranges::is_needed;
use seq_memory::laws::refused_and_read_change_nothing;
use tlp_core::OpRef;

/// The first operation needs the byte at that place of its range, and the second has it, as far as that
/// is known.
fn needs_there(one: &OpRef<'_>, other: &OpRef<'_>, at: usize) -> bool
    ensures { result ≡ false → effects.is_needed one.now at ≡ true →
        (address_of one.now + at < address_of other.now) ⊎ (address_of other.now + count_of other.now ≤ address_of one.now + at) }
{
    if !is_needed(one, at) {
        return false;
    }
    let Some(address) = one.address().checked_add(at as u64) else {
        return true;
    };
    place_of(other, address).is_some()
}

/// The first operation needs no byte of the second.
fn needs_none(one: &OpRef<'_>, other: &OpRef<'_>) -> bool
    ensures { IsTrue result → (at : ℕ) → at < count_of one.now → effects.is_needed one.now at ≡ true →
        (address_of one.now + at < address_of other.now) ⊎ (address_of other.now + count_of other.now ≤ address_of one.now + at) }
{
    for at in 0..one.size() as usize {
        if needs_there(one, other, at) {
            return false;
        }
    }
    true
}

/// The first is a read that needs no byte of the second: whatever stands there, it is answered the same.
pub fn sees_none(one: &OpRef<'_>, other: &OpRef<'_>) -> bool
    ensures read { IsTrue result → (base block : ℕ) (m : List ℕ) → after base block m one.now ≡ m }
    ensures answer { IsTrue result → (base block : ℕ) (m n : List ℕ) → AreSameBut base other.now m n →
        answer base block n one.now ≡ answer base block m one.now }
{
    refused_and_read_change_nothing();
    if !is_read(one) {
        return false;
    }
    needs_none(one, other)
}

/// The data have a byte other than 0 that the operation doesn't need.
fn has_needless(op: &OpRef<'_>, bytes: &[u8]) -> bool
    ensures { IsTrue result → (at : ℕ) × (at < length bytes.now) × (effects.is_needed op.now at ≡ false) × (slice_index bytes.now at ≡ 0 → ⊥) }
{
    for at in 0..bytes.len() {
        if bytes[at] != 0 && !is_needed(op, at) {
            return true;
        }
    }
    false
}

/// No memory answers the operation with these data.
pub fn never_gives(op: &OpRef<'_>, bytes: &[u8]) -> bool
    ensures { IsTrue result → (base block : ℕ) (m : List ℕ) (d : ArrayVec ℕ) → d.items ≡ bytes.now → answer base block m op.now ≡ replies.Data d → ⊥ }
{
    if bytes.len() != op.size() as usize {
        return true;
    }
    is_read(op) && has_needless(op, bytes)
}
