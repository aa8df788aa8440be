//! Requests that don't find what they need.
ghost use Rattle.std.specs.Prelude.{◌≡◌, ◌+◌, ◌-◌, ◌<◌, ◌≤◌, ◌≢◌, ℕ, true, List, length, IsTrue, slice_index};
ghost use Rattle.tlp_core.specs.Operation.{address_of, count_of};
ghost use Rattle.seq_memory.specs.Step.{answer};
ghost use Rattle.search_effects.specs.Effects as effects;
ghost use Rattle.search_effects.specs.Effects.{Agrees, AreSameAt, told_of};

use crate::laws::what_is_needed_is_there;
use crate::ranges::{index_of, is_needed, place_in};
use seq_memory::ReplyRef;
use tlp_core::OpRef;

/// An operation that is answered with data.
#[derive(Clone, Copy)]
struct Answered<'a> {
    op: &'a OpRef<'a>,
    reply: &'a [u8],
}

/// At place `at` of the first operation, which is in the second's range, stands another byte than the
/// first needs.
fn differs(base: u64, bytes: &[u8], first: Answered<'_>, other: &OpRef<'_>, at: usize) -> bool
    ensures { IsTrue result →
        (base ≤ address_of first.entry.op.now) × (address_of other.now ≤ address_of first.entry.op.now + at) ×
        (address_of first.entry.op.now + at < address_of other.now + count_of other.now) × (at < length first.entry.reply.now) ×
        (effects.is_needed first.entry.op.now at ≡ true) ×
        (slice_index bytes.now (address_of first.entry.op.now - base + at) ≢ slice_index first.entry.reply.now at) }
{
    let Answered {
        op: one,
        reply: old,
    } = first;
    let Some(i) = place_in(other, one, at) else {
        return false;
    };
    let Some(k) = index_of(base, one, at) else {
        return false;
    };
    i < other.size() as usize
        && k < bytes.len()
        && at < old.len()
        && bytes[k] != old[at]
        && is_needed(one, at)
}

/// It does so at some place.
fn some_differs(base: u64, bytes: &[u8], first: Answered<'_>, other: &OpRef<'_>) -> bool
    ensures { IsTrue result →
        (at : ℕ) × (base ≤ address_of first.entry.op.now) × (address_of other.now ≤ address_of first.entry.op.now + at) ×
        (address_of first.entry.op.now + at < address_of other.now + count_of other.now) × (at < length first.entry.reply.now) ×
        (effects.is_needed first.entry.op.now at ≡ true) ×
        (slice_index bytes.now (address_of first.entry.op.now - base + at) ≢ slice_index first.entry.reply.now at) }
{
    for at in 0..first.reply.len() {
        if differs(base, bytes, first, other, at) {
            return true;
        }
    }
    false
}

/// The memory doesn't answer so while the bytes in the second's range are these.
fn waits_for(
    base: u64,
    bytes: &[u8],
    one: &OpRef<'_>,
    reply: &ReplyRef<'_>,
    other: &OpRef<'_>,
) -> bool
    ensures { IsTrue result → (block : ℕ) (n : List ℕ) → AreSameAt base other.now bytes.now n → answer base block n one.now ≡ reply.now → ⊥ }
{
    what_is_needed_is_there();
    let ReplyRef::Data(old) = reply else {
        return false;
    };
    let first = Answered {
        op: one,
        reply: old.as_slice(),
    };
    some_differs(base, bytes, first, other)
}

/// The memory doesn't answer the first request what it was answered while the bytes in the second's
/// range are these.
pub fn waits<'o>(
    base: u64,
    bytes: &[u8],
    one: &OpRef<'o>,
    told: Option<&ReplyRef<'_>>,
    other: &OpRef<'o>,
) -> bool
    ensures { IsTrue result → (block : ℕ) (n : List ℕ) → AreSameAt base other.now bytes.now n → Agrees base block n one.now (told_of told.entry) → ⊥ }
{
    match told {
        Some(reply) => waits_for(base, bytes, one, reply, other),
        None => false,
    }
}
