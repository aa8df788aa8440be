//! Requests that leave the same, whatever stood at the bytes of another.
ghost use Rattle.std.specs.Prelude.{◌≡◌, ◌+◌, ◌<◌, ◌≤◌, ℕ, true, None, List, length, IsTrue};
ghost use Rattle.arrayvec.specs.ArrayVec.{ArrayVec};
ghost use Rattle.tlp_core.specs.Operation.{address_of, count_of};
ghost use Rattle.tlp_core.specs.declared.operation.OpOf.TheVariants as ops;
ghost use Rattle.tlp_core.specs.declared.operation.Width.{Width};
ghost use Rattle.seq_memory.specs.Step.{refusal, after};
ghost use Rattle.search_effects.specs.Effects as effects;
ghost use Rattle.search_effects.specs.Effects.{AreSameBut};

use crate::ranges::is_put;
use seq_memory::laws::{only_the_place_changes, refused_and_read_change_nothing};
use tlp_core::OpRef;

fn is_write(op: &OpRef<'_>) -> bool
    ensures { IsTrue result → (a : ℕ) × (f : ℕ) × (l : ℕ) × (bytes : ArrayVec ℕ) × (op.now ≡ ops.Write a f l bytes) }
{
    matches!(op, OpRef::Write { .. })
}

fn is_swap(op: &OpRef<'_>) -> bool
    ensures { IsTrue result → (a : ℕ) × (w : Width) × (x : ℕ) × (op.now ≡ ops.Swap a w x) }
{
    matches!(op, OpRef::Swap { .. })
}

/// The operation writes each byte of its range.
fn puts_all(op: &OpRef<'_>) -> bool
    ensures { IsTrue result → (at : ℕ) → at < count_of op.now → effects.is_put op.now at ≡ true }
{
    for at in 0..op.size() as usize {
        if !is_put(op, at) {
            return false;
        }
    }
    true
}

/// The first has all addresses of the second.
pub fn spans(one: &OpRef<'_>, other: &OpRef<'_>) -> bool
    ensures low { IsTrue result → address_of one.now ≤ address_of other.now }
    ensures high { IsTrue result → address_of other.now + count_of other.now ≤ address_of one.now + count_of one.now }
{
    let (a, b) = (one.address(), other.address());
    let (count, inner) = (u64::from(one.size()), u64::from(other.size()));
    a <= b && inner <= count && b - a <= count - inner
}

/// The first is a Swap of all bytes of the second, or a write of them: where it is served, it leaves the same,
/// whatever stood there. (A Swap's reply tells what stood there.)
pub fn covers(one: &OpRef<'_>, other: &OpRef<'_>) -> bool
    ensures { IsTrue result → (base block : ℕ) (m n : List ℕ) → refusal base (length m) block one.now ≡ None → AreSameBut base other.now m n →
        after base block n one.now ≡ after base block m one.now }
{
    only_the_place_changes();
    refused_and_read_change_nothing();
    if !spans(one, other) {
        return false;
    }
    if is_swap(one) {
        return true;
    }
    if !is_write(one) {
        return false;
    }
    puts_all(one)
}
