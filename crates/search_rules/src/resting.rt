//! AtomicOps that change nothing behind another.
ghost use Rattle.std.specs.Prelude.{◌≡◌, ℕ, None, List, length, IsTrue};
ghost use Rattle.seq_memory.specs.Limits.{IsBlock};
ghost use Rattle.seq_memory.specs.Step.{refusal, after};
ghost use Rattle.search_effects.specs.Effects as effects;
ghost use Rattle.search_effects.specs.Effects.{Agrees, AreSameAt, told_of};

use search_effects::{is_quiet, left, spans};
use seq_memory::ReplyRef;
use seq_memory::laws::refused_and_read_change_nothing;
use tlp_core::{OpRef, PayloadRef};

fn is_atomic(op: &OpRef<'_>) -> bool
    ensures { result ≡ effects.is_atomic op.now }
{
    match op {
        OpRef::Read { .. } | OpRef::Write { .. } => false,
        _ => true,
    }
}

/// After `one`, an AtomicOp that is served and was answered `told` or not at all, the AtomicOp `other`, whose addresses are
/// among those of `one`, changes nothing while the bytes there are as `one` left them.
pub(crate) fn rests(
    block: u16,
    one: &OpRef<'_>,
    told: Option<&ReplyRef<'_>>,
    other: &OpRef<'_>,
) -> bool
    requires { IsBlock block }
    ensures { IsTrue result → (base : ℕ) (m n : List ℕ) → refusal base (length m) block one.now ≡ None → Agrees base block m one.now (told_of told.entry) →
        AreSameAt base one.now (after base block m one.now) n → after base block n other.now ≡ n }
{
    refused_and_read_change_nothing();
    if !is_atomic(one) || !is_atomic(other) || !spans(one, other) {
        return false;
    }
    let from = (other.address() - one.address()) as usize;
    let end = from + other.size() as usize;
    let new = left(block, one, told);
    if end > new.len() {
        return false;
    }
    let there = ReplyRef::Data(PayloadRef::new(&new.as_slice()[from..end]));
    is_quiet(block, other, Some(&there))
}
