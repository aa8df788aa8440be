//! Answers that no memory gives.
ghost use Rattle.std.specs.Prelude.{ℕ, ◌≡◌, List, Some, None, false, IsTrue, IfSome, length};
ghost use Rattle.seq_memory.specs.Entries.{Reply};
ghost use Rattle.seq_memory.specs.Step.{answer, answer_by, refusal};
ghost use Rattle.search_effects.specs.Effects.{told_of};
ghost use Rattle.log_runs.specs.Runs.{Dead, reply_of, start};
ghost use Rattle.search_rules.specs.Rules.{Answers, NeverSuits};

use crate::laws::what_is_never_answered_is_dead;
use log_runs::{Event, EventHeader, Log};
use search_effects::never_gives;
use seq_memory::{Refusal, ReplyRef, refusal_lent};
use tlp_core::OpRef;

/// A request that is refused so is answered so.
fn is_refusal(refused: Refusal, reply: &ReplyRef<'_>) -> bool
    ensures { result ≡ false → (made : Reply) → answer_by (Some refused) made ≡ reply.now → ⊥ }
{
    match refused {
        Refusal::Aborted => matches!(reply, ReplyRef::Aborted),
        Refusal::Unsupported => matches!(reply, ReplyRef::Unsupported),
    }
}

/// The operation isn't answered so where it is served.
fn is_never_answered(op: &OpRef<'_>, reply: &ReplyRef<'_>) -> bool
    ensures { IsTrue result → (base block : ℕ) (m : List ℕ) → refusal base (length m) block op.now ≡ None → answer base block m op.now ≡ reply.now → ⊥ }
{
    match reply {
        ReplyRef::Data(data) => never_gives(op, data.as_slice()),
        ReplyRef::Done => false,
        ReplyRef::Unsupported => true,
        ReplyRef::Aborted => true,
    }
}

/// No memory of the log's size answers the operation so.
fn is_unanswerable(log: &Log, op: &OpRef<'_>, reply: &ReplyRef<'_>) -> bool
    ensures { IsTrue result → (m : List ℕ) → length m ≡ log.now.extent.size → reply_of log.now.extent m op.now ≡ reply.now → ⊥ }
{
    let extent = log.extent();
    match refusal_lent(extent.base(), extent.block(), extent.size(), op) {
        Some(refused) => !is_refusal(refused, reply),
        None => is_never_answered(op, reply),
    }
}

/// [`is_unanswerable`], if the operation was answered.
fn was_unanswerable(log: &Log, op: &OpRef<'_>, told: Option<&ReplyRef<'_>>) -> bool
    ensures { IsTrue result → (m : List ℕ) → length m ≡ log.now.extent.size → Answers log.now.extent m op.now (told_of told.entry) → ⊥ }
{
    match told {
        Some(reply) => is_unanswerable(log, op, reply),
        None => false,
    }
}

/// No memory of the log's size answers the request so as it was answered.
fn never_suits(log: &Log, q: usize) -> bool
    ensures { IsTrue result → NeverSuits log.now q }
{
    match log.event(q) {
        Some(Event::Sub { op, reply, .. }) => was_unanswerable(log, &op, reply.as_ref()),
        _ => false,
    }
}

/// There is an answer at that place that no memory of the log's size gives, so that no run leads to the
/// end.
fn is_dead_at(log: &Log, at: usize) -> bool
    ensures { IsTrue result → Dead log.now (start log.now) }
{
    what_is_never_answered_is_dead();
    match log.header(at) {
        Some(EventHeader::Due { request }) => never_suits(log, request),
        _ => false,
    }
}

/// The place of the first answer that no memory of the log's size gives, if there is one: no run leads to
/// the end then.
pub fn first_unanswerable(log: &Log) -> Option<usize>
    ensures { IfSome result (λ at. Dead log.now (start log.now)) }
{
    for at in 0..log.len() {
        if is_dead_at(log, at) {
            return Some(at);
        }
    }
    None
}
