//! Requests that ask for the same and were answered the same.
ghost use Rattle.std.specs.Prelude.{◌≡◌, IsTrue, false, slice_get, Some, Option, ℕ};
ghost use Rattle.tlp_core.specs.Operation.{is_posted};
ghost use Rattle.search_effects.specs.Effects.{told_of};
ghost use Rattle.log_runs.specs.EventView as events;
ghost use Rattle.search_rules.specs.Alike.{AreAlike};

use log_runs::{Event, Log};
use seq_memory::ReplyRef;
use tlp_core::OpRef;

/// They were answered the same, or neither was.
fn are_told_alike(told: Option<&ReplyRef<'_>>, asked: Option<&ReplyRef<'_>>) -> bool
    ensures { IsTrue result → told_of told.entry ≡ told_of asked.entry }
{
    match told {
        Some(reply) => match asked {
            Some(other) => *reply == *other,
            None => false,
        },
        None => asked.is_none(),
    }
}

/// Request `c` asks for that, and was answered so. It is no posted write.
fn is_like(log: &Log, op: &OpRef<'_>, told: Option<&ReplyRef<'_>>, c: usize) -> bool
    ensures unposted { IsTrue result → is_posted op.now ≡ false }
    ensures same { IsTrue result → (j : ℕ) × (slice_get log.now.events c ≡ Some (events.Sub j op.now (told_of told.entry))) }
{
    if op.is_posted() {
        return false;
    }
    match log.event(c) {
        Some(
            Event::Sub {
                op: other,
                reply,
                ..
            },
        ) => *op == other && are_told_alike(told, reply.as_ref()),
        _ => false,
    }
}

/// The two ask for the same and were answered the same, if they were. Neither is a posted write.
pub fn are_alike(log: &Log, b: usize, c: usize) -> bool
    ensures { IsTrue result → AreAlike log.now b c }
{
    match log.event(b) {
        Some(Event::Sub { op, reply, .. }) => is_like(log, &op, reply.as_ref(), c),
        _ => false,
    }
}
