//! What a request that was never answered would leave, and others that pass over it.
ghost use Rattle.std.specs.Prelude.{ℕ, ◌≡◌, Some, None, IsTrue, false, slice_get};
ghost use Rattle.tlp_core.specs.Ops.{Op};
ghost use Rattle.tlp_core.specs.Operation.{is_posted};
ghost use Rattle.log_runs.specs.EventView as events;
ghost use Rattle.search_rules.specs.Idle.{IsJunkBehind, RestsBehind};

use crate::junk::{Request, is_served, leaves_junk};
use crate::resting::rests;
use log_runs::laws::headers_are_of_events;
use log_runs::{Event, EventHeader, Log};
use seq_memory::ReplyRef;
use tlp_core::OpRef;

/// An operation, and what the memory would answer it.
#[derive(Clone, Copy)]
pub struct Made<'a> {
    pub op: &'a OpRef<'a>,
    pub reply: &'a ReplyRef<'a>,
}

/// The event submits a request that has no answer and isn't posted.
pub fn is_unanswered(log: &Log, b: usize) -> bool
    ensures { IsTrue result → (i : ℕ) × (op : Op) × (slice_get log.now.events b ≡ Some (events.Sub i op None)) × (is_posted op ≡ false) }
{
    headers_are_of_events();
    match log.header(b) {
        Some(
            EventHeader::Sub {
                is_posted: false,
                is_answered: false,
                ..
            },
        ) => true,
        _ => false,
    }
}

/// What the operation leaves at its addresses where it is answered so is nothing to request `q`.
pub fn is_junk_behind(log: &Log, q: usize, made: Made) -> bool
    ensures { IsTrue result → IsJunkBehind log.now made.entry.op.now made.entry.reply.now q }
{
    let third = Request {
        op: made.op,
        told: Some(made.reply),
    };
    match log.event(q) {
        Some(Event::Sub { op, reply, .. }) => {
            let one = Request {
                op: &op,
                told: reply.as_ref(),
            };
            leaves_junk(log, one, made.op, third)
        }
        Some(Event::Due { .. }) => true,
        Some(Event::Free) => true,
        None => false,
    }
}

/// Request `q` changes nothing while the bytes at the operation's addresses are as that leaves them where it is answered so.
pub fn rests_behind(log: &Log, q: usize, made: Made) -> bool
    ensures { IsTrue result → RestsBehind log.now.extent made.entry.op.now made.entry.reply.now (slice_get log.now.events q) }
{
    if !is_served(log, made.op) {
        return false;
    }
    match log.event(q) {
        Some(Event::Sub { op, .. }) => rests(log.extent().block(), made.op, Some(made.reply), &op),
        _ => false,
    }
}
