//! Settlements.
ghost use Rattle.std.specs.Prelude.{◌≡◌, ◌≢◌, ℕ, Some, Err, fold, slice_get, IsOk, IsErr, IfErr, IfOk, OnOk, length};
ghost use Rattle.requester_core.specs.RequesterView.{RequesterView};
ghost use Rattle.fabric_steps.specs.Whole.{open_number};
ghost use Rattle.fabric_core.specs.Quiet.{IsQuiet};
ghost use Rattle.fabric_settle.specs.Rounds.{settlement};
ghost use Rattle.c_buffer.specs.declared.outcome.Failure.TheVariants.{NoMemory};
ghost use Rattle.c_buffer.specs.Buffer.{copied};
ghost use Rattle.c_fabric.specs.SessionView.{SessionView, IsKept, settled_of, collected_lines};
ghost use Rattle.c_fabric.specs.Calls.{settled, settled_view, Leaves, IsReached};

use crate::session::Session;
use crate::slot::{Slot, close, open};
use crate::witness::SettleWitness;
use arrayvec::ArrayString;
use c_buffer::{Failure, copy};
use fabric_core::Fabric;
use fabric_core::laws::each_event_keeps_it_sound;
use fabric_settle::settle;
use fabric_steps::laws::the_trace_belongs;
use history_words::Record;
use script_text::write_told;
use std::alloc::{AllocError, Global};
use std::mem;

/// Runs a fabric until nothing moves, and keeps the records.
fn settle_parts(fabric: &mut Fabric, kept: &mut SettleWitness) -> Result<(), AllocError>
    ensures fabric { OnOk result (fabric.new ≡ (settlement fabric.old).fabric) }
    ensures kept { OnOk result (settled_view kept.new ≡ fold settled_of (settled_view kept.old) (settlement fabric.old).happened) }
    ensures quiet { OnOk result (IsQuiet fabric.new) }
    ensures answered { OnOk result ((i tag k : ℕ) (q : RequesterView) → slice_get fabric.new.requesters i ≡ Some q → open_number q tag ≢ Some k) }
    ensures session { IsKept fabric.old kept.old.is_traced kept.old.trace.items → IsKept fabric.new kept.old.is_traced kept.new.trace.items }
    ensures reached { Leaves fabric.old (settled_view kept.old) fabric.new (settled_view kept.new) }
{
    the_trace_belongs();
    each_event_keeps_it_sound();
    fabric.sound();
    settle(fabric, kept, 0)
}

/// Runs the session's fabric until nothing moves.
fn settle_session(alloc: Global, session: &mut Session) -> Result<(), AllocError>
    ensures ok { OnOk result (session.new ≡ settled session.old) }
    ensures quiet { OnOk result (IsQuiet session.new.fabric) }
    ensures answered { OnOk result ((i tag k : ℕ) (q : RequesterView) → slice_get session.new.fabric.requesters i ≡ Some q → open_number q tag ≢ Some k) }
    ensures reached { IsReached session.old session.new }
{
    let mut kept = SettleWitness {
        is_traced: session.is_traced,
        trace: mem::replace(&mut session.witness.records, Vec::new(alloc)),
        collected: Vec::new(alloc),
    };
    let outcome = settle_parts(&mut session.fabric, &mut kept);
    session.witness.records = kept.trace;
    session.collected = kept.collected;
    session.text = None;
    outcome
}

/// Runs the fabric of the slot by rounds until one moves nothing; it goes to `back`. Then it is quiet, and no requester
/// waits for an answer. Its trace, where it keeps one, grows by what its requesters collected, and [`tell_collected`]
/// has it, too. `NoMemory` for a fabric or a list that can't grow: the events so far have happened, and what they
/// collected is kept.
pub fn settle_fabric(alloc: Global, slot: Slot, back: &mut Slot) -> Result<(), Failure>
    ghost session: { SessionView }
    requires { slot.session ≡ Some session }
    ensures ok { IsOk result → back.new.session ≡ Some (settled session) }
    ensures quiet { IsOk result → IsQuiet (settled session).fabric }
    ensures answered { IsOk result → (i tag k : ℕ) (q : RequesterView) → slice_get (settled session).fabric.requesters i ≡ Some q → open_number q tag ≢ Some k }
    ensures err { IfErr result (λ f. f ≡ NoMemory) }
    ensures reached { (s : SessionView) × (back.new.session ≡ Some s) × IsReached session s }
{
    let mut held = open(slot);
    let outcome = settle_session(alloc, &mut held);
    *back = close(held);
    match outcome {
        Ok(()) => Ok(()),
        Err(_) => Err(Failure::NoMemory),
    }
}

/// The lines of what was collected.
fn lines_of(alloc: Global, collected: &[Record]) -> Result<Vec<u8>, AllocError>
    ensures { IfOk result (λ lines. lines.items ≡ collected_lines collected.now) }
{
    let mut lines = Vec::new(alloc);
    for record in collected {
        let mut text = ArrayString::new();
        write_told(record, &mut text);
        text.push_str("\n");
        lines.extend_from_slice(text.as_bytes())?;
    }
    Ok(lines)
}

/// Puts what the last settlement collected, `ans 1 0 data 00000000` and a line feed for each completion, to the front of
/// `buffer`, or `SmallBuffer` for fewer bytes than it has, and in both cases `size` is how many it has; or `NoMemory`,
/// and then `size` stays as it was. The fabric goes to `back`, as it was.
pub fn tell_collected(
    alloc: Global,
    slot: Slot,
    buffer: &mut [u8],
    size: &mut usize,
    back: &mut Slot,
) -> Result<(), Failure>
    ghost session: { SessionView }
    requires { slot.session ≡ Some session }
    ensures outcome { ¬ (result ≡ Err NoMemory) → result ≡ (copied buffer.old (collected_lines session.collected)).outcome }
    ensures buffer { ¬ (result ≡ Err NoMemory) → buffer.new ≡ (copied buffer.old (collected_lines session.collected)).buffer }
    ensures size { ¬ (result ≡ Err NoMemory) → size.new ≡ length (collected_lines session.collected) }
    ensures unchanged_size { result ≡ Err NoMemory → size.new ≡ size.old }
    ensures unchanged { back.new.session ≡ Some session }
    ensures unchanged_buffer { IsErr result → buffer.new ≡ buffer.old }
{
    let held = open(slot);
    let outcome = match lines_of(alloc, held.collected.as_slice()) {
        Ok(lines) => {
            *size = lines.len();
            copy(lines.as_slice(), buffer)
        }
        Err(_) => Err(Failure::NoMemory),
    };
    *back = close(held);
    outcome
}
