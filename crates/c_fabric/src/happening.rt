//! Events.
ghost use Rattle.std.specs.Prelude.{◌≡◌, ◌≤◌, List, Some, Err, IsErr, true, false, length, IfErr, OnOk, OnErr};
ghost use Rattle.history_words.specs.Records as records;
ghost use Rattle.fabric_core.specs.Answers.{answer};
ghost use Rattle.fabric_steps.specs.Faults.{is_memory, IsTold};
ghost use Rattle.script_text.specs.Names.{refusal_text};
ghost use Rattle.c_buffer.specs.declared.outcome.Failure.TheVariants.{Text, NoMemory};
ghost use Rattle.c_buffer.specs.Buffer.{filled, is_silent};
ghost use Rattle.c_fabric.specs.SessionView.{SessionView, IsKept};
ghost use Rattle.c_fabric.specs.Calls.{IsStep, EventWantsMemory, happened, event_call, IsEventCall};

use crate::session::Session;
use crate::slot::{Slot, close, open};
use crate::witness::{LastSeen, SessionWitness};
use arrayvec::ArrayString;
use c_buffer::{Failure, LINE_BUFFER, Length, tell, tell_fault};
use fabric_core::laws::{each_event_has_one_answer, each_event_keeps_it_sound};
use fabric_core::{EventRef, Fabric, Refusal};
use fabric_settle::happen;
use fabric_steps::laws::the_trace_belongs;
use script_text::{Line, read_line, write_refusal};
use tlp_core::MAX_PAYLOAD;

/// Puts the name of a refusal other than out of memory to the front of the buffer.
fn put_refusal(refusal: Refusal, buffer: &mut [u8]) -> Failure
    requires { 512 ≤ length buffer.old }
    ensures told { ¬ (result ≡ NoMemory) → IsTold refusal }
    ensures no_memory { result ≡ NoMemory → is_memory refusal ≡ true }
    ensures failure { ¬ (result ≡ NoMemory) → result ≡ Text (length (refusal_text refusal)) }
    ensures buffer { ¬ (result ≡ NoMemory) → buffer.new ≡ filled buffer.old (refusal_text refusal) }
    ensures unchanged { result ≡ NoMemory → buffer.new ≡ buffer.old }
{
    if refusal.is_memory() {
        return Failure::NoMemory;
    }
    let mut text = ArrayString::new();
    write_refusal(&refusal, &mut text);
    tell_fault(text.as_bytes(), buffer)
}

/// An event happens to a fabric that keeps no trace, and the text of what is seen of it is kept.
fn step_untraced(
    fabric: &mut Fabric,
    last: &mut LastSeen,
    event: &EventRef<'_>,
) -> Result<(), Refusal>
    ensures ok { OnOk result ((rs : List records.Record) → IsStep fabric.old false rs event.now fabric.new rs last.new.text.bytes) }
    ensures refused { IfErr result (λ r. IsTold r → answer fabric.old event.now ≡ Err r) }
    ensures no_memory { IfErr result (λ r. is_memory r ≡ true → EventWantsMemory fabric.old false event.now) }
    ensures err { OnErr result (fabric.new ≡ fabric.old) }
{
    each_event_has_one_answer();
    happen(fabric, last, 0, event)
}

/// An event happens to a fabric that keeps a trace, which grows by its record, and the text of what is seen of it is kept.
fn step_traced(
    fabric: &mut Fabric,
    witness: &mut SessionWitness,
    event: &EventRef<'_>,
) -> Result<(), Refusal>
    ensures ok { OnOk result (IsStep fabric.old true witness.old.records.items event.now fabric.new witness.new.records.items witness.new.last.text.bytes) }
    ensures session { IsKept fabric.old true witness.old.records.items → IsKept fabric.new true witness.new.records.items }
    ensures refused { IfErr result (λ r. IsTold r → answer fabric.old event.now ≡ Err r) }
    ensures no_memory { IfErr result (λ r. is_memory r ≡ true → EventWantsMemory fabric.old true event.now) }
    ensures err { OnErr result ((fabric.new ≡ fabric.old) × (witness.new.records.items ≡ witness.old.records.items)) }
{
    the_trace_belongs();
    each_event_keeps_it_sound();
    each_event_has_one_answer();
    fabric.sound();
    happen(fabric, witness, 0, event)
}

/// An event happens to the fabric, and to its trace where it keeps one.
fn step(
    fabric: &mut Fabric,
    is_traced: bool,
    witness: &mut SessionWitness,
    event: &EventRef<'_>,
) -> Result<(), Refusal>
    ensures ok { OnOk result (IsStep fabric.old is_traced witness.old.records.items event.now fabric.new witness.new.records.items
        witness.new.last.text.bytes) }
    ensures session { IsKept fabric.old is_traced witness.old.records.items → IsKept fabric.new is_traced witness.new.records.items }
    ensures refused { IfErr result (λ r. IsTold r → answer fabric.old event.now ≡ Err r) }
    ensures no_memory { IfErr result (λ r. is_memory r ≡ true → EventWantsMemory fabric.old is_traced event.now) }
    ensures err { OnErr result ((fabric.new ≡ fabric.old) × (witness.new.records.items ≡ witness.old.records.items)) }
{
    if is_traced {
        step_traced(fabric, witness, event)
    } else {
        step_untraced(fabric, &mut witness.last, event)
    }
}

/// An event happens to the session.
fn happen_to(
    session: &mut Session,
    event: &EventRef<'_>,
    buffer: &mut [u8],
) -> Result<Length, Failure>
    requires { 512 ≤ length buffer.old }
    ensures outcome { ¬ (result ≡ Err NoMemory) → result ≡ (happened session.old buffer.old event.now).outcome }
    ensures session { ¬ (result ≡ Err NoMemory) → session.new ≡ (happened session.old buffer.old event.now).session }
    ensures buffer { ¬ (result ≡ Err NoMemory) → buffer.new ≡ (happened session.old buffer.old event.now).buffer }
    ensures no_memory { result ≡ Err NoMemory → EventWantsMemory session.old.fabric session.old.is_traced event.now }
    ensures unchanged { IsErr result → session.new ≡ session.old }
    ensures unchanged_buffer { is_silent result ≡ true → buffer.new ≡ buffer.old }
{
    session.text = None;
    match step(
        &mut session.fabric,
        session.is_traced,
        &mut session.witness,
        event,
    ) {
        Ok(()) => Ok(tell(session.witness.last.text.as_bytes(), buffer)),
        Err(refusal) => Err(put_refusal(refusal, buffer)),
    }
}

/// A line of a script happens to the session.
pub(crate) fn happen_by(
    session: &mut Session,
    line: &[u8],
    buffer: &mut [u8],
) -> Result<Length, Failure>
    ensures outcome { ¬ (result ≡ Err NoMemory) → result ≡ (event_call session.old line.now buffer.old).outcome }
    ensures session { ¬ (result ≡ Err NoMemory) → session.new ≡ (event_call session.old line.now buffer.old).session }
    ensures buffer { ¬ (result ≡ Err NoMemory) → buffer.new ≡ (event_call session.old line.now buffer.old).buffer }
    ensures no_memory { result ≡ Err NoMemory → IsEventCall session.old line.now buffer.old }
    ensures unchanged { IsErr result → session.new ≡ session.old }
    ensures unchanged_buffer { is_silent result ≡ true → buffer.new ≡ buffer.old }
{
    if buffer.len() < LINE_BUFFER {
        return Err(Failure::SmallBuffer);
    }
    let mut room = [0; MAX_PAYLOAD];
    let Ok(Line::Event(event)) = read_line(line, &mut room) else {
        return Err(Failure::NoLine);
    };
    happen_to(session, &event, buffer)
}

/// The event that the line of a script spells happens to the fabric of the slot, which goes to `back`.
/// Ok is how many bytes what is seen of it has, as `pciex step` prints it, at the front of `buffer`.
/// With an error the fabric stays as it was: `SmallBuffer` for fewer than 512 bytes, then `NoLine` if
/// the line is none of an event, then the text of a refusal, its name, which stands at the front of
/// `buffer`, or `NoMemory`. Without a text the buffer stays as it was, too.
pub fn tell_event(
    slot: Slot,
    line: &[u8],
    buffer: &mut [u8],
    back: &mut Slot,
) -> Result<Length, Failure>
    ghost session: { SessionView }
    requires { slot.session ≡ Some session }
    ensures outcome { ¬ (result ≡ Err NoMemory) → result ≡ (event_call session line.now buffer.old).outcome }
    ensures session { ¬ (result ≡ Err NoMemory) → back.new.session ≡ Some (event_call session line.now buffer.old).session }
    ensures buffer { ¬ (result ≡ Err NoMemory) → buffer.new ≡ (event_call session line.now buffer.old).buffer }
    ensures no_memory { result ≡ Err NoMemory → IsEventCall session line.now buffer.old }
    ensures unchanged { IsErr result → back.new.session ≡ Some session }
    ensures unchanged_buffer { is_silent result ≡ true → buffer.new ≡ buffer.old }
{
    let mut held = open(slot);
    let outcome = happen_by(&mut held, line, buffer);
    *back = close(held);
    outcome
}
