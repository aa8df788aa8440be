//! What a fabric holds.
ghost use Rattle.std.specs.Prelude.{◌≡◌, ◌↔◌, IsTrue, true, Some, Err, IsErr, length, string_bytes, IfOk};
ghost use Rattle.seq_memory.specs.History.{bytes_of};
ghost use Rattle.history_words.specs.Trace.{Explains};
ghost use Rattle.trace_text.specs.Texts.{trace_text};
ghost use Rattle.fabric_steps.specs.Trace.{submitted_by};
ghost use Rattle.fabric_core.specs.Quiet.{IsQuiet};
ghost use Rattle.c_buffer.specs.declared.outcome.Failure.TheVariants.{NoMemory};
ghost use Rattle.c_buffer.specs.Buffer.{copied};
ghost use Rattle.c_fabric.specs.SessionView.{SessionView, claim};

use crate::session::Session;
use crate::slot::{Slot, close, open};
use c_buffer::{Failure, copy};
use fabric_steps::laws::the_trace_belongs;
use history_words::Claim;
use std::alloc::{AllocError, Global};
use std::mem;
use trace_text::write_trace;

/// The history explains a kept trace.
fn explain(session: &Session)
    ensures { session.now.is_traced ≡ true → Explains (claim session.now) }
{
    the_trace_belongs();
    session.fabric.sound();
}

/// The text of the trace and the history, kept or new.
fn text_of(alloc: Global, session: &mut Session) -> Result<String, AllocError>
    ensures text { IfOk result (λ text. string_bytes text ≡ trace_text (claim session.old)) }
    ensures unchanged { session.new ≡ session.old }
{
    if let Some(text) = session.text.take() {
        return Ok(text);
    }
    let records = mem::replace(&mut session.witness.records, Vec::new(alloc));
    let trace = session.fabric.trace_of(records);
    let history = session.fabric.history();
    let text = write_trace(
        alloc,
        &Claim {
            trace: &trace,
            history,
        },
    );
    session.witness.records = trace.records;
    text
}

/// Puts the text of the trace and the history of the fabric, as `pciex step --trace` writes it, to the
/// front of `buffer`, or `SmallBuffer` for fewer bytes than it has, and in both cases `size` is how
/// many it has; or `NoMemory`, and then `size` stays as it was. If the fabric keeps no trace, there
/// are no records. The fabric goes to `back`, as it was. The history explains a kept trace.
pub fn tell_trace(
    alloc: Global,
    slot: Slot,
    buffer: &mut [u8],
    size: &mut usize,
    back: &mut Slot,
) -> Result<(), Failure>
    ghost session: { SessionView }
    requires { slot.session ≡ Some session }
    ensures outcome { ¬ (result ≡ Err NoMemory) → result ≡ (copied buffer.old (trace_text (claim session))).outcome }
    ensures buffer { ¬ (result ≡ Err NoMemory) → buffer.new ≡ (copied buffer.old (trace_text (claim session))).buffer }
    ensures size { ¬ (result ≡ Err NoMemory) → size.new ≡ length (trace_text (claim session)) }
    ensures unchanged_size { result ≡ Err NoMemory → size.new ≡ size.old }
    ensures unchanged { back.new.session ≡ Some session }
    ensures unchanged_buffer { IsErr result → buffer.new ≡ buffer.old }
    ensures explained { session.is_traced ≡ true → Explains (claim session) }
{
    let mut held = open(slot);
    explain(&held);
    let outcome = match text_of(alloc, &mut held) {
        Ok(text) => {
            *size = text.len();
            let outcome = copy(text.as_bytes(), buffer);
            if outcome.is_err() {
                held.text = Some(text);
            }
            outcome
        }
        Err(_) => Err(Failure::NoMemory),
    };
    *back = close(held);
    outcome
}

/// Whether all that was entered into the lanes of the fabric of the slot was taken: then each
/// submission stands in the history once, and none waits for its completion. The fabric goes to
/// `back`, as it was.
pub fn is_quiet(slot: Slot, back: &mut Slot) -> bool
    ghost session: { SessionView }
    requires { slot.session ≡ Some session }
    ensures quiet { IsTrue result ↔ IsQuiet session.fabric }
    ensures all { IsTrue result → length session.fabric.memory.entries ≡ submitted_by session.fabric.requesters }
    ensures unchanged { back.new.session ≡ Some session }
{
    let held = open(slot);
    let quiet = held.fabric.quiet();
    *back = close(held);
    quiet
}

/// How many requests have acted on the memory of the fabric of the slot, which goes to `back`.
pub fn history_length(slot: Slot, back: &mut Slot) -> usize
    ghost session: { SessionView }
    requires { slot.session ≡ Some session }
    ensures value { result ≡ length session.fabric.memory.entries }
    ensures unchanged { back.new.session ≡ Some session }
{
    let held = open(slot);
    let count = held.fabric.history().len();
    *back = close(held);
    count
}

/// Puts all bytes of the memory, from its base address on, to the front of `buffer`. `SmallBuffer` for
/// fewer bytes than it has, and then nothing has changed. The fabric goes to `back`, as it was.
pub fn copy_bytes(slot: Slot, buffer: &mut [u8], back: &mut Slot) -> Result<(), Failure>
    ghost session: { SessionView }
    requires { slot.session ≡ Some session }
    ensures outcome { result ≡ (copied buffer.old (bytes_of session.fabric.memory)).outcome }
    ensures buffer { buffer.new ≡ (copied buffer.old (bytes_of session.fabric.memory)).buffer }
    ensures unchanged { back.new.session ≡ Some session }
{
    let held = open(slot);
    let outcome = copy(held.fabric.bytes(), buffer);
    *back = close(held);
    outcome
}
