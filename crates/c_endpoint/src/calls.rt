//! TLPs at the endpoint of a slot, and their completions.
ghost use Rattle.std.specs.Prelude.{◌≡◌, ◌≤◌, Some, Ok, Err, IsErr, length};
ghost use Rattle.endpoint_core.specs.Steps as steps;
ghost use Rattle.endpoint_core.specs.declared.endpoint.Handled.TheVariants.{Waits};
ghost use Rattle.c_buffer.specs.declared.outcome.Failure.TheVariants.{NoMemory};
ghost use Rattle.c_buffer.specs.Buffer.{copied};
ghost use Rattle.c_endpoint.specs.SessionView.{SessionView, Holds, after_reset};
ghost use Rattle.endpoint_log.specs.Recordings.{IsOrLost, came, acted};
ghost use Rattle.c_endpoint.specs.Calls.{next_call};

use crate::session::Session;
use crate::slot::{Slot, close, open};
use c_buffer::{Failure, Length, copy};
use c_device::{MAX_COMPLETION, tell_completion};
use endpoint_core::{Handled, Room};

fn take(session: &mut Session, tlp: &[u8]) -> Result<Handled, Failure>
    ensures outcome { ¬ (result ≡ Err NoMemory) → result ≡ Ok (steps.handled session.old.endpoint tlp.now) }
    ensures endpoint { ¬ (result ≡ Err NoMemory) → session.new.endpoint ≡ steps.taken session.old.endpoint tlp.now }
    ensures no_memory { result ≡ Err NoMemory → steps.handled session.old.endpoint tlp.now ≡ Waits }
    ensures unchanged { IsErr result → session.new ≡ session.old }
    ensures recording { IsOrLost session.new.recording (came session.old.endpoint tlp.now session.old.recording) }
{
    let mut room = Room::new();
    match session
        .recording
        .take(&mut session.endpoint, tlp, &mut room)
    {
        Ok(handled) => Ok(handled),
        Err(_) => Err(Failure::NoMemory),
    }
}

fn next(session: &mut Session, buffer: &mut [u8]) -> Result<Length, Failure>
    ensures outcome { result ≡ (next_call session.old.endpoint buffer.old).outcome }
    ensures endpoint { session.new.endpoint ≡ (next_call session.old.endpoint buffer.old).endpoint }
    ensures acts { 144 ≤ length buffer.old → session.new.endpoint ≡ steps.acted session.old.endpoint }
    ensures buffer { buffer.new ≡ (next_call session.old.endpoint buffer.old).buffer }
    ensures recording { 144 ≤ length buffer.old → IsOrLost session.new.recording (acted session.old.endpoint session.old.recording) }
    ensures unchanged { IsErr result → (session.new ≡ session.old) × (buffer.new ≡ buffer.old) }
{
    if buffer.len() < MAX_COMPLETION {
        return Err(Failure::SmallBuffer);
    }
    let mut room = Room::new();
    match session.recording.act(&mut session.endpoint, &mut room) {
        Some(completion) => Ok(tell_completion(&completion, buffer)),
        None => Ok(Length::ZERO),
    }
}

/// A TLP comes to the endpoint of the slot, which goes to `back`: a posted request acts, a non-posted one waits, and an
/// error is reported in the registers. The only error is `NoMemory`, for a request that would wait, and then nothing has
/// changed. What is recorded of a posted request is lost, with all before it, where memory for it runs out.
pub fn take_tlp(slot: Slot, tlp: &[u8], back: &mut Slot) -> Result<Handled, Failure>
    ghost session: { SessionView }
    requires { slot.session ≡ Some session }
    ensures outcome { ¬ (result ≡ Err NoMemory) → result ≡ Ok (steps.handled session.endpoint tlp.now) }
    ensures session { ¬ (result ≡ Err NoMemory) →
        Holds back.new.session (steps.taken session.endpoint tlp.now) (came session.endpoint tlp.now session.recording) }
    ensures no_memory { result ≡ Err NoMemory → steps.handled session.endpoint tlp.now ≡ Waits }
    ensures unchanged { IsErr result → back.new.session ≡ Some session }
{
    let mut held = open(slot);
    let outcome = take(&mut held, tlp);
    *back = close(held);
    outcome
}

/// The oldest request that waits at the endpoint of the slot acts, a read by one block of 128 bytes; the endpoint goes
/// to `back`. Ok is how many bytes its completion has, at the front of `buffer`, 0 if no request waits. The only error
/// is `SmallBuffer`, for fewer than 144 bytes, and then nothing has changed. What is recorded is lost where memory for it
/// runs out.
pub fn tell_next(slot: Slot, buffer: &mut [u8], back: &mut Slot) -> Result<Length, Failure>
    ghost session: { SessionView }
    requires { slot.session ≡ Some session }
    ensures outcome { result ≡ (next_call session.endpoint buffer.old).outcome }
    ensures session { 144 ≤ length buffer.old → Holds back.new.session (steps.acted session.endpoint) (acted session.endpoint session.recording) }
    ensures buffer { buffer.new ≡ (next_call session.endpoint buffer.old).buffer }
    ensures unchanged { IsErr result → (back.new.session ≡ Some session) × (buffer.new ≡ buffer.old) }
{
    let mut held = open(slot);
    let outcome = next(&mut held, buffer);
    *back = close(held);
    outcome
}

/// A reset of the endpoint of the slot, which goes to `back`: registers are what they were at first, nothing waits, and
/// the memory's bytes stay.
pub fn reset_endpoint(slot: Slot, back: &mut Slot)
    ghost session: { SessionView }
    requires { slot.session ≡ Some session }
    ensures { back.new.session ≡ Some (after_reset session) }
{
    let mut held = open(slot);
    held.endpoint.reset();
    held.recording.reset();
    *back = close(held);
}

/// Puts all bytes of the endpoint's memory to the front of `buffer`. `SmallBuffer` for fewer bytes than it has, and then
/// nothing has changed. The endpoint goes to `back`, as it was.
pub fn copy_bytes(slot: Slot, buffer: &mut [u8], back: &mut Slot) -> Result<(), Failure>
    ghost session: { SessionView }
    requires { slot.session ≡ Some session }
    ensures outcome { result ≡ (copied buffer.old session.endpoint.device.bytes).outcome }
    ensures buffer { buffer.new ≡ (copied buffer.old session.endpoint.device.bytes).buffer }
    ensures unchanged { back.new.session ≡ Some session }
{
    let held = open(slot);
    let outcome = copy(held.endpoint.bytes(), buffer);
    *back = close(held);
    outcome
}
