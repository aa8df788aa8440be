//! The text of what was recorded.
ghost use Rattle.std.specs.Prelude.{◌≡◌, Some, Err, IsErr, length};
ghost use Rattle.c_buffer.specs.declared.outcome.Failure.TheVariants.{NoMemory};
ghost use Rattle.c_buffer.specs.Buffer.{copied};
ghost use Rattle.endpoint_log.specs.declared.recording.Recording.TheVariants.{Lost};
ghost use Rattle.c_endpoint.specs.Texts.{text};
ghost use Rattle.c_endpoint.specs.SessionView.{SessionView};

use crate::slot::{Slot, close, open};
use crate::text::tell_recording;
use c_buffer::Failure;
use std::alloc::Global;

/// Puts the text of the trace and the history of the endpoint's memory to the front of `buffer`, or `SmallBuffer` for fewer
/// bytes than it has, and in both cases `size` is how many it has; or `NoMemory`, and then `size` stays as it was. Addresses
/// count from the memory's first byte. If the endpoint keeps no trace, there are no records; if memory for a record ran
/// out, it is `NoMemory`. The endpoint goes to `back`, as it was.
pub fn tell_trace(
    alloc: Global,
    slot: Slot,
    buffer: &mut [u8],
    size: &mut usize,
    back: &mut Slot,
) -> Result<(), Failure>
    ghost session: { SessionView }
    requires { slot.session ≡ Some session }
    ensures outcome { ¬ (result ≡ Err NoMemory) → result ≡ (copied buffer.old (text session.recording)).outcome }
    ensures buffer { ¬ (result ≡ Err NoMemory) → buffer.new ≡ (copied buffer.old (text session.recording)).buffer }
    ensures size { ¬ (result ≡ Err NoMemory) → size.new ≡ length (text session.recording) }
    ensures lost { session.recording ≡ Lost → result ≡ Err NoMemory }
    ensures unchanged_size { result ≡ Err NoMemory → size.new ≡ size.old }
    ensures unchanged { back.new.session ≡ Some session }
    ensures unchanged_buffer { IsErr result → buffer.new ≡ buffer.old }
{
    let held = open(slot);
    let outcome = tell_recording(alloc, &held.recording, buffer, size);
    *back = close(held);
    outcome
}
