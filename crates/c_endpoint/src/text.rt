//! The text of what was recorded.
ghost use Rattle.std.specs.Prelude.{◌≡◌, Err, IsErr, IfOk, length, string_bytes};
ghost use Rattle.trace_text.specs.Texts.{trace_text};
ghost use Rattle.c_buffer.specs.declared.outcome.Failure.TheVariants.{NoMemory};
ghost use Rattle.c_buffer.specs.Buffer.{copied};
ghost use Rattle.endpoint_log.specs.declared.recording.Recording.TheVariants.{Lost};
ghost use Rattle.c_endpoint.specs.Texts.{text};

use c_buffer::{Failure, copy};
use endpoint_log::{Log, Recording};
use std::alloc::{AllocError, Global};
use trace_text::write_trace;

/// The text of a trace and its history.
fn written(alloc: Global, log: &Log) -> Result<String, AllocError>
    ensures { IfOk result (λ text. string_bytes text ≡ trace_text log.now.claim) }
{
    write_trace(alloc, log.claim())
}

/// The text of what was recorded. Fails where that was lost, too.
fn text_of(alloc: Global, recording: &Recording) -> Result<String, AllocError>
    ensures ok { IfOk result (λ told. string_bytes told ≡ text recording.now) }
    ensures lost { recording.now ≡ Lost → IsErr result }
{
    match recording {
        Recording::Off(setup) => written(alloc, &Log::new(alloc, *setup)),
        Recording::On(log) => written(alloc, log),
        Recording::Lost => Err(AllocError),
    }
}

/// Puts the text of the trace and the history of an endpoint's memory to the front of `buffer`, or `SmallBuffer` for fewer
/// bytes than it has, and in both cases `size` is how many it has; or `NoMemory`, and then `size` stays as it was. Addresses
/// count from the memory's first byte. If nothing is recorded, there are no records; if memory for a record ran out, it is
/// `NoMemory`.
pub fn tell_recording(
    alloc: Global,
    recording: &Recording,
    buffer: &mut [u8],
    size: &mut usize,
) -> Result<(), Failure>
    ensures outcome { ¬ (result ≡ Err NoMemory) → result ≡ (copied buffer.old (text recording.now)).outcome }
    ensures buffer { ¬ (result ≡ Err NoMemory) → buffer.new ≡ (copied buffer.old (text recording.now)).buffer }
    ensures size { ¬ (result ≡ Err NoMemory) → size.new ≡ length (text recording.now) }
    ensures lost { recording.now ≡ Lost → result ≡ Err NoMemory }
    ensures unchanged_size { result ≡ Err NoMemory → size.new ≡ size.old }
    ensures unchanged_buffer { IsErr result → buffer.new ≡ buffer.old }
{
    match text_of(alloc, recording) {
        Ok(text) => {
            *size = text.len();
            copy(text.as_bytes(), buffer)
        }
        Err(_) => Err(Failure::NoMemory),
    }
}
