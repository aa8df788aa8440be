//! Scripts.
ghost use Rattle.std.specs.Prelude.{◌≡◌, ◌≤◌, ◌+◌, ◌∷◌, ◌++◌, Some, Err, IsOk, IfOk, length, take, drop};
ghost use Rattle.hex_text.specs.Lines.{lines_of, said};
ghost use Rattle.c_buffer.specs.declared.outcome.Failure.TheVariants.{NoMemory};
ghost use Rattle.c_fabric.specs.SessionView.{SessionView};
ghost use Rattle.c_fabric.specs.Scripts.{line_call, IsLineCall, script_call, IsLeftBy, IsCutShort};

use crate::happening::happen_by;
use crate::session::Session;
use crate::slot::{Slot, close, open};
use c_buffer::{Failure, LINE_BUFFER};
use hex_text::{is_skipped, without_return};
use memchr::memchr;

/// How many bytes the first line of a text has, with the line feed that ends it.
fn first_line(text: &[u8]) -> usize
    requires { 1 ≤ length text.now }
    ensures line { lines_of text.now ≡ take result text.now ∷ lines_of (drop result text.now) }
    ensures range { (1 ≤ result) × (result ≤ length text.now) }
{
    match memchr(b'\n', text) {
        Some(end) => end + 1,
        None => text.len(),
    }
}

/// What a line says.
fn said(line: &[u8]) -> &[u8]
    ensures { result.now ≡ said line.now }
{
    match line {
        [front @ .., b'\n'] => without_return(front),
        _ => line,
    }
}

/// A line happens to the session. Its result, with a line feed, goes to the front of the buffer; `Ok` is how many bytes
/// that are.
fn happen_line(session: &mut Session, line: &[u8], buffer: &mut [u8]) -> Result<usize, Failure>
    ensures outcome { ¬ (result ≡ Err NoMemory) → result ≡ (line_call session.old line.now buffer.old).outcome }
    ensures session { ¬ (result ≡ Err NoMemory) → session.new ≡ (line_call session.old line.now buffer.old).session }
    ensures buffer { ¬ (result ≡ Err NoMemory) → buffer.new ≡ (line_call session.old line.now buffer.old).buffer }
    ensures range { IfOk result (λ n. n ≤ length buffer.old) }
    ensures no_memory { result ≡ Err NoMemory → IsLineCall session.old line.now buffer.old }
    ensures unchanged { result ≡ Err NoMemory → (session.new ≡ session.old) × (buffer.new ≡ buffer.old) }
{
    if is_skipped(line) {
        return Ok(0);
    }
    if buffer.len() <= LINE_BUFFER {
        return Err(Failure::SmallBuffer);
    }
    let length = usize::from(happen_by(session, line, buffer)?.value());
    buffer[length] = b'\n';
    Ok(length + 1)
}

/// A line happens to the session as in [`happen_line`], and the buffer begins at `start`.
fn happen_behind(
    session: &mut Session,
    line: &[u8],
    start: usize,
    buffer: &mut [u8],
) -> Result<usize, Failure>
    requires { start ≤ length buffer.old }
    ensures outcome { ¬ (result ≡ Err NoMemory) → result ≡ (line_call session.old line.now (drop start buffer.old)).outcome }
    ensures session { ¬ (result ≡ Err NoMemory) → session.new ≡ (line_call session.old line.now (drop start buffer.old)).session }
    ensures buffer { ¬ (result ≡ Err NoMemory) → buffer.new ≡ take start buffer.old ++ (line_call session.old line.now (drop start buffer.old)).buffer }
    ensures range { IfOk result (λ n. start + n ≤ length buffer.old) }
    ensures no_memory { result ≡ Err NoMemory → IsLineCall session.old line.now (drop start buffer.old) }
    ensures unchanged { result ≡ Err NoMemory → (session.new ≡ session.old) × (buffer.new ≡ buffer.old) }
{
    happen_line(session, line, &mut buffer[start..])
}

/// The lines of a text happen to the session, up to one that fails.
fn happen_lines(
    session: &mut Session,
    text: &[u8],
    buffer: &mut [u8],
    done: &mut usize,
    size: &mut usize,
) -> Result<(), Failure>
    ensures outcome { ¬ (result ≡ Err NoMemory) → result ≡ (script_call session.old text.now buffer.old).outcome }
    ensures left { ¬ (result ≡ Err NoMemory) → IsLeftBy (script_call session.old text.now buffer.old) session.new buffer.new done.new size.new }
    ensures whole { IsOk result → done.new ≡ length text.now }
    ensures no_memory { result ≡ Err NoMemory → IsCutShort session.old text.now buffer.old session.new buffer.new done.new size.new }
{
    *done = 0;
    *size = 0;
    let mut rest = text;
    while !rest.is_empty() {
        let (line, behind) = rest.split_at(first_line(rest));
        *size += happen_behind(session, said(line), *size, buffer)?;
        *done += line.len();
        rest = behind;
    }
    Ok(())
}

/// How far a script came.
#[derive(Clone, Copy)]
pub struct Reached {
    /// How many bytes of its text were done.
    pub done: usize,
    /// How many bytes their results have.
    pub size: usize,
}

/// The events of a script's lines happen to the fabric of the slot, one after the other, which goes to `back`. Their
/// results, each with a line feed, stand at the front of `buffer`. `reached` has how many bytes they have, and how many
/// of the text were done: all with `Ok`, else those before the line that failed, which changed nothing. Empty lines and
/// comments are skipped. A line fails with `SmallBuffer` for fewer than 513 bytes behind the results, and else as in
/// [`tell_event`](crate::tell_event); the text of a refusal stands behind the results.
pub fn tell_script(
    slot: Slot,
    text: &[u8],
    buffer: &mut [u8],
    reached: &mut Reached,
    back: &mut Slot,
) -> Result<(), Failure>
    ghost session: { SessionView }
    requires { slot.session ≡ Some session }
    ensures outcome { ¬ (result ≡ Err NoMemory) → result ≡ (script_call session text.now buffer.old).outcome }
    ensures left { ¬ (result ≡ Err NoMemory) →
        (s : SessionView) × (back.new.session ≡ Some s) × IsLeftBy (script_call session text.now buffer.old) s buffer.new reached.new.done reached.new.size }
    ensures whole { IsOk result → reached.new.done ≡ length text.now }
    ensures no_memory { result ≡ Err NoMemory →
        (s : SessionView) × (back.new.session ≡ Some s) × IsCutShort session text.now buffer.old s buffer.new reached.new.done reached.new.size }
{
    let mut held = open(slot);
    let outcome = happen_lines(
        &mut held,
        text,
        buffer,
        &mut reached.done,
        &mut reached.size,
    );
    *back = close(held);
    outcome
}
