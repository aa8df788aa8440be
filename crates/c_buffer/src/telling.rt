//! Answers in the caller's buffer.
ghost use Rattle.std.specs.Prelude.{◌≡◌, ◌≤◌, IsErr, length};
ghost use Rattle.c_buffer.specs.Buffer.{filled, copied, cut};
ghost use Rattle.c_buffer.specs.declared.outcome.Failure.TheVariants.{Text};

use crate::outcome::{Failure, Length};

/// Puts the bytes to the front of the buffer.
fn fill(buffer: &mut [u8], bytes: &[u8])
    requires { length bytes.now ≤ length buffer.old }
    ensures { buffer.new ≡ filled buffer.old bytes.now }
{
    buffer[..bytes.len()].copy_from_slice(bytes);
}

/// Puts an answer to the front of the buffer, and returns its length.
pub fn tell(answer: &[u8], buffer: &mut [u8]) -> Length
    requires fits { length answer.now ≤ length buffer.old }
    requires range { length answer.now ≤ 512 }
    ensures length { result ≡ length answer.now }
    ensures buffer { buffer.new ≡ filled buffer.old answer.now }
{
    fill(buffer, answer);
    Length::new(answer.len())
}

/// Puts the text of a fault, a refusal or a flaw to the front of the buffer: that is how the call fails.
pub fn tell_fault(text: &[u8], buffer: &mut [u8]) -> Failure
    requires fits { length text.now ≤ length buffer.old }
    requires range { length text.now ≤ 512 }
    ensures failure { result ≡ Text (length text.now) }
    ensures buffer { buffer.new ≡ filled buffer.old text.now }
{
    fill(buffer, text);
    Failure::Text(Length::new(text.len()))
}

/// Puts bytes of any length to the front of a buffer that has as many, or fails with `SmallBuffer`: the
/// buffer then stays as it was.
pub fn copy(bytes: &[u8], buffer: &mut [u8]) -> Result<(), Failure>
    ensures outcome { result ≡ (copied buffer.old bytes.now).outcome }
    ensures buffer { buffer.new ≡ (copied buffer.old bytes.now).buffer }
    ensures unchanged { IsErr result → buffer.new ≡ buffer.old }
{
    if buffer.len() < bytes.len() {
        return Err(Failure::SmallBuffer);
    }
    fill(buffer, bytes);
    Ok(())
}

/// Puts as many bytes as the buffer has, the first ones, to its front.
pub fn copy_first(bytes: &[u8], buffer: &mut [u8])
    ensures { buffer.new ≡ cut buffer.old bytes.now }
{
    let count = bytes.len().min(buffer.len());
    fill(buffer, &bytes[..count]);
}
