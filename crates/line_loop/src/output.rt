//! Writing bytes, all of them or a prefix.
ghost use Rattle.std.specs.Prelude.{◌≡◌, List, ℕ, IfErr, OnErr, OnOk};
ghost use Rattle.std.specs.Io.KnownBytes.{Appends};
ghost use Rattle.line_loop.specs.Run.{IsBeginning};

use crate::fault::EngineFault;
use std::io::Write;

/// Writes all of the bytes, and flushes the writer. After an `Err` a prefix of them was written.
/// A `write` that takes nothing is a failure.
pub fn write_out<W: Write>(writer: &mut W, bytes: &[u8]) -> Result<(), EngineFault>
    ensures ok { OnOk result (Appends (W.contents writer.old) (W.contents writer.new) bytes.now) }
    ensures fault { IfErr result (λ f. f ≡ EngineFault.Write) }
    ensures part { OnErr result ((done : List ℕ) × IsBeginning done bytes.now
        × Appends (W.contents writer.old) (W.contents writer.new) done) }
{
    let mut rest = bytes;
    while !rest.is_empty() {
        match writer.write(rest) {
            Ok(count) if count > 0 => rest = &rest[count..],
            _ => return Err(EngineFault::Write),
        }
    }
    match writer.flush() {
        Ok(()) => Ok(()),
        Err(_) => Err(EngineFault::Write),
    }
}
