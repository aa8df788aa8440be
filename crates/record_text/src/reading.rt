//! Reading a whole text of records.
ghost use Rattle.std.specs.Prelude.{◌≡◌, true, OnOk, OnErr, IfOk, IfErr, Ok, Err};
ghost use Rattle.record_text.specs.RecordReaderView.{read_of, at_end, Tells};
ghost use Rattle.record_text.specs.Endings.{on_said, on_ended_line, on_last_line, adds_said, adds_ended, adds_last};

use crate::fault::Misread;
use crate::form::Form;
use crate::reader::RecordReader;
use hex_text::{is_too_long, without_return};
use memchr::memchr;
use std::alloc::AllocError;

/// Takes a line, of which this is said if it isn't too long.
fn take<F: Form>(reader: &mut RecordReader<F>, line: &[u8], said: &[u8]) -> Result<(), AllocError>
    ensures ok { OnOk result (reader.new ≡ on_said F.grammar reader.old line.now said.now) }
    ensures err { OnErr result (reader.new ≡ reader.old) }
    ensures adds { OnErr result (adds_said F.grammar reader.old line.now said.now ≡ true) }
{
    if is_too_long(line) {
        reader.long_line();
        return Ok(());
    }
    reader.line(said)
}

/// Takes a line that a line feed ended, given without it.
fn take_ended<F: Form>(reader: &mut RecordReader<F>, line: &[u8]) -> Result<(), AllocError>
    ensures ok { OnOk result (reader.new ≡ on_ended_line F.grammar reader.old line.now) }
    ensures err { OnErr result (reader.new ≡ reader.old) }
    ensures adds { OnErr result (adds_ended F.grammar reader.old line.now ≡ true) }
{
    take(reader, line, without_return(line))
}

/// Takes a line that the end of the text ended.
fn take_last<F: Form>(reader: &mut RecordReader<F>, line: &[u8]) -> Result<(), AllocError>
    ensures ok { OnOk result (reader.new ≡ on_last_line F.grammar reader.old line.now) }
    ensures err { OnErr result (reader.new ≡ reader.old) }
    ensures adds { OnErr result (adds_last F.grammar reader.old line.now ≡ true) }
{
    take(reader, line, line)
}

/// What is kept of the whole text, or its first fault.
fn ended<F: Form>(reader: RecordReader<F>) -> Result<F, Misread>
    ensures ok { IfOk result (λ kept. at_end reader ≡ Ok kept) }
    ensures err { IfErr result (λ e. at_end reader ≡ Err e.fault) }
{
    let cause = reader.cause();
    match reader.end() {
        Ok(form) => Ok(form),
        Err(fault) => Err(Misread { fault, cause }),
    }
}

/// What is kept of the text, from this on, or its first fault: its lines end in line feeds, the last may
/// lack it, and one carriage return before a line feed is ignored. A fault of kind `Memory` tells that an
/// allocation failed, for a line behind no fault. Nothing is read behind the first fault.
pub fn read_records<F: Form>(form: F, text: &[u8]) -> Result<F, Misread>
    ensures ok { IfOk result (λ kept. read_of F.grammar form text.now ≡ Ok kept) }
    ensures err { IfErr result (λ e. Tells F.grammar form text.now e.fault) }
{
    let mut reader = RecordReader::new(form);
    let mut rest = text;
    while let Some(end) = memchr(b'\n', rest) {
        let Ok(()) = take_ended(&mut reader, &rest[..end]) else {
            return Err(reader.refused());
        };
        if let Some(fault) = reader.fault() {
            return Err(reader.misread(fault));
        }
        rest = &rest[end + 1..];
    }
    if !rest.is_empty() {
        let Ok(()) = take_last(&mut reader, rest) else {
            return Err(reader.refused());
        };
    }
    ended(reader)
}
