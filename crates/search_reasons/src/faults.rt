//! Why the text of a log or a trace can't be read.
ghost use Rattle.std.specs.Prelude.{◌≡◌, IfErr, OnErr, OnOk};
ghost use Rattle.diagnostics.specs.Told.{IsReasonToldAt, IsReasonBegunAt};
ghost use Rattle.line_loop.specs.declared.fault.EngineFault.{EngineFault};

use hex_text::without_return;
use line_loop::EngineFault;
use memchr::memchr;
use record_text::Misread;
use std::io::Write;
use trace_diagnostics::tell_misread;

/// The line that the text begins with, without what ends it, and the rest.
fn first_line(text: &[u8]) -> (&[u8], &[u8]) {
    match memchr(b'\n', text) {
        Some(end) => (without_return(&text[..end]), &text[end + 1..]),
        None => (text, &text[text.len()..]),
    }
}

/// The line of the text with this number, from 1, without what ends it.
fn line_at(text: &[u8], number: u64) -> &[u8] {
    let mut rest = text;
    for _line in 1..number {
        rest = first_line(rest).1;
    }
    first_line(rest).0
}

/// Tells why the text can't be read, in one line that names the fault's line: what stands there, and what is expected.
pub fn tell_fault<E: Write>(
    text: &[u8],
    misread: Misread,
    errors: &mut E,
) -> Result<(), EngineFault>
    ensures ok { OnOk result (IsReasonToldAt misread.fault.line (E.contents errors.old) (E.contents errors.new)) }
    ensures fault { IfErr result (λ f. f ≡ EngineFault.Write) }
    ensures part { OnErr result (IsReasonBegunAt misread.fault.line (E.contents errors.old) (E.contents errors.new)) }
{
    let number = misread.fault.line;
    tell_misread(line_at(text, number), misread.cause, Some(number), errors)
}
