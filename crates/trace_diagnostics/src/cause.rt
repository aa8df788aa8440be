//! What is wrong at a fault of a text of records.
ghost use Rattle.std.specs.Prelude.{◌≡◌, IfErr, OnOk, OnErr};
ghost use Rattle.diagnostics.specs.Told.{IsReasonTold, IsReasonBegun};

use diagnostics::{Reason, long_line_reason};
use line_loop::EngineFault;
use operation_text::Expected;
use record_text::Cause;
use std::io::Write;

/// That the text ends where this is due.
fn end_reason(due: Expected) -> Reason {
    let mut reason = Reason::new();
    reason.put(": the text ends");
    reason.put_expected(due);
    reason
}

/// What is wrong in the line, or at the text's end.
fn cause_reason(line: &[u8], cause: Cause) -> Reason {
    match cause {
        Cause::Misfit(misfit) => Reason::of_misfit(line, &misfit),
        Cause::LongLine => long_line_reason(),
        Cause::End(due) => end_reason(due),
    }
}

/// Tells what is wrong in the line, or at the text's end, where it is told as a fault: this is its line's
/// number then. After an `Err` a prefix of the reason was written.
pub fn tell_misread<E: Write>(
    line: &[u8],
    cause: Cause,
    fault: Option<u64>,
    errors: &mut E,
) -> Result<(), EngineFault>
    ensures ok { OnOk result (IsReasonTold fault (E.contents errors.old) (E.contents errors.new)) }
    ensures fault { IfErr result (λ f. f ≡ EngineFault.Write) }
    ensures part { OnErr result (IsReasonBegun fault (E.contents errors.old) (E.contents errors.new)) }
{
    match fault {
        Some(number) => cause_reason(line, cause).tell_at(number, errors),
        None => Ok(()),
    }
}
