//! Why a line of `endpoint` is a fault, for people. What it says is no promise.
use diagnostics::{Reason, digits_reason};
use operation_text::Expected;

const LINE: Expected = Expected::Of("a line", "tlp <bytes>, next, reset, trace");

/// Why `trace` is a fault.
pub fn untraced_reason() -> Reason {
    let mut reason = Reason::new();
    reason.put(": nothing is recorded without --trace");
    reason
}

/// Why the line is a fault.
pub(crate) fn reason_of(line: &[u8]) -> Reason {
    if line == b"trace".as_slice() {
        return untraced_reason();
    }
    match line.strip_prefix(b"tlp ") {
        Some(digits) => digits_reason(line, digits),
        None => Reason::of_misfit(line, &LINE.at(Some(line))),
    }
}
