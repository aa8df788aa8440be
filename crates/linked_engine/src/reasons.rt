//! Why a line of `endpoint --link` is a fault, for people.
use diagnostics::{Reason, digits_reason};
use endpoint_engine::untraced_reason;
use operation_text::{Expected, split_word};

const LINE: Expected = Expected::Of(
    "a line",
    "packet <bytes>, dllp <bytes>, next, up, down, refresh, replay, retrained, state, trace",
);

/// Why what stands behind the line's first word is no digits of bytes.
fn frame_digits_reason(line: &[u8]) -> Reason {
    digits_reason(line, split_word(line).1.unwrap_or(b""))
}

/// The line without the word behind a packet's digits, if it has it.
fn without_edb(line: &[u8]) -> &[u8] {
    if line.starts_with(b"packet ") {
        line.strip_suffix(b" edb").unwrap_or(line)
    } else {
        line
    }
}

/// Why the line of a packet or a DLLP is a fault.
fn frame_reason(line: &[u8], has_crc: bool) -> Reason {
    if has_crc {
        return frame_digits_reason(without_edb(line));
    }
    for word in [b" good".as_slice(), b" failed".as_slice()] {
        if let Some(front) = line.strip_suffix(word) {
            return frame_digits_reason(front);
        }
    }
    let mut reason = Reason::new();
    reason.put(
        ": the last word says whether the check was good: good or failed (with --crc a CRC stands there)",
    );
    reason
}

/// Why the line is a fault.
pub(crate) fn reason_of(line: &[u8], has_crc: bool) -> Reason {
    if line == b"trace".as_slice() {
        return untraced_reason();
    }
    if line.starts_with(b"packet ") || line.starts_with(b"dllp ") {
        return frame_reason(line, has_crc);
    }
    Reason::of_misfit(line, &LINE.at(Some(line)))
}
