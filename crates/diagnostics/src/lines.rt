//! Why a line is refused.
use crate::telling::{Reason, Shown};
use operation_text::{next_word, split_word};

/// What refusals and faults mean, by their names.
const MEANINGS: [(&str, &str); 13] = [
    (
        "NoSuchPart",
        "the fabric has no such requester or lane, or the switch does not forward from the lane",
    ),
    (
        "Idle",
        "there is nothing to send, deliver, replay, retrain or collect",
    ),
    (
        "NotTakeable",
        "no packet is at this position, or it may not pass an earlier one",
    ),
    ("TagsUsed", "the requester has 256 open requests"),
    (
        "NumbersUsed",
        "the requester has used all 4294967295 request numbers",
    ),
    (
        "NoCredits P",
        "the lane that the packet would enter has too few posted credits",
    ),
    (
        "NoCredits NP",
        "the lane that the packet would enter has too few non-posted credits",
    ),
    (
        "NoCredits Cpl",
        "the lane that the packet would enter has too few completion credits",
    ),
    (
        "WindowFull",
        "the lane that the packet would enter has a full replay buffer: 2047 packets",
    ),
    (
        "LengthMismatch",
        "a read has 1 to 1024 DW, and data are whole DW",
    ),
    (
        "ByteEnables",
        "the byte enables break the rule for this number of DW at this address",
    ),
    (
        "OperandSize",
        "FetchAdd and Swap have operands of 4 or 8 bytes, CAS of 4, 8 or 16",
    ),
    (
        "Unaligned",
        "an operand's address is a multiple of the operand's size, any other of 4",
    ),
];

/// What `ByteEnables` means of one DW.
const LAST_OF_ONE: &str = "Last DW BE must be 0 for 1 DW";

/// Whether the line is of a read or a write of one DW, none if it is of neither.
fn is_of_one_dw(line: &[u8]) -> Option<bool> {
    let (mut word, mut rest) = split_word(line);
    if word == b"submit".as_slice() {
        let (_requester, operation) = next_word(rest)?;
        (word, rest) = next_word(operation)?;
    }
    let (_address, rest) = next_word(rest)?;
    let (count_or_first, rest) = next_word(rest)?;
    if word == b"read".as_slice() {
        return Some(count_or_first == b"1".as_slice());
    }
    let (_last, rest) = next_word(rest)?;
    let (data, _end) = next_word(rest)?;
    Some(word == b"write".as_slice() && data.len() == 8)
}

/// What the name means for the line, nothing where it says it all.
fn meaning_of(line: &[u8], name: &[u8]) -> &'static str {
    if name == b"ByteEnables".as_slice() && is_of_one_dw(line) == Some(true) {
        return LAST_OF_ONE;
    }
    for meaning in &MEANINGS {
        if name == meaning.0.as_bytes() {
            return meaning.1;
        }
    }
    ""
}

/// Adds that the line is refused for what that name says.
fn put_refused(line: &[u8], name: &[u8], reason: &mut Reason) {
    let (shown, told) = (Shown(line), Shown(name));
    reason.put(format_args!(": '{shown}' is refused"));
    if name.is_empty() {
        return;
    }
    reason.put(format_args!(": {told}"));
    let meaning = meaning_of(line, name.strip_prefix(b"Profile ").unwrap_or(name));
    if !meaning.is_empty() {
        reason.put(format_args!(" ({meaning})"));
    }
}

/// That the line is refused for what this name says, or, where the name is empty, as it stands.
pub fn refusal_reason(line: &[u8], name: &str) -> Reason {
    let mut reason = Reason::new();
    put_refused(line, name.as_bytes(), &mut reason);
    reason
}

/// That a line is too long.
pub fn long_line_reason() -> Reason {
    let mut reason = Reason::new();
    reason.put(
        ", column 513: more where the line's end is expected (a line has 512 bytes at most)",
    );
    reason
}
