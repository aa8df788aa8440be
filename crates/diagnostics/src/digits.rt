//! Why a word is no digits of bytes.
use crate::telling::Reason;
use operation_text::Expected;

const DIGITS: Expected = Expected::Of("a word of hexadecimal digits", "two a byte, no prefix");

/// The text from its first word on that has a byte which is no digit.
fn wrong_word(text: &[u8]) -> Option<&[u8]> {
    let mut start = 0;
    for (place, byte) in text.iter().enumerate() {
        if *byte == b' ' {
            start = place.saturating_add(1);
        } else if !byte.is_ascii_hexdigit() {
            return text.get(start..);
        }
    }
    None
}

/// Why the digits, with which the line ends, are none of bytes.
pub fn digits_reason(line: &[u8], digits: &[u8]) -> Reason {
    let wrong = wrong_word(digits);
    if wrong.is_some() {
        return Reason::of_misfit(line, &DIGITS.at(wrong));
    }
    let mut reason = Reason::new();
    reason.put(": an odd number of hexadecimal digits (two a byte)");
    reason
}
