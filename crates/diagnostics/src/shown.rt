//! A byte of a text as people are shown it: text that somebody gave may have any bytes.
ghost use Rattle.std.specs.Prelude.{◌≡◌, ◌≤◌, ◌<◌, ◌+◌, ◌++◌, ◌∷◌, [], true};
ghost use Rattle.std.specs.Fmt.{digit_glyph};
ghost use Rattle.arrayvec.specs.ArrayString.{array_string_len};
ghost use Rattle.diagnostics.specs.Shown as spec;

use arrayvec::ArrayString;

/// The hexadecimal digits, by their values.
const DIGITS: [u8; 16] = *b"0123456789ABCDEF";

/// Adds the digit of a value below 16, in capitals.
fn put_digit(value: u8, text: &mut ArrayString<4>)
    requires value { value < 16 }
    requires room { array_string_len text.old + 1 ≤ 4 }
    ensures { text.new.bytes ≡ text.old.bytes ++ digit_glyph true value ∷ [] }
{
    text.push(char::from(DIGITS[usize::from(value)]));
}

/// A byte as it is shown: itself where it is printable ASCII, and else `\xNN`.
pub(crate) fn shown_byte(byte: u8) -> ArrayString<4>
    ensures { result.bytes ≡ spec.shown_byte byte }
{
    let mut text = ArrayString::new();
    if b' ' <= byte && byte <= b'~' {
        text.push(char::from(byte));
    } else {
        text.push_str("\\x");
        put_digit(byte / 16, &mut text);
        put_digit(byte % 16, &mut text);
    }
    text
}
