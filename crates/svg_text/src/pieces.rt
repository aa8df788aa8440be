//! Attributes, in a piece of text.
ghost use Rattle.std.specs.Prelude.{◌≡◌, ◌≤◌, ◌+◌, ◌++◌, length};
ghost use Rattle.std.specs.Fmt.{decimal};
ghost use Rattle.arrayvec.specs.ArrayString.{array_string_len};
ghost use Rattle.svg_text.specs.Shapes.{number, words};
ghost use Rattle.svg_text.specs.Xml.{attribute_text, escaped};

use arrayvec::ArrayString;
use itoa::Buffer;

/// Adds the number in decimal.
pub(crate) fn put_decimal(value: u64, piece: &mut ArrayString<512>)
    requires { array_string_len piece.old + 20 ≤ 512 }
    ensures text { piece.new.bytes ≡ piece.old.bytes ++ decimal value }
    ensures len { array_string_len piece.new ≤ array_string_len piece.old + 20 }
{
    let mut buffer = Buffer::new();
    piece.push_str(buffer.format(value));
}

/// Adds an attribute whose value is a number.
#[tactic(auto, unfolding(crate::specs::Xml::attribute_text))]
pub(crate) fn put_number(name: &str, value: u64, piece: &mut ArrayString<512>)
    requires { array_string_len piece.old + length name.now + 24 ≤ 512 }
    ensures text { piece.new.bytes ≡ piece.old.bytes ++ attribute_text (number name.now value) }
    ensures len { array_string_len piece.new ≤ array_string_len piece.old + length name.now + 24 }
{
    piece.push_str(" ");
    piece.push_str(name);
    piece.push_str("=\"");
    put_decimal(value, piece);
    piece.push_str("\"");
}

/// Adds an attribute whose value is a text that has nothing to be escaped.
#[tactic(auto, unfolding(crate::specs::Xml::attribute_text))]
pub(crate) fn put_words(name: &str, value: &str, piece: &mut ArrayString<512>)
    requires room { array_string_len piece.old + length name.now + length value.now + 4 ≤ 512 }
    requires plain { escaped value.now ≡ value.now }
    ensures text { piece.new.bytes ≡ piece.old.bytes ++ attribute_text (words name.now value.now) }
    ensures len { array_string_len piece.new ≤ array_string_len piece.old + length name.now + length value.now + 4 }
{
    piece.push_str(" ");
    piece.push_str(name);
    piece.push_str("=\"");
    piece.push_str(value);
    piece.push_str("\"");
}
