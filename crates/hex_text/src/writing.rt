//! Writing bytes in groups of four.
ghost use Rattle.std.specs.Prelude.{◌≡◌, ◌≤◌, ◌<◌, ◌+◌, ◌*◌, ◌++◌, ◌∷◌, [], length};
ghost use Rattle.hex.specs.Hex.{encode_upper};
ghost use Rattle.hex_text.specs.Line.{spaced};

use crate::tables::digits_of;
use std::marker::Model;

/// The text of a line, and room for one: it is written without clearing the room.
#[derive(Drop)]
pub struct HexText {
    bytes: [u8; 336],
    count: usize,
}

impl Model for HexText {
    ghost use Rattle.std.specs.Prelude.{List, ℕ, take, ◌≤◌};

    ghost Value = { List ℕ };

    ghost view = { λ text. take text.count text.bytes };

    ghost invariant = { λ text. text.count ≤ 336 };
}

impl HexText {
    /// No text.
    pub fn new() -> HexText
        ensures { result ≡ [] }
    {
        HexText {
            bytes: [0; 336],
            count: 0,
        }
    }

    /// The text.
    #[inline(always)]
    pub fn as_slice(&self) -> &[u8]
        ensures { result.now ≡ self.now }
    {
        &self.bytes[..self.count]
    }

    /// Leaves no text.
    #[inline(always)]
    fn clear(&mut self)
        ensures { self.new ≡ [] }
    {
        self.count = 0;
    }

    /// Adds the bytes.
    #[inline(always)]
    fn extend(&mut self, more: &[u8])
        requires { length self.old + length more.now ≤ 336 }
        ensures text { self.new ≡ self.old ++ more.now }
        ensures len { length self.new ≡ length self.old + length more.now }
    {
        let end = self.count + more.len();
        self.bytes[self.count..end].copy_from_slice(more);
        self.count = end;
    }
}

/// Adds the digits of four bytes and the byte behind them.
#[inline(always)]
fn put_group(bytes: &[u8], behind: u8, text: &mut HexText)
    requires four { length bytes.now ≡ 4 }
    requires room { length text.old + 9 ≤ 336 }
    ensures text { text.new ≡ text.old ++ (encode_upper bytes.now ++ behind ∷ []) }
    ensures len { length text.new ≡ length text.old + 9 }
{
    let first = digits_of(bytes[0]);
    let second = digits_of(bytes[1]);
    let third = digits_of(bytes[2]);
    let fourth = digits_of(bytes[3]);
    text.extend(&[
        first[0], first[1], second[0], second[1], third[0], third[1], fourth[0], fourth[1], behind,
    ]);
}

/// Adds the digits of the last four bytes at most, and a line feed.
fn put_last(bytes: &[u8], text: &mut HexText)
    requires few { length bytes.now ≤ 4 }
    requires room { length text.old + 9 ≤ 336 }
    ensures { text.new ≡ text.old ++ (encode_upper bytes.now ++ 10 ∷ []) }
{
    if bytes.len() == 4 {
        put_group(bytes, b'\n', text);
        return;
    }
    for byte in bytes {
        text.extend(&digits_of(*byte));
    }
    text.extend(b"\n");
}

/// Adds the digits of the bytes in groups of four, with a space between each two groups, and a line
/// feed.
#[inline(always)]
fn put_groups(bytes: &[u8], text: &mut HexText)
    requires room { 8 * length text.old + 18 * length bytes.now ≤ 2592 }
    ensures { text.new ≡ text.old ++ (spaced (encode_upper bytes.now) ++ 10 ∷ []) }
{
    let mut rest = bytes;
    while rest.len() > 4 {
        put_group(&rest[..4], b' ', text);
        rest = &rest[4..];
    }
    put_last(rest, text);
}

/// Writes the line of these bytes, in place of what the text was: in capitals in groups of four,
/// with a space between each two groups and a line feed at the end.
pub fn write_bytes(bytes: &[u8], text: &mut HexText)
    requires { length bytes.now ≤ 144 }
    ensures { text.new ≡ spaced (encode_upper bytes.now) ++ 10 ∷ [] }
{
    text.clear();
    put_groups(bytes, text);
}

/// As [`write_bytes`], for the 12 bytes of a front and those behind it.
#[inline(always)]
pub fn write_both(front: &[u8; 12], bytes: &[u8], text: &mut HexText)
    requires { length bytes.now ≤ 128 }
    ensures { text.new ≡ spaced (encode_upper (front.now ++ bytes.now)) ++ 10 ∷ [] }
{
    text.clear();
    put_group(&front[..4], b' ', text);
    put_group(&front[4..8], b' ', text);
    if bytes.is_empty() {
        put_group(&front[8..], b'\n', text);
        return;
    }
    put_group(&front[8..], b' ', text);
    put_groups(bytes, text);
}
