//! Reading the bytes of a line.
ghost use Rattle.std.specs.Prelude.{◌≡◌, ◌≤◌, ◌<◌, ℕ, take, ◌*◌, ◌/◌, ◌%◌, [], true, false, Ok, IsErr, IfSome, IfNone, length};
ghost use Rattle.hex.specs.Hex.{decode_of, pair_value};
ghost use Rattle.hex_text.specs.Line.{digits_of};

use crate::tables::{first_high, first_low, second_high, second_low};
use std::marker::Model;

/// Copies the line's digits, all of it but the spaces, to the front of `room`, and gives their
/// number.
fn copy_digits(line: &[u8], room: &mut [u8; 512]) -> usize
    requires { length line.now ≤ 512 }
    ensures digits { take result room.new ≡ digits_of line.now }
    ensures fits { result ≤ 512 }
{
    let mut count = 0;
    for byte in line {
        room[count] = *byte;
        if *byte != b' ' {
            count += 1;
        }
    }
    count
}

/// The number of four digits, two bytes of which the first is the low one; 131072 or more where one of
/// them is no digit.
#[inline(always)]
fn number_of(a: u8, b: u8, c: u8, d: u8) -> u32
    ensures range { result < 131072 → result < 65536 }
    ensures first { (i : ℕ) → result < 131072 → pair_value a b i ≡ Ok (result % 256) }
    ensures second { (i : ℕ) → result < 131072 → pair_value c d i ≡ Ok (result / 256) }
    ensures most { result ≤ 524288 }
{
    first_high(a) + first_low(b) + second_high(c) + second_low(d)
}

/// The two bytes of four digits, none where one of them is no digit.
#[inline(always)]
fn two_bytes_of(a: u8, b: u8, c: u8, d: u8) -> Option<(u8, u8)>
    ensures first { (i : ℕ) → IfSome result (λ bytes. pair_value a b i ≡ Ok bytes.0) }
    ensures second { (i : ℕ) → IfSome result (λ bytes. pair_value c d i ≡ Ok bytes.1) }
{
    let number = number_of(a, b, c, d);
    if number >= 131072 {
        return None;
    }
    Some(((number % 256) as u8, (number / 256) as u8))
}

/// What stands behind a space at the front, if one is there.
#[inline(always)]
fn behind_space(line: &[u8]) -> &[u8]
    ensures digits { digits_of result.now ≡ digits_of line.now }
    ensures len { length result.now ≤ length line.now }
{
    match line {
        [b' ', rest @ ..] => rest,
        _ => line,
    }
}

/// Reads the bytes of a line whose digits stand in groups of eight, as in most lines, to the front
/// of `bytes`, and gives their number; none of other lines.
#[inline(always)]
fn read_groups(line: &[u8], bytes: &mut [u8; 256]) -> Option<usize>
    requires { length line.now ≤ 512 }
    ensures read { IfSome result (λ count. decode_of (digits_of line.now) ≡ Ok (take count bytes.new)) }
    ensures fits { IfSome result (λ count. count ≤ 256) }
{
    let mut count = 0;
    let mut rest = line;
    while let [a, b, c, d, e, f, g, h, after @ ..] = rest {
        let low = number_of(*a, *b, *c, *d);
        let high = number_of(*e, *f, *g, *h);
        if low + high >= 131072 {
            return None;
        }
        bytes[count] = (low % 256) as u8;
        bytes[count + 1] = (low / 256) as u8;
        bytes[count + 2] = (high % 256) as u8;
        bytes[count + 3] = (high / 256) as u8;
        count += 4;
        rest = behind_space(after);
    }
    if rest.is_empty() { Some(count) } else { None }
}

/// Reads the bytes of the digits four at a time, and says whether it did: of digits of whole pairs of bytes.
#[inline(always)]
fn read_fours(digits: &[u8], bytes: &mut [u8]) -> bool
    requires { length bytes.old ≡ length digits.now / 2 }
    ensures { result ≡ true → decode_of digits.now ≡ Ok bytes.new }
{
    let mut count = 0;
    let mut rest = digits;
    while let [a, b, c, d, after @ ..] = rest {
        let Some((first, second)) = two_bytes_of(*a, *b, *c, *d) else {
            return false;
        };
        bytes[count] = first;
        bytes[count + 1] = second;
        count += 2;
        rest = after;
    }
    rest.is_empty()
}

/// Reads the bytes of the digits one by one, and says whether they are digits of whole bytes.
#[inline(never)]
fn read_each(digits: &[u8], bytes: &mut [u8]) -> bool
    requires { length bytes.old ≡ length digits.now / 2 }
    ensures read { result ≡ true → decode_of digits.now ≡ Ok bytes.new }
    ensures not_read { result ≡ false → IsErr (decode_of digits.now) }
{
    hex::decode_to_slice(digits, bytes).is_ok()
}

/// Reads the bytes of the digits, and says whether they are digits of whole bytes.
#[inline(always)]
pub fn read_digits(digits: &[u8], bytes: &mut [u8]) -> bool
    requires { length bytes.old ≡ length digits.now / 2 }
    ensures read { result ≡ true → decode_of digits.now ≡ Ok bytes.new }
    ensures not_read { result ≡ false → IsErr (decode_of digits.now) }
{
    read_fours(digits, bytes) || read_each(digits, bytes)
}

/// Reads the bytes of the line's digits to the front of `bytes`, and gives their number; none where
/// the digits are not those of whole bytes. What `digits` holds does not count.
fn read_line(line: &[u8], digits: &mut [u8; 512], bytes: &mut [u8; 256]) -> Option<usize>
    requires { length line.now ≤ 512 }
    ensures read { IfSome result (λ count. decode_of (digits_of line.now) ≡ Ok (take count bytes.new)) }
    ensures fits { IfSome result (λ count. count ≤ 256) }
    ensures not_read { IfNone result (IsErr (decode_of (digits_of line.now))) }
{
    if let Some(count) = read_groups(line, bytes) {
        return Some(count);
    }
    let count = copy_digits(line, digits);
    let half = count / 2;
    if read_digits(&digits[..count], &mut bytes[..half]) {
        return Some(half);
    }
    None
}

/// The bytes that a line spells, and room to read them: a line is read without clearing it.
#[derive(Drop)]
pub struct HexLine {
    digits: [u8; 512],
    bytes: [u8; 256],
    count: usize,
}

impl Model for HexLine {
    ghost use Rattle.std.specs.Prelude.{List, ℕ, take, ◌≤◌};

    ghost Value = { List ℕ };

    ghost view = { λ line. take line.count line.bytes };

    ghost invariant = { λ line. line.count ≤ 256 };
}

impl HexLine {
    /// No bytes.
    pub fn new() -> HexLine
        ensures { result ≡ [] }
    {
        HexLine {
            digits: [0; 512],
            bytes: [0; 256],
            count: 0,
        }
    }

    /// Reads the bytes that the line spells, and says whether it spells bytes; where it doesn't, there are none.
    pub fn read(&mut self, line: &[u8]) -> bool
        requires { length line.now ≤ 512 }
        ensures read { result ≡ true → decode_of (digits_of line.now) ≡ Ok self.new }
        ensures not_read { result ≡ false → IsErr (decode_of (digits_of line.now)) }
        ensures nothing { result ≡ false → self.new ≡ [] }
    {
        let Some(count) = read_line(line, &mut self.digits, &mut self.bytes) else {
            self.count = 0;
            return false;
        };
        self.count = count;
        true
    }

    /// The bytes that were read last.
    pub fn bytes(&self) -> &[u8]
        ensures { result.now ≡ self.now }
    {
        &self.bytes[..self.count]
    }
}
