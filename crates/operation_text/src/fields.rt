//! The fields of a line.
ghost use Rattle.std.specs.Prelude.{◌≡◌, ◌≤◌, ◌<◌, [], ◌∷◌, MatchOption, SomeIff, IfSome, IfOk, option_map, length, take, Some};
ghost use Rattle.tlp_core.specs.Limits.{max_payload};
ghost use Rattle.std.specs.Result.{result_ok};
ghost use Rattle.std.specs.Char.{digit_value};
ghost use Rattle.operation_text.specs.Words.{words, words_behind, first_field, has_ended, ended};
ghost use Rattle.operation_text.specs.Numbers.{numeral, numeral_after, byte_string};
ghost use Rattle.operation_text.specs.Operations as spelled;

use crate::digits::quick_number;
use crate::misfit::{Expected, LINE_END, Misfit};
use arrayvec::ArrayVec;
use hex_text::read_digits;
use tlp_core::{MAX_PAYLOAD, Width, operand_of};

/// The first word of a line, and what is behind the space that ends it, none where the line ends with
/// the word.
#[inline(always)]
pub fn split_word(line: &[u8]) -> (&[u8], Option<&[u8]>)
    ensures { words line.now ≡ result.0.now ∷ words_behind result.1 }
{
    let mut at = 0;
    while at < line.len() && line[at] != b' ' {
        at += 1;
    }
    if at < line.len() {
        (&line[..at], Some(&line[at + 1..]))
    } else {
        (line, None)
    }
}

/// The next word, and what is behind it; none at the end of the line.
#[inline(always)]
pub fn next_word(rest: Option<&[u8]>) -> Option<(&[u8], Option<&[u8]>)>
    ensures { MatchOption result (words_behind rest.entry ≡ []) (λ s. words_behind rest.entry ≡ s.0.now ∷ words_behind s.1) }
{
    Some(split_word(rest?))
}

/// Whether the line ends here, `rest` being what [`split_word`] left.
#[inline(always)]
pub fn is_ended(rest: Option<&[u8]>) -> bool
    ensures { result ≡ has_ended (words_behind rest.entry) }
{
    rest.is_none()
}

/// The value, if the line ends here.
pub fn alone<T: Drop>(value: T, rest: Option<&[u8]>) -> Result<T, Misfit>
    ensures { result_ok result ≡ ended value (words_behind rest.entry) }
{
    if is_ended(rest) {
        Ok(value)
    } else {
        Err(LINE_END.before(rest))
    }
}

/// The digit's value.
fn digit(c: u8, radix: u32) -> Option<u64>
    requires low { 2 ≤ radix }
    requires high { radix ≤ 36 }
    ensures { SomeIff result (digit_value c < radix) (digit_value c) }
{
    Some(u64::from(char::from(c).to_digit(radix)?))
}

/// The number that the digits write.
fn value(word: &[u8], radix: u32, most: u64) -> Option<u64>
    requires low { 2 ≤ radix }
    requires high { radix ≤ 36 }
    ensures value { result ≡ numeral_after radix most 0 word.now }
    ensures range { IfSome result (λ n. n ≤ most) }
{
    let mut n: u64 = 0;
    for c in word {
        let digit = digit(*c, radix)?;
        let next = n.checked_mul(u64::from(radix))?.checked_add(digit)?;
        if next > most {
            return None;
        }
        n = next;
    }
    Some(n)
}

/// The number that the word spells.
#[inline(never)]
fn number_in(word: &[u8], radix: u32, most: u64) -> Option<u64>
    requires low { 2 ≤ radix }
    requires high { radix ≤ 36 }
    ensures value { result ≡ numeral radix most word.now }
    ensures range { IfSome result (λ n. n ≤ most) }
{
    match word {
        [] => None,
        [b'0', _, ..] => None,
        _ => value(word, radix, most),
    }
}

/// The bytes that the word spells, put to the front of the room: 1 to 128 bytes.
#[inline(always)]
fn bytes_into<'r>(word: &[u8], room: &'r mut [u8; MAX_PAYLOAD]) -> Option<&'r [u8]>
    ensures value { option_map (λ b. b.now) result ≡ byte_string word.now }
    ensures few { IfSome result (λ b. length b.now ≤ max_payload) }
{
    if word.is_empty() || word.len() > 2 * MAX_PAYLOAD || word.len() % 2 == 1 {
        return None;
    }
    let bytes = &mut room[..word.len() / 2];
    if !read_digits(word, bytes) {
        return None;
    }
    Some(bytes)
}

/// The bytes that the word spells, two hexadecimal digits a byte: 1 to 128 bytes.
pub fn bytes_in(word: &[u8]) -> Option<ArrayVec<u8, MAX_PAYLOAD>>
    ensures { option_map (λ b. b.items) result ≡ byte_string word.now }
{
    let mut room = [0u8; MAX_PAYLOAD];
    ArrayVec::try_from(bytes_into(word, &mut room)?).ok()
}

/// The operand that the word spells, of 4, 8 or 16 bytes.
#[inline(always)]
fn operand_in(word: &[u8]) -> Option<(Width, u128)>
    ensures { result ≡ spelled.operand word.now }
{
    if word.len() != 8 && word.len() != 16 && word.len() != 32 {
        return None;
    }
    let mut room = [0u8; 16];
    let bytes = &mut room[..word.len() / 2];
    if !read_digits(word, bytes) {
        return None;
    }
    Some(operand_of(bytes))
}

/// The next word, and what is behind it. `rest` is what [`split_word`] left.
#[inline(always)]
pub fn word(rest: Option<&[u8]>, expected: Expected) -> Result<(&[u8], Option<&[u8]>), Misfit>
    ensures { MatchOption (result_ok result) (words_behind rest.entry ≡ []) (λ s. words_behind rest.entry ≡ s.0.now ∷ words_behind s.1) }
{
    next_word(rest).ok_or(expected.at(rest))
}

/// The number that the next word spells in that radix, of at most `most` and without leading zeros,
/// and what is behind it. `rest` is what [`split_word`] left.
#[inline(always)]
pub fn number(
    rest: Option<&[u8]>,
    radix: u32,
    most: u64,
    expected: Expected,
) -> Result<(u64, Option<&[u8]>), Misfit>
    requires low { 2 ≤ radix }
    requires high { radix ≤ 36 }
    ensures field { first_field (numeral radix most) (words_behind rest.entry) ≡ option_map (λ s. (s.0, words_behind s.1)) (result_ok result) }
    ensures range { IfOk result (λ s. s.0 ≤ most) }
{
    if let Some(number) = quick_number(rest, radix, most) {
        return Ok(number);
    }
    let (word, behind) = word(rest, expected)?;
    let number = number_in(word, radix, most).ok_or(expected.at(rest))?;
    Ok((number, behind))
}

/// Reads a first word of eight digits, as most byte strings have, to the front of the room: how many
/// bytes it spells, and what is behind it. Of other words it says nothing.
#[inline(always)]
fn few_bytes<'l>(line: &'l [u8], room: &mut [u8]) -> Option<(usize, Option<&'l [u8]>)>
    requires { 4 ≤ length room.old }
    ensures count { IfSome result (λ s. s.0 ≡ 4) }
    ensures field { IfSome result (λ s. first_field byte_string (words line.now) ≡ Some (take s.0 room.new, words_behind s.1)) }
{
    if line.len() < 8 {
        return None;
    }
    if line.len() > 8 && line[8] != b' ' {
        return None;
    }
    if !read_digits(&line[..8], &mut room[..4]) {
        return None;
    }
    if line.len() == 8 {
        return Some((4, None));
    }
    Some((4, Some(&line[9..])))
}

/// The bytes that the next word spells, put to the front of the room, and what is behind it.
#[inline(always)]
pub(crate) fn bytes<'l, 'r>(
    rest: Option<&'l [u8]>,
    expected: Expected,
    room: &'r mut [u8; MAX_PAYLOAD],
) -> Result<(&'r [u8], Option<&'l [u8]>), Misfit>
    ensures field { first_field byte_string (words_behind rest.entry) ≡ option_map (λ s. (s.0.now, words_behind s.1)) (result_ok result) }
    ensures few { IfOk result (λ s. length s.0.now ≤ max_payload) }
{
    if let Some(line) = rest {
        if let Some((count, behind)) = few_bytes(line, room) {
            return Ok((&room[..count], behind));
        }
    }
    let (word, behind) = word(rest, expected)?;
    let bytes = bytes_into(word, room).ok_or(expected.at(rest))?;
    Ok((bytes, behind))
}

/// The operand whose four bytes are a first word of eight digits, as most operands are, and what is behind it. Of other
/// words it says nothing.
#[inline(always)]
fn few_operand(line: &[u8]) -> Option<((Width, u128), Option<&[u8]>)>
    ensures { IfSome result (λ s. first_field spelled.operand (words line.now) ≡ Some (s.0, words_behind s.1)) }
{
    let mut room = [0u8; 4];
    let (_, behind) = few_bytes(line, &mut room)?;
    Some((operand_of(&room), behind))
}

/// The operand that the next word spells, and what is behind it.
#[inline(always)]
pub(crate) fn operand(
    rest: Option<&[u8]>,
    expected: Expected,
) -> Result<((Width, u128), Option<&[u8]>), Misfit>
    ensures { first_field spelled.operand (words_behind rest.entry) ≡ option_map (λ s. (s.0, words_behind s.1)) (result_ok result) }
{
    if let Some(line) = rest {
        if let Some(few) = few_operand(line) {
            return Ok(few);
        }
    }
    let (word, behind) = word(rest, expected)?;
    let operand = operand_in(word).ok_or(expected.at(rest))?;
    Ok((operand, behind))
}
