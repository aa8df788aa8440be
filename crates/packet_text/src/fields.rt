//! The fields of a packet's line.
ghost use Rattle.std.specs.Prelude.{◌≡◌, ◌<◌, ◌≤◌, option_map, IfSome, IfOk};
ghost use Rattle.std.specs.Result.{result_ok};
ghost use Rattle.operation_text.specs.Words.{words_behind, first_field};
ghost use Rattle.packet_text.specs.Forms as forms;

use dllp_core::Class;
use operation_text::{Expected, Misfit, next_word, number, word};
use tlp_core::Status;

const UP_TO_7: Expected = Expected::Between("a number", 0, 7);

const TAG: Expected = Expected::Of("a tag", "two hexadecimal digits");

const SEQUENCE: Expected = Expected::Of("a sequence number", "three hexadecimal digits");

const ID: Expected = Expected::Of("an ID", "four hexadecimal digits");

/// The most bytes that a completion counts.
const MAX_COUNT: u64 = 4096;

const COUNT: Expected = Expected::Between("a Byte Count", 1, MAX_COUNT);

const LOWER: Expected = Expected::Of("a Lower Address", "00 to 7F");

const STATUS: Expected = Expected::Of("a status", "sc, ur, ca");

const CLASS: Expected = Expected::Of("a class", "p, np, cpl");

/// What is behind the next word, which has to be this one.
#[inline(always)]
pub(crate) fn keyword<'a>(
    rest: Option<&'a [u8]>,
    name: &[u8],
    expected: Expected,
) -> Result<Option<&'a [u8]>, Misfit>
    ensures { forms.behind name.now (words_behind rest.entry) ≡ option_map (λ s. words_behind s) (result_ok result) }
{
    let (word, behind) = word(rest, expected)?;
    if word == name {
        Ok(behind)
    } else {
        Err(expected.at(rest))
    }
}

/// The number below 8 behind the next word, which is this name, or 0 where it is not; and what is
/// behind it.
#[inline(always)]
pub(crate) fn named<'a>(
    rest: Option<&'a [u8]>,
    name: &[u8],
) -> Result<(u8, Option<&'a [u8]>), Misfit>
    ensures value { forms.named name.now (words_behind rest.entry) ≡ option_map (λ s. (s.0, words_behind s.1)) (result_ok result) }
    ensures range { IfOk result (λ s. s.0 < 8) }
{
    let Some((word, behind)) = next_word(rest) else {
        return Ok((0, None));
    };
    if word != name {
        return Ok((0, rest));
    }
    let (value, behind) = number(behind, 10, 7, UP_TO_7)?;
    Ok((value as u8, behind))
}

/// The value of a hexadecimal digit.
pub(crate) fn digit(c: u8) -> Option<u8>
    ensures value { result ≡ forms.digit c }
    ensures range { IfSome result (λ n. n < 16) }
{
    Some(char::from(c).to_digit(16)? as u8)
}

pub(crate) fn octet_in(word: &[u8]) -> Option<u8>
    ensures { result ≡ forms.octet word.now }
{
    match word {
        [high, low] => Some(digit(*high)? * 16 + digit(*low)?),
        _ => None,
    }
}

pub(crate) fn sequence_in(word: &[u8]) -> Option<u16>
    ensures value { result ≡ forms.sequence word.now }
    ensures range { IfSome result (λ n. n < 4096) }
{
    match word {
        [high, low @ ..] if low.len() == 2 => {
            let high = digit(*high)?;
            Some(u16::from(high) * 256 + u16::from(octet_in(low)?))
        }
        _ => None,
    }
}

fn id_in(word: &[u8]) -> Option<u16>
    ensures { result ≡ forms.id word.now }
{
    if word.len() != 4 {
        return None;
    }
    let high = octet_in(&word[..2])?;
    let low = octet_in(&word[2..])?;
    Some(u16::from(high) * 256 + u16::from(low))
}

/// A number of two digits.
#[inline(always)]
fn octet(rest: Option<&[u8]>, expected: Expected) -> Result<(u8, Option<&[u8]>), Misfit>
    ensures { first_field forms.octet (words_behind rest.entry) ≡ option_map (λ s. (s.0, words_behind s.1)) (result_ok result) }
{
    let (word, behind) = word(rest, expected)?;
    let octet = octet_in(word).ok_or(expected.at(rest))?;
    Ok((octet, behind))
}

/// A tag.
#[inline(always)]
pub(crate) fn tag(rest: Option<&[u8]>) -> Result<(u8, Option<&[u8]>), Misfit>
    ensures { first_field forms.octet (words_behind rest.entry) ≡ option_map (λ s. (s.0, words_behind s.1)) (result_ok result) }
{
    octet(rest, TAG)
}

/// A sequence number.
pub(crate) fn sequence(rest: Option<&[u8]>) -> Result<(u16, Option<&[u8]>), Misfit>
    ensures value { first_field forms.sequence (words_behind rest.entry) ≡ option_map (λ s. (s.0, words_behind s.1)) (result_ok result) }
    ensures range { IfOk result (λ s. s.0 < 4096) }
{
    let (word, behind) = word(rest, SEQUENCE)?;
    let sequence = sequence_in(word).ok_or(SEQUENCE.at(rest))?;
    Ok((sequence, behind))
}

/// A Requester ID or Completer ID.
#[inline(always)]
pub(crate) fn id(rest: Option<&[u8]>) -> Result<(u16, Option<&[u8]>), Misfit>
    ensures { first_field forms.id (words_behind rest.entry) ≡ option_map (λ s. (s.0, words_behind s.1)) (result_ok result) }
{
    let (word, behind) = word(rest, ID)?;
    let id = id_in(word).ok_or(ID.at(rest))?;
    Ok((id, behind))
}

/// Byte Count.
pub(crate) fn byte_count(rest: Option<&[u8]>) -> Result<(u16, Option<&[u8]>), Misfit>
    ensures value { first_field forms.byte_count (words_behind rest.entry) ≡ option_map (λ s. (s.0, words_behind s.1)) (result_ok result) }
    ensures range { IfOk result (λ s. (1 ≤ s.0) × (s.0 ≤ 4096)) }
{
    let (count, behind) = number(rest, 10, MAX_COUNT, COUNT)?;
    if count == 0 {
        return Err(COUNT.at(rest));
    }
    Ok((count as u16, behind))
}

/// Lower Address.
pub(crate) fn lower(rest: Option<&[u8]>) -> Result<(u8, Option<&[u8]>), Misfit>
    ensures value { first_field forms.lower (words_behind rest.entry) ≡ option_map (λ s. (s.0, words_behind s.1)) (result_ok result) }
    ensures range { IfOk result (λ s. s.0 < 128) }
{
    let (lower, behind) = octet(rest, LOWER)?;
    if lower >= 128 {
        return Err(LOWER.at(rest));
    }
    Ok((lower, behind))
}

fn status_in(word: &[u8]) -> Option<Status>
    ensures { result ≡ forms.status word.now }
{
    if word == b"sc".as_slice() {
        Some(Status::Success)
    } else if word == b"ur".as_slice() {
        Some(Status::Unsupported)
    } else if word == b"ca".as_slice() {
        Some(Status::Aborted)
    } else {
        None
    }
}

/// Completion Status.
pub(crate) fn status(rest: Option<&[u8]>) -> Result<(Status, Option<&[u8]>), Misfit>
    ensures { first_field forms.status (words_behind rest.entry) ≡ option_map (λ s. (s.0, words_behind s.1)) (result_ok result) }
{
    let (word, behind) = word(rest, STATUS)?;
    let status = status_in(word).ok_or(STATUS.at(rest))?;
    Ok((status, behind))
}

fn credits_in(word: &[u8]) -> Option<Class>
    ensures { result ≡ forms.credits word.now }
{
    if word == b"p".as_slice() {
        Some(Class::Posted)
    } else if word == b"np".as_slice() {
        Some(Class::NonPosted)
    } else if word == b"cpl".as_slice() {
        Some(Class::Completion)
    } else {
        None
    }
}

/// A class of credits.
pub(crate) fn credits(rest: Option<&[u8]>) -> Result<(Class, Option<&[u8]>), Misfit>
    ensures { first_field forms.credits (words_behind rest.entry) ≡ option_map (λ s. (s.0, words_behind s.1)) (result_ok result) }
{
    let (word, behind) = word(rest, CLASS)?;
    let credits = credits_in(word).ok_or(CLASS.at(rest))?;
    Ok((credits, behind))
}
