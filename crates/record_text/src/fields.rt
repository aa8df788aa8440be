//! The fields of lines.
ghost use Rattle.std.specs.Prelude.{◌≡◌, IfSome, Some, option_map};
ghost use Rattle.std.specs.Result.{result_ok};
ghost use Rattle.operation_text.specs.Words.{words, words_behind, first_field};
ghost use Rattle.record_text.specs.Forms as forms;

use operation_text::{BASE, BLOCK, Expected, Misfit, SIZE, alone, number, split_word};
use seq_memory::{Extent, LARGE_BLOCK, SMALL_BLOCK, is_size};
use tlp_core::REQUESTERS;

/// The greatest number of a request.
const MAX_NUMBER: u64 = 4_294_967_294;

const REQUESTER: Expected = Expected::Between("a requester", 1, REQUESTERS as u64);

const NUMBER: Expected = Expected::Between("a request's number", 0, MAX_NUMBER);

/// The requester that the next word spells, whatever is behind it.
#[inline(never)]
fn any_requester(rest: Option<&[u8]>) -> Result<(u8, Option<&[u8]>), Misfit>
    ensures { first_field forms.requester (words_behind rest.entry) ≡ option_map (λ s. (s.0, words_behind s.1)) (result_ok result) }
{
    let (requester, behind) = number(rest, 10, u64::from(REQUESTERS), REQUESTER)?;
    if requester == 0 {
        return Err(REQUESTER.at(rest));
    }
    Ok((requester as u8, behind))
}

/// The requester that is the first word of a line, if the word has one digit and another follows it. Of other lines it
/// says nothing.
#[inline(always)]
#[tactic(auto, using(crate::proofs::DigitLemmas::one_digit))]
fn first_requester(line: &[u8]) -> Option<(u8, &[u8])>
    ensures { IfSome result (λ s. first_field forms.requester (words line.now) ≡ Some (s.0, words s.1.now)) }
{
    match line {
        [digit @ b'1'..=b'7', b' ', rest @ ..] => Some((*digit - b'0', rest)),
        _ => None,
    }
}

/// The requester that comes first, 1 to 7, and what is behind it.
#[inline(always)]
pub fn requester(rest: Option<&[u8]>) -> Result<(u8, Option<&[u8]>), Misfit>
    ensures { first_field forms.requester (words_behind rest.entry) ≡ option_map (λ s. (s.0, words_behind s.1)) (result_ok result) }
{
    if let Some(line) = rest {
        if let Some((requester, behind)) = first_requester(line) {
            return Ok((requester, Some(behind)));
        }
    }
    any_requester(rest)
}

/// The number of a request that comes first, below 2^32 - 1, and what is behind it.
#[inline(always)]
pub fn request(rest: Option<&[u8]>) -> Result<(u32, Option<&[u8]>), Misfit>
    ensures { first_field forms.number (words_behind rest.entry) ≡ option_map (λ s. (s.0, words_behind s.1)) (result_ok result) }
{
    let (request, rest) = number(rest, 10, MAX_NUMBER, NUMBER)?;
    Ok((request as u32, rest))
}

/// The number of 64 bits that comes first, and what is behind it.
#[inline(always)]
pub fn count(rest: Option<&[u8]>, expected: Expected) -> Result<(u64, Option<&[u8]>), Misfit>
    ensures { first_field forms.count (words_behind rest.entry) ≡ option_map (λ s. (s.0, words_behind s.1)) (result_ok result) }
{
    number(rest, 10, u64::MAX, expected)
}

/// The block that comes first, 64 or 128, and what is behind it.
fn block(rest: Option<&[u8]>) -> Result<(u16, Option<&[u8]>), Misfit>
    ensures { first_field forms.block (words_behind rest.entry) ≡ option_map (λ s. (s.0, words_behind s.1)) (result_ok result) }
{
    let (block, behind) = number(rest, 10, u64::from(LARGE_BLOCK), BLOCK)?;
    if block == u64::from(SMALL_BLOCK) || block == u64::from(LARGE_BLOCK) {
        return Ok((block as u16, behind));
    }
    Err(BLOCK.at(rest))
}

/// That there can be no memory of the base and the size that come next, of which this is the size.
fn no_memory(size: usize, rest: Option<&[u8]>) -> Misfit {
    if is_size(size) {
        return BASE.at(rest);
    }
    match rest {
        Some(line) => SIZE.at(split_word(line).1),
        None => SIZE.at(None),
    }
}

/// The extent of a memory of that base, size and block, if there can be one. Base and size come first in `place`: the
/// misfit is the size, or else the base.
fn memory_extent(base: u64, size: usize, block: u16, place: Option<&[u8]>) -> Result<Extent, Misfit>
    ensures { result_ok result ≡ forms.memory_extent (record { base = base; size = size; block = block }) }
{
    Extent::new(base, size, block).ok_or(no_memory(size, place))
}

/// The extent of a memory, if there can be one of that base and size, which come in `place`, and the line ends.
fn memory_within(
    base: u64,
    size: usize,
    block: u16,
    place: Option<&[u8]>,
    rest: Option<&[u8]>,
) -> Result<Extent, Misfit>
    ensures { result_ok result ≡ forms.memory_within (record { base = base; size = size; block = block }) (words_behind rest.entry) }
{
    match memory_extent(base, size, block, place) {
        Ok(extent) => alone(extent, rest),
        Err(misfit) => Err(misfit),
    }
}

/// The extent of the memory that the rest of a line tells, with a block or of blocks of 64 bytes.
pub fn memory(place: Option<&[u8]>, has_block: bool) -> Result<Extent, Misfit>
    ensures { result_ok result ≡ forms.memory_of has_block (words_behind place.entry) }
{
    let (base, rest) = number(place, 16, u64::MAX, BASE)?;
    let (size, rest) = count(rest, SIZE)?;
    let size = size as usize;
    if has_block {
        let (block, rest) = block(rest)?;
        return memory_within(base, size, block, place, rest);
    }
    memory_within(base, size, 64, place, rest)
}
