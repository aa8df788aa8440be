//! The line that makes a fabric.
ghost use Rattle.std.specs.Prelude.{◌≡◌, ◌≤◌, ◌↔◌, IsTrue, MatchOption, option_map};
ghost use Rattle.std.specs.Result.{result_ok};
ghost use Rattle.fabric_core.specs.Config.{AreCredits, IsBetween, IsConfig};
ghost use Rattle.operation_text.specs.Words.{words_behind};
ghost use Rattle.script_text.specs.Forms as forms;
ghost use Rattle.script_text.specs.declared.line.Line.TheVariants as lines;

use crate::fields::{count, octet, short};
use fabric_core::Config;
use flow_control::{LaneCredits, MAX_DATA, MAX_HEADERS, MIN_ATOMIC_DATA, MIN_DATA};
use operation_text::{BASE, BLOCK, Expected, Misfit, SIZE, alone, next_word, number, split_word};
use seq_memory::{is_base, is_block, is_size};
use tlp_core::REQUESTERS;

/// The bytes of a block where the line doesn't tell them.
const DEFAULT_BLOCK: u16 = 64;

/// The first line of a script.
pub(crate) const FABRIC: Expected = Expected::Of("a fabric", "fabric <requesters> <base> <size>");

const NUMBER: Expected = Expected::Between("a number of requesters", 1, REQUESTERS as u64);

const PH: Expected = Expected::Between("the number of P header credits", 1, MAX_HEADERS as u64);

const PD: Expected = Expected::Between(
    "the number of P data credits",
    MIN_DATA as u64,
    MAX_DATA as u64,
);

const NPH: Expected = Expected::Between("the number of NP header credits", 1, MAX_HEADERS as u64);

const NPD: Expected = Expected::Between(
    "the number of NP data credits",
    MIN_ATOMIC_DATA as u64,
    MAX_DATA as u64,
);

const CPLH: Expected = Expected::Between("the number of Cpl header credits", 1, MAX_HEADERS as u64);

const CPLD: Expected = Expected::Between(
    "the number of Cpl data credits",
    MIN_DATA as u64,
    MAX_DATA as u64,
);

const BLOCK_OR_END: Expected = Expected::Named("'block' or the line's end");

/// The six credits.
fn six_credits(rest: Option<&[u8]>) -> Result<(LaneCredits, Option<&[u8]>), Misfit>
    ensures { forms.six_credits (words_behind rest.entry) ≡ option_map (λ s. (s.0, words_behind s.1)) (result_ok result) }
{
    let (ph, rest) = octet(rest, PH)?;
    let (pd, rest) = short(rest, PD)?;
    let (nph, rest) = octet(rest, NPH)?;
    let (npd, rest) = short(rest, NPD)?;
    let (cplh, rest) = octet(rest, CPLH)?;
    let (cpld, rest) = short(rest, CPLD)?;
    let credits = LaneCredits {
        ph,
        pd,
        nph,
        npd,
        cplh,
        cpld,
    };
    Ok((credits, rest))
}

/// The six credits, or the default where the line ends or `block` comes.
fn credits(rest: Option<&[u8]>) -> Result<(LaneCredits, Option<&[u8]>), Misfit>
    ensures { forms.credits_of (words_behind rest.entry) ≡ option_map (λ s. (s.0, words_behind s.1)) (result_ok result) }
{
    match next_word(rest) {
        Some((word, _)) if word != b"block".as_slice() => six_credits(rest),
        _ => Ok((LaneCredits::DEFAULT, rest)),
    }
}

/// The bytes of a block, which end the line.
fn block(rest: Option<&[u8]>) -> Result<u16, Misfit>
    ensures { result_ok result ≡ forms.block_of (words_behind rest.entry) }
{
    let Some((word, behind)) = next_word(rest) else {
        return Ok(DEFAULT_BLOCK);
    };
    if word != b"block".as_slice() {
        return Err(BLOCK_OR_END.before(rest));
    }
    let (block, behind) = short(behind, BLOCK)?;
    alone(block, behind)
}

/// The fabric that the rest of a line spells.
#[inline(never)]
pub(crate) fn fabric(rest: Option<&[u8]>) -> Result<Config, Misfit>
    ensures { option_map lines.Fabric (result_ok result) ≡ forms.fabric_of (words_behind rest.entry) }
{
    let (requesters, rest) = octet(rest, NUMBER)?;
    let (base, rest) = number(rest, 16, u64::MAX, BASE)?;
    let (size, rest) = count(rest, SIZE)?;
    let (credits, rest) = credits(rest)?;
    let block = block(rest)?;
    Ok(Config {
        requesters,
        base,
        size,
        credits,
        block,
    })
}

/// Whether the credit is in that range.
fn is_between(least: u16, most: u16, credit: u16) -> bool
    ensures { IsTrue result ↔ IsBetween least most credit }
{
    least <= credit && credit <= most
}

/// The first credit that no lane has, by the place of its word in the line.
fn unfit_credit(credits: &LaneCredits) -> Option<(usize, Expected)>
    ensures { MatchOption result (AreCredits credits.now) (λ _. ¬ AreCredits credits.now) }
{
    if !is_between(1, u16::from(MAX_HEADERS), u16::from(credits.ph)) {
        return Some((4, PH));
    }
    if !is_between(MIN_DATA, MAX_DATA, credits.pd) {
        return Some((5, PD));
    }
    if !is_between(1, u16::from(MAX_HEADERS), u16::from(credits.nph)) {
        return Some((6, NPH));
    }
    if !is_between(MIN_ATOMIC_DATA, MAX_DATA, credits.npd) {
        return Some((7, NPD));
    }
    if !is_between(1, u16::from(MAX_HEADERS), u16::from(credits.cplh)) {
        return Some((8, CPLH));
    }
    if !is_between(MIN_DATA, MAX_DATA, credits.cpld) {
        return Some((9, CPLD));
    }
    None
}

/// The first field of which there is no fabric, in the order of its faults, by the place of its word in
/// a line with that last place.
fn unfit_field(config: &Config, last: usize) -> Option<(usize, Expected)>
    ensures { MatchOption result (IsConfig config.now) (λ _. ¬ IsConfig config.now) }
{
    if config.requesters == 0 || config.requesters > REQUESTERS {
        return Some((1, NUMBER));
    }
    if !is_size(config.size) {
        return Some((3, SIZE));
    }
    if !is_base(config.base, config.size) {
        return Some((2, BASE));
    }
    if let Some(unfit) = unfit_credit(&config.credits) {
        return Some(unfit);
    }
    if !is_block(config.block) {
        return Some((last, BLOCK));
    }
    None
}

/// The line from the word of that place on, which is 0 for the first.
fn from_word(line: &[u8], place: usize) -> Option<&[u8]> {
    let mut rest = Some(line);
    for _place in 0..place {
        rest = split_word(rest?).1;
    }
    rest
}

/// The field of the line of which there is no fabric.
pub(crate) fn misfit_of(line: &[u8], config: &Config) -> Option<Misfit> {
    let last = match from_word(line, 6) {
        Some(_) => 11,
        None => 5,
    };
    let (place, expected) = unfit_field(config, last)?;
    Some(expected.at(from_word(line, place)))
}
