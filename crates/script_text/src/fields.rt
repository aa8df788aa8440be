//! The fields of a script's line.
ghost use Rattle.std.specs.Prelude.{◌≡◌, [], ◌∷◌, IfSome, Some, option_map};
ghost use Rattle.std.specs.Result.{result_ok};
ghost use Rattle.operation_text.specs.Words.{words, words_behind, first_field};
ghost use Rattle.script_text.specs.Forms as forms;

use dllp_core::Class;
use fabric_core::LaneName;
use lane_core::{DllpKind, Fate};
use operation_text::{Expected, Misfit, number, word};

const LANE: Expected = Expected::Of("a lane", "up1 to up7, down1 to down7, in, out");

const FATE: Expected = Expected::Of("a fate", "good, failed, lost");

const KIND: Expected = Expected::Of("a kind of DLLP", "ack, p, np, cpl");

pub(crate) fn octet(rest: Option<&[u8]>, expected: Expected) -> Result<(u8, Option<&[u8]>), Misfit>
    ensures { first_field forms.octet (words_behind rest.entry) ≡ option_map (λ s. (s.0, words_behind s.1)) (result_ok result) }
{
    let (octet, rest) = number(rest, 10, 255, expected)?;
    Ok((octet as u8, rest))
}

pub(crate) fn short(rest: Option<&[u8]>, expected: Expected) -> Result<(u16, Option<&[u8]>), Misfit>
    ensures { first_field forms.short (words_behind rest.entry) ≡ option_map (λ s. (s.0, words_behind s.1)) (result_ok result) }
{
    let (short, rest) = number(rest, 10, 65535, expected)?;
    Ok((short as u16, rest))
}

pub(crate) fn count(
    rest: Option<&[u8]>,
    expected: Expected,
) -> Result<(usize, Option<&[u8]>), Misfit>
    ensures { first_field forms.count (words_behind rest.entry) ≡ option_map (λ s. (s.0, words_behind s.1)) (result_ok result) }
{
    let (count, rest) = number(rest, 10, u64::MAX, expected)?;
    Ok((count as usize, rest))
}

/// The port of a lane's name.
fn port(digits: &[u8]) -> Option<u8>
    ensures { result ≡ forms.port_digit digits.now }
{
    match digits {
        [digit] if *digit >= b'1' && *digit <= b'7' => Some(*digit - b'0'),
        _ => None,
    }
}

/// The lane of that name.
pub fn lane_named(word: &[u8]) -> Option<LaneName>
    ensures { result ≡ forms.lane word.now }
{
    if word == b"in".as_slice() {
        return Some(LaneName::Inward);
    }
    if word == b"out".as_slice() {
        return Some(LaneName::Outward);
    }
    match word {
        [b'u', b'p', digits @ ..] => Some(LaneName::Up(port(digits)?)),
        [b'd', b'o', b'w', b'n', digits @ ..] => Some(LaneName::Down(port(digits)?)),
        _ => None,
    }
}

/// The lane that the next word names, whatever it is.
#[inline(never)]
fn any_lane(rest: Option<&[u8]>) -> Result<(LaneName, Option<&[u8]>), Misfit>
    ensures { first_field forms.lane (words_behind rest.entry) ≡ option_map (λ s. (s.0, words_behind s.1)) (result_ok result) }
{
    let (word, behind) = word(rest, LANE)?;
    let lane = lane_named(word).ok_or(LANE.at(rest))?;
    Ok((lane, behind))
}

/// The lane, and what is behind its name, if the name ends where the rest of the line begins.
#[inline(always)]
fn lane_before(lane: LaneName, rest: &[u8]) -> Option<(LaneName, Option<&[u8]>)>
    ensures lane { IfSome result (λ s. s.0 ≡ lane) }
    ensures rest { IfSome result (λ s. words rest.now ≡ [] ∷ words_behind s.1) }
{
    match rest {
        [] => Some((lane, None)),
        [b' ', behind @ ..] => Some((lane, Some(behind))),
        _ => None,
    }
}

/// The lane whose name comes first, and what is behind it. Of lines that begin otherwise it says nothing.
#[inline(always)]
#[tactic(auto, using(crate::proofs::LaneLemmas::up_first, crate::proofs::LaneLemmas::down_first, crate::proofs::LaneLemmas::in_first, crate::proofs::LaneLemmas::out_first))]
fn first_lane(line: &[u8]) -> Option<(LaneName, Option<&[u8]>)>
    ensures { IfSome result (λ s. first_field forms.lane (words line.now) ≡ Some (s.0, words_behind s.1)) }
{
    match line {
        [b'u', b'p', digit @ b'1'..=b'7', rest @ ..] => {
            lane_before(LaneName::Up(*digit - b'0'), rest)
        }
        [b'd', b'o', b'w', b'n', digit @ b'1'..=b'7', rest @ ..] => {
            lane_before(LaneName::Down(*digit - b'0'), rest)
        }
        [b'i', b'n', rest @ ..] => lane_before(LaneName::Inward, rest),
        [b'o', b'u', b't', rest @ ..] => lane_before(LaneName::Outward, rest),
        _ => None,
    }
}

#[inline(always)]
pub(crate) fn lane(rest: Option<&[u8]>) -> Result<(LaneName, Option<&[u8]>), Misfit>
    ensures { first_field forms.lane (words_behind rest.entry) ≡ option_map (λ s. (s.0, words_behind s.1)) (result_ok result) }
{
    if let Some(line) = rest {
        if let Some((lane, behind)) = first_lane(line) {
            return Ok((lane, behind));
        }
    }
    any_lane(rest)
}

fn fate_in(word: &[u8]) -> Option<Fate>
    ensures { result ≡ forms.fate word.now }
{
    if word == b"good".as_slice() {
        Some(Fate::Good)
    } else if word == b"failed".as_slice() {
        Some(Fate::Failed)
    } else if word == b"lost".as_slice() {
        Some(Fate::Lost)
    } else {
        None
    }
}

/// The fate that the next word names, whatever it is.
#[inline(never)]
fn any_fate(rest: Option<&[u8]>) -> Result<(Fate, Option<&[u8]>), Misfit>
    ensures { first_field forms.fate (words_behind rest.entry) ≡ option_map (λ s. (s.0, words_behind s.1)) (result_ok result) }
{
    let (word, behind) = word(rest, FATE)?;
    let fate = fate_in(word).ok_or(FATE.at(rest))?;
    Ok((fate, behind))
}

#[inline(always)]
pub(crate) fn fate(rest: Option<&[u8]>) -> Result<(Fate, Option<&[u8]>), Misfit>
    ensures { first_field forms.fate (words_behind rest.entry) ≡ option_map (λ s. (s.0, words_behind s.1)) (result_ok result) }
{
    match rest {
        Some([b'g', b'o', b'o', b'd']) => Ok((Fate::Good, None)),
        _ => any_fate(rest),
    }
}

fn kind_in(word: &[u8]) -> Option<DllpKind>
    ensures { result ≡ forms.kind word.now }
{
    if word == b"ack".as_slice() {
        Some(DllpKind::Answer)
    } else if word == b"p".as_slice() {
        Some(DllpKind::Update(Class::Posted))
    } else if word == b"np".as_slice() {
        Some(DllpKind::Update(Class::NonPosted))
    } else if word == b"cpl".as_slice() {
        Some(DllpKind::Update(Class::Completion))
    } else {
        None
    }
}

/// The kind of DLLP that the next word names, whatever it is.
#[inline(never)]
fn any_kind(rest: Option<&[u8]>) -> Result<(DllpKind, Option<&[u8]>), Misfit>
    ensures { first_field forms.kind (words_behind rest.entry) ≡ option_map (λ s. (s.0, words_behind s.1)) (result_ok result) }
{
    let (word, behind) = word(rest, KIND)?;
    let kind = kind_in(word).ok_or(KIND.at(rest))?;
    Ok((kind, behind))
}

#[inline(always)]
pub(crate) fn kind(rest: Option<&[u8]>) -> Result<(DllpKind, Option<&[u8]>), Misfit>
    ensures { first_field forms.kind (words_behind rest.entry) ≡ option_map (λ s. (s.0, words_behind s.1)) (result_ok result) }
{
    match rest {
        Some([b'a', b'c', b'k']) => Ok((DllpKind::Answer, None)),
        Some([b'p']) => Ok((DllpKind::Update(Class::Posted), None)),
        Some([b'n', b'p']) => Ok((DllpKind::Update(Class::NonPosted), None)),
        Some([b'c', b'p', b'l']) => Ok((DllpKind::Update(Class::Completion), None)),
        _ => any_kind(rest),
    }
}
