//! Whose request a TLP is or answers.
ghost use Rattle.std.specs.Prelude.{◌≡◌, ◌<◌, IfOk, option_map};
ghost use Rattle.std.specs.Result.{result_ok};
ghost use Rattle.operation_text.specs.Words.{words_behind};
ghost use Rattle.packet_text.specs.Forms as forms;

use crate::fields::{id, keyword, named, tag};
use operation_text::{Expected, LINE_END, Misfit, is_ended};
use requester_core::Origin;

pub(crate) const FROM: Expected = Expected::Named("'from'");

const TAG_WORD: Expected = Expected::Named("'tag'");

const TC_OR_END: Expected = Expected::Named("'tc', 'attr' or the line's end");

const ATTR_OR_END: Expected = Expected::Named("'attr' or the line's end");

/// What may come behind Traffic Class and attributes, of which each may be left out.
fn class_end(has_tc: bool, has_attr: bool) -> Expected {
    match (has_tc, has_attr) {
        (_, true) => LINE_END,
        (true, false) => ATTR_OR_END,
        (false, false) => TC_OR_END,
    }
}

/// How many bytes are left.
fn left(rest: Option<&[u8]>) -> usize {
    match rest {
        Some(rest) => rest.len(),
        None => 0,
    }
}

/// Traffic Class and attributes, which end the line.
#[inline(always)]
fn class(rest: Option<&[u8]>) -> Result<(u8, u8), Misfit>
    ensures value { result_ok result ≡ forms.class (words_behind rest.entry) }
    ensures range { IfOk result (λ p. (p.0 < 8) × (p.1 < 8)) }
{
    let (tc, behind_tc) = named(rest, b"tc")?;
    let (attr, behind) = named(behind_tc, b"attr")?;
    if !is_ended(behind) {
        let has_tc = left(behind_tc) < left(rest);
        let has_attr = left(behind) < left(behind_tc);
        return Err(class_end(has_tc, has_attr).before(behind));
    }
    Ok((tc, attr))
}

/// What has that Requester ID and that tag, and ends with Traffic Class and attributes.
#[inline(always)]
pub(crate) fn origin_with(requester: u16, tag: u8, rest: Option<&[u8]>) -> Result<Origin, Misfit>
    ensures value { result_ok result ≡ forms.origin_with requester tag (words_behind rest.entry) }
    ensures range { IfOk result (λ o. (o.tc < 8) × (o.attr < 8)) }
{
    let (tc, attr) = class(rest)?;
    Ok(Origin {
        requester,
        tag,
        tc,
        attr,
    })
}

/// The Requester ID and the tag that the next words spell, and what is behind them.
#[inline(always)]
pub(crate) fn id_and_tag(rest: Option<&[u8]>) -> Result<(u16, u8, Option<&[u8]>), Misfit>
    ensures { forms.id_and_tag (words_behind rest.entry) ≡ option_map (λ s. ((s.0, s.1), words_behind s.2)) (result_ok result) }
{
    let (requester, rest) = id(rest)?;
    let rest = keyword(rest, b"tag", TAG_WORD)?;
    let (tag, rest) = tag(rest)?;
    Ok((requester, tag, rest))
}
