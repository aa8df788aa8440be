//! What becomes of a word by a request, as the search judges it.
ghost use Rattle.seq_memory.specs.Limits.{IsBlock};

use crate::words::Sight;
use search_effects::{
    are_apart, breaks, clashes, is_put, is_quiet, left, never_gives, never_puts, spans,
};
use seq_memory::{Extent, ReplyRef, refusal_lent};
use tlp_core::OpRef;

/// What becomes of a word by a request.
#[derive(Clone, Copy, PartialEq)]
pub(crate) enum Effect {
    /// Its bytes stay as they are.
    Keeps,
    /// They are there behind it.
    Puts,
    /// Others are there behind it.
    Overwrites,
    /// That can't be said.
    Unknown,
}

/// No byte of the word is put there by the request.
fn puts_none(block: u16, sight: &Sight, op: &OpRef<'_>, told: Option<&ReplyRef<'_>>) -> bool
    requires { IsBlock block }
{
    for place in 0..4usize {
        if let Some(value) = sight.word.bytes[place] {
            let address = sight.word.address.saturating_add(place as u64);
            if !never_puts(block, op, told, address, value) {
                return false;
            }
        }
    }
    true
}

/// All bytes of the word are put there by the request, which has their addresses.
fn puts_all(block: u16, sight: &Sight, op: &OpRef<'_>, told: Option<&ReplyRef<'_>>) -> bool
    requires { IsBlock block }
{
    let new = left(block, op, told);
    let from = sight.word.address.saturating_sub(op.address()) as usize;
    for place in 0..4usize {
        if let Some(value) = sight.word.bytes[place] {
            let at = from.saturating_add(place);
            if !is_put(op, at) || new.as_slice().get(at) != Some(&value) {
                return false;
            }
        }
    }
    true
}

/// What becomes of the word by a request that is served.
fn effect_where_served(
    block: u16,
    sight: &Sight,
    op: &OpRef<'_>,
    told: Option<&ReplyRef<'_>>,
) -> Effect
    requires { IsBlock block }
{
    if is_quiet(block, op, told) {
        return Effect::Keeps;
    }
    if breaks(block, op, told, &sight.read, &sight.reply()) {
        return Effect::Overwrites;
    }
    if puts_none(block, sight, op, told) {
        return Effect::Keeps;
    }
    if spans(op, &sight.read) && puts_all(block, sight, op, told) {
        return Effect::Puts;
    }
    Effect::Unknown
}

/// What becomes of the word by a request, which was answered `told` or not at all.
pub(crate) fn effect_by(
    extent: Extent,
    sight: &Sight,
    op: &OpRef<'_>,
    told: Option<&ReplyRef<'_>>,
) -> Effect {
    if are_apart(op, &sight.read) {
        return Effect::Keeps;
    }
    match refusal_lent(extent.base(), extent.block(), extent.size(), op) {
        None => effect_where_served(extent.block(), sight, op, told),
        Some(_) => Effect::Keeps,
    }
}

/// The request was answered the word.
pub(crate) fn shows(sight: &Sight, op: &OpRef<'_>, told: Option<&ReplyRef<'_>>) -> bool {
    let Some(reply) = told else {
        return false;
    };
    let ReplyRef::Data(data) = reply else {
        return false;
    };
    spans(op, &sight.read)
        && !never_gives(op, data.as_slice())
        && !clashes(op, reply, &sight.read, &sight.reply())
}
