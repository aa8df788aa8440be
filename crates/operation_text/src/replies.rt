//! The text of replies.
ghost use Rattle.std.specs.Prelude.{◌≡◌};
ghost use Rattle.std.specs.Result.{result_ok};
ghost use Rattle.operation_text.specs.Words.{words, words_behind};
ghost use Rattle.operation_text.specs.Operations as spelled;

use crate::fields::{alone, bytes, split_word};
use crate::misfit::{BYTES, Expected, Misfit};
use seq_memory::ReplyRef;
use tlp_core::{MAX_PAYLOAD, PayloadRef};

/// A reply, by its first word.
const REPLY: Expected = Expected::Of("a reply", "data, ur, ca");

#[inline(always)]
fn data<'r>(rest: Option<&[u8]>, room: &'r mut [u8; MAX_PAYLOAD]) -> Result<ReplyRef<'r>, Misfit>
    ensures { result_ok result ≡ spelled.data_of (words_behind rest.entry) }
{
    let (bytes, rest) = bytes(rest, BYTES, room)?;
    alone(ReplyRef::Data(PayloadRef::new(bytes)), rest)
}

/// The reply of that kind that the rest of a line spells.
#[inline(always)]
fn reply_by<'r>(
    kind: &[u8],
    rest: Option<&[u8]>,
    text: &[u8],
    room: &'r mut [u8; MAX_PAYLOAD],
) -> Result<ReplyRef<'r>, Misfit>
    ensures { result_ok result ≡ spelled.reply_by kind.now (words_behind rest.entry) }
{
    if kind == b"data".as_slice() {
        data(rest, room)
    } else if kind == b"ur".as_slice() {
        alone(ReplyRef::Unsupported, rest)
    } else if kind == b"ca".as_slice() {
        alone(ReplyRef::Aborted, rest)
    } else {
        Err(REPLY.at(Some(text)))
    }
}

/// The reply that the text spells, whatever its first word is.
#[inline(never)]
fn any_reply<'r>(text: &[u8], room: &'r mut [u8; MAX_PAYLOAD]) -> Result<ReplyRef<'r>, Misfit>
    ensures { result_ok result ≡ spelled.reply_spelled (words text.now) }
{
    let (kind, rest) = split_word(text);
    reply_by(kind, rest, text, room)
}

/// The reply that the text spells: its data is put into the room, whose content doesn't count.
#[inline(always)]
pub fn read_reply<'r>(text: &[u8], room: &'r mut [u8; MAX_PAYLOAD]) -> Result<ReplyRef<'r>, Misfit>
    ensures { result_ok result ≡ spelled.reply_spelled (words text.now) }
{
    match text {
        [b'd', b'a', b't', b'a', b' ', rest @ ..] => data(Some(rest), room),
        _ => any_reply(text, room),
    }
}

/// As [`read_reply`], of the rest of a line; none where there is no rest. `rest` is what
/// [`split_word`] left.
#[inline(always)]
pub fn reply_behind<'r>(
    rest: Option<&[u8]>,
    room: &'r mut [u8; MAX_PAYLOAD],
) -> Result<ReplyRef<'r>, Misfit>
    ensures { result_ok result ≡ spelled.reply_spelled (words_behind rest.entry) }
{
    match rest {
        Some(text) => read_reply(text, room),
        None => Err(REPLY.at(rest)),
    }
}
