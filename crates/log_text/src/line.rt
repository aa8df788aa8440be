//! The forms of lines.
ghost use Rattle.std.specs.Prelude.{◌≡◌};
ghost use Rattle.std.specs.Result.{result_ok};
ghost use Rattle.operation_text.specs.Words.{words, words_behind};
ghost use Rattle.log_text.specs.Forms as forms;

use history_words::RecordRef;
use operation_text::{Expected, Misfit, alone, op_behind, read_reply, reply_behind, split_word};
use record_text::{memory, request, requester};
use seq_memory::{Extent, ReplyRef};
use tlp_core::MAX_PAYLOAD;

/// A line, by its first word.
const LINE: Expected = Expected::Of("a line of a log", "pciex-log, memory, sub, ans, end");

/// A reply of version 2, by its first word.
const REPLY: Expected = Expected::Of("a reply", "data, ur, ca, done");

/// The version of a log's text.
#[derive(Clone, Copy)]
pub(crate) enum Version {
    /// Each answer has its reply.
    One,
    /// An answer may have only that its request was done.
    Two,
}

/// What a line of a log says: its record is borrowed, and `n` of it is 0.
#[derive(Drop)]
pub(crate) enum LogLine<'r> {
    FirstLine(Version),
    Memory(Extent),
    Record(RecordRef<'r>),
    End,
}

fn memory_line<'r>(rest: Option<&[u8]>) -> Result<LogLine<'r>, Misfit>
    ensures { result_ok result ≡ forms.memory_line_of (words_behind rest.entry) }
{
    match memory(rest, true) {
        Ok(extent) => Ok(LogLine::Memory(extent)),
        Err(misfit) => Err(misfit),
    }
}

#[inline(always)]
pub(crate) fn sub<'r>(
    rest: Option<&[u8]>,
    room: &'r mut [u8; MAX_PAYLOAD],
) -> Result<LogLine<'r>, Misfit>
    ensures { result_ok result ≡ forms.sub_of (words_behind rest.entry) }
{
    let (requester, rest) = requester(rest)?;
    let (number, rest) = request(rest)?;
    let op = op_behind(rest, room)?;
    Ok(LogLine::Record(RecordRef::Sub {
        requester,
        number,
        op,
        n: 0,
    }))
}

/// What is wrong with a reply, if `done` may stand there too.
fn of_version_2(misfit: Misfit, text: &[u8]) -> Misfit {
    let other = REPLY.at(Some(text));
    if misfit.left == other.left {
        other
    } else {
        misfit
    }
}

/// That a request was done, or another reply.
fn done_or<'r>(text: &[u8], room: &'r mut [u8; MAX_PAYLOAD]) -> Result<ReplyRef<'r>, Misfit>
    ensures { result_ok result ≡ forms.done_or_reply (words text.now) }
{
    let (kind, rest) = split_word(text);
    if kind == b"done".as_slice() {
        return alone(ReplyRef::Done, rest);
    }
    match read_reply(text, room) {
        Ok(reply) => Ok(reply),
        Err(misfit) => Err(of_version_2(misfit, text)),
    }
}

/// The reply that the rest of a line spells.
#[inline(always)]
fn reply<'r>(
    rest: Option<&[u8]>,
    version: Version,
    room: &'r mut [u8; MAX_PAYLOAD],
) -> Result<ReplyRef<'r>, Misfit>
    ensures { result_ok result ≡ forms.reply_of version (words_behind rest.entry) }
{
    match (version, rest) {
        (Version::Two, Some(text)) => done_or(text, room),
        (Version::Two, None) => Err(REPLY.at(rest)),
        (Version::One, _) => reply_behind(rest, room),
    }
}

#[inline(always)]
pub(crate) fn ans<'r>(
    rest: Option<&[u8]>,
    version: Version,
    room: &'r mut [u8; MAX_PAYLOAD],
) -> Result<LogLine<'r>, Misfit>
    ensures { result_ok result ≡ forms.ans_of version (words_behind rest.entry) }
{
    let (requester, rest) = requester(rest)?;
    let (number, rest) = request(rest)?;
    let reply = reply(rest, version, room)?;
    Ok(LogLine::Record(RecordRef::Ans {
        requester,
        number,
        reply,
        n: 0,
    }))
}

/// The line of that kind that the rest of it spells.
#[inline(always)]
fn line_by<'r>(
    kind: &[u8],
    rest: Option<&[u8]>,
    text: &[u8],
    version: Version,
    room: &'r mut [u8; MAX_PAYLOAD],
) -> Result<LogLine<'r>, Misfit>
    ensures { result_ok result ≡ forms.line_by version kind.now (words_behind rest.entry) }
{
    if kind == b"sub".as_slice() {
        sub(rest, room)
    } else if kind == b"ans".as_slice() {
        ans(rest, version, room)
    } else if kind == b"memory".as_slice() {
        memory_line(rest)
    } else if kind == b"end".as_slice() {
        alone(LogLine::End, rest)
    } else {
        Err(LINE.at(Some(text)))
    }
}

fn line_in_words<'r>(
    text: &[u8],
    version: Version,
    room: &'r mut [u8; MAX_PAYLOAD],
) -> Result<LogLine<'r>, Misfit>
    ensures { result_ok result ≡ forms.line_in_words version (words text.now) }
{
    let (kind, rest) = split_word(text);
    line_by(kind, rest, text, version, room)
}

/// The line that the text spells in a log of that version: its bytes are put into the room, whose content doesn't count.
#[inline(never)]
pub(crate) fn read_line<'r>(
    text: &[u8],
    version: Version,
    room: &'r mut [u8; MAX_PAYLOAD],
) -> Result<LogLine<'r>, Misfit>
    ensures { result_ok result ≡ forms.line_of version text.now }
{
    if text == b"pciex-log 1".as_slice() {
        Ok(LogLine::FirstLine(Version::One))
    } else if text == b"pciex-log 2".as_slice() {
        Ok(LogLine::FirstLine(Version::Two))
    } else {
        line_in_words(text, version, room)
    }
}
