//! The forms of lines.
ghost use Rattle.std.specs.Prelude.{◌≡◌, [], ◌∷◌, IfOk, drop, option_map};
ghost use Rattle.std.specs.Result.{result_ok};
ghost use Rattle.operation_text.specs.Words.{words, words_behind, first_field, ended};
ghost use Rattle.trace_text.specs.Forms as forms;

use history_words::RecordRef;
use operation_text::{Expected, Misfit, alone, number, op_behind, reply_behind, split_word};
use record_text::{count, memory, request, requester};
use seq_memory::{EntryRef, Extent};
use tlp_core::MAX_PAYLOAD;

/// A line, by its first word.
const LINE: Expected = Expected::Of(
    "a line of a trace",
    "pciex-trace, memory, sub, ans, history, ent, end",
);

const VERSION: Expected = Expected::Of("a version", "1, 2");

const LENGTH: Expected = Expected::Of("n", "a number of 64 bits");

/// The version of a trace's text.
#[derive(Clone, Copy)]
pub(crate) enum Version {
    /// Blocks have 64 bytes.
    One,
    /// The memory's line tells the block.
    Two,
}

impl Version {
    /// Whether the memory's line tells the block.
    fn has_block(self) -> bool
        ensures { result ≡ forms.has_block self }
    {
        match self {
            Version::One => false,
            Version::Two => true,
        }
    }
}

/// What a line says: its record or its entry is borrowed.
#[derive(Drop)]
pub(crate) enum Line<'r> {
    FirstLine(Version),
    Memory(Extent),
    Record(RecordRef<'r>),
    History,
    Entry(EntryRef<'r>),
    End,
}

/// A line that was read.
#[derive(Drop)]
pub(crate) struct ReadLine<'l, 'r> {
    pub line: Line<'r>,
    /// Its text from its operation or its reply on, if it has one.
    pub behind: Option<&'l [u8]>,
}

fn next_version(rest: Option<&[u8]>) -> Result<(Version, Option<&[u8]>), Misfit>
    ensures { first_field forms.version (words_behind rest.entry) ≡ option_map (λ s. (s.0, words_behind s.1)) (result_ok result) }
{
    let (version, behind) = number(rest, 10, 2, VERSION)?;
    match version {
        1 => Ok((Version::One, behind)),
        2 => Ok((Version::Two, behind)),
        _ => Err(VERSION.at(rest)),
    }
}

/// The line, which has neither an operation nor a reply, if it ends here.
fn whole<'l, 'r>(line: Line<'r>, rest: Option<&'l [u8]>) -> Result<ReadLine<'l, 'r>, Misfit>
    ensures line { forms.line_in result ≡ ended line.entry (words_behind rest.entry) }
    ensures behind { IfOk result (λ s. words_behind s.behind ≡ []) }
{
    match alone(line, rest) {
        Ok(line) => Ok(ReadLine { line, behind: None }),
        Err(misfit) => Err(misfit),
    }
}

fn first_line<'l, 'r>(rest: Option<&'l [u8]>) -> Result<ReadLine<'l, 'r>, Misfit>
    ensures line { forms.line_in result ≡ forms.first_line_of (words_behind rest.entry) }
    ensures behind { IfOk result (λ s. words_behind s.behind ≡ []) }
{
    let (version, rest) = next_version(rest)?;
    whole(Line::FirstLine(version), rest)
}

fn memory_line<'l, 'r>(
    place: Option<&'l [u8]>,
    version: Version,
) -> Result<ReadLine<'l, 'r>, Misfit>
    ensures line { forms.line_in result ≡ forms.memory_line_of version (words_behind place.entry) }
    ensures behind { IfOk result (λ s. words_behind s.behind ≡ []) }
{
    match memory(place, version.has_block()) {
        Ok(extent) => Ok(ReadLine {
            line: Line::Memory(extent),
            behind: None,
        }),
        Err(misfit) => Err(misfit),
    }
}

/// The submission that the rest of a `sub` line spells: its bytes are put into the room, whose content doesn't count.
#[inline(always)]
pub(crate) fn sub<'l, 'r>(
    rest: Option<&'l [u8]>,
    room: &'r mut [u8; MAX_PAYLOAD],
) -> Result<ReadLine<'l, 'r>, Misfit>
    ensures line { forms.line_in result ≡ forms.sub_of (words_behind rest.entry) }
    ensures behind { IfOk result (λ s. words_behind s.behind ≡ drop 3 (words_behind rest.entry)) }
{
    let (requester, rest) = requester(rest)?;
    let (number, rest) = request(rest)?;
    let (n, rest) = count(rest, LENGTH)?;
    let op = op_behind(rest, room)?;
    let record = RecordRef::Sub {
        requester,
        number,
        op,
        n,
    };
    Ok(ReadLine {
        line: Line::Record(record),
        behind: rest,
    })
}

/// The answer that the rest of an `ans` line spells: its bytes are put into the room, whose content doesn't count.
#[inline(always)]
pub(crate) fn ans<'l, 'r>(
    rest: Option<&'l [u8]>,
    room: &'r mut [u8; MAX_PAYLOAD],
) -> Result<ReadLine<'l, 'r>, Misfit>
    ensures line { forms.line_in result ≡ forms.ans_of (words_behind rest.entry) }
    ensures behind { IfOk result (λ s. words_behind s.behind ≡ drop 3 (words_behind rest.entry)) }
{
    let (requester, rest) = requester(rest)?;
    let (number, rest) = request(rest)?;
    let (n, rest) = count(rest, LENGTH)?;
    let reply = reply_behind(rest, room)?;
    let record = RecordRef::Ans {
        requester,
        number,
        reply,
        n,
    };
    Ok(ReadLine {
        line: Line::Record(record),
        behind: rest,
    })
}

/// The entry that the rest of an `ent` line spells: its bytes are put into the room, whose content doesn't count.
#[inline(always)]
pub(crate) fn ent<'l, 'r>(
    rest: Option<&'l [u8]>,
    room: &'r mut [u8; MAX_PAYLOAD],
) -> Result<ReadLine<'l, 'r>, Misfit>
    ensures line { forms.line_in result ≡ forms.ent_of (words_behind rest.entry) }
    ensures behind { IfOk result (λ s. words_behind s.behind ≡ drop 2 (words_behind rest.entry)) }
{
    let (requester, rest) = requester(rest)?;
    let (number, rest) = request(rest)?;
    let op = op_behind(rest, room)?;
    let entry = EntryRef {
        requester,
        number,
        op,
    };
    Ok(ReadLine {
        line: Line::Entry(entry),
        behind: rest,
    })
}

/// The line of that kind that the rest of it spells.
fn line_by<'l, 'r>(
    kind: &[u8],
    rest: Option<&'l [u8]>,
    version: Version,
    text: &[u8],
    room: &'r mut [u8; MAX_PAYLOAD],
) -> Result<ReadLine<'l, 'r>, Misfit>
    ensures line { forms.line_in result ≡ forms.line_by version kind.now (words_behind rest.entry) }
    ensures behind { IfOk result (λ s. words_behind s.behind ≡ forms.behind_numbers s.line (kind.now ∷ words_behind rest.entry)) }
{
    if kind == b"sub".as_slice() {
        sub(rest, room)
    } else if kind == b"ans".as_slice() {
        ans(rest, room)
    } else if kind == b"ent".as_slice() {
        ent(rest, room)
    } else if kind == b"memory".as_slice() {
        memory_line(rest, version)
    } else if kind == b"history".as_slice() {
        whole(Line::History, rest)
    } else if kind == b"end".as_slice() {
        whole(Line::End, rest)
    } else if kind == b"pciex-trace".as_slice() {
        first_line(rest)
    } else {
        Err(LINE.at(Some(text)))
    }
}

/// The line that the text spells in a trace of that version, whatever its first word is. Its bytes are put into the room,
/// whose content doesn't count.
#[inline(never)]
pub(crate) fn any_line<'l, 'r>(
    text: &'l [u8],
    version: Version,
    room: &'r mut [u8; MAX_PAYLOAD],
) -> Result<ReadLine<'l, 'r>, Misfit>
    ensures line { forms.line_in result ≡ forms.line_of version (words text.now) }
    ensures behind { IfOk result (λ s. words_behind s.behind ≡ forms.behind_numbers s.line (words text.now)) }
{
    let (kind, rest) = split_word(text);
    line_by(kind, rest, version, text, room)
}
