//! The words in a picture.
ghost use Rattle.std.specs.Prelude.{◌≡◌, ◌≤◌, ◌+◌, ◌++◌, [], option_map, OnOk};
ghost use Rattle.arrayvec.specs.ArrayString.{array_string_len};
ghost use Rattle.history_bars.specs.Words as said;

use arrayvec::ArrayString;
use history_words::Record;
use operation_text::{write_decimal, write_op, write_reply};
use seq_memory::Reply;
use std::alloc::AllocError;
use svg_text::Colour;
use tlp_core::Op;

/// A request, when it was submitted, how long the history was once it had acted, and the place of its
/// answer among the records.
#[derive(Clone, Copy, PartialEq)]
pub struct Request {
    pub requester: u8,
    pub number: u32,
    pub n: u64,
    pub acted: Option<u64>,
    pub answer: Option<u64>,
}

pub fn kind_colour(op: &Op) -> Colour
    ensures { result ≡ said.kind_colour op.now }
{
    match op {
        Op::Read { .. } => Colour::SkyBlue,
        Op::Write { .. } => Colour::Orange,
        Op::FetchAdd { .. } => Colour::Green,
        Op::Swap { .. } => Colour::Yellow,
        Op::Cas { .. } => Colour::Purple,
    }
}

/// Adds a request's requester and number.
pub fn put_pair(requester: u8, number: u32, text: &mut ArrayString<512>)
    requires { array_string_len text.old ≤ 100 }
    ensures text { text.new.bytes ≡ text.old.bytes ++ said.pair_words requester number }
    ensures len { array_string_len text.new ≤ array_string_len text.old + 41 }
{
    write_decimal(u64::from(requester), text);
    text.push_str(":");
    write_decimal(u64::from(number), text);
}

/// Adds the words of a request.
fn put_request(requester: u8, number: u32, op: &Op, text: &mut ArrayString<512>)
    requires { array_string_len text.old ≤ 50 }
    ensures text { text.new.bytes ≡ text.old.bytes ++ said.request_words requester number op.now }
    ensures len { array_string_len text.new ≤ 430 }
{
    text.push_str("request ");
    put_pair(requester, number, text);
    text.push_str(" ");
    write_op(&op.lend(), text);
}

fn put_acted(acted: Option<u64>, text: &mut ArrayString<512>)
    requires { array_string_len text.old ≤ 100 }
    ensures text { text.new.bytes ≡ text.old.bytes ++ said.acted_words acted }
    ensures len { array_string_len text.new ≤ array_string_len text.old + 28 }
{
    match acted {
        None => text.push_str("; no entry"),
        Some(acted) => {
            text.push_str("; entry ");
            write_decimal(acted.saturating_sub(1), text);
        }
    }
}

/// Writes which request acted, and where it stands in the history.
pub fn put_dot_words(request: &Request, text: &mut ArrayString<512>)
    requires { text.old.bytes ≡ [] }
    ensures { text.new.bytes ≡ said.dot_words request.now }
{
    text.push_str("request ");
    put_pair(request.requester, request.number, text);
    put_acted(request.acted, text);
}

/// Writes which point of the history it is.
pub fn put_point_words(point: u64, text: &mut ArrayString<512>)
    requires { text.old.bytes ≡ [] }
    ensures { text.new.bytes ≡ said.point_words point }
{
    text.push_str("point ");
    write_decimal(point, text);
}

/// Adds when a request was answered, and how.
fn put_reply(n: u64, reply: &Reply, text: &mut ArrayString<512>)
    requires { array_string_len text.old ≤ 150 }
    ensures { text.new.bytes ≡ text.old.bytes ++ said.reply_words n reply.now }
{
    text.push_str("; answered at ");
    write_decimal(n, text);
    text.push_str(": ");
    write_reply(&reply.lend(), text);
}

fn put_answered(answer: Option<&Record>, text: &mut ArrayString<512>)
    requires { array_string_len text.old ≤ 150 }
    ensures { text.new.bytes ≡ text.old.bytes ++ said.answered_words (option_map (λ r. r.now) answer.entry) }
{
    match answer {
        Some(Record::Ans { reply, n, .. }) => put_reply(*n, reply, text),
        _ => text.push_str("; no answer"),
    }
}

/// The record at that place, if there is one.
pub fn answer_at(records: &[Record], place: Option<u64>) -> Option<&Record>
    ensures { option_map (λ r. r.now) result ≡ said.answer_at records.now place }
{
    records.get(place? as usize)
}

/// When a record was made.
pub fn moment_of(answer: Option<&Record>) -> Option<u64>
    ensures { result ≡ said.moment_of (option_map (λ r. r.now) answer.entry) }
{
    match answer? {
        Record::Sub { n, .. } | Record::Ans { n, .. } => Some(*n),
    }
}

/// Writes what became of a request.
fn put_course(records: &[Record], request: &Request, text: &mut ArrayString<512>)
    requires { text.old.bytes ≡ [] }
    ensures { text.new.bytes ≡ said.course_words records.now request.now }
{
    text.push_str("; submitted at ");
    write_decimal(request.n, text);
    put_acted(request.acted, text);
    put_answered(answer_at(records, request.answer), text);
}

/// Writes the title of a bar.
pub fn put_tooltip(
    records: &[Record],
    op: &Op,
    request: &Request,
    text: &mut Vec<u8>,
) -> Result<(), AllocError>
    requires { text.old.items ≡ [] }
    ensures { OnOk result (text.new.items ≡ said.tooltip_words records.now op.now request.now) }
{
    let mut piece = ArrayString::new();
    put_request(request.requester, request.number, op, &mut piece);
    text.extend_from_slice(piece.as_bytes())?;
    piece.clear();
    put_course(records, request, &mut piece);
    text.extend_from_slice(piece.as_bytes())
}

/// Writes the title of an entry of the history.
pub fn put_entry_words(place: u64, requester: u8, number: u32, op: &Op, text: &mut ArrayString<512>)
    requires { text.old.bytes ≡ [] }
    ensures { text.new.bytes ≡ said.entry_words place requester number op.now }
{
    text.push_str("entry ");
    write_decimal(place, text);
    text.push_str(": ");
    put_request(requester, number, op, text);
}

pub fn put_requester_words(requester: u8, text: &mut ArrayString<512>)
    requires { text.old.bytes ≡ [] }
    ensures { text.new.bytes ≡ said.requester_words requester }
{
    text.push_str("requester ");
    write_decimal(u64::from(requester), text);
}
