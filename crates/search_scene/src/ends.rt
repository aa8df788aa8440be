//! How the bar of a request ends, and what is said of its answer.
ghost use Rattle.std.specs.Prelude.{◌≡◌, ◌≤◌, ◌++◌, ℕ, IfOk, IfSome, OnOk, Some, drop, option_map, length, slice_get};
ghost use Rattle.std.specs.List.{list_any};
ghost use Rattle.history_words.specs.declared.record.RecordOf.TheVariants as kinds;
ghost use Rattle.history_words.specs.Flaws.{at_place};
ghost use Rattle.history_words.specs.Trace.{answers_to};
ghost use Rattle.operation_text.specs.Texts.{reply_text};
ghost use Rattle.search_history.specs.Expected.{IsExpected};
ghost use Rattle.search_scene.specs.Scenes.{IsAnswered, answered, briefly, told_of, unanswered, unanswered_by};

use crate::columns::column_of;
use crate::page::Page;
use arrayvec::ArrayString;
use history_words::RecordRef;
use operation_text::{write_bytes, write_decimal, write_reply};
use search_history::Before;
use seq_memory::ReplyRef;
use std::alloc::{AllocError, Global};
use tlp_core::OpRef;
use trace_store::Records;

/// A request, by its requester and its number.
#[derive(Clone, Copy)]
pub(crate) struct Name {
    pub(crate) requester: u8,
    pub(crate) number: u32,
}

/// Where a bar ends, and what is said of the answer there.
#[derive(Drop)]
pub(crate) struct End {
    pub(crate) to: u32,
    pub(crate) said: Vec<u8>,
}

/// Adds the text of a reply.
fn put_reply(reply: &ReplyRef<'_>, out: &mut Vec<u8>) -> Result<(), AllocError>
    ensures { OnOk result (out.new.items ≡ out.old.items ++ reply_text reply.now) }
{
    let mut text = ArrayString::new();
    write_reply(reply, &mut text);
    out.extend_from_slice(text.as_bytes())
}

/// Adds the data of a reply, or its text, if it has none.
fn put_brief(reply: &ReplyRef<'_>, out: &mut Vec<u8>) -> Result<(), AllocError>
    ensures { OnOk result (out.new.items ≡ out.old.items ++ briefly reply.now) }
{
    match reply {
        ReplyRef::Data(bytes) => {
            let mut text = ArrayString::new();
            write_bytes(bytes.as_slice(), &mut text);
            out.extend_from_slice(text.as_bytes())
        }
        ReplyRef::Done | ReplyRef::Unsupported | ReplyRef::Aborted => put_reply(reply, out),
    }
}

/// Adds what is said of a reply.
fn put_told(reply: &ReplyRef<'_>, out: &mut Vec<u8>) -> Result<(), AllocError>
    ensures { OnOk result (out.new.items ≡ out.old.items ++ told_of reply.now) }
{
    match reply {
        ReplyRef::Done => out.extend_from_slice(b"done, reply not known"),
        ReplyRef::Data(_) | ReplyRef::Unsupported | ReplyRef::Aborted => put_reply(reply, out),
    }
}

/// What is said of an answer.
fn said_of(
    alloc: Global,
    reply: &ReplyRef<'_>,
    expected: Option<&ReplyRef<'_>>,
) -> Result<Vec<u8>, AllocError>
    ensures { IfOk result (λ v. v.items ≡ answered reply.now (option_map (λ r. r.now) expected.entry)) }
{
    let mut said = Vec::new(alloc);
    put_told(reply, &mut said)?;
    if let Some(other) = expected {
        said.extend_from_slice(b", expected ")?;
        put_brief(other, &mut said)?;
    }
    Ok(said)
}

/// The reply that is expected in place of the one at the place, if it is known.
fn expected_at<'a>(
    page: &Page<'_>,
    before: &'a Option<Before>,
    place: usize,
) -> Option<ReplyRef<'a>>
    requires { IfSome before.now (λ b. IfSome b.expected (IsExpected page.now.trace b.count)) }
    ensures { IfSome result (IsExpected page.now.trace place) }
{
    match before {
        Some(known) if known.count == place => Some(known.expected.as_ref()?.lend()),
        _ => None,
    }
}

/// The reply to the request, or that it was done, if the record at the place answers it.
fn reply_at<'a>(records: &Records<'a>, place: usize, name: Name) -> Option<ReplyRef<'a>>
    ensures { IfSome result (λ r. (n : ℕ) × (slice_get records.now place ≡ Some (kinds.Ans name.requester name.number r n))) }
{
    match records.get(place)? {
        RecordRef::Ans {
            requester,
            number,
            reply,
            ..
        } => {
            if requester == name.requester && number == name.number {
                Some(reply)
            } else {
                None
            }
        }
        RecordRef::Sub { .. } => None,
    }
}

/// The end of a bar at the answer of a request; none if the record at the place is no such answer.
pub(crate) fn closed_end(
    alloc: Global,
    page: &Page<'_>,
    before: &Option<Before>,
    name: Name,
    place: usize,
) -> Result<Option<End>, AllocError>
    requires expected { IfSome before.now (λ b. IfSome b.expected (IsExpected page.now.trace b.count)) }
    requires few { length page.now.columns ≤ 40 }
    ensures { IfOk result (λ o. IfSome o (λ e. IsAnswered page.now name.requester name.number e.to e.said.items)) }
{
    let records = page.seen.records();
    let Some(reply) = reply_at(&records, place, name) else {
        return Ok(None);
    };
    let Some(to) = column_of(page.columns, page.lines.of_record(place)) else {
        return Ok(None);
    };
    let said = said_of(alloc, &reply, expected_at(page, before, place).as_ref())?;
    Ok(Some(End { to, said }))
}

/// The record at the place answers the request.
fn is_answer(records: &Records<'_>, place: usize, name: Name) -> bool
    ensures { result ≡ at_place (answers_to name.requester name.number) records.now place }
{
    match records.get(place) {
        Some(
            RecordRef::Ans {
                requester,
                number,
                ..
            },
        ) => name.requester == requester && name.number == number,
        _ => false,
    }
}

/// A record from that place on answers the request.
fn is_answered_from(records: &Records<'_>, from: usize, name: Name) -> bool
    ensures { result ≡ list_any (answers_to name.requester name.number) (drop from records.now) }
{
    for place in from..records.len() {
        if is_answer(records, place, name) {
            return true;
        }
    }
    false
}

/// Adds what is said of a request without an answer: whether one comes later in the log.
fn put_unanswered(
    is_posted: bool,
    is_later: bool,
    line: u64,
    out: &mut Vec<u8>,
) -> Result<(), AllocError>
    ensures { OnOk result (out.new.items ≡ out.old.items ++ unanswered_by is_posted is_later line) }
{
    if is_posted {
        out.extend_from_slice(b"posted")
    } else if is_later {
        let mut text = ArrayString::new();
        text.push_str("not answered by line ");
        write_decimal(line, &mut text);
        out.extend_from_slice(text.as_bytes())
    } else {
        out.extend_from_slice(b"no answer")
    }
}

/// The end of a bar that is open behind the last column.
pub(crate) fn open_end(
    alloc: Global,
    page: &Page<'_>,
    name: Name,
    op: &OpRef<'_>,
) -> Result<End, AllocError>
    requires { length page.now.columns ≤ 40 }
    ensures to { IfOk result (λ e. e.to ≡ length page.now.columns) }
    ensures said { IfOk result (λ e. e.said.items ≡ unanswered page.now name.requester name.number op.now) }
{
    let records = page.seen.records();
    let is_later = is_answered_from(&records, page.last.saturating_add(1), name);
    let line = page.lines.of_record(page.last);
    let mut said = Vec::new(alloc);
    put_unanswered(op.is_posted(), is_later, line, &mut said)?;
    let to = page.columns.len() as u32;
    Ok(End { to, said })
}
