//! Requests as bars.
ghost use Rattle.std.specs.Prelude.{◌≡◌, ◌≤◌, ◌+◌, ◌++◌, ℕ, All, IfOk, IfSome, OnOk, Some, codes, length, slice_get, true};
ghost use Rattle.history_words.specs.declared.record.RecordOf.TheVariants as kinds;
ghost use Rattle.tlp_core.specs.Ops.{Op};
ghost use Rattle.operation_text.specs.Texts.{op_text};
ghost use Rattle.search_history.specs.Expected.{IsExpected};
ghost use Rattle.search_scene.specs.Scenes as spec;
ghost use Rattle.search_scene.specs.Scenes.{IsBar, IsPlaced};
ghost use Rattle.search_scene.specs.Spans.{IsAskedAt, IsSpan};

use crate::choosing::Chosen;
use crate::columns::column_of;
use crate::ends::{End, Name, closed_end, open_end};
use crate::page::Page;
use arrayvec::ArrayString;
use history_words::{AsClaim, RecordRef};
use operation_text::write_op;
use search_history::Before;
use search_picture::{PictureRequest, Role};
use std::alloc::{AllocError, Global};
use tlp_core::OpRef;
use trace_store::{Records, TraceStore};

/// How many entries of a history are looked at, at most.
const ENTRIES: usize = 1_000_000_000;

/// A request as it was submitted.
#[derive(Drop)]
struct Asked<'a> {
    name: Name,
    op: OpRef<'a>,
}

/// The request that the record at the place submits.
fn asked_at<'a>(records: &Records<'a>, place: usize) -> Option<Asked<'a>>
    ensures { IfSome result (λ a. (n : ℕ) × (slice_get records.now place ≡ Some (kinds.Sub a.name.requester a.name.number a.op n))) }
{
    match records.get(place)? {
        RecordRef::Sub {
            requester,
            number,
            op,
            ..
        } => Some(Asked {
            name: Name { requester, number },
            op,
        }),
        RecordRef::Ans { .. } => None,
    }
}

/// The entry at the place is the request's.
fn is_at(history: &TraceStore, place: u32, name: Name) -> bool
    ensures { result ≡ true → IsPlaced history.now.memory.entries name.requester name.number place }
{
    match history.request(place as usize) {
        Some((requester, number)) => requester == name.requester && number == name.number,
        None => false,
    }
}

/// The place of the request in the history.
fn place_in(history: &TraceStore, name: Name) -> Option<u32>
    ensures { IfSome result (IsPlaced history.now.memory.entries name.requester name.number) }
{
    let count = history.entries().min(ENTRIES) as u32;
    for place in 0..count {
        if is_at(history, place, name) {
            return Some(place);
        }
    }
    None
}

/// The text of an operation.
fn words_of(alloc: Global, op: &OpRef<'_>) -> Result<Vec<u8>, AllocError>
    ensures { IfOk result (λ v. v.items ≡ op_text op.now) }
{
    let mut text = ArrayString::new();
    write_op(op, &mut text);
    let mut words = Vec::new(alloc);
    words.extend_from_slice(text.as_bytes())?;
    Ok(words)
}

/// What was asked, and what was answered.
fn title_of(alloc: Global, asked: &[u8], said: &[u8]) -> Result<Vec<u8>, AllocError>
    ensures { IfOk result (λ v. v.items ≡ asked.now ++ codes ": " ++ said.now) }
{
    let mut title = Vec::new(alloc);
    title.extend_from_slice(asked)?;
    title.extend_from_slice(b": ")?;
    title.extend_from_slice(said)?;
    Ok(title)
}

/// Where a request's bar begins and ends.
#[derive(Drop)]
struct Span {
    from: u32,
    is_open: bool,
    end: End,
}

/// Where a request's bar begins and ends: it is open if the request has no answer.
fn span_of(
    alloc: Global,
    page: &Page<'_>,
    before: &Option<Before>,
    asked: &Asked<'_>,
    item: Chosen,
) -> Result<Option<Span>, AllocError>
    requires expected { IfSome before.now (λ b. IfSome b.expected (IsExpected page.now.trace b.count)) }
    requires few { length page.now.columns ≤ 40 }
    requires asked { IsAskedAt page.now asked.now.name.requester asked.now.name.number asked.now.op item.request.submission }
    ensures { IfOk result (λ o. IfSome o (IsSpan page.now asked.now.name.requester asked.now.name.number asked.now.op item.request.submission)) }
{
    let Some(from) = column_of(page.columns, page.lines.of_record(item.request.submission)) else {
        return Ok(None);
    };
    match item.request.answer {
        Some(answer) => match closed_end(alloc, page, before, asked.name, answer)? {
            Some(end) => Ok(Some(Span {
                from,
                is_open: false,
                end,
            })),
            None => Ok(None),
        },
        None => {
            let end = open_end(alloc, page, asked.name, &asked.op)?;
            Ok(Some(Span {
                from,
                is_open: true,
                end,
            }))
        }
    }
}

/// The bar of a request that is submitted at that place, with its span.
fn bar_with(
    alloc: Global,
    page: &Page<'_>,
    asked: &Asked<'_>,
    role: Role,
    span: Span,
) -> Result<PictureRequest, AllocError>
    ensures { (place : ℕ) → IsSpan page.now asked.now.name.requester asked.now.name.number asked.now.op place span → IfOk result (IsBar page.now) }
{
    let Span { from, is_open, end } = span;
    let words = words_of(alloc, &asked.op)?;
    let title = title_of(alloc, &words, &end.said)?;
    Ok(PictureRequest {
        requester: asked.name.requester,
        from,
        to: end.to,
        is_open,
        place: place_in(page.history, asked.name),
        role,
        asked: words,
        answered: end.said,
        title,
    })
}

/// The bar of a request that is shown; none if its records aren't as they should be.
fn bar_of(
    alloc: Global,
    page: &Page<'_>,
    before: &Option<Before>,
    item: Chosen,
) -> Result<Option<PictureRequest>, AllocError>
    requires expected { IfSome before.now (λ b. IfSome b.expected (IsExpected page.now.trace b.count)) }
    requires few { length page.now.columns ≤ 40 }
    ensures { IfOk result (λ o. IfSome o (IsBar page.now)) }
{
    let Some(asked) = asked_at(&page.seen.records(), item.request.submission) else {
        return Ok(None);
    };
    let Some(span) = span_of(alloc, page, before, &asked, item)? else {
        return Ok(None);
    };
    let bar = bar_with(alloc, page, &asked, item.role, span)?;
    Ok(Some(bar))
}

/// The bars of requests, and where each was submitted.
#[derive(Drop)]
pub(crate) struct Bars {
    pub(crate) all: Vec<PictureRequest>,
    pub(crate) submissions: Vec<usize>,
}

impl Bars {
    /// Adds a bar, if there is one, of a request that is submitted at the place.
    fn add(&mut self, bar: Option<PictureRequest>, submission: usize) -> Result<(), AllocError>
        ensures bars { (page : spec.Page) → All (IsBar page) self.old.all.items → IfSome bar (IsBar page) → OnOk result (All (IsBar page) self.new.all.items) }
        ensures few { OnOk result (length self.new.all.items ≤ length self.old.all.items + 1) }
        ensures each { length self.old.submissions.items ≡ length self.old.all.items →
            OnOk result (length self.new.submissions.items ≡ length self.new.all.items) }
    {
        let Some(bar) = bar else {
            return Ok(());
        };
        self.all.push(bar)?;
        self.submissions.push(submission)?;
        Ok(())
    }
}

/// The bars of the requests that are shown.
pub(crate) fn bars_of(
    alloc: Global,
    page: &Page<'_>,
    before: &Option<Before>,
    chosen: &[Chosen],
) -> Result<Bars, AllocError>
    requires expected { IfSome before.now (λ b. IfSome b.expected (IsExpected page.now.trace b.count)) }
    requires few { length page.now.columns ≤ 40 }
    ensures bars { IfOk result (λ b. All (IsBar page.now) b.all.items) }
    ensures few { IfOk result (λ b. length b.all.items ≤ length chosen.now) }
    ensures each { IfOk result (λ b. length b.submissions.items ≡ length b.all.items) }
{
    let mut bars = Bars {
        all: Vec::new(alloc),
        submissions: Vec::new(alloc),
    };
    for item in chosen {
        let bar = bar_of(alloc, page, before, *item)?;
        bars.add(bar, item.request.submission)?;
    }
    Ok(bars)
}
