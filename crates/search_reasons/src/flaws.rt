//! What is wrong with the form of a log.
ghost use Rattle.std.specs.Prelude.{ℕ, ◌≡◌, IfErr, OnOk};
ghost use Rattle.std.specs.Io.KnownBytes.{Keeps};
ghost use Rattle.diagnostics.specs.Told.{IsPartTold, IsPartBegun};
ghost use Rattle.line_loop.specs.declared.fault.EngineFault.{EngineFault};

use crate::telling::lines_of;
use diagnostics::{Part, Reason};
use history_words::{Flaw, FlawKind, RecordHeader};
use line_loop::EngineFault;
use std::alloc::Global;
use std::io::Write;
use trace_diagnostics::TraceLines;
use trace_store::{RecordStore, Records};

/// A request, by its requester and its number.
#[derive(Clone, Copy, PartialEq)]
struct Request {
    requester: u8,
    number: u32,
}

/// The request that the record submits or answers.
fn request_of(header: RecordHeader) -> Request {
    let (requester, number) = header.request();
    Request { requester, number }
}

fn is_answer(header: RecordHeader) -> bool {
    matches!(header, RecordHeader::Ans { .. })
}

/// The place of the first of the records that submits the request, or that answers it.
fn place_of(records: &Records<'_>, request: Request, answers: bool) -> Option<usize> {
    for place in 0..records.len() {
        if let Some(header) = records.header(place)
            && is_answer(header) == answers
            && request_of(header) == request
        {
            return Some(place);
        }
    }
    None
}

/// How many requests the requester submits in the records.
fn submitted(records: &Records<'_>, requester: u8) -> u64 {
    let mut count: u64 = 0;
    for place in 0..records.len() {
        if let Some(header) = records.header(place)
            && !is_answer(header)
            && request_of(header).requester == requester
        {
            count = count.saturating_add(1);
        }
    }
    count
}

/// A submission has another number than the next.
fn put_numbering(before: &Records<'_>, request: Request, reason: &mut Reason) {
    let Request { requester, number } = request;
    let next = submitted(before, requester);
    reason.put(format_args!(
        ": request {number} of requester {requester} where its request {next} is expected"
    ));
}

/// An answer comes to a request that asks for none.
fn put_unasked(before: &Records<'_>, lines: &TraceLines, request: Request, reason: &mut Reason) {
    let Request { requester, number } = request;
    reason.put(format_args!(": an answer to request {number} of requester {requester}, which "));
    match place_of(before, request, false) {
        Some(place) => {
            let line = lines.of_record(place);
            reason.put(format_args!("is a posted write (line {line})"));
        }
        None => reason.put("was not submitted before"),
    }
}

/// An answer comes to a request that was answered before.
fn put_again(before: &Records<'_>, lines: &TraceLines, request: Request, reason: &mut Reason) {
    let Request { requester, number } = request;
    reason.put(format_args!(": a second answer to request {number} of requester {requester}"));
    if let Some(place) = place_of(before, request, true) {
        let line = lines.of_record(place);
        reason.put(format_args!(", the first is on line {line}"));
    }
}

/// The reason for the first flaw of a log's form.
fn flaw_reason(seen: &RecordStore, flaw: Flaw, lines: &TraceLines) -> Reason {
    let mut reason = Reason::new();
    if let Some(header) = seen.header(flaw.place) {
        let before = seen.records().first(flaw.place);
        let request = request_of(header);
        match flaw.kind {
            FlawKind::Unasked => put_unasked(&before, lines, request, &mut reason),
            FlawKind::Again => put_again(&before, lines, request, &mut reason),
            _ => put_numbering(&before, request, &mut reason),
        }
    }
    reason
}

/// Tells on which record the first flaw of the log's form lies, which line of the text that is, and what is wrong there, in one line. Nothing is
/// written if memory can't be allocated.
#[tactic(auto, using(crate::proofs::TellLemmas::told_somewhere, crate::proofs::TellLemmas::begun_somewhere))]
pub fn tell_flaw<E: Write>(
    alloc: Global,
    text: &[u8],
    seen: &RecordStore,
    flaw: Flaw,
    errors: &mut E,
) -> Result<(), EngineFault>
    ensures ok { OnOk result ((line : ℕ) × IsPartTold (Part.Record flaw.place) line (E.contents errors.old) (E.contents errors.new)) }
    ensures memory { IfErr result (λ f. f ≡ EngineFault.Memory → Keeps (E.contents errors.old) (E.contents errors.new)) }
    ensures part { IfErr result (λ f. f ≡ EngineFault.Write → (line : ℕ) × IsPartBegun (Part.Record flaw.place) line (E.contents errors.old) (E.contents errors.new)) }
{
    let Ok(lines) = lines_of(alloc, text) else {
        return Err(EngineFault::Memory);
    };
    let reason = flaw_reason(seen, flaw, &lines);
    let line = lines.of_record(flaw.place);
    reason.tell_of(Part::Record(flaw.place), line, errors)
}
