//! Why a history doesn't explain a trace.
use crate::trace_lines::TraceLines;
use arrayvec::ArrayString;
use diagnostics::Reason;
use flaw_places::{expected_reply, flawed_request, is_of_entry, point_of};
use history_words::{AsClaim, Flaw, FlawKind, RecordHeader, RecordRef};
use operation_text::write_reply;
use seq_memory::ReplyRef;
use std::alloc::{AllocError, Global};

/// A request, by its requester and its number.
#[derive(Clone, Copy, PartialEq)]
struct Request {
    requester: u8,
    number: u32,
}

/// The record submits the request.
fn submits(header: RecordHeader, request: Request) -> bool {
    match header {
        RecordHeader::Sub {
            requester,
            number,
            ..
        } => requester == request.requester && number == request.number,
        RecordHeader::Ans { .. } => false,
    }
}

/// The record answers the request.
fn answers(header: RecordHeader, request: Request) -> bool {
    match header {
        RecordHeader::Sub { .. } => false,
        RecordHeader::Ans {
            requester,
            number,
            ..
        } => requester == request.requester && number == request.number,
    }
}

/// The place of the request's submission.
fn submission<C: AsClaim>(claim: &C, request: Request) -> Option<usize> {
    for place in 0..claim.records() {
        if submits(claim.header(place)?, request) {
            return Some(place);
        }
    }
    None
}

/// The place of the request's first answer.
fn answer<C: AsClaim>(claim: &C, request: Request) -> Option<usize> {
    for place in 0..claim.records() {
        if answers(claim.header(place)?, request) {
            return Some(place);
        }
    }
    None
}

/// The index of the request in the history.
fn point<C: AsClaim>(claim: &C, request: Request) -> Option<usize> {
    point_of(claim, (request.requester, request.number))
}

/// A trace with a flaw and its history, and where they stand in the text.
#[derive(Drop)]
struct Case<'a, C> {
    claim: &'a C,
    lines: &'a TraceLines,
}

impl<C: AsClaim> Case<'_, C> {
    fn entry_line(&self, index: usize) -> u64 {
        self.lines.of_entry(self.claim.records(), index)
    }

    /// The length of the history at the record; 0 if there is none.
    fn moment(&self, place: usize) -> u64 {
        self.claim.header(place).map_or(0, RecordHeader::moment)
    }

    /// Adds which entry of the history the request is, where it is one.
    fn put_point(&self, request: Request, reason: &mut Reason) {
        if let Some(index) = point(self.claim, request) {
            let line = self.entry_line(index);
            reason.put(format_args!("; entry {index}, line {line}"));
        }
    }
}

/// The record submits an operation of the requester.
fn is_from(header: Option<RecordHeader>, from: u8) -> bool {
    matches!(header, Some(RecordHeader::Sub { requester, .. }) if requester == from)
}

/// How many requests the requester has submitted before the place.
fn submitted<C: AsClaim>(claim: &C, before: usize, from: u8) -> u64 {
    let mut count: u64 = 0;
    for place in 0..before.min(claim.records()) {
        if is_from(claim.header(place), from) {
            count = count.saturating_add(1);
        }
    }
    count
}

/// A submission has another number than the next.
fn put_numbering<C: AsClaim>(
    case: &Case<'_, C>,
    place: usize,
    request: Request,
    reason: &mut Reason,
) {
    let Request { requester, number } = request;
    let next = submitted(case.claim, place, requester);
    reason.put(format_args!(
        ": request {number} of requester {requester} where its request {next} is expected"
    ));
}

/// An entry has no submission, or one of another operation.
fn put_stranger<C: AsClaim>(case: &Case<'_, C>, request: Request, reason: &mut Reason) {
    let Request { requester, number } = request;
    match submission(case.claim, request) {
        None => reason.put(format_args!(
            ": requester {requester} has not submitted request {number}"
        )),
        Some(place) => {
            let line = case.lines.of_record(place);
            reason.put(format_args!(
                ": requester {requester} submitted request {number} with another operation (line {line})"
            ));
        }
    }
}

/// An entry's request stands before it.
fn put_twice<C: AsClaim>(case: &Case<'_, C>, request: Request, reason: &mut Reason) {
    let Request { requester, number } = request;
    reason.put(format_args!(": request {number} of requester {requester} a second time"));
    if let Some(index) = point(case.claim, request) {
        let line = case.entry_line(index);
        reason.put(format_args!("; the first is entry {index}, line {line}"));
    }
}

/// The number above the greatest that the requester has among the entries before the index, or 0.
fn first_unsettled<C: AsClaim>(claim: &C, before: usize, from: u8) -> u64 {
    let mut first: u64 = 0;
    for index in 0..before.min(claim.entries()) {
        if let Some((requester, number)) = claim.request(index) {
            if requester == from {
                first = first.max(u64::from(number) + 1);
            }
        }
    }
    first
}

/// The number of a write that the requester submits, if it is none of those below.
fn write_from(header: Option<RecordHeader>, from: u8, least: u64) -> Option<u32> {
    match header {
        Some(
            RecordHeader::Sub {
                requester,
                number,
                is_posted: true,
                ..
            },
        ) if requester == from && u64::from(number) >= least => Some(number),
        _ => None,
    }
}

/// The place and the number of the first such write.
fn first_write<C: AsClaim>(claim: &C, requester: u8, least: u64) -> Option<(usize, u32)> {
    for place in 0..claim.records() {
        if let Some(number) = write_from(claim.header(place), requester, least) {
            return Some((place, number));
        }
    }
    None
}

/// An earlier write of the requester is missing before an entry. The entries before it have none
/// missing, so those writes that are missing are above them all.
fn put_order<C: AsClaim>(case: &Case<'_, C>, index: usize, request: Request, reason: &mut Reason) {
    let Request { requester, number } = request;
    let least = first_unsettled(case.claim, index, requester);
    let Some((place, write)) = first_write(case.claim, requester, least) else {
        return;
    };
    let line = case.lines.of_record(place);
    reason.put(format_args!(
        ": request {number} of requester {requester} where its earlier write is expected, request {write} (line {line})"
    ));
}

/// An answer comes to a request that asked for none before.
fn put_unasked<C: AsClaim>(case: &Case<'_, C>, request: Request, reason: &mut Reason) {
    let Request { requester, number } = request;
    reason.put(format_args!(
        ": an answer to request {number} of requester {requester}, which has asked for none"
    ));
    if let Some(place) = submission(case.claim, request) {
        let line = case.lines.of_record(place);
        reason.put(format_args!(" before (line {line})"));
    }
}

/// An answer comes to a request that was answered before.
fn put_again<C: AsClaim>(case: &Case<'_, C>, request: Request, reason: &mut Reason) {
    let Request { requester, number } = request;
    reason.put(format_args!(": a second answer to request {number} of requester {requester}"));
    if let Some(place) = answer(case.claim, request) {
        let line = case.lines.of_record(place);
        reason.put(format_args!(", the first is on line {line}"));
    }
}

/// An answered request is not in the history.
fn put_absent(request: Request, reason: &mut Reason) {
    let Request { requester, number } = request;
    reason.put(format_args!(
        ": request {number} of requester {requester} is answered and not in the history"
    ));
}

/// An answered request stands in the history before it was submitted.
fn put_early<C: AsClaim>(case: &Case<'_, C>, request: Request, reason: &mut Reason) {
    let Request { requester, number } = request;
    let Some(place) = submission(case.claim, request) else {
        return;
    };
    let n = case.moment(place);
    let line = case.lines.of_record(place);
    reason.put(format_args!(
        ": request {number} of requester {requester} was submitted at count {n} (line {line})"
    ));
    case.put_point(request, reason);
}

/// An answered request stands in the history after its answer.
fn put_late<C: AsClaim>(case: &Case<'_, C>, place: usize, request: Request, reason: &mut Reason) {
    let Request { requester, number } = request;
    let n = case.moment(place);
    reason.put(format_args!(
        ": request {number} of requester {requester} is answered at count {n}"
    ));
    case.put_point(request, reason);
}

/// Adds a reply's text.
fn put_reply(reply: &ReplyRef<'_>, reason: &mut Reason) {
    let mut text = ArrayString::new();
    write_reply(reply, &mut text);
    reason.put(text.as_str());
}

/// The memory answers otherwise at the request's index. Without memory for its bytes that is all
/// that is told.
fn put_other_reply<C: AsClaim>(
    alloc: Global,
    case: &Case<'_, C>,
    flaw: Flaw,
    request: Request,
    reason: &mut Reason,
) {
    let Some(RecordRef::Ans { reply, .. }) = case.claim.record(flaw.place) else {
        return;
    };
    reason.put(": ");
    put_reply(&reply, reason);
    if let Ok(Some(made)) = expected_reply(alloc, case.claim, flaw) {
        reason.put(" where ");
        put_reply(&made.lend(), reason);
        reason.put(" is expected");
    }
    case.put_point(request, reason);
}

fn flags(alloc: Global, count: usize) -> Result<Vec<bool>, AllocError> {
    vec![in alloc; false; count]
}

/// The number of the requester's request that the record answers, if it answers one.
fn answered_by(header: Option<RecordHeader>, from: u8) -> Option<u32> {
    match header {
        Some(
            RecordHeader::Ans {
                requester,
                number,
                ..
            },
        ) if requester == from => Some(number),
        _ => None,
    }
}

/// Which of the requester's requests are answered before the place, by their numbers.
fn answered<C: AsClaim>(alloc: Global, claim: &C, before: usize, from: u8) -> Option<Vec<bool>> {
    let before = before.min(claim.records());
    let mut answered = flags(alloc, before).ok()?;
    for place in 0..before {
        if let Some(number) = answered_by(claim.header(place), from) {
            if let Some(flag) = answered.get_mut(number as usize) {
                *flag = true;
            }
        }
    }
    Some(answered)
}

/// The greatest index of an answered request of the requester.
fn last_answered<C: AsClaim>(claim: &C, answered: &[bool], from: u8) -> Option<usize> {
    let mut last = None;
    for index in 0..claim.entries() {
        let (requester, number) = claim.request(index)?;
        let flag = answered.get(number as usize).copied();
        if requester == from && flag == Some(true) {
            last = Some(index);
        }
    }
    last
}

/// A request stands before what its requester was answered before it submitted the request.
fn put_stale<C: AsClaim>(alloc: Global, case: &Case<'_, C>, request: Request, reason: &mut Reason) {
    let Request { requester, number } = request;
    reason.put(format_args!(
        ": request {number} of requester {requester} is not above what was answered before it was submitted"
    ));
    case.put_point(request, reason);
    let Some(place) = submission(case.claim, request) else {
        return;
    };
    let Some(answered) = answered(alloc, case.claim, place, requester) else {
        return;
    };
    if let Some(index) = last_answered(case.claim, &answered, requester) {
        let line = case.entry_line(index);
        reason.put(format_args!("; that answer is of entry {index}, line {line}"));
    }
}

/// The record's n is below that of the record before it, above the length of the history, or above the
/// index of the request that it submits.
fn put_clock<C: AsClaim>(case: &Case<'_, C>, place: usize, request: Request, reason: &mut Reason) {
    let n = case.moment(place);
    let previous = place.saturating_sub(1);
    let last = case.moment(previous);
    let length = case.claim.entries();
    reason.put(format_args!(": count {n}"));
    if n < last {
        let line = case.lines.of_record(previous);
        reason.put(format_args!(" after count {last} (line {line})"));
    } else if n > length as u64 {
        reason.put(format_args!(", and the history has {length} entries"));
    } else {
        case.put_point(request, reason);
    }
    reason.put(": the order between requesters isn't checked");
}

/// Adds what is wrong with the entry at the flaw's place.
fn put_of_entry<C: AsClaim>(case: &Case<'_, C>, flaw: Flaw, request: Request, reason: &mut Reason) {
    match flaw.kind {
        FlawKind::Stranger => put_stranger(case, request, reason),
        FlawKind::Twice => put_twice(case, request, reason),
        _ => put_order(case, flaw.place, request, reason),
    }
}

/// Adds what is wrong with the record at the flaw's place.
fn put_of_record<C: AsClaim>(
    alloc: Global,
    case: &Case<'_, C>,
    flaw: Flaw,
    request: Request,
    reason: &mut Reason,
) {
    match flaw.kind {
        FlawKind::Numbering => put_numbering(case, flaw.place, request, reason),
        FlawKind::Unasked => put_unasked(case, request, reason),
        FlawKind::Again => put_again(case, request, reason),
        FlawKind::Absent => put_absent(request, reason),
        FlawKind::Early => put_early(case, request, reason),
        FlawKind::Late => put_late(case, flaw.place, request, reason),
        FlawKind::Clock => put_clock(case, flaw.place, request, reason),
        FlawKind::Reply => put_other_reply(alloc, case, flaw, request, reason),
        _ => put_stale(alloc, case, request, reason),
    }
}

/// The reason for the first flaw of a trace.
pub(crate) fn flaw_reason<C: AsClaim>(
    alloc: Global,
    claim: &C,
    flaw: Flaw,
    lines: &TraceLines,
) -> Reason {
    let case = Case { claim, lines };
    let mut reason = Reason::new();
    if let Some((requester, number)) = flawed_request(claim, Some(flaw)) {
        let request = Request { requester, number };
        if is_of_entry(flaw.kind) {
            put_of_entry(&case, flaw, request, &mut reason);
        } else {
            put_of_record(alloc, &case, flaw, request, &mut reason);
        }
    }
    reason
}
