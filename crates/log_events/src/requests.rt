//! The requests of a log, with what is known of when they act.
ghost use Rattle.std.specs.Prelude.{◌≡◌, ℕ, IfOk, IfSome, Some};
ghost use Rattle.tlp_core.specs.Ops.{Op};
ghost use Rattle.history_words.specs.declared.record.RecordOf.TheVariants as kinds;
ghost use Rattle.log_events.specs.Asked.{IsSubmitted, IsOf, IsAnswered};

use crate::form_of;
use crate::prefix::Prefix;
use history_words::RecordRef;
use seq_memory::{Extent, ReplyRef};
use std::alloc::{AllocError, Global};
use tlp_core::OpRef;
use trace_store::Records;

/// A request, by the places of its records.
#[derive(Clone, Copy)]
pub struct LogRequest {
    pub submission: usize,
    pub answer: Option<usize>,
    /// The answer before which it acted: its own, or, of a posted write, the first one to a later request
    /// of its requester.
    pub due: Option<usize>,
}

/// The lesser one of two places, as far as they are known.
fn earlier(a: Option<usize>, b: Option<usize>) -> Option<usize> {
    match (a, b) {
        (Some(x), Some(y)) => Some(x.min(y)),
        (Some(x), None) => Some(x),
        (None, y) => y,
    }
}

/// The first answers to requests that were looked at, by requester.
#[derive(Clone, Copy)]
struct Firsts {
    answers: [Option<usize>; 256],
}

impl Firsts {
    fn of(&self, requester: u8) -> Option<usize> {
        self.answers[usize::from(requester)]
    }

    fn note(&mut self, requester: u8, answer: Option<usize>) {
        let before = self.of(requester);
        self.answers[usize::from(requester)] = earlier(before, answer);
    }
}

/// The request that a record submits, later ones being noted.
fn request_of(
    record: &RecordRef<'_>,
    place: usize,
    answer: Option<usize>,
    firsts: &mut Firsts,
) -> Option<LogRequest> {
    let RecordRef::Sub { requester, op, .. } = record else {
        return None;
    };
    let due = if op.is_posted() {
        firsts.of(*requester)
    } else {
        answer
    };
    firsts.note(*requester, answer);
    Some(LogRequest {
        submission: place,
        answer,
        due,
    })
}

/// The requests of the first records of a log.
#[derive(Drop)]
pub struct Requests<'a> {
    pub extent: Extent,
    /// All records of the log.
    pub records: Records<'a>,
    /// The last one first.
    pub all: Vec<LogRequest>,
}

/// The requests of the records, the last one first.
fn requests_of(alloc: Global, records: &Records<'_>) -> Result<Vec<LogRequest>, AllocError> {
    let form = form_of(alloc, records)?;
    let mut requests = Vec::new(alloc);
    let mut firsts = Firsts {
        answers: [None; 256],
    };
    for place in (0..records.len()).rev() {
        let answer = form.partners.of(place);
        if let Some(record) = records.get(place)
            && let Some(request) = request_of(&record, place, answer, &mut firsts)
        {
            requests.push(request)?;
        }
    }
    Ok(requests)
}

/// The operation that the record submits.
fn op_of(item: RecordRef<'_>) -> Option<OpRef<'_>>
    ensures { IfSome result (λ op. (i : ℕ) × (k : ℕ) × (n : ℕ) × (item.entry ≡ kinds.Sub i k op n)) }
{
    match item {
        RecordRef::Sub { op, .. } => Some(op),
        RecordRef::Ans { .. } => None,
    }
}

/// The requester whose submission the record is.
fn requester_of(item: &RecordRef<'_>) -> Option<u8>
    ensures { IfSome result (λ i. (k : ℕ) × (op : Op) × (n : ℕ) × (item.now ≡ kinds.Sub i k op n)) }
{
    match item {
        RecordRef::Sub { requester, .. } => Some(*requester),
        RecordRef::Ans { .. } => None,
    }
}

/// The reply that the record is, if it is known: that a request was done says nothing of its reply.
fn reply_of(item: RecordRef<'_>) -> Option<ReplyRef<'_>>
    ensures { IfSome result (λ reply. (i : ℕ) × (k : ℕ) × (n : ℕ) × (item.entry ≡ kinds.Ans i k reply n)) }
{
    match item {
        RecordRef::Sub { .. }
        | RecordRef::Ans {
            reply: ReplyRef::Done,
            ..
        } => None,
        RecordRef::Ans { reply, .. } => Some(reply),
    }
}

impl<'a> Requests<'a> {
    /// The requests of the first records. Where a form is wrong, those of the records before it are joined with their answers.
    pub fn of(alloc: Global, prefix: Prefix<'a>) -> Result<Requests<'a>, AllocError>
        ensures records { IfOk result (λ r. r.records ≡ prefix.entry.seen.now.records) }
    {
        let seen = prefix.seen;
        let all = requests_of(alloc, &prefix.records())?;
        Ok(Requests {
            extent: seen.extent(),
            records: seen.records(),
            all,
        })
    }

    /// The request that the record at the place answers, or that it submits.
    pub fn at(&self, place: usize) -> Option<LogRequest> {
        for request in self.all.as_slice() {
            if request.answer == Some(place) || request.submission == place {
                return Some(*request);
            }
        }
        None
    }

    /// The operation of the request, as its submission has it.
    pub fn op(&self, request: &LogRequest) -> Option<OpRef<'a>>
        ensures { IfSome result (λ op. IsSubmitted self.now.records request.now.submission op) }
    {
        match self.records.get(request.submission) {
            Some(record) => op_of(record),
            None => None,
        }
    }

    /// The requester of the request, as its submission has it.
    pub fn requester(&self, request: &LogRequest) -> Option<u8>
        ensures { IfSome result (IsOf self.now.records request.now.submission) }
    {
        match self.records.get(request.submission) {
            Some(record) => requester_of(&record),
            None => None,
        }
    }

    /// The reply to the request, as its answer has it; none if that has only that the request was done.
    pub fn reply(&self, request: &LogRequest) -> Option<ReplyRef<'a>>
        ensures { IfSome result (λ reply. (a : ℕ) × (request.now.answer ≡ Some a) × IsAnswered self.now.records a reply) }
    {
        let answer = request.answer?;
        match self.records.get(answer) {
            Some(record) => reply_of(record),
            None => None,
        }
    }
}
