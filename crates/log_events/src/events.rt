//! The events of records.
ghost use Rattle.std.specs.Prelude.{◌≡◌, ℕ, List, IfOk, IfSome, IsTrue, is_some, if◌then◌else◌, length, map, option_and_then, slice_get, Some, None, true};
ghost use Rattle.tlp_core.specs.Ops.{Op};
ghost use Rattle.seq_memory.specs.Entries.{Reply};
ghost use Rattle.history_words.specs.Records.{Record};
ghost use Rattle.history_words.specs.declared.record.RecordOf.TheVariants as kinds;
ghost use Rattle.log_runs.specs.EventView.{event_in, reply_there, submission_there};
ghost use Rattle.log_runs.specs.EventView as events;
ghost use Rattle.log_runs.specs.Tasks.{known, Says, AreEvents, AreAllEvents};
ghost use Rattle.log_events.specs.Formed as spec;
ghost use Rattle.log_events.specs.Joined.{partner, ArePartners, SaysAll};

use crate::partners::Partners;
use history_words::{RecordHeader, RecordRef};
use log_runs::{EventAt, Log};
use seq_memory::{Extent, ReplyRef};
use std::alloc::{AllocError, Global};
use trace_store::Records;

/// The record answers the request, and has its reply: that the request was done says nothing of it.
fn tells(item: &RecordRef<'_>, requester: u8, number: u32) -> bool
    ensures some { IsTrue result → (reply : Reply) × (n : ℕ) × (item.now ≡ kinds.Ans requester number reply n) × (known reply ≡ Some reply) }
    ensures own { (n : ℕ) (reply : Reply) → item.now ≡ kinds.Ans requester number reply n → result ≡ is_some (known reply) }
{
    match item {
        RecordRef::Ans {
            requester: who,
            number: own,
            reply,
            ..
        } => *who == requester && *own == number && !matches!(reply, ReplyRef::Done),
        RecordRef::Sub { .. } => false,
    }
}

/// The place, if the record there answers the request, and has its reply.
pub fn answer_at(
    records: &Records<'_>,
    at: Option<usize>,
    requester: u8,
    number: u32,
) -> Option<usize>
    ensures some { IfSome result (λ a. (reply : Reply) × (n : ℕ) × (at ≡ Some a) × (slice_get records.now a ≡ Some (kinds.Ans requester number reply n)) ×
        (known reply ≡ Some reply)) }
    ensures own { (a n : ℕ) (reply : Reply) → at ≡ Some a → slice_get records.now a ≡ Some (kinds.Ans requester number reply n) →
        result ≡ (if is_some (known reply) then Some a else None) }
{
    let at = at?;
    if tells(&records.get(at)?, requester, number) {
        Some(at)
    } else {
        None
    }
}

/// The record at the place submits the request.
pub(crate) fn submits(records: &Records<'_>, at: usize, requester: u8, number: u32) -> bool
    ensures some { IsTrue result → (op : Op) × (n : ℕ) × (slice_get records.now at ≡ Some (kinds.Sub requester number op n)) }
    ensures own { (n : ℕ) (op : Op) → slice_get records.now at ≡ Some (kinds.Sub requester number op n) → result ≡ true }
    ensures value { (r : Record) → slice_get records.now at ≡ Some r → result ≡ spec.submits requester number r }
{
    match records.header(at) {
        Some(
            RecordHeader::Sub {
                requester: who,
                number: own,
                ..
            },
        ) => who == requester && own == number,
        _ => false,
    }
}

/// The place, if the request is submitted there.
pub(crate) fn submission_at(
    records: &Records<'_>,
    at: Option<usize>,
    requester: u8,
    number: u32,
) -> Option<usize>
    ensures some { IfSome result (λ b. (op : Op) × (n : ℕ) × (slice_get records.now b ≡ Some (kinds.Sub requester number op n))) }
    ensures own { (b n : ℕ) (op : Op) → at ≡ Some b → slice_get records.now b ≡ Some (kinds.Sub requester number op n) → result ≡ Some b }
{
    let at = at?;
    if submits(records, at, requester, number) {
        Some(at)
    } else {
        None
    }
}

/// The place in 32 bits, if it is so small.
fn narrow(place: usize) -> Result<u32, AllocError>
    ensures { IfOk result (λ p. p ≡ place) }
{
    u32::try_from(place).map_err(|_| AllocError)
}

/// The event of a submission, for which the answer at that place has a reply, if there is one.
fn submission_event(submission: usize, answer: Option<usize>) -> Result<EventAt, AllocError>
    ensures { IfOk result (λ e. (rs : List Record) → event_in rs e ≡
        submission_there (slice_get rs submission) (option_and_then (λ a. reply_there (slice_get rs a)) answer)) }
{
    let submission = narrow(submission)?;
    match answer {
        Some(place) => Ok(EventAt::Answered {
            submission,
            answer: narrow(place)?,
        }),
        None => Ok(EventAt::Unanswered { submission }),
    }
}

/// The event of an answer to the request that is submitted at that place, if it is one.
fn answer_event(request: Option<usize>) -> Result<EventAt, AllocError>
    ensures due { IfOk result (λ e. (rs : List Record) (b : ℕ) → request ≡ Some b → event_in rs e ≡ events.Due b) }
    ensures free { IfOk result (λ e. (rs : List Record) → request ≡ None → event_in rs e ≡ events.Free) }
{
    match request {
        Some(place) => Ok(EventAt::Due {
            request: narrow(place)?,
        }),
        None => Ok(EventAt::Free),
    }
}

/// The event at a place, whose record belongs together with another as the table has it.
fn event_at(records: &Records<'_>, partners: &Partners, at: usize) -> Result<EventAt, AllocError>
    ensures says { IfOk result (λ e. (r : Record) → slice_get records.now at ≡ Some r → Says records.now r (event_in records.now e)) }
    ensures all { IfOk result (λ e. (r : Record) → slice_get records.now at ≡ Some r →
        SaysAll records.now (partner partners.now at) r (event_in records.now e)) }
{
    match records.header(at) {
        Some(
            RecordHeader::Sub {
                requester,
                number,
                ..
            },
        ) => submission_event(at, answer_at(records, partners.of(at), requester, number)),
        Some(
            RecordHeader::Ans {
                requester,
                number,
                ..
            },
        ) => answer_event(submission_at(records, partners.of(at), requester, number)),
        None => Ok(EventAt::Free),
    }
}

/// The events of the records, each with its partner where the guess of that is right.
fn events_of(
    alloc: Global,
    records: &Records<'_>,
    partners: &Partners,
) -> Result<Vec<EventAt>, AllocError>
    ensures says { IfOk result (λ v. AreEvents records.now (map (event_in records.now) v.items)) }
    ensures all { IfOk result (λ v. ArePartners partners.now records.now → AreAllEvents records.now (map (event_in records.now) v.items)) }
{
    let mut events = Vec::with_capacity(alloc, records.len())?;
    for at in 0..records.len() {
        let event = event_at(records, partners, at)?;
        events.push(event)?;
    }
    Ok(events)
}

/// The records over that memory as a search sees them. `partners` says which of them may belong together; where it is right
/// for all of them, the events say all that the records do. More than 2^32 records are refused as if an allocation
/// failed.
pub fn log_of<'a>(
    alloc: Global,
    extent: Extent,
    records: Records<'a>,
    partners: &Partners,
) -> Result<Log<'a>, AllocError>
    ensures events { IfOk result (λ l. AreEvents records.entry l.events) }
    ensures all { IfOk result (λ l. ArePartners partners.now records.entry → AreAllEvents records.entry l.events) }
    ensures extent { IfOk result (λ l. l.extent ≡ extent) }
{
    let events = events_of(alloc, &records, partners)?;
    Ok(Log::new(extent, records, events))
}
