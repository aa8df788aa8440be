//! What a search goes through.
ghost use Rattle.std.specs.Prelude.{◌≡◌, IfOk, List, is_some, length, map, option_and_then, option_map, slice_get};
ghost use Rattle.history_words.specs.Records.{Record};
ghost use Rattle.log_runs.specs.EventView.{event_in, event_of, part_event, reply_there, submission_there, unanswered};
ghost use Rattle.log_runs.specs.EventView as events;
ghost use Rattle.log_runs.specs.Headers.{header_of, header_there};

use history_words::{RecordHeader, RecordRef};
use seq_memory::{Extent, ReplyRef};
use std::alloc::{AllocError, Global};
use std::marker::Model;
use std::mem::size_of;
use tlp_core::OpRef;
use trace_store::Records;

/// What a log has at one place. A request is named by the place of its submission, from 0.
#[derive(Drop)]
pub enum Event<'a> {
    /// A submission, and the reply that the log has for it, if it has one.
    Sub {
        requester: u8,
        op: OpRef<'a>,
        reply: Option<ReplyRef<'a>>,
    },
    /// The answer to the request at that place.
    Due {
        request: usize,
    },
    /// An answer of which a search makes nothing.
    Free,
}

/// An event without its operation and its reply.
#[derive(Clone, Copy)]
pub enum EventHeader {
    /// A submission: by whom, whether it is posted, and whether the log has a reply for it; the first address and the
    /// number of the bytes that it names.
    Sub {
        requester: u8,
        is_posted: bool,
        is_answered: bool,
        address: u64,
        size: u32,
    },
    /// The answer to the request at that place.
    Due {
        request: usize,
    },
    /// An answer of which a search makes nothing.
    Free,
}

/// An event, by the places of its records, in 12 bytes. So a log has at most 2^32 records.
#[derive(Clone, Copy)]
pub enum EventAt {
    /// The submission at that place, and the answer with the reply that the log has for it.
    Answered { submission: u32, answer: u32 },
    /// The submission at that place, for which the log has no reply.
    Unanswered { submission: u32 },
    /// The answer to a request.
    Due { request: u32 },
    /// An answer of which a search makes nothing.
    Free,
}

const _: () = prove!(size_of::<EventAt>() <= 12);

/// An event of a part of a log.
#[derive(Clone, Copy)]
pub enum PartEvent {
    /// The one that the whole log has at that place.
    Whole(usize),
    /// The same, but if it is a submission, without its reply.
    Unanswered(usize),
    /// The answer to a request, by the place that this has in the part.
    Due { request: usize },
    /// An answer of which a search makes nothing.
    Free,
}

/// What a search goes through: the events of a log, and where its memory lies. The operations and
/// replies are lent by the records.
#[derive(Drop)]
pub struct Log<'a> {
    extent: Extent,
    records: Records<'a>,
    events: Vec<EventAt>,
}

impl<'a> Model for Log<'a> {
    ghost use Rattle.std.specs.Prelude.{map};
    ghost use Rattle.log_runs.specs.EventView.{event_in};
    ghost use Rattle.log_runs.specs.LogView.{LogView};

    ghost Value = { LogView };

    ghost view = { λ m. record { extent = m.extent; events = map (event_in m.records) m.events.items } };
}

/// The reply of the answer at the place.
#[inline(always)]
fn reply_at<'a>(records: &Records<'a>, place: usize) -> Option<ReplyRef<'a>>
    ensures { result ≡ reply_there (slice_get records.now place) }
{
    match records.get(place) {
        Some(RecordRef::Ans { reply, .. }) => Some(reply),
        _ => None,
    }
}

/// The event of the submission at the place, which has that reply.
#[inline(always)]
fn submission_at<'a>(records: &Records<'a>, place: usize, reply: Option<ReplyRef<'a>>) -> Event<'a>
    ensures { event_of result ≡ submission_there (slice_get records.now place) reply.entry }
{
    match records.get(place) {
        Some(RecordRef::Sub { requester, op, .. }) => Event::Sub {
            requester,
            op,
            reply,
        },
        _ => Event::Free,
    }
}

/// The event, with what its records lend.
#[inline(always)]
fn lent<'a>(records: &Records<'a>, event: EventAt) -> Event<'a>
    ensures { event_of result ≡ event_in records.now event }
{
    match event {
        EventAt::Answered { submission, answer } => {
            let reply = reply_at(records, answer as usize);
            submission_at(records, submission as usize, reply)
        }
        EventAt::Unanswered { submission } => submission_at(records, submission as usize, None),
        EventAt::Due { request } => Event::Due {
            request: request as usize,
        },
        EventAt::Free => Event::Free,
    }
}

/// An answer stands at the place.
#[inline(always)]
fn is_answer(records: &Records<'_>, place: usize) -> bool
    ensures { result ≡ is_some (reply_there (slice_get records.now place)) }
{
    matches!(records.header(place), Some(RecordHeader::Ans { .. }))
}

/// The header of the submission at the place, which has a reply or none.
#[inline(always)]
fn submission_header(records: &Records<'_>, place: usize, is_answered: bool) -> EventHeader
    ensures { result ≡ header_there (slice_get records.now place) is_answered }
{
    let Some(
        RecordHeader::Sub {
            requester,
            is_posted,
            ..
        },
    ) = records.header(place)
    else {
        return EventHeader::Free;
    };
    let Some((address, size)) = records.range(place) else {
        return EventHeader::Free;
    };
    EventHeader::Sub {
        requester,
        is_posted,
        is_answered,
        address,
        size,
    }
}

/// The event without its operation and its reply.
#[inline(always)]
fn header_in(records: &Records<'_>, event: EventAt) -> EventHeader
    ensures { result ≡ header_of (event_in records.now event) }
{
    match event {
        EventAt::Answered { submission, answer } => {
            let is_answered = is_answer(records, answer as usize);
            submission_header(records, submission as usize, is_answered)
        }
        EventAt::Unanswered { submission } => {
            submission_header(records, submission as usize, false)
        }
        EventAt::Due { request } => EventHeader::Due {
            request: request as usize,
        },
        EventAt::Free => EventHeader::Free,
    }
}

/// The event; if it is a submission, without its reply.
#[tactic(auto, using(crate::proofs::Placed::without))]
fn without_answer(event: EventAt) -> EventAt
    ensures { (rs : List Record) → event_in rs result ≡ unanswered (event_in rs event) }
{
    match event {
        EventAt::Answered { submission, .. } | EventAt::Unanswered { submission } => {
            EventAt::Unanswered { submission }
        }
        EventAt::Due { request } => EventAt::Due { request },
        EventAt::Free => EventAt::Free,
    }
}

/// The answer to the request at the place, which 32 bits have to hold.
fn due(request: usize) -> Result<EventAt, AllocError>
    ensures { IfOk result (λ e. (rs : List Record) → event_in rs e ≡ events.Due request) }
{
    match u32::try_from(request) {
        Ok(request) => Ok(EventAt::Due { request }),
        Err(_) => Err(AllocError),
    }
}

/// The event of a part of a log that has these events.
fn placed(events: &[EventAt], event: PartEvent) -> Result<EventAt, AllocError>
    ensures { IfOk result (λ e. (rs : List Record) → event_in rs e ≡ part_event (map (event_in rs) events.now) event) }
{
    match event {
        PartEvent::Whole(at) => match events.get(at) {
            Some(event) => Ok(*event),
            None => Ok(EventAt::Free),
        },
        PartEvent::Unanswered(at) => match events.get(at) {
            Some(event) => Ok(without_answer(*event)),
            None => Ok(EventAt::Free),
        },
        PartEvent::Due { request } => due(request),
        PartEvent::Free => Ok(EventAt::Free),
    }
}

/// The events of a part.
fn all_placed(
    alloc: Global,
    events: &[EventAt],
    parts: &[PartEvent],
) -> Result<Vec<EventAt>, AllocError>
    ensures { IfOk result (λ v. (rs : List Record) → map (event_in rs) v.items ≡ map (part_event (map (event_in rs) events.now)) parts.now) }
{
    let mut all = Vec::with_capacity(alloc, parts.len())?;
    for part in parts {
        let event = placed(events, *part)?;
        all.push(event)?;
    }
    Ok(all)
}

impl<'a> Log<'a> {
    /// The log of these events, whose records these are, over that memory.
    pub fn new(extent: Extent, records: Records<'a>, events: Vec<EventAt>) -> Log<'a>
        ensures { result ≡ record { extent = extent; events = map (event_in records.entry) events.items } }
    {
        Log {
            extent,
            records,
            events,
        }
    }

    /// Where its memory lies.
    pub fn extent(&self) -> Extent
        ensures { result ≡ self.now.extent }
    {
        self.extent
    }

    /// How many events there are.
    pub fn len(&self) -> usize
        ensures { result ≡ length self.now.events }
    {
        self.events.len()
    }

    /// The event at that place.
    #[inline(always)]
    pub fn event(&self, at: usize) -> Option<Event<'a>>
        ensures { option_map event_of result ≡ slice_get self.now.events at }
    {
        Some(lent(&self.records, *self.events.get(at)?))
    }

    /// The event at that place, without its operation and its reply. It reads less than [`Log::event`].
    #[inline(always)]
    pub fn header(&self, at: usize) -> Option<EventHeader>
        ensures { result ≡ option_map header_of (slice_get self.now.events at) }
    {
        Some(header_in(&self.records, *self.events.get(at)?))
    }

    /// A log of such events over that memory, with the same records.
    pub fn part(
        &self,
        alloc: Global,
        extent: Extent,
        events: &[PartEvent],
    ) -> Result<Log<'a>, AllocError>
        ensures { IfOk result (λ l. l ≡ record { extent = extent; events = map (part_event self.now.events) events.now }) }
    {
        let events = all_placed(alloc, &self.events, events)?;
        Ok(Log {
            extent,
            records: self.records.first(self.records.len()),
            events,
        })
    }
}
