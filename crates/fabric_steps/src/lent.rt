//! Events and what is seen of them, with the operation or the answer lent.
ghost use Rattle.std.specs.Prelude.{◌≡◌};

use crate::event::{Event, EventOf, Seen, SeenOf};
use requester_core::{Answer, AnswerRef};
use tlp_core::{Op, OpRef};

/// What happens to a fabric, with its operation lent.
pub type EventRef<'a> = EventOf<OpRef<'a>>;

impl EventOf<Op> {
    /// The event, which lends its operation.
    #[inline(always)]
    pub fn lend(&self) -> EventRef<'_>
        ensures { result ≡ self.now }
    {
        match self {
            Event::Submit(port, op) => EventRef::Submit(*port, op.lend()),
            Event::Transmit(lane) => EventRef::Transmit(*lane),
            Event::Deliver(lane, fate) => EventRef::Deliver(*lane, *fate),
            Event::SendDllp(lane, kind) => EventRef::SendDllp(*lane, *kind),
            Event::DeliverDllp(lane, fate) => EventRef::DeliverDllp(*lane, *fate),
            Event::Timer(lane) => EventRef::Timer(*lane),
            Event::Retrained(lane) => EventRef::Retrained(*lane),
            Event::Forward(lane, place) => EventRef::Forward(*lane, *place),
            Event::Serve(place) => EventRef::Serve(*place),
            Event::Collect(port) => EventRef::Collect(*port),
        }
    }
}

impl<'a> EventOf<OpRef<'a>> {
    /// The event with an operation of its own. Takes no memory.
    #[inline(always)]
    pub fn to_owned(&self) -> Event
        ensures { result ≡ self.now }
    {
        match self {
            EventRef::Submit(port, op) => Event::Submit(*port, op.to_owned()),
            EventRef::Transmit(lane) => Event::Transmit(*lane),
            EventRef::Deliver(lane, fate) => Event::Deliver(*lane, *fate),
            EventRef::SendDllp(lane, kind) => Event::SendDllp(*lane, *kind),
            EventRef::DeliverDllp(lane, fate) => Event::DeliverDllp(*lane, *fate),
            EventRef::Timer(lane) => Event::Timer(*lane),
            EventRef::Retrained(lane) => Event::Retrained(*lane),
            EventRef::Forward(lane, place) => Event::Forward(*lane, *place),
            EventRef::Serve(place) => Event::Serve(*place),
            EventRef::Collect(port) => Event::Collect(*port),
        }
    }
}

/// What is seen of an event, with its answer lent.
pub type SeenRef<'a> = SeenOf<AnswerRef<'a>>;

impl SeenOf<Answer> {
    /// The same, which lends its answer.
    #[inline(always)]
    pub fn lend(&self) -> SeenRef<'_>
        ensures { result ≡ self.now }
    {
        match self {
            Seen::Submitted(number) => SeenRef::Submitted(*number),
            Seen::Sent(number) => SeenRef::Sent(*number),
            Seen::Delivered(arrival) => SeenRef::Delivered(*arrival),
            Seen::SentDllp(dllp) => SeenRef::SentDllp(*dllp),
            Seen::SeenDllp(what) => SeenRef::SeenDllp(*what),
            Seen::Back(places) => SeenRef::Back(*places),
            Seen::Retrained => SeenRef::Retrained,
            Seen::To(port) => SeenRef::To(*port),
            Seen::At(place) => SeenRef::At(*place),
            Seen::Collected(answer) => SeenRef::Collected(answer.lend()),
        }
    }
}

impl<'a> SeenOf<AnswerRef<'a>> {
    /// The same with an answer of its own. Takes no memory.
    #[inline(always)]
    pub fn to_owned(&self) -> Seen
        ensures { result ≡ self.now }
    {
        match self {
            SeenRef::Submitted(number) => Seen::Submitted(*number),
            SeenRef::Sent(number) => Seen::Sent(*number),
            SeenRef::Delivered(arrival) => Seen::Delivered(*arrival),
            SeenRef::SentDllp(dllp) => Seen::SentDllp(*dllp),
            SeenRef::SeenDllp(what) => Seen::SeenDllp(*what),
            SeenRef::Back(places) => Seen::Back(*places),
            SeenRef::Retrained => Seen::Retrained,
            SeenRef::To(port) => Seen::To(*port),
            SeenRef::At(place) => Seen::At(*place),
            SeenRef::Collected(answer) => Seen::Collected(answer.to_owned()),
        }
    }
}
