//! The lines of events.
ghost use Rattle.std.specs.Prelude.{◌≡◌};
ghost use Rattle.std.specs.Result.{result_ok};
ghost use Rattle.operation_text.specs.Words.{words_behind};
ghost use Rattle.script_text.specs.Forms as forms;

use crate::fields::{count, fate, kind, lane, octet};
use fabric_core::EventRef;
use operation_text::{Expected, Misfit, alone, op_behind};
use tlp_core::{MAX_PAYLOAD, REQUESTERS};

/// A line behind the fabric's, by its first word.
pub(crate) const EVENT: Expected = Expected::Of(
    "an event",
    "submit, transmit, deliver, dllp, deliver-dllp, timer, retrained, forward, serve, collect, settle",
);

/// The requester of an event.
const REQUESTER: Expected = Expected::Between("a requester", 1, REQUESTERS as u64);

const POSITION: Expected = Expected::Of("a position", "0 or more");

#[inline(always)]
pub(crate) fn submit<'r>(
    rest: Option<&[u8]>,
    room: &'r mut [u8; MAX_PAYLOAD],
) -> Result<EventRef<'r>, Misfit>
    ensures { result_ok result ≡ forms.submit_of (words_behind rest.entry) }
{
    let (port, rest) = octet(rest, REQUESTER)?;
    let op = op_behind(rest, room)?;
    Ok(EventRef::Submit(port, op))
}

#[inline(always)]
pub(crate) fn transmit(rest: Option<&[u8]>) -> Result<EventRef<'static>, Misfit>
    ensures { result_ok result ≡ forms.transmit_of (words_behind rest.entry) }
{
    let (lane, rest) = lane(rest)?;
    alone(EventRef::Transmit(lane), rest)
}

#[inline(always)]
pub(crate) fn deliver(rest: Option<&[u8]>) -> Result<EventRef<'static>, Misfit>
    ensures { result_ok result ≡ forms.deliver_of (words_behind rest.entry) }
{
    let (lane, rest) = lane(rest)?;
    let (fate, rest) = fate(rest)?;
    alone(EventRef::Deliver(lane, fate), rest)
}

#[inline(always)]
pub(crate) fn dllp(rest: Option<&[u8]>) -> Result<EventRef<'static>, Misfit>
    ensures { result_ok result ≡ forms.dllp_of (words_behind rest.entry) }
{
    let (lane, rest) = lane(rest)?;
    let (kind, rest) = kind(rest)?;
    alone(EventRef::SendDllp(lane, kind), rest)
}

#[inline(always)]
pub(crate) fn deliver_dllp(rest: Option<&[u8]>) -> Result<EventRef<'static>, Misfit>
    ensures { result_ok result ≡ forms.deliver_dllp_of (words_behind rest.entry) }
{
    let (lane, rest) = lane(rest)?;
    let (fate, rest) = fate(rest)?;
    alone(EventRef::DeliverDllp(lane, fate), rest)
}

fn timer(rest: Option<&[u8]>) -> Result<EventRef<'static>, Misfit>
    ensures { result_ok result ≡ forms.timer_of (words_behind rest.entry) }
{
    let (lane, rest) = lane(rest)?;
    alone(EventRef::Timer(lane), rest)
}

fn retrained(rest: Option<&[u8]>) -> Result<EventRef<'static>, Misfit>
    ensures { result_ok result ≡ forms.retrained_of (words_behind rest.entry) }
{
    let (lane, rest) = lane(rest)?;
    alone(EventRef::Retrained(lane), rest)
}

#[inline(always)]
pub(crate) fn forward(rest: Option<&[u8]>) -> Result<EventRef<'static>, Misfit>
    ensures { result_ok result ≡ forms.forward_of (words_behind rest.entry) }
{
    let (lane, rest) = lane(rest)?;
    let (place, rest) = count(rest, POSITION)?;
    alone(EventRef::Forward(lane, place), rest)
}

#[inline(always)]
pub(crate) fn serve(rest: Option<&[u8]>) -> Result<EventRef<'static>, Misfit>
    ensures { result_ok result ≡ forms.serve_of (words_behind rest.entry) }
{
    let (place, rest) = count(rest, POSITION)?;
    alone(EventRef::Serve(place), rest)
}

#[inline(always)]
pub(crate) fn collect(rest: Option<&[u8]>) -> Result<EventRef<'static>, Misfit>
    ensures { result_ok result ≡ forms.collect_of (words_behind rest.entry) }
{
    let (port, rest) = octet(rest, REQUESTER)?;
    alone(EventRef::Collect(port), rest)
}

/// The event of that kind that the rest of a line spells.
pub(crate) fn event_by<'r>(
    kind: &[u8],
    rest: Option<&[u8]>,
    text: &[u8],
    room: &'r mut [u8; MAX_PAYLOAD],
) -> Result<EventRef<'r>, Misfit>
    ensures { result_ok result ≡ forms.event_by kind.now (words_behind rest.entry) }
{
    if kind == b"submit".as_slice() {
        return submit(rest, room);
    }
    if kind == b"transmit".as_slice() {
        return transmit(rest);
    }
    if kind == b"deliver".as_slice() {
        return deliver(rest);
    }
    if kind == b"dllp".as_slice() {
        return dllp(rest);
    }
    if kind == b"deliver-dllp".as_slice() {
        return deliver_dllp(rest);
    }
    if kind == b"timer".as_slice() {
        return timer(rest);
    }
    if kind == b"retrained".as_slice() {
        return retrained(rest);
    }
    if kind == b"forward".as_slice() {
        return forward(rest);
    }
    if kind == b"serve".as_slice() {
        return serve(rest);
    }
    if kind == b"collect".as_slice() {
        return collect(rest);
    }
    Err(EVENT.at(Some(text)))
}
