//! Requests that can't have what they need, all of it or one byte.
ghost use Rattle.std.specs.Prelude.{◌≡◌, ◌≤◌, Some, false, IsTrue, slice_get, slice_index};
ghost use Rattle.log_runs.specs.EventView as events;
ghost use Rattle.log_runs.specs.Runs.{Dead};
ghost use Rattle.search_rules.specs.Rules.{AllOthers, NeverPuts};
ghost use Rattle.search_others.specs.Known.{AreOthers};
ghost use Rattle.search_places.specs.Places.{IsPlace};
ghost use Rattle.search_places.specs.Ready as ready;

use crate::known::Others;
use crate::others::{Asked, Question, others_spare};
use log_runs::{Event, Log};
use search_places::Place;
use search_places::laws::what_was_told_is_told;
use search_rules::laws::{lost_is_dead, what_lacks_a_byte_is_dead};
use search_rules::{Need, need_at};

/// A request whose answer is to come.
#[derive(Clone, Copy)]
struct Awaited {
    request: usize,
    /// The place of the answer.
    due: usize,
}

/// The byte isn't what the request needs, and nobody makes it so before that is due.
fn lacks(place: &Place, log: &Log, others: &Others, awaited: Awaited, need: Need) -> bool
    requires place { IsPlace log.now place.now }
    requires others { AreOthers log.now others.now }
    ensures gone { IsTrue result → slice_index place.now.state.bytes need.place ≡ need.value → ⊥ }
    ensures nobody { IsTrue result → AllOthers place.now.state awaited.request awaited.due (λ b. NeverPuts log.now b need.place need.value) }
{
    let bytes = place.bytes();
    if need.place >= bytes.len() || bytes[need.place] == need.value {
        return false;
    }
    let question = Question {
        of: awaited.request,
        before: awaited.due,
        asked: Asked::Byte(need),
    };
    others_spare(place, log, others, question)
}

/// The request lacks the byte at place `at` of its range.
fn lacks_byte(place: &Place, log: &Log, others: &Others, awaited: Awaited, at: usize) -> bool
    requires place { IsPlace log.now place.now }
    requires others { AreOthers log.now others.now }
    requires due { slice_get log.now.events awaited.due ≡ Some (events.Due awaited.request) }
    requires since { place.now.state.event ≤ awaited.due }
    requires left { slice_get place.now.state.acted awaited.request ≡ Some false }
    ensures { IsTrue result → Dead log.now place.now.state }
{
    what_lacks_a_byte_is_dead();
    match need_at(log, awaited.request, at) {
        Some(need) => lacks(place, log, others, awaited, need),
        None => false,
    }
}

/// How many bytes the request has.
fn size_of(log: &Log, q: usize) -> usize {
    match log.event(q) {
        Some(Event::Sub { op, .. }) => op.size() as usize,
        _ => 0,
    }
}

/// The first place of the request's range, of the four from `first` on, where it needs another byte than
/// there is.
fn first_other(place: &Place, log: &Log, q: usize, first: usize) -> Option<usize> {
    for at in first..first.saturating_add(4) {
        if let Some(need) = need_at(log, q, at)
            && place.bytes().get(need.place) != Some(&need.value)
        {
            return Some(at);
        }
    }
    None
}

/// The request lacks some byte: the first other one of each DW is looked at. With no more than a word it
/// needs that at once, so there it isn't asked for each byte.
fn lacks_some_byte(place: &Place, log: &Log, others: &Others, awaited: Awaited) -> bool
    requires place { IsPlace log.now place.now }
    requires others { AreOthers log.now others.now }
    requires due { slice_get log.now.events awaited.due ≡ Some (events.Due awaited.request) }
    requires since { place.now.state.event ≤ awaited.due }
    requires left { slice_get place.now.state.acted awaited.request ≡ Some false }
    ensures { IsTrue result → Dead log.now place.now.state }
{
    let size = size_of(log, awaited.request);
    if size <= 4 {
        return false;
    }
    for word in 0..size / 4 {
        if let Some(at) = first_other(place, log, awaited.request, word.saturating_mul(4))
            && lacks_byte(place, log, others, awaited, at)
        {
            return true;
        }
    }
    false
}

/// The request doesn't find what it needs, and nobody brings it before it is due.
#[inline(never)]
pub fn is_lost(place: &Place, log: &Log, others: &Others, q: usize) -> bool
    requires place { IsPlace log.now place.now }
    requires others { AreOthers log.now others.now }
    ensures { IsTrue result → Dead log.now place.now.state }
{
    lost_is_dead();
    what_was_told_is_told();
    let Some(a) = others.place_of(log, q) else {
        return false;
    };
    if a < place.event() {
        return false;
    }
    if !place.is_left(q) {
        return false;
    }
    if place.suits(log, q) {
        return false;
    }
    let question = Question {
        of: q,
        before: a,
        asked: Asked::Lost,
    };
    if others_spare(place, log, others, question) {
        return true;
    }
    let awaited = Awaited { request: q, due: a };
    lacks_some_byte(place, log, others, awaited)
}

/// The request whose answer is due is lost here.
pub fn due_is_lost(place: &Place, log: &Log, others: &Others) -> bool
    requires place { IsPlace log.now place.now }
    requires others { AreOthers log.now others.now }
    ensures { IsTrue result → Dead log.now place.now.state }
{
    match log.event(place.event()) {
        Some(Event::Due { request }) => is_lost(place, log, others, request),
        _ => false,
    }
}
