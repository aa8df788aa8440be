//! Requests that are alike: of those that may act the one that is due first is tried alone.
ghost use Rattle.std.specs.Prelude.{◌≡◌, ◌<◌, IsTrue, IfSome, Some, slice_get, slice_index};
ghost use Rattle.log_runs.specs.EventView as events;
ghost use Rattle.search_places.specs.Places.{IsPlace};
ghost use Rattle.search_others.specs.Known.{AreOthers};
ghost use Rattle.search_rules.specs.Alike.{IsDueBefore};
ghost use Rattle.search_choices.specs.Turns.{turn};
ghost use Rattle.search_choices.specs.Offered.{IsPreceded};

use crate::links::Links;
use log_runs::Log;
use search_others::Others;
use search_places::Place;
use search_rules::are_alike;

/// How many requests are looked at before one.
const MOST: usize = 16;

/// Of requests that are alike the one with the least acts first.
fn turn_of(log: &Log, others: &Others, b: usize) -> Option<usize>
    ensures { IfSome result (λ n. n ≡ turn log.now others.now.due b) }
{
    let due = others.due_from(b);
    if due < log.len() {
        return Some(due);
    }
    log.len().checked_add(b)
}

/// The turn of request `p` is before that of request `b`.
fn is_sooner(log: &Log, others: &Others, p: usize, b: usize) -> bool
    ensures { IsTrue result → turn log.now others.now.due p < turn log.now others.now.due b }
{
    let Some(first) = turn_of(log, others, p) else {
        return false;
    };
    let Some(second) = turn_of(log, others, b) else {
        return false;
    };
    first < second
}

/// Where request `b` is due, request `p` is due before, and not before the next event.
fn is_due_before(place: &Place, log: &Log, others: &Others, p: usize, b: usize) -> bool
    requires { AreOthers log.now others.now }
    ensures { IsTrue result → IsDueBefore log.now place.now.state.event p b }
{
    let due = others.due_from(b);
    if due >= log.len() {
        return true;
    }
    match others.place_of(log, p) {
        Some(a) => place.event() <= a && a < due,
        None => false,
    }
}

/// Request `p` precedes request `b`.
fn precedes(place: &Place, log: &Log, others: &Others, p: usize, b: usize) -> bool
    requires place { IsPlace log.now place.now }
    requires others { AreOthers log.now others.now }
    ensures { IsTrue result → IsPreceded log.now place.now.state others.now.due b }
{
    if !is_sooner(log, others, p, b) {
        return false;
    }
    if !are_alike(log, p, b) {
        return false;
    }
    if !is_due_before(place, log, others, p, b) {
        return false;
    }
    place.may_act(log, p)
}

/// A request that is alike precedes request `b`, of those that are linked to it.
pub(crate) fn is_preceded(
    place: &Place,
    log: &Log,
    others: &Others,
    links: &Links,
    b: usize,
) -> bool
    requires place { IsPlace log.now place.now }
    requires others { AreOthers log.now others.now }
    ensures { IsTrue result → IsPreceded log.now place.now.state others.now.due b }
{
    let mut at = b;
    for _turn in 0..MOST {
        let Some(p) = links.before(at) else {
            return false;
        };
        place.note_looks(1);
        if p < place.event() && place.is_left(p) && precedes(place, log, others, p, b) {
            return true;
        }
        at = p;
    }
    false
}
