//! Which request is tried first. Nothing rests on what these functions say.
ghost use Rattle.search_places.specs.Places.{IsPlace};

use log_runs::{Event, Log};
use search_places::Place;

/// When a request acts in a run through a part of the log.
#[derive(Clone, Copy)]
pub struct Turn {
    /// A number of the part; [`NO_PART`] if it isn't in one.
    pub part: u32,
    /// How many act before it in the run through the part.
    pub before: u32,
    /// Those are submitted before this place of the log; `u32::MAX` if that has more bits.
    pub since: u32,
}

/// The request is in no part.
pub const NO_PART: u32 = u32::MAX;

/// How many requests a guess goes over.
const MOST: usize = 64;

/// When request `q` acts in the run through the part, if it is in it.
fn before_in(turns: &[Turn], part: u32, q: usize) -> Option<u32> {
    match turns.get(q) {
        Some(turn) => if turn.part == part {
            Some(turn.before)
        } else {
            None
        },
        None => None,
    }
}

/// Of the pending requests the first that acts in the run through the part, if one does.
fn first_in(place: &Place, turns: &[Turn], part: u32) -> Option<usize> {
    let mut least = u32::MAX;
    let mut first = None;
    for q in place.pending() {
        if let Some(at) = before_in(turns, part, *q)
            && at < least
        {
            least = at;
            first = Some(*q);
        }
    }
    first
}

/// The request that acts next in the run of the request's part, if that one is submitted; the request
/// itself, if it is in no part.
fn next_with(place: &Place, turns: &[Turn], q: usize) -> Option<usize> {
    let Some(turn) = turns.get(q) else {
        return Some(q);
    };
    if turn.part == NO_PART {
        return Some(q);
    }
    let first = first_in(place, turns, turn.part)?;
    match turns.get(first) {
        Some(turn) => if turn.since as usize <= place.event() {
            Some(first)
        } else {
            None
        },
        None => None,
    }
}

/// The event submits a posted write of the requester.
fn is_write(log: &Log, requester: u8, b: usize) -> bool {
    match log.event(b) {
        Some(
            Event::Sub {
                requester: who,
                op,
                ..
            },
        ) => who == requester && op.is_posted(),
        _ => false,
    }
}

/// The first posted write that is pending of the requester of request `q`, before it.
pub(crate) fn write_before(place: &Place, log: &Log, q: usize) -> Option<usize> {
    let Some(Event::Sub { requester, .. }) = log.event(q) else {
        return None;
    };
    for b in place.posts() {
        if *b >= q {
            return None;
        }
        if is_write(log, requester, *b) {
            return Some(*b);
        }
    }
    None
}

/// The request that acts next in the run through that one's part of the log; or if it waits for a posted
/// write, that one, or the next in that one's part; and so on. None, too, where they wait for each other.
fn next_from(place: &Place, log: &Log, turns: &[Turn], target: usize) -> Option<usize>
    requires { IsPlace log.now place.now }
{
    let mut q = target;
    let mut seen = target;
    for turn in 0..MOST {
        q = next_with(place, turns, q)?;
        if place.may_act(log, q) {
            return Some(q);
        }
        q = write_before(place, log, q)?;
        if q == seen {
            return None;
        }
        if turn & (turn + 1) == 0 {
            seen = q;
        }
    }
    None
}

/// The request that is tried first: the one that acts next in the run through the target's part, or what
/// that waits for; or else the target.
pub(crate) fn guess(
    place: &Place,
    log: &Log,
    turns: &[Turn],
    target: Option<usize>,
) -> Option<usize>
    requires { IsPlace log.now place.now }
{
    let target = target?;
    match next_from(place, log, turns, target) {
        Some(q) => Some(q),
        None => Some(target),
    }
}
