//! Counting what was taken and put.
ghost use Rattle.std.specs.Prelude.{ℕ, ◌≡◌, ◌+◌, ◌<◌, ◌^◌, IfOk, IfSome, IsTrue, length};
ghost use Rattle.log_runs.specs.Runs.{Dead, start};
ghost use Rattle.search_words.specs.Counts.{puts_of, takes_of};

use crate::laws::what_is_overdrawn_is_dead;
use crate::roles::{Role, first_of, role_of};
use crate::taken::{Taken, all_taken, answers_of};
use log_runs::{Event, Log};
use search_rules::Answered;
use std::alloc::{AllocError, Global};

/// How many requests are looked at in all, about.
const LOOKS: usize = 200_000;

/// How often something was taken, and may have been put.
#[derive(Clone, Copy)]
struct Tally {
    takes: usize,
    puts: usize,
}

impl Tally {
    /// With one request more.
    fn plus(self, role: Role) -> Tally
        requires takes { self.takes + 1 < 2 ^ 64 }
        requires puts { self.puts + 1 < 2 ^ 64 }
        ensures takes { result.takes ≡ self.takes + takes_of role }
        ensures puts { result.puts ≡ self.puts + puts_of role }
    {
        match role {
            Role::Takes => Tally {
                takes: self.takes + 1,
                puts: self.puts,
            },
            Role::Keeps => self,
            Role::MayPut => Tally {
                takes: self.takes,
                puts: self.puts + 1,
            },
        }
    }
}

/// The place of the answer to request `b`.
fn place_of(places: &[usize], b: usize) -> usize {
    places.get(b).copied().unwrap_or(usize::MAX)
}

/// What request `q` found was taken more often than it may have been put, and so no run leads to the end. The places are
/// those of answers, by request. No more than `most` requests took it.
fn is_overdrawn(log: &Log, places: &[usize], q: usize, most: usize) -> bool
    ensures { IsTrue result → Dead log.now (start log.now) }
{
    what_is_overdrawn_is_dead();
    let Some(Event::Sub { op, reply, .. }) = log.event(q) else {
        return false;
    };
    let Some(reply) = reply else {
        return false;
    };
    let found = Answered {
        request: q,
        op: &op,
        reply: &reply,
    };
    let mut tally = Tally {
        takes: 0,
        puts: first_of(log, found),
    };
    for b in 0..log.len() {
        if tally.puts >= most {
            return false;
        }
        tally = tally.plus(role_of(log, found, b, place_of(places, b)));
    }
    tally.puts < tally.takes
}

/// They were taken from one place, and are the same.
fn are_alike(one: &Taken, other: &Taken) -> bool {
    one.0 == other.0 && one.1 == other.1
}

/// No more of them are like that one, and come after it.
fn is_last(all: &[Taken], at: usize) -> bool
    requires { at < length all.now }
{
    match all.get(at.saturating_add(1)) {
        Some(next) => !are_alike(&all[at], next),
        None => true,
    }
}

/// The place of an answer up to which something was taken more often than it may have been put, if that is found: no
/// run leads to the end then.
pub fn first_overdrawn(alloc: Global, log: &Log) -> Result<Option<usize>, AllocError>
    ensures { IfOk result (λ found. IfSome found (λ place. Dead log.now (start log.now))) }
{
    let all = all_taken(alloc, log)?;
    let places = answers_of(alloc, log)?;
    let mut left = LOOKS / log.len().saturating_add(1);
    let mut count = 0usize;
    for at in 0..all.len() {
        count = count.saturating_add(1);
        if !is_last(&all, at) {
            continue;
        }
        if count > 1 && left > 0 {
            let (_, _, place, q) = all[at];
            if is_overdrawn(log, &places, q, count) {
                return Ok(Some(place));
            }
            left -= 1;
        }
        count = 0;
    }
    Ok(None)
}
