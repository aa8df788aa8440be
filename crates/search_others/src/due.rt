//! Till when requests must act.
ghost use Rattle.std.specs.Prelude.{ℕ, ◌≡◌, ◌≤◌, Some, IfSome, IfOk, slice_get, slice_index};
ghost use Rattle.log_runs.specs.EventView as events;
ghost use Rattle.search_others.specs.Known.{AreEarliest, AreLower};

use log_runs::{EventHeader, Log};
use std::alloc::{AllocError, Global};

/// No place.
const NOWHERE: u32 = u32::MAX;

fn nowhere(alloc: Global, count: usize) -> Result<Vec<u32>, AllocError> {
    vec![in alloc; NOWHERE; count]
}

/// The place in 32 bits; one before it, if it has more.
fn narrow(at: usize) -> u32
    ensures { result ≤ at }
{
    u32::try_from(at).unwrap_or(u32::MAX)
}

/// The request's entry is no more than that.
#[tactic(auto, using(crate::proofs::DueLemmas::beyond, crate::proofs::DueLemmas::lower_set, crate::proofs::DueLemmas::cut_set))]
fn cut(due: &mut [u32], b: usize, most: u32)
    ensures lower { AreLower due.old due.new }
    ensures cut { slice_index due.new b ≤ most }
{
    if b >= due.len() {
        return;
    }
    if due[b] <= most {
        return;
    }
    due[b] = most;
}

/// The entry of the request that is answered at that place, if one is, is no more than that.
fn cut_at(log: &Log, due: &mut [u32], at: usize)
    ensures lower { AreLower due.old due.new }
    ensures cut { (b : ℕ) → slice_get log.now.events at ≡ Some (events.Due b) → slice_index due.new b ≤ at }
{
    match log.header(at) {
        Some(EventHeader::Due { request }) => cut(due, request, narrow(at)),
        Some(EventHeader::Sub { .. }) => {}
        Some(EventHeader::Free) => {}
        None => {}
    }
}

/// The place of each request's first answer, by the place of its submission.
#[tactic(auto, using(crate::proofs::DueLemmas::earliest_next, crate::proofs::DueLemmas::earliest_end))]
fn answers(alloc: Global, log: &Log) -> Result<Vec<u32>, AllocError>
    ensures { IfOk result (λ v. AreEarliest log.now v.items) }
{
    let mut due = nowhere(alloc, log.len())?;
    for at in 0..log.len() {
        cut_at(log, due.as_mut_slice(), at);
    }
    Ok(due)
}

/// Of the requester's later answered requests the least place where one is due, and that of a request.
fn lower(log: &Log, due: &mut [u32], least: &mut [u32], b: usize)
    ensures { AreLower due.old due.new }
{
    let Some(
        EventHeader::Sub {
            requester,
            is_posted,
            ..
        },
    ) = log.header(b)
    else {
        return;
    };
    let who = usize::from(requester);
    if who >= least.len() || b >= due.len() {
        return;
    }
    if is_posted {
        cut(due, b, least[who]);
    } else if due[b] < least[who] {
        least[who] = due[b];
    }
}

/// The place of each request's answer, by the place of its submission; of a posted write, of the
/// first answer to a later request of its requester.
#[tactic(auto, using(crate::proofs::DueLemmas::earliest_lower))]
pub(crate) fn places(alloc: Global, log: &Log) -> Result<Vec<u32>, AllocError>
    ensures { IfOk result (λ v. AreEarliest log.now v.items) }
{
    let mut due = answers(alloc, log)?;
    let mut least = nowhere(alloc, 256)?;
    let count = due.len();
    for i in 0..count {
        lower(log, due.as_mut_slice(), least.as_mut_slice(), count - 1 - i);
    }
    Ok(due)
}

/// The place before which the request must act, and the request whose answer stands there.
pub(crate) fn held_until(due: &[u32], log: &Log, q: usize) -> Option<(usize, usize)>
    ensures { IfSome result (λ d. slice_get log.now.events d.0 ≡ Some (events.Due d.1)) }
{
    let a = *due.get(q)? as usize;
    match log.header(a) {
        Some(EventHeader::Due { request }) => Some((a, request)),
        _ => None,
    }
}

/// The place of the request's answer.
pub(crate) fn place_of(due: &[u32], log: &Log, q: usize) -> Option<usize>
    ensures { IfSome result (λ a. slice_get log.now.events a ≡ Some (events.Due q)) }
{
    let Some((a, r)) = held_until(due, log, q) else {
        return None;
    };
    if r != q {
        return None;
    }
    Some(a)
}
