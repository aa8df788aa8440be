//! The `n`s: each is the length of a history that grew.
ghost use Rattle.std.specs.Prelude.{◌≡◌, length, option_map};
ghost use Rattle.history_words.specs.Flaws.{first_at, clock_at};
ghost use Rattle.history_words.specs.Headers.{early_at, unclocked_in};
ghost use Rattle.history_words.specs.Lookup.{ArePoints};
ghost use Rattle.history_words.specs.Trace.{IsNumbered};

use crate::points::Points;
use history_words::{AsClaim, FlawKind, RecordHeader};

/// The record submits the request at that index, and has an `n` above it.
fn is_early(header: RecordHeader, point: Option<usize>) -> bool
    ensures { result ≡ early_at header point }
{
    match (header, point) {
        (RecordHeader::Sub { n, .. }, Some(p)) => (p as u64) < n,
        _ => false,
    }
}

/// The record's `n` is below `last`, above `most`, or above the index of the request that it submits.
fn is_unclocked(header: RecordHeader, last: u64, most: usize, point: Option<usize>) -> bool
    ensures { result ≡ unclocked_in header last most point }
{
    let n = header.moment();
    n < last || (most as u64) < n || is_early(header, point)
}

/// The place of the first record whose `n` is no length of the history as it grew.
pub(crate) fn first_unclocked<C: AsClaim>(points: &Points, claim: &C) -> Option<usize>
    requires numbered { IsNumbered (C.claim claim.now).records }
    requires points { ArePoints points.now (C.claim claim.now).records (C.claim claim.now).memory.entries }
    ensures { first_at (clock_at (C.claim claim.now).records (C.claim claim.now).memory.entries) (length (C.claim claim.now).records) ≡
        option_map (λ place. (FlawKind.Clock, place)) result }
{
    let mut last = 0u64;
    for a in 0..claim.records() {
        let Some(header) = claim.header(a) else {
            return None;
        };
        if is_unclocked(header, last, claim.entries(), points.get(a)) {
            return Some(a);
        }
        last = header.moment();
    }
    None
}
