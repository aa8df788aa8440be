//! The history: each entry was submitted, stands once, and after its requester's earlier writes.
ghost use Rattle.std.specs.Prelude.{ℕ, ◌≡◌, ◌≤◌, ◌<◌, ◌&&◌, length, None, Some, false, true, IfOk, OnOk, IfErr, replicate, slice_get, option_and_then};
ghost use Rattle.seq_memory.specs.Entries.{Entry};
ghost use Rattle.history_words.specs.Flaws as flaw;
ghost use Rattle.history_words.specs.Lookup.{IsIndex, ArePoints, point_in, missing_in};
ghost use Rattle.history_words.specs.Headers.{found_in};
ghost use Rattle.history_check.specs.Points.{Fits};

use crate::NO_MEMORY;
use crate::index::{Index, row_of};
use crate::points::{NONE, Points};
use history_words::{AsClaim, Flaw, FlawKind, RecordHeader};
use std::alloc::{AllocError, Global};

fn submits_write<C: AsClaim>(claim: &C, place: usize) -> bool
    ensures { result ≡ flaw.at_place flaw.submits_write (C.claim claim.now).records place }
{
    match claim.header(place) {
        Some(RecordHeader::Sub { is_posted, .. }) => is_posted,
        _ => false,
    }
}

/// The requester and the number of the request at the index of the history, and the place of its
/// submission, if that is one of its operation.
#[tactic(auto, using(crate::proofs::Parts::row_read, crate::proofs::Parts::row_none))]
fn submitted<C: AsClaim>(index: &Index, claim: &C, p: usize) -> Option<(u8, u32, usize)>
    ensures found { result ≡ option_and_then (found_in index.now (C.claim claim.now).records) (slice_get (C.claim claim.now).memory.entries p) }
    ensures row { (e : Entry) → slice_get (C.claim claim.now).memory.entries p ≡ Some e → e.requester < 256 }
{
    let (requester, number) = claim.request(p)?;
    let place = index.place(requester, number)?;
    if claim.submits(place, p) {
        Some((requester, number, place))
    } else {
        None
    }
}

/// What a table has for the request, by the place of its submission.
pub(crate) fn point(index: &Index, points: &Points, requester: u8, number: u32) -> Option<usize>
    ensures value { result ≡ point_in index.now points.now requester number }
    ensures small { Fits result }
{
    points.get(index.place(requester, number)?)
}

/// The request is a posted write that is not among the entries so far.
fn missing<C: AsClaim>(
    index: &Index,
    claim: &C,
    points: &Points,
    requester: u8,
    number: u32,
) -> bool
    ensures { result ≡ missing_in index.now (C.claim claim.now).records points.now requester number }
{
    let Some(place) = index.place(requester, number) else {
        return false;
    };
    submits_write(claim, place) && point(index, points, requester, number).is_none()
}

/// The first missing write from `from` on, and else `to`.
fn first_missing<C: AsClaim>(
    index: &Index,
    claim: &C,
    points: &Points,
    requester: u8,
    from: u32,
    to: u32,
) -> u32
    ensures none { (j : ℕ) → from ≤ j → j < result → missing_in index.now (C.claim claim.now).records points.now requester j ≡ false }
    ensures stops { result < to → missing_in index.now (C.claim claim.now).records points.now requester result ≡ true }
{
    let mut j = from;
    while j < to && !missing(index, claim, points, requester, j) {
        j += 1;
    }
    j
}

fn zeros(alloc: Global) -> Result<Vec<u32>, AllocError>
    ensures { IfOk result (λ v. v.items ≡ replicate 256 0) }
{
    vec![in alloc; 0u32; 256]
}

/// The index in the history of each submission that acted.
pub(crate) fn act<C: AsClaim>(alloc: Global, index: &Index, claim: &C) -> Result<Points, Flaw>
    requires { IsIndex index.now (C.claim claim.now).records }
    ensures points { IfOk result (λ points. ArePoints points (C.claim claim.now).records (C.claim claim.now).memory.entries) }
    ensures ok { OnOk result (flaw.first_at (flaw.entry_at (C.claim claim.now).records (C.claim claim.now).memory.entries)
        (length (C.claim claim.now).memory.entries) ≡ None) }
    ensures err { IfErr result (flaw.Tells (flaw.first_at (flaw.entry_at (C.claim claim.now).records (C.claim claim.now).memory.entries)
        (length (C.claim claim.now).memory.entries))) }
{
    if claim.entries() > NONE as usize {
        return Err(NO_MEMORY);
    }
    let Ok(mut points) = Points::none(alloc, claim.records()) else {
        return Err(NO_MEMORY);
    };
    let Ok(mut settled) = zeros(alloc) else {
        return Err(NO_MEMORY);
    };
    for p in 0..claim.entries() {
        let Some((requester, number, place)) = submitted(index, claim, p) else {
            return Err(Flaw {
                kind: FlawKind::Stranger,
                place: p,
            });
        };
        if points.get(place).is_some() {
            return Err(Flaw {
                kind: FlawKind::Twice,
                place: p,
            });
        }
        let i = row_of(requester);
        let to = first_missing(index, claim, &points, requester, settled[i], number);
        if to < number {
            return Err(Flaw {
                kind: FlawKind::Order,
                place: p,
            });
        }
        settled[i] = to;
        points.set(place, Some(p));
    }
    Ok(points)
}
