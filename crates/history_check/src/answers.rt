//! The answers: each has its point.
ghost use Rattle.std.specs.Prelude.{ℕ, ◌≡◌, ◌||◌, length, None, IfOk, IfSome, OnOk, IfErr, nat_le, nat_lt};
ghost use Rattle.history_words.specs.Flaws as flaw;
ghost use Rattle.history_check.specs.Points.{Fits};
ghost use Rattle.history_words.specs.Lookup.{AreFloors, AreTables, point_in, judged, acted_in};

use crate::acting::point;
use crate::index::{Index, row_of};
use crate::points::Points;
use history_words::{AsClaim, Flaw, FlawKind, RecordHeader};
use std::alloc::{AllocError, Global};

/// What is looked up of an answer.
#[derive(Clone, Copy)]
pub(crate) struct Tables<'a> {
    /// By the place of a submission, the index of its request in the history.
    pub(crate) points: &'a Points,
    /// By record, the greatest point of the answers that its requester had before.
    pub(crate) floors: &'a Points,
    /// By the place of a submission, where the first answer to it stands.
    pub(crate) firsts: &'a Points,
    /// By index of the history, whether the first answer to that request has the memory's reply.
    pub(crate) right: &'a [bool],
}

/// The greater of two points.
fn greater(a: Option<usize>, b: Option<usize>) -> Option<usize>
    ensures small { Fits a → Fits b → Fits result }
    ensures greater { (p : ℕ) → flaw.some_and result (nat_le p) ≡ (flaw.some_and a (nat_le p) || flaw.some_and b (nat_le p)) }
{
    match a {
        None => b,
        Some(x) => match b {
            None => a,
            Some(y) => { if x < y { b } else { a } }
        },
    }
}

/// For each record the greatest point of the answers that its requester had before.
pub(crate) fn floors<C: AsClaim>(
    alloc: Global,
    index: &Index,
    points: &Points,
    claim: &C,
) -> Result<Points, AllocError>
    ensures { IfOk result (λ floors. AreFloors floors (point_in index.now points.now) (C.claim claim.now).records) }
{
    let mut floors = Points::with_capacity(alloc, claim.records())?;
    let mut seen = Points::none(alloc, 256)?;
    for a in 0..claim.records() {
        match claim.header(a) {
            Some(RecordHeader::Sub { requester, .. }) => {
                floors.push(seen.get(row_of(requester)))?;
            }
            Some(
                RecordHeader::Ans {
                    requester,
                    number,
                    ..
                },
            ) => {
                let i = row_of(requester);
                let floor = seen.get(i);
                floors.push(floor)?;
                seen.set(i, greater(floor, point(index, points, requester, number)));
            }
            None => {}
        }
    }
    Ok(floors)
}

/// The record asks for an answer.
fn asks_at<C: AsClaim>(claim: &C, b: usize) -> bool
    ensures { result ≡ flaw.at_place flaw.asks (C.claim claim.now).records b }
{
    match claim.header(b) {
        Some(RecordHeader::Sub { is_posted, .. }) => !is_posted,
        _ => false,
    }
}

fn is_early<C: AsClaim>(claim: &C, b: usize, p: usize) -> bool
    ensures { result ≡ flaw.at_place (λ r. nat_lt p (flaw.moment r)) (C.claim claim.now).records b }
{
    match claim.header(b) {
        Some(header) => (p as u64) < header.moment(),
        None => false,
    }
}

fn is_right(right: &[bool], p: usize) -> bool
    ensures { result ≡ flaw.at_place (λ t. t) right.now p }
{
    match right.get(p) {
        Some(t) => *t,
        None => false,
    }
}

fn is_stale(floors: &Points, b: usize, p: usize) -> bool
    ensures { result ≡ flaw.at_place (λ o. flaw.some_and o (nat_le p)) floors.now b }
{
    match floors.get(b) {
        Some(q) => p <= q,
        None => false,
    }
}

/// An answer before place `a` answers the submission at place `b`.
fn is_answered(firsts: &Points, a: usize, b: usize) -> bool
    ensures { result ≡ flaw.at_place (λ o. flaw.some_and o (λ c. nat_lt c a)) firsts.now b }
{
    match firsts.get(b) {
        Some(c) => c < a,
        None => false,
    }
}

/// The first flaw of an answer with that `n`, whose submission stands at place `b` and acted at `p`.
fn judge_point<C: AsClaim>(
    claim: &C,
    tables: Tables<'_>,
    n: u64,
    b: usize,
    p: usize,
) -> Option<FlawKind>
    ensures flaw { result ≡ acted_in (C.claim claim.now).records tables.entry.floors.now tables.entry.right.now n b p }
    ensures known { IfSome result (λ kind. ¬ (kind ≡ FlawKind.Memory)) }
{
    if is_early(claim, b, p) {
        return Some(FlawKind::Early);
    }
    if n <= p as u64 {
        return Some(FlawKind::Late);
    }
    if !is_right(tables.right, p) {
        return Some(FlawKind::Reply);
    }
    if is_stale(tables.floors, b, p) {
        return Some(FlawKind::Stale);
    }
    None
}

/// The first flaw of the answer at place `a` with that `n`, whose submission stands at `place`.
fn judge<C: AsClaim>(
    claim: &C,
    tables: Tables<'_>,
    a: usize,
    n: u64,
    place: Option<usize>,
) -> Option<FlawKind>
    ensures flaw { result ≡
        judged (C.claim claim.now).records tables.entry.points.now tables.entry.floors.now tables.entry.firsts.now tables.entry.right.now a n place }
    ensures known { IfSome result (λ kind. ¬ (kind ≡ FlawKind.Memory)) }
{
    let Some(b) = place else {
        return Some(FlawKind::Unasked);
    };
    if b >= a || !asks_at(claim, b) {
        return Some(FlawKind::Unasked);
    }
    if is_answered(tables.firsts, a, b) {
        return Some(FlawKind::Again);
    }
    match tables.points.get(b) {
        None => Some(FlawKind::Absent),
        Some(p) => judge_point(claim, tables, n, b, p),
    }
}

/// Checks each answer.
pub(crate) fn answer<C: AsClaim>(index: &Index, claim: &C, tables: Tables<'_>) -> Result<(), Flaw>
    requires { AreTables (C.claim claim.now) index.now (C.claim claim.now).records tables.points.now tables.floors.now tables.firsts.now tables.right.now }
    ensures ok { OnOk result (flaw.first_at (flaw.answer_at (C.claim claim.now)) (length (C.claim claim.now).records) ≡ None) }
    ensures err { IfErr result (flaw.Tells (flaw.first_at (flaw.answer_at (C.claim claim.now)) (length (C.claim claim.now).records))) }
{
    for a in 0..claim.records() {
        match claim.header(a) {
            Some(
                RecordHeader::Ans {
                    requester,
                    number,
                    n,
                },
            ) => {
                let place = index.place(requester, number);
                if let Some(kind) = judge(claim, tables, a, n, place) {
                    return Err(Flaw { kind, place: a });
                }
            }
            Some(RecordHeader::Sub { .. }) => {}
            None => {}
        }
    }
    Ok(())
}
