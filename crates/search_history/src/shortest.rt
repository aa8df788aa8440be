//! The shortest prefix that has no history, as far as it is found.
ghost use Rattle.std.specs.Prelude.{◌≡◌, ◌≤◌, ◌<◌, ◌+◌, true, IfOk, IfSome, length};
ghost use Rattle.log_runs.specs.Explainable.{IsExplainable, prefix};
ghost use Rattle.search_history.specs.Expected.{IsExpected};
ghost use Rattle.search_history.specs.Prefixes.{IsUnexplained, IsExplainedBefore};

use crate::budgets::Budget;
use crate::expecting::expected_at;
use crate::judging::{Beginning, Clue, is_explainable, judged_on, run_of};
use history_words::RecordRef;
use log_events::form_of;
use search_run::Outcome;
use seq_memory::Reply;
use std::alloc::{AllocError, Global};
use tlp_core::OpRef;
use trace_store::RecordStore;

/// How many choices the search of a prefix looks at, at most.
const EACH: u64 = 20_000;

/// How many prefixes are searched, at most.
const SEARCHES: u32 = 20;

/// So many records are no long log: all prefixes that may be shorter are searched.
const LONG: usize = 10_000;

/// The prefix that is tried next, of those between the two: the first one that is to be tried; then, if it
/// has no history, the one that is one less; else those that follow it in growing steps, or the middle.
fn next(low: usize, high: usize, first: usize, turn: u32) -> usize
    requires { low + 1 < high }
    ensures low { low ≤ result }
    ensures high { result < high }
{
    if turn == 0 && low <= first && first < high {
        return first;
    }
    if turn == 0 || turn == 1 && high == first {
        return high - 1;
    }
    let half = (high - low) / 2;
    if low < first {
        return low + half;
    }
    low + half.min(64usize << turn.min(24))
}

/// Halves what lies before a prefix that has no history, by what is on the bytes of a range alone, if there is
/// one. Of a long log the first one that is tried is taken, if it has no history. A search that is given up
/// ends it.
fn halved(
    alloc: Global,
    records: Beginning<'_>,
    first: usize,
    range: Option<(u64, u64)>,
    budget: &mut Budget,
) -> Result<usize, AllocError>
    requires { IsUnexplained records.seen.now records.count }
    ensures { IfOk result (IsUnexplained records.entry.seen.now) }
{
    let mut high = records.count;
    let mut low = 0;
    for turn in 0..SEARCHES {
        if high - low <= 1 {
            return Ok(high);
        }
        let middle = next(low, high, first, turn);
        let outcome = judged_on(alloc, records.first(middle), range, budget)?;
        match outcome {
            Outcome::Dead if turn == 0 && middle > LONG => return Ok(middle),
            Outcome::Dead => high = middle,
            Outcome::Run(_) => low = middle,
            Outcome::Limit(_) => return Ok(high),
        }
    }
    Ok(high)
}

/// Where more AtomicOps are open at the end of a prefix, they have too many orders for a search.
const OPEN: usize = 256;

/// Request `b` is an AtomicOp whose answer stands behind the first `count` records.
fn is_open(records: Beginning<'_>, count: usize, b: usize) -> bool {
    match (records.seen.get(b), records.partners.of(b)) {
        (Some(RecordRef::Sub { op, .. }), Some(answer)) => {
            !matches!(op, OpRef::Read { .. }) && answer >= count
        }
        _ => false,
    }
}

/// Looks for a shorter prefix without a history, first by the cells on which there is none. Each search looks at no more than
/// `limit` choices.
pub(crate) fn shortened(
    alloc: Global,
    records: Beginning<'_>,
    clue: Clue,
    limit: u64,
) -> Result<usize, AllocError>
    requires { IsUnexplained records.seen.now records.count }
    ensures { IfOk result (IsUnexplained records.entry.seen.now) }
{
    let first = clue.reach.saturating_add(1).min(records.count);
    if clue.range.is_none() && (0..first).filter(|b| is_open(records, first, *b)).count() > OPEN {
        return Ok(records.count);
    }
    let mut budget = Budget::for_prefixes(limit.min(EACH));
    let near = halved(alloc, records, first, clue.range, &mut budget)?;
    if clue.range.is_none() || near > LONG {
        return Ok(near);
    }
    halved(
        alloc,
        records.first(near),
        near.saturating_sub(1),
        None,
        &mut budget,
    )
}

/// A history explains the first `count` records; false where it isn't found, with a half of the budget.
pub fn is_explained(
    alloc: Global,
    seen: &RecordStore,
    count: usize,
    budget: &mut Budget,
) -> Result<bool, AllocError>
    requires { count ≤ length seen.now.records }
    ensures { IfOk result (λ yes. yes ≡ true → IsExplainable (prefix count seen.now)) }
{
    let form = form_of(alloc, &seen.records().first(count))?;
    if form.flaw.is_some() {
        return Ok(false);
    }
    let records = Beginning {
        seen,
        partners: &form.partners,
        count,
    };
    let mut own = budget.half(EACH);
    let is_so = is_explainable(alloc, records, &mut own)?;
    budget.end_half(own);
    Ok(is_so)
}

/// What is known of the records but for the last one.
#[derive(Drop)]
pub struct Before {
    /// How many of them a history explains: all.
    pub count: usize,
    /// With this reply in place of the last record's, a history explains the last one with them.
    pub expected: Option<Reply>,
}

/// How many of the first records a history explains, if `prefix` records have none and that is found: as many
/// but one. And if that is found, too, a reply with which in place of the last one a history explains all. It takes a half of
/// the budget.
pub fn explained_before(
    alloc: Global,
    seen: &RecordStore,
    prefix: usize,
    budget: &mut Budget,
) -> Result<Option<Before>, AllocError>
    requires { prefix ≤ length seen.now.records }
    ensures explained { IfOk result (λ o. IfSome o (λ b. IsExplainedBefore seen.now prefix b.count)) }
    ensures next { IfOk result (λ o. IfSome o (λ b. b.count + 1 ≡ prefix)) }
    ensures expected { IfOk result (λ o. IfSome o (λ b. IfSome b.expected (IsExpected seen.now b.count))) }
{
    let Some(count) = prefix.checked_sub(1) else {
        return Ok(None);
    };
    let form = form_of(alloc, &seen.records().first(count))?;
    if form.flaw.is_some() {
        return Ok(None);
    }
    let records = Beginning {
        seen,
        partners: &form.partners,
        count,
    };
    let mut own = budget.half(EACH);
    let run = run_of(alloc, records, &mut own)?;
    let Some(steps) = run else {
        budget.end_half(own);
        return Ok(None);
    };
    let expected = expected_at(alloc, seen, count, &steps, &mut own)?;
    budget.end_half(own);
    Ok(Some(Before { count, expected }))
}
