//! A history of the records before the last one, and the reply that is expected there.
ghost use Rattle.std.specs.Prelude.{◌≡◌, ◌≤◌, ◌-◌, [], None, IfOk, IfSome, length};
ghost use Rattle.log_runs.specs.Explainable.{prefix as first};
ghost use Rattle.search_history.specs.Expected.{IsExpected};
ghost use Rattle.search_scene.specs.Scenes.{IsHistoryOf};

use log_events::Prefix;
use search_history::{Before, Bounds, Budget, Sought, Unwatched, explained_before, search_watched};
use search_reasons::Case;
use seq_memory::Extent;
use std::alloc::{AllocError, Global};
use trace_store::{RecordStore, TraceStore};

/// What is known of the records before the last one.
#[derive(Drop)]
pub(crate) struct Known {
    /// The records, and a history of them that is empty if none is known.
    pub(crate) history: TraceStore,
    pub(crate) before: Option<Before>,
}

/// Nothing.
fn nothing(alloc: Global, extent: Extent) -> Known
    ensures history { result.history.memory.entries ≡ [] }
    ensures before { result.before ≡ None }
{
    Known {
        history: TraceStore::new(alloc, extent),
        before: None,
    }
}

/// The first `count` records, as a log of their own.
fn first_of(alloc: Global, seen: &RecordStore, count: usize) -> Result<RecordStore, AllocError>
    requires { count ≤ length seen.now.records }
    ensures { IfOk result (λ t. t ≡ first count seen.now) }
{
    let mut part = RecordStore::new(alloc, seen.extent());
    for place in 0..count {
        if let Some(item) = seen.get(place) {
            part.push(&item)?;
        }
    }
    Ok(part)
}

/// The first `count` records, and a history of them that is empty if none is found.
fn history_of(
    alloc: Global,
    seen: &RecordStore,
    count: usize,
    budget: &mut Budget,
) -> Result<TraceStore, AllocError>
    requires { count ≤ length seen.now.records }
    ensures { IfOk result (λ h. IsHistoryOf seen.now count h.memory.entries) }
{
    let mut first = TraceStore::of(alloc, first_of(alloc, seen, count)?);
    let bounds = Bounds {
        choices: budget.limit,
        work: budget.work,
    };
    let (sought, _, work) = search_watched(alloc, &mut first, bounds, &mut Unwatched)?;
    budget.work = work;
    match sought {
        Sought::Found => Ok(first),
        _ => Ok(TraceStore::new(alloc, seen.extent())),
    }
}

/// What is known of the records of a log before the last of the first ones, as far as it is found out within the budget.
fn known_before(alloc: Global, prefix: Prefix<'_>, budget: &mut Budget) -> Result<Known, AllocError>
    ensures history { IfOk result (λ k. IsHistoryOf prefix.entry.seen.now (prefix.entry.count - 1) k.history.memory.entries) }
    ensures expected { IfOk result (λ k. IfSome k.before (λ b. IfSome b.expected (IsExpected prefix.entry.seen.now b.count))) }
{
    let seen = prefix.seen;
    if prefix.count > seen.len() {
        return Ok(nothing(alloc, seen.extent()));
    }
    let before = explained_before(alloc, seen, prefix.count, budget)?;
    if before.is_none() {
        return Ok(nothing(alloc, seen.extent()));
    }
    let history = history_of(alloc, seen, prefix.count.saturating_sub(1), budget)?;
    Ok(Known { history, before })
}

/// What is known of the records before the last one, if they were searched as they were read.
pub(crate) fn known_of(
    alloc: Global,
    case: Case<'_>,
    budget: &mut Budget,
) -> Result<Known, AllocError>
    ensures history { IfOk result (λ k. IsHistoryOf case.entry.read.seen.now (case.entry.read.count - 1) k.history.memory.entries) }
    ensures expected { IfOk result (λ k. IfSome k.before (λ b. IfSome b.expected (IsExpected case.entry.read.seen.now b.count))) }
{
    match case.ends {
        None => known_before(alloc, case.read, budget),
        Some(_) => Ok(nothing(alloc, case.read.seen.extent())),
    }
}
