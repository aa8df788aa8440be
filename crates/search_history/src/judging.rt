//! Whether a run leads through the first records.
ghost use Rattle.std.specs.Prelude.{◌≡◌, ◌<◌, ◌≤◌, true, IfOk, IfSome, length, take};
ghost use Rattle.log_events.specs.Joined.{ArePartners};
ghost use Rattle.log_runs.specs.Runs.{Dead, start};
ghost use Rattle.log_runs.specs.Explainable.{IsExplainable, prefix};
ghost use Rattle.log_runs.specs.Tasks.{AreAllEvents, IsWellFormed};
ghost use Rattle.search_history.specs.Prepared.{IsLogOf};
ghost use Rattle.search_history.specs.Runs.{IsOutcomeOf};
ghost use Rattle.search_run.specs.Outcomes.{IsRight};
ghost use Rattle.search_run.specs.Watched.{Is, Saw};
ghost use Rattle.search_history.specs.Looks.{IsPartOf};

use crate::alone::{Field, explored_on, parts_of};
use crate::budgets::Budget;
use log_cells::Cells;
use log_events::{Partners, form_of, log_of};
use log_runs::laws::{
    a_run_is_a_history, explainable_has_a_run, explainable_is_well_formed, prefix_is_explainable,
};
use log_runs::{Log, Step};
use search_choices::Turn;
use search_rules::first_unanswerable;
use search_run::{Bound, Bounds, Exploration, Outcome, Unwatched, Watch, Way, explore_watched};
use search_words::first_overdrawn;
use std::alloc::{AllocError, Global};
use trace_store::RecordStore;

/// The first `count` records of a log.
#[derive(Clone, Copy)]
pub(crate) struct Beginning<'a> {
    pub(crate) seen: &'a RecordStore,
    /// Which of them may belong together.
    pub(crate) partners: &'a Partners,
    pub(crate) count: usize,
}

impl<'a> Beginning<'a> {
    /// The first so many of the log.
    pub(crate) fn first(self, count: usize) -> Beginning<'a>
        ensures seen { result.seen.now ≡ self.entry.seen.now }
        ensures count { result.count ≡ count }
    {
        Beginning {
            seen: self.seen,
            partners: self.partners,
            count,
        }
    }
}

/// The first `count` records of a log, whichever of them belong together.
#[derive(Clone, Copy)]
pub(crate) struct First<'a> {
    pub(crate) seen: &'a RecordStore,
    pub(crate) count: usize,
}

impl<'a> First<'a> {
    /// The records as a search sees them. `partners` says which of them may belong together.
    pub(crate) fn log(self, alloc: Global, partners: &Partners) -> Result<Log<'a>, AllocError>
        ensures log { IfOk result (IsLogOf self.entry.seen.now self.entry.count) }
        ensures all { IfOk result (λ l. ArePartners partners.now (take self.entry.count self.entry.seen.now.records) →
            AreAllEvents (take self.entry.count self.entry.seen.now.records) l.events) }
    {
        let records = self.seen.records().first(self.count);
        log_of(alloc, self.seen.extent(), records, partners)
    }
}

/// What was found out of records.
#[derive(Drop)]
pub(crate) struct Judgment {
    pub(crate) outcome: Outcome,
    /// How many choices were looked at.
    pub(crate) states: u64,
    /// How much work is left.
    pub(crate) work: u64,
    /// By what it was seen that there is no run, if there is none.
    pub(crate) clue: Clue,
}

/// By what it was seen that there is no run.
#[derive(Clone, Copy)]
pub(crate) struct Clue {
    /// The addresses where cells begin and end on which there is none, if that was found out.
    pub(crate) range: Option<(u64, u64)>,
    /// No answer behind this place of the log was needed.
    pub(crate) reach: usize,
}

/// There is no run, as was seen by the answer at that place, or on cells, at so many choices; so much work is left.
fn dead(states: u64, work: u64, range: Option<(u64, u64)>, reach: usize) -> Judgment
    ensures outcome { result.outcome ≡ Outcome.Dead }
    ensures states { result.states ≡ states }
{
    Judgment {
        outcome: Outcome::Dead,
        states,
        work,
        clue: Clue { range, reach },
    }
}

/// How much work there is for the whole log, if so much of the half for its parts is left.
fn work_for_all(all: u64, half: u64, left: u64) -> u64
    requires { half ≤ all }
    ensures { all ≡ 18446744073709551615 → result ≡ all }
{
    if all == u64::MAX {
        return all;
    }
    (all - half).saturating_add(left)
}

/// Looks for a run through the log, first where requests that are idle are tried, too, with a quarter of the bounds: a run is
/// found soon there, if many lead to the end. These turns are a guide.
fn explored_whole<W: Watch>(
    alloc: Global,
    log: &Log<'_>,
    turns: &[Turn],
    bounds: Bounds,
    watch: &mut W,
) -> Result<Exploration, AllocError>
    ensures right { IfOk result (λ r. IsRight log.now r.outcome) }
    ensures states { IfOk result (λ r. r.states ≤ bounds.choices) }
    ensures limit { IfOk result (λ r. r.outcome ≡ Outcome.Limit Bound.Choices → r.states ≡ bounds.choices) }
    ensures work { IfOk result (λ r. r.outcome ≡ Outcome.Limit Bound.Work → bounds.work < 18446744073709551615) }
    ensures less { IfOk result (λ r. r.outcome ≡ Outcome.Limit Bound.Work → r.states < bounds.choices) }
    ensures spent { IfOk result (λ r. r.outcome ≡ Outcome.Limit Bound.Work → r.work ≡ 0) }
    ensures saw { IfOk result (λ r. Saw W.sees (Is log.now) r.states watch.old watch.new) }
{
    let few = Bounds {
        choices: bounds.choices / 4,
        work: bounds.work / 4,
    };
    let first = explore_watched(alloc, log, Way::Open(turns), few, watch)?;
    let work = work_for_all(bounds.work, few.work, first.work);
    if !matches!(first.outcome, Outcome::Limit(_)) {
        return Ok(Exploration { work, ..first });
    }
    let rest = Bounds {
        choices: bounds.choices - first.states,
        work,
    };
    let found = explore_watched(alloc, log, Way::Whole(turns), rest, watch)?;
    Ok(Exploration {
        states: first.states + found.states,
        ..found
    })
}

/// Looks for a run through the log, first through its part on each cell of the memory, with a tenth of
/// the choices and half of the work. The runs through its parts are a guide to the whole.
fn explored_parts<W: Watch>(
    alloc: Global,
    log: &Log<'_>,
    bounds: Bounds,
    watch: &mut W,
) -> Result<Judgment, AllocError>
    ensures right { IfOk result (λ r. IsRight log.now r.outcome) }
    ensures states { IfOk result (λ r. r.states ≤ bounds.choices) }
    ensures limit { IfOk result (λ r. r.outcome ≡ Outcome.Limit Bound.Choices → r.states ≡ bounds.choices) }
    ensures work { IfOk result (λ r. r.outcome ≡ Outcome.Limit Bound.Work → bounds.work < 18446744073709551615) }
    ensures less { IfOk result (λ r. r.outcome ≡ Outcome.Limit Bound.Work → r.states < bounds.choices) }
    ensures spent { IfOk result (λ r. r.outcome ≡ Outcome.Limit Bound.Work → r.work ≡ 0) }
    ensures saw { IfOk result (λ r. Saw W.sees (IsPartOf log.now) r.states watch.old watch.new) }
{
    let few = Bounds {
        choices: bounds.choices / 10,
        work: bounds.work / 2,
    };
    let parts = parts_of(alloc, log, few, watch)?;
    let work = work_for_all(bounds.work, few.work, parts.work);
    if let Some(by) = parts.dead {
        return Ok(dead(parts.states, work, Some(by.range), by.reach));
    }
    let rest = Bounds {
        choices: bounds.choices - parts.states,
        work,
    };
    let found = explored_whole(alloc, log, &parts.turns, rest, watch)?;
    let clue = Clue {
        range: None,
        reach: found.reach,
    };
    Ok(Judgment {
        outcome: found.outcome,
        states: parts.states + found.states,
        work: found.work,
        clue,
    })
}

/// The place of an answer by which it is seen at once that there is no run: no memory gives it, or up to it something was
/// taken more often than put.
fn refuted_at(alloc: Global, log: &Log<'_>) -> Result<Option<usize>, AllocError>
    ensures { IfOk result (λ found. IfSome found (λ at. Dead log.now (start log.now))) }
{
    if let Some(at) = first_unanswerable(log) {
        return Ok(Some(at));
    }
    first_overdrawn(alloc, log)
}

/// Looks for a run through the log, within the bounds. An answer by which it is seen that there is none ends it at once.
fn explored<W: Watch>(
    alloc: Global,
    log: &Log<'_>,
    bounds: Bounds,
    watch: &mut W,
) -> Result<Judgment, AllocError>
    ensures right { IfOk result (λ r. IsRight log.now r.outcome) }
    ensures states { IfOk result (λ r. r.states ≤ bounds.choices) }
    ensures limit { IfOk result (λ r. r.outcome ≡ Outcome.Limit Bound.Choices → r.states ≡ bounds.choices) }
    ensures work { IfOk result (λ r. r.outcome ≡ Outcome.Limit Bound.Work → bounds.work < 18446744073709551615) }
    ensures less { IfOk result (λ r. r.outcome ≡ Outcome.Limit Bound.Work → r.states < bounds.choices) }
    ensures spent { IfOk result (λ r. r.outcome ≡ Outcome.Limit Bound.Work → r.work ≡ 0) }
    ensures saw { IfOk result (λ r. Saw W.sees (IsPartOf log.now) r.states watch.old watch.new) }
{
    match refuted_at(alloc, log)? {
        Some(at) => Ok(dead(0, bounds.work, None, at)),
        None => explored_parts(alloc, log, bounds, watch),
    }
}

/// Looks for a run through the log of the records, within the bounds. The log is free again.
pub(crate) fn judged<W: Watch>(
    alloc: Global,
    records: First<'_>,
    log: Log<'_>,
    bounds: Bounds,
    watch: &mut W,
) -> Result<Judgment, AllocError>
    requires { IsLogOf records.seen.now records.count log }
    ensures run { IfOk result (λ r. AreAllEvents (take records.entry.count records.entry.seen.now.records) log.entry.events →
        IsWellFormed (take records.entry.count records.entry.seen.now.records) →
        IsOutcomeOf (prefix records.entry.count records.entry.seen.now) r.outcome) }
    ensures none { IfOk result (λ r. r.outcome ≡ Outcome.Dead → IsExplainable (prefix records.entry.count records.entry.seen.now) → ⊥) }
    ensures states { IfOk result (λ r. r.states ≤ bounds.choices) }
    ensures limit { IfOk result (λ r. r.outcome ≡ Outcome.Limit Bound.Choices → r.states ≡ bounds.choices) }
    ensures work { IfOk result (λ r. r.outcome ≡ Outcome.Limit Bound.Work → bounds.work < 18446744073709551615) }
    ensures less { IfOk result (λ r. r.outcome ≡ Outcome.Limit Bound.Work → r.states < bounds.choices) }
    ensures spent { IfOk result (λ r. r.outcome ≡ Outcome.Limit Bound.Work → r.work ≡ 0) }
    ensures saw { IfOk result (λ r. Saw W.sees (IsPartOf log.entry) r.states watch.old watch.new) }
{
    explainable_has_a_run();
    let found = explored(alloc, &log, bounds, watch)?;
    Ok(found)
}

/// [`judged`], by what is on the bytes of a range alone, if there is one.
fn explored_by(
    alloc: Global,
    log: &Log<'_>,
    range: Option<(u64, u64)>,
    budget: &mut Budget,
) -> Result<Outcome, AllocError>
    ensures { IfOk result (λ o. o ≡ Outcome.Dead → Dead log.now (start log.now)) }
{
    let Some(range) = range else {
        let found = explored(alloc, log, budget.bounds(), &mut Unwatched)?;
        budget.work = found.work;
        return Ok(found.outcome);
    };
    let cells = Cells::of(alloc, log)?;
    let field = Field { log, cells: &cells };
    let explored = explored_on(alloc, field, range, budget.bounds(), &mut Unwatched)?;
    budget.work = explored.found.work;
    Ok(explored.found.outcome)
}

/// Looks for a run through the records, on the bytes of a range alone, if there is one.
pub(crate) fn judged_on(
    alloc: Global,
    records: Beginning<'_>,
    range: Option<(u64, u64)>,
    budget: &mut Budget,
) -> Result<Outcome, AllocError>
    requires { records.count ≤ length records.seen.now.records }
    ensures { IfOk result (λ o. o ≡ Outcome.Dead → IsExplainable (prefix records.entry.count records.entry.seen.now) → ⊥) }
{
    explainable_has_a_run();
    if !budget.begin(records.count) {
        return Ok(Outcome::Limit(Bound::Work));
    }
    let first = First {
        seen: records.seen,
        count: records.count,
    };
    let log = first.log(alloc, records.partners)?;
    let found = explored_by(alloc, &log, range, budget)?;
    Ok(found)
}

/// What comes of a search for a run through the records. What is said to belong together does, and their form is right.
fn outcome_of(
    alloc: Global,
    records: Beginning<'_>,
    budget: &mut Budget,
) -> Result<Outcome, AllocError>
    requires joined { ArePartners records.partners.now (take records.count records.seen.now.records) }
    requires formed { IsWellFormed (take records.count records.seen.now.records) }
    ensures { IfOk result (IsOutcomeOf (prefix records.entry.count records.entry.seen.now)) }
{
    let first = First {
        seen: records.seen,
        count: records.count,
    };
    let log = first.log(alloc, records.partners)?;
    let judgment = judged(alloc, first, log, budget.bounds(), &mut Unwatched)?;
    budget.work = judgment.work;
    Ok(judgment.outcome)
}

/// A run through the records, if it is found: a history explains them. What is said to belong together does, and their form
/// is right.
pub(crate) fn run_of(
    alloc: Global,
    records: Beginning<'_>,
    budget: &mut Budget,
) -> Result<Option<Vec<Step>>, AllocError>
    requires within { records.count ≤ length records.seen.now.records }
    requires joined { ArePartners records.partners.now (take records.count records.seen.now.records) }
    requires formed { IsWellFormed (take records.count records.seen.now.records) }
    ensures { IfOk result (λ o. IfSome o (λ steps. IsExplainable (prefix records.entry.count records.entry.seen.now))) }
{
    a_run_is_a_history();
    if !budget.begin(records.count) {
        return Ok(None);
    }
    let outcome = outcome_of(alloc, records, budget)?;
    match outcome {
        Outcome::Run(steps) => Ok(Some(steps)),
        _ => Ok(None),
    }
}

/// A history explains the records; false where it isn't found. What is said to belong together does, and their form is
/// right.
pub(crate) fn is_explainable(
    alloc: Global,
    records: Beginning<'_>,
    budget: &mut Budget,
) -> Result<bool, AllocError>
    requires within { records.count ≤ length records.seen.now.records }
    requires joined { ArePartners records.partners.now (take records.count records.seen.now.records) }
    requires formed { IsWellFormed (take records.count records.seen.now.records) }
    ensures { IfOk result (λ yes. yes ≡ true → IsExplainable (prefix records.entry.count records.entry.seen.now)) }
{
    a_run_is_a_history();
    if !budget.begin(records.count) {
        return Ok(false);
    }
    let outcome = outcome_of(alloc, records, budget)?;
    Ok(matches!(outcome, Outcome::Run(_)))
}

/// No history explains the log, as far as it is found out within the budget, on the bytes of a range alone, if there is one.
pub fn is_unexplained(
    alloc: Global,
    seen: &RecordStore,
    range: Option<(u64, u64)>,
    budget: &mut Budget,
) -> Result<bool, AllocError>
    ensures { IfOk result (λ yes. yes ≡ true → IsExplainable seen.now → ⊥) }
{
    explainable_is_well_formed();
    prefix_is_explainable();
    let form = form_of(alloc, &seen.records())?;
    if form.flaw.is_some() {
        return Ok(true);
    }
    let records = Beginning {
        seen,
        partners: &form.partners,
        count: seen.len(),
    };
    let outcome = judged_on(alloc, records, range, budget)?;
    Ok(matches!(outcome, Outcome::Dead))
}
