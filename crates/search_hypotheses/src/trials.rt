//! Searches of logs that devices with a fault would have written.
ghost use Rattle.std.specs.Prelude.{◌≡◌, ◌≤◌, true, All, IfOk, IfSome, length, take};
ghost use Rattle.log_runs.specs.Explainable.{IsExplainable, prefix as first};
ghost use Rattle.log_pieces.specs.InPieces.{IsExplainableIn};
ghost use Rattle.log_faults.specs.WithFault.{with_fault};
ghost use Rattle.search_hypotheses.specs.Hypotheses.{IsHypothesis};

use crate::guesses::{Guess, guesses_of};
use crate::hypothesis::Hypothesis;
use log_events::Prefix;
use log_faults::{Fault, FaultKind, changed, is_new};
use log_pieces::{Granularity, in_pieces};
use search_history::{Budget, is_explained};
use std::alloc::{AllocError, Global};
use trace_store::RecordStore;

/// How many logs are searched, at most.
const TRIES: u32 = 60;

/// How much work it is to write a log, for each of its records.
const RECORD: u64 = 8;

/// Each search may do this part of the work that is left: of a half of it, as much again is kept.
const SHARE: u64 = 5;

/// How often what lies before a request is halved, at most.
const HALVINGS: u32 = 12;

/// What the searches may still do.
#[derive(Drop)]
struct Trials {
    left: Budget,
    tries: u32,
}

impl Trials {
    /// One search more of a log with so many records, if there is work for it.
    fn begin(&mut self, records: usize) -> bool {
        let work = RECORD.saturating_mul(records as u64);
        if self.tries >= TRIES || self.left.work <= work {
            return false;
        }
        self.tries += 1;
        self.left.work -= work;
        true
    }

    /// What one search may do.
    fn share(&self) -> Budget {
        Budget {
            limit: self.left.limit,
            work: self.left.work / SHARE,
        }
    }

    /// The search is over, and so much is left of what it may do.
    fn end(&mut self, had: Budget, own: Budget) {
        let done = had.work.saturating_sub(own.work);
        self.left.work = self.left.work.saturating_sub(done);
    }
}

/// A history explains the log, as far as it is found.
fn has_history(alloc: Global, log: &RecordStore, trials: &mut Trials) -> Result<bool, AllocError>
    ensures { IfOk result (λ yes. yes ≡ true → IsExplainable log.now) }
{
    let had = trials.share();
    let mut own = had;
    let is_so = is_explained(alloc, log, log.len(), &mut own)?;
    trials.end(had, own);
    Ok(is_so)
}

/// A history explains the first so many records as a device with the fault would have written them, as far as it is found.
fn explains(
    alloc: Global,
    prefix: Prefix<'_>,
    fault: Fault,
    trials: &mut Trials,
) -> Result<bool, AllocError>
    ensures { IfOk result (λ yes. yes ≡ true → IsExplainable (with_fault fault (first prefix.entry.count prefix.entry.seen.now))) }
{
    if !trials.begin(prefix.count) {
        return Ok(false);
    }
    let records = prefix.seen.records().first(prefix.count);
    let log = changed(alloc, prefix.seen.extent(), &records, fault)?;
    has_history(alloc, &log, trials)
}

/// The same of all records.
fn explains_all(
    alloc: Global,
    prefix: Prefix<'_>,
    fault: Fault,
    trials: &mut Trials,
) -> Result<bool, AllocError>
    ensures { IfOk result (λ yes. yes ≡ true → IsExplainable (with_fault fault prefix.entry.seen.now)) }
{
    if !trials.begin(prefix.seen.len()) {
        return Ok(false);
    }
    let log = changed(alloc, prefix.seen.extent(), &prefix.seen.records(), fault)?;
    has_history(alloc, &log, trials)
}

/// The request at the place was submitted before that record, as another requester's own.
fn early(place: usize, by: u8, before: usize) -> Fault {
    Fault {
        place,
        kind: FaultKind::Early(by, before),
    }
}

/// The fault that explains the first records, where the request was submitted earlier: as late as it is found.
fn latest(
    alloc: Global,
    prefix: Prefix<'_>,
    place: usize,
    by: u8,
    trials: &mut Trials,
) -> Result<Option<Fault>, AllocError>
    ensures { IfOk result (λ o. IfSome o (λ f. IsExplainable (with_fault f (first prefix.entry.count prefix.entry.seen.now)))) }
{
    let mut fault = early(place, by, 0);
    if !explains(alloc, prefix, fault, trials)? {
        return Ok(None);
    }
    let (mut low, mut high) = (0usize, place);
    for _turn in 0..HALVINGS {
        let middle = low.saturating_add(high.saturating_sub(low) / 2);
        if middle <= low {
            break;
        }
        let later = early(place, by, middle);
        if explains(alloc, prefix, later, trials)? {
            low = middle;
            fault = later;
        } else {
            high = middle;
        }
    }
    Ok(Some(fault))
}

/// The fault that explains the first records, if it is found.
fn fault_if(
    alloc: Global,
    prefix: Prefix<'_>,
    fault: Fault,
    trials: &mut Trials,
) -> Result<Option<Fault>, AllocError>
    ensures { IfOk result (λ o. IfSome o (λ f. IsExplainable (with_fault f (first prefix.entry.count prefix.entry.seen.now)))) }
{
    if explains(alloc, prefix, fault, trials)? {
        return Ok(Some(fault));
    }
    Ok(None)
}

/// The fault that explains the first records, where the request is another requester's own, where it stands or earlier.
fn own_fault(
    alloc: Global,
    prefix: Prefix<'_>,
    place: usize,
    by: u8,
    trials: &mut Trials,
) -> Result<Option<Fault>, AllocError>
    ensures { IfOk result (λ o. IfSome o (λ f. IsExplainable (with_fault f (first prefix.entry.count prefix.entry.seen.now)))) }
{
    let there = Fault {
        place,
        kind: FaultKind::Apart(by),
    };
    match fault_if(alloc, prefix, there, trials)? {
        Some(fault) => Ok(Some(fault)),
        None => latest(alloc, prefix, place, by, trials),
    }
}

/// A fault that explains the first records, if the guess is right.
fn fault_of(
    alloc: Global,
    prefix: Prefix<'_>,
    guess: Guess,
    trials: &mut Trials,
) -> Result<Option<Fault>, AllocError>
    ensures { IfOk result (λ o. IfSome o (λ f. IsExplainable (with_fault f (first prefix.entry.count prefix.entry.seen.now)))) }
{
    match guess {
        Guess::One(fault) => fault_if(alloc, prefix, fault, trials),
        Guess::Own(place, by) => own_fault(alloc, prefix, place, by, trials),
    }
}

/// What the guess tells, if it is right.
fn hypothesis(
    alloc: Global,
    prefix: Prefix<'_>,
    guess: Guess,
    trials: &mut Trials,
) -> Result<Option<Hypothesis>, AllocError>
    ensures { IfOk result (λ o. IfSome o (IsHypothesis prefix.entry.seen.now prefix.entry.count)) }
{
    let Some(fault) = fault_of(alloc, prefix, guess, trials)? else {
        return Ok(None);
    };
    if !is_new(&prefix.seen.records(), fault.kind) {
        return Ok(None);
    }
    let is_whole = explains_all(alloc, prefix, fault, trials)?;
    Ok(Some(Hypothesis { fault, is_whole }))
}

/// What was found, and how many logs were searched for it.
#[derive(Drop)]
pub struct Tried {
    pub found: Vec<Hypothesis>,
    pub tries: u32,
}

/// Single faults with which a history explains the first records, which have none, as far as they are found: those that are
/// guessed of the answers at these places, the last one first. It takes two thirds of the budget at most.
pub fn hypotheses(
    alloc: Global,
    prefix: Prefix<'_>,
    answers: &[usize],
    budget: &mut Budget,
) -> Result<Tried, AllocError>
    ensures { IfOk result (λ t. All (IsHypothesis prefix.entry.seen.now prefix.entry.count) t.found.items) }
{
    let had = Budget {
        limit: budget.limit,
        work: budget.work / 3 * 2,
    };
    let mut trials = Trials {
        left: had,
        tries: 0,
    };
    let mut found = Vec::new(alloc);
    let guesses = guesses_of(alloc, prefix, answers)?;
    for at in 0..guesses.all.len() {
        if at >= guesses.near && !found.is_empty() {
            break;
        }
        if let Some(told) = hypothesis(alloc, prefix, guesses.all[at], &mut trials)? {
            found.push(told)?;
        }
    }
    let done = had.work.saturating_sub(trials.left.work);
    budget.work = budget.work.saturating_sub(done);
    Ok(Tried {
        found,
        tries: trials.tries,
    })
}

/// The first records, over that memory.
fn first_of(alloc: Global, prefix: Prefix<'_>) -> Result<RecordStore, AllocError>
    ensures { IfOk result (λ t. t ≡ first prefix.entry.count prefix.entry.seen.now) }
{
    let records = prefix.seen.records().first(prefix.count);
    let mut copies = RecordStore::new(alloc, prefix.seen.extent());
    for place in 0..records.len() {
        if let Some(item) = records.get(place) {
            copies.push(&item)?;
        }
    }
    Ok(copies)
}

/// The first records have a history in pieces of that size, as far as it is found.
fn is_torn(
    alloc: Global,
    log: &RecordStore,
    size: Granularity,
    budget: &mut Budget,
) -> Result<bool, AllocError>
    ensures { IfOk result (λ yes. yes ≡ true → IsExplainableIn size log.now) }
{
    let Some(pieces) = in_pieces(alloc, log, size)? else {
        return Ok(false);
    };
    is_explained(alloc, &pieces, pieces.len(), budget)
}

/// The size of pieces in which the first records have a history, if one is found: 4 bytes, or else 8.
pub fn torn_at(
    alloc: Global,
    prefix: Prefix<'_>,
    budget: &mut Budget,
) -> Result<Option<Granularity>, AllocError>
    ensures { IfOk result (λ o. IfSome o (λ size. IsExplainableIn size (first prefix.entry.count prefix.entry.seen.now))) }
{
    let log = first_of(alloc, prefix)?;
    let mut own = budget.half(budget.limit);
    let size = if is_torn(alloc, &log, Granularity::Four, &mut own)? {
        Some(Granularity::Four)
    } else if is_torn(alloc, &log, Granularity::Eight, &mut own)? {
        Some(Granularity::Eight)
    } else {
        None
    };
    budget.end_half(own);
    Ok(size)
}
