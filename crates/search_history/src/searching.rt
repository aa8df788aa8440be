//! Whether a history explains a log.
ghost use Rattle.std.specs.Prelude.{ℕ, ◌≡◌, ◌<◌, ◌≤◌, ◌+◌, [], IfNone, IfOk, IfSome, length, take};
ghost use Rattle.log_events.specs.Formed.{MisformedAt};
ghost use Rattle.log_runs.specs.Explainable.{SeenAlike, prefix};
ghost use Rattle.log_runs.specs.Tasks.{AreAllEvents, IsWellFormed};
ghost use Rattle.search_history.specs.Prepared.{IsLogOf, IsWholeLog};
ghost use Rattle.search_history.specs.Prefixes.{IsUnexplained};
ghost use Rattle.search_history.specs.Answers.{IsFound, IsNone, Stops};
ghost use Rattle.search_history.specs.Looks.{IsPartOf, SawOf};
ghost use Rattle.search_history.specs.Runs.{IsAnswered, IsVerdictOf};
ghost use Rattle.search_run.specs.Watched.{Saw};
ghost use Rattle.trace_store.specs.Changes.{seen_by};

use crate::judging::{Beginning, First, Judgment, judged};
use crate::moments::add_history;
use crate::shortest::shortened;
use log_events::form_of;
use log_runs::laws::{explainable_is_well_formed, prefix_is_explainable};
use log_runs::{Log, Step};
use search_run::{Bound, Bounds, Outcome, Unwatched, Watch};
use std::alloc::{AllocError, Global};
use trace_store::{RecordStore, TraceStore};

/// What a search says of a log.
#[derive(Clone, Copy)]
pub enum Sought {
    /// The store has a history now that explains the log, with the n's that it has now.
    Found,
    /// No history explains the log, nor its first `prefix` records.
    None { prefix: usize },
    /// It wasn't found out within this bound.
    Limit(Bound),
}

/// How many records there are up to that place, and with it.
fn up_to(seen: &RecordStore, place: usize) -> usize
    requires { place < length seen.now.records }
    ensures { result ≡ place + 1 }
{
    let count = seen.len();
    if place < count {
        return place + 1;
    }
    count
}

/// What is found out of runs.
#[derive(Drop)]
enum Verdict {
    /// These steps lead through the log to its end.
    Run(Vec<Step>),
    /// No history explains the log, nor its first records up to that number.
    None(usize),
    /// It wasn't found out within this bound.
    Limit(Bound),
}

/// Looks for a run through the log of the records, whose form is right. Which of them belong together is found out again if
/// there is no run, so that it takes no memory meanwhile.
fn well_formed<W: Watch>(
    alloc: Global,
    records: First<'_>,
    log: Log<'_>,
    bounds: Bounds,
    watch: &mut W,
) -> Result<(Verdict, u64, u64), AllocError>
    requires log { IsLogOf records.seen.now records.count log }
    requires within { records.count ≤ length records.seen.now.records }
    ensures run { IfOk result (λ r. AreAllEvents (take records.entry.count records.entry.seen.now.records) log.entry.events →
        IsWellFormed (take records.entry.count records.entry.seen.now.records) → IsVerdictOf (prefix records.entry.count records.entry.seen.now) r.0) }
    ensures none { IfOk result (λ r. (prefix : ℕ) → r.0 ≡ Verdict.None prefix → IsUnexplained records.entry.seen.now prefix) }
    ensures limit { IfOk result (λ r. r.0 ≡ Verdict.Limit Bound.Choices → r.1 ≡ bounds.choices) }
    ensures work { IfOk result (λ r. r.0 ≡ Verdict.Limit Bound.Work → bounds.work < 18446744073709551615) }
    ensures less { IfOk result (λ r. r.0 ≡ Verdict.Limit Bound.Work → r.1 < bounds.choices) }
    ensures states { IfOk result (λ r. r.1 ≤ bounds.choices) }
    ensures spent { IfOk result (λ r. r.0 ≡ Verdict.Limit Bound.Work → r.2 ≡ 0) }
    ensures saw { IfOk result (λ r. Saw W.sees (IsPartOf log.entry) r.1 watch.old watch.new) }
{
    let Judgment {
        outcome,
        states,
        work,
        clue,
    } = judged(alloc, records, log, bounds, watch)?;
    match outcome {
        Outcome::Run(steps) => Ok((Verdict::Run(steps), states, work)),
        Outcome::Dead => {
            let First { seen, count } = records;
            let form = form_of(alloc, &seen.records().first(count))?;
            let records = Beginning {
                seen,
                partners: &form.partners,
                count,
            };
            let prefix = shortened(alloc, records, clue, bounds.choices)?;
            Ok((Verdict::None(prefix), states, work))
        }
        Outcome::Limit(bound) => Ok((Verdict::Limit(bound), states, work)),
    }
}

/// The record behind these has a wrong form, so with it they have no history; without it they may have none
/// either.
fn misformed<W: Watch>(
    alloc: Global,
    records: First<'_>,
    log: Log<'_>,
    bounds: Bounds,
    watch: &mut W,
) -> Result<(Verdict, u64, u64), AllocError>
    requires log { IsLogOf records.seen.now records.count log }
    requires misformed { MisformedAt records.seen.now.records records.count }
    ensures none { IfOk result (λ r. (n : ℕ) × (r.0 ≡ Verdict.None n) × IsUnexplained records.entry.seen.now n) }
    ensures states { IfOk result (λ r. r.1 ≤ bounds.choices) }
    ensures saw { IfOk result (λ r. Saw W.sees (IsPartOf log.entry) r.1 watch.old watch.new) }
{
    explainable_is_well_formed();
    let (before, states, work) = well_formed(alloc, records, log, bounds, watch)?;
    if let Verdict::None(prefix) = before {
        return Ok((Verdict::None(prefix), states, work));
    }
    let prefix = up_to(records.seen, records.count);
    Ok((Verdict::None(prefix), states, work))
}

/// The records up to the first one whose form is wrong, if there is one, as a search sees them.
#[derive(Drop)]
struct Formed<'a> {
    log: Log<'a>,
    flaw: Option<usize>,
}

/// The records of a log as a search sees them. Which of them belong together is free again.
fn prepared<'a>(alloc: Global, seen: &'a RecordStore) -> Result<Formed<'a>, AllocError>
    ensures wrong { IfOk result (λ f. IfSome f.flaw (λ a. MisformedAt seen.now.records a × IsLogOf seen.now a f.log)) }
    ensures right { IfOk result (λ f. IfNone f.flaw (IsWholeLog seen.now f.log)) }
{
    let form = form_of(alloc, &seen.records())?;
    match form.flaw {
        Some(flaw) => {
            let log = First { seen, count: flaw }.log(alloc, &form.partners)?;
            Ok(Formed {
                log,
                flaw: Some(flaw),
            })
        }
        None => {
            let all = First {
                seen,
                count: seen.len(),
            };
            let log = all.log(alloc, &form.partners)?;
            Ok(Formed { log, flaw: None })
        }
    }
}

/// Looks for a run through a log. What it needed of memory is free again, but for the steps.
fn searched<W: Watch>(
    alloc: Global,
    seen: &RecordStore,
    bounds: Bounds,
    watch: &mut W,
) -> Result<(Verdict, u64, u64), AllocError>
    ensures run { IfOk result (λ r. IsVerdictOf seen.now r.0) }
    ensures none { IfOk result (λ r. (prefix : ℕ) → r.0 ≡ Verdict.None prefix → IsUnexplained seen.now prefix) }
    ensures limit { IfOk result (λ r. r.0 ≡ Verdict.Limit Bound.Choices → r.1 ≡ bounds.choices) }
    ensures work { IfOk result (λ r. r.0 ≡ Verdict.Limit Bound.Work → bounds.work < 18446744073709551615) }
    ensures less { IfOk result (λ r. r.0 ≡ Verdict.Limit Bound.Work → r.1 < bounds.choices) }
    ensures states { IfOk result (λ r. r.1 ≤ bounds.choices) }
    ensures spent { IfOk result (λ r. r.0 ≡ Verdict.Limit Bound.Work → r.2 ≡ 0) }
    ensures saw { IfOk result (λ r. SawOf W.sees seen.now r.1 watch.old watch.new) }
{
    let Formed { log, flaw } = prepared(alloc, seen)?;
    match flaw {
        Some(count) => {
            let found = misformed(alloc, First { seen, count }, log, bounds, watch)?;
            Ok(found)
        }
        None => {
            let all = First {
                seen,
                count: seen.len(),
            };
            let found = well_formed(alloc, all, log, bounds, watch)?;
            Ok(found)
        }
    }
}

/// The answer to a verdict. A run is a history: the store then has it, its n's and its replies.
fn answered(alloc: Global, store: &mut TraceStore, verdict: Verdict) -> Result<Sought, AllocError>
    requires run { IsVerdictOf (seen_by store.old) verdict }
    requires empty { store.old.memory.entries ≡ [] }
    ensures alike { SeenAlike (seen_by store.old) (seen_by store.new) }
    ensures found { IfOk result (IsFound store.new) }
    ensures answered { IfOk result (IsAnswered verdict) }
    ensures stops { IfOk result (Stops (seen_by store.old)) }
{
    match verdict {
        Verdict::Run(steps) => {
            add_history(alloc, store, &steps)?;
            Ok(Sought::Found)
        }
        Verdict::None(prefix) => Ok(Sought::None { prefix }),
        Verdict::Limit(bound) => Ok(Sought::Limit(bound)),
    }
}

/// Looks for a history that explains the log of the store, which has none: what requesters submitted and were
/// answered, in the order of the records, whatever their n's are; an answer `Done` is met by any reply. Keeps within the
/// bounds: `watch` sees each choice, a state to which a run from the start leads, of the log or of a part of it. The second
/// value is how many it saw, the third how much work is left. Where it isn't found out, it saw as many as the bounds allow; or
/// fewer, if the work ended it: then none is left. The searches for a shorter prefix have bounds of their own and aren't counted
/// or seen.
///
/// Where a history is found, the store then has it, its n's, and its replies in place of `Done`. Fails where memory can't be
/// allocated; nothing is known then.
pub fn search_watched<W: Watch>(
    alloc: Global,
    store: &mut TraceStore,
    bounds: Bounds,
    watch: &mut W,
) -> Result<(Sought, u64, u64), AllocError>
    requires { store.old.memory.entries ≡ [] }
    ensures alike { SeenAlike (seen_by store.old) (seen_by store.new) }
    ensures found { IfOk result (λ r. IsFound store.new r.0) }
    ensures none { IfOk result (λ r. IsNone (seen_by store.old) r.0) }
    ensures stops { IfOk result (λ r. Stops (seen_by store.old) r.0) }
    ensures limit { IfOk result (λ r. r.0 ≡ Sought.Limit Bound.Choices → r.1 ≡ bounds.choices) }
    ensures work { IfOk result (λ r. r.0 ≡ Sought.Limit Bound.Work → bounds.work < 18446744073709551615) }
    ensures less { IfOk result (λ r. r.0 ≡ Sought.Limit Bound.Work → r.1 < bounds.choices) }
    ensures states { IfOk result (λ r. r.1 ≤ bounds.choices) }
    ensures spent { IfOk result (λ r. r.0 ≡ Sought.Limit Bound.Work → r.2 ≡ 0) }
    ensures saw { IfOk result (λ r. SawOf W.sees (seen_by store.old) r.1 watch.old watch.new) }
{
    prefix_is_explainable();
    let (verdict, states, work) = searched(alloc, store.seen(), bounds, watch)?;
    let sought = answered(alloc, store, verdict)?;
    Ok((sought, states, work))
}

/// [`search_watched`], at no more than `limit` choices, which nobody sees.
pub fn search(
    alloc: Global,
    store: &mut TraceStore,
    limit: u64,
) -> Result<(Sought, u64), AllocError>
    requires { store.old.memory.entries ≡ [] }
    ensures alike { SeenAlike (seen_by store.old) (seen_by store.new) }
    ensures found { IfOk result (λ r. IsFound store.new r.0) }
    ensures none { IfOk result (λ r. IsNone (seen_by store.old) r.0) }
    ensures stops { IfOk result (λ r. Stops (seen_by store.old) r.0) }
    ensures limit { IfOk result (λ r. r.0 ≡ Sought.Limit Bound.Choices → r.1 ≡ limit) }
    ensures work { IfOk result (λ r. r.0 ≡ Sought.Limit Bound.Work → ⊥) }
    ensures states { IfOk result (λ r. r.1 ≤ limit) }
{
    let bounds = Bounds {
        choices: limit,
        work: u64::MAX,
    };
    let (sought, choices, _) = search_watched(alloc, store, bounds, &mut Unwatched)?;
    Ok((sought, choices))
}
