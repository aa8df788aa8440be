//! Why a prefix of a log has no history.
ghost use Rattle.std.specs.Prelude.{◌≡◌, ◌+◌, true, All, IfOk, IfSome};
ghost use Rattle.history_words.specs.TraceView.{observed};
ghost use Rattle.log_runs.specs.Explainable.{prefix as first};
ghost use Rattle.log_pieces.specs.InPieces.{IsExplainableIn};
ghost use Rattle.search_history.specs.Expected.{IsExpected};
ghost use Rattle.search_history.specs.Prefixes.{IsExplainedBefore};
ghost use Rattle.search_hypotheses.specs.Hypotheses.{IsHypothesis};
ghost use Rattle.search_reasons.specs.Reasons.{AreAgainst, IsCause, IsTold};

use crate::cases::Case;
use crate::causes::{Cause, misreply_among};
use crate::supposed::{Supposed, suppose};
use log_events::form_of;
use search_anomalies::{Link, Prefix, WordCause, cycle_through, words_cause};
use search_history::{Before, Budget, contradict, contradiction, explained_before};
use std::alloc::{AllocError, Global};

/// Why a prefix of a log has no history. Records are those that were searched.
#[derive(Drop)]
pub struct Reasons {
    /// How many records a history explains, one less than the prefix has, and what it has in place of the last one's reply;
    /// none where that isn't known.
    pub before: Option<Before>,
    pub why: Why,
    /// With what it would have one.
    pub supposed: Supposed,
}

/// What the last record of the prefix is up against.
#[derive(Drop)]
pub enum Why {
    /// Its form is wrong: its number isn't its requester's next, or it answers no request that waits for an answer.
    Form,
    /// The answer at the place `last` has no history together with those at the places `others`, if that is proved; with
    /// none there, it may be an answer of which no more is known.
    Answers {
        last: usize,
        others: Vec<usize>,
        is_proved: bool,
        cause: Cause,
        /// A cycle of requests through the last answer, where no other cause is known; none if it isn't found.
        cycle: Vec<Link>,
    },
}

/// How many records a history explains, if they are one less than the prefix and that is found out.
fn explained(
    alloc: Global,
    prefix: Prefix<'_>,
    budget: &mut Budget,
) -> Result<Option<Before>, AllocError>
    ensures explained { IfOk result (λ o. IfSome o (λ b. IsExplainedBefore prefix.entry.seen.now prefix.entry.count b.count)) }
    ensures next { IfOk result (λ o. IfSome o (λ b. b.count + 1 ≡ prefix.entry.count)) }
    ensures expected { IfOk result (λ o. IfSome o (λ b. IfSome b.expected (IsExpected prefix.entry.seen.now b.count))) }
{
    let seen = prefix.seen;
    if prefix.count > seen.len() {
        return Ok(None);
    }
    explained_before(alloc, seen, prefix.count, budget)
}

/// The form of the last record is wrong.
fn is_misformed(alloc: Global, prefix: Prefix<'_>) -> Result<bool, AllocError> {
    let form = form_of(alloc, &prefix.records())?;
    Ok(form.flaw.is_some() && form.flaw == prefix.count.checked_sub(1))
}

/// The most answers that are told.
const MOST: usize = 16;

/// An answer, and others, and whether it is proved that no history explains them together.
#[derive(Drop)]
struct Against {
    last: usize,
    others: Vec<usize>,
    is_proved: bool,
}

/// An answer that no history explains together with the others.
fn proved(last: usize, others: Vec<usize>) -> Against
    ensures { result ≡ record { last = last; others = others; is_proved = true } }
{
    Against {
        last,
        others,
        is_proved: true,
    }
}

/// Few answers that contradict each other, or else the last record alone.
fn answers_against(
    alloc: Global,
    prefix: Prefix<'_>,
    budget: &mut Budget,
) -> Result<Against, AllocError>
    ensures { IfOk result (λ a. AreAgainst prefix.entry.seen.now prefix.entry.count a.last a.others.items a.is_proved) }
{
    let mut others = contradiction(alloc, prefix.seen, prefix.count, budget)?;
    match others.pop() {
        Some(last) => Ok(proved(last, others)),
        None => Ok(Against {
            last: prefix.count.saturating_sub(1),
            others: Vec::new(alloc),
            is_proved: false,
        }),
    }
}

impl Against {
    /// The places of all answers, the last one first.
    fn places(&self, alloc: Global) -> Result<Vec<usize>, AllocError> {
        let mut places = Vec::new(alloc);
        places.push(self.last)?;
        places.extend_from_slice(&self.others)?;
        Ok(places)
    }
}

/// The records of the log that have what was searched at these places, each once.
pub(crate) fn records_with(
    alloc: Global,
    case: Case<'_>,
    places: &[usize],
) -> Result<Vec<usize>, AllocError> {
    let mut records = Vec::new(alloc);
    for place in places {
        let record = case.record_with(*place);
        if !records.contains(&record) {
            records.push(record)?;
        }
    }
    Ok(records)
}

/// Why the answers have no history: since no memory gives one of the replies that were read, or by what was searched.
fn cause_of(alloc: Global, case: Case<'_>, answers: &Against) -> Result<Cause, AllocError>
    ensures { IfOk result (IsCause (observed case.entry.read.seen.now) case.entry.read.seen.now.records) }
{
    let places = answers.places(alloc)?;
    let records = records_with(alloc, case, &places)?;
    match misreply_among(alloc, case.read, &records)? {
        Some(found) => Ok(Cause::Misreply(found)),
        None => {
            let found = words_cause(alloc, case.searched, &places)?;
            Ok(Cause::Words(found))
        }
    }
}

/// The answers on a cycle, but for the last one.
fn others_on(alloc: Global, cycle: &[Link], last: usize) -> Result<Vec<usize>, AllocError> {
    let mut others = Vec::new(alloc);
    for link in cycle {
        if let Some(answer) = link.answer
            && answer != last
            && !others.contains(&answer)
        {
            others.push(answer)?;
        }
    }
    others.sort()?;
    Ok(others)
}

/// The answers on a cycle, if they are few and no history explains them together, as far as that is found out.
fn answers_on(
    alloc: Global,
    prefix: Prefix<'_>,
    cycle: &[Link],
    last: usize,
    budget: &mut Budget,
) -> Result<Option<Against>, AllocError>
    ensures { IfOk result (λ o. IfSome o (λ a. AreAgainst prefix.entry.seen.now prefix.entry.count a.last a.others.items a.is_proved)) }
{
    let others = others_on(alloc, cycle, last)?;
    if others.len() >= MOST {
        return Ok(None);
    }
    let mut all = Vec::new(alloc);
    all.extend_from_slice(&others)?;
    all.push(last)?;
    if contradict(alloc, prefix.seen, prefix.count, &all, budget)? {
        return Ok(Some(proved(last, others)));
    }
    Ok(None)
}

/// Answers, and the cycle that they are on, if one is told.
#[derive(Drop)]
struct Ring {
    answers: Against,
    cycle: Vec<Link>,
}

/// The answers on a cycle of requests through the last one, or these, if it isn't proved of those.
fn ring_of(
    alloc: Global,
    prefix: Prefix<'_>,
    answers: Against,
    budget: &mut Budget,
) -> Result<Ring, AllocError>
    requires { AreAgainst prefix.seen.now prefix.count answers.last answers.others.items answers.is_proved }
    ensures { IfOk result (λ r. AreAgainst prefix.entry.seen.now prefix.entry.count r.answers.last r.answers.others.items r.answers.is_proved) }
{
    let cycle = cycle_through(alloc, prefix, answers.last)?;
    if cycle.is_empty() {
        return Ok(Ring { answers, cycle });
    }
    match answers_on(alloc, prefix, &cycle, answers.last, budget)? {
        Some(answers) => Ok(Ring { answers, cycle }),
        None => Ok(Ring { answers, cycle }),
    }
}

/// The answers, or those on a cycle if no other cause is known.
fn ring_for(
    alloc: Global,
    prefix: Prefix<'_>,
    answers: Against,
    cause: Cause,
    budget: &mut Budget,
) -> Result<Ring, AllocError>
    requires { AreAgainst prefix.seen.now prefix.count answers.last answers.others.items answers.is_proved }
    ensures { IfOk result (λ r. AreAgainst prefix.entry.seen.now prefix.entry.count r.answers.last r.answers.others.items r.answers.is_proved) }
{
    if cause == Cause::Words(WordCause::NoOrder) {
        return ring_of(alloc, prefix, answers, budget);
    }
    Ok(Ring {
        answers,
        cycle: Vec::new(alloc),
    })
}

/// Why the prefix has no history. Three things are told, as far as they are found out within the budget: how many records have
/// a history, which answers contradict each other, and which of them are on a cycle.
/// Fails where memory can't be allocated; nothing is known then.
pub fn reasons_of(alloc: Global, case: Case<'_>, budget: &mut Budget) -> Result<Reasons, AllocError>
    ensures explained { IfOk result (λ r. IfSome r.before (λ b. IsExplainedBefore case.entry.searched.seen.now case.entry.searched.count b.count)) }
    ensures next { IfOk result (λ r. IfSome r.before (λ b. b.count + 1 ≡ case.entry.searched.count)) }
    ensures expected { IfOk result (λ r. IfSome r.before (λ b. IfSome b.expected (IsExpected case.entry.searched.seen.now b.count))) }
    ensures answers { IfOk result (λ r. IsTold case.entry.searched.seen.now case.entry.searched.count
        (observed case.entry.read.seen.now) case.entry.read.seen.now.records r.why) }
{
    let before = explained(alloc, case.searched, budget)?;
    if is_misformed(alloc, case.read)? {
        return Ok(Reasons {
            before,
            why: Why::Form,
            supposed: Supposed::nothing(),
        });
    }
    let found = answers_against(alloc, case.searched, budget)?;
    let cause = cause_of(alloc, case, &found)?;
    let Ring { answers, cycle } = ring_for(alloc, case.searched, found, cause, budget)?;
    let Against {
        last,
        others,
        is_proved,
    } = answers;
    let why = Why::Answers {
        last,
        others,
        is_proved,
        cause,
        cycle,
    };
    Ok(Reasons {
        before,
        why,
        supposed: Supposed::nothing(),
    })
}

/// Why the prefix has no history, as [`reasons_of`] finds it out, and with what it would have one: single faults of a device,
/// and pieces in which requests act.
pub fn reasons_with_faults(
    alloc: Global,
    case: Case<'_>,
    budget: &mut Budget,
) -> Result<Reasons, AllocError>
    ensures explained { IfOk result (λ r. IfSome r.before (λ b. IsExplainedBefore case.entry.searched.seen.now case.entry.searched.count b.count)) }
    ensures next { IfOk result (λ r. IfSome r.before (λ b. b.count + 1 ≡ case.entry.searched.count)) }
    ensures expected { IfOk result (λ r. IfSome r.before (λ b. IfSome b.expected (IsExpected case.entry.searched.seen.now b.count))) }
    ensures answers { IfOk result (λ r. IsTold case.entry.searched.seen.now case.entry.searched.count
        (observed case.entry.read.seen.now) case.entry.read.seen.now.records r.why) }
    ensures faults { IfOk result (λ r. IfSome r.supposed.faults (λ t. All (IsHypothesis case.entry.read.seen.now case.entry.read.count) t.found.items)) }
    ensures pieces { IfOk result (λ r. IfSome r.supposed.pieces (λ size. IsExplainableIn size (first case.entry.read.count case.entry.read.seen.now))) }
{
    let reasons = reasons_of(alloc, case, budget)?;
    let supposed = suppose(alloc, case, &reasons.why, budget)?;
    let Reasons { before, why, .. } = reasons;
    Ok(Reasons {
        before,
        why,
        supposed,
    })
}
