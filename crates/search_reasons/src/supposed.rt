//! With what a prefix that has no history would have one.
ghost use Rattle.std.specs.Prelude.{◌≡◌, All, IfOk, IfSome, None};
ghost use Rattle.log_runs.specs.Explainable.{prefix as first};
ghost use Rattle.log_pieces.specs.InPieces.{IsExplainableIn};
ghost use Rattle.search_hypotheses.specs.Hypotheses.{IsHypothesis};

use crate::cases::Case;
use crate::causes::Cause;
use crate::finding::Why;
use log_pieces::Granularity;
use search_anomalies::{Prefix, WordCause, wide_request};
use search_history::Budget;
use search_hypotheses::{Tried, hypotheses, torn_at};
use std::alloc::{AllocError, Global};

/// With what the prefix would have a history, as far as it is found.
#[derive(Drop)]
pub struct Supposed {
    /// Single faults of a device, where nothing else is known of the answers.
    pub faults: Option<Tried>,
    /// The size of pieces, where a read or a write of several DW has to do with the answers.
    pub pieces: Option<Granularity>,
}

impl Supposed {
    /// Nothing is known.
    pub(crate) fn nothing() -> Supposed
        ensures { result ≡ record { faults = None; pieces = None } }
    {
        Supposed {
            faults: None,
            pieces: None,
        }
    }
}

/// The answers may have a history in which requests act in parts, by what is told of them. AtomicOps act as a whole
/// there, too, and so does each DW.
fn may_be_of_parts(cause: Cause) -> bool {
    matches!(
        cause,
        Cause::Words(WordCause::Overwritten(..) | WordCause::NoOrder)
    )
}

/// The places of the answers, the last one first.
fn places_of(alloc: Global, last: usize, others: &[usize]) -> Result<Vec<usize>, AllocError> {
    let mut places = Vec::new(alloc);
    places.push(last)?;
    places.extend_from_slice(others)?;
    Ok(places)
}

/// The size of pieces in which the prefix has a history, if a read or a write of several DW has to do with these answers.
fn pieces_for(
    alloc: Global,
    prefix: Prefix<'_>,
    answers: &[usize],
    budget: &mut Budget,
) -> Result<Option<Granularity>, AllocError>
    ensures { IfOk result (λ o. IfSome o (λ size. IsExplainableIn size (first prefix.entry.count prefix.entry.seen.now))) }
{
    if wide_request(alloc, prefix, answers)?.is_none() {
        return Ok(None);
    }
    torn_at(alloc, prefix, budget)
}

/// With what the prefix would have a history, by why it has none, as far as that is found within the budget; nothing of a log
/// that was searched in pieces.
pub(crate) fn suppose(
    alloc: Global,
    case: Case<'_>,
    why: &Why,
    budget: &mut Budget,
) -> Result<Supposed, AllocError>
    ensures faults { IfOk result (λ s. IfSome s.faults (λ t. All (IsHypothesis case.entry.read.seen.now case.entry.read.count) t.found.items)) }
    ensures pieces { IfOk result (λ s. IfSome s.pieces (λ size. IsExplainableIn size (first case.entry.read.count case.entry.read.seen.now))) }
{
    let Why::Answers {
        last,
        others,
        cause,
        cycle,
        ..
    } = why
    else {
        return Ok(Supposed::nothing());
    };
    if case.ends.is_some() || !may_be_of_parts(*cause) {
        return Ok(Supposed::nothing());
    }
    let answers = places_of(alloc, *last, others)?;
    let pieces = pieces_for(alloc, case.read, &answers, budget)?;
    if *cause != Cause::Words(WordCause::NoOrder) || !cycle.is_empty() {
        return Ok(Supposed {
            faults: None,
            pieces,
        });
    }
    let tried = hypotheses(alloc, case.read, &answers, budget)?;
    Ok(Supposed {
        faults: Some(tried),
        pieces,
    })
}
