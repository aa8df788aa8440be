//! The records that reasons name. Nothing rests on which these are.
use crate::cases::Case;
use crate::causes::Cause;
use crate::finding::{Reasons, Why, records_with};
use crate::supposing::told_first;
use log_events::Requests;
use search_anomalies::{Bound, Edge, Link, Prefix, Word, WordCause};
use std::alloc::{AllocError, Global};
use tlp_core::OpRef;

/// The records that reasons name, each once, by their places.
#[derive(Drop)]
pub struct Named {
    /// The last answer, and then those against it.
    pub answers: Vec<usize>,
    /// What the cycle, the cause or a fault names beside them.
    pub others: Vec<usize>,
}

impl Named {
    /// Adds a record, if it isn't there.
    fn add(&mut self, place: usize) -> Result<(), AllocError> {
        if !self.answers.contains(&place) && !self.others.contains(&place) {
            self.others.push(place)?;
        }
        Ok(())
    }

    /// Adds the records of a cause.
    fn add_cause(&mut self, cause: Cause) -> Result<(), AllocError> {
        let Cause::Words(words) = cause else {
            return Ok(());
        };
        match words {
            WordCause::NothingPuts(_, place) => self.add(place),
            WordCause::Twice(_, first, second) | WordCause::Overwritten(_, first, second) => {
                self.add(first)?;
                self.add(second)
            }
            WordCause::Sum(sum) => match sum.bound {
                Bound::Most(_, place) | Bound::Least(_, place) => self.add(place),
            },
            WordCause::NoOrder => Ok(()),
        }
    }

    /// Adds the records of a request on a cycle.
    fn add_link(&mut self, link: &Link) -> Result<(), AllocError> {
        self.add(link.submission)?;
        if let Some(answer) = link.answer {
            self.add(answer)?;
        }
        if let Edge::Overwritten(_, Some(by)) = link.edge {
            self.add(by)?;
        }
        Ok(())
    }
}

/// What the reasons name, by places in what was searched.
fn places_named(alloc: Global, prefix: Prefix<'_>, reasons: &Reasons) -> Result<Named, AllocError> {
    let mut named = Named {
        answers: Vec::new(alloc),
        others: Vec::new(alloc),
    };
    let Why::Answers {
        last,
        others,
        cause,
        cycle,
        ..
    } = &reasons.why
    else {
        return Ok(named);
    };
    named.answers.push(*last)?;
    named.answers.extend_from_slice(others)?;
    for link in cycle {
        named.add_link(link)?;
    }
    named.add_cause(*cause)?;
    if let Some(tried) = &reasons.supposed.faults {
        for told in told_first(alloc, prefix, tried)?.as_slice() {
            named.add(told.fault.place)?;
        }
    }
    Ok(named)
}

/// What the lines of the reasons name, by places in the log as it was read.
pub fn named_by(alloc: Global, case: Case<'_>, reasons: &Reasons) -> Result<Named, AllocError> {
    let named = places_named(alloc, case.searched, reasons)?;
    Ok(Named {
        answers: records_with(alloc, case, &named.answers)?,
        others: records_with(alloc, case, &named.others)?,
    })
}

/// The word that requests put or overwrite, where that is the cause.
fn word_of(reasons: &Reasons) -> Option<Word> {
    match &reasons.why {
        Why::Answers {
            cause: Cause::Words(
                WordCause::NothingPuts(word, _)
                | WordCause::Twice(word, _, _)
                | WordCause::Overwritten(word, _, _),
            ),
            ..
        } => Some(*word),
        _ => None,
    }
}

/// The request has the word, and only its answer tells what it put there.
fn puts_by_answer(word: Word, op: &OpRef<'_>) -> bool {
    matches!(op, OpRef::FetchAdd { .. } | OpRef::Cas { .. })
        && op.address() <= word.address
        && word.address - op.address() < u64::from(op.size())
}

/// The most answers that are added of requests that no line names.
const MOST: usize = 16;

/// The answers that tell what was put at the word, if those are few.
fn answers_that_tell(
    alloc: Global,
    requests: &Requests<'_>,
    word: Word,
) -> Result<Vec<usize>, AllocError> {
    let mut answers = Vec::new(alloc);
    for request in requests.all.as_slice() {
        if let Some(answer) = request.answer
            && let Some(op) = requests.op(request)
            && puts_by_answer(word, &op)
        {
            if answers.len() == MOST {
                return Ok(Vec::new(alloc));
            }
            answers.push(answer)?;
        }
    }
    Ok(answers)
}

/// Adds an answer, if there is one, and it isn't there.
fn add_answer(answers: &mut Vec<usize>, answer: Option<usize>) -> Result<(), AllocError> {
    if let Some(place) = answer
        && !answers.contains(&place)
    {
        answers.push(place)?;
    }
    Ok(())
}

/// The answers that the lines of the reasons show, those to the other requests that they name, and those, if they are few,
/// that tell what was put at the cause's word, by places in what was searched.
pub fn answers_named(
    alloc: Global,
    case: Case<'_>,
    reasons: &Reasons,
) -> Result<Vec<usize>, AllocError> {
    let named = places_named(alloc, case.searched, reasons)?;
    let requests = Requests::of(alloc, case.searched)?;
    let mut answers = named.answers;
    for place in named.others.as_slice() {
        if let Some(request) = requests.at(*place) {
            add_answer(&mut answers, request.answer)?;
        }
    }
    if let Some(word) = word_of(reasons) {
        for answer in answers_that_tell(alloc, &requests, word)?.as_slice() {
            add_answer(&mut answers, Some(*answer))?;
        }
    }
    Ok(answers)
}
