//! Why answers have no history, if that can be said in a few words.
ghost use Rattle.std.specs.Prelude.{IfOk, IfSome};
ghost use Rattle.history_words.specs.TraceView.{observed};
ghost use Rattle.search_reasons.specs.Reasons.{IsMisanswered};

use crate::asked::asked_by;
use crate::misreplies::{Misreply, misreply_of};
use log_events::{Partners, form_of};
use search_anomalies::{Prefix, WordCause};
use std::alloc::{AllocError, Global};
use trace_store::RecordStore;

/// Why answers have no history.
#[derive(Clone, Copy, PartialEq)]
pub enum Cause {
    /// No memory gives one of the replies.
    Misreply(Misreply),
    /// What all requests before an answer do to a word that it shows.
    Words(WordCause),
}

/// What is wrong with the reply at the place, if no memory gives it.
fn misreply_at(seen: &RecordStore, partners: &Partners, place: usize) -> Option<Misreply>
    ensures { IfSome result (λ m. IsMisanswered (observed seen.now) seen.now.records) }
{
    let asked = asked_by(&seen.records(), partners, place)?;
    misreply_of(seen.extent(), &asked.op, &asked.reply)
}

/// What is wrong with one of the replies at these places, if no memory gives it.
pub(crate) fn misreply_among(
    alloc: Global,
    prefix: Prefix<'_>,
    answers: &[usize],
) -> Result<Option<Misreply>, AllocError>
    ensures { IfOk result (λ o. IfSome o (λ m. IsMisanswered (observed prefix.entry.seen.now) prefix.entry.seen.now.records)) }
{
    let form = form_of(alloc, &prefix.records())?;
    for answer in answers {
        if let Some(found) = misreply_at(prefix.seen, &form.partners, *answer) {
            return Ok(Some(found));
        }
    }
    Ok(None)
}
