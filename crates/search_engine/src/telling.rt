//! Why there is no history, how far a search came that was given up, what is wrong with a log's form, or why the input
//! can't be read, for people.
ghost use Rattle.std.specs.Prelude.{◌≡◌};

use crate::answering::Finding;
use crate::granularity::Pieces;
use search_history::Budget;
use search_reasons::{Case, GivenUp, Prefix, tell_fault, tell_flaw, tell_given_up, tell_none};
use std::alloc::Global;
use std::io::Write;
use trace_store::RecordStore;

/// A log of which so many records are looked at, and where it was searched in pieces, those.
pub(crate) fn case_of<'a>(
    seen: &'a RecordStore,
    prefix: usize,
    pieces: &'a Option<Pieces>,
) -> Case<'a>
    ensures seen { result.read.seen.now ≡ seen.now }
    ensures count { result.read.count ≡ prefix }
{
    let read = Prefix {
        seen,
        count: prefix,
    };
    match pieces {
        None => Case {
            read,
            searched: read,
            ends: None,
        },
        Some(pieces) => Case {
            read,
            searched: Prefix {
                seen: &pieces.seen,
                count: pieces.prefix,
            },
            ends: Some(&pieces.ends),
        },
    }
}

/// What is asked of the reasons of a search.
#[derive(Clone, Copy)]
pub(crate) struct Telling {
    /// What they may take.
    pub(crate) budget: Budget,
    /// Whether the option is named by which it is told how far a search is.
    pub(crate) hints_at_progress: bool,
}

/// Tells why there is no history, how far the search came, what is wrong with the log's form, or why the text can't be
/// read. If memory for that can't be allocated, or the stream fails, no more is told.
pub(crate) fn tell<E: Write>(
    alloc: Global,
    text: &[u8],
    finding: &Finding,
    telling: Telling,
    errors: &mut E,
) {
    let mut budget = telling.budget;
    let _ = match finding {
        Finding::None {
            seen,
            prefix,
            pieces,
        } => tell_none(
            alloc,
            text,
            case_of(seen, *prefix, pieces),
            &mut budget,
            errors,
        ),
        Finding::Limit {
            seen,
            far: Some(far),
            pieces,
            ..
        } => {
            let given_up = GivenUp {
                case: case_of(seen, seen.len(), pieces),
                spot: *far,
                hints_at_progress: telling.hints_at_progress,
            };
            tell_given_up(alloc, text, given_up, &mut budget, errors)
        }
        Finding::Flaw { seen, flaw } => tell_flaw(alloc, text, seen, *flaw, errors),
        Finding::Fault(misread) => tell_fault(text, *misread, errors),
        _ => Ok(()),
    };
}
