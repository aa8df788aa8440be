//! A search for a history of pieces.
ghost use Rattle.std.specs.Prelude.{IfOk};
ghost use Rattle.log_pieces.specs.InPieces.{in_pieces};
ghost use Rattle.log_pieces.specs.declared.Granularity.TheVariants.{Whole};
ghost use Rattle.search_engine.specs.Bounded.{bounds_of};
ghost use Rattle.search_engine.specs.Findings.{IsFindingOf};

use crate::answering::{Finding, sought};
use crate::options::SearchDemand;
use log_pieces::{Granularity, ends_of, in_pieces, records_of};
use std::alloc::{AllocError, Global};
use std::io::Write;
use std::time::Clock;
use trace_store::RecordStore;

/// A log in pieces, of which so many records are looked at.
#[derive(Drop)]
pub(crate) struct Pieces {
    pub(crate) seen: RecordStore,
    pub(crate) prefix: usize,
    /// How many records it has of those of the log up to each one.
    pub(crate) ends: Vec<usize>,
}

/// The pieces of the log that were searched, of which so many are looked at.
fn pieces_of(
    alloc: Global,
    seen: &RecordStore,
    granularity: Granularity,
    searched: RecordStore,
    prefix: usize,
) -> Result<Option<Pieces>, AllocError> {
    match ends_of(alloc, seen, granularity)? {
        Some(ends) => Ok(Some(Pieces {
            seen: searched,
            prefix,
            ends,
        })),
        None => Ok(None),
    }
}

/// What came of a log, by what came of it in pieces.
fn of_records(
    alloc: Global,
    seen: RecordStore,
    demand: SearchDemand,
    finding: Finding,
) -> Result<Finding, AllocError>
    requires { IsFindingOf Whole (bounds_of demand) (in_pieces demand.options.granularity seen) finding }
    ensures { IfOk result (IsFindingOf demand.options.granularity (bounds_of demand) seen) }
{
    let granularity = demand.options.granularity;
    match finding {
        Finding::None {
            seen: searched,
            prefix: count,
            ..
        } => {
            let prefix = records_of(alloc, &seen, granularity, count)?;
            let pieces = pieces_of(alloc, &seen, granularity, searched, count)?;
            Ok(Finding::None {
                seen,
                prefix,
                pieces,
            })
        }
        Finding::Limit {
            seen: searched,
            ending,
            far,
            ..
        } => {
            let count = searched.len();
            let pieces = pieces_of(alloc, &seen, granularity, searched, count)?;
            Ok(Finding::Limit {
                seen,
                ending,
                far,
                pieces,
            })
        }
        found => Ok(found),
    }
}

/// Looks for a history of pieces.
pub(crate) fn sought_in<C: Clock, E: Write>(
    alloc: Global,
    seen: RecordStore,
    demand: SearchDemand,
    clock: &C,
    errors: &mut E,
) -> Result<Finding, AllocError>
    ensures { IfOk result (IsFindingOf demand.options.granularity (bounds_of demand) seen) }
{
    let granularity = demand.options.granularity;
    match in_pieces(alloc, &seen, granularity)? {
        None => sought(alloc, seen, demand, clock, errors),
        Some(pieces) => {
            let finding = sought(alloc, pieces, demand, clock, errors)?;
            of_records(alloc, seen, demand, finding)
        }
    }
}
