//! Bookkeeping mistakes of a log.
ghost use Rattle.std.specs.Prelude.{◌≡◌, IfNone, IfOk, IfSome, Some, length, slice_get, take};
ghost use Rattle.std.specs.List.{list_any};
ghost use Rattle.history_words.specs.Flaws.{at_place};
ghost use Rattle.history_words.specs.Records.{Record};
ghost use Rattle.history_words.specs.Trace.{answers_to};
ghost use Rattle.log_events.specs.Formed.{AreFormed, MisformedAt};
ghost use Rattle.search_engine.specs.Bounded.{bounds_of};
ghost use Rattle.search_engine.specs.Flaws as spec;
ghost use Rattle.search_engine.specs.Findings.{IsJudged};

use crate::answering::Finding;
use crate::granularity::sought_in;
use crate::options::SearchDemand;
use history_words::{Flaw, FlawKind, RecordRef};
use log_events::form_of;
use std::alloc::{AllocError, Global};
use std::io::Write;
use std::time::Clock;
use trace_store::{RecordStore, Records};

/// The record answers the request.
fn answers(item: &RecordRef<'_>, requester: u8, number: u32) -> bool
    ensures { result ≡ answers_to requester number item.now }
{
    match item {
        RecordRef::Sub { .. } => false,
        RecordRef::Ans {
            requester: who,
            number: own,
            ..
        } => requester == *who && number == *own,
    }
}

/// The record at the place answers the request.
fn answers_at(records: &Records<'_>, place: usize, requester: u8, number: u32) -> bool
    ensures { result ≡ at_place (answers_to requester number) records.now place }
{
    match records.get(place) {
        Some(item) => answers(&item, requester, number),
        None => false,
    }
}

/// One of the records answers the request.
fn is_answered(records: &Records<'_>, requester: u8, number: u32) -> bool
    ensures { result ≡ list_any (answers_to requester number) records.now }
{
    for place in 0..records.len() {
        if answers_at(records, place, requester, number) {
            return true;
        }
    }
    false
}

/// What is wrong with the record behind those, whose form is.
fn flaw_of(before: &Records<'_>, item: &RecordRef<'_>) -> FlawKind
    ensures { result ≡ spec.flaw_of before.now item.now }
{
    match item {
        RecordRef::Sub { .. } => FlawKind::Numbering,
        RecordRef::Ans {
            requester,
            number,
            ..
        } => if is_answered(before, *requester, *number) {
            FlawKind::Again
        } else {
            FlawKind::Unasked
        },
    }
}

/// What is wrong with the record at the place, if the form of those before is right.
fn kind_at(records: &Records<'_>, place: usize) -> FlawKind
    ensures { (r : Record) → slice_get records.now place ≡ Some r → result ≡ spec.flaw_of (take place records.now) r }
{
    match records.get(place) {
        Some(item) => flaw_of(&records.first(place), &item),
        None => FlawKind::Numbering,
    }
}

/// The flaw of the record at the place, the first one whose form is wrong.
fn flaw_at(records: &Records<'_>, place: usize) -> Flaw
    requires wrong { MisformedAt records.now place }
    requires first { AreFormed records.now place }
    ensures { spec.IsFirstFlaw records.now result }
{
    Flaw {
        kind: kind_at(records, place),
        place,
    }
}

/// The first flaw of the form of the records.
fn flaw_among(alloc: Global, records: &Records<'_>) -> Result<Option<Flaw>, AllocError>
    ensures flaw { IfOk result (λ o. IfSome o (spec.IsFirstFlaw records.now)) }
    ensures formed { IfOk result (λ o. IfNone o (AreFormed records.now (length records.now))) }
{
    let form = form_of(alloc, records)?;
    match form.flaw {
        Some(place) => Ok(Some(flaw_at(records, place))),
        None => Ok(None),
    }
}

/// The first flaw of the form of the log.
fn first_flaw(alloc: Global, seen: &RecordStore) -> Result<Option<Flaw>, AllocError>
    ensures flaw { IfOk result (λ o. IfSome o (spec.IsFirstFlaw seen.now.records)) }
    ensures formed { IfOk result (λ o. IfNone o (AreFormed seen.now.records (length seen.now.records))) }
{
    flaw_among(alloc, &seen.records())
}

/// Looks for a history of pieces of a log whose form is right, or names the first flaw of its form.
pub(crate) fn judged<C: Clock, E: Write>(
    alloc: Global,
    seen: RecordStore,
    demand: SearchDemand,
    clock: &C,
    errors: &mut E,
) -> Result<Finding, AllocError>
    ensures { IfOk result (IsJudged demand.options.granularity (bounds_of demand) seen) }
{
    let flaw = first_flaw(alloc, &seen)?;
    match flaw {
        Some(flaw) => Ok(Finding::Flaw { seen, flaw }),
        None => sought_in(alloc, seen, demand, clock, errors),
    }
}
