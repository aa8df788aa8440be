//! Few answers that contradict each other.
//!
//! A log without some of its answers is explainable if the log is: what they answered may have acted,
//! with any reply, or not. So answers are left out, as long as what is left has no history: first those
//! whose requests are in other cells of the memory than the last one, of which then nothing is looked at any
//! more; then halves, quarters and so on, and single ones, the oldest first.
ghost use Rattle.std.specs.Prelude.{◌≡◌, ◌≤◌, ◌++◌, ◌∷◌, [], true, IfOk, OnOk, length};
ghost use Rattle.log_runs.specs.Explainable.{IsExplainable};
ghost use Rattle.search_history.specs.Contradictions.{Contradict, keeping_from};
ghost use Rattle.search_history.specs.Contradictions as contradictions;

use crate::budgets::Budget;
use crate::judging::is_unexplained;
use history_words::{RecordHeader, RecordRef};
use log_cells::{Cells, part};
use log_events::{form_of, log_of};
use log_runs::{Event, Log, PartEvent};
use search_rules::first_unanswerable;
use search_run::{Bounds, Outcome, Way, explore};
use seq_memory::Extent;
use std::alloc::{AllocError, Global};
use trace_store::{RecordStore, Records};

/// How many choices one search looks at, at most.
const EACH: u64 = 2_000;

/// How many choices all of them look at, and the search that confirms what they found.
const ALL: u64 = 200_000;

/// How often answers are left out, at most.
const SEARCHES: u32 = 400;

/// How much work it is to make a log, for each of its events.
const EVENT: u64 = 4;

/// The most answers that are told.
const MAX_ANSWERS: usize = 16;

/// The places of the answers.
fn answers_of(alloc: Global, log: &Log<'_>) -> Result<Vec<usize>, AllocError> {
    let mut places = Vec::new(alloc);
    for place in 0..log.len() {
        if let Some(Event::Due { .. }) = log.event(place) {
            places.push(place)?;
        }
    }
    Ok(places)
}

/// The places but for some.
fn places_without(
    alloc: Global,
    places: &[usize],
    from: usize,
    to: usize,
) -> Result<Vec<usize>, AllocError> {
    let mut others = Vec::new(alloc);
    for index in 0..places.len() {
        if index < from || to <= index {
            others.push(places[index])?;
        }
    }
    Ok(others)
}

/// The address that the request at this answer names.
fn address_at(log: &Log<'_>, answer: usize) -> Option<u64> {
    let Some(Event::Due { request }) = log.event(answer) else {
        return None;
    };
    match log.event(request) {
        Some(Event::Sub { op, .. }) => Some(op.address()),
        _ => None,
    }
}

/// The events of a log, which has no run, and which of its answers are left out next.
#[derive(Drop)]
struct Thinning<'a> {
    log: &'a Log<'a>,
    kept: Vec<usize>,
    from: usize,
    size: usize,
    left: Bounds,
}

/// The events of a log with these answers alone.
fn events_keeping(
    alloc: Global,
    log: &Log<'_>,
    kept: &[usize],
) -> Result<Vec<PartEvent>, AllocError> {
    let mut events = Vec::with_capacity(alloc, log.len())?;
    for at in 0..log.len() {
        events.push(match log.event(at) {
            Some(Event::Sub { .. }) => PartEvent::Unanswered(at),
            _ => PartEvent::Free,
        })?;
    }
    for answer in kept {
        if let Some(Event::Due { request }) = log.event(*answer)
            && *answer < events.len()
            && request < events.len()
        {
            events[*answer] = PartEvent::Whole(*answer);
            events[request] = PartEvent::Whole(request);
        }
    }
    Ok(events)
}

impl Thinning<'_> {
    /// No run leads through the log with these answers alone, as far as it is found out.
    fn is_dead(&mut self, alloc: Global, kept: &[usize]) -> Result<bool, AllocError> {
        let events = events_keeping(alloc, self.log, kept)?;
        let few = self.log.part(alloc, self.log.extent(), &events)?;
        let bounds = Bounds {
            choices: self.left.choices.min(EACH),
            work: self.left.work,
        };
        let found = explore(alloc, &few, Way::Part, bounds)?;
        self.left = Bounds {
            choices: self.left.choices.saturating_sub(found.states),
            work: found.work.saturating_sub(EVENT * few.len() as u64),
        };
        Ok(matches!(found.outcome, Outcome::Dead))
    }

    /// Leaves out some answers more, if what is left has no run. Whether all was tried.
    fn thin(&mut self, alloc: Global) -> Result<bool, AllocError> {
        if self.from >= self.kept.len() {
            self.from = 0;
            self.size /= 2;
            return Ok(self.size == 0);
        }
        let to = self.from.saturating_add(self.size);
        let fewer = places_without(alloc, &self.kept, self.from, to)?;
        if self.is_dead(alloc, &fewer)? {
            self.kept = fewer;
        } else {
            self.from = to;
        }
        Ok(self.left.work == 0 || self.left.choices == 0)
    }
}

/// Few answers, the cell that they are of, if it is known, and what is left to do.
#[derive(Drop)]
struct Few {
    kept: Vec<usize>,
    range: Option<(u64, u64)>,
    left: Bounds,
}

/// Few of the answers of a log without a run, with which it has none either, and what is left to do.
fn thinned(alloc: Global, log: &Log<'_>, left: Bounds) -> Result<(Vec<usize>, Bounds), AllocError> {
    let kept = answers_of(alloc, log)?;
    let size = kept.len() / 2 + 1;
    let mut thinning = Thinning {
        log,
        kept,
        from: 0,
        size,
        left,
    };
    for _search in 0..SEARCHES {
        if thinning.thin(alloc)? {
            break;
        }
    }
    Ok((thinning.kept, thinning.left))
}

/// The cell of the log's last answer, if it isn't the only one.
fn last_cell(log: &Log<'_>, cells: &Cells) -> Option<(u64, u64)> {
    let last = log.len().checked_sub(1)?;
    if cells.count() <= 1 {
        return None;
    }
    cells.around(address_at(log, last)?)
}

/// Few of the answers of the log, which has no run: one that no memory gives; or else those of the cell of the
/// last one, if that has none; or else of all.
fn few_of(alloc: Global, log: &Log<'_>, mut left: Bounds) -> Result<Few, AllocError> {
    if let Some(at) = first_unanswerable(log) {
        return Ok(Few {
            kept: vec![in alloc; at; 1usize]?,
            range: None,
            left,
        });
    }
    let cells = Cells::of(alloc, log)?;
    if let Some(range) = last_cell(log, &cells)
        && let Some(cell) = part(alloc, log, &cells, range.0, range.1)?
    {
        let found = explore(alloc, &cell.log, Way::Part, left)?;
        left = Bounds {
            choices: left.choices.saturating_sub(found.states),
            work: found.work,
        };
        if matches!(found.outcome, Outcome::Dead) {
            let (kept, left) = thinned(alloc, &cell.log, left)?;
            return Ok(Few {
                kept: named(alloc, &kept, &cell.names)?,
                range: Some(range),
                left,
            });
        }
    }
    let (kept, left) = thinned(alloc, log, left)?;
    Ok(Few {
        kept,
        range: None,
        left,
    })
}

/// The places in the log of events of a part with these names.
fn named(alloc: Global, places: &[usize], names: &[usize]) -> Result<Vec<usize>, AllocError> {
    let mut named = Vec::new(alloc);
    for place in places {
        if let Some(name) = names.get(*place) {
            named.push(*name)?;
        }
    }
    Ok(named)
}

/// The request that the record at the place answers.
fn answered_at(records: &Records<'_>, place: usize) -> Option<(u8, u32)> {
    match records.header(place) {
        Some(
            RecordHeader::Ans {
                requester,
                number,
                ..
            },
        ) => Some((requester, number)),
        _ => None,
    }
}

/// The answers to the same request as the answer there.
fn same_answers(
    alloc: Global,
    records: &Records<'_>,
    place: usize,
) -> Result<Vec<usize>, AllocError> {
    let mut places = Vec::new(alloc);
    let request = answered_at(records, place);
    for at in 0..records.len() {
        if request.is_some() && answered_at(records, at) == request {
            places.push(at)?;
        }
    }
    Ok(places)
}

/// Places of answers, as few of them as are found that no history explains.
fn found(
    alloc: Global,
    seen: &RecordStore,
    prefix: usize,
    bounds: Bounds,
) -> Result<Few, AllocError> {
    let records = seen.records().first(prefix);
    let form = form_of(alloc, &records)?;
    if let Some(flaw) = form.flaw {
        return Ok(Few {
            kept: same_answers(alloc, &records, flaw)?,
            range: None,
            left: bounds,
        });
    }
    let log = log_of(alloc, seen.extent(), records, &form.partners)?;
    few_of(alloc, &log, bounds)
}

/// Adds the record at the place, if it is no answer or its place is one of these.
fn keep(
    log: &mut RecordStore,
    item: &RecordRef<'_>,
    place: usize,
    kept: &[usize],
) -> Result<(), AllocError>
    ensures { OnOk result (log.new ≡ record log.old { records = log.old.records ++ keeping_from place kept.now (item.now ∷ []) }) }
{
    match item {
        RecordRef::Sub { .. } => log.push(item),
        RecordRef::Ans { .. } => {
            if kept.contains(&place) {
                log.push(item)?;
            }
            Ok(())
        }
    }
}

/// The records over that memory, but of the answers those at these places alone.
fn keeping_records(
    alloc: Global,
    extent: Extent,
    records: &Records<'_>,
    kept: &[usize],
) -> Result<RecordStore, AllocError>
    ensures { IfOk result (λ v. v ≡ record { base = extent.base; size = extent.size; block = extent.block; records = keeping_from 0 kept.now records.now }) }
{
    let mut log = RecordStore::new(alloc, extent);
    for place in 0..records.len() {
        if let Some(item) = records.get(place) {
            keep(&mut log, &item, place, kept)?;
        }
    }
    Ok(log)
}

/// The first `count` records, but of the answers those at these places alone.
fn keeping(
    alloc: Global,
    seen: &RecordStore,
    count: usize,
    kept: &[usize],
) -> Result<RecordStore, AllocError>
    ensures { IfOk result (λ t. t ≡ contradictions.keeping count kept.now seen.now) }
{
    keeping_records(alloc, seen.extent(), &seen.records().first(count), kept)
}

/// Whether no history explains these answers of the first `prefix` records together, as far as it is found out with a half of
/// the budget.
pub fn contradict(
    alloc: Global,
    seen: &RecordStore,
    prefix: usize,
    answers: &[usize],
    budget: &mut Budget,
) -> Result<bool, AllocError>
    ensures { IfOk result (λ yes. yes ≡ true → IsExplainable (contradictions.keeping prefix answers.now seen.now) → ⊥) }
{
    if prefix > seen.len() {
        return Ok(false);
    }
    let few = keeping(alloc, seen, prefix, answers)?;
    let mut own = budget.half(ALL);
    let is_so = is_unexplained(alloc, &few, None, &mut own)?;
    budget.end_half(own);
    Ok(is_so)
}

/// Places of at most 16 answers of the first `prefix` records that no history explains together, in
/// their order; none if they aren't found. It looks for them with a half of the budget, and confirms them with a half of
/// the rest.
pub fn contradiction(
    alloc: Global,
    seen: &RecordStore,
    prefix: usize,
    budget: &mut Budget,
) -> Result<Vec<usize>, AllocError>
    ensures none { IfOk result (λ v. Contradict seen.now prefix v.items) }
    ensures few { IfOk result (λ v. length v.items ≤ 16) }
{
    if prefix > seen.len() {
        return Ok(Vec::new(alloc));
    }
    let own = budget.half(ALL / 2);
    let Few { kept, range, left } = found(alloc, seen, prefix, own.bounds())?;
    budget.end_half(Budget {
        work: left.work,
        ..own
    });
    if kept.len() > MAX_ANSWERS {
        return Ok(Vec::new(alloc));
    }
    let few = keeping(alloc, seen, prefix, &kept)?;
    let mut rest = budget.half(ALL / 2);
    let is_so = is_unexplained(alloc, &few, range, &mut rest)?;
    budget.end_half(rest);
    if is_so {
        return Ok(kept);
    }
    Ok(Vec::new(alloc))
}
