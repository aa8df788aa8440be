//! The part of a log on some bytes of the memory.
ghost use Rattle.std.specs.Prelude.{◌≡◌, ◌<◌, ◌≤◌, ℕ, IfOk, IfSome, IsTrue, List, Some, slice_get, length, map};
ghost use Rattle.seq_memory.specs.declared.limits.TheConstants as limits;
ghost use Rattle.log_runs.specs.EventView.{EventView, part_event};
ghost use Rattle.log_runs.specs.Headers.{header_of};
ghost use Rattle.log_runs.specs.Runs.{Live, start};
ghost use Rattle.log_cells.specs.Parts.{IsKept, NamesInside, AreKept, Holds};
ghost use Rattle.log_cells.specs.Places.{ArePlaces};

use crate::cells::Cells;
use crate::laws::a_part_has_a_run;
use crate::names::{name_of, names_in};
use crate::places::Place;
use log_runs::laws::headers_are_of_events;
use log_runs::{EventHeader, Log, PartEvent};
use seq_memory::{Extent, LARGE_BLOCK, MAX_SIZE};
use std::alloc::{AllocError, Global};

/// The event with the name at that place, as the part has it. `header` is the event's.
fn kept(header: EventHeader, names: &[usize], at: usize) -> PartEvent
    requires { at < length names.now }
    ensures { (es : List EventView) (a : ℕ) (e : EventView) → slice_get names.now at ≡ Some a → slice_get es a ≡ Some e → header ≡ header_of e →
        IsKept names.now e (part_event es result) }
{
    match header {
        EventHeader::Due { request } => match name_of(names, at, request) {
            Some(request) => PartEvent::Due { request },
            None => PartEvent::Free,
        },
        EventHeader::Sub { .. } | EventHeader::Free => PartEvent::Whole(names[at]),
    }
}

/// If it is a submission, all its bytes lie from `low` up to `high`.
fn is_inside(header: EventHeader, low: u64, high: u64) -> bool
    ensures { IsTrue result → (e : EventView) → header ≡ header_of e → NamesInside low high e }
{
    match header {
        EventHeader::Sub { address, size, .. } => Place {
            from: address,
            count: size,
        }
        .is_inside(low, high),
        _ => true,
    }
}

/// The event with the name at that place, as the part has it; none if it is a request that isn't inside.
fn event_at(log: &Log<'_>, names: &[usize], at: usize, low: u64, high: u64) -> Option<PartEvent>
    ensures { IfSome result (λ p. (a : ℕ) × (e : EventView) × (slice_get names.now at ≡ Some a) × (slice_get log.now.events a ≡ Some e) ×
        NamesInside low high e × IsKept names.now e (part_event log.now.events p)) }
{
    headers_are_of_events();
    let header = log.header(*names.get(at)?)?;
    if is_inside(header, low, high) {
        Some(kept(header, names, at))
    } else {
        None
    }
}

/// The events with these names; none if a request isn't inside.
fn events_in(
    alloc: Global,
    log: &Log<'_>,
    names: &[usize],
    low: u64,
    high: u64,
) -> Result<Option<Vec<PartEvent>>, AllocError>
    ensures { IfOk result (λ o. IfSome o (λ v. AreKept log.now.events names.now low high (map (part_event log.now.events) v.items) (length names.now))) }
{
    let mut events = Vec::with_capacity(alloc, names.len())?;
    for at in 0..names.len() {
        let Some(event) = event_at(log, names, at, low, high) else {
            return Ok(None);
        };
        events.push(event)?;
    }
    Ok(Some(events))
}

/// How many bytes there are in whole blocks, at least one.
fn in_blocks(count: usize) -> usize
    requires few { count ≤ limits.MAX_SIZE }
    ensures { count ≤ result }
{
    (count / usize::from(LARGE_BLOCK) + 1) * usize::from(LARGE_BLOCK)
}

/// Whole blocks with the bytes from `low` up to `high`, if a memory can have them.
fn extent_for(log: &Log<'_>, low: u64, high: u64) -> Option<Extent>
    ensures { IfSome result (λ x. (x.block ≡ log.now.extent.block) × Holds x low high) }
{
    let base = low - low % u64::from(LARGE_BLOCK);
    if high <= base || high - base > MAX_SIZE as u64 {
        return None;
    }
    let block = log.extent().block();
    Extent::new(base, in_blocks((high - base) as usize), block)
}

/// The log's memory has the bytes from `low` up to `high`.
fn holds(log: &Log<'_>, low: u64, high: u64) -> bool
    ensures { IsTrue result → Holds log.now.extent low high }
{
    let base = log.extent().base();
    base <= low && low <= high && high - base <= log.extent().size() as u64
}

/// A part of a log.
#[derive(Drop)]
pub struct LogPart<'a> {
    pub log: Log<'a>,
    /// The place in the whole log of each event of the part.
    pub names: Vec<usize>,
}

/// The part of the log on the bytes from `low` up to `high`; none if a request crosses an end of them.
/// It lends the log's operations and replies. If no run leads through it, none leads through the log.
pub fn part<'a>(
    alloc: Global,
    log: &Log<'a>,
    cells: &Cells,
    low: u64,
    high: u64,
) -> Result<Option<LogPart<'a>>, AllocError>
    requires places { ArePlaces log.now.events cells.now.places }
    ensures live { IfOk result (λ o. IfSome o (λ p. Live log.now (start log.now) → Live p.log (start p.log))) }
    ensures names { IfOk result (λ o. IfSome o (λ p. AreKept log.now.events p.names.items low high p.log.events (length p.names.items))) }
{
    a_part_has_a_run();
    if !holds(log, low, high) {
        return Ok(None);
    }
    let Some(extent) = extent_for(log, low, high) else {
        return Ok(None);
    };
    let names = names_in(alloc, cells.places(), low, high)?;
    let Some(events) = events_in(alloc, log, &names, low, high)? else {
        return Ok(None);
    };
    let inner = log.part(alloc, extent, &events)?;
    Ok(Some(LogPart { log: inner, names }))
}
