//! The log that a device with a fault would have written.
ghost use Rattle.std.specs.Prelude.{◌≡◌, ◌++◌, ◌∷◌, [], ◌==◌, if◌then◌else◌, slice_get, IfOk, OnOk};
ghost use Rattle.log_faults.specs.WithFault as spec;

use crate::faults::{Fault, FaultKind};
use crate::operations::{carried_out, done};
use history_words::RecordRef;
use seq_memory::Extent;
use std::alloc::{AllocError, Global};
use tlp_core::OpRef;
use trace_store::{RecordStore, Records};

/// Adds the request as the first one of that requester.
fn put_own(log: &mut RecordStore, by: u8, asked: &Option<RecordRef<'_>>) -> Result<(), AllocError>
    ensures { OnOk result (log.new ≡ record log.old { records = log.old.records ++ spec.own by asked.now }) }
{
    match asked {
        Some(RecordRef::Sub { op, n, .. }) => log.submitted(by, 0, *n, op),
        _ => Ok(()),
    }
}

/// Whose requests these are, and the `n` of their submissions.
#[derive(Clone, Copy)]
struct Of {
    by: u8,
    n: u64,
}

/// Adds submissions of these operations, under the numbers from 0 on.
fn put_in_turn(log: &mut RecordStore, of: Of, parts: &[OpRef<'_>]) -> Result<(), AllocError>
    ensures { OnOk result (log.new ≡ record log.old { records = log.old.records ++ spec.in_turn of.by 0 of.n parts.now }) }
{
    let mut number = 0u32;
    for op in parts {
        let Some(next) = number.checked_add(1) else {
            return Err(AllocError);
        };
        log.submitted(of.by, number, of.n, op)?;
        number = next;
    }
    Ok(())
}

/// Adds the parts of the request as those of that requester.
fn put_own_parts(
    log: &mut RecordStore,
    by: u8,
    asked: &Option<RecordRef<'_>>,
    parts: &[OpRef<'_>],
) -> Result<(), AllocError>
    ensures { OnOk result (log.new ≡ record log.old { records = log.old.records ++ spec.own_parts by asked.now parts.now }) }
{
    match asked {
        Some(RecordRef::Sub { n, .. }) => put_in_turn(log, Of { by, n: *n }, parts),
        _ => Ok(()),
    }
}

/// Whose a request is, and which number it has, where the one that is asked for is another requester's own.
fn name_apart(by: u8, asked: &Option<RecordRef<'_>>, requester: u8, number: u32) -> (u8, u32)
    ensures owner { result.0 ≡ spec.owner by asked.now requester number }
    ensures number { result.1 ≡ spec.numbered asked.now requester number }
{
    match asked {
        Some(
            RecordRef::Sub {
                requester: whose,
                number: which,
                ..
            },
        ) => {
            if requester != *whose {
                (requester, number)
            } else if number == *which {
                (by, 0)
            } else if *which < number {
                (requester, number - 1)
            } else {
                (requester, number)
            }
        }
        _ => (requester, number),
    }
}

/// Adds the record, where the request that is asked for is another requester's own.
fn put_apart(
    log: &mut RecordStore,
    by: u8,
    asked: &Option<RecordRef<'_>>,
    item: &RecordRef<'_>,
) -> Result<(), AllocError>
    ensures { OnOk result (log.new ≡ record log.old { records = log.old.records ++ spec.apart by asked.now item.now ∷ [] }) }
{
    match item {
        RecordRef::Sub {
            requester,
            number,
            op,
            n,
        } => {
            let (requester, number) = name_apart(by, asked, *requester, *number);
            log.submitted(requester, number, *n, op)
        }
        RecordRef::Ans {
            requester,
            number,
            reply,
            n,
        } => {
            let (requester, number) = name_apart(by, asked, *requester, *number);
            log.answered(requester, number, *n, reply)
        }
    }
}

/// Adds the record with what the device does, if it is a submission.
fn put_done(log: &mut RecordStore, kind: FaultKind, item: &RecordRef<'_>) -> Result<(), AllocError>
    ensures { OnOk result (log.new ≡ record log.old { records = log.old.records ++ spec.done_in kind item.now ∷ [] }) }
{
    match item {
        RecordRef::Sub {
            requester,
            number,
            op,
            n,
        } => log.submitted(*requester, *number, *n, &done(kind, op)),
        RecordRef::Ans { .. } => log.push(item),
    }
}

/// A record of the log, and its place.
#[derive(Drop)]
struct Item<'a> {
    place: usize,
    what: RecordRef<'a>,
}

/// Adds the record, and behind it that request once more, if it is the one there.
fn put_twice(
    log: &mut RecordStore,
    by: u8,
    place: usize,
    asked: &Option<RecordRef<'_>>,
    item: &Item<'_>,
) -> Result<(), AllocError>
    ensures { OnOk result (log.new ≡ record log.old {
      records = log.old.records ++
          (if item.now.place == place then item.now.what ∷ spec.own by asked.now else item.now.what ∷ []);
    }) }
{
    log.push(&item.what)?;
    if item.place == place {
        put_own(log, by, asked)?;
    }
    Ok(())
}

/// Where a request stands, and before which record it would have been submitted.
#[derive(Clone, Copy)]
struct Move {
    place: usize,
    before: usize,
}

/// Adds the request before the record at that place, and each record but that of the request.
fn put_early(
    log: &mut RecordStore,
    by: u8,
    moved: Move,
    asked: &Option<RecordRef<'_>>,
    item: &Item<'_>,
) -> Result<(), AllocError>
    ensures { OnOk result (log.new ≡ record log.old {
      records = log.old.records ++
          ((if item.now.place == moved.before then spec.own by asked.now else []) ++
          (if item.now.place == moved.place then [] else spec.apart by asked.now item.now.what ∷ []));
    }) }
{
    if item.place == moved.before {
        put_own(log, by, asked)?;
    }
    if item.place != moved.place {
        put_apart(log, by, asked, &item.what)?;
    }
    Ok(())
}

/// Adds the record, with what the device does if it is the one at the place.
fn put_changed(log: &mut RecordStore, fault: Fault, item: &Item<'_>) -> Result<(), AllocError>
    ensures { OnOk result (log.new ≡ record log.old {
      records = log.old.records ++
          (if item.now.place == fault.place then spec.done_in fault.kind item.now.what else item.now.what) ∷ [];
    }) }
{
    if item.place == fault.place {
        return put_done(log, fault.kind, &item.what);
    }
    log.push(&item.what)
}

/// What is asked for at the place of a fault, and the parts of a request that is carried out, though it isn't served.
#[derive(Drop)]
struct Asked<'a> {
    what: Option<RecordRef<'a>>,
    parts: Vec<OpRef<'a>>,
}

/// Adds the parts of the request before the record, if it is the one there.
fn put_refused(
    log: &mut RecordStore,
    by: u8,
    place: usize,
    asked: &Asked<'_>,
    item: &Item<'_>,
) -> Result<(), AllocError>
    ensures { OnOk result (log.new ≡ record log.old {
      records = log.old.records ++
          ((if item.now.place == place then spec.own_parts by asked.now.what asked.now.parts.items else []) ++ item.now.what ∷ []);
    }) }
{
    if item.place == place {
        put_own_parts(log, by, &asked.what, &asked.parts)?;
    }
    log.push(&item.what)
}

/// Adds what stands in place of the record.
fn put(
    log: &mut RecordStore,
    fault: Fault,
    asked: &Asked<'_>,
    item: &Item<'_>,
) -> Result<(), AllocError>
    ensures { OnOk result (log.new ≡ record log.old {
      records = log.old.records ++
          spec.told fault.kind fault.place asked.now.what asked.now.parts.items item.now.place item.now.what;
    }) }
{
    let place = fault.place;
    match fault.kind {
        FaultKind::Lost => put_changed(log, fault, item),
        FaultKind::Swapped => put_changed(log, fault, item),
        FaultKind::First => put_changed(log, fault, item),
        FaultKind::Last => put_changed(log, fault, item),
        FaultKind::Twice(by) => put_twice(log, by, place, &asked.what, item),
        FaultKind::Apart(by) => put_apart(log, by, &asked.what, &item.what),
        FaultKind::Early(by, before) => {
            put_early(log, by, Move { place, before }, &asked.what, item)
        }
        FaultKind::Refused(by) => put_refused(log, by, place, asked, item),
    }
}

/// The parts of what is asked for, if it is carried out, though it isn't served.
fn parts_of<'a>(
    alloc: Global,
    extent: Extent,
    kind: FaultKind,
    asked: &Option<RecordRef<'a>>,
) -> Result<Vec<OpRef<'a>>, AllocError>
    ensures { IfOk result (λ v. v.items ≡ spec.parts_of kind extent asked.now) }
{
    match (kind, asked) {
        (FaultKind::Refused(_), Some(RecordRef::Sub { op, .. })) => carried_out(alloc, extent, op),
        _ => Ok(Vec::new(alloc)),
    }
}

/// The log that a device with the fault would have written, over that memory.
pub fn changed(
    alloc: Global,
    extent: Extent,
    records: &Records<'_>,
    fault: Fault,
) -> Result<RecordStore, AllocError>
    ensures { IfOk result (λ t. t ≡ spec.with_fault fault (record { base = extent.base; size = extent.size; block = extent.block; records = records.now })) }
{
    let what = records.get(fault.place);
    let parts = parts_of(alloc, extent, fault.kind, &what)?;
    let asked = Asked { what, parts };
    let mut log = RecordStore::new(alloc, extent);
    for place in 0..records.len() {
        if let Some(what) = records.get(place) {
            put(&mut log, fault, &asked, &Item { place, what })?;
        }
    }
    Ok(log)
}
