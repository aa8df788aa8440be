//! The replies of a run, where a log has only that requests were done.
ghost use Rattle.std.specs.Prelude.{◌≡◌, ◌∷◌, IfNone, IfOk, IfSome, OnErr, OnOk, List, Some, false, map, option_and_then, replicate, slice_get, take, true, ℕ};
ghost use Rattle.std.specs.List.{list_any};
ghost use Rattle.seq_memory.specs.Step.{after, answer};
ghost use Rattle.history_words.specs.Flaws.{at_place};
ghost use Rattle.history_words.specs.Records.{Record};
ghost use Rattle.log_events.specs.Joined.{ArePartners};
ghost use Rattle.log_runs.specs.Histories.{completed, history_of, with_replies};
ghost use Rattle.log_runs.specs.Tasks.{IsWellFormed};
ghost use Rattle.log_runs.specs.declared.Step.{Step};
ghost use Rattle.log_events.specs.Completing as spec;
ghost use Rattle.trace_store.specs.Changes.{seen_by};

use crate::{Partners, form_of};
use history_words::RecordRef;
use log_runs::Step;
use seq_memory::{EntryRef, Extent, ReplyData, ReplyRef, perform_lent};
use std::alloc::{AllocError, Global};
use tlp_core::OpRef;
use trace_store::{Records, TraceStore};

/// Performs the operation on the memory's bytes. The reply's data is put into the room.
pub fn perform<'r>(
    extent: Extent,
    bytes: &mut [u8],
    op: &OpRef<'_>,
    room: &'r mut ReplyData,
) -> ReplyRef<'r>
    ensures bytes { bytes.new ≡ after extent.base extent.block bytes.old op.now }
    ensures reply { result ≡ answer extent.base extent.block bytes.old op.now }
{
    if op.fault().is_some() {
        return ReplyRef::Aborted;
    }
    perform_lent(extent.base(), extent.block(), bytes, op, room)
}

/// The record at the place has only that a request was done.
fn lacks_reply(records: &Records<'_>, place: usize) -> bool
    ensures { result ≡ at_place spec.lacks_reply records.now place }
{
    matches!(
        records.get(place),
        Some(RecordRef::Ans {
            reply: ReplyRef::Done,
            ..
        })
    )
}

/// One of the records has only that a request was done.
fn lack_replies(records: &Records<'_>) -> bool
    ensures { result ≡ list_any spec.lacks_reply records.now }
{
    for place in 0..records.len() {
        if lacks_reply(records, place) {
            return true;
        }
    }
    false
}

/// The record has only that the entry's request was done.
fn waits(item: &RecordRef<'_>, entry: &EntryRef<'_>) -> bool
    ensures { result ≡ spec.waits entry.now item.now }
{
    match item {
        RecordRef::Ans {
            requester,
            number,
            reply: ReplyRef::Done,
            ..
        } => *requester == entry.requester && *number == entry.number,
        _ => false,
    }
}

/// The place, if the record there has only that the entry's request was done.
fn waiting_at(records: &Records<'_>, at: Option<usize>, entry: &EntryRef<'_>) -> Option<usize>
    ensures some { IfSome result (λ a. (r : Record) × (at ≡ Some a) × (slice_get records.now a ≡ Some r) × (spec.waits entry.now r ≡ true)) }
    ensures none { IfNone result ((a : ℕ) (r : Record) → at ≡ Some a → slice_get records.now a ≡ Some r → spec.waits entry.now r ≡ false) }
{
    let place = at?;
    if waits(&records.get(place)?, entry) {
        Some(place)
    } else {
        None
    }
}

/// The memory that a run goes through.
#[derive(Drop)]
struct Memory<'a> {
    extent: Extent,
    /// Which records belong together.
    partners: &'a Partners,
}

/// The request at the place acts: its answer has its reply, if it has only that it was done.
fn act(
    store: &mut TraceStore,
    bytes: &mut [u8],
    memory: &Memory<'_>,
    b: usize,
) -> Result<(), AllocError>
    requires { ArePartners memory.now.partners.now store.old.records }
    ensures memory { store.new.memory ≡ store.old.memory }
    ensures records { OnOk result ((ys : List Step) →
        map (completed memory.now.extent bytes.old (history_of store.old.records (Step.Act b ∷ ys))) store.old.records ≡
        map (completed memory.now.extent bytes.new (history_of store.new.records ys)) store.new.records) }
    ensures partners { OnOk result (ArePartners memory.now.partners.now store.new.records) }
    ensures err { OnErr result (store.new.records ≡ store.old.records) }
{
    let records = store.seen().records();
    let Some(entry) = records.submitted(b) else {
        return Ok(());
    };
    let mut room = ReplyData::new();
    let made = perform(memory.extent, bytes, &entry.op, &mut room);
    match waiting_at(&records, memory.partners.of(b), &entry) {
        Some(place) => store.set_reply(place, &made),
        None => Ok(()),
    }
}

/// Does the step.
fn step_on(
    store: &mut TraceStore,
    bytes: &mut [u8],
    memory: &Memory<'_>,
    step: Step,
) -> Result<(), AllocError>
    requires { ArePartners memory.now.partners.now store.old.records }
    ensures memory { store.new.memory ≡ store.old.memory }
    ensures records { OnOk result ((ys : List Step) →
        map (completed memory.now.extent bytes.old (history_of store.old.records (step ∷ ys))) store.old.records ≡
        map (completed memory.now.extent bytes.new (history_of store.new.records ys)) store.new.records) }
    ensures partners { OnOk result (ArePartners memory.now.partners.now store.new.records) }
    ensures err { OnErr result (store.new.records ≡ store.old.records) }
{
    match step {
        Step::Pass => Ok(()),
        Step::Act(b) => act(store, bytes, memory, b),
    }
}

/// Does the steps: the records have the replies of their history, or of that of the first so many steps.
fn complete_all(
    store: &mut TraceStore,
    bytes: &mut [u8],
    memory: &Memory<'_>,
    steps: &[Step],
) -> Result<(), AllocError>
    requires { ArePartners memory.now.partners.now store.old.records }
    ensures memory { store.new.memory ≡ store.old.memory }
    ensures ok { OnOk result (store.new.records ≡ map (completed memory.now.extent bytes.old (history_of store.old.records steps.now)) store.old.records) }
    ensures err { OnErr result ((n : ℕ) × (store.new.records ≡
        map (completed memory.now.extent bytes.old (history_of store.old.records (take n steps.now))) store.old.records)) }
{
    for at in 0..steps.len() {
        step_on(store, bytes, memory, steps[at])?;
    }
    Ok(())
}

fn zero_bytes(alloc: Global, size: usize) -> Result<Vec<u8>, AllocError>
    ensures { IfOk result (λ v. v.items ≡ replicate size 0) }
{
    vec![in alloc; 0u8; size]
}

/// Gives the answers that have only that a request was done the replies of the history that the steps are. If memory can't be
/// allocated, they have those of the first so many steps.
pub fn complete(alloc: Global, store: &mut TraceStore, steps: &[Step]) -> Result<(), AllocError>
    requires { IsWellFormed store.old.records }
    ensures memory { store.new.memory ≡ store.old.memory }
    ensures ok { OnOk result (seen_by store.new ≡ with_replies (history_of store.old.records steps.now) (seen_by store.old)) }
    ensures err { OnErr result ((n : ℕ) × (seen_by store.new ≡ with_replies (history_of store.old.records (take n steps.now)) (seen_by store.old))) }
{
    if !lack_replies(&store.seen().records()) {
        return Ok(());
    }
    let form = form_of(alloc, &store.seen().records())?;
    let extent = store.seen().extent();
    let mut bytes = zero_bytes(alloc, extent.size())?;
    let memory = Memory {
        extent,
        partners: &form.partners,
    };
    complete_all(store, &mut bytes, &memory, steps)
}
