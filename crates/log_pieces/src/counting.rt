//! How many pieces records have: they are counted, and not made.
ghost use Rattle.std.specs.Prelude.{ℕ, ◌≡◌, ◌+◌, ◌<◌, ◌≤◌, ◌++◌, ◌∷◌, [], List, IfOk, IfSome, IfNone, OnOk, Some, length, slice_get, take};
ghost use Rattle.history_words.specs.Records.{Record};
ghost use Rattle.seq_memory.specs.Entries.{Reply};
ghost use Rattle.log_runs.specs.Explainable.{IsExplainable, prefix};
ghost use Rattle.log_pieces.specs.Pieces.{pieces};
ghost use Rattle.log_pieces.specs.InPieces as spec;
ghost use Rattle.log_pieces.specs.RowView.{AreRows};

use crate::Granularity;
use crate::cutting::Splitter;
use crate::rows::{Row, rows};
use crate::splitting::bytes_of;
use history_words::RecordRef;
use log_runs::laws::prefix_is_explainable;
use std::alloc::{AllocError, Global};
use tlp_core::OpRef;
use trace_store::{RecordStore, Records};

/// So many pieces of a submission are counted, which its requester's row gets. Fails where its requester has no
/// numbers left for them.
fn count_submission<'a>(
    row: &mut Row<'a>,
    number: u32,
    op: OpRef<'a>,
    count: usize,
) -> Result<usize, AllocError>
    ensures count { IfOk result (λ all. all ≡ count) }
    ensures row { OnOk result (row.new ≡ record { next = row.old.next + count; requests = row.old.requests ++ (row.old.next, op.entry) ∷ [] }) }
{
    let Some(first) = row.start(number) else {
        return Err(AllocError);
    };
    if count > (u32::MAX - first) as usize {
        return Err(AllocError);
    }
    row.add(op, count)?;
    Ok(count)
}

/// How many pieces a reply to the request of that number has.
fn count_answer(row: &Row<'_>, cut: &Splitter, number: u32) -> usize
    requires some { 4 ≤ cut.now.bytes }
    requires few { cut.now.bytes ≤ 64 }
    ensures { (i next n : ℕ) (reply : Reply) →
        result ≡ length (spec.answers_by (pieces cut.now.bytes cut.now.extent) (slice_get row.now.requests number) i next n reply) }
{
    match row.request(number) {
        None => 1,
        Some(request) => cut.count(&request.op),
    }
}

/// How many pieces a record has, behind those whose rows these are.
fn count_record<'a>(
    rows: &mut [Row<'a>],
    cut: &Splitter,
    item: RecordRef<'a>,
) -> Result<usize, AllocError>
    requires len { length rows.old ≡ 256 }
    requires some { 4 ≤ cut.now.bytes }
    requires few { cut.now.bytes ≤ 64 }
    ensures count { IfOk result (λ count. (before : List Record) → AreRows (pieces cut.now.bytes cut.now.extent) rows.old before →
        count ≡ length (spec.split (pieces cut.now.bytes cut.now.extent) before item.entry)) }
    ensures rows { OnOk result ((before : List Record) → AreRows (pieces cut.now.bytes cut.now.extent) rows.old before →
        AreRows (pieces cut.now.bytes cut.now.extent) rows.new (before ++ item.entry ∷ [])) }
    ensures len { length rows.new ≡ 256 }
{
    match item {
        RecordRef::Sub {
            requester,
            number,
            op,
            ..
        } => {
            let pieces = cut.count(&op);
            count_submission(&mut rows[usize::from(requester)], number, op, pieces)
        }
        RecordRef::Ans {
            requester,
            number,
            ..
        } => Ok(count_answer(&rows[usize::from(requester)], cut, number)),
    }
}

/// Both together.
fn sum(count: usize, more: usize) -> Result<usize, AllocError>
    ensures { IfOk result (λ all. all ≡ count + more) }
{
    match count.checked_add(more) {
        Some(all) => Ok(all),
        None => Err(AllocError),
    }
}

/// How many records have that many pieces, or more: the least number.
fn reach(
    alloc: Global,
    cut: &Splitter,
    records: &Records<'_>,
    count: usize,
) -> Result<usize, AllocError>
    requires some { 4 ≤ cut.now.bytes }
    requires few { cut.now.bytes ≤ 64 }
    requires reached { count ≤ length (spec.split_all (pieces cut.now.bytes cut.now.extent) [] records.now) }
    ensures within { IfOk result (λ n. n ≤ length records.now) }
    ensures reaches { IfOk result (λ n. count ≤ length (spec.split_all (pieces cut.now.bytes cut.now.extent) [] (take n records.now))) }
    ensures least { IfOk result (λ n. (m : ℕ) → m < n → length (spec.split_all (pieces cut.now.bytes cut.now.extent) [] (take m records.now)) < count) }
{
    let mut so_far = 0;
    let mut table = rows(alloc)?;
    for at in 0..records.len() {
        if count <= so_far {
            return Ok(at);
        }
        let Some(item) = records.get(at) else {
            unreachable!()
        };
        let more = count_record(&mut table, cut, item)?;
        let all = sum(so_far, more)?;
        so_far = all;
    }
    Ok(records.len())
}

/// How many pieces the records up to each one have.
fn ends(alloc: Global, cut: &Splitter, records: &Records<'_>) -> Result<Vec<usize>, AllocError>
    requires some { 4 ≤ cut.now.bytes }
    requires few { cut.now.bytes ≤ 64 }
    ensures len { IfOk result (λ v. length v.items ≡ length records.now) }
    ensures each { IfOk result (λ v. (a : ℕ) → a < length records.now →
        slice_get v.items a ≡ Some (length (spec.split_all (pieces cut.now.bytes cut.now.extent) [] (take (a + 1) records.now)))) }
{
    let mut so_far = 0;
    let mut ends = Vec::new(alloc);
    let mut table = rows(alloc)?;
    for at in 0..records.len() {
        let Some(item) = records.get(at) else {
            unreachable!()
        };
        let more = count_record(&mut table, cut, item)?;
        let all = sum(so_far, more)?;
        so_far = all;
        ends.push(all)?;
    }
    Ok(ends)
}

/// How many records the log in pieces of that size has of the records up to each one; none of whole requests, where
/// each record is one. Fails where [`in_pieces`] does.
pub fn ends_of(
    alloc: Global,
    log: &RecordStore,
    granularity: Granularity,
) -> Result<Option<Vec<usize>>, AllocError>
    ensures len { IfOk result (λ o. IfSome o (λ v. length v.items ≡ length log.now.records)) }
    ensures each { IfOk result (λ o. IfSome o (λ v. (a : ℕ) → a < length log.now.records →
        slice_get v.items a ≡ Some (length (spec.in_pieces granularity (prefix (a + 1) log.now)).records))) }
    ensures whole { IfOk result (λ o. IfNone o (granularity ≡ Granularity.Whole)) }
{
    match bytes_of(granularity) {
        Some(bytes) => {
            let cut = Splitter {
                bytes,
                extent: log.extent(),
            };
            Ok(Some(ends(alloc, &cut, &log.records())?))
        }
        None => Ok(None),
    }
}

/// How many of the first records have the first `count` records of the log in pieces among their own: the least number.
/// If those have no history, these have none in pieces.
pub fn records_of(
    alloc: Global,
    log: &RecordStore,
    granularity: Granularity,
    count: usize,
) -> Result<usize, AllocError>
    requires { count ≤ length (spec.in_pieces granularity log.now).records }
    ensures within { IfOk result (λ n. n ≤ length log.now.records) }
    ensures reaches { IfOk result (λ n. count ≤ length (spec.in_pieces granularity (prefix n log.now)).records) }
    ensures least { IfOk result (λ n. (m : ℕ) → m < n → length (spec.in_pieces granularity (prefix m log.now)).records < count) }
    ensures unexplained { IfOk result (λ n. (IsExplainable (prefix count (spec.in_pieces granularity log.now)) → ⊥) →
        spec.IsExplainableIn granularity (prefix n log.now) → ⊥) }
{
    prefix_is_explainable();
    match bytes_of(granularity) {
        Some(bytes) => {
            let cut = Splitter {
                bytes,
                extent: log.extent(),
            };
            reach(alloc, &cut, &log.records(), count)
        }
        None => Ok(count),
    }
}
