//! A log in pieces.
ghost use Rattle.std.specs.Prelude.{◌≡◌, ◌+◌, ◌≤◌, ◌++◌, ◌∷◌, ◌==◌, [], List, IfOk, IfSome, IfNone, OnOk, length, slice_get};
ghost use Rattle.history_words.specs.Records.{Record};
ghost use Rattle.history_words.specs.TraceView.{TraceView};
ghost use Rattle.op_pieces.specs.Pieces.{parts};
ghost use Rattle.log_pieces.specs.Pieces.{pieces};
ghost use Rattle.log_pieces.specs.InPieces as spec;
ghost use Rattle.log_pieces.specs.InPieces.{next_number};
ghost use Rattle.log_pieces.specs.RowView.{AreRows};

use crate::Granularity;
use crate::cutting::Splitter;
use crate::replies::{back_of, front_of};
use crate::rows::{Row, rows};
use history_words::RecordRef;
use seq_memory::ReplyRef;
use std::alloc::{AllocError, Global};
use tlp_core::OpRef;
use trace_store::RecordStore;

/// Whose records they are, the number of the first, and its `n`.
#[derive(Clone, Copy)]
struct Of {
    requester: u8,
    number: u32,
    n: u64,
}

/// A reply, and whose it is.
#[derive(Drop)]
struct Answered<'a> {
    of: Of,
    reply: ReplyRef<'a>,
}

/// Adds submissions of these operations, under numbers that follow each other.
fn put_subs(records: &mut RecordStore, of: Of, ops: &[OpRef<'_>]) -> Result<(), AllocError>
    ensures { OnOk result (records.new ≡ spec.with_more records.old (spec.subs of.requester of.number of.n ops.now)) }
{
    let mut number = of.number;
    for op in ops {
        let Some(next) = number.checked_add(1) else {
            return Err(AllocError);
        };
        records.submitted(of.requester, number, of.n, op)?;
        number = next;
    }
    Ok(())
}

/// Adds answers to these pieces of one request, under numbers that follow each other.
fn put_answers(
    records: &mut RecordStore,
    of: Of,
    ops: &[OpRef<'_>],
    reply: &ReplyRef<'_>,
) -> Result<(), AllocError>
    ensures { OnOk result (records.new ≡ spec.with_more records.old (spec.answers of.requester of.number of.n (parts ops.now reply.now))) }
{
    if ops.is_empty() {
        return Ok(());
    }
    let mut number = of.number;
    let mut rest = back_of(0, reply);
    for at in 0..ops.len() - 1 {
        let Some(next) = number.checked_add(1) else {
            return Err(AllocError);
        };
        let count = ops[at].size() as usize;
        records.answered(of.requester, number, of.n, &front_of(count, &rest))?;
        rest = back_of(count, &rest);
        number = next;
    }
    records.answered(of.requester, number, of.n, &rest)
}

/// Adds the pieces of a submission.
fn submit<'a>(
    records: &mut RecordStore,
    row: &mut Row<'a>,
    of: Of,
    op: OpRef<'a>,
    ops: &[OpRef<'_>],
) -> Result<(), AllocError>
    ensures records { OnOk result (records.new ≡
        spec.with_more records.old (spec.subs of.requester (next_number (of.number == length row.old.requests) row.old.next) of.n ops.now)) }
    ensures row { OnOk result (row.new ≡ record { next = row.old.next + length ops.now; requests = row.old.requests ++ (row.old.next, op.entry) ∷ [] }) }
{
    let Some(number) = row.start(of.number) else {
        return Err(AllocError);
    };
    put_subs(records, Of { number, ..of }, ops)?;
    row.add(op, ops.len())
}

/// Adds the answers to the pieces of a request.
fn answer(
    alloc: Global,
    records: &mut RecordStore,
    row: &Row<'_>,
    cut: &Splitter,
    answered: Answered<'_>,
) -> Result<(), AllocError>
    requires some { 4 ≤ cut.now.bytes }
    requires few { cut.now.bytes ≤ 64 }
    ensures { OnOk result (records.new ≡ spec.with_more records.old
        (spec.answers_by (pieces cut.now.bytes cut.now.extent) (slice_get row.now.requests answered.entry.of.number)
        answered.entry.of.requester row.now.next answered.entry.of.n answered.entry.reply)) }
{
    let Answered { of, reply } = answered;
    match row.request(of.number) {
        None => records.answered(of.requester, row.next(), of.n, &reply),
        Some(request) => {
            let ops = cut.pieces(alloc, &request.op)?;
            let of = Of {
                number: request.number,
                ..of
            };
            put_answers(records, of, &ops, &reply)
        }
    }
}

/// Adds a record in pieces, behind those whose rows these are.
fn add<'a>(
    alloc: Global,
    records: &mut RecordStore,
    rows: &mut [Row<'a>],
    cut: &Splitter,
    item: RecordRef<'a>,
) -> Result<(), AllocError>
    requires len { length rows.old ≡ 256 }
    requires some { 4 ≤ cut.now.bytes }
    requires few { cut.now.bytes ≤ 64 }
    ensures records { OnOk result ((before : List Record) → AreRows (pieces cut.now.bytes cut.now.extent) rows.old before →
        records.new ≡ spec.with_more records.old (spec.split (pieces cut.now.bytes cut.now.extent) before item.entry)) }
    ensures rows { OnOk result ((before : List Record) → AreRows (pieces cut.now.bytes cut.now.extent) rows.old before →
        AreRows (pieces cut.now.bytes cut.now.extent) rows.new (before ++ item.entry ∷ [])) }
    ensures len { length rows.new ≡ 256 }
{
    match item {
        RecordRef::Sub {
            requester,
            number,
            op,
            n,
        } => {
            let of = Of {
                requester,
                number,
                n,
            };
            let ops = cut.pieces(alloc, &op)?;
            submit(records, &mut rows[usize::from(requester)], of, op, &ops)
        }
        RecordRef::Ans {
            requester,
            number,
            reply,
            n,
        } => {
            let of = Of {
                requester,
                number,
                n,
            };
            let answered = Answered { of, reply };
            answer(alloc, records, &rows[usize::from(requester)], cut, answered)
        }
    }
}

/// The log in pieces of so many bytes.
fn cut_log(alloc: Global, bytes: u64, log: &RecordStore) -> Result<RecordStore, AllocError>
    requires some { 4 ≤ bytes }
    requires few { bytes ≤ 64 }
    ensures { IfOk result (λ t. t ≡ spec.cut_log bytes log.now) }
{
    let extent = log.extent();
    let cut = Splitter { bytes, extent };
    let mut pieces = RecordStore::new(alloc, extent);
    let mut table = rows(alloc)?;
    let records = log.records();
    for at in 0..records.len() {
        let Some(item) = records.get(at) else {
            unreachable!()
        };
        add(alloc, &mut pieces, &mut table, &cut, item)?;
    }
    Ok(pieces)
}

/// How many bytes a piece has; none of whole requests.
pub(crate) fn bytes_of(granularity: Granularity) -> Option<u64>
    ensures some { IfSome result (λ n. (4 ≤ n) × (n ≤ 64)) }
    ensures pieces { IfSome result (λ n. (t : TraceView) → spec.in_pieces granularity t ≡ spec.cut_log n t) }
    ensures whole { IfNone result (granularity ≡ Granularity.Whole) }
{
    match granularity {
        Granularity::Four => Some(4),
        Granularity::Eight => Some(8),
        Granularity::Sixteen => Some(16),
        Granularity::SixtyFour => Some(64),
        Granularity::Whole => None,
    }
}

/// The log in pieces of that size; none of whole requests, where it stays as it is. Fails where memory can't be
/// allocated, and where a requester has 2^32 - 1 pieces or more.
pub fn in_pieces(
    alloc: Global,
    log: &RecordStore,
    granularity: Granularity,
) -> Result<Option<RecordStore>, AllocError>
    ensures pieces { IfOk result (λ o. IfSome o (λ t. t ≡ spec.in_pieces granularity log.now)) }
    ensures whole { IfOk result (λ o. IfNone o (granularity ≡ Granularity.Whole)) }
{
    match bytes_of(granularity) {
        Some(bytes) => Ok(Some(cut_log(alloc, bytes, log)?)),
        None => Ok(None),
    }
}
