//! What a request asks for, as a device with a fault does it.
ghost use Rattle.std.specs.Prelude.{◌≡◌, IfOk};
ghost use Rattle.op_pieces.specs.Pieces.{is_served as serves};
ghost use Rattle.log_faults.specs.WithFault as spec;

use crate::faults::FaultKind;
use op_pieces::cut;
use seq_memory::{Extent, refusal_lent};
use std::alloc::{AllocError, Global};
use tlp_core::{OpRef, PayloadRef, Width};

/// How many DW an operand has.
fn dw_in(width: Width) -> u16
    ensures { result ≡ spec.dw_in width }
{
    match width {
        Width::Four => 1,
        Width::Eight => 2,
        Width::Sixteen => 4,
    }
}

/// The byte enables of the last DW of a read of an operand.
fn last_in(width: Width) -> u8
    ensures { result ≡ spec.last_in width }
{
    match width {
        Width::Four => 0,
        Width::Eight => 15,
        Width::Sixteen => 15,
    }
}

/// A read of the operand there.
fn reading<'a>(address: u64, width: Width) -> OpRef<'a>
    ensures { result ≡ spec.reading address width }
{
    OpRef::Read {
        address,
        dw: dw_in(width),
        first: 15,
        last: last_in(width),
    }
}

/// The operation without its effect.
fn lost<'a>(op: &OpRef<'a>) -> OpRef<'a>
    ensures { result ≡ spec.lost op.now }
{
    match op {
        OpRef::Read { .. } => op.again(),
        OpRef::Write { address, .. } => OpRef::Read {
            address: *address,
            dw: 1,
            first: 0,
            last: 0,
        },
        OpRef::FetchAdd { address, width, .. } => reading(*address, *width),
        OpRef::Swap { address, width, .. } => reading(*address, *width),
        OpRef::Cas { address, width, .. } => reading(*address, *width),
    }
}

/// A Swap of what a CAS may write.
fn swapped<'a>(op: &OpRef<'a>) -> OpRef<'a>
    ensures { result ≡ spec.swapped op.now }
{
    match op {
        OpRef::Cas {
            address,
            width,
            swap,
            ..
        } => OpRef::Swap {
            address: *address,
            width: *width,
            operand: *swap,
        },
        _ => op.again(),
    }
}

/// A write with all bytes of its first DW.
fn with_first<'a>(op: &OpRef<'a>) -> OpRef<'a>
    ensures { result ≡ spec.with_first op.now }
{
    match op {
        OpRef::Write {
            address,
            last,
            bytes,
            ..
        } => OpRef::Write {
            address: *address,
            first: 15,
            last: *last,
            bytes: PayloadRef::new(bytes.as_slice()),
        },
        _ => op.again(),
    }
}

/// A write with all bytes of its last DW.
fn with_last<'a>(op: &OpRef<'a>) -> OpRef<'a>
    ensures { result ≡ spec.with_last op.now }
{
    match op {
        OpRef::Write {
            address,
            first,
            bytes,
            ..
        } => OpRef::Write {
            address: *address,
            first: *first,
            last: 15,
            bytes: PayloadRef::new(bytes.as_slice()),
        },
        _ => op.again(),
    }
}

/// The operation as a device with that fault does it.
pub(crate) fn done<'a>(kind: FaultKind, op: &OpRef<'a>) -> OpRef<'a>
    ensures { result ≡ spec.done kind op.now }
{
    match kind {
        FaultKind::Lost => lost(op),
        FaultKind::Swapped => swapped(op),
        FaultKind::First => with_first(op),
        FaultKind::Last => with_last(op),
        FaultKind::Twice(_) => op.again(),
        FaultKind::Apart(_) => op.again(),
        FaultKind::Early(..) => op.again(),
        FaultKind::Refused(_) => op.again(),
    }
}

/// A memory that lies there serves the operation.
fn is_served(extent: Extent, op: &OpRef<'_>) -> bool
    ensures { result ≡ serves extent op.now }
{
    refusal_lent(extent.base(), extent.block(), extent.size(), op).is_none()
}

/// An operation that isn't served, in parts that lie in a block each.
pub(crate) fn carried_out<'a>(
    alloc: Global,
    extent: Extent,
    op: &OpRef<'a>,
) -> Result<Vec<OpRef<'a>>, AllocError>
    ensures { IfOk result (λ v. v.items ≡ spec.carried_out extent op.now) }
{
    if is_served(extent, op) {
        return Ok(Vec::new(alloc));
    }
    if u128::from(op.address()) + u128::from(op.size()) <= 1 << 64 {
        return cut(alloc, u64::from(extent.block()), op);
    }
    Ok(Vec::new(alloc))
}
