//! An operation in pieces.
ghost use Rattle.std.specs.Prelude.{◌≡◌, ◌+◌, ◌≤◌, ◌^◌, ◌∷◌, [], if◌then◌else◌, Some, None, IfOk, IsTrue, length};
ghost use Rattle.seq_memory.specs.declared.limits.TheConstants as limits;
ghost use Rattle.std.specs.List.{list_all};
ghost use Rattle.tlp_core.specs.Operation.{address_of, count_of};
ghost use Rattle.op_pieces.specs.Pieces as spec;
ghost use Rattle.log_pieces.specs.Pieces.{pieces, count_if_served};

use op_pieces::{back, cut, dw_of, dw_to, front};
use seq_memory::{Extent, refusal_lent};
use std::alloc::{AllocError, Global};
use tlp_core::OpRef;

/// Pieces of at most so many bytes, of accesses to a memory of that extent.
#[derive(Drop)]
pub(crate) struct Splitter {
    pub(crate) bytes: u64,
    pub(crate) extent: Extent,
}

fn is_served(extent: Extent, op: &OpRef<'_>) -> bool
    ensures value { result ≡ spec.is_served extent op.now }
    ensures fits { IsTrue result → address_of op.now + count_of op.now ≤ 2 ^ 64 }
{
    refusal_lent(extent.base(), extent.block(), extent.size(), op).is_none()
}

fn are_served(extent: Extent, ops: &[OpRef<'_>]) -> bool
    ensures { result ≡ list_all (spec.is_served extent) ops.now }
{
    for op in ops {
        if !is_served(extent, op) {
            return false;
        }
    }
    true
}

/// The operation alone.
fn alone<'a>(alloc: Global, op: &OpRef<'a>) -> Result<Vec<OpRef<'a>>, AllocError>
    ensures { IfOk result (λ v. v.items ≡ op.now ∷ []) }
{
    let mut pieces = Vec::new(alloc);
    pieces.push(op.again())?;
    Ok(pieces)
}

/// One more than those before it, if the last piece is served.
fn with_last(extent: Extent, before: u16, last: &OpRef<'_>) -> Option<usize>
    ensures { result ≡ (if spec.is_served extent last.now then Some (before + 1) else None) }
{
    if is_served(extent, last) {
        Some(usize::from(before) + 1)
    } else {
        None
    }
}

/// How many pieces [`cut`] makes, if each is served. They are not kept.
fn count_served(extent: Extent, bytes: u64, op: &OpRef<'_>) -> Option<usize>
    requires some { 4 ≤ bytes }
    requires few { bytes ≤ limits.LARGE_BLOCK }
    requires fits { address_of op.now + count_of op.now ≤ 2 ^ 64 }
    ensures { result ≡ count_if_served extent (spec.cut bytes (spec.dw_of op.now) op.now) }
{
    let mut rest = op.again();
    let all = dw_of(&rest);
    for turn in 0..all {
        let dw = dw_to(bytes, rest.address());
        if dw_of(&rest) <= dw {
            return with_last(extent, turn, &rest);
        }
        if !is_served(extent, &front(dw, &rest)) {
            return None;
        }
        rest = back(dw, &rest);
    }
    with_last(extent, all, &rest)
}

impl Splitter {
    /// The pieces of an operation.
    pub(crate) fn pieces<'a>(
        &self,
        alloc: Global,
        op: &OpRef<'a>,
    ) -> Result<Vec<OpRef<'a>>, AllocError>
        requires some { 4 ≤ self.now.bytes }
        requires few { self.now.bytes ≤ 64 }
        ensures { IfOk result (λ v. v.items ≡ pieces self.now.bytes self.now.extent op.now) }
    {
        if !is_served(self.extent, op) {
            return alone(alloc, op);
        }
        let pieces = cut(alloc, self.bytes, op)?;
        if are_served(self.extent, &pieces) {
            return Ok(pieces);
        }
        alone(alloc, op)
    }

    /// How many pieces an operation has.
    pub(crate) fn count(&self, op: &OpRef<'_>) -> usize
        requires some { 4 ≤ self.now.bytes }
        requires few { self.now.bytes ≤ 64 }
        ensures { result ≡ length (pieces self.now.bytes self.now.extent op.now) }
    {
        if !is_served(self.extent, op) {
            return 1;
        }
        match count_served(self.extent, self.bytes, op) {
            Some(count) => count,
            None => 1,
        }
    }
}
