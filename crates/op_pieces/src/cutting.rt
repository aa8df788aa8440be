//! All pieces of an operation.
ghost use Rattle.std.specs.Prelude.{◌≡◌, ◌+◌, ◌≤◌, ◌^◌, IfOk};
ghost use Rattle.seq_memory.specs.declared.limits.TheConstants as limits;
ghost use Rattle.tlp_core.specs.Operation.{address_of, count_of};
ghost use Rattle.op_pieces.specs.Pieces as spec;

use crate::halves::{back, dw_of, dw_to, front};
use std::alloc::{AllocError, Global};
use tlp_core::OpRef;

/// The operation in pieces that end at multiples of `bytes`; an AtomicOp is one. The bytes of a write are lent.
/// Fails if memory can't be allocated.
pub fn cut<'a>(alloc: Global, bytes: u64, op: &OpRef<'a>) -> Result<Vec<OpRef<'a>>, AllocError>
    requires some { 4 ≤ bytes }
    requires few { bytes ≤ limits.LARGE_BLOCK }
    requires fits { address_of op.now + count_of op.now ≤ 2 ^ 64 }
    ensures { IfOk result (λ v. v.items ≡ spec.cut bytes (spec.dw_of op.now) op.now) }
{
    let mut pieces = Vec::new(alloc);
    let mut rest = op.again();
    for turn in 0..dw_of(&rest) {
        let dw = dw_to(bytes, rest.address());
        if dw_of(&rest) <= dw {
            pieces.push(rest)?;
            return Ok(pieces);
        }
        pieces.push(front(dw, &rest))?;
        rest = back(dw, &rest);
    }
    pieces.push(rest)?;
    Ok(pieces)
}
