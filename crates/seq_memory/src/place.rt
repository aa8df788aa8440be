//! Which operations are served.
ghost use Rattle.std.specs.Prelude.{◌≡◌, ◌+◌, ◌%◌, ◌≤◌, if◌then◌else◌, not, Some, None, IfNone};
ghost use Rattle.tlp_core.specs.Operation.{op_fault, address_of, count_of};
ghost use Rattle.seq_memory.specs.Limits.{IsBlock};
ghost use Rattle.seq_memory.specs.declared.limits.TheConstants as limits;
ghost use Rattle.seq_memory.specs.Step.{is_in_block, is_inside, refusal};

use crate::Refusal;
use crate::limits::{LARGE_BLOCK, SMALL_BLOCK};
use tlp_core::{Op, OpRef, op_fault};

/// Whether `count` bytes from `address` on lie in one block.
#[tactic(auto, using(crate::proofs::Places::by_offset))]
fn lies_in_block(block: u16, address: u64, count: u32) -> bool
    requires block { IsBlock block }
    requires some { 1 ≤ count }
    ensures { result ≡ is_in_block block address count }
{
    let before = if block == SMALL_BLOCK {
        address % u64::from(SMALL_BLOCK)
    } else {
        address % u64::from(LARGE_BLOCK)
    };
    before + u64::from(count) <= u64::from(block)
}

/// Whether `count` bytes from `address` on lie in the memory.
fn lies_inside(base: u64, size: usize, address: u64, count: u32) -> bool
    ensures { result ≡ is_inside base size address count }
{
    if address < base {
        return false;
    }
    let before = address - base;
    let size = size as u64;
    before <= size && u64::from(count) <= size - before
}

/// Why an operation without a fault is not served, by its place; none where it is.
#[inline(always)]
pub(crate) fn refusal_at(
    base: u64,
    block: u16,
    size: usize,
    address: u64,
    count: u32,
) -> Option<Refusal>
    requires block { IsBlock block }
    requires some { 1 ≤ count }
    ensures value { result ≡
        (if not (is_in_block block address count) then Some Refusal.Aborted
        else (if is_inside base size address count then None else Some Refusal.Unsupported)) }
    ensures few { IfNone result (count ≤ limits.LARGE_BLOCK) }
    ensures low { IfNone result (base ≤ address) }
    ensures high { IfNone result (address + count ≤ base + size) }
{
    if !lies_in_block(block, address, count) {
        return Some(Refusal::Aborted);
    }
    if !lies_inside(base, size, address, count) {
        return Some(Refusal::Unsupported);
    }
    None
}

/// Why the operation is not served, none where it is.
pub(crate) fn refusal_of(base: u64, block: u16, size: usize, op: &Op) -> Option<Refusal>
    requires { IsBlock block }
    ensures value { result ≡ refusal base size block op.now }
    ensures sound { IfNone result (op_fault op.now ≡ None) }
    ensures few { IfNone result (count_of op.now ≤ limits.LARGE_BLOCK) }
    ensures low { IfNone result (base ≤ address_of op.now) }
    ensures high { IfNone result (address_of op.now + count_of op.now ≤ base + size) }
{
    if op_fault(op).is_some() {
        return Some(Refusal::Aborted);
    }
    refusal_at(base, block, size, op.address(), op.size())
}

/// Why an operation that lends its bytes is not served by a memory of `size` bytes from `base` on, in blocks of
/// `block` bytes; none where it is.
pub fn refusal_lent(base: u64, block: u16, size: usize, op: &OpRef<'_>) -> Option<Refusal>
    requires { IsBlock block }
    ensures value { result ≡ refusal base size block op.now }
    ensures sound { IfNone result (op_fault op.now ≡ None) }
    ensures few { IfNone result (count_of op.now ≤ limits.LARGE_BLOCK) }
    ensures low { IfNone result (base ≤ address_of op.now) }
    ensures high { IfNone result (address_of op.now + count_of op.now ≤ base + size) }
{
    if op.fault().is_some() {
        return Some(Refusal::Aborted);
    }
    refusal_at(base, block, size, op.address(), op.size())
}
