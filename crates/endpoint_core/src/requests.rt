//! Block requests: the parts of a memory request that act one by one.
ghost use Rattle.std.specs.Prelude.{◌≡◌, ◌+◌, ◌<◌, ◌≤◌, ◌^◌, None};
ghost use Rattle.tlp_core.specs.Operation.{address_of, count_of, op_fault};
ghost use Rattle.op_pieces.specs.Pieces as pieces;
ghost use Rattle.endpoint_core.specs.Steps as spec;
ghost use Rattle.endpoint_core.specs.Blocks as blocks;

use op_pieces::laws::blocks_are_the_request;
use op_pieces::{back, dw_of, dw_to, front};
use seq_memory::{LARGE_BLOCK, ReplyData, perform_lent};
use tlp_core::{Body, Header, OpRef, TlpRef};

/// A request of at most as many bytes as a payload has acts, block by block: they are at most two.
#[tactic(auto, using(crate::proofs::Parts::one_block, crate::proofs::Parts::two_blocks, crate::proofs::Parts::front_sound, crate::proofs::Parts::back_sound))]
pub(crate) fn act_all(base: u64, bytes: &mut [u8], op: &OpRef<'_>, room: &mut ReplyData)
    requires sound { op_fault op.now ≡ None }
    requires few { pieces.dw_of op.now ≤ 32 }
    requires fits { address_of op.now + count_of op.now ≤ 2 ^ 64 }
    ensures { bytes.new ≡ spec.after_all base bytes.old (spec.blocks_of op.now) }
{
    blocks_are_the_request();
    let dw = dw_to(u64::from(LARGE_BLOCK), op.address());
    if dw_of(op) <= dw {
        let _ = perform_lent(base, LARGE_BLOCK, bytes, op, room);
        return;
    }
    let _ = perform_lent(base, LARGE_BLOCK, bytes, &front(dw, op), room);
    let _ = perform_lent(base, LARGE_BLOCK, bytes, &back(dw, op), room);
}

/// How many DW are in a read's first block, if it goes on in the next, and else 0.
pub fn dw_in_front(op: &OpRef<'_>) -> u16
    ensures value { result ≡ spec.dw_in_front op.now }
    ensures range { result ≤ 32 }
{
    match op {
        OpRef::Read { address, dw, .. } => {
            let front = dw_to(u64::from(LARGE_BLOCK), *address);
            if *dw <= front { 0 } else { front }
        }
        _ => 0,
    }
}

/// How many bytes a request's first block has.
pub(crate) fn block_bytes(op: &OpRef<'_>) -> u16
    requires { op_fault op.now ≡ None }
    ensures { result ≡ count_of (spec.first_block op.now) }
{
    let front = dw_in_front(op);
    match op {
        OpRef::Read { dw, .. } if front == 0 => 4 * *dw,
        OpRef::Read { .. } => 4 * front,
        OpRef::Write { bytes, .. } => bytes.as_slice().len() as u16,
        OpRef::FetchAdd { width, .. } | OpRef::Swap { width, .. } | OpRef::Cas { width, .. } => {
            u16::from(width.size())
        }
    }
}

/// Last DW BE of so many DW of which more follow.
fn inner(dw: u16) -> u8
    ensures { result ≡ pieces.inner dw }
{
    if dw == 1 { 0 } else { 15 }
}

fn body_in_front(dw: u16, body: Body) -> Body
    ensures { result ≡ blocks.body_in_front dw body }
{
    match body {
        Body::Request { address, first, .. } => Body::Request {
            address,
            first,
            last: inner(dw),
        },
        other => other,
    }
}

/// The first so many DW of a read.
pub(crate) fn in_front<'r>(dw: u16, read: &TlpRef<'r>) -> TlpRef<'r>
    requires { blocks.IsCut dw read.now }
    ensures { result ≡ blocks.in_front dw read.now }
{
    let header = read.header;
    TlpRef {
        header: Header {
            length: dw,
            body: body_in_front(dw, header.body),
            ..header
        },
        payload: read.payload,
    }
}

/// What is left of a read's body behind so many DW.
pub(crate) fn body_behind(dw: u16, all: u16, body: Body) -> Body
    requires fewer { dw < all }
    requires fits { blocks.EndsInRange body all }
    ensures { result ≡ spec.body_behind dw all body }
{
    match body {
        Body::Request { address, last, .. } => {
            let (first, last) = if all - dw == 1 { (last, 0) } else { (15, last) };
            Body::Request {
                address: address + 4 * u64::from(dw),
                first,
                last,
            }
        }
        other => other,
    }
}
