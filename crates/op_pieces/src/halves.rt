//! Two parts of a read or a write: its first DW, and the others.
ghost use Rattle.std.specs.Prelude.{◌≡◌, ◌+◌, ◌*◌, ◌<◌, ◌≤◌, ◌^◌};
ghost use Rattle.seq_memory.specs.declared.limits.TheConstants as limits;
ghost use Rattle.tlp_core.specs.Operation.{address_of, count_of};
ghost use Rattle.op_pieces.specs.Pieces as spec;

use tlp_core::{OpRef, PayloadRef};

/// How many DW a read or a write has; none of an AtomicOp.
pub fn dw_of(op: &OpRef<'_>) -> u16
    ensures { result ≡ spec.dw_of op.now }
{
    match op {
        OpRef::Read { dw, .. } => *dw,
        OpRef::Write { bytes, .. } => (bytes.as_slice().len() / 4) as u16,
        _ => 0,
    }
}

/// How many DW there are from the address to the next multiple of `bytes`, which are at most a large block.
pub fn dw_to(bytes: u64, address: u64) -> u16
    requires some { 4 ≤ bytes }
    requires few { bytes ≤ limits.LARGE_BLOCK }
    ensures value { result ≡ spec.dw_to bytes address }
    ensures range { result ≤ 32 }
{
    ((bytes - address % bytes) / 4) as u16
}

/// The enables of the last of so many DW of which more follow.
fn inner(dw: u16) -> u8
    ensures { result ≡ spec.inner dw }
{
    if dw == 1 { 0 } else { 15 }
}

fn rest_first(dw: u16, last: u8) -> u8
    ensures { result ≡ spec.rest_first dw last }
{
    if dw == 1 { last } else { 15 }
}

fn rest_last(dw: u16, last: u8) -> u8
    ensures { result ≡ spec.rest_last dw last }
{
    if dw == 1 { 0 } else { last }
}

/// The first so many DW. The bytes of a write are lent.
pub fn front<'a>(dw: u16, op: &OpRef<'a>) -> OpRef<'a>
    requires { dw < spec.dw_of op.now }
    ensures { result ≡ spec.front dw op.now }
{
    match op {
        OpRef::Read { address, first, .. } => OpRef::Read {
            address: *address,
            dw,
            first: *first,
            last: inner(dw),
        },
        OpRef::Write {
            address,
            first,
            bytes,
            ..
        } => OpRef::Write {
            address: *address,
            first: *first,
            last: inner(dw),
            bytes: PayloadRef::new(&bytes.as_slice()[..4 * usize::from(dw)]),
        },
        // an AtomicOp has no DW
        _ => unreachable!(),
    }
}

/// All but the first so many DW. The bytes of a write are lent.
pub fn back<'a>(dw: u16, op: &OpRef<'a>) -> OpRef<'a>
    requires fewer { dw < spec.dw_of op.now }
    requires fits { address_of op.now + count_of op.now ≤ 2 ^ 64 }
    ensures value { result ≡ spec.back dw op.now }
    ensures same_end { address_of result + count_of result ≡ address_of op.now + count_of op.now }
{
    match op {
        OpRef::Read {
            address,
            dw: all,
            last,
            ..
        } => {
            let rest = *all - dw;
            OpRef::Read {
                address: *address + 4 * u64::from(dw),
                dw: rest,
                first: rest_first(rest, *last),
                last: rest_last(rest, *last),
            }
        }
        OpRef::Write {
            address,
            last,
            bytes,
            ..
        } => {
            let behind = &bytes.as_slice()[4 * usize::from(dw)..];
            let rest = (behind.len() / 4) as u16;
            OpRef::Write {
                address: *address + 4 * u64::from(dw),
                first: rest_first(rest, *last),
                last: rest_last(rest, *last),
                bytes: PayloadRef::new(behind),
            }
        }
        // an AtomicOp has no DW
        _ => unreachable!(),
    }
}
