//! An operation and a reply whose bytes stand in its fields, or in a list with those of others.
ghost use Rattle.std.specs.Prelude.{ℕ, List, ◌≡◌, ◌+◌, ◌^◌, ◌<◌, ◌≤◌, length, take, drop, IfOk, OnOk};
ghost use Rattle.byteorder.specs.Endian.{little_number};
ghost use Rattle.tlp_core.specs.Operands.{number_of, IsOperand};
ghost use Rattle.tlp_core.specs.Operation.{count_of};
ghost use Rattle.trace_store.specs.Kept.{held, held_in, both_in, op_in, reply_in, IsSize, Holds, HasOp, HasReply, Grows};

use byteorder::{ByteOrder, LittleEndian};
use seq_memory::ReplyRef;
use std::alloc::AllocError;
use tlp_core::{OpRef, PayloadRef, Width, operand_of};

/// Which operation it is, and the width of its operands.
#[derive(Clone, Copy)]
pub(crate) enum OpKind {
    Read,
    Write,
    FetchAdd(Width),
    Swap(Width),
    Cas(Width),
}

/// Which reply it is.
#[derive(Clone, Copy)]
pub(crate) enum ReplyKind {
    Done,
    Data,
    Unsupported,
    Aborted,
}

/// What an operation or a reply has besides its kind. What it has no use for is 0.
#[derive(Clone, Copy)]
pub(crate) struct Fields {
    pub address: u64,
    /// Its bytes, of which there are at most 8, or where they begin in the list. A CAS has its operands
    /// there, one after the other.
    pub room: [u8; 8],
    /// The DW of a read, the bytes of a write or a reply, those in which each operand is kept.
    pub count: u16,
    pub first: u8,
    pub last: u8,
}

/// Of a reply without data.
pub(crate) const EMPTY: Fields = Fields {
    address: 0,
    room: [0; 8],
    count: 0,
    first: 0,
    last: 0,
};

/// So many bytes.
#[inline(always)]
fn part<'a>(bytes: &'a [u8], room: &'a [u8; 8], size: usize) -> &'a [u8]
    requires { Holds bytes.now room.now size }
    ensures value { result.now ≡ held bytes.now room.now size }
    ensures size { length result.now ≡ size }
{
    if size <= 8 {
        return &room[..size];
    }
    let from = LittleEndian::read_u64(room) as usize;
    &bytes[from..from + size]
}

/// The bytes of a write.
#[inline(always)]
pub(crate) fn bytes_of<'a>(bytes: &'a [u8], fields: &'a Fields) -> &'a [u8]
    requires { Holds bytes.now fields.now.room fields.now.count }
    ensures value { result.now ≡ held_in bytes.now fields.now }
    ensures size { length result.now ≡ fields.now.count }
{
    part(bytes, &fields.room, usize::from(fields.count))
}

/// The number in the bytes.
#[inline(always)]
fn number(bytes: &[u8]) -> u128
    requires { IsOperand bytes.now }
    ensures { result ≡ number_of bytes.now }
{
    operand_of(bytes).1
}

/// An operand. Most stand in the room.
#[inline(always)]
#[tactic(auto, using(crate::proofs::Parts::in_room))]
pub(crate) fn operand_in(bytes: &[u8], fields: &Fields) -> u128
    requires size { IsSize fields.now.count }
    requires held { Holds bytes.now fields.now.room fields.now.count }
    ensures { result ≡ number_of (held_in bytes.now fields.now) }
{
    if fields.count == 8 {
        return number(&fields.room);
    }
    number(bytes_of(bytes, fields))
}

/// Two operands.
#[inline(always)]
pub(crate) fn operands_in(bytes: &[u8], fields: &Fields) -> (u128, u128)
    requires size { IsSize fields.now.count }
    requires held { Holds bytes.now fields.now.room (fields.now.count + fields.now.count) }
    ensures first { result.0 ≡ number_of (take fields.now.count (both_in bytes.now fields.now)) }
    ensures second { result.1 ≡ number_of (drop fields.now.count (both_in bytes.now fields.now)) }
{
    let count = usize::from(fields.count);
    let both = part(bytes, &fields.room, count + count);
    (number(&both[..count]), number(&both[count..]))
}

/// How many bytes the operation names, wherever its own stand.
#[inline(always)]
#[tactic(auto, using(crate::proofs::Parts::held_length))]
pub(crate) fn size_in(kind: OpKind, fields: &Fields) -> u32
    ensures { (bytes : List ℕ) → HasOp bytes kind fields.now → result ≡ count_of (op_in bytes kind fields.now) }
{
    match kind {
        OpKind::Read => 4 * u32::from(fields.count),
        OpKind::Write => u32::from(fields.count),
        OpKind::FetchAdd(width) | OpKind::Swap(width) | OpKind::Cas(width) => {
            u32::from(width.size())
        }
    }
}

/// The operation, with its bytes where they stand.
#[inline(always)]
pub(crate) fn op_in<'a>(bytes: &'a [u8], kind: OpKind, fields: &'a Fields) -> OpRef<'a>
    requires { HasOp bytes.now kind fields.now }
    ensures { result ≡ op_in bytes.now kind fields.now }
{
    let address = fields.address;
    match kind {
        OpKind::Read => OpRef::Read {
            address,
            dw: fields.count,
            first: fields.first,
            last: fields.last,
        },
        OpKind::Write => OpRef::Write {
            address,
            first: fields.first,
            last: fields.last,
            bytes: PayloadRef::new(bytes_of(bytes, fields)),
        },
        OpKind::FetchAdd(width) => OpRef::FetchAdd {
            address,
            width,
            operand: operand_in(bytes, fields),
        },
        OpKind::Swap(width) => OpRef::Swap {
            address,
            width,
            operand: operand_in(bytes, fields),
        },
        OpKind::Cas(width) => {
            let (compare, swap) = operands_in(bytes, fields);
            OpRef::Cas {
                address,
                width,
                compare,
                swap,
            }
        }
    }
}

/// The reply, with its bytes where they stand.
#[inline(always)]
pub(crate) fn reply_in<'a>(bytes: &'a [u8], kind: ReplyKind, fields: &'a Fields) -> ReplyRef<'a>
    requires { HasReply bytes.now kind fields.now }
    ensures { result ≡ reply_in bytes.now kind fields.now }
{
    match kind {
        ReplyKind::Done => ReplyRef::Done,
        ReplyKind::Data => { ReplyRef::Data(PayloadRef::new(bytes_of(bytes, fields))) }
        ReplyKind::Unsupported => ReplyRef::Unsupported,
        ReplyKind::Aborted => ReplyRef::Aborted,
    }
}

/// Puts up to 8 bytes into the room. Of one DW or two that is one move of a number.
#[inline(always)]
fn put_few(more: &[u8], room: &mut [u8; 8])
    requires { length more.now ≤ 8 }
    ensures { take (length more.now) room.new ≡ more.now }
{
    match more.len() {
        4 => room[..4].copy_from_slice(&more[..4]),
        8 => room.copy_from_slice(&more[..8]),
        size => room[..size].copy_from_slice(more),
    }
}

/// Puts into the room where the list ends.
#[inline(always)]
fn put_end(bytes: &Vec<u8>, room: &mut [u8; 8])
    ensures { little_number 8 room.new ≡ length bytes.now.items }
{
    LittleEndian::write_u64(room, bytes.len() as u64);
}

/// Puts up to 8 bytes into the room, and more behind the others in the list.
#[inline(always)]
fn put(bytes: &mut Vec<u8>, more: &[u8], room: &mut [u8; 8]) -> Result<(), AllocError>
    ensures items { OnOk result (held bytes.new.items room.new (length more.now) ≡ more.now) }
    ensures fits { OnOk result (Holds bytes.new.items room.new (length more.now)) }
    ensures grows { Grows bytes.old.items bytes.new.items }
{
    if more.len() <= 8 {
        put_few(more, room);
        return Ok(());
    }
    put_end(bytes, room);
    bytes.extend_from_slice(more)
}

/// In how many bytes a number is kept: as few as its value needs, whatever its operation's width.
#[inline(always)]
fn size_for(number: u128) -> usize
    ensures size { IsSize result }
    ensures fits { number < 256 ^ result }
{
    if number < 1 << 32 {
        4
    } else if number < 1 << 64 {
        8
    } else {
        16
    }
}

/// Writes the number into the place.
#[inline(always)]
fn spell(place: &mut [u8], number: u128)
    requires size { IsOperand place.old }
    requires fits { number < 256 ^ length place.old }
    ensures { number_of place.new ≡ number }
{
    match place.len() {
        4 => LittleEndian::write_u32(place, number as u32),
        8 => LittleEndian::write_u64(place, number as u64),
        _ => LittleEndian::write_u128(place, number),
    }
}

/// Writes two numbers of so many bytes each into the place.
#[inline(always)]
fn spell_both(place: &mut [u8], size: usize, first: u128, second: u128)
    requires size { IsSize size }
    requires place { length place.old ≡ size + size }
    requires first { first < 256 ^ size }
    requires second { second < 256 ^ size }
    ensures first { number_of (take size place.new) ≡ first }
    ensures second { number_of (drop size place.new) ≡ second }
{
    spell(&mut place[..size], first);
    spell(&mut place[size..], second);
}

/// Keeps an operand, in the room if it is below 2^64.
#[inline(always)]
#[tactic(auto, using(crate::proofs::Parts::in_room))]
fn put_operand(bytes: &mut Vec<u8>, operand: u128, fields: &mut Fields) -> Result<(), AllocError>
    ensures number { OnOk result (number_of (held_in bytes.new.items fields.new) ≡ operand) }
    ensures size { OnOk result (IsSize fields.new.count) }
    ensures fits { OnOk result (Holds bytes.new.items fields.new.room fields.new.count) }
    ensures grows { Grows bytes.old.items bytes.new.items }
    ensures address { fields.new.address ≡ fields.old.address }
{
    if operand < 1 << 64 {
        fields.count = 8;
        spell(&mut fields.room, operand);
        return Ok(());
    }
    let mut spelled = [0; 16];
    spell(&mut spelled, operand);
    fields.count = 16;
    put(bytes, &spelled, &mut fields.room)
}

/// Keeps two operands, one after the other in as many bytes each.
#[inline(always)]
fn put_both(
    bytes: &mut Vec<u8>,
    first: u128,
    second: u128,
    fields: &mut Fields,
) -> Result<(), AllocError>
    ensures first { OnOk result (number_of (take fields.new.count (both_in bytes.new.items fields.new)) ≡ first) }
    ensures second { OnOk result (number_of (drop fields.new.count (both_in bytes.new.items fields.new)) ≡ second) }
    ensures size { OnOk result (IsSize fields.new.count) }
    ensures fits { OnOk result (Holds bytes.new.items fields.new.room (fields.new.count + fields.new.count)) }
    ensures grows { Grows bytes.old.items bytes.new.items }
    ensures address { fields.new.address ≡ fields.old.address }
{
    let size = size_for(first.max(second));
    let mut room = [0; 32];
    let spelled = &mut room[..size + size];
    spell_both(spelled, size, first, second);
    fields.count = size as u16;
    put(bytes, spelled, &mut fields.room)
}

/// Keeps the operation: its fields, and its bytes there or behind the others in the list.
#[inline(always)]
pub(crate) fn keep_op(
    bytes: &mut Vec<u8>,
    op: &OpRef<'_>,
    fields: &mut Fields,
) -> Result<OpKind, AllocError>
    ensures kept { IfOk result (λ kind. op_in bytes.new.items kind fields.new ≡ op.now) }
    ensures fits { IfOk result (λ kind. HasOp bytes.new.items kind fields.new) }
    ensures grows { Grows bytes.old.items bytes.new.items }
{
    fields.address = op.address();
    match op {
        OpRef::Read {
            dw,
            first,
            last,
            ..
        } => {
            fields.count = *dw;
            fields.first = *first;
            fields.last = *last;
            Ok(OpKind::Read)
        }
        OpRef::Write {
            first,
            last,
            bytes: written,
            ..
        } => {
            let written = written.as_slice();
            fields.count = written.len() as u16;
            fields.first = *first;
            fields.last = *last;
            put(bytes, written, &mut fields.room)?;
            Ok(OpKind::Write)
        }
        OpRef::FetchAdd { width, operand, .. } => {
            put_operand(bytes, *operand, fields)?;
            Ok(OpKind::FetchAdd(*width))
        }
        OpRef::Swap { width, operand, .. } => {
            put_operand(bytes, *operand, fields)?;
            Ok(OpKind::Swap(*width))
        }
        OpRef::Cas {
            width,
            compare,
            swap,
            ..
        } => {
            put_both(bytes, *compare, *swap, fields)?;
            Ok(OpKind::Cas(*width))
        }
    }
}

/// Keeps the reply: its data there or behind the other bytes in the list.
#[inline(always)]
pub(crate) fn keep_reply(
    bytes: &mut Vec<u8>,
    reply: &ReplyRef<'_>,
    fields: &mut Fields,
) -> Result<ReplyKind, AllocError>
    ensures kept { IfOk result (λ kind. reply_in bytes.new.items kind fields.new ≡ reply.now) }
    ensures fits { IfOk result (λ kind. HasReply bytes.new.items kind fields.new) }
    ensures grows { Grows bytes.old.items bytes.new.items }
{
    match reply {
        ReplyRef::Done => Ok(ReplyKind::Done),
        ReplyRef::Data(told) => {
            let told = told.as_slice();
            fields.count = told.len() as u16;
            put(bytes, told, &mut fields.room)?;
            Ok(ReplyKind::Data)
        }
        ReplyRef::Unsupported => Ok(ReplyKind::Unsupported),
        ReplyRef::Aborted => Ok(ReplyKind::Aborted),
    }
}
