//! One operation on the bytes.
ghost use Rattle.std.specs.Prelude.{◌≡◌, ◌*◌, ◌/◌, ◌^◌, ◌<◌, ◌≤◌, ◌%◌, true, None, if◌then◌else◌, length, replicate};
ghost use Rattle.byteorder.specs.Endian.{little_number, little_bytes};
ghost use Rattle.arrayvec.specs.ArrayVec.{array_vec_len};
ghost use Rattle.tlp_core.specs.Operation.{size_of, count_of, op_fault};
ghost use Rattle.tlp_core.specs.Enables.{enables, dw_enables};
ghost use Rattle.tlp_core.specs.Limits.{max_payload};
ghost use Rattle.seq_memory.specs.NewValue.{FitsWidth};
ghost use Rattle.seq_memory.specs.Limits.{IsBlock};
ghost use Rattle.seq_memory.specs.Step.{merged, changed, place_after, read_back, read_over, after, answer, data_of, IsSizedFor};

use crate::data::ReplyData;
use crate::place::refusal_at;
use crate::{AtomicOp, Refusal, Reply, ReplyRef, apply};
use byteorder::{ByteOrder, LittleEndian};
use tlp_core::{MAX_PAYLOAD, Op, OpRef, Payload, Width, payload_of};

/// The number in the first bytes.
fn number_at(bytes: &[u8], width: Width) -> u128
    requires { size_of width ≤ length bytes.now }
    ensures value { result ≡ little_number (size_of width) bytes.now }
    ensures range { result < 2 ^ (8 * size_of width) }
{
    match width {
        Width::Four => u128::from(LittleEndian::read_u32(bytes)),
        Width::Eight => u128::from(LittleEndian::read_u64(bytes)),
        Width::Sixteen => LittleEndian::read_u128(bytes),
    }
}

/// Writes the number into the place.
fn put_number(place: &mut [u8], width: Width, number: u128)
    requires size { length place.old ≡ size_of width }
    requires range { number < 2 ^ (8 * size_of width) }
    ensures { place.new ≡ little_bytes (size_of width) number }
{
    match width {
        Width::Four => LittleEndian::write_u32(place, number as u32),
        Width::Eight => LittleEndian::write_u64(place, number as u64),
        Width::Sixteen => LittleEndian::write_u128(place, number),
    }
}

/// Does an AtomicOp at its place.
#[inline(always)]
pub(crate) fn change(place: &mut [u8], width: Width, op: AtomicOp)
    requires size { length place.old ≡ size_of width }
    requires operands { FitsWidth op width }
    ensures { place.new ≡ changed width op place.old }
{
    let value = apply(op, number_at(place, width), width);
    put_number(place, width, value);
}

/// Does an AtomicOp at its place, and puts the bytes that were there into the room.
#[inline(always)]
fn exchange<'r>(
    place: &mut [u8],
    width: Width,
    op: AtomicOp,
    room: &'r mut ReplyData,
) -> ReplyRef<'r>
    requires size { length place.old ≡ size_of width }
    requires operands { FitsWidth op width }
    ensures place { place.new ≡ changed width op place.old }
    ensures old { result ≡ data_of place.old }
{
    room.set(place);
    change(place, width, op);
    room.reply()
}

fn chosen(flag: bool, yes: u8, no: u8) -> u8
    ensures { result ≡ (if flag then yes else no) }
{
    if flag { yes } else { no }
}

/// Puts the enabled bytes of a new DW over an old one.
fn merge_dw(old: &mut [u8], new: &[u8], enables: u8)
    requires old { length old.old ≡ 4 }
    requires new { length new.now ≡ 4 }
    ensures { old.new ≡ merged (dw_enables enables) new.now old.old }
{
    old[0] = chosen(enables % 2 == 1, new[0], old[0]);
    old[1] = chosen(enables / 2 % 2 == 1, new[1], old[1]);
    old[2] = chosen(enables / 4 % 2 == 1, new[2], old[2]);
    old[3] = chosen(enables / 8 % 2 == 1, new[3], old[3]);
}

/// Puts new bytes over as many old ones. Of one DW or two that is one move of a number.
#[inline(always)]
pub(crate) fn replace(old: &mut [u8], new: &[u8])
    requires { length old.old ≡ length new.now }
    ensures { old.new ≡ new.now }
{
    match new.len() {
        4 => old[..4].copy_from_slice(&new[..4]),
        8 => old[..8].copy_from_slice(&new[..8]),
        _ => old.copy_from_slice(new),
    }
}

/// Whether all of so many bytes are enabled.
#[inline(always)]
#[tactic(auto, using(crate::proofs::Merges::all_enabled))]
pub(crate) fn are_all_enabled(count: usize, first: u8, last: u8) -> bool
    requires some { 4 ≤ count }
    requires whole { count % 4 ≡ 0 }
    ensures { result ≡ true → enables (count / 4) first last ≡ replicate count true }
{
    first == 15 && (last == 15 || count == 4)
}

/// Puts the enabled bytes of new DW over as many old ones.
pub(crate) fn merge(old: &mut [u8], new: &[u8], first: u8, last: u8)
    requires same { length old.old ≡ length new.now }
    requires some { 4 ≤ length new.now }
    requires whole { length new.now % 4 ≡ 0 }
    ensures { old.new ≡ merged (enables (length new.now / 4) first last) new.now old.old }
{
    if are_all_enabled(new.len(), first, last) {
        replace(old, new);
        return;
    }
    let end = new.len() - 4;
    if end == 0 {
        merge_dw(old, new, first);
        return;
    }
    merge_dw(&mut old[..4], &new[..4], first);
    old[4..end].copy_from_slice(&new[4..end]);
    merge_dw(&mut old[end..], &new[end..], last);
}

pub(crate) const ZEROS: [u8; MAX_PAYLOAD] = [0; MAX_PAYLOAD];

/// The data of a read of these bytes, which are whole DW: 00 where its byte enables, First DW BE and
/// Last DW BE, have none (section 2.2.5).
pub fn enabled_bytes(place: &[u8], first: u8, last: u8) -> Payload
    requires some { 4 ≤ length place.now }
    requires few { length place.now ≤ max_payload }
    requires whole { length place.now % 4 ≡ 0 }
    ensures items { result.items ≡ read_over first last place.now place.now }
    ensures len { array_vec_len result ≡ length place.now }
{
    if are_all_enabled(place.len(), first, last) {
        return payload_of(place);
    }
    let mut data = payload_of(&ZEROS[..place.len()]);
    merge(data.as_mut_slice(), place, first, last);
    data
}

/// A served operation at its place. The data of the reply is put into the room.
#[inline(always)]
fn serve<'r>(place: &mut [u8], op: &OpRef<'_>, room: &'r mut ReplyData) -> ReplyRef<'r>
    requires sound { op_fault op.now ≡ None }
    requires size { length place.old ≡ count_of op.now }
    requires few { length place.old ≤ max_payload }
    ensures place { place.new ≡ place_after op.now place.old }
    ensures reply { result ≡ read_back op.now place.old }
    ensures size { IsSizedFor op.now result }
{
    match op {
        OpRef::Read { first, last, .. } => {
            room.set_enabled(place, *first, *last);
            room.reply()
        }
        OpRef::Write {
            first,
            last,
            bytes,
            ..
        } => {
            merge(place, bytes.as_slice(), *first, *last);
            ReplyRef::Done
        }
        OpRef::FetchAdd { width, operand, .. } => {
            exchange(place, *width, AtomicOp::FetchAdd(*operand), room)
        }
        OpRef::Swap { width, operand, .. } => {
            exchange(place, *width, AtomicOp::Swap(*operand), room)
        }
        OpRef::Cas {
            width,
            compare,
            swap,
            ..
        } => exchange(place, *width, AtomicOp::Cas(*compare, *swap), room),
    }
}

/// One step of the sequential memory whose bytes begin at `base`: does an operation without a fault on
/// `bytes` if it is served, by blocks of `block` bytes, and answers it. The reply's data is put into
/// `room` in place of what that held. Takes no memory.
#[inline(always)]
pub fn perform_lent<'r>(
    base: u64,
    block: u16,
    bytes: &mut [u8],
    op: &OpRef<'_>,
    room: &'r mut ReplyData,
) -> ReplyRef<'r>
    requires block { IsBlock block }
    requires sound { op_fault op.now ≡ None }
    ensures bytes { bytes.new ≡ after base block bytes.old op.now }
    ensures reply { result ≡ answer base block bytes.old op.now }
    ensures size { IsSizedFor op.now result }
{
    let address = op.address();
    let count = op.size();
    match refusal_at(base, block, bytes.len(), address, count) {
        Some(Refusal::Aborted) => ReplyRef::Aborted,
        Some(Refusal::Unsupported) => ReplyRef::Unsupported,
        None => {
            let from = (address - base) as usize;
            serve(&mut bytes[from..from + count as usize], op, room)
        }
    }
}

/// As [`perform_lent`], of any operation: one with a fault is aborted. The reply has data of its own.
#[inline(always)]
pub fn perform(base: u64, block: u16, bytes: &mut [u8], op: &Op) -> Reply
    requires { IsBlock block }
    ensures bytes { bytes.new ≡ after base block bytes.old op.now }
    ensures reply { result ≡ answer base block bytes.old op.now }
    ensures size { IsSizedFor op.now result }
{
    let op = op.lend();
    if op.fault().is_some() {
        return Reply::Aborted;
    }
    let mut room = ReplyData::new();
    perform_lent(base, block, bytes, &op, &mut room).to_owned()
}
