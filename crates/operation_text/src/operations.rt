//! The text of operations.
ghost use Rattle.std.specs.Prelude.{◌≡◌, option_map};
ghost use Rattle.std.specs.Result.{result_ok};
ghost use Rattle.operation_text.specs.Words.{words, words_behind, first_field};
ghost use Rattle.operation_text.specs.Operations as spelled;

use crate::fields::{alone, bytes, number, operand, split_word};
use crate::misfit::{BYTES, Expected, Misfit};
use tlp_core::{MAX_PAYLOAD, OpRef, PayloadRef};

/// An operation, by its first word.
pub const OPERATION: Expected = Expected::Of("an operation", "read, write, add, swap, cas");

const ADDRESS: Expected = Expected::Of(
    "an address",
    "hexadecimal, 0 to FFFFFFFFFFFFFFFF, without leading zeros",
);

const DW: Expected = Expected::Between("a number of DW", 1, 1024);

const FIRST: Expected = Expected::Of("the First DW BE", "0 to F");

const LAST: Expected = Expected::Of("the Last DW BE", "0 to F");

const OPERAND: Expected = Expected::Of(
    "an operand",
    "two hexadecimal digits a byte, 4, 8 or 16 bytes",
);

const SWAP_OPERAND: Expected = Expected::Of("an operand", "of as many bytes as the compare value");

/// The address that the next word spells.
#[inline(always)]
fn address(rest: Option<&[u8]>) -> Result<(u64, Option<&[u8]>), Misfit>
    ensures { first_field spelled.address (words_behind rest.entry) ≡ option_map (λ s. (s.0, words_behind s.1)) (result_ok result) }
{
    number(rest, 16, u64::MAX, ADDRESS)
}

#[inline(always)]
fn count(rest: Option<&[u8]>) -> Result<(u16, Option<&[u8]>), Misfit>
    ensures { first_field spelled.count (words_behind rest.entry) ≡ option_map (λ s. (s.0, words_behind s.1)) (result_ok result) }
{
    let (dw, rest) = number(rest, 10, 65535, DW)?;
    Ok((dw as u16, rest))
}

#[inline(always)]
fn enables(rest: Option<&[u8]>, expected: Expected) -> Result<(u8, Option<&[u8]>), Misfit>
    ensures { first_field spelled.enables (words_behind rest.entry) ≡ option_map (λ s. (s.0, words_behind s.1)) (result_ok result) }
{
    let (enables, rest) = number(rest, 16, 15, expected)?;
    Ok((enables as u8, rest))
}

#[inline(always)]
fn read<'r>(rest: Option<&[u8]>) -> Result<OpRef<'r>, Misfit>
    ensures { result_ok result ≡ spelled.read_of (words_behind rest.entry) }
{
    let (address, rest) = address(rest)?;
    let (dw, rest) = count(rest)?;
    let (first, rest) = enables(rest, FIRST)?;
    let (last, rest) = enables(rest, LAST)?;
    let op = OpRef::Read {
        address,
        dw,
        first,
        last,
    };
    alone(op, rest)
}

#[inline(always)]
fn write<'r>(rest: Option<&[u8]>, room: &'r mut [u8; MAX_PAYLOAD]) -> Result<OpRef<'r>, Misfit>
    ensures { result_ok result ≡ spelled.write_of (words_behind rest.entry) }
{
    let (address, rest) = address(rest)?;
    let (first, rest) = enables(rest, FIRST)?;
    let (last, rest) = enables(rest, LAST)?;
    let (bytes, rest) = bytes(rest, BYTES, room)?;
    let op = OpRef::Write {
        address,
        first,
        last,
        bytes: PayloadRef::new(bytes),
    };
    alone(op, rest)
}

#[inline(always)]
fn add<'r>(rest: Option<&[u8]>) -> Result<OpRef<'r>, Misfit>
    ensures { result_ok result ≡ spelled.add_of (words_behind rest.entry) }
{
    let (address, rest) = address(rest)?;
    let ((width, operand), rest) = operand(rest, OPERAND)?;
    let op = OpRef::FetchAdd {
        address,
        width,
        operand,
    };
    alone(op, rest)
}

#[inline(always)]
fn swap<'r>(rest: Option<&[u8]>) -> Result<OpRef<'r>, Misfit>
    ensures { result_ok result ≡ spelled.swap_of (words_behind rest.entry) }
{
    let (address, rest) = address(rest)?;
    let ((width, operand), rest) = operand(rest, OPERAND)?;
    let op = OpRef::Swap {
        address,
        width,
        operand,
    };
    alone(op, rest)
}

#[inline(always)]
fn cas<'r>(rest: Option<&[u8]>) -> Result<OpRef<'r>, Misfit>
    ensures { result_ok result ≡ spelled.cas_of (words_behind rest.entry) }
{
    let (address, rest) = address(rest)?;
    let ((width, compare), rest) = operand(rest, OPERAND)?;
    let ((other, swap), behind) = operand(rest, SWAP_OPERAND)?;
    if width.size() != other.size() {
        return Err(SWAP_OPERAND.at(rest));
    }
    let op = OpRef::Cas {
        address,
        width,
        compare,
        swap,
    };
    alone(op, behind)
}

/// The operation of that kind that the rest of a line spells.
#[inline(always)]
fn op_by<'r>(
    kind: &[u8],
    rest: Option<&[u8]>,
    text: &[u8],
    room: &'r mut [u8; MAX_PAYLOAD],
) -> Result<OpRef<'r>, Misfit>
    ensures { result_ok result ≡ spelled.op_by kind.now (words_behind rest.entry) }
{
    if kind == b"read".as_slice() {
        read(rest)
    } else if kind == b"write".as_slice() {
        write(rest, room)
    } else if kind == b"add".as_slice() {
        add(rest)
    } else if kind == b"swap".as_slice() {
        swap(rest)
    } else if kind == b"cas".as_slice() {
        cas(rest)
    } else {
        Err(OPERATION.at(Some(text)))
    }
}

/// The operation that the text spells, whatever its first word is.
#[inline(never)]
fn any_op<'r>(text: &[u8], room: &'r mut [u8; MAX_PAYLOAD]) -> Result<OpRef<'r>, Misfit>
    ensures { result_ok result ≡ spelled.op_spelled (words text.now) }
{
    let (kind, rest) = split_word(text);
    op_by(kind, rest, text, room)
}

/// The operation that the text spells: the bytes of a write are put into the room, whose content doesn't count.
#[inline(always)]
pub fn read_op<'r>(text: &[u8], room: &'r mut [u8; MAX_PAYLOAD]) -> Result<OpRef<'r>, Misfit>
    ensures { result_ok result ≡ spelled.op_spelled (words text.now) }
{
    match text {
        [b'r', b'e', b'a', b'd', b' ', rest @ ..] => read(Some(rest)),
        [b'w', b'r', b'i', b't', b'e', b' ', rest @ ..] => write(Some(rest), room),
        [b'a', b'd', b'd', b' ', rest @ ..] => add(Some(rest)),
        [b's', b'w', b'a', b'p', b' ', rest @ ..] => swap(Some(rest)),
        [b'c', b'a', b's', b' ', rest @ ..] => cas(Some(rest)),
        _ => any_op(text, room),
    }
}

/// As [`read_op`], of the rest of a line; none where there is no rest. `rest` is what [`split_word`]
/// left.
#[inline(always)]
pub fn op_behind<'r>(
    rest: Option<&[u8]>,
    room: &'r mut [u8; MAX_PAYLOAD],
) -> Result<OpRef<'r>, Misfit>
    ensures { result_ok result ≡ spelled.op_spelled (words_behind rest.entry) }
{
    match rest {
        Some(text) => read_op(text, room),
        None => Err(OPERATION.at(rest)),
    }
}
