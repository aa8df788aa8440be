//! Writing operations and replies.
ghost use Rattle.std.specs.Prelude.{◌≡◌, ◌≤◌, ◌<◌, ◌+◌, ◌*◌, ◌/◌, ◌%◌, ◌++◌, ◌∷◌, [], true, length};
ghost use Rattle.tlp_core.specs.Limits.{max_payload};
ghost use Rattle.std.specs.Fmt.{decimal, digit_glyph};
ghost use Rattle.arrayvec.specs.ArrayString.{array_string_len};
ghost use Rattle.hex.specs.Hex.{encode_upper};
ghost use Rattle.tlp_core.specs.declared.operation.OpOf.TheVariants as ops;
ghost use Rattle.seq_memory.specs.Step.{data_of};
ghost use Rattle.operation_text.specs.Texts.{hexadecimal, octet_text, sequence_text, operand_word, op_text, reply_text};

use arrayvec::ArrayString;
use byteorder::{ByteOrder, LittleEndian};
use hex_text::pair_of;
use seq_memory::ReplyRef;
use seq12::Seq12;
use tlp_core::{OpRef, Width};

/// Adds the digit of a value below 16, in capitals.
#[inline(always)]
fn put_digit(value: u8, out: &mut ArrayString<512>)
    requires value { value < 16 }
    requires room { array_string_len out.old + 1 ≤ 512 }
    ensures text { out.new.bytes ≡ out.old.bytes ++ digit_glyph true value ∷ [] }
    ensures len { array_string_len out.new ≡ array_string_len out.old + 1 }
{
    let digit = if value < 10 {
        b'0' + value
    } else {
        b'A' + (value - 10)
    };
    out.push(char::from(digit));
}

/// Adds the number's digits, which fit. Up to four digits take no call of itself: most addresses of a trace are as short.
fn put_hexadecimal(number: u64, out: &mut ArrayString<512>)
    requires { array_string_len out.old + length (hexadecimal number) ≤ 512 }
    ensures { out.new.bytes ≡ out.old.bytes ++ hexadecimal number }
{
    if number >= 256 {
        let front = number / 256;
        if front < 256 {
            put_byte(front as u8, out);
        } else {
            put_hexadecimal(front, out);
        }
        write_octet((number % 256) as u8, out);
    } else if number >= 16 {
        write_octet(number as u8, out);
    } else {
        put_digit(number as u8, out);
    }
}

/// Adds the number in hexadecimal, in capitals and without leading zeros.
#[tactic(auto, using(crate::proofs::DigitLemmas::short_rules))]
pub fn write_hexadecimal(number: u64, out: &mut ArrayString<512>)
    requires { array_string_len out.old + 16 ≤ 512 }
    ensures text { out.new.bytes ≡ out.old.bytes ++ hexadecimal number }
    ensures len { array_string_len out.new ≤ array_string_len out.old + 16 }
{
    put_hexadecimal(number, out);
}

/// Adds the digit of a number below 10.
#[inline(always)]
#[tactic(auto, using(crate::proofs::DigitLemmas::one_digit))]
fn put_one(number: u8, out: &mut ArrayString<512>)
    requires number { number < 10 }
    requires room { array_string_len out.old + 1 ≤ 512 }
    ensures text { out.new.bytes ≡ out.old.bytes ++ decimal number }
    ensures len { array_string_len out.new ≡ array_string_len out.old + 1 }
{
    out.push(char::from(b'0' + number));
}

/// Adds the two digits of a number below 100.
#[inline(always)]
#[tactic(auto, using(crate::proofs::DigitLemmas::octet_of_two))]
fn put_two(number: u8, out: &mut ArrayString<512>)
    requires number { number < 100 }
    requires room { array_string_len out.old + 2 ≤ 512 }
    ensures text { out.new.bytes ≡ out.old.bytes ++ (48 + number / 10) ∷ (48 + number % 10) ∷ [] }
    ensures len { array_string_len out.new ≡ array_string_len out.old + 2 }
{
    write_octet(number / 10 * 16 + number % 10, out);
}

/// Adds the digits of a number below 100, which fit.
#[inline(always)]
fn put_small(number: u8, out: &mut ArrayString<512>)
    requires number { number < 100 }
    requires room { array_string_len out.old + length (decimal number) ≤ 512 }
    ensures { out.new.bytes ≡ out.old.bytes ++ decimal number }
{
    if number >= 10 {
        put_two(number, out);
    } else {
        put_one(number, out);
    }
}

/// Adds the number's digits, which fit. Up to four digits take no call of itself: most numbers of a trace are as short.
fn put_decimal(number: u64, out: &mut ArrayString<512>)
    requires { array_string_len out.old + length (decimal number) ≤ 512 }
    ensures { out.new.bytes ≡ out.old.bytes ++ decimal number }
{
    if number < 100 {
        put_small(number as u8, out);
        return;
    }
    let front = number / 100;
    if front < 100 {
        put_small(front as u8, out);
    } else {
        put_decimal(front, out);
    }
    put_two((number % 100) as u8, out);
}

/// Adds the number in decimal, without leading zeros.
#[inline(always)]
#[tactic(auto, using(crate::proofs::DigitLemmas::short_decimal))]
pub fn write_decimal(number: u64, out: &mut ArrayString<512>)
    requires { array_string_len out.old + 20 ≤ 512 }
    ensures text { out.new.bytes ≡ out.old.bytes ++ decimal number }
    ensures len { array_string_len out.new ≤ array_string_len out.old + 20 }
{
    if number < 10 {
        put_one(number as u8, out);
    } else {
        put_decimal(number, out);
    }
}

/// Adds the two digits of a byte, in hexadecimal and in capitals.
#[inline(always)]
#[tactic(auto, using(crate::proofs::DigitLemmas::octet_is))]
pub fn write_octet(octet: u8, out: &mut ArrayString<512>)
    requires { array_string_len out.old + 2 ≤ 512 }
    ensures text { out.new.bytes ≡ out.old.bytes ++ octet_text octet }
    ensures len { array_string_len out.new ≡ array_string_len out.old + 2 }
{
    out.push_str(pair_of(octet));
}

/// Adds the three digits of a sequence number, in hexadecimal and in capitals.
pub fn write_sequence(number: Seq12, out: &mut ArrayString<512>)
    requires { array_string_len out.old + 3 ≤ 512 }
    ensures text { out.new.bytes ≡ out.old.bytes ++ sequence_text number }
    ensures len { array_string_len out.new ≡ array_string_len out.old + 3 }
{
    let number = number.value();
    put_digit((number / 256) as u8, out);
    write_octet((number % 256) as u8, out);
}

/// Adds the two digits of each byte, in hexadecimal and in capitals.
pub fn write_bytes(bytes: &[u8], out: &mut ArrayString<512>)
    requires { array_string_len out.old + 2 * length bytes.now ≤ 512 }
    ensures text { out.new.bytes ≡ out.old.bytes ++ encode_upper bytes.now }
    ensures len { array_string_len out.new ≡ array_string_len out.old + 2 * length bytes.now }
{
    for byte in bytes {
        write_octet(*byte, out);
    }
}

/// Adds a space and the two digits of each byte.
#[inline(always)]
fn put_word(bytes: &[u8], out: &mut ArrayString<512>)
    requires { array_string_len out.old + 2 * length bytes.now + 1 ≤ 512 }
    ensures text { out.new.bytes ≡ out.old.bytes ++ 32 ∷ encode_upper bytes.now }
    ensures len { array_string_len out.new ≡ array_string_len out.old + 2 * length bytes.now + 1 }
{
    out.push_str(" ");
    write_bytes(bytes, out);
}

/// Adds a space and the bytes of an operand of that width.
#[inline(always)]
fn put_operand(width: Width, operand: u128, out: &mut ArrayString<512>)
    requires { array_string_len out.old + 33 ≤ 512 }
    ensures text { out.new.bytes ≡ out.old.bytes ++ 32 ∷ operand_word width operand }
    ensures len { array_string_len out.new ≤ array_string_len out.old + 33 }
{
    let mut room = [0u8; 16];
    LittleEndian::write_u128(&mut room, operand);
    put_word(&room[..usize::from(width.size())], out);
}

/// Adds the byte's value in hexadecimal, in capitals and without leading zeros.
#[inline(always)]
#[tactic(auto, using(crate::proofs::DigitLemmas::hexadecimal_one, crate::proofs::DigitLemmas::hexadecimal_octet))]
fn put_byte(value: u8, out: &mut ArrayString<512>)
    requires { array_string_len out.old + 2 ≤ 512 }
    ensures text { out.new.bytes ≡ out.old.bytes ++ hexadecimal value }
    ensures len { array_string_len out.new ≤ array_string_len out.old + 2 }
{
    if value < 16 {
        put_digit(value, out);
    } else {
        write_octet(value, out);
    }
}

/// Adds a space before each of the byte enables.
#[inline(always)]
fn put_enables(first: u8, last: u8, out: &mut ArrayString<512>)
    requires { array_string_len out.old + 34 ≤ 512 }
    ensures text { out.new.bytes ≡ out.old.bytes ++ (32 ∷ hexadecimal first ++ 32 ∷ hexadecimal last) }
    ensures len { array_string_len out.new ≤ array_string_len out.old + 34 }
{
    out.push_str(" ");
    put_byte(first, out);
    out.push_str(" ");
    put_byte(last, out);
}

/// Adds the kind of an operation, with the space behind it, and its address.
#[inline(always)]
fn put_kind_and_address(kind: &str, address: u64, out: &mut ArrayString<512>)
    requires kind { length kind.now ≤ 6 }
    requires room { array_string_len out.old + 22 ≤ 512 }
    ensures text { out.new.bytes ≡ out.old.bytes ++ (kind.now ++ hexadecimal address) }
    ensures len { array_string_len out.new ≤ array_string_len out.old + 22 }
{
    out.push_str(kind);
    write_hexadecimal(address, out);
}

/// Adds a read's text.
#[inline(always)]
fn put_read(address: u64, dw: u16, first: u8, last: u8, out: &mut ArrayString<512>)
    requires { array_string_len out.old + 320 ≤ 512 }
    ensures text { out.new.bytes ≡ out.old.bytes ++ op_text (ops.Read address dw first last) }
    ensures len { array_string_len out.new ≤ array_string_len out.old + 320 }
{
    put_kind_and_address("read ", address, out);
    out.push_str(" ");
    write_decimal(u64::from(dw), out);
    put_enables(first, last, out);
}

/// Adds a write's text.
#[inline(always)]
fn put_write(address: u64, first: u8, last: u8, bytes: &[u8], out: &mut ArrayString<512>)
    requires few { length bytes.now ≤ max_payload }
    requires room { array_string_len out.old + 320 ≤ 512 }
    ensures text { out.new.bytes ≡ out.old.bytes ++ op_text (ops.Write address first last (record { items = bytes.now })) }
    ensures len { array_string_len out.new ≤ array_string_len out.old + 320 }
{
    put_kind_and_address("write ", address, out);
    put_enables(first, last, out);
    put_word(bytes, out);
}

/// Adds the operation's text.
#[inline(always)]
pub fn write_op(op: &OpRef<'_>, out: &mut ArrayString<512>)
    requires { array_string_len out.old + 320 ≤ 512 }
    ensures text { out.new.bytes ≡ out.old.bytes ++ op_text op.now }
    ensures len { array_string_len out.new ≤ array_string_len out.old + 320 }
{
    match op {
        OpRef::Read {
            address,
            dw,
            first,
            last,
        } => put_read(*address, *dw, *first, *last, out),
        OpRef::Write {
            address,
            first,
            last,
            bytes,
        } => put_write(*address, *first, *last, bytes.as_slice(), out),
        OpRef::FetchAdd {
            address,
            width,
            operand,
        } => {
            put_kind_and_address("add ", *address, out);
            put_operand(*width, *operand, out);
        }
        OpRef::Swap {
            address,
            width,
            operand,
        } => {
            put_kind_and_address("swap ", *address, out);
            put_operand(*width, *operand, out);
        }
        OpRef::Cas {
            address,
            width,
            compare,
            swap,
        } => {
            put_kind_and_address("cas ", *address, out);
            put_operand(*width, *compare, out);
            put_operand(*width, *swap, out);
        }
    }
}

/// Adds the text of a reply with that data.
#[inline(always)]
fn put_data(bytes: &[u8], out: &mut ArrayString<512>)
    requires few { length bytes.now ≤ max_payload }
    requires room { array_string_len out.old + 261 ≤ 512 }
    ensures text { out.new.bytes ≡ out.old.bytes ++ reply_text (data_of bytes.now) }
    ensures len { array_string_len out.new ≤ array_string_len out.old + 261 }
{
    out.push_str("data");
    put_word(bytes, out);
}

/// Adds the reply's text.
pub fn write_reply(reply: &ReplyRef<'_>, out: &mut ArrayString<512>)
    requires { array_string_len out.old + 261 ≤ 512 }
    ensures text { out.new.bytes ≡ out.old.bytes ++ reply_text reply.now }
    ensures len { array_string_len out.new ≤ array_string_len out.old + 261 }
{
    match reply {
        ReplyRef::Data(bytes) => put_data(bytes.as_slice(), out),
        ReplyRef::Unsupported => out.push_str("ur"),
        ReplyRef::Aborted => out.push_str("ca"),
        ReplyRef::Done => out.push_str("done"),
    }
}
