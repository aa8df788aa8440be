//! Bytes to packets.
//!
//! The faults of any header are tested before those of a kind, each in the order of [`TlpFault`].
ghost use Rattle.std.specs.Prelude.{◌≡◌, ◌+◌, ◌*◌, ◌/◌, ◌%◌, ◌^◌, ◌<◌, ◌≤◌, ◌==◌, ◌||◌, length, slice_index, IfOk, IfErr};
ghost use Rattle.tlp_core.specs.Enables.{are_enables};
ghost use Rattle.tlp_core.specs.Layout.{kind_of, header_length, Spells};
ghost use Rattle.tlp_core.specs.TlpView.{TlpView};
ghost use Rattle.tlp_core.specs.Faults.{first_of, first_fault, header_faults, kind_faults, breaks_enables, breaks_size, breaks_alignment, promised, reading};

use crate::fault::TlpFault;
use crate::field;
use crate::packet::{Header, Kind, MAX_PAYLOAD, Tlp, TlpRef};
use byteorder::{BigEndian, ByteOrder};

/// The kind, or the first fault of any header.
#[inline(always)]
fn header(bytes: &[u8]) -> Result<Kind, TlpFault>
    ensures kind { IfOk result (λ kind. kind_of (slice_index bytes.now 0) ≡ Some kind) }
    ensures whole { IfOk result (λ kind. header_length bytes.now ≤ length bytes.now) }
    ensures sound { IfOk result (λ kind. first_of header_faults bytes.now ≡ None) }
    ensures fault { IfErr result (λ f. first_of header_faults bytes.now ≡ Some f) }
{
    if bytes.len() < 12 || bytes.len() < field::header_len(bytes) {
        return Err(TlpFault::Short);
    }
    if field::bits(bytes[0], 5, 3) == 4 {
        return Err(TlpFault::Prefix);
    }
    let Some(kind) = field::kind_at(bytes[0]) else {
        return Err(TlpFault::Kind);
    };
    if field::bits(bytes[1], 7, 1) == 1 || field::bits(bytes[1], 3, 1) == 1 {
        return Err(TlpFault::TenBitTag);
    }
    if field::bits(bytes[1], 1, 1) == 1 || field::bits(bytes[1], 0, 1) == 1 {
        return Err(TlpFault::Hints);
    }
    if field::bits(bytes[2], 7, 1) == 1 {
        return Err(TlpFault::Digest);
    }
    if field::bits(bytes[2], 6, 1) == 1 {
        return Err(TlpFault::Poisoned);
    }
    if field::bits(bytes[2], 2, 2) != 0 {
        return Err(TlpFault::Translated);
    }
    Ok(kind)
}

/// The enabled bytes of the first DW end at its top, with no gap.
fn runs_to_top(first: u8) -> bool
    ensures { result ≡ ((first == 8) || (first == 12) || (first == 14) || (first == 15)) }
{
    matches!(first, 0x8 | 0xC | 0xE | 0xF)
}

/// The enabled bytes of the last DW begin at its bottom, with no gap.
fn runs_from_bottom(last: u8) -> bool
    ensures { result ≡ ((last == 1) || (last == 3) || (last == 7) || (last == 15)) }
{
    matches!(last, 0x1 | 0x3 | 0x7 | 0xF)
}

/// Whether the enables are those of a read or write.
#[tactic(auto, using(crate::proofs::Runs::kept, crate::proofs::Grammar::one_value))]
pub(crate) fn keeps_enables(dw: u16, address: u64, first: u8, last: u8) -> bool
    requires dw { 1 ≤ dw }
    requires first { first < 16 }
    requires last { last < 16 }
    ensures { result ≡ are_enables dw address first last }
{
    if dw == 1 {
        return last == 0;
    }
    if first == 0 || last == 0 {
        return false;
    }
    if runs_to_top(first) && runs_from_bottom(last) {
        return true;
    }
    dw == 2 && address % 8 == 0
}

fn wrong_enables(kind: Kind, dw: u16, address: u64, enables: u8) -> bool
    requires dw { 1 ≤ dw }
    ensures { result ≡ breaks_enables kind dw address (enables % 16) (enables / 16 % 16) }
{
    match kind {
        Kind::MemoryRead | Kind::MemoryWrite => !keeps_enables(
            dw,
            address,
            field::bits(enables, 0, 4),
            field::bits(enables, 4, 4),
        ),
        _ => false,
    }
}

fn wrong_size(kind: Kind, dw: u16) -> bool
    ensures { result ≡ breaks_size dw kind }
{
    match kind {
        Kind::FetchAdd | Kind::Swap => !matches!(dw, 1 | 2),
        Kind::Cas => !matches!(dw, 2 | 4 | 8),
        _ => false,
    }
}

fn wrong_alignment(kind: Kind, dw: u16, address: u64) -> bool
    requires { 1 ≤ dw }
    ensures { result ≡ breaks_alignment address dw kind }
{
    match kind {
        Kind::FetchAdd | Kind::Swap => address % (4 * u64::from(dw)) != 0,
        Kind::Cas => address % (2 * u64::from(dw)) != 0,
        _ => false,
    }
}

/// The first fault of the kind.
#[inline(always)]
fn kind_fault(kind: Kind, bytes: &[u8]) -> Option<TlpFault>
    requires kind { kind_of (slice_index bytes.now 0) ≡ Some kind }
    requires whole { header_length bytes.now ≤ length bytes.now }
    ensures { result ≡ first_of kind_faults bytes.now }
{
    let dw = field::dw_at(bytes);
    let address = field::address_at(bytes);
    let promised = if field::carries_data(kind) {
        4 * usize::from(dw)
    } else {
        0
    };
    if bytes.len() - field::header_len(bytes) != promised {
        return Some(TlpFault::LengthMismatch);
    }
    if field::carries_data(kind) && usize::from(dw) > MAX_PAYLOAD / 4 {
        return Some(TlpFault::PayloadTooLong);
    }
    if wrong_enables(kind, dw, address, bytes[7]) {
        return Some(TlpFault::ByteEnables);
    }
    if wrong_size(kind, dw) {
        return Some(TlpFault::OperandSize);
    }
    if wrong_alignment(kind, dw, address) {
        return Some(TlpFault::Unaligned);
    }
    None
}

/// The packet that the bytes spell, or the first of their faults, in the order of [`TlpFault`]. Its
/// payload is that part of the bytes.
///
/// Bits that the tables of section 2.2 leave free or that this profile ignores may have any value,
/// and a header of 4 DW may carry an address below 2^32. Takes no memory.
#[inline(always)]
pub fn decode_lent(bytes: &[u8]) -> Result<TlpRef<'_>, TlpFault>
    ensures reading { result ≡ reading bytes.now }
    ensures spelled { IfOk result (λ t. Spells bytes.now t) }
    ensures only { (t : TlpView) → Spells bytes.now t → result ≡ Ok t }
    ensures fault { IfErr result (λ f. first_fault bytes.now ≡ Some f) }
{
    let kind = header(bytes)?;
    if let Some(fault) = kind_fault(kind, bytes) {
        return Err(fault);
    }
    let requester = field::requester_start(kind);
    let header = Header {
        kind,
        tc: field::bits(bytes[1], 4, 3),
        attr: field::bits(bytes[1], 2, 1) * 4 + field::bits(bytes[2], 4, 2),
        length: field::length_of(kind, bytes),
        requester: BigEndian::read_u16(&bytes[requester..]),
        tag: bytes[requester + 2],
        body: field::body_of(kind, bytes),
    };
    let payload = &bytes[field::header_len(bytes)..];
    Ok(TlpRef { header, payload })
}

/// As [`decode_lent`], but the packet has a payload of its own.
#[inline(always)]
pub fn decode(bytes: &[u8]) -> Result<Tlp, TlpFault>
    ensures reading { result ≡ reading bytes.now }
    ensures spelled { IfOk result (λ t. Spells bytes.now t) }
    ensures only { (t : TlpView) → Spells bytes.now t → result ≡ Ok t }
    ensures fault { IfErr result (λ f. first_fault bytes.now ≡ Some f) }
{
    match decode_lent(bytes) {
        Ok(tlp) => Ok(tlp.to_owned()),
        Err(fault) => Err(fault),
    }
}
