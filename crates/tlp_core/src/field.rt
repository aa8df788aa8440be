//! The fields of a packet's bytes.
ghost use Rattle.std.specs.Prelude.{◌≡◌, ◌+◌, ◌*◌, ◌/◌, ◌%◌, ◌^◌, ◌<◌, ◌≤◌, length, slice_index};
ghost use Rattle.tlp_core.specs.Layout.{kind_of, header_length, dw_count, address_of, status_of, body_at, length_at, requester_place, or_all};
ghost use Rattle.tlp_core.specs.Bits.{bits};
ghost use Rattle.tlp_core.specs.TlpView.{has_data};

use crate::packet::{Body, Kind, Status};
use byteorder::{BigEndian, ByteOrder};

/// `count` bits of `byte`, the lowest of them bit `low`.
pub(crate) fn bits(byte: u8, low: u32, count: u32) -> u8
    requires low { low < 8 }
    requires count { count < 8 }
    ensures { result ≡ byte / 2 ^ low % 2 ^ count }
{
    (byte >> low) & ((1u8 << count) - 1)
}

pub(crate) fn kind_at(code: u8) -> Option<Kind>
    ensures { result ≡ kind_of code }
{
    match code {
        0x00 | 0x20 => Some(Kind::MemoryRead),
        0x40 | 0x60 => Some(Kind::MemoryWrite),
        0x4C | 0x6C => Some(Kind::FetchAdd),
        0x4D | 0x6D => Some(Kind::Swap),
        0x4E | 0x6E => Some(Kind::Cas),
        0x0A => Some(Kind::Completion),
        0x4A => Some(Kind::CompletionData),
        _ => None,
    }
}

pub(crate) fn carries_data(kind: Kind) -> bool
    ensures { result ≡ has_data kind }
{
    match kind {
        Kind::MemoryRead | Kind::Completion => false,
        Kind::MemoryWrite | Kind::FetchAdd | Kind::Swap | Kind::Cas | Kind::CompletionData => true,
    }
}

/// The bytes of the header.
pub(crate) fn header_len(bytes: &[u8]) -> usize
    requires { 0 < length bytes.now }
    ensures { result ≡ header_length bytes.now }
{
    if bits(bytes[0], 5, 1) == 1 { 16 } else { 12 }
}

/// The length in DWs.
pub(crate) fn dw_at(bytes: &[u8]) -> u16
    requires { 12 ≤ length bytes.now }
    ensures count { result ≡ dw_count bytes.now }
    ensures range { (1 ≤ result) × (result ≤ 1024) }
{
    let dw = u16::from(bits(bytes[2], 0, 2)) * 256 + u16::from(bytes[3]);
    if dw == 0 { 1024 } else { dw }
}

/// The address of a request.
pub(crate) fn address_at(bytes: &[u8]) -> u64
    requires { header_length bytes.now ≤ length bytes.now }
    ensures value { result ≡ address_of bytes.now }
    ensures aligned { result % 4 ≡ 0 }
{
    if header_len(bytes) == 16 {
        BigEndian::read_u64(&bytes[8..]) / 4 * 4
    } else {
        u64::from(BigEndian::read_u32(&bytes[8..])) / 4 * 4
    }
}

pub(crate) fn status_at(code: u8) -> Status
    ensures { result ≡ status_of code }
{
    match code {
        0 => Status::Success,
        4 => Status::Aborted,
        _ => Status::Unsupported,
    }
}

fn byte_count_at(bytes: &[u8]) -> u16
    requires { 12 ≤ length bytes.now }
    ensures { result ≡ or_all 4096 (bits bytes.now 6 0 4 * 256 + slice_index bytes.now 7) }
{
    let count = u16::from(bits(bytes[6], 0, 4)) * 256 + u16::from(bytes[7]);
    if count == 0 { 4096 } else { count }
}

pub(crate) fn body_of(kind: Kind, bytes: &[u8]) -> Body
    requires { header_length bytes.now ≤ length bytes.now }
    ensures { result ≡ body_at kind bytes.now }
{
    match kind {
        Kind::MemoryRead | Kind::MemoryWrite => Body::Request {
            address: address_at(bytes),
            first: bits(bytes[7], 0, 4),
            last: bits(bytes[7], 4, 4),
        },
        Kind::FetchAdd | Kind::Swap | Kind::Cas => Body::Request {
            address: address_at(bytes),
            first: 0,
            last: 0,
        },
        Kind::Completion | Kind::CompletionData => Body::Completion {
            completer: BigEndian::read_u16(&bytes[4..]),
            status: status_at(bits(bytes[6], 5, 3)),
            byte_count: byte_count_at(bytes),
            lower: bits(bytes[11], 0, 7),
        },
    }
}

pub(crate) fn length_of(kind: Kind, bytes: &[u8]) -> u16
    requires { 12 ≤ length bytes.now }
    ensures { result ≡ length_at kind bytes.now }
{
    match kind {
        Kind::Completion => 0,
        _ => dw_at(bytes),
    }
}

pub(crate) fn requester_start(kind: Kind) -> usize
    ensures value { result ≡ requester_place kind }
    ensures range { result ≤ 8 }
{
    match kind {
        Kind::Completion | Kind::CompletionData => 8,
        _ => 4,
    }
}
