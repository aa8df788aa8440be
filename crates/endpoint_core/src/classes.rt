//! Which TLP it is.
ghost use Rattle.std.specs.Prelude.{◌≡◌, ◌≤◌, ◌==◌, ◌&&◌, Ok, length, not, slice_index, true};
ghost use Rattle.config_core.specs.Layout.{is_kind, reading as cfg_reading};
ghost use Rattle.tlp_core.specs.Faults.{reading};
ghost use Rattle.tlp_core.specs.Layout.{dw_count};
ghost use Rattle.endpoint_core.specs.Classes as spec;

use crate::received::{Descriptor, LONGEST, Malformed, PacketRoom, Received};
use byteorder::{BigEndian, ByteOrder};
use config_core::{CfgRequest, Noted};
use tlp_core::{Body, Kind, MAX_PAYLOAD, TlpFault, TlpRef};

/// Fmt and Type, where a locked completion is a completion.
fn plain_code(code: u8) -> u8
    ensures { result ≡ spec.plain_code code }
{
    match code {
        0x0B => 0x0A,
        0x4B => 0x4A,
        _ => code,
    }
}

/// Byte 1 without what a receiver ignores there.
fn plain_hints(bytes: &[u8]) -> u8
    requires { 12 ≤ length bytes.now }
    ensures { result ≡ spec.plain_hints bytes.now }
{
    let hints = bytes[1];
    let tc = hints / 16 % 8 * 16;
    if is_configuration(bytes[0]) {
        tc
    } else {
        tc + hints / 4 % 2 * 4
    }
}

/// A memory read.
fn is_read(code: u8) -> bool
    ensures { result ≡ spec.is_read code }
{
    matches!(code, 0x00 | 0x20)
}

/// Byte 7, in place of a read's Steering Tag the enables of all its bytes.
fn plain_enables(bytes: &[u8]) -> u8
    requires { 12 ≤ length bytes.now }
    ensures { result ≡ spec.plain_enables bytes.now }
{
    if !is_read(bytes[0]) || bytes[1] % 2 == 0 {
        return bytes[7];
    }
    if dw_at(bytes) == 1 { 0x0F } else { 0xFF }
}

/// The bytes without what a receiver ignores, and without a digest.
#[tactic(auto, using(crate::proofs::Plain::as_it_is))]
fn plain<'r>(bytes: &'r [u8], room: &'r mut PacketRoom) -> &'r [u8]
    requires some { 12 ≤ length bytes.now }
    requires few { length bytes.now ≤ 148 }
    ensures { result.now ≡ spec.plain bytes.now }
{
    let code = plain_code(bytes[0]);
    let hints = plain_hints(bytes);
    let byte = bytes[2];
    if byte / 64 == 0 && hints == bytes[1] && code == bytes[0] {
        return bytes;
    }
    let end = if byte / 128 == 1 {
        bytes.len() - 4
    } else {
        bytes.len()
    };
    let enables = plain_enables(bytes);
    let place = &mut room.bytes[..end];
    place.copy_from_slice(&bytes[..end]);
    place[0] = code;
    place[1] = hints;
    place[2] = byte % 64;
    place[7] = enables;
    place
}

fn is_poisoned(bytes: &[u8]) -> bool
    requires { 12 ≤ length bytes.now }
    ensures { result ≡ spec.is_poisoned bytes.now }
{
    bytes[0] / 64 % 2 == 1 && bytes[2] / 64 % 2 == 1
}

/// Length, in DW.
fn dw_at(bytes: &[u8]) -> u16
    requires { 4 ≤ length bytes.now }
    ensures { result ≡ dw_count bytes.now }
{
    match u16::from(bytes[2] % 4) * 256 + u16::from(bytes[3]) {
        0 => 1024,
        dw => dw,
    }
}

/// A read or a write across a multiple of 4096.
fn crosses(packet: &TlpRef<'_>) -> bool
    ensures { result ≡ spec.crosses packet.now }
{
    let Body::Request { address, .. } = packet.header.body else {
        return false;
    };
    match packet.header.kind {
        Kind::MemoryRead | Kind::MemoryWrite => {
            address % 4096 + 4 * u64::from(packet.header.length) > 4096
        }
        _ => false,
    }
}

/// What a completion repeats of a memory request.
pub(crate) fn descriptor_of(packet: &TlpRef<'_>) -> Descriptor
    ensures { result ≡ spec.descriptor_of packet.now }
{
    let header = packet.header;
    Descriptor {
        tc: header.tc,
        attr: header.attr,
        requester: header.requester,
        tag: header.tag,
    }
}

fn by_kind(packet: TlpRef<'_>) -> Received<'_>
    ensures { result ≡ spec.by_kind packet.entry.kind packet.entry }
{
    match packet.header.kind {
        Kind::MemoryWrite => Received::Posted(packet),
        Kind::Completion | Kind::CompletionData => Received::Unexpected,
        _ => Received::NonPosted(packet),
    }
}

fn poisoned_by_kind(packet: TlpRef<'_>) -> Received<'_>
    ensures { result ≡ spec.poisoned_by_kind packet.entry.kind packet.entry }
{
    match packet.header.kind {
        Kind::MemoryWrite => Received::PoisonedPosted(packet),
        Kind::Completion | Kind::CompletionData => Received::Unexpected,
        _ => Received::PoisonedNonPosted(packet),
    }
}

/// A memory request, or a completion.
fn of_packet(poisoned: bool, bytes: &[u8]) -> Received<'_>
    ensures { result ≡ spec.of_packet poisoned (reading bytes.now) }
{
    let packet = match tlp_core::decode_lent(bytes) {
        Ok(packet) => packet,
        Err(fault) => return Received::Malformed(Malformed::Packet(fault)),
    };
    if crosses(&packet) {
        return Received::Malformed(Malformed::Boundary);
    }
    if poisoned {
        return poisoned_by_kind(packet);
    }
    by_kind(packet)
}

/// A request's descriptor: TC and attributes are 0.
pub(crate) fn descriptor_for(request: &CfgRequest) -> Descriptor
    ensures { result ≡ spec.descriptor_for request.now }
{
    Descriptor {
        tc: 0,
        attr: 0,
        requester: request.requester,
        tag: request.tag,
    }
}

/// Of Type 0, to function 0.
pub(crate) fn is_supported(request: &CfgRequest) -> bool
    ensures { result ≡ spec.is_supported request.now }
{
    !request.is_type_1 && request.function == 0
}

/// A poisoned configuration request.
fn poisoned_configuration<'a>(request: &CfgRequest) -> Received<'a>
    ensures { result ≡ spec.of_configuration true (Ok request.now) }
{
    let error = if is_supported(request) {
        Noted::Poisoned
    } else {
        Noted::Refused
    };
    Received::Refused(descriptor_for(request), error)
}

fn of_configuration<'a>(poisoned: bool, bytes: &[u8]) -> Received<'a>
    ensures { result ≡ spec.of_configuration poisoned (cfg_reading bytes.now) }
{
    match config_core::decode(bytes) {
        Err(fault) => Received::Malformed(Malformed::Configuration(fault)),
        Ok(request) if poisoned => poisoned_configuration(&request),
        Ok(request) => Received::Configuration(request),
    }
}

fn malformed<'a>(fault: TlpFault) -> Received<'a>
    ensures { result ≡ Received.Malformed (Malformed.Packet fault) }
{
    Received::Malformed(Malformed::Packet(fault))
}

fn descriptor_at(bytes: &[u8]) -> Descriptor
    requires { 12 ≤ length bytes.now }
    ensures { result ≡ spec.descriptor_at bytes.now }
{
    Descriptor {
        tc: bytes[1] / 16 % 8,
        attr: bytes[1] / 4 % 2 * 4 + bytes[2] / 16 % 4,
        requester: BigEndian::read_u16(&bytes[4..]),
        tag: bytes[6],
    }
}

/// An I/O request.
fn of_io<'a>(bytes: &[u8]) -> Received<'a>
    ensures { result ≡ spec.of_io bytes.now }
{
    if bytes.len() < 12 {
        return malformed(TlpFault::Short);
    }
    let size = if bytes[0] == 0x42 { 16 } else { 12 };
    if bytes.len() != size || dw_at(bytes) != 1 {
        return malformed(TlpFault::LengthMismatch);
    }
    Received::Refused(descriptor_at(bytes), Noted::Refused)
}

fn is_ignored(code: u8) -> bool
    ensures { result ≡ spec.is_ignored code }
{
    matches!(
        code,
        0x00 | 0x40 | 0x41 | 0x43 | 0x44 | 0x45 | 0x47 | 0x48 | 0x50 | 0x7F
    )
}

/// The bytes of data that a message's Length promises.
fn message_data(bytes: &[u8]) -> u16
    requires { 4 ≤ length bytes.now }
    ensures { result ≡ spec.message_data bytes.now }
{
    if bytes[0] / 8 == 14 {
        4 * dw_at(bytes)
    } else {
        0
    }
}

fn of_message<'a>(poisoned: bool, bytes: &[u8]) -> Received<'a>
    ensures { result ≡ spec.of_message poisoned bytes.now }
{
    if bytes.len() < 16 {
        return malformed(TlpFault::Short);
    }
    let data = message_data(bytes);
    if bytes.len() - 16 != usize::from(data) {
        return malformed(TlpFault::LengthMismatch);
    }
    if usize::from(data) > MAX_PAYLOAD {
        return malformed(TlpFault::PayloadTooLong);
    }
    if !is_ignored(bytes[7]) {
        return Received::Unsupported(Noted::Unclaimed);
    }
    if poisoned {
        Received::Unsupported(Noted::Dropped)
    } else {
        Received::Ignored
    }
}

fn is_configuration(code: u8) -> bool
    ensures { result ≡ is_kind code }
{
    matches!(code, 0x04 | 0x05 | 0x44 | 0x45)
}

fn is_io(code: u8) -> bool
    ensures { result ≡ spec.is_io code }
{
    matches!(code, 0x02 | 0x42)
}

fn is_message(code: u8) -> bool
    ensures { result ≡ spec.is_message code }
{
    matches!(code / 8, 6 | 14)
}

fn of_plain(poisoned: bool, bytes: &[u8]) -> Received<'_>
    requires { 8 ≤ length bytes.now }
    ensures { result ≡ spec.of_plain poisoned bytes.now }
{
    let code = bytes[0];
    if is_configuration(code) {
        return of_configuration(poisoned, bytes);
    }
    if is_io(code) {
        return of_io(bytes);
    }
    if is_message(code) {
        return of_message(poisoned, bytes);
    }
    of_packet(poisoned, bytes)
}

/// What becomes of the bytes of a TLP. A TLP with a digest, or a poisoned one, is read in the room. Takes no memory.
pub fn receive<'r>(bytes: &'r [u8], room: &'r mut PacketRoom) -> Received<'r>
    ensures becomes { result ≡ spec.becomes bytes.now }
{
    if bytes.len() > LONGEST {
        return malformed(TlpFault::PayloadTooLong);
    }
    if bytes.len() < 12 {
        return malformed(TlpFault::Short);
    }
    let poisoned = is_poisoned(bytes);
    of_plain(poisoned, plain(bytes, room))
}

/// Whether poisoned data comes in the TLP of which this becomes.
pub(crate) fn carries_poison(bytes: &[u8], received: &Received<'_>) -> bool
    requires { received.now ≡ spec.becomes bytes.now }
    ensures { result ≡ spec.carries_poison bytes.now }
{
    if matches!(received, Received::Malformed(_)) || bytes.len() < 12 {
        return false;
    }
    is_poisoned(bytes)
}
