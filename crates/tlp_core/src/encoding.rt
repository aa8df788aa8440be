//! Packets to bytes: the one canonical spelling of each.
ghost use Rattle.std.specs.Prelude.{◌≡◌, ◌+◌, ◌*◌, ◌/◌, ◌%◌, ◌^◌, ◌<◌, ◌≤◌, ◌++◌, ◌∷◌, [], true, false, length, take, if◌then◌else◌, nat_lt};
ghost use Rattle.arrayvec.specs.ArrayVec.{array_vec_len};
ghost use Rattle.byteorder.specs.Endian.{big_bytes};
ghost use Rattle.tlp_core.specs.Layout.{canonical, short_code, code_of, status_code, rest_of_header, Spells};
ghost use Rattle.tlp_core.specs.Limits.{max_payload};
ghost use Rattle.tlp_core.specs.Operation.{is_completion};
ghost use Rattle.tlp_core.specs.TlpView.{FitsFields, IsBodyInRange};

use crate::packet::{Body, Header, Kind, MAX_PAYLOAD, Status, Tlp, TlpRef};
use arrayvec::ArrayVec;
use byteorder::{BigEndian, ByteOrder};

/// The most bytes that a packet has: a header of 16 and the greatest payload.
pub const MAX_TLP: usize = MAX_HEADER + MAX_PAYLOAD;

/// The most bytes that a header has.
const MAX_HEADER: usize = 16;

fn put(out: &mut ArrayVec<u8, MAX_HEADER>, bytes: &[u8])
    requires { array_vec_len out.old + length bytes.now ≤ 16 }
    ensures items { out.new.items ≡ out.old.items ++ bytes.now }
    ensures len { array_vec_len out.new ≡ array_vec_len out.old + length bytes.now }
{
    let _ = out.try_extend_from_slice(bytes);
}

fn put_u16(out: &mut ArrayVec<u8, MAX_HEADER>, number: u16)
    requires { array_vec_len out.old + 2 ≤ 16 }
    ensures items { out.new.items ≡ out.old.items ++ big_bytes 2 number }
    ensures len { array_vec_len out.new ≡ array_vec_len out.old + 2 }
{
    let mut bytes = [0; 2];
    BigEndian::write_u16(&mut bytes, number);
    put(out, &bytes);
}

fn put_address(out: &mut ArrayVec<u8, MAX_HEADER>, address: u64)
    requires { array_vec_len out.old + 8 ≤ 16 }
    ensures items { out.new.items ≡ out.old.items ++ (if nat_lt address (2 ^ 32) then big_bytes 4 address else big_bytes 8 address) }
    ensures len { array_vec_len out.new ≤ array_vec_len out.old + 8 }
{
    if address < 0x1_0000_0000 {
        put(out, &(address as u32).to_be_bytes());
    } else {
        put(out, &address.to_be_bytes());
    }
}

/// Fmt and Type of a header with a 32-bit address.
pub fn short_code(kind: Kind) -> u8
    ensures value { result ≡ short_code kind }
    ensures range { result < 0x60 }
{
    match kind {
        Kind::MemoryRead => 0x00,
        Kind::MemoryWrite => 0x40,
        Kind::FetchAdd => 0x4C,
        Kind::Swap => 0x4D,
        Kind::Cas => 0x4E,
        Kind::Completion => 0x0A,
        Kind::CompletionData => 0x4A,
    }
}

fn first_byte(kind: Kind, body: Body) -> u8
    ensures { result ≡ code_of kind body }
{
    let code = short_code(kind);
    match body {
        Body::Request { address, .. } if address >= 0x1_0000_0000 => code + 32,
        _ => code,
    }
}

fn status_bits(status: Status) -> u8
    ensures value { result ≡ status_code status }
    ensures range { result < 8 }
{
    match status {
        Status::Success => 0,
        Status::Unsupported => 1,
        Status::Aborted => 4,
    }
}

/// The bytes of a completion's header behind the first 4.
#[inline(always)]
fn completion_rest(ids: (u16, u16), tag: u8, status: Status, byte_count: u16, lower: u8) -> [u8; 8]
    requires count { byte_count ≤ 4096 }
    ensures { result ≡ rest_of_header ids.1 tag (Body.Completion ids.0 status byte_count lower) }
{
    let completer = ids.0.to_be_bytes();
    let requester = ids.1.to_be_bytes();
    [
        completer[0],
        completer[1],
        status_bits(status) * 32 + (byte_count % 4096 / 256) as u8,
        (byte_count % 256) as u8,
        requester[0],
        requester[1],
        tag,
        lower,
    ]
}

/// The bytes of a header behind the first 4.
#[inline(always)]
fn put_rest(out: &mut ArrayVec<u8, MAX_HEADER>, requester: u16, tag: u8, body: Body)
    requires room { array_vec_len out.old + 12 ≤ 16 }
    requires fits { FitsFields body }
    ensures items { out.new.items ≡ out.old.items ++ rest_of_header requester tag body }
    ensures len { array_vec_len out.new ≤ array_vec_len out.old + 12 }
    ensures ranges { (requester < 2 ^ 16) × (tag < 2 ^ 8) × IsBodyInRange body }
{
    match body {
        Body::Request {
            address,
            first,
            last,
        } => {
            put_u16(out, requester);
            put(out, &[tag, last * 16 + first]);
            put_address(out, address);
        }
        Body::Completion {
            completer,
            status,
            byte_count,
            lower,
        } => put(
            out,
            &completion_rest((completer, requester), tag, status, byte_count, lower),
        ),
    }
}

/// The first 4 bytes of a header.
#[inline(always)]
fn front(header: &Header) -> [u8; 4]
    requires tc { header.now.tc < 8 }
    requires attr { header.now.attr < 8 }
    ensures { result ≡ code_of header.now.kind header.now.body ∷ (header.now.tc * 16 + header.now.attr / 4 * 4) ∷
        (header.now.attr % 4 * 16 + header.now.length % 1024 / 256) ∷ (header.now.length % 256) ∷ [] }
{
    [
        first_byte(header.kind, header.body),
        header.tc * 16 + header.attr / 4 * 4,
        header.attr % 4 * 16 + (header.length % 1024 / 256) as u8,
        (header.length % 256) as u8,
    ]
}

/// The canonical bytes of the packet's header.
#[tactic(auto, using(crate::proofs::Canon::fields_fit))]
#[inline(always)]
fn header_bytes(tlp: &TlpRef<'_>) -> ArrayVec<u8, MAX_HEADER>
    ensures bytes { canonical tlp.now ≡ result.items ++ tlp.now.payload }
    ensures spelled { Spells (canonical tlp.now) tlp.now }
    ensures len { array_vec_len result ≤ 16 }
{
    let header = tlp.header;
    let mut out = ArrayVec::new();
    put(&mut out, &front(&header));
    put_rest(&mut out, header.requester, header.tag, header.body);
    out
}

/// How many bytes a completion's header has, whatever it says.
pub const COMPLETION_HEADER: usize = 12;

/// Puts the canonical bytes of a completion's header there, which its payload follows, and says whether the
/// packet is a completion: a request changes nothing. So the payload need not be copied behind it first.
#[tactic(auto, using(crate::proofs::Canon::fields_fit, crate::proofs::Room::fits_room))]
#[inline(always)]
pub fn put_completion_header(packet: &TlpRef<'_>, room: &mut [u8; COMPLETION_HEADER]) -> bool
    ensures value { result ≡ is_completion packet.now.kind }
    ensures bytes { result ≡ true → canonical packet.now ≡ room.new ++ packet.now.payload }
    ensures few { result ≡ true → length packet.now.payload ≤ max_payload }
    ensures kept { result ≡ false → room.new ≡ room.old }
{
    let header = packet.header;
    let Body::Completion {
        completer,
        status,
        byte_count,
        lower,
    } = header.body
    else {
        return false;
    };
    let [code, traffic, high, low] = front(&header);
    let rest = completion_rest(
        (completer, header.requester),
        header.tag,
        status,
        byte_count,
        lower,
    );
    *room = [
        code, traffic, high, low, rest[0], rest[1], rest[2], rest[3], rest[4], rest[5], rest[6],
        rest[7],
    ];
    true
}

/// Fills the buffer with the canonical bytes of the packet, whatever it held: the header of 3 DW
/// for an address below 2^32, and zeros in all bits that a reader ignores. Takes no memory.
#[inline(always)]
pub fn encode(tlp: &Tlp, out: &mut ArrayVec<u8, MAX_TLP>)
    ensures bytes { out.new.items ≡ canonical tlp.now }
    ensures spelled { Spells (canonical tlp.now) tlp.now }
{
    let header = header_bytes(&tlp.lend());
    out.clear();
    let _ = out.try_extend_from_slice(&header);
    let _ = out.try_extend_from_slice(&tlp.payload);
}

/// As [`encode`], but puts the bytes to the front of `out`, and gives their number.
#[tactic(auto, using(crate::proofs::Room::fits_room))]
#[inline(always)]
pub fn encode_lent(tlp: &TlpRef<'_>, out: &mut [u8; MAX_TLP]) -> usize
    ensures bytes { take result out.new ≡ canonical tlp.now }
    ensures spelled { Spells (canonical tlp.now) tlp.now }
    ensures few { result ≤ 144 }
{
    let header = header_bytes(tlp);
    let start = header.len();
    let end = start + tlp.payload.len();
    out[..start].copy_from_slice(&header);
    out[start..end].copy_from_slice(tlp.payload);
    end
}
