//! The fields of a TLP as numbers.
ghost use Rattle.std.specs.Prelude.{◌≡◌, ◌≤◌, take, drop, Ok, IsOk, IsErr};
ghost use Rattle.tlp_core.specs.TlpView.{TlpView};
ghost use Rattle.tlp_core.specs.Faults.{reading};
ghost use Rattle.tlp_core.specs.Layout.{status_code};
ghost use Rattle.c_packets.specs.Fields.{fields_of, in_fields};

use c_buffer::Failure;
use tlp_core::{Body, Status, TlpRef, decode_lent, short_code};

/// The fields of a TLP. Those that its kind lacks are 0.
#[repr(C)]
#[derive(Clone, Copy)]
pub struct TlpFields {
    /// Of a request: a multiple of 4.
    pub address: u64,
    /// Where the payload begins in the packet's bytes: behind a header of 12 or 16.
    pub payload_start: u32,
    /// How many bytes the payload has, 0 to 128.
    pub payload_length: u32,
    /// Length in DW, 1 to 1024; 0 in a completion without data.
    pub length: u16,
    /// Requester ID.
    pub requester: u16,
    /// Of a completion: Completer ID.
    pub completer: u16,
    /// Of a completion: Byte Count, 1 to 4096.
    pub byte_count: u16,
    /// Fmt and Type, as in byte 0 of a packet whose header has 3 DW.
    pub kind: u8,
    /// Traffic Class, 0 to 7.
    pub tc: u8,
    /// Attributes, 0 to 7: IDO 4, RO 2, NS 1.
    pub attr: u8,
    pub tag: u8,
    /// Of a read or a write: First DW BE.
    pub first: u8,
    /// Of a read or a write: Last DW BE.
    pub last: u8,
    /// Of a completion: Completion Status, 0, 1 or 4.
    pub status: u8,
    /// Of a completion: Lower Address.
    pub lower: u8,
}

/// Completion Status.
fn status_code(status: Status) -> u8
    ensures { result ≡ status_code status }
{
    match status {
        Status::Success => 0,
        Status::Unsupported => 1,
        Status::Aborted => 4,
    }
}

/// The fields of a packet whose payload begins at that place.
fn fields_of(tlp: &TlpRef<'_>, payload_start: usize) -> TlpFields
    requires { payload_start ≤ 16 }
    ensures { result ≡ fields_of payload_start tlp.now }
{
    let header = tlp.header;
    let mut fields = TlpFields {
        address: 0,
        payload_start: payload_start as u32,
        payload_length: tlp.payload.len() as u32,
        length: header.length,
        requester: header.requester,
        completer: 0,
        byte_count: 0,
        kind: short_code(header.kind),
        tc: header.tc,
        attr: header.attr,
        tag: header.tag,
        first: 0,
        last: 0,
        status: 0,
        lower: 0,
    };
    match header.body {
        Body::Request {
            address,
            first,
            last,
        } => {
            fields.address = address;
            fields.first = first;
            fields.last = last;
        }
        Body::Completion {
            completer,
            status,
            byte_count,
            lower,
        } => {
            fields.completer = completer;
            fields.status = status_code(status);
            fields.byte_count = byte_count;
            fields.lower = lower;
        }
    }
    fields
}

/// Puts the fields of the TLP that the bytes spell into `fields`. If the bytes have a fault, its number
/// is the failure, and the fields stay as they were.
pub fn decode_tlp(packet: &[u8], fields: &mut TlpFields) -> Result<(), Failure>
    ensures outcome { result ≡ (in_fields packet.now fields.old).outcome }
    ensures fields { fields.new ≡ (in_fields packet.now fields.old).fields }
    ensures payload { IsOk result →
        (t : TlpView) × (reading packet.now ≡ Ok t) × (t.payload ≡ take fields.new.payload_length (drop fields.new.payload_start packet.now)) }
    ensures unchanged { IsErr result → fields.new ≡ fields.old }
{
    match decode_lent(packet) {
        Ok(tlp) => {
            *fields = fields_of(&tlp, packet.len() - tlp.payload.len());
            Ok(())
        }
        Err(fault) => Err(Failure::Fault(fault.number())),
    }
}
