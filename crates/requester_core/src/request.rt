//! The request for an operation.
ghost use Rattle.std.specs.Prelude.{◌≡◌, ◌*◌, ◌<◌, ◌≤◌, ◌++◌, ◌+◌, None, Some, IfOk, length};
ghost use Rattle.tlp_core.specs.Limits.{max_payload};
ghost use Rattle.byteorder.specs.Endian.{little_bytes};
ghost use Rattle.arrayvec.specs.ArrayVec.{array_vec_len};
ghost use Rattle.tlp_core.specs.Operation.{size_of, op_fault, op_of};
ghost use Rattle.requester_core.specs.Request as requests;

use arrayvec::ArrayVec;
use tlp_core::{Body, Kind, OpRef, Payload, Tlp, TlpFault, Width};

/// Whose request it is, under which tag, and with which Traffic Class and attributes.
#[derive(Clone, Copy)]
pub struct Origin {
    /// Requester ID.
    pub requester: u16,
    pub tag: u8,
    /// 0 to 7.
    pub tc: u8,
    /// 0 to 7.
    pub attr: u8,
}

fn kind_for(op: &OpRef<'_>) -> Kind
    ensures { result ≡ requests.kind_for op.now }
{
    match op {
        OpRef::Read { .. } => Kind::MemoryRead,
        OpRef::Write { .. } => Kind::MemoryWrite,
        OpRef::FetchAdd { .. } => Kind::FetchAdd,
        OpRef::Swap { .. } => Kind::Swap,
        OpRef::Cas { .. } => Kind::Cas,
    }
}

/// Length, in DW.
fn length_for(op: &OpRef<'_>) -> u16
    ensures { result ≡ requests.length_for op.now }
{
    match op {
        OpRef::Read { dw, .. } => *dw,
        OpRef::Write { bytes, .. } => (bytes.as_slice().len() / 4) as u16,
        OpRef::FetchAdd { width, .. } | OpRef::Swap { width, .. } => u16::from(width.size() / 4),
        OpRef::Cas { width, .. } => u16::from(width.size() / 2),
    }
}

/// First DW BE and Last DW BE.
fn enables_for(op: &OpRef<'_>) -> (u8, u8)
    ensures first { result.0 ≡ requests.first_for op.now }
    ensures last { result.1 ≡ requests.last_for op.now }
{
    match op {
        OpRef::Read { first, last, .. } | OpRef::Write { first, last, .. } => (*first, *last),
        OpRef::FetchAdd { .. } | OpRef::Swap { .. } | OpRef::Cas { .. } => (0, 0),
    }
}

/// Adds an operand's bytes.
fn put_operand(payload: &mut Payload, width: Width, operand: u128)
    requires { array_vec_len payload.old ≤ 16 }
    ensures items { payload.new.items ≡ payload.old.items ++ little_bytes (size_of width) operand }
    ensures len { array_vec_len payload.new ≡ array_vec_len payload.old + size_of width }
{
    let bytes = operand.to_le_bytes();
    let _ = payload.try_extend_from_slice(&bytes[..usize::from(width.size())]);
}

fn payload_for(op: &OpRef<'_>) -> Payload
    ensures items { result.items ≡ requests.payload_for op.now }
    ensures range { length result.items ≤ max_payload }
{
    let mut payload = ArrayVec::new();
    match op {
        OpRef::Read { .. } => {}
        OpRef::Write { bytes, .. } => {
            let _ = payload.try_extend_from_slice(bytes.as_slice());
        }
        OpRef::FetchAdd { width, operand, .. } | OpRef::Swap { width, operand, .. } => {
            put_operand(&mut payload, *width, *operand);
        }
        OpRef::Cas {
            width,
            compare,
            swap,
            ..
        } => {
            put_operand(&mut payload, *width, *compare);
            put_operand(&mut payload, *width, *swap);
        }
    }
    payload
}

/// The request for an operation without a fault.
fn sound_request(op: &OpRef<'_>, origin: Origin) -> Tlp
    requires sound { op_fault op.now ≡ None }
    requires tc { origin.tc < 8 }
    requires attr { origin.attr < 8 }
    ensures value { result ≡ requests.request op.now origin }
    ensures asks { op_of result ≡ Some op.now }
{
    let (first, last) = enables_for(op);
    Tlp {
        kind: kind_for(op),
        tc: origin.tc,
        attr: origin.attr,
        length: length_for(op),
        requester: origin.requester,
        tag: origin.tag,
        body: Body::Request {
            address: op.address(),
            first,
            last,
        },
        payload: payload_for(op),
    }
}

/// The request for an operation, or the first fault of the operation, of which there is no request.
/// Takes no memory.
pub fn request_with(op: &OpRef<'_>, origin: Origin) -> Result<Tlp, TlpFault>
    requires tc { origin.tc < 8 }
    requires attr { origin.attr < 8 }
    ensures value { result ≡ requests.unless (op_fault op.now) (requests.request op.now origin) }
    ensures asks { IfOk result (λ t. op_of t ≡ Some op.now) }
{
    match op.fault() {
        Some(fault) => Err(fault),
        None => Ok(sound_request(op, origin)),
    }
}

/// The request of a port for an operation without a fault, under that tag.
pub(crate) fn request_for(port: u8, tag: u8, op: &OpRef<'_>) -> Tlp
    requires port { port < 256 }
    requires sound { op_fault op.now ≡ None }
    ensures value { result ≡ requests.request_for port tag op.now }
    ensures asks { op_of result ≡ Some op.now }
{
    let origin = Origin {
        requester: u16::from(port) * 256,
        tag,
        tc: 0,
        attr: 0,
    };
    sound_request(op, origin)
}
