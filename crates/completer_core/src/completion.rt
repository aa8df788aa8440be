//! The completion that carries a reply.
ghost use Rattle.std.specs.Prelude.{◌≡◌, ◌*◌, ◌/◌, ◌<◌, ◌≤◌, length, Some};
ghost use Rattle.tlp_core.specs.Ops.{Op};
ghost use Rattle.tlp_core.specs.TlpView.{FitsKind};
ghost use Rattle.tlp_core.specs.Operation.{op_of};
ghost use Rattle.seq_memory.specs.Step.{IsSizedFor};
ghost use Rattle.completer_core.specs.Completion.{byte_count, lower_address, completion, completion_of};

use crate::span;
use seq_memory::{Reply, ReplyRef};
use tlp_core::{Body, Header, Kind, Status, Tlp, TlpRef};

/// The Completer ID of port 0.
const COMPLETER: u16 = 0;

/// Byte Count and Lower Address of a request's completion.
fn counts(request: &TlpRef<'_>, address: u64, first: u8, last: u8) -> (u16, u8)
    requires body { request.now.body ≡ Body.Request address first last }
    ensures count { result.0 ≡ byte_count request.now.kind request.now.body request.now.length }
    ensures lower { result.1 ≡ lower_address request.now.kind request.now.body request.now.length }
    ensures count_range { (1 ≤ result.0) × (result.0 ≤ 4096) }
    ensures lower_range { result.1 < 128 }
{
    let dw = request.header.length;
    match request.header.kind {
        Kind::MemoryRead => (
            span::byte_count(dw, address, first, last),
            span::lower_address(dw, address, first, last),
        ),
        Kind::Cas => (2 * dw, 0),
        _ => (4 * dw, 0),
    }
}

/// The completion with that payload.
#[inline(always)]
fn carry<'r>(
    request: &TlpRef<'_>,
    counts: (u16, u8),
    kind: Kind,
    status: Status,
    payload: &'r [u8],
) -> TlpRef<'r>
    requires count { counts.0 ≡ byte_count request.now.kind request.now.body request.now.length }
    requires lower { counts.1 ≡ lower_address request.now.kind request.now.body request.now.length }
    requires fits { FitsKind kind (Body.Completion 0 status counts.0 counts.1) (length payload.now / 4) (length payload.now) }
    ensures { result ≡ completion request.now kind status payload.now }
{
    let header = Header {
        kind,
        tc: request.header.tc,
        attr: request.header.attr,
        length: (payload.len() / 4) as u16,
        requester: request.header.requester,
        tag: request.header.tag,
        body: Body::Completion {
            completer: COMPLETER,
            status,
            byte_count: counts.0,
            lower: counts.1,
        },
    };
    TlpRef { header, payload }
}

/// The completion of a request with that reply, whose data it lends; none for a posted write.
#[inline(always)]
pub(crate) fn completion_lent<'r>(request: &TlpRef<'_>, reply: &ReplyRef<'r>) -> Option<TlpRef<'r>>
    requires { (op : Op) × (op_of request.now ≡ Some op) × IsSizedFor op reply.now }
    ensures { result ≡ completion_of request.now reply.now }
{
    let Body::Request {
        address,
        first,
        last,
    } = request.header.body
    else {
        return None;
    };
    if matches!(request.header.kind, Kind::MemoryWrite) {
        return None;
    }
    let counts = counts(request, address, first, last);
    match reply {
        ReplyRef::Done => None,
        ReplyRef::Data(bytes) => Some(carry(
            request,
            counts,
            Kind::CompletionData,
            Status::Success,
            bytes.as_slice(),
        )),
        ReplyRef::Unsupported => Some(carry(
            request,
            counts,
            Kind::Completion,
            Status::Unsupported,
            &[],
        )),
        ReplyRef::Aborted => Some(carry(request, counts, Kind::Completion, Status::Aborted, &[])),
    }
}

/// As [`completion_lent`], but the completion has a payload of its own.
#[inline(always)]
pub(crate) fn completion_with(request: &Tlp, reply: &Reply) -> Option<Tlp>
    requires { (op : Op) × (op_of request.now ≡ Some op) × IsSizedFor op reply.now }
    ensures { result ≡ completion_of request.now reply.now }
{
    let completion = completion_lent(&request.lend(), &reply.lend())?;
    Some(completion.to_owned())
}
