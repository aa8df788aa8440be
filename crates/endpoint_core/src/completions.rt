//! Completions with the Completer ID of a device.
ghost use Rattle.std.specs.Prelude.{◌≡◌, ◌≤◌, ◌<◌, ◌⊎◌, [], Option, Some, None, IfSome, IfNone, option_map};
ghost use Rattle.seq_memory.specs.declared.limits.TheConstants as limits;
ghost use Rattle.tlp_core.specs.Ops.{Op};
ghost use Rattle.tlp_core.specs.Operation.{op_of};
ghost use Rattle.seq_memory.specs.Entries.{Reply};
ghost use Rattle.seq_memory.specs.Step.{answer, after};
ghost use Rattle.completer_core.specs.Completion.{byte_count, lower_address, completion_of};
ghost use Rattle.completer_core.specs.Serving.{bytes_after};
ghost use Rattle.endpoint_core.specs.Steps as spec;
ghost use Rattle.endpoint_core.specs.Blocks as blocks;
ghost use Rattle.op_pieces.specs.Pieces as pieces;
ghost use Rattle.endpoint_core.specs.Classes as classes;

use crate::Descriptor;
use crate::classes::descriptor_of;
use crate::requests::in_front;
use completer_core::answer_lent;
use seq_memory::{LARGE_BLOCK, ReplyData};
use tlp_core::{Body, Header, Kind, Status, TlpRef, op_lent};

/// Where the memory of a device begins, and its Completer ID.
#[derive(Clone, Copy)]
pub(crate) struct Place {
    pub(crate) base: u64,
    pub(crate) completer: u16,
}

/// Byte Count and Lower Address of the completions of a request.
#[derive(Clone, Copy)]
struct Counts {
    count: u16,
    lower: u8,
}

/// Byte Count and Lower Address of the completion of a request that asks for one: a memory of no bytes, which refuses each
/// request, says them.
#[tactic(auto, using(crate::proofs::Replies::none_of))]
fn counts_of(request: &TlpRef<'_>) -> Option<Counts>
    ensures count { IfSome result (λ c. c.count ≡ byte_count request.now.kind request.now.body request.now.length) }
    ensures lower { IfSome result (λ c. c.lower ≡ lower_address request.now.kind request.now.body request.now.length) }
    ensures range { IfSome result (λ c. (1 ≤ c.count) × (c.count ≤ 4096) × (c.lower < 128)) }
    ensures none { IfNone result ((op : Op) (r : Reply) → op_of request.now ≡ Some op → completion_of request.now r ≡ None) }
{
    let _op = op_lent(request)?;
    let mut room = ReplyData::new();
    let refused = answer_lent(0, LARGE_BLOCK, &mut [], request, &mut room)?;
    match refused.header.body {
        Body::Completion {
            byte_count,
            lower,
            ..
        } => Some(Counts {
            count: byte_count,
            lower,
        }),
        Body::Request { .. } => None,
    }
}

fn body_counted(completer: u16, counts: Counts, body: Body) -> Body
    ensures { result ≡ blocks.body_counted completer counts.count counts.lower body }
{
    match body {
        Body::Completion { status, .. } => Body::Completion {
            completer,
            status,
            byte_count: counts.count,
            lower: counts.lower,
        },
        other => other,
    }
}

/// The completion with another Completer ID, Byte Count and Lower Address.
#[tactic(auto, using(crate::proofs::Replies::counted_packet))]
fn counted<'r>(completion: TlpRef<'r>, completer: u16, counts: Counts) -> TlpRef<'r>
    requires { (1 ≤ counts.count) × (counts.count ≤ 4096) × (counts.lower < 128) }
    ensures { result ≡ blocks.counted completer counts.count counts.lower completion.entry }
{
    TlpRef {
        header: Header {
            body: body_counted(completer, counts, completion.header.body),
            ..completion.header
        },
        payload: completion.payload,
    }
}

fn body_from(completer: u16, body: Body) -> Body
    ensures { result ≡ spec.body_from completer body }
{
    match body {
        Body::Completion {
            status,
            byte_count,
            lower,
            ..
        } => Body::Completion {
            completer,
            status,
            byte_count,
            lower,
        },
        other => other,
    }
}

/// The completion with another Completer ID.
#[tactic(auto, using(crate::proofs::Replies::from_packet))]
fn from<'r>(completion: TlpRef<'r>, completer: u16) -> TlpRef<'r>
    ensures { result ≡ spec.from completer completion.entry }
{
    TlpRef {
        header: Header {
            body: body_from(completer, completion.header.body),
            ..completion.header
        },
        payload: completion.payload,
    }
}

/// The first so many DW of a read act, and their completion is that of all that is left of it.
#[tactic(auto, using(crate::proofs::Replies::front_completion, crate::proofs::Replies::none_from))]
fn answer_front<'r>(
    place: Place,
    bytes: &mut [u8],
    read: &TlpRef<'_>,
    dw: u16,
    room: &'r mut ReplyData,
) -> Option<TlpRef<'r>>
    requires { blocks.IsCut dw read.now }
    ensures bytes { bytes.new ≡ bytes_after place.base limits.LARGE_BLOCK bytes.old (blocks.in_front dw read.now) }
    ensures completion { (op : Op) → op_of read.now ≡ Some op →
        result ≡ option_map (spec.from place.completer) (completion_of read.now (answer place.base limits.LARGE_BLOCK bytes.old (pieces.front dw op))) }
{
    let completion = answer_lent(place.base, LARGE_BLOCK, bytes, &in_front(dw, read), room)?;
    let counts = counts_of(read)?;
    Some(counted(completion, place.completer, counts))
}

/// The first block of a memory request acts. Its completion is that of all that is left of the request.
pub(crate) fn answer_first<'r>(
    place: Place,
    bytes: &mut [u8],
    request: &TlpRef<'_>,
    dw: u16,
    room: &'r mut ReplyData,
) -> Option<TlpRef<'r>>
    requires { (dw ≡ 0) ⊎ blocks.IsCut dw request.now }
    ensures bytes { (op : Op) → op_of request.now ≡ Some op → spec.dw_in_front op ≡ dw →
        bytes.new ≡ after place.base limits.LARGE_BLOCK bytes.old (spec.first_block op) }
    ensures completion { (op : Op) → op_of request.now ≡ Some op → spec.dw_in_front op ≡ dw →
        result ≡ option_map (spec.from place.completer) (completion_of request.now (answer place.base limits.LARGE_BLOCK bytes.old (spec.first_block op))) }
{
    if dw != 0 {
        return answer_front(place, bytes, request, dw, room);
    }
    let completion = answer_lent(place.base, LARGE_BLOCK, bytes, request, room)?;
    Some(from(completion, place.completer))
}

/// A completion without data.
pub(crate) fn without_data<'r>(
    descriptor: Descriptor,
    completer: u16,
    status: Status,
    count: u16,
) -> TlpRef<'r>
    requires { (1 ≤ count) × (count ≤ 4096) }
    ensures { result ≡ spec.completion_without descriptor completer status count }
{
    TlpRef {
        header: Header {
            kind: Kind::Completion,
            tc: descriptor.tc,
            attr: descriptor.attr,
            length: 0,
            requester: descriptor.requester,
            tag: descriptor.tag,
            body: Body::Completion {
                completer,
                status,
                byte_count: count,
                lower: 0,
            },
        },
        payload: &[],
    }
}

/// A completion with the register's value.
pub(crate) fn with_word<'r>(
    descriptor: Descriptor,
    completer: u16,
    word: u32,
    room: &'r mut [u8; 4],
) -> TlpRef<'r>
    ensures { result ≡ spec.completion_with descriptor completer word }
{
    *room = word.to_le_bytes();
    TlpRef {
        header: Header {
            kind: Kind::CompletionData,
            tc: descriptor.tc,
            attr: descriptor.attr,
            length: 1,
            requester: descriptor.requester,
            tag: descriptor.tag,
            body: Body::Completion {
                completer,
                status: Status::Success,
                byte_count: 4,
                lower: 0,
            },
        },
        payload: room.as_slice(),
    }
}

/// Byte Count of the completion of a memory request that is not supported; none of a completion.
#[tactic(auto, using(crate::proofs::Replies::read_has))]
fn refused_count(request: &TlpRef<'_>) -> Option<u16>
    ensures value { (op : Op) → op_of request.now ≡ Some op → result ≡ Some (spec.refused_count request.now.kind request.now.body request.now.length) }
    ensures range { IfSome result (λ n. (1 ≤ n) × (n ≤ 4096)) }
{
    match request.header.kind {
        Kind::MemoryRead => {
            let counts = counts_of(request)?;
            Some(counts.count)
        }
        _ => Some(4),
    }
}

/// The completion of a memory request that is not supported.
pub(crate) fn refused<'r>(request: &TlpRef<'_>, completer: u16) -> Option<TlpRef<'r>>
    ensures { (op : Op) → op_of request.now ≡ Some op →
        result ≡ Some (spec.completion_without (classes.descriptor_of request.now) completer Status.Unsupported
        (spec.refused_count request.now.kind request.now.body request.now.length)) }
{
    let count = refused_count(request)?;
    Some(without_data(
        descriptor_of(request),
        completer,
        Status::Unsupported,
        count,
    ))
}
