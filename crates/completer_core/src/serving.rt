//! Requests at the memory.
ghost use Rattle.std.specs.Prelude.{◌≡◌, Some, None, IfOk, OnOk, OnErr, option_map};
ghost use Rattle.tlp_core.specs.Operation.{op_of, op_fault};
ghost use Rattle.seq_memory.specs.Limits.{IsBlock};
ghost use Rattle.flow_control.specs.Needs.{need_of};
ghost use Rattle.completer_core.specs.Serving.{after_serving, completion_to, bytes_after, completion_over};

use crate::completion::{completion_lent, completion_with};
use flow_control::Need;
use seq_memory::{Entry, Keeper, Memory, Refusal, ReplyData, perform_lent};
use std::alloc::AllocError;
use tlp_core::{Op, Tlp, TlpRef, op_lent, op_of};

/// Lets the request act on the memory under that number, and gives its completion; none for a
/// posted write. A request that is aborted or unsupported changes no byte, and stands in the
/// history all the same. Fails only where the history can't grow, and then changes nothing; a
/// completion in place of a request does nothing.
#[inline(always)]
pub fn serve<K: Keeper>(
    memory: &mut Memory<K>,
    request: &Tlp,
    number: u32,
) -> Result<Option<Tlp>, AllocError>
    ensures memory { OnOk result (memory.new ≡ after_serving memory.old request.now number) }
    ensures completion { IfOk result (λ c. c ≡ completion_to memory.old request.now) }
    ensures err { OnErr result (memory.new ≡ memory.old) }
{
    let Some(op) = op_of(request) else {
        return Ok(None);
    };
    serve_op(memory, request, op, number)
}

/// What [`serve`] does for a request whose operation was taken out of it.
#[inline(always)]
pub fn serve_op<K: Keeper>(
    memory: &mut Memory<K>,
    request: &Tlp,
    op: Op,
    number: u32,
) -> Result<Option<Tlp>, AllocError>
    requires { op_of request.now ≡ Some op }
    ensures memory { OnOk result (memory.new ≡ after_serving memory.old request.now number) }
    ensures completion { IfOk result (λ c. c ≡ completion_to memory.old request.now) }
    ensures err { OnErr result (memory.new ≡ memory.old) }
{
    let requester = (request.requester / 256) as u8;
    let reply = memory.act(Entry {
        requester,
        number,
        op,
    })?;
    Ok(completion_with(request, &reply))
}

/// Answers a request over bytes that the caller keeps, whose first has the address `base`, by blocks
/// of `block` bytes, 64 or 128: the bytes and the completion are those that [`serve`] would leave and
/// give over the same bytes, and no history is kept. The completion's payload is lent from `room`,
/// and what that held counts for nothing. A completion in place of a request does nothing. Takes no
/// memory.
#[inline(always)]
pub fn answer_lent<'r>(
    base: u64,
    block: u16,
    bytes: &mut [u8],
    request: &TlpRef<'_>,
    room: &'r mut ReplyData,
) -> Option<TlpRef<'r>>
    requires { IsBlock block }
    ensures bytes { bytes.new ≡ bytes_after base block bytes.old request.now }
    ensures completion { result ≡ completion_over base block bytes.old request.now }
{
    let op = op_lent(request)?;
    let reply = perform_lent(base, block, bytes, &op, room);
    completion_lent(request, &reply)
}

/// As [`answer_lent`], but the completion has a payload of its own.
#[inline(always)]
pub fn answer(base: u64, block: u16, bytes: &mut [u8], request: &Tlp) -> Option<Tlp>
    requires { IsBlock block }
    ensures bytes { bytes.new ≡ bytes_after base block bytes.old request.now }
    ensures completion { result ≡ completion_over base block bytes.old request.now }
{
    let mut room = ReplyData::new();
    let completion = answer_lent(base, block, bytes, &request.lend(), &mut room)?;
    Some(completion.to_owned())
}

/// What the request's completion would take of the credits, if it acted now; none for a posted
/// write (section 2.6.1). Takes no memory.
pub fn need_to_answer<K: Keeper>(memory: &Memory<K>, request: &Tlp) -> Option<Need>
    ensures { result ≡ option_map need_of (completion_to memory.now request.now) }
{
    let op = op_of(request)?;
    need_for(memory, request, &op)
}

/// What [`need_to_answer`] gives for a request whose operation was taken out of it.
pub fn need_for<K: Keeper>(memory: &Memory<K>, request: &Tlp, op: &Op) -> Option<Need>
    requires asks { op_of request.now ≡ Some op.now }
    requires sound { op_fault op.now ≡ None }
    ensures { result ≡ option_map need_of (completion_to memory.now request.now) }
{
    if op.is_posted() {
        return None;
    }
    Some(match memory.refusal(op) {
        None => Need::completion(op.size() as u16),
        Some(Refusal::Aborted | Refusal::Unsupported) => Need::completion(0),
    })
}
