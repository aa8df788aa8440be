//! What a request leaves.
ghost use Rattle.std.specs.Prelude.{◌≡◌, ◌≢◌, ◌+◌, ◌-◌, ◌<◌, ◌≤◌, ◌⊎◌, ℕ, true, None, IfNone, IfSome, List, length, IsTrue, slice_index};
ghost use Rattle.tlp_core.specs.Limits.{max_payload};
ghost use Rattle.tlp_core.specs.Operation.{address_of, count_of, size_of};
ghost use Rattle.seq_memory.specs.Limits.{IsBlock};
ghost use Rattle.seq_memory.specs.declared.reply.ReplyOf.TheVariants as replies;
ghost use Rattle.tlp_core.specs.declared.operation.OpOf.TheVariants as ops;
ghost use Rattle.seq_memory.specs.Step.{refusal, after, answer};
ghost use Rattle.search_effects.specs.Effects as effects;
ghost use Rattle.search_effects.specs.Effects.{Agrees, told_of};

use crate::act;
use crate::laws::what_is_not_put_stays;
use crate::ranges::is_put;
use seq_memory::ReplyRef;
use seq_memory::laws::{only_the_place_changes, refused_and_read_change_nothing};
use tlp_core::{OpRef, Payload, PayloadRef, Width, payload_of};

/// What an operation leaves of the bytes at its place. They are copied here, and not by `payload_of`, so that they aren't
/// moved.
#[inline(always)]
pub(crate) fn changed(block: u16, op: &OpRef<'_>, old: &[u8]) -> Payload
    requires block { IsBlock block }
    requires few { length old.now ≤ max_payload }
    ensures { result.items ≡ after (address_of op.now) block old.now op.now }
{
    let mut new = Payload::new();
    let _ = new.try_extend_from_slice(old);
    act(op.address(), block, new.as_mut_slice(), op);
    new
}

pub(crate) fn is_atomic(op: &OpRef<'_>) -> bool
    ensures { result ≡ effects.is_atomic op.now }
{
    match op {
        OpRef::Read { .. } | OpRef::Write { .. } => false,
        _ => true,
    }
}

/// What an AtomicOp leaves where it was answered with those bytes.
fn left_by_atomic(block: u16, op: &OpRef<'_>, old: &PayloadRef<'_>) -> Payload
    requires { IsBlock block }
    ensures { (base at : ℕ) (m : List ℕ) → at < length result.items → refusal base (length m) block op.now ≡ None →
        answer base block m op.now ≡ replies.Data old.now →
        slice_index (after base block m op.now) (address_of op.now - base + at) ≡ slice_index result.items at }
{
    only_the_place_changes();
    if !is_atomic(op) {
        return Payload::new();
    }
    changed(block, op, old.as_slice())
}

/// As many zeros as an operand has bytes.
fn zeros(width: Width) -> Payload
    ensures { length result.items ≡ size_of width }
{
    let zeros = [0u8; 16];
    payload_of(&zeros[..usize::from(width.size())])
}

/// What a Swap leaves, whatever it meets.
fn left_by_swap(block: u16, op: &OpRef<'_>, width: Width) -> Payload
    requires block { IsBlock block }
    requires swap { (a : ℕ) × (x : ℕ) × (op.now ≡ ops.Swap a width x) }
    ensures { (base at : ℕ) (m : List ℕ) → at < length result.items → refusal base (length m) block op.now ≡ None →
        slice_index (after base block m op.now) (address_of op.now - base + at) ≡ slice_index result.items at }
{
    only_the_place_changes();
    let zeros = zeros(width);
    changed(block, op, zeros.as_slice())
}

/// What a request leaves, if that is the same whatever it meets: a write or a Swap.
fn left_by_write(block: u16, op: &OpRef<'_>) -> Payload
    requires { IsBlock block }
    ensures { (base at : ℕ) (m : List ℕ) → at < length result.items → effects.is_put op.now at ≡ true → refusal base (length m) block op.now ≡ None →
        slice_index (after base block m op.now) (address_of op.now - base + at) ≡ slice_index result.items at }
{
    only_the_place_changes();
    match op {
        OpRef::Write { bytes, .. } => payload_of(bytes.as_slice()),
        OpRef::Swap { width, .. } => left_by_swap(block, op, *width),
        _ => Payload::new(),
    }
}

/// What a request leaves that was answered so.
fn left_by_reply(block: u16, op: &OpRef<'_>, reply: &ReplyRef<'_>) -> Payload
    requires { IsBlock block }
    ensures { (base at : ℕ) (m : List ℕ) → at < length result.items → effects.is_put op.now at ≡ true → refusal base (length m) block op.now ≡ None →
        answer base block m op.now ≡ reply.now → slice_index (after base block m op.now) (address_of op.now - base + at) ≡ slice_index result.items at }
{
    match reply {
        ReplyRef::Data(old) => left_by_atomic(block, op, old),
        _ => Payload::new(),
    }
}

/// The bytes in the request's range right after it acted, where it writes them, if that is known by
/// what it was answered; else nothing.
pub fn left(block: u16, op: &OpRef<'_>, told: Option<&ReplyRef<'_>>) -> Payload
    requires { IsBlock block }
    ensures { (base at : ℕ) (m : List ℕ) → at < length result.items → effects.is_put op.now at ≡ true → refusal base (length m) block op.now ≡ None →
        Agrees base block m op.now (told_of told.entry) →
        slice_index (after base block m op.now) (address_of op.now - base + at) ≡ slice_index result.items at }
{
    match told {
        Some(reply) => left_by_reply(block, op, reply),
        None => left_by_write(block, op),
    }
}

/// The AtomicOp, which was answered with those bytes, leaves them.
fn is_kept(block: u16, op: &OpRef<'_>, old: &PayloadRef<'_>) -> bool
    requires { IsBlock block }
    ensures { IsTrue result → (base : ℕ) (m : List ℕ) → answer base block m op.now ≡ replies.Data old.now → after base block m op.now ≡ m }
{
    only_the_place_changes();
    if !is_atomic(op) {
        return false;
    }
    changed(block, op, old.as_slice()).as_slice() == old.as_slice()
}

pub(crate) fn is_read(op: &OpRef<'_>) -> bool
    ensures { IsTrue result → (a : ℕ) × (d : ℕ) × (f : ℕ) × (l : ℕ) × (op.now ≡ ops.Read a d f l) }
{
    matches!(op, OpRef::Read { .. })
}

/// The AtomicOp, which was answered so, leaves what it was answered, or wasn't served.
fn is_kept_by(block: u16, op: &OpRef<'_>, reply: &ReplyRef<'_>) -> bool
    requires { IsBlock block }
    ensures { IsTrue result → (base : ℕ) (m : List ℕ) → answer base block m op.now ≡ reply.now → after base block m op.now ≡ m }
{
    refused_and_read_change_nothing();
    match reply {
        ReplyRef::Data(old) => is_kept(block, op, old),
        ReplyRef::Done => false,
        ReplyRef::Unsupported => true,
        ReplyRef::Aborted => true,
    }
}

/// Wherever the request may act, it changes nothing: a read, an AtomicOp that leaves what it was
/// answered, or a request that wasn't served.
pub fn is_quiet(block: u16, op: &OpRef<'_>, told: Option<&ReplyRef<'_>>) -> bool
    requires { IsBlock block }
    ensures { IsTrue result → (base : ℕ) (m : List ℕ) → Agrees base block m op.now (told_of told.entry) → after base block m op.now ≡ m }
{
    refused_and_read_change_nothing();
    if is_read(op) {
        return true;
    }
    match told {
        Some(reply) => is_kept_by(block, op, reply),
        None => false,
    }
}

/// The place of the address in the operation's range.
pub(crate) fn place_of(op: &OpRef<'_>, address: u64) -> Option<usize>
    ensures some { IfSome result (λ i. address_of op.now + i ≡ address) }
    ensures none { IfNone result ((address < address_of op.now) ⊎ (address_of op.now + count_of op.now ≤ address)) }
{
    let first = op.address();
    if address < first {
        return None;
    }
    let at = address - first;
    if at >= u64::from(op.size()) {
        return None;
    }
    Some(at as usize)
}

/// Where the request has acted, which is served, another byte than `value` is at that place of its range.
fn leaves_other(
    block: u16,
    op: &OpRef<'_>,
    told: Option<&ReplyRef<'_>>,
    at: usize,
    value: u8,
) -> bool
    requires { IsBlock block }
    ensures { IsTrue result → effects.is_put op.now at ≡ true → (base : ℕ) (m : List ℕ) → refusal base (length m) block op.now ≡ None →
        Agrees base block m op.now (told_of told.entry) → slice_index (after base block m op.now) (address_of op.now - base + at) ≢ value }
{
    let new = left(block, op, told);
    at < new.len() && new[at] != value
}

/// Right after the request, which was answered `told` or not at all, the byte at the address is `value`
/// only if it was before.
pub fn never_puts(
    block: u16,
    op: &OpRef<'_>,
    told: Option<&ReplyRef<'_>>,
    address: u64,
    value: u8,
) -> bool
    requires { IsBlock block }
    ensures { IsTrue result → (base k : ℕ) (m : List ℕ) → base + k ≡ address → Agrees base block m op.now (told_of told.entry) →
        slice_index (after base block m op.now) k ≡ value → slice_index m k ≡ value }
{
    only_the_place_changes();
    refused_and_read_change_nothing();
    what_is_not_put_stays();
    let Some(at) = place_of(op, address) else {
        return true;
    };
    if is_quiet(block, op, told) {
        return true;
    }
    if !is_put(op, at) {
        return true;
    }
    leaves_other(block, op, told, at, value)
}
