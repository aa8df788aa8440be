//! What a request does to what another one found.
ghost use Rattle.std.specs.Prelude.{ℕ, ◌≡◌, ◌<◌, ◌≤◌, List, Some, None, IsTrue, length, replicate, slice_get, slice_index};
ghost use Rattle.seq_memory.specs.Step.{answer, refusal};
ghost use Rattle.log_runs.specs.EventView as events;
ghost use Rattle.log_runs.specs.Runs.{acted_on, bytes_after};
ghost use Rattle.search_effects.specs.Effects as effects;
ghost use Rattle.search_effects.specs.Effects.{Agrees, told_of};
ghost use Rattle.search_rules.specs.Answered.{IsAnswered};
ghost use Rattle.search_rules.specs.Rules.{Answers, Suits};
ghost use Rattle.search_words.specs.Counts.{IsFirst, IsRole};

use log_runs::{Event, EventHeader, Log};
use search_effects::breaks;
use search_effects::laws::what_is_needed_is_there;
use search_rules::{Answered, is_apart, is_served, never_brings_answered};
use seq_memory::ReplyRef;
use tlp_core::OpRef;

/// What a request does to what another one found.
#[derive(Clone, Copy)]
pub enum Role {
    /// It finds the same, and takes it away.
    Takes,
    /// Right after it the same is there only if it was before.
    Keeps,
    /// It may put that there.
    MayPut,
}

fn is_atomic(op: &OpRef<'_>) -> bool
    ensures { result ≡ effects.is_atomic op.now }
{
    match op {
        OpRef::Read { .. } | OpRef::Write { .. } => false,
        _ => true,
    }
}

/// AtomicOps at the same bytes that were answered the same data: wherever the memory answers the one so, it
/// answers the other so, if it is served.
fn finds_alike(
    one: &OpRef<'_>,
    told: &ReplyRef<'_>,
    other: &OpRef<'_>,
    asked: &ReplyRef<'_>,
) -> bool
    ensures { IsTrue result → (base block : ℕ) (m : List ℕ) → refusal base (length m) block other.now ≡ None → answer base block m one.now ≡ told.now →
        answer base block m other.now ≡ asked.now }
{
    let ReplyRef::Data(old) = told else {
        return false;
    };
    let ReplyRef::Data(need) = asked else {
        return false;
    };
    if !is_atomic(one) {
        return false;
    }
    if !is_atomic(other) {
        return false;
    }
    if one.address() != other.address() {
        return false;
    }
    if one.size() != other.size() {
        return false;
    }
    old.as_slice() == need.as_slice()
}

/// The operation finds what the answered request found, by the replies, and takes it away.
fn takes_by(log: &Log, one: &OpRef<'_>, told: Option<&ReplyRef<'_>>, found: Answered<'_>) -> bool
    ensures finds { IsTrue result → (m : List ℕ) → length m ≡ log.now.extent.size → Answers log.now.extent m one.now (told_of told.entry) →
        Answers log.now.extent m found.entry.op.now (Some found.entry.reply.now) }
    ensures leaves { IsTrue result → (m : List ℕ) → length m ≡ log.now.extent.size → Answers log.now.extent m one.now (told_of told.entry) →
        Answers log.now.extent (bytes_after log.now.extent m one.now) found.entry.op.now (Some found.entry.reply.now) → ⊥ }
{
    let Answered {
        op: other,
        reply,
        ..
    } = found;
    let Some(seen) = told else {
        return false;
    };
    if !finds_alike(one, seen, other, reply) {
        return false;
    }
    if !is_served(log, one) {
        return false;
    }
    if !is_served(log, other) {
        return false;
    }
    breaks(log.extent().block(), one, told, other, reply)
}

/// Request `b` finds what the answered request found, and takes it away.
fn takes(log: &Log, b: usize, found: Answered<'_>) -> bool
    requires { IsAnswered log.now found }
    ensures finds { IsTrue result → (m : List ℕ) → length m ≡ log.now.extent.size → Suits log.now.extent m (slice_get log.now.events b) →
        Suits log.now.extent m (slice_get log.now.events found.entry.request) }
    ensures leaves { IsTrue result → (m : List ℕ) → length m ≡ log.now.extent.size → Suits log.now.extent m (slice_get log.now.events b) →
        Suits log.now.extent (acted_on log.now.extent m (slice_get log.now.events b)) (slice_get log.now.events found.entry.request) → ⊥ }
{
    match log.event(b) {
        Some(Event::Sub { op, reply, .. }) => takes_by(log, &op, reply.as_ref(), found),
        _ => false,
    }
}

/// The event at that place is the answer to request `b`.
fn answers(log: &Log, place: usize, b: usize) -> bool
    ensures { IsTrue result → slice_get log.now.events place ≡ Some (events.Due b) }
{
    match log.header(place) {
        Some(EventHeader::Due { request }) => request == b,
        _ => false,
    }
}

/// What request `b`, which may be answered at that place, does to what the answered request found.
pub(crate) fn role_of(log: &Log, found: Answered<'_>, b: usize, place: usize) -> Role
    requires { IsAnswered log.now found }
    ensures { IsRole log.now found.entry.request b result }
{
    if is_apart(log, b, found.request) {
        return Role::Keeps;
    }
    if answers(log, place, b) && takes(log, b, found) {
        return Role::Takes;
    }
    if never_brings_answered(log, b, found) {
        return Role::Keeps;
    }
    Role::MayPut
}

/// The data have a byte other than 0.
fn has_byte(bytes: &[u8]) -> bool
    ensures { IsTrue result → (at : ℕ) × (at < length bytes.now) × (slice_index bytes.now at ≡ 0 → ⊥) }
{
    for at in 0..bytes.len() {
        if bytes[at] != 0 {
            return true;
        }
    }
    false
}

/// Zeros don't answer the operation so.
fn changes_zeros(op: &OpRef<'_>, reply: &ReplyRef<'_>) -> bool
    ensures { IsTrue result → (base block n : ℕ) → answer base block (replicate n 0) op.now ≡ reply.now → ⊥ }
{
    what_is_needed_is_there();
    let ReplyRef::Data(data) = reply else {
        return false;
    };
    if !is_atomic(op) {
        return false;
    }
    has_byte(data.as_slice())
}

/// How often what the answered request found may be there at the start.
pub(crate) fn first_of(log: &Log, found: Answered<'_>) -> usize
    requires { IsAnswered log.now found }
    ensures first { IsFirst log.now found.entry.request result }
    ensures few { result ≤ 1 }
{
    if changes_zeros(found.op, found.reply) {
        0
    } else {
        1
    }
}
