//! What two requests of a log do to each other.
ghost use Rattle.std.specs.Prelude.{ℕ, ◌≡◌, ◌⊎◌, List, Option, Some, IfSome, true, IsTrue, length, slice_get};
ghost use Rattle.tlp_core.specs.Ops.{Op};
ghost use Rattle.seq_memory.specs.Entries.{Reply};
ghost use Rattle.tlp_core.specs.Operation.{address_of, count_of, is_posted};
ghost use Rattle.seq_memory.specs.Limits.{IsBlock};
ghost use Rattle.seq_memory.specs.Step.{after};
ghost use Rattle.search_effects.specs.Effects.{Agrees, AreApart, AreSameAt, told_of};
ghost use Rattle.log_runs.specs.EventView as events;
ghost use Rattle.log_runs.specs.Runs.{bytes_after};
ghost use Rattle.search_rules.specs.Answered.{IsAnswered};
ghost use Rattle.search_rules.specs.Rules.{Answers, Suits, Ends, NeverBrings, Yields, LetsFirst, Follows, ChangesNothing};

use crate::junk::is_served;
use log_runs::laws::headers_are_of_events;
use log_runs::{Event, EventHeader, Log};
use search_effects::laws::apart_requests_commute;
use search_effects::{are_apart, lie_apart, waits};
use seq_memory::ReplyRef;
use seq_memory::laws::refused_and_read_change_nothing;
use tlp_core::OpRef;

/// Right after the first operation the memory suits the second only if it did before.
fn keeps_out(
    block: u16,
    one: &OpRef<'_>,
    told: Option<&ReplyRef<'_>>,
    other: &OpRef<'_>,
    asked: Option<&ReplyRef<'_>>,
) -> bool
    requires { IsBlock block }
    ensures { IsTrue result → (base : ℕ) (m : List ℕ) → Agrees base block m one.now (told_of told.entry) →
        Agrees base block (after base block m one.now) other.now (told_of asked.entry) → Agrees base block m other.now (told_of asked.entry) }
{
    match asked {
        Some(reply) => search_effects::never_brings(block, one, told, other, reply),
        None => false,
    }
}

/// Right after the operation the memory suits request `q` only if it did before.
fn never_brings_by(log: &Log, one: &OpRef<'_>, told: Option<&ReplyRef<'_>>, q: usize) -> bool
    ensures { IsTrue result → (m : List ℕ) → Answers log.now.extent m one.now (told_of told.entry) →
        Suits log.now.extent (bytes_after log.now.extent m one.now) (slice_get log.now.events q) → Suits log.now.extent m (slice_get log.now.events q) }
{
    match log.event(q) {
        Some(Event::Sub { op, reply, .. }) => {
            keeps_out(log.extent().block(), one, told, &op, reply.as_ref())
        }
        _ => false,
    }
}

/// The first address and the number of the bytes of request `q`, which was answered.
#[inline(always)]
fn answered_range(log: &Log, q: usize) -> Option<(u64, u32)>
    ensures { IfSome result (λ r. (j : ℕ) × (other : Op) × (asked : Option Reply) × (slice_get log.now.events q ≡ Some (events.Sub j other asked)) ×
        (address_of other ≡ r.0) × (count_of other ≡ r.1)) }
{
    match log.header(q) {
        Some(
            EventHeader::Sub {
                is_answered: true,
                address,
                size,
                ..
            },
        ) => Some((address, size)),
        _ => None,
    }
}

/// What is at place `b` of the log is no request, or has no byte of request `q`, which was answered.
#[inline(always)]
pub fn is_apart(log: &Log, b: usize, q: usize) -> bool
    ensures { IsTrue result → NeverBrings log.now b q }
{
    apart_requests_commute();
    headers_are_of_events();
    match log.header(b) {
        Some(EventHeader::Sub { address, size, .. }) => match answered_range(log, q) {
            Some(range) => lie_apart((address, size), range),
            None => false,
        },
        Some(EventHeader::Due { .. }) => true,
        Some(EventHeader::Free) => true,
        None => false,
    }
}

/// A request that was answered.
#[derive(Clone, Copy)]
pub struct Answered<'a> {
    pub request: usize,
    pub op: &'a OpRef<'a>,
    pub reply: &'a ReplyRef<'a>,
}

/// Right after the event at place `b` the memory suits the answered request only if it did before.
pub fn never_brings_answered(log: &Log, b: usize, answered: Answered<'_>) -> bool
    requires { IsAnswered log.now answered }
    ensures { IsTrue result → NeverBrings log.now b answered.entry.request }
{
    match log.event(b) {
        Some(Event::Sub { op, reply, .. }) => search_effects::never_brings(
            log.extent().block(),
            &op,
            reply.as_ref(),
            answered.op,
            answered.reply,
        ),
        Some(Event::Due { .. }) => true,
        Some(Event::Free) => true,
        None => false,
    }
}

/// Right after request `b` acted the memory suits request `q` only if it did before.
pub fn never_brings(log: &Log, b: usize, q: usize) -> bool
    ensures { IsTrue result → NeverBrings log.now b q }
{
    if is_apart(log, b, q) {
        return true;
    }
    match log.event(b) {
        Some(Event::Sub { op, reply, .. }) => never_brings_by(log, &op, reply.as_ref(), q),
        Some(Event::Due { .. }) => true,
        Some(Event::Free) => true,
        None => false,
    }
}

/// [`keeps_out`]; and where the memory suits both, it doesn't suit the second right after the first,
/// or their order makes no difference.
fn gives_way(
    block: u16,
    one: &OpRef<'_>,
    told: Option<&ReplyRef<'_>>,
    other: &OpRef<'_>,
    asked: Option<&ReplyRef<'_>>,
) -> bool
    requires { IsBlock block }
    ensures brings { IsTrue result → (base : ℕ) (m : List ℕ) → Agrees base block m one.now (told_of told.entry) →
        Agrees base block (after base block m one.now) other.now (told_of asked.entry) → Agrees base block m other.now (told_of asked.entry) }
    ensures order { IsTrue result → (base : ℕ) (m : List ℕ) → Agrees base block m one.now (told_of told.entry) →
        Agrees base block m other.now (told_of asked.entry) →
        (Agrees base block (after base block m one.now) other.now (told_of asked.entry) → ⊥) ⊎
        (Agrees base block (after base block m one.now) other.now (told_of asked.entry) ×
        Agrees base block (after base block m other.now) one.now (told_of told.entry) ×
        (after base block (after base block m one.now) other.now ≡ after base block (after base block m other.now) one.now)) }
{
    match asked {
        Some(reply) => search_effects::yields(block, one, told, other, reply),
        None => false,
    }
}

/// [`never_brings_by`]; and where the memory suits both, it doesn't suit request `q` right after the
/// operation, or their order makes no difference.
fn yields_by(log: &Log, one: &OpRef<'_>, told: Option<&ReplyRef<'_>>, q: usize) -> bool
    ensures brings { IsTrue result → (m : List ℕ) → Answers log.now.extent m one.now (told_of told.entry) →
        Suits log.now.extent (bytes_after log.now.extent m one.now) (slice_get log.now.events q) → Suits log.now.extent m (slice_get log.now.events q) }
    ensures order { IsTrue result → (m : List ℕ) → Answers log.now.extent m one.now (told_of told.entry) →
        Suits log.now.extent m (slice_get log.now.events q) → (i : ℕ) →
        Ends log.now.extent m (bytes_after log.now.extent m one.now) (Some (events.Sub i one.now (told_of told.entry))) (slice_get log.now.events q) }
{
    match log.event(q) {
        Some(Event::Sub { op, reply, .. }) => {
            gives_way(log.extent().block(), one, told, &op, reply.as_ref())
        }
        _ => false,
    }
}

/// [`never_brings`]; and where the memory suits both, it doesn't suit request `q` right after request
/// `b`, or their order makes no difference.
pub fn yields(log: &Log, b: usize, q: usize) -> bool
    ensures brings { IsTrue result → NeverBrings log.now b q }
    ensures order { IsTrue result → Yields log.now b q }
{
    match log.event(b) {
        Some(Event::Sub { op, reply, .. }) => yields_by(log, &op, reply.as_ref(), q),
        Some(Event::Due { .. }) => true,
        Some(Event::Free) => true,
        None => false,
    }
}

/// The operation changes nothing where the memory answers it so, or wasn't answered and isn't served.
pub fn is_quiet(log: &Log, op: &OpRef<'_>, told: Option<&ReplyRef<'_>>) -> bool
    ensures { IsTrue result → (m : List ℕ) → length m ≡ log.now.extent.size → Answers log.now.extent m op.now (told_of told.entry) →
        bytes_after log.now.extent m op.now ≡ m }
{
    refused_and_read_change_nothing();
    if search_effects::is_quiet(log.extent().block(), op, told) {
        return true;
    }
    told.is_none() && !is_served(log, op)
}

/// Wherever request `q` may act, it changes nothing: also where it isn't served.
pub fn changes_nothing(log: &Log, q: usize) -> bool
    ensures { IsTrue result → ChangesNothing log.now q }
{
    match log.event(q) {
        Some(Event::Sub { op, reply, .. }) => is_quiet(log, &op, reply.as_ref()),
        _ => false,
    }
}

/// The operations have no byte in common, or the first waits till the bytes of the second aren't these.
fn goes_behind(
    base: u64,
    bytes: &[u8],
    one: &OpRef<'_>,
    told: Option<&ReplyRef<'_>>,
    other: &OpRef<'_>,
) -> bool
    ensures { IsTrue result →
        AreApart one.now other.now ⊎
        ((block : ℕ) (n : List ℕ) → AreSameAt base other.now bytes.now n → Agrees base block n one.now (told_of told.entry) → ⊥) }
{
    if are_apart(one, other) {
        return true;
    }
    waits(base, bytes, one, told, other)
}

/// The operation has no byte of request `q`, or waits till those bytes aren't these.
fn lets_first_by(
    log: &Log,
    bytes: &[u8],
    one: &OpRef<'_>,
    told: Option<&ReplyRef<'_>>,
    q: usize,
) -> bool
    ensures { IsTrue result → (j : ℕ) (other : Op) (asked : Option Reply) → slice_get log.now.events q ≡ Some (events.Sub j other asked) →
        AreApart one.now other ⊎
        ((n : List ℕ) → AreSameAt log.now.extent.base other bytes.now n → Answers log.now.extent n one.now (told_of told.entry) → ⊥) }
{
    match log.event(q) {
        Some(Event::Sub { op, .. }) => goes_behind(log.extent().base(), bytes, one, told, &op),
        _ => false,
    }
}

/// [`lets_first`], of which it is known that it doesn't follow request `q`.
fn lets_before(log: &Log, bytes: &[u8], b: usize, q: usize) -> bool
    ensures { IsTrue result → LetsFirst log.now bytes.now b q }
{
    match log.event(b) {
        Some(Event::Sub { op, reply, .. }) => lets_first_by(log, bytes, &op, reply.as_ref(), q),
        Some(Event::Due { .. }) => true,
        Some(Event::Free) => true,
        None => false,
    }
}

/// Request `b` has no byte of request `q`, can't act till the bytes there aren't these, or follows it.
pub fn lets_first(log: &Log, bytes: &[u8], b: usize, q: usize) -> bool
    ensures { IsTrue result → LetsFirst log.now bytes.now b q }
{
    if follows(log, q, b) {
        return true;
    }
    lets_before(log, bytes, b, q)
}

/// The event submits a request of the requester.
fn is_of(log: &Log, r: usize, requester: u8) -> bool
    ensures { IsTrue result → (op : Op) × (told : Option Reply) × (slice_get log.now.events r ≡ Some (events.Sub requester op told)) }
{
    match log.header(r) {
        Some(EventHeader::Sub { requester: who, .. }) => who == requester,
        _ => false,
    }
}

/// The requester of posted write `q`.
fn writer(log: &Log, q: usize) -> Option<u8>
    ensures { IfSome result (λ i. (w : Op) × (asked : Option Reply) × (is_posted w ≡ true) × (slice_get log.now.events q ≡ Some (events.Sub i w asked))) }
{
    match log.header(q) {
        Some(
            EventHeader::Sub {
                requester,
                is_posted: true,
                ..
            },
        ) => Some(requester),
        _ => None,
    }
}

/// Request `r` is `q`, or its requester submitted `q` before it, a posted write.
pub fn follows(log: &Log, q: usize, r: usize) -> bool
    ensures { IsTrue result → Follows log.now q r }
{
    if q == r {
        return true;
    }
    if r < q {
        return false;
    }
    let Some(requester) = writer(log, q) else {
        return false;
    };
    is_of(log, r, requester)
}
