//! Two requests.
ghost use Rattle.std.specs.Prelude.{◌≡◌, ◌+◌, ◌<◌, IfSome, ◌≢◌, ◌⊎◌, ℕ, true, None, Some, List, length, IsTrue, slice_index};
ghost use Rattle.tlp_core.specs.Operation.{address_of, count_of};
ghost use Rattle.seq_memory.specs.Limits.{IsBlock};
ghost use Rattle.seq_memory.specs.declared.reply.ReplyOf.TheVariants as replies;
ghost use Rattle.seq_memory.specs.Step.{refusal, after, answer};
ghost use Rattle.search_effects.specs.Effects as effects;
ghost use Rattle.search_effects.specs.Effects.{Agrees, AreSameAt, told_of};

use crate::laws::{apart_requests_commute, what_is_needed_is_there};
use crate::puts::{changed, is_atomic, is_quiet, is_read, left};
use crate::ranges::{are_apart, is_needed, is_put, place_in};
use seq_memory::ReplyRef;
use seq_memory::laws::{only_the_place_changes, refused_and_read_change_nothing};
use tlp_core::{OpRef, PayloadRef};

/// The first operation puts another byte at the place of the second than the second needs.
fn puts_other(one: &OpRef<'_>, new: &[u8], other: &OpRef<'_>, need: &[u8], at: usize) -> bool
    ensures { IsTrue result →
        (i : ℕ) × (address_of one.now + i ≡ address_of other.now + at) × (i < length new.now) × (effects.is_put one.now i ≡ true) × (at < length need.now) ×
        (effects.is_needed other.now at ≡ true) × (slice_index new.now i ≢ slice_index need.now at) × (i < count_of one.now) }
{
    let Some(i) = place_in(one, other, at) else {
        return false;
    };
    i < new.len()
        && i < one.size() as usize
        && at < need.len()
        && new[i] != need[at]
        && is_put(one, i)
        && is_needed(other, at)
}

/// It does so at some place.
fn some_put_other(one: &OpRef<'_>, new: &[u8], other: &OpRef<'_>, need: &[u8]) -> bool
    ensures { IsTrue result →
        (at : ℕ) × (i : ℕ) × (address_of one.now + i ≡ address_of other.now + at) × (i < length new.now) × (effects.is_put one.now i ≡ true) ×
        (at < length need.now) × (effects.is_needed other.now at ≡ true) × (slice_index new.now i ≢ slice_index need.now at) × (i < count_of one.now) }
{
    for at in 0..need.len() {
        if puts_other(one, new, other, need, at) {
            return true;
        }
    }
    false
}

/// After `one`, which is served and was answered `told` or not at all, the memory doesn't answer
/// `reply` to `other` while the bytes in the range of `one` are as it left them.
pub fn breaks(
    block: u16,
    one: &OpRef<'_>,
    told: Option<&ReplyRef<'_>>,
    other: &OpRef<'_>,
    reply: &ReplyRef<'_>,
) -> bool
    requires { IsBlock block }
    ensures { IsTrue result → (base : ℕ) (m n : List ℕ) → refusal base (length m) block one.now ≡ None → Agrees base block m one.now (told_of told.entry) →
        AreSameAt base one.now (after base block m one.now) n → answer base block n other.now ≡ reply.now → ⊥ }
{
    what_is_needed_is_there();
    let ReplyRef::Data(need) = reply else {
        return false;
    };
    let new = left(block, one, told);
    some_put_other(one, new.as_slice(), other, need.as_slice())
}

/// The operations need different bytes at that place of the second.
fn needs_other(one: &OpRef<'_>, old: &[u8], other: &OpRef<'_>, need: &[u8], at: usize) -> bool
    ensures { IsTrue result →
        (i : ℕ) × (address_of one.now + i ≡ address_of other.now + at) × (i < length old.now) × (effects.is_needed one.now i ≡ true) ×
        (at < length need.now) × (effects.is_needed other.now at ≡ true) × (slice_index old.now i ≢ slice_index need.now at) }
{
    let Some(i) = place_in(one, other, at) else {
        return false;
    };
    i < old.len()
        && at < need.len()
        && old[i] != need[at]
        && is_needed(one, i)
        && is_needed(other, at)
}

/// They do so at some place.
fn some_need_other(one: &OpRef<'_>, old: &[u8], other: &OpRef<'_>, need: &[u8]) -> bool
    ensures { IsTrue result →
        (at : ℕ) × (i : ℕ) × (address_of one.now + i ≡ address_of other.now + at) × (i < length old.now) × (effects.is_needed one.now i ≡ true) ×
        (at < length need.now) × (effects.is_needed other.now at ≡ true) × (slice_index old.now i ≢ slice_index need.now at) }
{
    for at in 0..need.len() {
        if needs_other(one, old, other, need, at) {
            return true;
        }
    }
    false
}

/// No bytes give both replies.
pub fn clashes(
    one: &OpRef<'_>,
    told: &ReplyRef<'_>,
    other: &OpRef<'_>,
    reply: &ReplyRef<'_>,
) -> bool
    ensures { IsTrue result → (base block : ℕ) (m : List ℕ) → answer base block m one.now ≡ told.now → answer base block m other.now ≡ reply.now → ⊥ }
{
    what_is_needed_is_there();
    let ReplyRef::Data(old) = told else {
        return false;
    };
    let ReplyRef::Data(need) = reply else {
        return false;
    };
    some_need_other(one, old.as_slice(), other, need.as_slice())
}

/// With which data the operation was answered, if it is an AtomicOp and was.
fn atomic_data<'a>(one: &OpRef<'_>, told: Option<&'a ReplyRef<'a>>) -> Option<&'a PayloadRef<'a>>
    ensures atomic { IfSome result (λ old. effects.is_atomic one.now ≡ true) }
    ensures told { IfSome result (λ old. told_of told.entry ≡ Some (replies.Data old.now)) }
{
    match told {
        Some(ReplyRef::Data(old)) if is_atomic(one) => Some(old),
        _ => None,
    }
}

/// Right after the AtomicOp, which was answered with those bytes, the memory answers `reply` to `other` only if it did
/// before.
fn atomic_never_brings(
    block: u16,
    one: &OpRef<'_>,
    old: &PayloadRef<'_>,
    other: &OpRef<'_>,
    reply: &ReplyRef<'_>,
) -> bool
    requires block { IsBlock block }
    requires atomic { effects.is_atomic one.now ≡ true }
    ensures { IsTrue result → (base : ℕ) (m : List ℕ) → answer base block m one.now ≡ replies.Data old.now →
        answer base block (after base block m one.now) other.now ≡ reply.now → answer base block m other.now ≡ reply.now }
{
    what_is_needed_is_there();
    only_the_place_changes();
    refused_and_read_change_nothing();
    let new = changed(block, one, old.as_slice());
    if new.as_slice() == old.as_slice() {
        return true;
    }
    let ReplyRef::Data(need) = reply else {
        return false;
    };
    some_put_other(one, new.as_slice(), other, need.as_slice())
}

/// Right after `one`, which was answered `told` or not at all, the memory answers `reply` to `other`
/// only if it did before.
pub fn never_brings(
    block: u16,
    one: &OpRef<'_>,
    told: Option<&ReplyRef<'_>>,
    other: &OpRef<'_>,
    reply: &ReplyRef<'_>,
) -> bool
    requires { IsBlock block }
    ensures { IsTrue result → (base : ℕ) (m : List ℕ) → Agrees base block m one.now (told_of told.entry) →
        answer base block (after base block m one.now) other.now ≡ reply.now → answer base block m other.now ≡ reply.now }
{
    apart_requests_commute();
    refused_and_read_change_nothing();
    if are_apart(one, other) {
        return true;
    }
    if let Some(old) = atomic_data(one, told) {
        return atomic_never_brings(block, one, old, other, reply);
    }
    if is_quiet(block, one, told) {
        return true;
    }
    breaks(block, one, told, other, reply)
}

/// The read wasn't answered, or no bytes give both replies.
fn read_yields(
    one: &OpRef<'_>,
    told: Option<&ReplyRef<'_>>,
    other: &OpRef<'_>,
    reply: &ReplyRef<'_>,
) -> bool
    ensures { IsTrue result →
        (told_of told.entry ≡ None) ⊎
        ((base block : ℕ) (m : List ℕ) → Agrees base block m one.now (told_of told.entry) → answer base block m other.now ≡ reply.now → ⊥) }
{
    match told {
        None => true,
        Some(seen) => clashes(one, seen, other, reply),
    }
}

/// A request that isn't served is answered so.
fn is_refusal(reply: &ReplyRef<'_>) -> bool
    ensures { IsTrue result → (reply.now ≡ replies.Unsupported) ⊎ (reply.now ≡ replies.Aborted) }
{
    matches!(reply, ReplyRef::Unsupported | ReplyRef::Aborted)
}

/// The request wasn't served, as its reply tells.
fn was_refused(told: Option<&ReplyRef<'_>>) -> bool
    ensures { IsTrue result → (told_of told.entry ≡ Some replies.Unsupported) ⊎ (told_of told.entry ≡ Some replies.Aborted) }
{
    match told {
        Some(reply) => is_refusal(reply),
        None => false,
    }
}

/// [`never_brings`]; and where the memory answers both so, it doesn't answer `reply` to `other` right
/// after `one`, or their order makes no difference.
pub fn yields(
    block: u16,
    one: &OpRef<'_>,
    told: Option<&ReplyRef<'_>>,
    other: &OpRef<'_>,
    reply: &ReplyRef<'_>,
) -> bool
    requires { IsBlock block }
    ensures brings { IsTrue result → (base : ℕ) (m : List ℕ) → Agrees base block m one.now (told_of told.entry) →
        answer base block (after base block m one.now) other.now ≡ reply.now → answer base block m other.now ≡ reply.now }
    ensures order { IsTrue result → (base : ℕ) (m : List ℕ) → Agrees base block m one.now (told_of told.entry) → answer base block m other.now ≡ reply.now →
        (answer base block (after base block m one.now) other.now ≡ reply.now → ⊥) ⊎
        ((answer base block (after base block m one.now) other.now ≡ reply.now) ×
        Agrees base block (after base block m other.now) one.now (told_of told.entry) ×
        (after base block (after base block m one.now) other.now ≡ after base block (after base block m other.now) one.now)) }
{
    apart_requests_commute();
    only_the_place_changes();
    refused_and_read_change_nothing();
    if are_apart(one, other) {
        return true;
    }
    if was_refused(told) {
        return true;
    }
    if is_read(one) {
        return read_yields(one, told, other, reply);
    }
    breaks(block, one, told, other, reply)
}
