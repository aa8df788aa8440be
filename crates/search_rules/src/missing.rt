//! Bytes that a request needs.
ghost use Rattle.std.specs.Prelude.{ℕ, ◌≡◌, ◌+◌, List, Option, Some, IfSome, IsTrue, slice_get, slice_index};
ghost use Rattle.tlp_core.specs.Ops.{Op};
ghost use Rattle.tlp_core.specs.Operation.{address_of};
ghost use Rattle.seq_memory.specs.Entries.{Reply};
ghost use Rattle.seq_memory.specs.Step.{answer};
ghost use Rattle.search_effects.specs.Effects.{Agrees, told_of};
ghost use Rattle.log_runs.specs.EventView as events;
ghost use Rattle.log_runs.specs.Runs.{bytes_after};
ghost use Rattle.search_rules.specs.Rules.{Answers, NeedsByte, NeverPuts};

use log_runs::{Event, Log};
use search_effects::is_needed;
use search_effects::laws::what_is_needed_is_there;
use seq_memory::ReplyRef;
use tlp_core::OpRef;

/// What the byte at a place of the memory has to be.
#[derive(Clone, Copy, Debug, PartialEq)]
pub struct Need {
    pub place: usize,
    pub value: u8,
}

/// What the byte at place `at` of the operation's range has to be for that reply.
fn need_for(base: u64, op: &OpRef<'_>, reply: &ReplyRef<'_>, at: usize) -> Option<Need>
    ensures place { IfSome result (λ n. base + n.place ≡ address_of op.now + at) }
    ensures value { IfSome result (λ n. (block : ℕ) (m : List ℕ) → answer base block m op.now ≡ reply.now → slice_index m n.place ≡ n.value) }
{
    what_is_needed_is_there();
    let ReplyRef::Data(data) = reply else {
        return None;
    };
    let data = data.as_slice();
    let address = op.address();
    if address < base || at >= data.len() || !is_needed(op, at) {
        return None;
    }
    let place = at.checked_add((address - base) as usize)?;
    Some(Need {
        place,
        value: data[at],
    })
}

/// [`need_for`], if the operation was answered.
fn need_of(base: u64, op: &OpRef<'_>, told: Option<&ReplyRef<'_>>, at: usize) -> Option<Need>
    ensures place { IfSome result (λ n. base + n.place ≡ address_of op.now + at) }
    ensures value { IfSome result (λ n. (block : ℕ) (m : List ℕ) → Agrees base block m op.now (told_of told.entry) → slice_index m n.place ≡ n.value) }
{
    match told {
        Some(reply) => need_for(base, op, reply, at),
        None => None,
    }
}

/// What the byte at place `at` of request `q`'s range has to be when it acts, if that is known.
pub fn need_at(log: &Log, q: usize, at: usize) -> Option<Need>
    ensures place { IfSome result (λ n. (i : ℕ) × (op : Op) × (told : Option Reply) × (slice_get log.now.events q ≡ Some (events.Sub i op told)) ×
        (log.now.extent.base + n.place ≡ address_of op + at)) }
    ensures needs { IfSome result (λ n. NeedsByte log.now q n.place n.value) }
{
    match log.event(q) {
        Some(Event::Sub { op, reply, .. }) => need_of(log.extent().base(), &op, reply.as_ref(), at),
        _ => None,
    }
}

/// Right after the operation the byte is as it has to be only if it was before.
fn keeps_byte(log: &Log, op: &OpRef<'_>, told: Option<&ReplyRef<'_>>, need: Need) -> bool
    ensures { IsTrue result → (m : List ℕ) → Answers log.now.extent m op.now (told_of told.entry) →
        slice_index (bytes_after log.now.extent m op.now) need.place ≡ need.value → slice_index m need.place ≡ need.value }
{
    let extent = log.extent();
    let Some(address) = extent.base().checked_add(need.place as u64) else {
        return false;
    };
    search_effects::never_puts(extent.block(), op, told, address, need.value)
}

/// Right after request `b` acted the byte is as it has to be only if it was before.
pub fn never_puts(log: &Log, b: usize, need: Need) -> bool
    ensures { IsTrue result → NeverPuts log.now b need.place need.value }
{
    match log.event(b) {
        Some(Event::Sub { op, reply, .. }) => keeps_byte(log, &op, reply.as_ref(), need),
        Some(Event::Due { .. }) => true,
        Some(Event::Free) => true,
        None => false,
    }
}
