//! Bytes that are nothing to a request.
ghost use Rattle.std.specs.Prelude.{ℕ, ◌≡◌, ◌<◌, ◌/◌, ◌⊎◌, List, Option, Some, None, false, IsTrue, length, slice_get};
ghost use Rattle.tlp_core.specs.Ops.{Op};
ghost use Rattle.seq_memory.specs.declared.Refusal.{Refusal};
ghost use Rattle.seq_memory.specs.Entries.{Reply};
ghost use Rattle.seq_memory.specs.Step as step;
ghost use Rattle.search_effects.specs.Effects.{AreApart, told_of};
ghost use Rattle.log_runs.specs.EventView as events;
ghost use Rattle.search_rules.specs.Rules.{IsJunkAt, LeavesJunkAt, IsWithin};
ghost use Rattle.search_rules.specs.Junk as specs;

use log_runs::{Event, Log};
use search_effects::{are_apart, breaks, covers, sees_none, spans, waits};
use seq_memory::laws::refused_and_read_change_nothing;
use seq_memory::{ReplyRef, refusal_lent};
use tlp_core::OpRef;

/// A request: its operation, and its answer, if it has one.
#[derive(Clone, Copy)]
pub(crate) struct Request<'a> {
    pub(crate) op: &'a OpRef<'a>,
    pub(crate) told: Option<&'a ReplyRef<'a>>,
}

/// The memory would do the operation.
pub fn is_served(log: &Log, op: &OpRef<'_>) -> bool
    ensures yes { IsTrue result → step.refusal log.now.extent.base log.now.extent.size log.now.extent.block op.now ≡ None }
    ensures no { result ≡ false → (r : Refusal) × (step.refusal log.now.extent.base log.now.extent.size log.now.extent.block op.now ≡ Some r) }
{
    let extent = log.extent();
    match refusal_lent(extent.base(), extent.block(), extent.size(), op) {
        None => true,
        Some(_) => false,
    }
}

/// The operation wasn't answered and changes nothing, or leaves the same, whatever stood at the bytes of the other.
fn writes_over(log: &Log, one: &OpRef<'_>, told: Option<&ReplyRef<'_>>, other: &OpRef<'_>) -> bool
    requires { step.refusal log.now.extent.base log.now.extent.size log.now.extent.block one.now ≡ None }
    ensures { IsTrue result → specs.Overlooks log.now.extent one.now (told_of told.entry) other.now }
{
    if told.is_some() {
        return false;
    }
    if search_effects::is_quiet(log.extent().block(), one, told) {
        return true;
    }
    covers(one, other)
}

/// The operation isn't served, is a read that needs no byte of the other, or wasn't answered and is a read,
/// or a write or a Swap of all bytes of the other.
pub fn overlooks<'o>(
    log: &Log,
    one: &OpRef<'o>,
    told: Option<&ReplyRef<'_>>,
    other: &OpRef<'o>,
) -> bool
    ensures { IsTrue result → specs.Overlooks log.now.extent one.now (told_of told.entry) other.now }
{
    refused_and_read_change_nothing();
    if !is_served(log, one) {
        return true;
    }
    if sees_none(one, other) {
        return true;
    }
    writes_over(log, one, told, other)
}

/// The operations have no byte in common, or it makes no difference to the first what stands at the
/// addresses of the second.
fn ignores(log: &Log, one: &OpRef<'_>, told: Option<&ReplyRef<'_>>, other: &OpRef<'_>) -> bool
    ensures { IsTrue result → AreApart one.now other.now ⊎ specs.Overlooks log.now.extent one.now (told_of told.entry) other.now }
{
    if are_apart(one, other) {
        return true;
    }
    overlooks(log, one, told, other)
}

/// These bytes at the addresses of the other are nothing to the operation.
fn is_junk(
    log: &Log,
    bytes: &[u8],
    one: &OpRef<'_>,
    told: Option<&ReplyRef<'_>>,
    other: &OpRef<'_>,
) -> bool
    ensures { IsTrue result → specs.IsJunk log.now.extent bytes.now one.now (told_of told.entry) other.now }
{
    if ignores(log, one, told, other) {
        return true;
    }
    waits(log.extent().base(), bytes, one, told, other)
}

/// Word `word` of the memory, as an operation that names it alone.
fn word_of<'a>(log: &Log, word: u64) -> OpRef<'a>
    requires { word < log.now.extent.size / 4 }
    ensures { result ≡ specs.word log.now.extent word }
{
    let extent = log.extent();
    let size = extent.size();
    OpRef::Read {
        address: extent.base() + 4 * word,
        dw: 1,
        first: 15,
        last: 0,
    }
}

/// [`is_junk`], the other being word `word`.
fn is_junk_by(
    log: &Log,
    bytes: &[u8],
    one: &OpRef<'_>,
    told: Option<&ReplyRef<'_>>,
    word: u64,
) -> bool
    requires { word < log.now.extent.size / 4 }
    ensures { IsTrue result → specs.IsJunk log.now.extent bytes.now one.now (told_of told.entry) (specs.word log.now.extent word) }
{
    let other = word_of(log, word);
    is_junk(log, bytes, one, told, &other)
}

/// These bytes at word `word` of the memory are nothing to request `b`.
pub fn is_junk_at(log: &Log, bytes: &[u8], b: usize, word: u64) -> bool
    requires { word < log.now.extent.size / 4 }
    ensures { IsTrue result → IsJunkAt log.now bytes.now b word }
{
    match log.event(b) {
        Some(Event::Sub { op, reply, .. }) => is_junk_by(log, bytes, &op, reply.as_ref(), word),
        Some(Event::Due { .. }) => true,
        Some(Event::Free) => true,
        None => false,
    }
}

/// The operation was answered otherwise than by what the third leaves.
fn misses_left(
    log: &Log,
    one: &OpRef<'_>,
    told: Option<&ReplyRef<'_>>,
    third: &OpRef<'_>,
    had: Option<&ReplyRef<'_>>,
) -> bool
    ensures { IsTrue result → specs.MissesLeft log.now.extent one.now (told_of told.entry) third.now third.now (told_of had.entry) }
{
    let Some(reply) = told else {
        return false;
    };
    if !is_served(log, third) {
        return false;
    }
    breaks(log.extent().block(), third, had, one, reply)
}

/// [`misses_left`], the third having no addresses but the other's.
fn misses_there(log: &Log, one: Request, other: &OpRef<'_>, third: Request) -> bool
    ensures { IsTrue result →
        specs.MissesLeft log.now.extent one.entry.op.now (told_of one.entry.told) other.now third.entry.op.now (told_of third.entry.told) }
{
    if !spans(other, third.op) {
        return false;
    }
    misses_left(log, one.op, one.told, third.op, third.told)
}

/// What the third leaves at the addresses of the other is nothing to the operation.
pub(crate) fn leaves_junk(log: &Log, one: Request, other: &OpRef<'_>, third: Request) -> bool
    ensures { IsTrue result →
        specs.LeavesJunk log.now.extent one.entry.op.now (told_of one.entry.told) other.now third.entry.op.now (told_of third.entry.told) }
{
    if ignores(log, one.op, one.told, other) {
        return true;
    }
    misses_there(log, one, other, third)
}

/// [`leaves_junk`], the third being request `g`.
fn leaves_junk_behind(
    log: &Log,
    one: &OpRef<'_>,
    told: Option<&ReplyRef<'_>>,
    other: &OpRef<'_>,
    g: usize,
) -> bool
    ensures { IsTrue result →
        (l : ℕ) × (third : Op) × (had : Option Reply) × (slice_get log.now.events g ≡ Some (events.Sub l third had)) ×
        specs.LeavesJunk log.now.extent one.now (told_of told.entry) other.now third had }
{
    match log.event(g) {
        Some(Event::Sub { op, reply, .. }) => {
            let one = Request { op: one, told };
            let third = Request {
                op: &op,
                told: reply.as_ref(),
            };
            leaves_junk(log, one, other, third)
        }
        _ => false,
    }
}

/// [`leaves_junk_behind`], the other being word `word`.
fn leaves_junk_by(
    log: &Log,
    one: &OpRef<'_>,
    told: Option<&ReplyRef<'_>>,
    g: usize,
    word: u64,
) -> bool
    requires { word < log.now.extent.size / 4 }
    ensures { IsTrue result →
        (l : ℕ) × (third : Op) × (had : Option Reply) × (slice_get log.now.events g ≡ Some (events.Sub l third had)) ×
        specs.LeavesJunk log.now.extent one.now (told_of told.entry) (specs.word log.now.extent word) third had }
{
    let other = word_of(log, word);
    leaves_junk_behind(log, one, told, &other, g)
}

/// What request `g` leaves at word `word` of the memory is nothing to request `b`.
pub fn leaves_junk_at(log: &Log, b: usize, g: usize, word: u64) -> bool
    requires { word < log.now.extent.size / 4 }
    ensures { IsTrue result → LeavesJunkAt log.now b g word }
{
    match log.event(b) {
        Some(Event::Sub { op, reply, .. }) => leaves_junk_by(log, &op, reply.as_ref(), g, word),
        Some(Event::Due { .. }) => true,
        Some(Event::Free) => true,
        None => false,
    }
}

/// The addresses of the operation are among those of request `q`.
fn is_within_by(log: &Log, third: &OpRef<'_>, q: usize) -> bool
    ensures { IsTrue result →
        (j : ℕ) × (other : Op) × (asked : Option Reply) × (slice_get log.now.events q ≡ Some (events.Sub j other asked)) ×
        specs.HasAddresses other third.now }
{
    match log.event(q) {
        Some(Event::Sub { op, .. }) => spans(&op, third),
        _ => false,
    }
}

/// The addresses of request `g` are among those of request `q`.
pub fn is_within(log: &Log, g: usize, q: usize) -> bool
    ensures { IsTrue result → IsWithin log.now g q }
{
    match log.event(g) {
        Some(Event::Sub { op, .. }) => is_within_by(log, &op, q),
        _ => false,
    }
}
