//! What requests of a log need of each word of the memory, and leave there.
//!
//! [`words_of`] gathers it from the whole log, once. Of a request it then says which others may be
//! something to it at a word of the memory: those that need the value that stands there or is left
//! there, or leave the value that it needs; those of which that isn't known; and those that write all of
//! the word, whatever stands there.
ghost use Rattle.std.specs.Prelude.{◌≡◌, ◌+◌, ◌*◌, ◌<◌, ◌≤◌, ◌/◌, ◌⊎◌, ℕ, List, Option, Some, None, true, IfOk, IfSome, OnOk, IsTrue, length, slice_get, slice_index, ◌-◌};
ghost use Rattle.tlp_core.specs.Ops.{Op};
ghost use Rattle.seq_memory.specs.Entries.{Reply};
ghost use Rattle.tlp_core.specs.Operation.{address_of, count_of};
ghost use Rattle.seq_memory.specs.Step.{refusal, after};
ghost use Rattle.search_effects.specs.Effects as effects;
ghost use Rattle.search_effects.specs.Effects.{Agrees, told_of};
ghost use Rattle.log_runs.specs.EventView as events;
ghost use Rattle.search_rules.specs.Junk.{Touches};
ghost use Rattle.search_words.specs.Lists.{Has, InList};
ghost use Rattle.search_words.specs.Words.{value_in, NeedsWord, LeavesWord, HasWholeWords, IsCareless, IsKnownAt, IsTaken, AllRise, Keeps, AreWords, IsWords, key};

use crate::lists::Lists;
use log_runs::{Event, Log};
use search_effects::laws::what_is_needed_is_there;
use search_effects::{is_needed, is_put, left};
use search_rules::overlooks;
use seq_memory::ReplyRef;
use seq_memory::laws::refused_and_read_change_nothing;
use std::alloc::{AllocError, Global};
use std::marker::Model;
use tlp_core::{MAX_PAYLOAD, OpRef};

/// How many bytes a request has at most that is known at each of its words.
const MOST_BYTES: u32 = MAX_PAYLOAD as u32;

/// What requests of a log need of each word of the memory, and leave there.
#[derive(Drop)]
pub struct Words {
    /// By word and value, those that need the value there.
    pub(crate) needed: Lists,
    /// By word, those that write all of it, whatever stands there, reads that weren't answered or need no
    /// byte, and those that aren't served; all of these name whole words.
    pub(crate) careless: Lists,
    /// By word, those that name bytes of it and of which it isn't known what they need of it.
    pub(crate) blind: Lists,
    /// By word and value, those that leave the value there.
    pub(crate) left: Lists,
    /// By word, those that name bytes of it and of which it isn't known what they leave of it.
    pub(crate) loose: Lists,
    /// By word, those that name bytes of it.
    pub(crate) named: Lists,
    /// Those that name no word or many.
    pub(crate) wide: Vec<usize>,
}

impl Model for Words {
    ghost use Rattle.search_words.specs.WordsView.{WordsView};

    ghost Value = { WordsView };

    ghost view = { λ t. record {
      needed = t.needed;
      careless = t.careless;
      blind = t.blind;
      left = t.left;
      loose = t.loose;
      named = t.named;
      wide = t.wide.items;
    } };
}

/// Where in a range the word begins, if all of it is there. The range is given by its first address and its number of
/// bytes.
pub(crate) fn place_in(base: u64, range: (u64, u32), word: u64) -> Option<usize>
    ensures low { IfSome result (λ at. base ≤ range.0) }
    ensures place { IfSome result (λ at. range.0 + at ≡ base + 4 * word) }
    ensures whole { IfSome result (λ at. at + 4 ≤ range.1) }
{
    let start = base.checked_add(word.checked_mul(4)?)?;
    let (address, size) = range;
    if address < base || size < 4 {
        return None;
    }
    let at = start.checked_sub(address)?;
    if at > u64::from(size - 4) {
        return None;
    }
    Some(at as usize)
}

/// Where in the operation's range the word begins, if all of it is there.
fn place_of(base: u64, op: &OpRef<'_>, word: u64) -> Option<usize>
    ensures low { IfSome result (λ at. base ≤ address_of op.now) }
    ensures place { IfSome result (λ at. address_of op.now + at ≡ base + 4 * word) }
    ensures whole { IfSome result (λ at. at + 4 ≤ count_of op.now) }
    ensures few { IfSome result (λ at. at < 1048576) }
{
    place_in(base, (op.address(), op.size()), word)
}

/// A number for a word and a value of it.
pub(crate) fn number_of(word: u64, value: u64) -> u64
    requires word { word < 262144 }
    requires value { value < 4294967296 }
    ensures { result ≡ key word value }
{
    word * 4_294_967_296 + value
}

/// The four bytes from that place on.
pub(crate) fn value_in(bytes: &[u8], at: usize) -> Option<u64>
    ensures within { IfSome result (λ v. at + 4 ≤ length bytes.now) }
    ensures value { IfSome result (λ v. v ≡ value_in bytes.now at) }
    ensures few { IfSome result (λ v. v < 4294967296) }
{
    if bytes.len() < 4 || at > bytes.len() - 4 {
        return None;
    }
    Some(
        u64::from(bytes[at])
            + 256 * u64::from(bytes[at + 1])
            + 65_536 * u64::from(bytes[at + 2])
            + 16_777_216 * u64::from(bytes[at + 3]),
    )
}

/// The operation needs the four bytes from that place of its range on.
fn needs_four(op: &OpRef<'_>, at: usize) -> bool
    requires { at < 1048576 }
    ensures { IsTrue result → (i : ℕ) → i < 4 → effects.is_needed op.now (at + i) ≡ true }
{
    is_needed(op, at) && is_needed(op, at + 1) && is_needed(op, at + 2) && is_needed(op, at + 3)
}

/// The operation writes the four bytes from that place of its range on.
fn puts_four(op: &OpRef<'_>, at: usize) -> bool
    requires { at < 1048576 }
    ensures { IsTrue result → (i : ℕ) → i < 4 → effects.is_put op.now (at + i) ≡ true }
{
    is_put(op, at) && is_put(op, at + 1) && is_put(op, at + 2) && is_put(op, at + 3)
}

/// What the operation, which was answered with these bytes, needs at the word, if it needs all of it.
fn needed_in(base: u64, op: &OpRef<'_>, seen: &[u8], word: u64) -> Option<u64>
    ensures needs { IfSome result (λ v. (m : List ℕ) →
        ((at : ℕ) → effects.is_needed op.now at ≡ true → at < length seen.now → slice_index m (address_of op.now - base + at) ≡ slice_index seen.now at) →
        value_in m (4 * word) ≡ v) }
    ensures few { IfSome result (λ v. v < 4294967296) }
{
    let at = place_of(base, op, word)?;
    if !needs_four(op, at) {
        return None;
    }
    let value = value_in(seen, at)?;
    Some(value)
}

/// What the request needs at the word, if it needs all of it.
pub(crate) fn needed_at(
    log: &Log,
    op: &OpRef<'_>,
    told: Option<&ReplyRef<'_>>,
    word: u64,
) -> Option<u64>
    ensures needs { IfSome result (NeedsWord log.now.extent op.now (told_of told.entry) word) }
    ensures few { IfSome result (λ v. v < 4294967296) }
{
    what_is_needed_is_there();
    match told {
        Some(ReplyRef::Data(data)) => needed_in(log.extent().base(), op, data.as_slice(), word),
        _ => None,
    }
}

/// What the operation puts at the word, if it puts all of it: `new` is what it leaves in its range.
fn put_in(base: u64, op: &OpRef<'_>, new: &[u8], word: u64) -> Option<u64>
    ensures puts { IfSome result (λ v. (m : List ℕ) →
        ((at : ℕ) → at < length new.now → effects.is_put op.now at ≡ true → slice_index m (address_of op.now - base + at) ≡ slice_index new.now at) →
        value_in m (4 * word) ≡ v) }
    ensures few { IfSome result (λ v. v < 4294967296) }
{
    let at = place_of(base, op, word)?;
    if !puts_four(op, at) {
        return None;
    }
    let value = value_in(new, at)?;
    Some(value)
}

/// What the request puts at the word, if it puts all of it and that is known.
pub(crate) fn put_at(
    log: &Log,
    op: &OpRef<'_>,
    told: Option<&ReplyRef<'_>>,
    word: u64,
) -> Option<u64>
    ensures leaves { IfSome result (LeavesWord log.now.extent op.now (told_of told.entry) word) }
    ensures few { IfSome result (λ v. v < 4294967296) }
{
    let new = left(log.extent().block(), op, told);
    let value = put_in(log.extent().base(), op, new.as_slice(), word)?;
    Some(value)
}

/// What the request leaves at the word, if that is known.
pub(crate) fn left_at(
    log: &Log,
    op: &OpRef<'_>,
    told: Option<&ReplyRef<'_>>,
    word: u64,
) -> Option<u64>
    ensures leaves { IfSome result (LeavesWord log.now.extent op.now (told_of told.entry) word) }
    ensures few { IfSome result (λ v. v < 4294967296) }
{
    refused_and_read_change_nothing();
    match op {
        OpRef::Read { .. } => needed_at(log, op, told, word),
        _ => put_at(log, op, told, word),
    }
}

/// The operation's range is whole words of the memory.
fn has_whole_words(log: &Log, op: &OpRef<'_>) -> bool
    ensures { IsTrue result → HasWholeWords log.now.extent.base op.now }
{
    match op.address().checked_sub(log.extent().base()) {
        Some(offset) => offset % 4 == 0 && op.size() % 4 == 0,
        None => false,
    }
}

/// It may make no difference to the request what stands in its range: it is no AtomicOp that was answered with data.
fn may_overlook(op: &OpRef<'_>, told: Option<&ReplyRef<'_>>) -> bool {
    matches!(op, OpRef::Read { .. }) || !matches!(told, Some(ReplyRef::Data(_)))
}

/// The request names whole words, and it makes no difference to it what stands there.
fn is_careless(log: &Log, op: &OpRef<'_>, told: Option<&ReplyRef<'_>>) -> bool
    ensures { IsTrue result → IsCareless log.now.extent op.now (told_of told.entry) }
{
    if !may_overlook(op, told) {
        return false;
    }
    has_whole_words(log, op) && overlooks(log, op, told, op)
}

/// A request of a log.
#[derive(Clone, Copy)]
struct Request<'a> {
    b: usize,
    op: &'a OpRef<'a>,
    told: Option<&'a ReplyRef<'a>>,
}

/// A request of a log, and whether it is careless.
#[derive(Clone, Copy)]
struct Judged<'a> {
    request: Request<'a>,
    careless: bool,
}

impl Words {
    /// No request is known.
    fn new(alloc: Global) -> Words
        ensures { (n : ℕ) → AllRise result n }
    {
        Words {
            needed: Lists::new(alloc),
            careless: Lists::new(alloc),
            blind: Lists::new(alloc),
            left: Lists::new(alloc),
            loose: Lists::new(alloc),
            named: Lists::new(alloc),
            wide: Vec::new(alloc),
        }
    }

    /// The request needs this at the word, if that is known, or is careless.
    fn add_need(
        &mut self,
        alloc: Global,
        judged: Judged,
        word: u64,
        need: Option<u64>,
    ) -> Result<(), AllocError>
        requires rise { AllRise self.old judged.request.b }
        requires word { word < 262144 }
        requires few { IfSome need (λ v. v < 4294967296) }
        ensures keeps { OnOk result (Keeps self.old self.new) }
        ensures rise { OnOk result (AllRise self.new judged.entry.request.b) }
        ensures own { OnOk result (Has self.new.blind word judged.entry.request.b ⊎
            (IsTrue judged.entry.careless × Has self.new.careless word judged.entry.request.b) ⊎
            ((v : ℕ) × (need ≡ Some v) × Has self.new.needed (key word v) judged.entry.request.b)) }
    {
        let b = judged.request.b;
        match need {
            Some(value) => self.needed.add(alloc, number_of(word, value), b)?,
            None if judged.careless => self.careless.add(alloc, word, b)?,
            None => self.blind.add(alloc, word, b)?,
        }
        Ok(())
    }

    /// Request `b` leaves this at the word, if that is known.
    fn add_left(
        &mut self,
        alloc: Global,
        word: u64,
        left: Option<u64>,
        b: usize,
    ) -> Result<(), AllocError>
        requires rise { AllRise self.old b }
        requires word { word < 262144 }
        requires few { IfSome left (λ v. v < 4294967296) }
        ensures keeps { OnOk result (Keeps self.old self.new) }
        ensures rise { OnOk result (AllRise self.new b) }
        ensures own { OnOk result (Has self.new.loose word b ⊎ ((v : ℕ) × (left ≡ Some v) × Has self.new.left (key word v) b)) }
    {
        match left {
            Some(value) => self.left.add(alloc, number_of(word, value), b)?,
            None => self.loose.add(alloc, word, b)?,
        }
        Ok(())
    }

    /// Request `b` names no word or many.
    fn add_wide(&mut self, b: usize) -> Result<(), AllocError>
        requires { AllRise self.old b }
        ensures keeps { OnOk result (Keeps self.old self.new) }
        ensures rise { OnOk result (AllRise self.new b) }
        ensures own { OnOk result (InList self.new.wide b) }
    {
        self.wide.push(b)?;
        Ok(())
    }

    /// Request `b` names bytes of the word.
    fn add_name(&mut self, alloc: Global, word: u64, b: usize) -> Result<(), AllocError>
        requires { AllRise self.old b }
        ensures keeps { OnOk result (Keeps self.old self.new) }
        ensures rise { OnOk result (AllRise self.new b) }
        ensures own { OnOk result (Has self.new.named word b) }
    {
        self.named.add(alloc, word, b)?;
        Ok(())
    }

    /// Takes the request at the word, bytes of which its operation names.
    fn add_at(
        &mut self,
        alloc: Global,
        log: &Log,
        judged: Judged,
        word: u64,
    ) -> Result<(), AllocError>
        requires rise { AllRise self.old judged.request.b }
        requires careless { IsTrue judged.careless → IsCareless log.now.extent judged.request.op.now (told_of judged.request.told) }
        requires word { word < 262144 }
        ensures keeps { OnOk result (Keeps self.old self.new) }
        ensures rise { OnOk result (AllRise self.new judged.entry.request.b) }
        ensures own { OnOk result (IsKnownAt log.now.extent self.new judged.entry.request.b judged.entry.request.op.now
            (told_of judged.entry.request.told) word) }
    {
        let Request { b, op, told } = judged.request;
        self.add_name(alloc, word, b)?;
        self.add_need(alloc, judged, word, needed_at(log, op, told, word))?;
        self.add_left(alloc, word, left_at(log, op, told, word), b)?;
        Ok(())
    }

    /// Takes the request at the words from the first up to the other.
    fn add_words(
        &mut self,
        alloc: Global,
        log: &Log,
        judged: Judged,
        words: (u64, u64),
    ) -> Result<(), AllocError>
        requires rise { AllRise self.old judged.request.b }
        requires careless { IsTrue judged.careless → IsCareless log.now.extent judged.request.op.now (told_of judged.request.told) }
        requires few { words.1 ≤ 262144 }
        ensures keeps { OnOk result (Keeps self.old self.new) }
        ensures rise { OnOk result (AllRise self.new judged.entry.request.b) }
        ensures own { OnOk result ((w : ℕ) → words.0 ≤ w → w < words.1 →
            IsKnownAt log.now.extent self.new judged.entry.request.b judged.entry.request.op.now (told_of judged.entry.request.told) w) }
    {
        for word in words.0..words.1 {
            self.add_at(alloc, log, judged, word)?;
        }
        Ok(())
    }

    /// Takes the request.
    fn add_request(&mut self, alloc: Global, log: &Log, request: Request) -> Result<(), AllocError>
        requires { AllRise self.old request.b }
        ensures keeps { OnOk result (Keeps self.old self.new) }
        ensures rise { OnOk result (AllRise self.new request.entry.b) }
        ensures own { OnOk result (IsTaken log.now.extent self.new request.entry.b request.entry.op.now (told_of request.entry.told)) }
    {
        let Request { b, op, told } = request;
        if op.size() == 0 || op.size() > MOST_BYTES {
            self.add_wide(b)?;
            return Ok(());
        }
        let words = words_near(log, op);
        let judged = Judged {
            request,
            careless: is_careless(log, op, told),
        };
        self.add_words(alloc, log, judged, words)?;
        Ok(())
    }

    /// Takes the event of the log at that place, if it is a request.
    fn add_event(&mut self, alloc: Global, log: &Log, at: usize) -> Result<(), AllocError>
        requires { AllRise self.old at }
        ensures keeps { OnOk result (Keeps self.old self.new) }
        ensures rise { OnOk result (AllRise self.new at) }
        ensures own { OnOk result ((i : ℕ) (op : Op) (told : Option Reply) → slice_get log.now.events at ≡ Some (events.Sub i op told) →
            IsTaken log.now.extent self.new at op told) }
    {
        match log.event(at) {
            Some(Event::Sub { op, reply, .. }) => {
                let request = Request {
                    b: at,
                    op: &op,
                    told: reply.as_ref(),
                };
                self.add_request(alloc, log, request)?;
            }
            Some(Event::Due { .. }) => {}
            Some(Event::Free) => {}
            None => {}
        }
        Ok(())
    }

    /// Takes the event of the log at that place, the next one.
    fn add(&mut self, alloc: Global, log: &Log, at: usize) -> Result<(), AllocError>
        requires { AreWords log.now self.old at }
        ensures { OnOk result (AreWords log.now self.new (at + 1)) }
    {
        self.add_event(alloc, log, at)?;
        Ok(())
    }
}

/// The words of the memory from the first up to the end of those that have bytes of the operation.
fn words_near(log: &Log, op: &OpRef<'_>) -> (u64, u64)
    ensures few { result.1 ≤ 262144 }
    ensures all { (w : ℕ) → Touches log.now.extent.base op.now w → w < log.now.extent.size / 4 → (result.0 ≤ w) × (w < result.1) }
{
    let extent = log.extent();
    let offset = op.address().saturating_sub(extent.base());
    let first = offset / 4;
    let count = (offset % 4 + u64::from(op.size()) + 3) / 4;
    let words = extent.size() as u64 / 4;
    if first >= words {
        return (0, 0);
    }
    (first, words.min(first + count))
}

/// What the requests of the log need of each word of its memory, and leave there. It looks at each event
/// once.
///
/// Its memory grows with the words that the requests name. It returns `Err` only if it runs out of
/// memory.
pub fn words_of(alloc: Global, log: &Log) -> Result<Words, AllocError>
    ensures { IfOk result (IsWords log.now) }
{
    let mut words = Words::new(alloc);
    for at in 0..log.len() {
        words.add(alloc, log, at)?;
    }
    Ok(words)
}
