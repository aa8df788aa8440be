//! Which requests may be something to a request at a word.
//!
//! Each word of a request is looked at by itself: [`span_of`] says which it has. Whoever names bytes of
//! such a word either is in one of the lists that are returned for it, or is nothing to the request.
ghost use Rattle.std.specs.Prelude.{◌≡◌, ◌+◌, ◌*◌, ◌<◌, ◌≤◌, ◌/◌, ◌⊎◌, ℕ, Option, Some, None, IfSome, IsTrue, length, slice_get};
ghost use Rattle.tlp_core.specs.Ops.{Op};
ghost use Rattle.tlp_core.specs.Operation.{address_of, count_of};
ghost use Rattle.seq_memory.specs.Entries.{Reply};
ghost use Rattle.seq_memory.specs.Step.{refusal};
ghost use Rattle.log_runs.specs.EventView as events;
ghost use Rattle.search_words.specs.Lists.{Has, InList};
ghost use Rattle.search_words.specs.Words.{value_in, AllRise, IsWords, MayNeed, NamesWord, IsNear, HasWord, HasWordAt, NeedsWordAt, LeavesWord, LeavesWordAt, IsOutAt, key};
ghost use Rattle.search_rules.specs.Idle.{IsJunkBehind};
ghost use Rattle.search_rules.specs.Rules.{NeverBrings, Yields, LetsFirst, Names, IsJunkAt, LeavesJunkAt, AreApartThere};

use crate::lists::window;
use crate::words::{Words, left_at, needed_at, number_of, place_in, value_in};
use log_runs::laws::headers_are_of_events;
use log_runs::{Event, EventHeader, Log};
use search_effects::laws::what_takes_a_reply_away_yields;
use search_rules::{Made, is_served};

/// Requests in four lists. One may be in several of them.
#[derive(Clone, Copy)]
pub struct Near<'a> {
    /// They name no word or many.
    pub wide: &'a [usize],
    /// They name bytes of the word, and it isn't known what they need or leave there.
    pub unknown: &'a [usize],
    /// They need the value of the word, or leave it there.
    pub known: &'a [usize],
    /// They write all of the word, whatever stands there, or are reads that weren't answered.
    pub careless: &'a [usize],
}

/// The requests at a word, from one place of the log on and before another.
#[derive(Clone, Copy)]
pub struct Stretch {
    pub word: u64,
    pub from: usize,
    pub to: usize,
}

/// The first word of the memory that has bytes of the request, and the end of those that do, if all of
/// its range is in the memory and it has some.
pub fn span_of(log: &Log, q: usize) -> Option<(u64, u64)>
    ensures inside { IfSome result (λ r. r.1 ≤ log.now.extent.size / 4) }
    ensures own { IfSome result (λ r. (w : ℕ) → Names log.now q w → (r.0 ≤ w) × (w < r.1)) }
    ensures all { IfSome result (λ r. (b : ℕ) → AreApartThere log.now b q ⊎ ((w : ℕ) × (r.0 ≤ w) × (w < r.1) × NamesWord log.now b w)) }
{
    headers_are_of_events();
    let Some(EventHeader::Sub { address, size, .. }) = log.header(q) else {
        return None;
    };
    let extent = log.extent();
    let offset = address.checked_sub(extent.base())?;
    let end = offset.checked_add(u64::from(size))?;
    if size == 0 || end > extent.size() as u64 {
        return None;
    }
    Some((offset / 4, (end + 3) / 4))
}

/// The requests of the stretch that name bytes of the word.
fn near_by_name(words: &Words, stretch: Stretch) -> Near<'_>
    requires { (n : ℕ) × AllRise words.now n }
    ensures { (b : ℕ) → stretch.from ≤ b → b < stretch.to → InList words.now.wide b ⊎ Has words.now.named stretch.word b → IsNear result b }
{
    let Stretch { word, from, to } = stretch;
    Near {
        wide: window(words.wide.as_slice(), from, to),
        unknown: words.named.between(word, from, to),
        known: &[],
        careless: &[],
    }
}

/// The requests of the stretch that need the value of the word, or of which that isn't known; and those of a list.
fn near_by_need<'a>(
    words: &'a Words,
    stretch: Stretch,
    value: u64,
    careless: &'a [usize],
) -> Near<'a>
    requires rise { (n : ℕ) × AllRise words.now n }
    requires word { stretch.word < 262144 }
    requires value { value < 4294967296 }
    ensures need { (b : ℕ) → stretch.from ≤ b → b < stretch.to → MayNeed words.now stretch.word value b → IsNear result b }
    ensures careless { (b : ℕ) → InList careless.now b → IsNear result b }
{
    let Stretch { word, from, to } = stretch;
    Near {
        wide: window(words.wide.as_slice(), from, to),
        unknown: words.blind.between(word, from, to),
        known: words.needed.between(number_of(word, value), from, to),
        careless,
    }
}

/// The requests of the stretch that leave the value at the word, or of which that isn't known.
fn near_by_left(words: &Words, stretch: Stretch, value: u64) -> Near<'_>
    requires rise { (n : ℕ) × AllRise words.now n }
    requires word { stretch.word < 262144 }
    requires value { value < 4294967296 }
    ensures { (b : ℕ) → stretch.from ≤ b → b < stretch.to →
        InList words.now.wide b ⊎ Has words.now.loose stretch.word b ⊎ Has words.now.left (key stretch.word value) b → IsNear result b }
{
    let Stretch { word, from, to } = stretch;
    Near {
        wide: window(words.wide.as_slice(), from, to),
        unknown: words.loose.between(word, from, to),
        known: words.left.between(number_of(word, value), from, to),
        careless: &[],
    }
}

/// The range, by its first address and its number of bytes, has all of the word.
fn has_word(base: u64, range: (u64, u32), word: u64) -> bool
    ensures { IsTrue result → (op : Op) → address_of op ≡ range.0 → count_of op ≡ range.1 → HasWord base op word }
{
    place_in(base, range, word).is_some()
}

/// The requests of the stretch to which it makes no difference what stands at the word.
fn careless_at(words: &Words, stretch: Stretch) -> &[usize]
    requires { (n : ℕ) × AllRise words.now n }
    ensures { (b : ℕ) → stretch.from ≤ b → b < stretch.to → Has words.now.careless stretch.word b → InList result.now b }
{
    words
        .careless
        .between(stretch.word, stretch.from, stretch.to)
}

/// What stands at the word, all of which is in the range of request `q`.
fn found_of(log: &Log, bytes: &[u8], q: usize, word: u64) -> Option<u64>
    requires { word < log.now.extent.size / 4 }
    ensures word { IfSome result (λ v. HasWordAt log.now q word) }
    ensures value { IfSome result (λ v. v ≡ value_in bytes.now (4 * word)) }
    ensures few { IfSome result (λ v. v < 4294967296) }
    ensures words { IfSome result (λ v. word < 262144) }
{
    let extent = log.extent();
    let Some(EventHeader::Sub { address, size, .. }) = log.header(q) else {
        return None;
    };
    if !has_word(extent.base(), (address, size), word) {
        return None;
    }
    let value = value_in(bytes, (4 * word) as usize)?;
    Some(value)
}

/// What request `q` needs at the word, if it needs all of it.
fn need_of(log: &Log, q: usize, word: u64) -> Option<u64>
    requires { word < log.now.extent.size / 4 }
    ensures needs { IfSome result (NeedsWordAt log.now q word) }
    ensures few { IfSome result (λ v. v < 4294967296) }
    ensures words { IfSome result (λ v. word < 262144) }
{
    let _extent = log.extent();
    let Some(Event::Sub { op, reply, .. }) = log.event(q) else {
        return None;
    };
    let Some(reply) = reply else {
        return None;
    };
    let value = needed_at(log, &op, Some(&reply), word)?;
    Some(value)
}

/// What request `g`, which would be served, leaves at the word, if that is known.
fn left_of(log: &Log, g: usize, word: u64) -> Option<u64>
    requires { word < log.now.extent.size / 4 }
    ensures leaves { IfSome result (LeavesWordAt log.now g word) }
    ensures few { IfSome result (λ v. v < 4294967296) }
    ensures words { IfSome result (λ v. word < 262144) }
{
    let _extent = log.extent();
    let Some(Event::Sub { op, reply, .. }) = log.event(g) else {
        return None;
    };
    if !is_served(log, &op) {
        return None;
    }
    let value = left_at(log, &op, reply.as_ref(), word)?;
    Some(value)
}

/// The requests of the stretch that may act while the word has the value; of
/// those that name bytes of the word.
pub fn near_value<'a>(words: &'a Words, log: &Log, stretch: Stretch, value: u32) -> Near<'a>
    requires words { IsWords log.now words.now }
    requires word { stretch.word < log.now.extent.size / 4 }
    ensures { (b : ℕ) → stretch.from ≤ b → b < stretch.to → NamesWord log.now b stretch.word → IsNear result b ⊎ IsOutAt log.now b stretch.word value }
{
    let _extent = log.extent();
    let careless = careless_at(words, stretch);
    near_by_need(words, stretch, u64::from(value), careless)
}

/// The requests of the stretch that may act before request `q` although these
/// bytes stand at its addresses; of those that name bytes of the word.
pub fn near_there<'a>(
    words: &'a Words,
    log: &Log,
    bytes: &[u8],
    q: usize,
    stretch: Stretch,
) -> Near<'a>
    requires words { IsWords log.now words.now }
    requires word { stretch.word < log.now.extent.size / 4 }
    ensures first { (b : ℕ) → stretch.from ≤ b → b < stretch.to → NamesWord log.now b stretch.word → IsNear result b ⊎ LetsFirst log.now bytes.now b q }
{
    match found_of(log, bytes, q, stretch.word) {
        Some(value) => {
            let careless = careless_at(words, stretch);
            near_by_need(words, stretch, value, careless)
        }
        None => near_by_name(words, stretch),
    }
}

/// The requests of the stretch to which it may be something that these bytes
/// stand at the word; of those that name bytes of it.
pub fn near_junk<'a>(words: &'a Words, log: &Log, bytes: &[u8], stretch: Stretch) -> Near<'a>
    requires words { IsWords log.now words.now }
    requires word { stretch.word < log.now.extent.size / 4 }
    ensures { (b : ℕ) → stretch.from ≤ b → b < stretch.to → NamesWord log.now b stretch.word → IsNear result b ⊎ IsJunkAt log.now bytes.now b stretch.word }
{
    let _extent = log.extent();
    match value_in(bytes, (4 * stretch.word) as usize) {
        Some(value) => near_by_need(words, stretch, value, &[]),
        None => near_by_name(words, stretch),
    }
}

/// The requests of the stretch that may bring what request `q` needs, or don't
/// yield to it; of those that name bytes of the word.
pub fn near_needed<'a>(words: &'a Words, log: &Log, q: usize, stretch: Stretch) -> Near<'a>
    requires words { IsWords log.now words.now }
    requires word { stretch.word < log.now.extent.size / 4 }
    ensures brings { (b : ℕ) → stretch.from ≤ b → b < stretch.to → NamesWord log.now b stretch.word → IsNear result b ⊎ NeverBrings log.now b q }
    ensures yields { (b : ℕ) → stretch.from ≤ b → b < stretch.to → NamesWord log.now b stretch.word → IsNear result b ⊎ Yields log.now b q }
{
    what_takes_a_reply_away_yields();
    match need_of(log, q, stretch.word) {
        Some(value) => near_by_left(words, stretch, value),
        None => near_by_name(words, stretch),
    }
}

/// The requests of the stretch to which it may be something what request `g`
/// leaves at the word; of those that name bytes of it.
pub fn near_left<'a>(words: &'a Words, log: &Log, g: usize, stretch: Stretch) -> Near<'a>
    requires words { IsWords log.now words.now }
    requires word { stretch.word < log.now.extent.size / 4 }
    ensures { (b : ℕ) → stretch.from ≤ b → b < stretch.to → NamesWord log.now b stretch.word → IsNear result b ⊎ LeavesJunkAt log.now b g stretch.word }
{
    match left_of(log, g, stretch.word) {
        Some(value) => near_by_need(words, stretch, value, &[]),
        None => near_by_name(words, stretch),
    }
}

/// [`careless_at`], if a range of so many bytes may have more than the word.
fn careless_beside(words: &Words, stretch: Stretch, size: u32) -> &[usize]
    requires { (n : ℕ) × AllRise words.now n }
    ensures { 4 < size → (b : ℕ) → stretch.from ≤ b → b < stretch.to → Has words.now.careless stretch.word b → InList result.now b }
{
    if size <= 4 {
        return &[];
    }
    careless_at(words, stretch)
}

/// What the operation, which would be served, leaves at the word, all of which is in its range, where it is answered so.
fn made_at(log: &Log, made: Made, word: u64) -> Option<u64>
    requires { word < log.now.extent.size / 4 }
    ensures word { IfSome result (λ v. HasWord log.now.extent.base made.entry.op.now word) }
    ensures served { IfSome result (λ v. refusal log.now.extent.base log.now.extent.size log.now.extent.block made.entry.op.now ≡ None) }
    ensures leaves { IfSome result (LeavesWord log.now.extent made.entry.op.now (Some made.entry.reply.now) word) }
    ensures few { IfSome result (λ v. v < 4294967296) }
    ensures words { IfSome result (λ v. word < 262144) }
{
    let Made { op, reply } = made;
    let extent = log.extent();
    if !has_word(extent.base(), (op.address(), op.size()), word) || !is_served(log, op) {
        return None;
    }
    let value = left_at(log, op, Some(reply), word)?;
    Some(value)
}

/// The requests of the stretch to which it may be something what the operation leaves, where it is answered so; of those that
/// name bytes of the word.
pub fn near_made<'a>(words: &'a Words, log: &Log, made: Made, stretch: Stretch) -> Near<'a>
    requires words { IsWords log.now words.now }
    requires word { stretch.word < log.now.extent.size / 4 }
    ensures { (b : ℕ) → stretch.from ≤ b → b < stretch.to → NamesWord log.now b stretch.word →
        IsNear result b ⊎ IsJunkBehind log.now made.entry.op.now made.entry.reply.now b }
{
    match made_at(log, made, stretch.word) {
        Some(value) => {
            let careless = careless_beside(words, stretch, made.op.size());
            near_by_need(words, stretch, value, careless)
        }
        None => near_by_name(words, stretch),
    }
}

/// The requests of the stretch that name bytes of the word.
pub fn near_named<'a>(words: &'a Words, log: &Log, stretch: Stretch) -> Near<'a>
    requires words { IsWords log.now words.now }
    requires word { stretch.word < log.now.extent.size / 4 }
    ensures { (b : ℕ) → stretch.from ≤ b → b < stretch.to → NamesWord log.now b stretch.word → IsNear result b }
{
    near_by_name(words, stretch)
}
