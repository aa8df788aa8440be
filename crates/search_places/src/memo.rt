//! Places from which no run leads to the end.
ghost use Rattle.std.specs.Prelude.{◌≡◌, ◌+◌, ◌++◌, ◌∷◌, [], ℕ, IsTrue, IfSome, length, replicate};
ghost use Rattle.std.specs.List.{All};
ghost use Rattle.log_runs.specs.LogView.{LogView};
ghost use Rattle.log_runs.specs.Runs.{Dead};
ghost use Rattle.search_places.specs.Places.{IsPlace};
ghost use Rattle.search_places.specs.Known.{whole, IsEven, IsDeadKey, IsDeadEntry, AreDead};

use crate::place::Place;
use std::alloc::{AllocError, Global};
use std::collections::HashMap;

/// How many bytes may be remembered.
const ROOM: usize = 268_435_456;

/// How many bytes a key takes at most beside its requests and the memory's bytes: 96 in the list of
/// keys and 32 for each of its two marks, twice as many where list and table have just grown, and
/// 16 for each of its three lists.
const OVERHEAD: usize = 368;

/// No place in the list of keys.
const NONE: usize = usize::MAX;

/// A place, but for who has acted: of the requests that were passed, those that aren't pending. Of the memory's
/// bytes it has the blocks that aren't zeros, and how many zeros stand before each and at the end.
#[derive(PartialEq, Drop)]
pub(crate) struct Key {
    event: usize,
    pending: Vec<u32>,
    gaps: Vec<u32>,
    bytes: Vec<u8>,
    after: usize,
}

/// A key, and where the last one before it is that has the same mark, or `NONE`.
#[derive(Drop)]
struct Entry {
    key: Key,
    next: usize,
}

/// Places from which no run leads to the end, as far as there is room for them: 256 MiB.
#[derive(Drop)]
pub struct Memo {
    entries: Vec<Entry>,
    /// Where the newest key is, by each of its two marks: that of the place but for the bytes, and
    /// that of all of it. Where one of them is missing, no key has to be compared.
    newest: HashMap<u64, usize>,
    /// How many bytes more may be remembered.
    room: usize,
}

/// A number that depends on two, on neither in proportion.
fn mix(mark: u64, number: u64) -> u64 {
    let product = (mark ^ number).wrapping_mul(0x9E37_79B9_7F4A_7C15);
    product ^ product >> 29
}

/// A number that depends on the place, but for the bytes.
fn first_mark(place: &Place) -> u64 {
    let mut mark = place.event as u64;
    for b in place.pending.as_slice() {
        mark = mix(mark, *b as u64);
    }
    mark
}

/// How many bytes are a block.
const BLOCK: usize = 64;

/// They are a block of zeros.
fn is_zero_block(bytes: &[u8]) -> bool
    ensures { IsTrue result → bytes.now ≡ replicate 64 0 }
{
    bytes == [0u8; BLOCK].as_slice()
}

/// A number that depends on the first mark and on the bytes, and how many blocks of them aren't zeros.
fn whole_mark(first: u64, bytes: &[u8]) -> (u64, usize) {
    let (blocks, _) = bytes.as_chunks::<BLOCK>();
    let mut mark = first;
    let mut count = 0usize;
    for number in 0..blocks.len() {
        let block = blocks[number].as_slice();
        if !is_zero_block(block) {
            mark = mix_words(mix(mark, number as u64), block.as_chunks::<8>().0);
            count = count.saturating_add(1);
        }
    }
    (mark, count)
}

fn mix_words(mut mark: u64, words: &[[u8; 8]]) -> u64 {
    for word in words {
        mark = mix(mark, u64::from_le_bytes(*word));
    }
    mark
}

/// Adds the number, if it is less than 2^32 and there is memory.
fn add_narrow(numbers: &mut Vec<u32>, number: usize) -> Option<()>
    ensures { IfSome result (λ u. numbers.new.items ≡ numbers.old.items ++ number ∷ []) }
{
    if number > 4_294_967_295 {
        return None;
    }
    numbers.push(number as u32).ok()
}

/// The numbers in half the room; None if one is too large for that, or there is no memory.
fn narrowed(alloc: Global, numbers: &[usize]) -> Option<Vec<u32>>
    ensures { IfSome result (λ v. v.items ≡ numbers.now) }
{
    let mut narrow = Vec::with_capacity(alloc, numbers.len()).ok()?;
    for number in numbers {
        add_narrow(&mut narrow, *number)?;
    }
    Some(narrow)
}

/// A block of zeros more.
fn more_zeros(zeros: usize) -> Option<usize>
    ensures { IfSome result (λ n. n ≡ zeros + 64) }
{
    zeros.checked_add(BLOCK)
}

/// Adds the bytes, if there is memory.
fn add_bytes(bytes: &mut Vec<u8>, more: &[u8]) -> Option<()>
    ensures { IfSome result (λ u. bytes.new.items ≡ bytes.old.items ++ more.now) }
{
    bytes.extend_from_slice(more).ok()
}

/// Adds a block to the bytes of a key.
fn add_block(key: &mut Key, block: &[u8]) -> Option<()>
    requires { length block.now ≡ 64 }
    ensures event { IfSome result (λ u. key.new.event ≡ key.old.event) }
    ensures pending { IfSome result (λ u. key.new.pending.items ≡ key.old.pending.items) }
    ensures even { IfSome result (λ u. IsEven key.old → IsEven key.new) }
    ensures bytes { IfSome result (λ u. IsEven key.old → whole key.new ≡ whole key.old ++ block.now) }
{
    if is_zero_block(block) {
        key.after = more_zeros(key.after)?;
        return Some(());
    }
    add_narrow(&mut key.gaps, key.after)?;
    add_bytes(&mut key.bytes, block)?;
    key.after = 0;
    Some(())
}

/// The key of a place where so many blocks aren't zeros. None if there is no memory for it, the place has a number of
/// 2^32 or more, or the memory's bytes aren't whole blocks.
fn key_of(alloc: Global, place: &Place, blocks: usize) -> Option<Key>
    ensures event { IfSome result (λ k. k.event ≡ place.now.state.event) }
    ensures pending { IfSome result (λ k. k.pending.items ≡ place.now.pending) }
    ensures bytes { IfSome result (λ k. whole k ≡ place.now.state.bytes) }
{
    let mut key = Key {
        event: place.event,
        pending: narrowed(alloc, place.pending.as_slice())?,
        gaps: Vec::with_capacity(alloc, blocks).ok()?,
        bytes: Vec::with_capacity(alloc, blocks.saturating_mul(BLOCK)).ok()?,
        after: 0,
    };
    let mut rest = place.bytes.as_slice();
    while rest.len() >= BLOCK {
        add_block(&mut key, &rest[..BLOCK])?;
        rest = &rest[BLOCK..];
    }
    if rest.is_empty() { Some(key) } else { None }
}

/// How many bytes the key takes of a place where so many requests are pending and so many blocks aren't zeros.
fn cost(pending: usize, blocks: usize) -> usize {
    pending
        .saturating_mul(4)
        .saturating_add(blocks.saturating_mul(BLOCK + 4))
        .saturating_add(OVERHEAD)
}

/// The key is that of the first entry, or of one of the next ones from there.
fn is_among(entries: &[Entry], first: usize, key: &Key) -> bool
    ensures { (log : LogView) → All (IsDeadEntry log) entries.now → IsTrue result → IsDeadKey log key.now }
{
    let mut at = first;
    for _step in 0..entries.len() {
        let Some(entry) = entries.get(at) else {
            return false;
        };
        if entry.key == *key {
            return true;
        }
        at = entry.next;
    }
    false
}

/// Keeps a key.
fn push(entries: &mut Vec<Entry>, key: Key, next: usize) -> Result<(), AllocError>
    ensures { (log : LogView) → All (IsDeadEntry log) entries.old.items → IsDeadKey log key → All (IsDeadEntry log) entries.new.items }
{
    entries.push(Entry { key, next })?;
    Ok(())
}

impl Memo {
    /// Knows no place.
    pub fn new(alloc: Global) -> Memo
        ensures { (log : LogView) → AreDead log result }
    {
        Memo {
            entries: Vec::new(alloc),
            newest: HashMap::new(alloc),
            room: ROOM,
        }
    }

    /// No run leads from the place to the end, as is known. False also where there is no memory for
    /// the look.
    pub fn is_known(&self, alloc: Global, place: &Place) -> bool
        ensures { (log : LogView) → AreDead log self.now → IsPlace log place.now → IsTrue result → Dead log place.now.state }
    {
        let first = first_mark(place);
        if !self.newest.contains_key(&first) {
            return false;
        }
        let (whole, blocks) = whole_mark(first, place.bytes.as_slice());
        let Some(at) = self.newest.get(&whole) else {
            return false;
        };
        let Some(key) = key_of(alloc, place, blocks) else {
            return false;
        };
        is_among(self.entries.as_slice(), *at, &key)
    }

    /// Says that the newest key with these marks is there.
    fn put(&mut self, first: u64, whole: u64, at: usize) -> Result<(), AllocError>
        ensures entries { self.new.entries ≡ self.old.entries }
        ensures room { self.new.room ≡ self.old.room }
    {
        self.newest.insert(first, at)?;
        self.newest.insert(whole, at)?;
        Ok(())
    }

    /// Keeps a key with these marks.
    fn add(&mut self, first: u64, whole: u64, key: Key) -> Result<(), AllocError>
        ensures dead { (log : LogView) → AreDead log self.old → IsDeadKey log key → AreDead log self.new }
        ensures room { self.new.room ≡ self.old.room }
    {
        self.entries.reserve(1)?;
        let at = self.entries.len();
        let next = self.newest.get(&whole).copied().unwrap_or(NONE);
        self.put(first, whole, at)?;
        push(&mut self.entries, key, next)
    }

    /// Remembers a place from which no run leads to the end, if there is room and memory for it.
    pub fn note(&mut self, alloc: Global, place: &Place)
        ensures { (log : LogView) → AreDead log self.old → IsPlace log place.now → Dead log place.now.state → AreDead log self.new }
    {
        if self.room < OVERHEAD {
            return;
        }
        let first = first_mark(place);
        let (whole, blocks) = whole_mark(first, place.bytes.as_slice());
        let cost = cost(place.pending.as_slice().len(), blocks);
        if self.room < cost {
            return;
        }
        let Some(key) = key_of(alloc, place, blocks) else {
            return;
        };
        if self.add(first, whole, key).is_ok() {
            self.room -= cost;
        }
    }
}
