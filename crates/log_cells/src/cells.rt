//! A memory, divided into ranges that no request crosses the ends of.
ghost use Rattle.std.specs.Prelude.{◌≡◌, ◌+◌, ◌-◌, ◌*◌, ◌/◌, ◌^◌, ◌<◌, ◌≤◌, ℕ, Some, IfOk, IfSome, IfNone, IsTrue, length, replicate, slice_get, slice_set};
ghost use Rattle.std.specs.List.{All};
ghost use Rattle.seq_memory.specs.Limits as limits;
ghost use Rattle.log_cells.specs.declared.cells.Word.TheVariants as kinds;
ghost use Rattle.log_cells.specs.Cells.{IsRising, IsDivided, AreCells};
ghost use Rattle.log_cells.specs.Marks.{IsCut, Keeps, AreJoined, IsBeginning, IsBound, IsSplit};

use crate::places::{Place, places_of};
use log_runs::Log;
use seq_memory::Extent;
use std::alloc::{AllocError, Global};
use std::marker::Model;

/// The bytes of a word, the least that is looked at.
const WORD: u64 = 4;

/// The most events that are looked at for all parts together.
const WORK: usize = 33_554_432;

/// What requests say of a word of the memory.
#[derive(Clone, Copy)]
pub(crate) enum Word {
    /// No request names it.
    Unused,
    /// One does.
    Used,
    /// One names it and the next word.
    Joined,
}

/// The memory of a log, divided into ranges that no request crosses the ends of, and the bytes that
/// each event names. There are so few ranges that all their parts together take time in proportion to
/// the log.
#[derive(Drop)]
pub struct Cells {
    places: Vec<Place>,
    /// Where the ranges begin, and where the last one ends.
    bounds: Vec<u64>,
}

impl Model for Cells {
    ghost use Rattle.log_cells.specs.CellsView.{CellsView};

    ghost Value = { CellsView };

    ghost view = { λ m. record { places = m.places.items; bounds = m.bounds.items } };

    ghost invariant = { λ m. Unit {0} };
}

/// The first word and the last that the place has, if it lies in the memory.
fn words_of(place: Place, extent: Extent) -> Option<(usize, usize)>
    ensures some { IfSome result (λ r. (k : ℕ) → IsCut extent (extent.base + 4 * (k + 1)) place → (r.0 ≤ k) × (k < r.1)) }
    ensures none { IfNone result ((k : ℕ) → IsCut extent (extent.base + 4 * (k + 1)) place → ⊥) }
{
    let base = extent.base();
    let size = extent.size() as u64;
    if place.count == 0 || place.from < base {
        return None;
    }
    let first = place.from - base;
    let count = u64::from(place.count);
    if size < count || size - count < first {
        return None;
    }
    let last = first + (count - 1);
    Some(((first / WORD) as usize, (last / WORD) as usize))
}

fn unused(alloc: Global, count: usize) -> Result<Vec<Word>, AllocError>
    ensures { IfOk result (λ v. v.items ≡ replicate count kinds.Unused) }
{
    vec![in alloc; Word::Unused; count]
}

/// The requests say this of the word, if there is one.
fn set(words: &mut [Word], at: usize, word: Word)
    ensures { words.new ≡ slice_set words.old at word }
{
    if at < words.len() {
        words[at] = word;
    }
}

/// A request names the word.
fn name(words: &mut [Word], at: usize)
    ensures { Keeps words.old words.new }
{
    if let Some(Word::Unused) = words.get(at) {
        set(words, at, Word::Used);
    }
}

/// A request names these words.
fn join(words: &mut [Word], first: usize, last: usize)
    ensures keeps { Keeps words.old words.new }
    ensures joined { (k : ℕ) → first ≤ k → k < last → k < length words.old → slice_get words.new k ≡ Some kinds.Joined }
{
    for at in first..last {
        set(words, at, Word::Joined);
    }
    name(words, last);
}

/// A request names the words of the place.
fn mark(words: &mut [Word], place: Place, extent: Extent)
    requires { length words.old ≡ extent.size / 4 }
    ensures keeps { Keeps words.old words.new }
    ensures joined { (k : ℕ) → IsCut extent (extent.base + 4 * (k + 1)) place → slice_get words.new k ≡ Some kinds.Joined }
{
    if let Some((first, last)) = words_of(place, extent) {
        join(words, first, last);
    }
}

/// What the requests at these places say of each word.
fn joined(alloc: Global, places: &[Place], extent: Extent) -> Result<Vec<Word>, AllocError>
    ensures len { IfOk result (λ v. length v.items ≡ extent.size / 4) }
    ensures joined { IfOk result (λ v. AreJoined extent places.now v.items (length places.now)) }
{
    let mut words = unused(alloc, extent.size() / WORD as usize)?;
    for at in 0..places.len() {
        mark(words.as_mut_slice(), places[at], extent);
    }
    Ok(words)
}

/// A request names the word.
fn is_named(words: &[Word], at: usize) -> bool {
    matches!(words.get(at), Some(Word::Used | Word::Joined))
}

/// A request names the word and the next.
fn is_joined(words: &[Word], at: usize) -> bool
    ensures { slice_get words.now at ≡ Some kinds.Joined → IsTrue result }
{
    match words.get(at) {
        Some(Word::Joined) => true,
        _ => false,
    }
}

/// A cell begins with the word.
fn begins(words: &[Word], at: usize) -> bool
    requires { at < length words.now }
    ensures { IsTrue result → IsBeginning words.now at }
{
    if at == 0 {
        return is_named(words, at);
    }
    if is_joined(words, at - 1) {
        return false;
    }
    is_named(words, at)
}

/// The words with which cells begin.
fn beginnings(alloc: Global, words: &[Word]) -> Result<Vec<usize>, AllocError>
    ensures begin { IfOk result (λ v. All (IsBeginning words.now) v.items) }
    ensures rising { IfOk result (λ v. IsRising v.items) }
{
    let mut beginnings = Vec::new(alloc);
    for at in 0..words.len() {
        if begins(words, at) {
            beginnings.push(at)?;
        }
    }
    Ok(beginnings)
}

/// The address of the word.
fn address_of(extent: Extent, word: usize) -> u64
    requires { word < extent.size / 4 }
    ensures { result ≡ extent.base + 4 * word }
{
    let size = extent.size();
    extent.base() + WORD * word as u64
}

/// The bounds of ranges of so many cells each.
fn bounds_of(
    alloc: Global,
    beginnings: &[usize],
    each: usize,
    extent: Extent,
) -> Result<Vec<u64>, AllocError>
    requires within { All (λ b. b < extent.size / 4) beginnings.now }
    requires rising { IsRising beginnings.now }
    ensures bound { IfOk result (λ v. All (IsBound extent beginnings.now) v.items) }
    ensures divided { IfOk result (λ v. IsDivided extent v.items) }
{
    let mut bounds = Vec::new(alloc);
    bounds.push(extent.base())?;
    // The first cell is in the first range, which begins with the memory.
    let mut cells = 1usize;
    for at in 1..beginnings.len() {
        if cells == each {
            bounds.push(address_of(extent, beginnings[at]))?;
            cells = 0;
        }
        cells = cells.saturating_add(1);
    }
    bounds.push(extent.base().saturating_add(extent.size() as u64))?;
    Ok(bounds)
}

/// How many bounds there are up to the address.
fn up_to(bounds: &[u64], address: u64) -> usize
    ensures { IsRising bounds.now → IsSplit bounds.now address result }
{
    bounds.partition_point(|bound| *bound <= address)
}

impl Cells {
    /// Divides a log's memory into ranges. No request whose bytes the memory has crosses the end of
    /// one. A byte at 2^64 - 1 is in no range.
    pub fn of(alloc: Global, log: &Log<'_>) -> Result<Self, AllocError>
        ensures { IfOk result (AreCells log.now) }
    {
        let places = places_of(alloc, log)?;
        let extent = log.extent();
        let words = joined(alloc, &places, extent)?;
        let beginnings = beginnings(alloc, &words)?;
        let most = WORK / places.len().saturating_add(1);
        let each = beginnings.len() / most.saturating_add(1) + 1;
        let bounds = bounds_of(alloc, &beginnings, each, extent)?;
        Ok(Cells { places, bounds })
    }

    /// How many ranges there are.
    pub fn count(&self) -> usize
        ensures { result ≡ length self.now.bounds - 1 }
    {
        self.bounds.len().saturating_sub(1)
    }

    /// The addresses where a range begins and ends, if there is one.
    pub fn range(&self, range: usize) -> Option<(u64, u64)>
        ensures low { IfSome result (λ r. slice_get self.now.bounds range ≡ Some r.0) }
        ensures high { IfSome result (λ r. slice_get self.now.bounds (range + 1) ≡ Some r.1) }
        ensures none { IfNone result (length self.now.bounds ≤ range + 1) }
    {
        let low = self.bounds.get(range)?;
        let high = self.bounds.get(range.checked_add(1)?)?;
        Some((*low, *high))
    }

    /// The range that has the address, by the addresses where it begins and ends, if one has it.
    /// Each address of the memory is in one, but for 2^64 - 1.
    pub fn around(&self, address: u64) -> Option<(u64, u64)>
        ensures range { IfSome result (λ r. (j : ℕ) × (slice_get self.now.bounds j ≡ Some r.0) × (slice_get self.now.bounds (j + 1) ≡ Some r.1)) }
        ensures has { IfSome result (λ r. (r.0 ≤ address) × (address < r.1)) }
        ensures none { IfNone result ((x : limits.Extent) → IsDivided x self.now.bounds → x.base ≤ address → address < x.base + x.size →
            address + 1 < 2 ^ 64 → ⊥) }
    {
        let behind = up_to(&self.bounds, address);
        let (low, high) = self.range(behind.checked_sub(1)?)?;
        if low <= address && address < high {
            Some((low, high))
        } else {
            None
        }
    }

    pub(crate) fn places(&self) -> &[Place]
        ensures { result.now ≡ self.now.places }
    {
        &self.places
    }
}
