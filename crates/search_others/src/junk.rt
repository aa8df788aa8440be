//! Requests to which it is nothing what stands at words, or what a request leaves there.
ghost use Rattle.std.specs.Prelude.{ℕ, ◌≡◌, ◌<◌, ◌≤◌, ◌/◌, ◌⊎◌, Some, false, IsTrue, slice_get};
ghost use Rattle.search_words.specs.Lists.{InList};
ghost use Rattle.search_words.specs.Words.{IsNear, NamesWord};
ghost use Rattle.search_rules.specs.Rules.{Names, IsJunkAt, LeavesJunkAt};
ghost use Rattle.search_places.specs.Places.{IsPlace};
ghost use Rattle.search_others.specs.Known.{AreOthers};
ghost use Rattle.search_others.specs.Nothing.{IsNothing, Ignores};

use crate::known::Others;
use log_runs::Log;
use search_places::Place;
use search_places::laws::who_is_left_is_pending;
use search_rules::{is_junk_at, leaves_junk_at};
use search_words::{Near, Stretch, near_junk, near_left, span_of};

/// This request and those of the list.
#[derive(Clone, Copy)]
struct Exempt<'a> {
    q: usize,
    but: &'a [usize],
}

/// What may be something to others at a word.
#[derive(Clone, Copy)]
enum Junk<'a> {
    /// What stands there. It isn't asked of those that are exempt.
    Standing(Exempt<'a>),
    /// What this request leaves there.
    LeftBy(usize),
}

/// The list has the request.
fn is_in(list: &[usize], b: usize) -> bool
    ensures { IsTrue result → (i : ℕ) × (slice_get list.now i ≡ Some b) }
{
    list.contains(&b)
}

/// What stands at the word is nothing to request `b`, or it is exempt.
fn overlooks(log: &Log, bytes: &[u8], exempt: Exempt, word: u64, b: usize) -> bool
    requires word { word < log.now.extent.size / 4 }
    ensures { IsTrue result → (exempt.entry.q ≡ b → ⊥) → ((i : ℕ) → slice_get exempt.entry.but.now i ≡ Some b → ⊥) → IsJunkAt log.now bytes.now b word }
{
    if b == exempt.q {
        return true;
    }
    if is_in(exempt.but, b) {
        return true;
    }
    is_junk_at(log, bytes, b, word)
}

/// It is nothing to request `b`.
fn is_nothing(log: &Log, bytes: &[u8], junk: Junk, word: u64, b: usize) -> bool
    requires word { word < log.now.extent.size / 4 }
    ensures { IsTrue result → IsNothing log.now bytes.now junk.entry word b }
{
    match junk {
        Junk::Standing(exempt) => overlooks(log, bytes, exempt, word, b),
        Junk::LeftBy(g) => leaves_junk_at(log, b, g, word),
    }
}

/// [`is_nothing`], or request `b` has acted.
fn ignores(place: &Place, log: &Log, junk: Junk, word: u64, b: usize) -> bool
    requires word { word < log.now.extent.size / 4 }
    ensures { IsTrue result → Ignores log.now place.now.state junk.entry word b }
{
    if place.has_acted(b) {
        return true;
    }
    place.note_looks(1);
    is_nothing(log, place.bytes(), junk, word, b)
}

/// [`ignores`], each of the list.
fn list_ignores(place: &Place, log: &Log, junk: Junk, word: u64, list: &[usize]) -> bool
    requires word { word < log.now.extent.size / 4 }
    ensures { IsTrue result → (b : ℕ) → InList list.now b → Ignores log.now place.now.state junk.entry word b }
{
    for b in list {
        if !ignores(place, log, junk, word, *b) {
            return false;
        }
    }
    true
}

/// [`ignores`], each of those that are near.
fn near_ignore(place: &Place, log: &Log, junk: Junk, word: u64, near: Near) -> bool
    requires word { word < log.now.extent.size / 4 }
    ensures { IsTrue result → (b : ℕ) → IsNear near.entry b → Ignores log.now place.now.state junk.entry word b }
{
    list_ignores(place, log, junk, word, near.wide)
        && list_ignores(place, log, junk, word, near.unknown)
        && list_ignores(place, log, junk, word, near.known)
        && list_ignores(place, log, junk, word, near.careless)
}

/// Those of the stretch of whom it isn't known by the word alone that it is nothing to them.
fn near_of<'a>(
    others: &'a Others,
    log: &Log,
    bytes: &[u8],
    junk: Junk,
    stretch: Stretch,
) -> Near<'a>
    requires others { AreOthers log.now others.now }
    requires word { stretch.word < log.now.extent.size / 4 }
    ensures { (b : ℕ) → stretch.from ≤ b → b < stretch.to → NamesWord log.now b stretch.word →
        IsNear result b ⊎ IsNothing log.now bytes.now junk.entry stretch.word b }
{
    let words = &others.words;
    match junk {
        Junk::Standing(_) => near_junk(words, log, bytes, stretch),
        Junk::LeftBy(g) => near_left(words, log, g, stretch),
    }
}

/// [`ignores`], each of the stretch that names bytes of the word.
fn word_ignored(place: &Place, log: &Log, others: &Others, junk: Junk, stretch: Stretch) -> bool
    requires others { AreOthers log.now others.now }
    requires word { stretch.word < log.now.extent.size / 4 }
    ensures { IsTrue result → (b : ℕ) → stretch.from ≤ b → b < stretch.to → NamesWord log.now b stretch.word →
        Ignores log.now place.now.state junk.entry stretch.word b }
{
    let near = near_of(others, log, place.bytes(), junk, stretch);
    near_ignore(place, log, junk, stretch.word, near)
}

/// [`ignores`], each request, at each word of request `q`.
fn words_ignored(place: &Place, log: &Log, others: &Others, junk: Junk, q: usize) -> bool
    requires place { IsPlace log.now place.now }
    requires others { AreOthers log.now others.now }
    ensures { IsTrue result → (w : ℕ) → Names log.now q w → (b : ℕ) → Ignores log.now place.now.state junk.entry w b }
{
    who_is_left_is_pending();
    let Some((first, end)) = span_of(log, q) else {
        return false;
    };
    let from = place.earliest();
    let to = log.len();
    for word in first..end {
        let stretch = Stretch { word, from, to };
        if !word_ignored(place, log, others, junk, stretch) {
            return false;
        }
    }
    true
}

/// What stands at the words of request `q` is nothing to all that are left, but `q` and those of the list.
///
/// The test is careful: it returns false where it isn't sure.
pub fn all_overlook(place: &Place, log: &Log, others: &Others, q: usize, but: &[usize]) -> bool
    requires place { IsPlace log.now place.now }
    requires others { AreOthers log.now others.now }
    ensures { IsTrue result → (w : ℕ) → Names log.now q w → (b : ℕ) → (q ≡ b → ⊥) → ((i : ℕ) → slice_get but.now i ≡ Some b → ⊥) →
        slice_get place.now.state.acted b ≡ Some false → IsJunkAt log.now place.now.state.bytes b w }
{
    words_ignored(place, log, others, Junk::Standing(Exempt { q, but }), q)
}

/// What request `g` leaves at its words is nothing to all that are left.
///
/// The test is careful: it returns false where it isn't sure.
pub fn all_ignore(place: &Place, log: &Log, others: &Others, g: usize) -> bool
    requires place { IsPlace log.now place.now }
    requires others { AreOthers log.now others.now }
    ensures { IsTrue result → (w : ℕ) → Names log.now g w → (b : ℕ) → slice_get place.now.state.acted b ≡ Some false → LeavesJunkAt log.now b g w }
{
    words_ignored(place, log, others, Junk::LeftBy(g), g)
}
