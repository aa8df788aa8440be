//! What the others that could act before a request do to it.
ghost use Rattle.std.specs.Prelude.{ℕ, List, ◌≡◌, ◌<◌, ◌≤◌, ◌/◌, ◌⊎◌, Some, slice_get, IfSome, IsTrue};
ghost use Rattle.search_words.specs.Lists.{InList};
ghost use Rattle.search_rules.specs.Rules.{AllOthers};
ghost use Rattle.search_words.specs.Words.{IsNear, NamesWord};
ghost use Rattle.search_others.specs.Known.{AreOthers};
ghost use Rattle.search_places.specs.Places.{IsPlace};
ghost use Rattle.search_others.specs.Spared.{Spares, Holds};

use crate::known::Others;
use log_runs::Log;
use search_effects::laws::apart_requests_commute;
use search_places::Place;
use search_places::laws::who_is_left_is_pending;
use search_rules::laws::{answers_yield, nothing_is_put_outside};
use search_rules::{Need, lets_first, never_brings, never_puts, yields};
use search_words::{Near, Stretch, near_named, near_needed, near_there, span_of};

/// What is asked of the others.
#[derive(Clone, Copy)]
pub enum Asked {
    /// They don't bring what the request needs.
    Lost,
    /// Nor does it make a difference to them.
    Last,
    /// They have none of its bytes, or can't act before it.
    First,
    /// They don't make this byte what the request needs.
    Byte(Need),
}

/// A question about the requests that are submitted before a place and haven't acted.
#[derive(Clone, Copy)]
pub struct Question {
    /// The request for whose sake it is asked. Of itself it isn't.
    pub of: usize,
    /// The place of the log.
    pub before: usize,
    pub asked: Asked,
}

/// Request `b` does to request `q` as is asked.
#[inline(never)]
fn spares(log: &Log, bytes: &[u8], b: usize, q: usize, asked: Asked) -> bool
    ensures { IsTrue result → Spares log.now bytes.now q asked b }
{
    match asked {
        Asked::Lost => never_brings(log, b, q),
        Asked::Last => yields(log, b, q),
        Asked::First => lets_first(log, bytes, b, q),
        Asked::Byte(need) => never_puts(log, b, need),
    }
}

/// It isn't asked of request `b`, or it has acted, or it does as is asked.
fn holds(place: &Place, log: &Log, question: Question, b: usize) -> bool
    ensures { IsTrue result → Holds log.now place.now.state question b }
{
    if b == question.of || place.has_acted(b) {
        return true;
    }
    place.note_looks(1);
    spares(log, place.bytes(), b, question.of, question.asked)
}

/// [`holds`], each of the list.
fn all_hold(place: &Place, log: &Log, question: Question, list: &[usize]) -> bool
    ensures { IsTrue result → (b : ℕ) → InList list.now b → Holds log.now place.now.state question b }
{
    for b in list {
        if !holds(place, log, question, *b) {
            return false;
        }
    }
    true
}

/// [`holds`], each of those that are near.
fn near_hold(place: &Place, log: &Log, question: Question, near: Near) -> bool
    ensures { IsTrue result → (b : ℕ) → IsNear near.entry b → Holds log.now place.now.state question b }
{
    all_hold(place, log, question, near.wide)
        && all_hold(place, log, question, near.unknown)
        && all_hold(place, log, question, near.known)
        && all_hold(place, log, question, near.careless)
}

/// The first word of those that are looked at, and their end: those of the request, or that of the byte.
fn words_of(log: &Log, question: Question) -> Option<(u64, u64)>
    ensures inside { IfSome result (λ r. r.1 ≤ log.now.extent.size / 4) }
    ensures all { IfSome result (λ r. (b : ℕ) →
        ((m : List ℕ) → Spares log.now m question.of question.asked b) ⊎ ((w : ℕ) × (r.0 ≤ w) × (w < r.1) × NamesWord log.now b w)) }
{
    apart_requests_commute();
    nothing_is_put_outside();
    match question.asked {
        Asked::Byte(need) => {
            let word = need.place as u64 / 4;
            if word >= log.extent().size() as u64 / 4 {
                return None;
            }
            Some((word, word + 1))
        }
        _ => {
            let words = span_of(log, question.of)?;
            Some(words)
        }
    }
}

/// Those of the stretch of whom it isn't known by the word alone that they do as is asked.
fn near_of<'a>(
    others: &'a Others,
    log: &Log,
    bytes: &[u8],
    question: Question,
    stretch: Stretch,
) -> Near<'a>
    requires others { AreOthers log.now others.now }
    requires word { stretch.word < log.now.extent.size / 4 }
    ensures { (b : ℕ) → stretch.from ≤ b → b < stretch.to → NamesWord log.now b stretch.word →
        IsNear result b ⊎ Spares log.now bytes.now question.of question.asked b }
{
    let words = &others.words;
    let q = question.of;
    match question.asked {
        Asked::Lost => near_needed(words, log, q, stretch),
        Asked::Last => near_needed(words, log, q, stretch),
        Asked::First => near_there(words, log, bytes, q, stretch),
        Asked::Byte(_) => near_named(words, log, stretch),
    }
}

/// [`holds`], each of the stretch that names bytes of the word.
fn word_holds(
    place: &Place,
    log: &Log,
    others: &Others,
    question: Question,
    stretch: Stretch,
) -> bool
    requires others { AreOthers log.now others.now }
    requires word { stretch.word < log.now.extent.size / 4 }
    ensures { IsTrue result → (b : ℕ) → stretch.from ≤ b → b < stretch.to → NamesWord log.now b stretch.word → Holds log.now place.now.state question b }
{
    let near = near_of(others, log, place.bytes(), question, stretch);
    near_hold(place, log, question, near)
}

/// All that could act before the place spare the request, as is asked.
pub fn others_spare(place: &Place, log: &Log, others: &Others, question: Question) -> bool
    requires place { IsPlace log.now place.now }
    requires others { AreOthers log.now others.now }
    ensures { IsTrue result → AllOthers place.now.state question.of question.before (Spares log.now place.now.state.bytes question.of question.asked) }
{
    who_is_left_is_pending();
    let Some((first, end)) = words_of(log, question) else {
        return false;
    };
    let from = place.earliest();
    let to = question.before;
    for word in first..end {
        let stretch = Stretch { word, from, to };
        if !word_holds(place, log, others, question, stretch) {
            return false;
        }
    }
    true
}
