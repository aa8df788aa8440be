//! Requests that were never answered and needn't act here.
ghost use Rattle.std.specs.Prelude.{ℕ, ◌≡◌, ◌<◌, ◌≤◌, ◌/◌, IsTrue};
ghost use Rattle.search_words.specs.Lists.{InList};
ghost use Rattle.search_words.specs.Words.{IsNear, NamesWord};
ghost use Rattle.search_rules.specs.Idle.{IsIdle, IsUndue};
ghost use Rattle.search_places.specs.Places.{IsPlace};
ghost use Rattle.search_others.specs.Known.{AreOthers};
ghost use Rattle.search_others.specs.Passing.{IsIdler, Passes};

use crate::known::Others;
use crate::missed::QUICK;
use log_runs::{Event, Log};
use search_effects::{is_quiet, reply};
use search_places::Place;
use search_places::laws::who_is_left_is_pending;
use search_rules::{Made, is_junk_behind, is_unanswered, rests_behind};
use search_words::{Near, Stretch, near_made, span_of};
use seq_memory::ReplyData;

/// To see what a request leaves takes as long as so many looks at others.
const LOOKS: u64 = 4;

/// A request, its operation, and what the memory would answer it.
#[derive(Clone, Copy)]
struct Idler<'a> {
    b: usize,
    made: Made<'a>,
}

/// No answer to the request comes, not even that it was done, and it isn't posted.
fn is_undue(log: &Log, others: &Others, b: usize) -> bool
    requires { AreOthers log.now others.now }
    ensures { IsTrue result → (from : ℕ) → IsUndue log.now from b }
{
    if others.due_from(b) < log.len() {
        return false;
    }
    is_unanswered(log, b)
}

/// Notes so many looks, and takes them of those that may be made to see who is idle; false, if there are fewer.
fn may_look(place: &Place, others: &Others, count: u64) -> bool {
    place.note_looks(count);
    others.take_looks(count)
}

/// Request `q` has acted or is the request itself, or what that leaves is nothing to it; or no answer to it comes, and it
/// changes nothing then.
fn passes(place: &Place, log: &Log, others: &Others, idler: Idler, q: usize) -> bool
    requires { AreOthers log.now others.now }
    ensures { IsTrue result → Passes log.now place.now.state idler.entry q }
{
    if q == idler.b || place.has_acted(q) {
        return true;
    }
    if !may_look(place, others, LOOKS) {
        return false;
    }
    if is_undue(log, others, q) && rests_behind(log, q, idler.made) {
        return true;
    }
    is_junk_behind(log, q, idler.made)
}

/// [`passes`], each of the list.
fn list_passes(place: &Place, log: &Log, others: &Others, idler: Idler, list: &[usize]) -> bool
    requires { AreOthers log.now others.now }
    ensures { IsTrue result → (b : ℕ) → InList list.now b → Passes log.now place.now.state idler.entry b }
{
    if !may_look(place, others, list.len() as u64 / QUICK) {
        return false;
    }
    for b in list {
        if !passes(place, log, others, idler, *b) {
            return false;
        }
    }
    true
}

/// [`passes`], each of those that are near.
fn near_pass(place: &Place, log: &Log, others: &Others, idler: Idler, near: Near) -> bool
    requires { AreOthers log.now others.now }
    ensures { IsTrue result → (b : ℕ) → IsNear near.entry b → Passes log.now place.now.state idler.entry b }
{
    if !list_passes(place, log, others, idler, near.known) {
        return false;
    }
    if !list_passes(place, log, others, idler, near.unknown) {
        return false;
    }
    if !list_passes(place, log, others, idler, near.wide) {
        return false;
    }
    list_passes(place, log, others, idler, near.careless)
}

/// [`passes`], each of the stretch that names bytes of the word.
fn word_passed(place: &Place, log: &Log, others: &Others, idler: Idler, stretch: Stretch) -> bool
    requires others { AreOthers log.now others.now }
    requires word { stretch.word < log.now.extent.size / 4 }
    ensures { IsTrue result → (b : ℕ) → stretch.from ≤ b → b < stretch.to → NamesWord log.now b stretch.word → Passes log.now place.now.state idler.entry b }
{
    let near = near_made(&others.words, log, idler.made, stretch);
    near_pass(place, log, others, idler, near)
}

/// [`passes`], each that was submitted.
fn all_pass(place: &Place, log: &Log, others: &Others, idler: Idler) -> bool
    requires place { IsPlace log.now place.now }
    requires others { AreOthers log.now others.now }
    requires own { IsIdler log.now idler }
    ensures { IsTrue result → (b : ℕ) → b < place.now.state.event → Passes log.now place.now.state idler.entry b }
{
    who_is_left_is_pending();
    let Some((first, end)) = span_of(log, idler.b) else {
        return false;
    };
    let from = place.earliest();
    let to = place.event();
    for word in first..end {
        let stretch = Stretch { word, from, to };
        if !word_passed(place, log, others, idler, stretch) {
            return false;
        }
    }
    true
}

/// No answer to request `b` comes, not even that it was done, and it isn't posted; and it changes nothing here, or what it
/// leaves is nothing to each other that was submitted and hasn't acted.
///
/// The test is careful: it returns false where it isn't sure.
pub fn is_idle(place: &Place, log: &Log, others: &Others, b: usize) -> bool
    requires place { IsPlace log.now place.now }
    requires others { AreOthers log.now others.now }
    ensures { IsTrue result → IsIdle log.now place.now.state b }
{
    if !others.has_looks() || !is_undue(log, others, b) {
        return false;
    }
    let Some(Event::Sub { op, .. }) = log.event(b) else {
        return false;
    };
    let extent = log.extent();
    let (base, block) = (extent.base(), extent.block());
    if place.bytes().len() != extent.size() {
        return false;
    }
    place.note_looks(LOOKS);
    let mut room = ReplyData::new();
    let reply = reply(base, block, place.bytes(), &op, &mut room);
    if is_quiet(block, &op, Some(&reply)) {
        return true;
    }
    let made = Made {
        op: &op,
        reply: &reply,
    };
    all_pass(place, log, others, Idler { b, made })
}
