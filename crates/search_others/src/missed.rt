//! Requests that need what stood at a word before it was changed.
ghost use Rattle.std.specs.Prelude.{IfSome};
ghost use Rattle.log_runs.specs.Runs.{Dead};
ghost use Rattle.search_others.specs.Known.{AreOthers};
ghost use Rattle.search_places.specs.Places.{IsPlace};

use crate::known::Others;
use crate::lost::is_lost;
use log_runs::{Event, Log};
use search_places::Place;
use search_words::{Stretch, near_value};

/// A word of the memory that was changed.
#[derive(Clone, Copy)]
pub struct Loss {
    pub word: u64,
    /// What stood there, its first byte the lowest.
    pub old: u32,
}

/// As many requests as are seen in the time of a look at one, where only a few numbers of them are.
pub(crate) const QUICK: u64 = 8;

/// The range of the request is one word.
fn is_word(log: &Log, q: usize) -> bool {
    match log.event(q) {
        Some(Event::Sub { op, .. }) => op.size() == 4 && op.address() % 4 == 0,
        _ => false,
    }
}

/// Of the list's requests that are left and have one word, the one that is due first.
fn first_due(place: &Place, log: &Log, others: &Others, list: &[usize]) -> Option<usize> {
    place.note_looks(list.len() as u64 / QUICK);
    let mut least = usize::MAX;
    let mut first = None;
    for q in list {
        if let Some(due) = others.place_of(log, *q)
            && due < least
            && is_word(log, *q)
            && place.is_left(*q)
        {
            least = due;
            first = Some(*q);
        }
    }
    first
}

/// Where a request of the list is due that is lost here, if one is. Of those that need the same word and
/// nothing else the one that is due first is looked at.
fn lost_of(place: &Place, log: &Log, others: &Others, list: &[usize]) -> Option<usize>
    requires place { IsPlace log.now place.now }
    requires others { AreOthers log.now others.now }
    ensures { IfSome result (λ at. Dead log.now place.now.state) }
{
    let first = first_due(place, log, others, list);
    for q in list {
        if (first == Some(*q) || !is_word(log, *q)) && is_lost(place, log, others, *q) {
            return Some(others.place_of(log, *q).unwrap_or(*q));
        }
    }
    None
}

/// Where a request is due that is lost here, if one is that was submitted before place `to` and may need what
/// stood at the word.
///
/// The test is careful: it returns None where it isn't sure.
pub fn missed_at(place: &Place, log: &Log, others: &Others, loss: Loss, to: usize) -> Option<usize>
    requires place { IsPlace log.now place.now }
    requires others { AreOthers log.now others.now }
    ensures { IfSome result (λ at. Dead log.now place.now.state) }
{
    if loss.word >= log.extent().size() as u64 / 4 {
        return None;
    }
    let stretch = Stretch {
        word: loss.word,
        from: place.earliest(),
        to,
    };
    let near = near_value(&others.words, log, stretch, loss.old);
    match lost_of(place, log, others, near.known) {
        Some(at) => Some(at),
        None => lost_of(place, log, others, near.unknown),
    }
}
