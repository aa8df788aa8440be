//! Where a rule is worth its test. Nothing rests on what these functions say.

ghost use Rattle.std.specs.Prelude.{◌<◌, ◌≤◌, ◌/◌};
ghost use Rattle.search_forced.specs.Catalogs.{IsCatalog};
ghost use Rattle.search_words.specs.Words.{IsWords};

use crate::catalog::Catalog;
use crate::groups::MOST_OTHERS;
use crate::scene::{AtWord, Scene};
use crate::sketches::Sketch;
use log_runs::{Log, Step};
use search_places::Place;
use search_rules::{is_junk_at, is_within, leaves_junk_at};
use search_words::{Stretch, Words, near_junk, near_left, near_there, span_of};

/// How many requests at a word are looked at one by one.
const MOST: usize = 256;

/// As many requests as are gone over in the time of a step.
const QUICK: u64 = 64;

/// Which of the pending requests are looked at.
#[derive(Clone, Copy)]
pub enum Look {
    /// Those from that place of their list on that have one of the marks.
    Marked { from: usize, marks: u32 },
    /// This one, if it is pending.
    Only(usize),
}

impl Look {
    /// At all.
    pub fn all() -> Look {
        Look::Marked {
            from: 0,
            marks: u32::MAX,
        }
    }

    /// At none.
    pub fn none() -> Look {
        Look::Marked { from: 0, marks: 0 }
    }

    /// At the request that was passed just now, if it was one.
    fn passed(place: &Place) -> Look {
        let pending = place.pending();
        let is_one = pending
            .last()
            .is_some_and(|last| last.saturating_add(1) == place.event());
        Look::Marked {
            from: pending.len() - usize::from(is_one),
            marks: u32::MAX,
        }
    }

    /// How many of the pending requests are gone over.
    fn count(self, place: &Place) -> usize {
        match self {
            Look::Marked { marks: 0, .. } => 0,
            Look::Marked { from, .. } => place.pending().len().saturating_sub(from),
            Look::Only(_) => 1,
        }
    }

    /// How much work it is to go over them.
    pub(crate) fn work(self, place: &Place) -> u64 {
        self.count(place) as u64 / QUICK
    }

    /// The marks of those of the whole list that weren't looked at yet.
    fn left(self) -> u32 {
        match self {
            Look::Marked { from: 0, marks } => marks,
            _ => 0,
        }
    }

    /// Which are looked at once the step was taken that led to the place: one that was passed just now, or
    /// those that the request may have been in the way of.
    pub fn after(self, log: &Log, catalog: &Catalog, place: &Place, step: Step) -> Look
        requires { IsCatalog log.now catalog.now }
    {
        let Step::Act(request) = step else {
            return Look::passed(place);
        };
        let Some(sketch) = catalog.sketch(request) else {
            return Look::all();
        };
        let scene = Scene {
            place,
            log,
            catalog,
        };
        let left = self.left();
        if left == 0
            && sketch.writer() == 0
            && let Some(look) = scene.look_behind(request)
        {
            return look;
        }
        Look::Marked {
            from: 0,
            marks: left | sketch.frees(),
        }
    }
}

/// The place behind the last request that needs what the request leaves at one of its words, as far as
/// that is known.
fn calm_from(log: &Log, words: &Words, request: usize) -> u32
    requires { IsWords log.now words.now }
{
    let Some((first, end)) = span_of(log, request) else {
        return 0;
    };
    let mut calm = 0;
    let to = log.len();
    for word in first..end {
        let stretch = Stretch { word, from: 0, to };
        if let Some(last) = near_left(words, log, request, stretch).known.last() {
            calm = calm.max(u32::try_from(last.saturating_add(1)).unwrap_or(0));
        }
    }
    calm
}

/// Notes of each request from where on nobody needs what it leaves.
pub(crate) fn note_calm(sketches: &mut [Sketch], log: &Log, words: &Words)
    requires { IsWords log.now words.now }
{
    for request in 0..sketches.len() {
        if !sketches[request].is_quiet() {
            sketches[request].calm = calm_from(log, words, request);
        }
    }
}

impl Scene<'_, '_> {
    /// It is worth a look whether the request may act: it has one of the marks, and the first bytes that it
    /// needs are there.
    pub(crate) fn is_worth(self, marks: u32, sketch: Sketch) -> bool {
        sketch.marks & marks != 0 && sketch.may_fit(self.place.bytes())
    }

    /// At what a look is worth it right after the request acted, if that is known: at the only one that needs
    /// what stands there now.
    fn look_behind(self, request: usize) -> Option<Look>
        requires { IsCatalog self.log.now self.catalog.now }
    {
        let Scene {
            place,
            log,
            catalog,
        } = self;
        let (first, end) = span_of(log, request)?;
        if first >= end || end - first != 1 {
            return None;
        }
        let stretch = Stretch {
            word: first,
            from: place.earliest(),
            to: place.event(),
        };
        let near = near_there(catalog.others.words(), log, place.bytes(), request, stretch);
        if !near.wide.is_empty() || !near.unknown.is_empty() || !near.careless.is_empty() {
            return None;
        }
        match near.known {
            [] => Some(Look::none()),
            [only] => Some(Look::Only(*only)),
            _ => None,
        }
    }

    /// The requesters that wait for posted writes before the other request that are somewhere else than the
    /// request.
    fn writers_before(self, own: Sketch, other: usize) -> u32 {
        let mut writers = 0u32;
        for write in self.place.posts() {
            if *write >= other {
                return writers;
            }
            if let Some(sketch) = self.catalog.sketch(*write)
                && sketch.is_apart(own)
            {
                writers |= sketch.writer();
            }
        }
        writers
    }

    /// The other request has acted, or is the request itself; or it is nothing to it what stands at the word and
    /// what the request leaves there.
    fn is_aside(self, at: AtWord, other: usize) -> bool
        requires { at.word < self.log.now.extent.size / 4 }
    {
        let AtWord { request, word } = at;
        if other == request || self.place.has_acted(other) {
            return true;
        }
        self.place.note_looks(1);
        is_junk_at(self.log, self.place.bytes(), other, word)
            && leaves_junk_at(self.log, other, request, word)
    }

    /// The other request is pending and may act in turn after the request.
    fn may_join(self, at: AtWord, other: usize) -> bool
        requires { at.word < self.log.now.extent.size / 4 }
    {
        let (Some(own), Some(sketch)) = (
            self.catalog.sketch(at.request),
            self.catalog.sketch(other),
        ) else {
            return false;
        };
        other < self.place.event()
            && (sketch.needs_nothing() || is_junk_at(self.log, self.place.bytes(), other, at.word))
            && sketch.requester() & self.writers_before(own, other) == 0
            && (sketch.is_quiet() || is_within(self.log, other, at.request))
    }

    /// Each of the list, which isn't long, is aside or may join, and no more may join than a group has.
    fn let_act(self, at: AtWord, list: &[usize]) -> bool
        requires { at.word < self.log.now.extent.size / 4 }
    {
        if list.len() > MOST {
            return false;
        }
        let mut joining = 0usize;
        for other in list {
            if !self.is_aside(at, *other) {
                joining = joining.saturating_add(1);
                if joining > MOST_OTHERS || !self.may_join(at, *other) {
                    return false;
                }
            }
        }
        true
    }

    /// [`Scene::let_act`], those that may need what stands at the word now, or what the request leaves there.
    fn is_junk_for(self, at: AtWord) -> bool
        requires catalog { IsCatalog self.log.now self.catalog.now }
        requires word { at.word < self.log.now.extent.size / 4 }
    {
        let Scene {
            place,
            log,
            catalog,
        } = self;
        let words = catalog.others.words();
        let stretch = Stretch {
            word: at.word,
            from: place.earliest(),
            to: log.len(),
        };
        let there = near_junk(words, log, place.bytes(), stretch);
        let left = near_left(words, log, at.request, stretch);
        self.let_act(at, there.known)
            && self.let_act(at, left.known)
            && self.let_act(at, there.unknown)
            && self.let_act(at, there.wide)
    }

    /// What stands where the request writes and what it leaves there may be nothing to all that are left
    /// after it and others.
    pub(crate) fn may_be_over_junk(self, request: usize) -> bool
        requires { IsCatalog self.log.now self.catalog.now }
    {
        let Some((first, end)) = span_of(self.log, request) else {
            return false;
        };
        for word in first..end {
            if !self.is_junk_for(AtWord { request, word }) {
                return false;
            }
        }
        true
    }
}
