//! Requests that act in turn, as a try.
ghost use Rattle.std.specs.Prelude.{◌≡◌, ◌<◌, ◌/◌, ℕ, IfOk, OnOk, IfSome, IsTrue};
ghost use Rattle.log_runs.specs.Runs.{State, MayAct};
ghost use Rattle.search_places.specs.Places.{IsPlace};
ghost use Rattle.search_forced.specs.Catalogs.{IsCatalog};
ghost use Rattle.search_forced.specs.Scenes.{IsScene};
ghost use Rattle.search_places.specs.Undo.{LeadsBy};
ghost use Rattle.search_forced.specs.Groups.{IsGroup};

use crate::scene::{AtWord, Known, Scene};
use log_runs::{Log, Step};
use search_places::{Done, Place};
use search_rules::{changes_nothing, is_junk_at, is_within};
use search_words::{Stretch, near_junk, span_of};
use std::alloc::{AllocError, Global};

/// The most requests that act after the first one.
pub(crate) const MOST_OTHERS: usize = 64;

/// The most requests at a word that are looked at for one that joins.
const MOST_AT_WORD: usize = 256;

/// A request and others that acted after it.
#[derive(Drop)]
pub(crate) struct Group {
    /// The steps, the request's own first.
    pub(crate) done: Vec<Done>,
    /// The others in their order.
    pub(crate) others: Vec<usize>,
}

impl Scene<'_, '_> {
    /// The other request may act, to which it is something what stands at the word, and changes nothing beside
    /// the bytes of the request.
    fn joins(self, at: AtWord, other: usize) -> bool
        requires scene { IsScene self }
        requires word { at.word < self.log.now.extent.size / 4 }
        ensures { IsTrue result → MayAct self.entry.log.now self.entry.place.now.state other }
    {
        self.place.note_looks(1);
        !is_junk_at(self.log, self.place.bytes(), other, at.word)
            && (is_within(self.log, other, at.request) || changes_nothing(self.log, other))
            && self.place.may_act(self.log, other)
    }

    /// Of the list one that joins the request's group, if one does: one that changes nothing, if there is such.
    fn joining(self, at: AtWord, list: &[usize]) -> Option<usize>
        requires scene { IsScene self }
        requires word { at.word < self.log.now.extent.size / 4 }
        ensures { IfSome result (MayAct self.entry.log.now self.entry.place.now.state) }
    {
        if list.len() > MOST_AT_WORD {
            return None;
        }
        for other in list {
            if self.joins(at, *other) && changes_nothing(self.log, *other) {
                return Some(*other);
            }
        }
        for other in list {
            if self.joins(at, *other) {
                return Some(*other);
            }
        }
        None
    }

    /// The next one that joins the request's group, of those that may need what stands at the word.
    fn next_at(self, at: AtWord) -> Option<usize>
        requires scene { IsScene self }
        requires word { at.word < self.log.now.extent.size / 4 }
        ensures { IfSome result (MayAct self.entry.log.now self.entry.place.now.state) }
    {
        let Scene {
            place,
            log,
            catalog,
        } = self;
        let stretch = Stretch {
            word: at.word,
            from: place.earliest(),
            to: place.event(),
        };
        let near = near_junk(catalog.others.words(), log, place.bytes(), stretch);
        for list in [near.known, near.unknown, near.careless, near.wide] {
            if let Some(other) = self.joining(at, list) {
                return Some(other);
            }
        }
        None
    }

    /// The next one that joins the request's group.
    fn next_of(self, request: usize) -> Option<usize>
        requires { IsScene self }
        ensures { IfSome result (MayAct self.entry.log.now self.entry.place.now.state) }
    {
        let (first, end) = span_of(self.log, request)?;
        for word in first..end {
            if let Some(other) = self.next_at(AtWord { request, word }) {
                return Some(other);
            }
        }
        None
    }
}

impl Group {
    /// The request acts.
    fn begin(
        place: &mut Place,
        alloc: Global,
        log: &Log,
        request: usize,
    ) -> Result<Group, AllocError>
        requires place { IsPlace log.now place.old }
        requires may { MayAct log.now place.old.state request }
        ensures { IfOk result (λ group. IsGroup log.now place.old.state request group place.new) }
    {
        let first = place.take(log, Step::Act(request))?;
        let mut done = Vec::new(alloc);
        done.push(first)?;
        Ok(Group {
            done,
            others: Vec::new(alloc),
        })
    }

    /// The other request acts.
    fn join(&mut self, place: &mut Place, log: &Log, other: usize) -> Result<(), AllocError>
        requires place { IsPlace log.now place.old }
        requires may { MayAct log.now place.old.state other }
        ensures { OnOk result ((s : State) (request : ℕ) → IsGroup log.now s request self.old place.old → IsGroup log.now s request self.new place.new) }
    {
        let one = place.take(log, Step::Act(other))?;
        self.done.push(one)?;
        self.others.push(other)?;
        Ok(())
    }
}

/// The request acts, and then those that join its group.
pub(crate) fn gather(
    place: &mut Place,
    alloc: Global,
    known: Known<'_>,
    request: usize,
) -> Result<Group, AllocError>
    requires place { IsPlace known.log.now place.old }
    requires catalog { IsCatalog known.log.now known.catalog.now }
    requires may { MayAct known.log.now place.old.state request }
    ensures { IfOk result (λ group. IsGroup known.entry.log.now place.old.state request group place.new) }
{
    let Known { log, catalog } = known;
    let mut group = Group::begin(place, alloc, log, request)?;
    for _turn in 0..MOST_OTHERS {
        let scene = Scene {
            place,
            log,
            catalog,
        };
        let Some(other) = scene.next_of(request) else {
            return Ok(group);
        };
        group.join(place, log, other)?;
    }
    Ok(group)
}

/// Takes back the steps.
pub(crate) fn take_back(
    place: &mut Place,
    log: &Log,
    mut steps: Vec<Done>,
) -> Result<(), AllocError>
    requires place { IsPlace log.now place.old }
    requires back { (s : State) × LeadsBy log.now s steps.items place.old.state }
    ensures state { OnOk result ((s : State) → LeadsBy log.now s steps.items place.old.state → place.new.state ≡ s) }
    ensures place { OnOk result (IsPlace log.now place.new) }
{
    while let Some(done) = steps.pop() {
        place.take_back(log, &done)?;
    }
    Ok(())
}
