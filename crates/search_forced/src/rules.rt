//! Steps that may be taken at once.
ghost use Rattle.std.specs.Prelude.{IfSome, IsTrue};
ghost use Rattle.log_runs.specs.Runs.{MayAct, IsForced};
ghost use Rattle.search_forced.specs.Catalogs.{IsCatalog};
ghost use Rattle.search_forced.specs.Scenes.{IsScene};
ghost use Rattle.search_places.specs.Places.{IsPlace};

use crate::catalog::Catalog;
use crate::hints::Look;
use crate::scene::Scene;
use log_runs::{Log, Step};
use search_others::{Asked, Question, others_spare};
use search_places::Place;
use search_rules::laws::{
    the_first_acts_at_once, the_last_acts_at_once, what_changes_nothing_acts_at_once,
};
use search_rules::{changes_nothing, follows};

impl Scene<'_, '_> {
    /// The request, which may act, changes nothing.
    fn is_quiet(self, request: usize) -> bool
        requires { MayAct self.log.now self.place.now.state request }
        ensures { IsTrue result → IsForced self.entry.log.now self.entry.place.now.state (Step.Act request) }
    {
        what_changes_nothing_acts_at_once();
        if self.place.bytes().len() != self.log.extent().size() {
            return false;
        }
        changes_nothing(self.log, request)
    }

    /// The request, which may act, is the last that can have what it needs.
    fn is_last(self, request: usize) -> bool
        requires scene { IsScene self }
        requires may { MayAct self.log.now self.place.now.state request }
        ensures { IsTrue result → IsForced self.entry.log.now self.entry.place.now.state (Step.Act request) }
    {
        the_last_acts_at_once();
        let Some(due) = self.catalog.others.place_of(self.log, request) else {
            return false;
        };
        if due < self.place.event() {
            return false;
        }
        let question = Question {
            of: request,
            before: due,
            asked: Asked::Last,
        };
        others_spare(self.place, self.log, &self.catalog.others, question)
    }

    /// The request, which may act, is the first that can of those that have bytes of it.
    fn is_first(self, request: usize) -> bool
        requires scene { IsScene self }
        requires may { MayAct self.log.now self.place.now.state request }
        ensures { IsTrue result → IsForced self.entry.log.now self.entry.place.now.state (Step.Act request) }
    {
        the_first_acts_at_once();
        let Some((due, awaited)) = self.catalog.others.held_until(self.log, request) else {
            return false;
        };
        if due < self.place.event() {
            return false;
        }
        if !follows(self.log, request, awaited) {
            return false;
        }
        if !self.place.is_left(awaited) {
            return false;
        }
        let question = Question {
            of: request,
            before: due,
            asked: Asked::First,
        };
        others_spare(self.place, self.log, &self.catalog.others, question)
    }

    /// The request may act, and acts at once.
    #[inline(never)]
    fn acts_at_once(self, request: usize) -> bool
        requires { IsScene self }
        ensures { IsTrue result → IsForced self.entry.log.now self.entry.place.now.state (Step.Act request) }
    {
        if !self.place.may_act(self.log, request) {
            return false;
        }
        self.place.note_looks(1);
        if self.catalog.is_quiet(request) && self.is_quiet(request) {
            return true;
        }
        if self.is_first(request) {
            return true;
        }
        self.is_last(request)
    }

    /// A pending request that acts at once, of those from that place of their list on that have one of the
    /// marks. One that waits for a posted write among them isn't looked at.
    fn first_of(self, from: usize, marks: u32) -> Option<usize>
        requires { IsScene self }
        ensures { IfSome result (λ request. IsForced self.entry.log.now self.entry.place.now.state (Step.Act request)) }
    {
        let pending = self.place.pending();
        if from >= pending.len() {
            return None;
        }
        let mut writers = 0u32;
        for request in &pending[from..] {
            let sketch = self.catalog.sketch(*request)?;
            if sketch.requester() & writers == 0
                && self.is_worth(marks, sketch)
                && self.acts_at_once(*request)
            {
                return Some(*request);
            }
            writers |= sketch.writer();
        }
        None
    }

    /// A request that acts at once, of those that are looked at.
    fn seen(self, look: Look) -> Option<usize>
        requires { IsScene self }
        ensures { IfSome result (λ request. IsForced self.entry.log.now self.entry.place.now.state (Step.Act request)) }
    {
        match look {
            Look::Marked { from, marks } => self.first_of(from, marks),
            Look::Only(request) => if self.acts_at_once(request) {
                Some(request)
            } else {
                None
            },
        }
    }
}

/// A step that may be taken at once: a request acts, one of those that are looked at, or an event is
/// passed.
pub fn forced(place: &Place, log: &Log, catalog: &Catalog, look: Look) -> Option<Step>
    requires place { IsPlace log.now place.now }
    requires catalog { IsCatalog log.now catalog.now }
    ensures { IfSome result (IsForced log.now place.now.state) }
{
    let scene = Scene {
        place,
        log,
        catalog,
    };
    if let Some(request) = scene.seen(look) {
        return Some(Step::Act(request));
    }
    if place.may_pass(log) {
        return Some(Step::Pass);
    }
    None
}
