//! Requests over bytes that nobody needs.
ghost use Rattle.std.specs.Prelude.{◌≡◌, ◌∷◌, Some, ℕ, IsTrue, IfOk, OnOk, IfSome, slice_get};
ghost use Rattle.log_runs.specs.Runs.{MayAct, IsForced};
ghost use Rattle.search_rules.specs.Rules.{LeavesNothing};
ghost use Rattle.search_places.specs.Places.{IsPlace};
ghost use Rattle.search_forced.specs.Catalogs.{IsCatalog};
ghost use Rattle.search_forced.specs.Scenes.{IsScene};

use crate::groups::{Group, gather, take_back};
use crate::scene::{Known, Scene};
use log_runs::Step;
use search_others::{all_ignore, all_overlook};
use search_places::Place;
use search_rules::laws::what_is_over_junk_acts_at_once;
use search_rules::{changes_nothing, is_within};
use std::alloc::{AllocError, Global};

impl Scene<'_, '_> {
    /// That member of the request's group changes nothing; or its addresses are among those of the request, and
    /// what it leaves there is nothing to those that are left.
    fn leaves_nothing(self, request: usize, member: usize) -> bool
        requires { IsScene self }
        ensures { IsTrue result → LeavesNothing self.entry.log.now self.entry.place.now.state request member }
    {
        if changes_nothing(self.log, member) {
            return true;
        }
        if !is_within(self.log, member, request) {
            return false;
        }
        all_ignore(self.place, self.log, &self.catalog.others, member)
    }

    /// [`Scene::leaves_nothing`], each of the members.
    fn leave_nothing(self, request: usize, members: &[usize]) -> bool
        requires { IsScene self }
        ensures { IsTrue result → (i member : ℕ) → slice_get members.now i ≡ Some member →
            LeavesNothing self.entry.log.now self.entry.place.now.state request member }
    {
        for member in members {
            if !self.leaves_nothing(request, *member) {
                return false;
            }
        }
        true
    }

    /// [`Scene::leaves_nothing`], the request and each of the others.
    fn all_leave_nothing(self, request: usize, others: &[usize]) -> bool
        requires { IsScene self }
        ensures { IsTrue result → (i member : ℕ) → slice_get (request ∷ others.now) i ≡ Some member →
            LeavesNothing self.entry.log.now self.entry.place.now.state request member }
    {
        if !self.leaves_nothing(request, request) {
            return false;
        }
        self.leave_nothing(request, others)
    }
}

/// Others may act in turn after the request, and to those that are left then it is nothing what they
/// all overwrite and leave.
fn is_over_junk(
    place: &mut Place,
    alloc: Global,
    known: Known<'_>,
    request: usize,
) -> Result<bool, AllocError>
    requires place { IsPlace known.log.now place.old }
    requires catalog { IsCatalog known.log.now known.catalog.now }
    requires may { MayAct known.log.now place.old.state request }
    ensures state { OnOk result (place.new.state ≡ place.old.state) }
    ensures place { OnOk result (IsPlace known.entry.log.now place.new) }
    ensures forced { IfOk result (λ so. IsTrue so → IsForced known.entry.log.now place.new.state (Step.Act request)) }
{
    what_is_over_junk_acts_at_once();
    let Known { log, catalog } = known;
    let Group { done, others } = gather(place, alloc, known, request)?;
    let scene = Scene {
        place,
        log,
        catalog,
    };
    let spent = scene.all_leave_nothing(request, &others);
    take_back(place, log, done)?;
    if !spent || place.bytes().len() != log.extent().size() {
        return Ok(false);
    }
    Ok(all_overlook(place, log, &catalog.others, request, &others))
}

/// The request may act, and does so over junk.
fn acts_over_junk(
    place: &mut Place,
    alloc: Global,
    known: Known<'_>,
    request: usize,
) -> Result<bool, AllocError>
    requires place { IsPlace known.log.now place.old }
    requires catalog { IsCatalog known.log.now known.catalog.now }
    ensures state { OnOk result (place.new.state ≡ place.old.state) }
    ensures place { OnOk result (IsPlace known.entry.log.now place.new) }
    ensures forced { IfOk result (λ so. IsTrue so → IsForced known.entry.log.now place.new.state (Step.Act request)) }
{
    let Known { log, catalog } = known;
    place.note_looks(1);
    if !place.may_act(log, request) {
        return Ok(false);
    }
    let scene = Scene {
        place,
        log,
        catalog,
    };
    if !scene.may_be_over_junk(request) {
        return Ok(false);
    }
    is_over_junk(place, alloc, known, request)
}

/// The most posted writes that are looked at before an event is passed.
const MOST_WRITES: usize = 64;

/// Which of the pending requests are looked at for one over junk.
#[derive(Clone, Copy)]
pub(crate) enum Among {
    All,
    /// The first of the posted writes.
    Writes,
}

/// The request at that place of their list.
fn pending_at(place: &Place, among: Among, i: usize) -> Option<usize> {
    match among {
        Among::All => place.pending().get(i).copied(),
        Among::Writes => if i < MOST_WRITES {
            place.posts().get(i).copied()
        } else {
            None
        },
    }
}

/// A pending request that acts at once over junk, of those that are looked at, if events are left.
pub(crate) fn over_junk(
    place: &mut Place,
    alloc: Global,
    known: Known<'_>,
    among: Among,
) -> Result<Option<Step>, AllocError>
    requires place { IsPlace known.log.now place.old }
    requires catalog { IsCatalog known.log.now known.catalog.now }
    ensures state { OnOk result (place.new.state ≡ place.old.state) }
    ensures place { OnOk result (IsPlace known.entry.log.now place.new) }
    ensures forced { IfOk result (λ o. IfSome o (IsForced known.entry.log.now place.new.state)) }
{
    if place.event() >= known.log.len() {
        return Ok(None);
    }
    let mut writers = 0u32;
    for i in 0..place.pending().len() {
        let Some(request) = pending_at(place, among, i) else {
            return Ok(None);
        };
        let Some(sketch) = known.catalog.sketch(request) else {
            return Ok(None);
        };
        if sketch.requester() & writers != 0 {
            continue;
        }
        if sketch.may_be_calm(place.event()) && acts_over_junk(place, alloc, known, request)? {
            return Ok(Some(Step::Act(request)));
        }
        writers |= sketch.writer();
    }
    Ok(None)
}
