//! Which step is taken at once, where the rules for one request see one or don't.
ghost use Rattle.std.specs.Prelude.{◌≡◌, IfOk, OnOk, IfSome};
ghost use Rattle.log_runs.specs.Runs.{IsForced};
ghost use Rattle.search_places.specs.Places.{IsPlace};
ghost use Rattle.search_forced.specs.Catalogs.{IsCatalog};
ghost use Rattle.search_forced.specs.Scenes.{IsScene};

use crate::catalog::{Catalog, Way};
use crate::hints::Look;
use crate::junk::{Among, over_junk};
use crate::scene::{Known, Scene};
use log_runs::{Log, Step};
use search_choices::only_step;
use search_others::due_is_lost;
use search_places::Place;
use std::alloc::{AllocError, Global};

/// How much work a step is more that isn't seen by the rules for one request.
const LAST: u64 = 64;

/// So many posted writes that are pending are many, and are looked at once for so many events.
const MANY: usize = 64;

/// Many posted writes are pending, and it is time to see whether some are over junk.
fn are_many(place: &Place) -> bool {
    place.posts().len() > MANY && place.event() % (MANY / 4) == 0
}

impl Scene<'_, '_> {
    /// The only step that may be taken, if there is just one, unless the request whose answer is due is lost.
    fn single(self) -> Option<Step>
        requires { IsScene self }
        ensures { IfSome result (IsForced self.entry.log.now self.entry.place.now.state) }
    {
        let Scene {
            place,
            log,
            catalog,
        } = self;
        if place.event() >= log.len() || due_is_lost(place, log, &catalog.others) {
            return None;
        }
        only_step(log, &catalog.others, &catalog.links, place)
    }
}

/// [`Scene::single`], or a request that acts over junk.
fn at_last(place: &mut Place, alloc: Global, known: Known<'_>) -> Result<Option<Step>, AllocError>
    requires place { IsPlace known.log.now place.old }
    requires catalog { IsCatalog known.log.now known.catalog.now }
    ensures state { OnOk result (place.new.state ≡ place.old.state) }
    ensures place { OnOk result (IsPlace known.entry.log.now place.new) }
    ensures forced { IfOk result (λ o. IfSome o (IsForced known.entry.log.now place.new.state)) }
{
    if let Some(step) = over_junk(place, alloc, known, Among::All)? {
        return Ok(Some(step));
    }
    let Known { log, catalog } = known;
    let scene = Scene {
        place,
        log,
        catalog,
    };
    Ok(scene.single())
}

/// How much work it is to see which step is taken at once, where the rules for one request see this one, beside the requests
/// that are looked at one by one.
pub fn work_for(place: &Place, look: Look, step: Option<Step>) -> u64 {
    let few = look.work(place).saturating_add(1);
    match step {
        Some(_) => few,
        None => few.saturating_add(LAST + 4 * place.pending().len() as u64),
    }
}

/// A step that may be taken at once, where the rules for one request see this one. An event is passed only if no posted
/// write over junk may act, if they act early, as in a part, or are many; other requests over junk act only where
/// there is no other step, and the only one that may be taken is no choice.
pub fn at_once(
    place: &mut Place,
    alloc: Global,
    log: &Log,
    catalog: &Catalog,
    step: Option<Step>,
) -> Result<Option<Step>, AllocError>
    requires place { IsPlace log.now place.old }
    requires catalog { IsCatalog log.now catalog.now }
    requires step { IfSome step (IsForced log.now place.old.state) }
    ensures state { OnOk result (place.new.state ≡ place.old.state) }
    ensures place { OnOk result (IsPlace log.now place.new) }
    ensures forced { IfOk result (λ o. IfSome o (IsForced log.now place.new.state)) }
{
    let known = Known { log, catalog };
    match step {
        Some(Step::Act(_)) => Ok(step),
        Some(Step::Pass) => {
            if (matches!(catalog.way, Way::Part) || are_many(place))
                && let Some(write) = over_junk(place, alloc, known, Among::Writes)?
            {
                return Ok(Some(write));
            }
            Ok(step)
        }
        None => at_last(place, alloc, known),
    }
}
