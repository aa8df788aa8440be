//! A search of a part of a log, seen as one of the log.
ghost use Rattle.std.specs.Prelude.{◌≡◌, ◌≤◌, IfOk};
ghost use Rattle.search_run.specs.Outcomes.{IsRight};
ghost use Rattle.search_run.specs.Watched.{Saw};
ghost use Rattle.search_history.specs.Looks.{IsOn};

use log_runs::Log;
use search_places::Place;
use search_run::{Bounds, Exploration, Spot, Watch, Way, explore_watched};
use std::alloc::{AllocError, Global};

/// Sees a search of a part of a log.
#[derive(Drop)]
pub(crate) struct Within<'w, 'n, W> {
    pub(crate) watch: &'w mut W,
    /// The places in the log of the part's events.
    pub(crate) names: &'n [usize],
    /// The addresses where the part's cells begin and end, if it is searched as one.
    pub(crate) range: Option<(u64, u64)>,
}

impl<'w, 'n, W: Watch> Watch for Within<'w, 'n, W> {
    ghost use Rattle.std.specs.Prelude.{◌≡◌};

    ghost sees = { λ log s x y. (y.watch.ghost_name ≡ x.watch.ghost_name) × W.sees log s x.watch.now y.watch.now };

    fn choice(&mut self, spot: Spot, log: &Log<'_>, place: &Place) {
        let event = match self.names.get(spot.event) {
            Some(name) => *name,
            None => spot.event,
        };
        let range = match self.range {
            Some(range) => Some(range),
            None => spot.range,
        };
        let there = Spot {
            event,
            range,
            ..spot
        };
        self.watch.choice(there, log, place);
    }
}

/// Looks for a run through the part of the log, within the bounds. How far it reached is told by a place of the log.
pub(crate) fn explore_within<W: Watch>(
    alloc: Global,
    log: &Log<'_>,
    part: &Log<'_>,
    bounds: Bounds,
    within: &mut Within<'_, '_, W>,
) -> Result<Exploration, AllocError>
    requires { IsOn log.now part.now }
    ensures right { IfOk result (λ r. IsRight part.now r.outcome) }
    ensures states { IfOk result (λ r. r.states ≤ bounds.choices) }
    ensures same { IfOk result (λ r. within.new.watch.ghost_name ≡ within.old.watch.ghost_name) }
    ensures saw { IfOk result (λ r. Saw W.sees (IsOn log.now) r.states within.old.watch.now within.new.watch.now) }
{
    let mut found = explore_watched(alloc, part, Way::Part, bounds, within)?;
    found.reach = within.names.get(found.reach).copied().unwrap_or(log.len());
    Ok(found)
}
