//! Which bytes the events of a log name.
ghost use Rattle.std.specs.Prelude.{◌≡◌, ◌+◌, ◌≤◌, ◌⊎◌, ℕ, IfOk, IsTrue, Some, slice_get};
ghost use Rattle.log_runs.specs.EventView.{EventView};
ghost use Rattle.log_cells.specs.Places.{ArePlaces, IsPlaceOf};

use log_runs::{EventHeader, Log};
use std::alloc::{AllocError, Global};

/// Some bytes, by their first address and their number.
#[derive(Clone, Copy)]
pub(crate) struct Place {
    pub(crate) from: u64,
    pub(crate) count: u32,
}

/// No bytes.
const NOWHERE: Place = Place { from: 0, count: 0 };

impl Place {
    /// No byte of it lies from `low` up to `high`.
    pub(crate) fn is_outside(self, low: u64, high: u64) -> bool
        ensures { IsTrue result → (self.from + self.count ≤ low) ⊎ (high ≤ self.from) }
    {
        high <= self.from || (self.from <= low && u64::from(self.count) <= low - self.from)
    }

    /// All bytes of it lie from `low` up to `high`.
    pub(crate) fn is_inside(self, low: u64, high: u64) -> bool
        ensures { IsTrue result → (low ≤ self.from) × (self.from + self.count ≤ high) }
    {
        low <= self.from && self.from <= high && u64::from(self.count) <= high - self.from
    }
}

/// The place of the request, as far as it is known.
fn known(places: &[Place], request: usize) -> Place {
    match places.get(request) {
        Some(place) => *place,
        None => NOWHERE,
    }
}

/// The place of the event there.
fn place_at(log: &Log<'_>, at: usize, places: &[Place]) -> Place
    ensures { (e : EventView) → slice_get log.now.events at ≡ Some e → IsPlaceOf e result }
{
    match log.header(at) {
        Some(EventHeader::Sub { address, size, .. }) => Place {
            from: address,
            count: size,
        },
        Some(EventHeader::Due { request }) => known(places, request),
        Some(EventHeader::Free) => NOWHERE,
        None => NOWHERE,
    }
}

/// The places of a log's events.
pub(crate) fn places_of(alloc: Global, log: &Log<'_>) -> Result<Vec<Place>, AllocError>
    ensures { IfOk result (λ v. ArePlaces log.now.events v.items) }
{
    let mut places = Vec::with_capacity(alloc, log.len())?;
    for at in 0..log.len() {
        let place = place_at(log, at, &places);
        places.push(place)?;
    }
    Ok(places)
}
