//! Which events of a log are on some bytes of the memory.
ghost use Rattle.std.specs.Prelude.{◌≡◌, ◌≤◌, IfOk, IfSome, IsTrue, Some, slice_get, length};
ghost use Rattle.log_cells.specs.Places.{AreNames, IsApart};

use crate::places::Place;
use std::alloc::{AllocError, Global};

/// The place has no byte from `low` up to `high`.
fn is_apart(places: &[Place], at: usize, low: u64, high: u64) -> bool
    ensures { IsTrue result → (p : Place) → slice_get places.now at ≡ Some p → IsApart low high p }
{
    match places.get(at) {
        Some(place) => place.is_outside(low, high),
        None => true,
    }
}

/// The events with bytes from `low` up to `high`, in their order.
pub(crate) fn names_in(
    alloc: Global,
    places: &[Place],
    low: u64,
    high: u64,
) -> Result<Vec<usize>, AllocError>
    ensures { IfOk result (λ v. AreNames v.items places.now low high (length places.now)) }
{
    let mut names = Vec::new(alloc);
    for at in 0..places.len() {
        if !is_apart(places, at, low, high) {
            names.push(at)?;
        }
    }
    Ok(names)
}

/// How many of the last names are looked at before all others.
const FEW: usize = 16;

/// From where on an event is looked for among the first names, which rise: mostly it is one of the last of them.
fn near(names: &[usize], before: usize, event: usize) -> usize
    ensures { result ≤ before }
{
    let from = before.saturating_sub(FEW);
    match names.get(from) {
        Some(name) if *name <= event => from,
        _ => 0,
    }
}

/// Where the event stands among the first `before` names, which rise.
pub(crate) fn name_of(names: &[usize], before: usize, event: usize) -> Option<usize>
    requires { before ≤ length names.now }
    ensures { IfSome result (λ c. slice_get names.now c ≡ Some event) }
{
    let from = near(names, before, event);
    let place = from + names[from..before].partition_point(|name| *name < event);
    match names.get(place) {
        Some(name) if *name == event => Some(place),
        _ => None,
    }
}
