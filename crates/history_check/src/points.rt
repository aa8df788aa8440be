//! A table of numbers, some of them none, in 4 bytes each.
ghost use Rattle.std.specs.Prelude.{◌≡◌, ◌<◌, ◌++◌, ◌∷◌, [], length, set, get_or, None, IfOk, OnOk, replicate, slice_get, option_and_then};
ghost use Rattle.history_check.specs.Points.{point_of, Fits};

use std::alloc::{AllocError, Global};
use std::marker::Model;

/// What stands for none. Each number in a table is below it.
pub(crate) const NONE: u32 = u32::MAX;

/// A table of numbers, each of which may be none.
#[derive(Drop)]
pub(crate) struct Points {
    items: Vec<u32>,
}

impl Model for Points {
    ghost use Rattle.std.specs.Prelude.{ℕ, List, Option, map};
    ghost use Rattle.history_check.specs.Points.{point_of};

    ghost Value = { List (Option ℕ) };

    ghost view = { λ m. map point_of m.items.items };
}

fn item_of(point: Option<usize>) -> u32
    requires { Fits point }
    ensures { point_of result ≡ point }
{
    match point {
        Some(p) => p as u32,
        None => NONE,
    }
}

fn nones(alloc: Global, count: usize) -> Result<Vec<u32>, AllocError>
    ensures { IfOk result (λ v. v.items ≡ replicate count 4294967295) }
{
    vec![in alloc; NONE; count]
}

impl Points {
    /// As many times none.
    pub(crate) fn none(alloc: Global, count: usize) -> Result<Self, AllocError>
        ensures { IfOk result (λ points. points ≡ replicate count None) }
    {
        Ok(Points {
            items: nones(alloc, count)?,
        })
    }

    /// An empty table with room for the count.
    pub(crate) fn with_capacity(alloc: Global, count: usize) -> Result<Self, AllocError>
        ensures { IfOk result (λ points. points ≡ []) }
    {
        Ok(Points {
            items: Vec::with_capacity(alloc, count)?,
        })
    }

    /// What stands at the place; none behind the table's end.
    pub(crate) fn get(&self, place: usize) -> Option<usize>
        ensures value { result ≡ option_and_then (λ p. p) (slice_get self.now place) }
        ensures read { place < length self.now → result ≡ get_or self.now place result }
        ensures small { Fits result }
    {
        match *self.items.get(place)? {
            NONE => None,
            p => Some(p as usize),
        }
    }

    /// Puts it at the place, which the table has.
    pub(crate) fn set(&mut self, place: usize, point: Option<usize>)
        requires place { place < length self.old }
        requires small { Fits point }
        ensures { self.new ≡ set self.old place point }
    {
        self.items[place] = item_of(point);
    }

    /// Puts it behind all others.
    pub(crate) fn push(&mut self, point: Option<usize>) -> Result<(), AllocError>
        requires { Fits point }
        ensures { OnOk result (self.new ≡ self.old ++ point ∷ []) }
    {
        self.items.push(item_of(point))?;
        Ok(())
    }
}
