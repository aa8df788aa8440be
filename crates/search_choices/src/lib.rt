//! The steps that a search for a run tries.
//!
//! [`choices`] returns the steps that may be taken at a place, the most promising one first, and
//! [`only_step`] the only one, where there is no choice. Which request is the most promising is a guess: the one
//! that acts next in a run through a part of the log.
//! A [`Turn`] says when a request acts in such a run.
//!
//! Of requests that ask for the same and were answered the same, or weren't, only the one that is due first is
//! tried. [`Links`] say which may be alike. One that was never answered isn't tried while nobody needs what it leaves.
#![tactic(auto)]

mod alike;
mod guesses;
mod links;
mod offers;

pub use guesses::{NO_PART, Turn};
pub use links::Links;
pub use offers::{Hints, choices, only_step};
