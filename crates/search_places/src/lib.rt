//! Places of a search for a run through the events of a log.
//!
//! A [`Place`] is where the search stands: how many events were passed, which requests have acted,
//! and the bytes of the memory. Each search begins at [`Place::first`]. [`Place::may_pass`] and
//! [`Place::may_act`] say which steps may be taken. [`Place::take`] takes one, [`Place::take_back`]
//! takes it back. A [`Memo`] remembers places from which no run leads to the end, while there is room
//! for them.
//!
//! A place is remembered by all that decides what may follow: the events passed, who is pending, and the
//! memory's blocks that aren't zeros, with the number of zeros before each. So equal places are equal
//! states. They stand in one list, and a table has the newest of each mark: a table of keys would hash
//! hundreds of requests at each look.
#![tactic(auto)]

mod allowed;
mod bytes;
pub mod laws;
mod memo;
mod pending;
mod place;
mod steps;

pub use memo::Memo;
pub use place::Place;
pub use steps::Done;
