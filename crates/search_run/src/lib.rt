//! A search for a run through the events of a log to its end.
//!
//! It goes through states: how many events were passed, who has acted, the memory's bytes. What may
//! be done at once is done at once. Where an answer is due whose request hasn't acted, each request
//! that may act is tried, one after the other, and each try is taken back. A state is dead where a
//! request can't have what it needs any more. States from which nothing leads to the end are
//! remembered, while there is room for them.
//!
//! A place from which several steps may be taken is a frame. A stack keeps the steps that lead to each and
//! those that were tried there. The steps of all frames stand in one list: with lists of its own each frame
//! took 400 bytes.
#![tactic(auto)]

mod exploring;
mod stack;
mod trail;
mod walk;
mod watching;

pub use exploring::{Bound, Bounds, Exploration, Outcome, explore, explore_watched};
pub use search_forced::Way;
pub use watching::{Spot, Unwatched, Watch};
