//! The engine of `run`: a counter that one to seven requesters add to at once, over links that lose and
//! corrupt packets, and a check that each addition was counted once.
//!
//! [`run_counting`] runs worker threads over a hall and writes what came of it. What a report says is a law of [`laws`].
#![tactic(auto)]

pub mod laws;
mod plan;
mod progress;
mod text;

pub use progress::Progress;
pub use text::run_counting;
