//! What `run` and `generate` are asked for, and the ranges of it.
//!
//! A [`Plan`] of faults says what becomes of the packets and DLLPs of a wire, as a fixed function of their
//! count, so that a run under a plan can be repeated.
#![tactic(auto)]

mod counting;
mod plan;
mod storm;

pub use counting::{Counting, MOST_ADDITIONS, MOST_TURNS, MOST_WORKERS};
pub use plan::{MOST, Plan, a_plan_without_faults_is_good, each_part_is_lost};
pub use storm::{MOST_EVENTS, Storm};
