//! Storms of many seeds, each through `generate`, `step --trace` and `check`, in one process.
//!
//! [`run_sweep`] does in memory what a pipe of the three programs does, with seeds side by side in threads, and writes
//! two lines for each seed that fails: what `check` says of it, and the pipe that says the same. The threads share
//! nothing, and what they find is told in the order of seeds: the output is the same for any number of them.
#![tactic(auto)]

mod engine;
mod judging;
mod options;
mod piping;
mod sweeper;
mod telling;

pub use engine::run_sweep;
pub use options::Sweep;
pub use piping::Said;
