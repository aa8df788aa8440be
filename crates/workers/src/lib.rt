//! Worker threads that drive a hall: one for each requester, some that share the workers of the lanes, the switch and
//! the completer, and a checker that takes what requesters saw out of a queue while the others run.
//!
//! [`run_workers`] runs a plan and answers a report, whose history explains its trace, or why there is
//! none. No worker but the checker can wait: its loop takes no `Wait`.
#![tactic(auto)]

mod context;
mod jobs;
mod running;
mod shares;
mod shifts;
mod tasks;
mod threads;

pub use jobs::{Job, Worker};
pub use running::{run_workers, run_workers_counting};
pub use tasks::{Task, work};
pub use worker_report::{Report, RunHalt, RunPlan};
pub use worker_turns::{Gate, OpenGate, SleepingGate};
