//! When a history explains what requesters saw, and the runs of a memory that such a history is.
//!
//! A log is a trace without its n's and without a history: what was submitted and answered, in the
//! order of time. It is explainable if n's of some choice and some history make it a trace that the
//! history explains. An answer `Done` says that its request acted before it, and nothing of the reply: any
//! reply is met. A search doesn't go through histories but through runs: records are passed in their order,
//! and requests act between them. The laws say that an explainable log has a run.
#![tactic(auto)]

pub mod laws;
mod log;

pub use log::{Event, EventAt, EventHeader, Log, PartEvent};

/// A step of a run through a log.
#[derive(Clone, Copy, PartialEq)]
pub enum Step {
    /// The next record is passed.
    Pass,
    /// The request at that place acts.
    Act(usize),
}
