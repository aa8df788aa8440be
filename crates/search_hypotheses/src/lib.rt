//! Single faults of a device with which a log that has no history would have one.
//!
//! [`hypotheses`] tries some faults of the requests that are nearest to the last answer. For each it writes the log that a
//! device with that fault would have written (`log_faults`), and searches that. What is told has a history so. Which faults
//! are tried, and in which order, is a guess; that the device has one of them is not said.
#![tactic(auto)]

mod guesses;
mod hypothesis;
mod trials;

pub use hypothesis::Hypothesis;
pub use log_faults::{Fault, FaultKind};
pub use trials::{Tried, hypotheses, torn_at};
