//! The engines of `check` and `upgrade`: the text of a trace in, a verdict or the text in its second
//! version out.
//!
//! [`run_check`] tells whether a trace's history explains its records and, if that is asked, whether the `n` are those of a
//! history that grew; [`run_upgrade`] writes a trace of either version in the second one, unchecked. Both go over any
//! reader and writer, a block of input at a time, answer at the end of the input, and tell the reason of a fault or a flaw,
//! for people.
#![tactic(auto)]

mod check;
pub mod laws;
mod traces;
mod upgrade;

pub use check::run_check;
pub use traces::{TraceInput, tell_trace};
pub use upgrade::run_upgrade;
