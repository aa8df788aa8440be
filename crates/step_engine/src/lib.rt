//! The engine of `step`: a script of events on a fabric in, what is seen of each out.
//!
//! [`run_step`] makes the fabric that a script's first line names, does the event of each line after it or runs the
//! fabric until nothing moves, and writes what is seen of it, or at the end the trace of the whole run with its
//! history. It goes over any reader and writer, a block of input at a time. It may go on after refusals, and write each
//! result after its line, and tells why it answers a fault or a refusal, for people.
#![tactic(auto)]

mod answering;
mod explained;
pub mod laws;
mod options;
mod step;

pub use explained::run_step;
pub use options::StepOptions;
