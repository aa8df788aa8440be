//! The engine of `chart`: a script of events on a fabric in, a chart of what happened on its links out.
//!
//! [`run_chart`] makes the fabric that a script's first line names, and does the event of each line after it or runs the
//! fabric until nothing moves, as `step` does. At the end of the input it writes one document of SVG, also where a fault
//! or a refusal ended the run.
#![tactic(auto)]

mod chart;
mod explained;
pub mod laws;
mod making;
mod witness;

pub use explained::run_chart;
