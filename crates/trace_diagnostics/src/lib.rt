//! Why a trace can't be read or is not explained, for people: one line each, on standard error.
//!
//! A reason says where something stands in a text, by the number of the line, from 1, and what is wrong
//! there. It is told beside the answer, of which it changes nothing, exactly where the answer is a fault:
//! what it says is no promise, and where the stream fails, it is lost.
#![tactic(auto)]

mod cause;
mod flaws;
pub mod laws;
mod trace_lines;
mod traces;

pub use cause::tell_misread;
pub use trace_lines::TraceLines;
pub use traces::TraceReasons;
