//! A loop over the lines of an input: each is answered in turn, and the answers are written.
//!
//! A [`Responder`] says what is answered, and [`run`] drives it over any reader and writer, a block of
//! input at a time: the answers to the lines that have ended are written before more is read. What a
//! line is, says `hex_text`: neither its line feed nor one carriage return before that is handed on.
//! A line of more than 512 bytes is answered as such, and no more than 513 bytes of it are kept.
//!
//! The status of a run is 1 if the verdict of an answer was a fault, and else 0. Where a stream fails
//! or memory runs out, what was written is a prefix of the run's output.
#![tactic(auto)]

mod engine;
mod fault;
mod output;
mod responder;
mod verdict;

pub use engine::run;
pub use fault::EngineFault;
pub use output::write_out;
pub use responder::Responder;
pub use verdict::Verdict;
