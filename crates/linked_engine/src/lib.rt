//! The engine of `endpoint --link`: a memory device behind its end of a link, line by line.
//!
//! Each line has one answer, which is written before more is read: `packet` and `dllp` with the bytes of what arrives, `next`
//! for what is sent next, `up` and `down` from the physical layer, `refresh`, `replay` and `retrained` from timers, `state`, and
//! `trace` for what the memory did. Any other line is a fault, which changes nothing.
#![tactic(auto)]

mod asked;
mod credits;
mod explained;
mod frames;
pub mod laws;
mod lines;
mod options;
mod packet_line;
mod reasons;
mod texts;

pub use credits::FiniteCredits;
pub use explained::run_linked;
pub use options::LinkedOptions;
