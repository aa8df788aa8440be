//! The engine of `endpoint`: TLPs in, and what becomes of them; completions out, when they are asked for.
//!
//! Each line has one answer, which is written before more is read: `tlp` and the bytes of a TLP that comes, `next` for the
//! next completion, `reset`, and `trace` for what the memory did. Any other line is a fault, which changes nothing.
#![tactic(auto)]

pub mod laws;
mod lines;
mod options;
mod reasons;
mod texts;

pub use lines::run_endpoint;
pub use options::EndpointOptions;
pub use reasons::untraced_reason;
pub use texts::{no_line, put_handled};
