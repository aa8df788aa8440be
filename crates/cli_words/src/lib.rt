//! The words of a command line, and what they ask for.
#![tactic(auto)]

mod devices;
mod outputs;
mod reading;
mod subcommands;
mod texts;
mod words;

pub use outputs::SearchOutput;
pub use words::{Request, RequestFault, options};
