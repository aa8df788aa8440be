//! What the words of a command line ask for, done over any streams, and the exit status of it.
//!
//! [`on_one_thread`] runs the engine that the words ask for. A run by worker threads and a sweep it leaves undone, and tells
//! what is to be done, so that all that is said of it holds whether or not a thread ever returns. [`command`] does these too.
#![tactic(auto)]

mod files;
mod hints;
mod noted;
mod one_thread;
mod plain;
mod program;
mod searching;

pub use files::{is_request, take_file};
pub use hints::{has_no_subcommand, tell_reader};
pub use noted::{Fallible, Noted};
pub use one_thread::{Host, Outcome, ended, no_words, on_one_thread};
pub use program::command;
pub use search_engine::NoClock;
