//! What is wrong with a log that has no history, by what its requests do to the words that its answers show.
//!
//! [`words_cause`] says why a word can't be there where a request acts that was answered it: nothing put it there, it was
//! taken twice, it was overwritten before, or additions make another sum. [`cycle_through`] looks for a cycle of requests,
//! each of which acts before the next one. [`wide_request`] says which request may act in parts. [`core_of`] makes a short
//! log of few answers.
//!
//! Nothing promises that any of this is found, and nothing rests on it; what is found follows from the log. What a request
//! puts and needs is judged by `search_effects`, as the search itself judges it.
#![tactic(auto)]

mod causes;
mod cores;
mod cycles;
mod doubles;
mod effects;
mod links;
mod sums;
mod tallies;
mod wide;
mod words;

pub use causes::{WordCause, words_cause};
pub use cores::{Kept, core_of};
pub use links::{Edge, Link, cycle_through};
pub use log_events::Prefix;
pub use sums::{Bound, Sum};
pub use wide::wide_request;
pub use words::Word;
