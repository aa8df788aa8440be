//! A list that only proofs read.
#![tactic(auto)]

mod list;

pub use list::GhostList;
