//! What a check of a history speaks of.
//!
//! A [`Trace`] has what requesters submitted to a memory and what they were answered, in the order
//! of events, wherever it comes from; a history is the requests in the order in which the memory
//! did them. Both together are a [`Claim`], and whatever keeps them is an [`AsClaim`]. `specs` says when
//! a history explains a trace, and which [`Flaw`] comes first where it doesn't.
#![tactic(auto)]

mod claim;
mod flaws;
pub mod laws;
mod record;

pub use claim::{AsClaim, Claim, RecordHeader};
pub use flaws::{Flaw, FlawKind};
pub use record::{Record, RecordOf, RecordRef, Trace};
