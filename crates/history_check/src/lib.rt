//! Whether a history explains what requesters were told.
//!
//! A [`Trace`](history_words::Trace) has what requesters submitted to a memory and what they were answered, in the order
//! of events, wherever it comes from; a history is the requests in the order in which the memory
//! did them. [`check`] says whether the history explains the trace, and else what is wrong first:
//! each answer has to be the sequential memory's at one point of the history that lies after its
//! submission, before the answer, and above the points of all answers that its requester had before
//! it asked. [`check_clocked`] asks also that the `n` are those of a history that grew: then requests
//! act in real-time order, so that the answered ones are linearizable.
//!
//! [`check_claim`] and its like take a trace and a history however they are kept: whatever says what
//! stands at each place, as an [`AsClaim`](history_words::AsClaim). [`Claim`](history_words::Claim) is one that lends both. No step of the check
//! copies a record or an entry.
//!
//! The check is near linear in the records and entries: one loop each over flat tables.
#![tactic(auto)]

mod acting;
mod answers;
mod checking;
mod clocks;
mod comparing;
mod index;
pub mod laws;
mod points;

pub use checking::{
    check, check_claim, check_claim_clocked, check_claim_with_clock, check_clocked,
};
use history_words::{Flaw, FlawKind};

/// Where an allocation failed.
pub(crate) const NO_MEMORY: Flaw = Flaw {
    kind: FlawKind::Memory,
    place: 0,
};
