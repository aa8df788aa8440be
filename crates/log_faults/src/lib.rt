//! The log that a device with a single fault would have written, made of one that is right.
//!
//! [`Fault`] says at which request, and [`FaultKind`] what a device with the fault does. [`changed`] writes its log
//! (`with_fault` in `specs/`). Where a request is some requester's own, that is one of which the log has no record
//! ([`free_requester`], [`is_new`]).
#![tactic(auto)]

mod changing;
mod faults;
mod free;
mod operations;

pub use changing::changed;
pub use faults::{Fault, FaultKind};
pub use free::{free_requester, is_new};
