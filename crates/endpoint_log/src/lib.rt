//! What is recorded of a memory device: its block requests, as requester 1 submits them and is answered, and the history.
//!
//! A [`Log`] is told what the device is asked before it does it. Addresses count from the memory's first byte. A posted
//! block request acts when it is submitted. The block requests of a non-posted request are submitted when the first of
//! them acts. What isn't claimed is not recorded. A [`Recording`] is a log that may be off, or lost for want of memory.
#![tactic(auto)]

mod log;
mod moved;
mod recording;

pub use log::Log;
pub use recording::Recording;
