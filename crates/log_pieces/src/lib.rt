//! A log in pieces: what a memory promises whose reads and writes needn't act as a whole.
//!
//! PCI Express (Base 4.0, sections 2.4.2 and 2.4.3) leaves open in which parts a read or a write of several DW acts,
//! but for one thing: the DW of a write appear in rising order of their addresses. [`in_pieces`] makes of each read and
//! write of a log as many requests as it has naturally aligned pieces. They are submitted together and answered
//! together. Those of a write act in rising order, as posted writes of one requester do, and those of a read in any
//! order between its submission and its answer. AtomicOps stay whole. What explains a log in pieces is a history of
//! pieces.
#![tactic(auto)]

mod counting;
mod cutting;
pub mod laws;
mod replies;
mod rows;
mod splitting;

pub use counting::{ends_of, records_of};
pub use splitting::in_pieces;

/// How many bytes of a read or a write act at once: naturally aligned pieces.
#[derive(Clone, Copy)]
pub enum Granularity {
    /// 4 bytes: one DW.
    Four,
    /// 8 bytes.
    Eight,
    /// 16 bytes.
    Sixteen,
    /// 64 bytes.
    SixtyFour,
    /// All of them.
    Whole,
}
