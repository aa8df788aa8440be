//! The sequential memory: bytes from a base address on, and the history of the requests that
//! changed them.
//!
//! A [`Memory`] does one operation at a time, in the order in which [`Memory::act`] is called, and
//! that order is its history. What it holds is what the entries of the history make of zeros, one
//! after the other; what it answers to an entry depends on the entries before it alone.
//!
//! [`perform`] is one step over bytes that the caller keeps, without a history, and [`perform_lent`]
//! the same for an operation that lends its bytes. [`apply`] is what an AtomicOp makes of its operand.
//!
//! An access is served if its place, the bytes of all DW or of the operand that it names, lies in
//! one naturally aligned block of 64 or 128 bytes and inside the memory. A DW is 4 bytes. Numbers
//! are little-endian.
#![tactic(auto)]

pub mod atomic_laws;
mod atomics;
mod data;
mod entry;
mod extent;
mod history;
pub mod laws;
mod limits;
mod memory;
mod place;
mod reply;
mod step;

pub use atomics::{AtomicOp, apply};
pub use data::ReplyData;
pub use entry::{Entry, EntryOf, EntryRef};
pub use extent::Extent;
pub use history::{Counted, Keeper, Kept};
pub use limits::{LARGE_BLOCK, MAX_SIZE, MIN_SIZE, SMALL_BLOCK, is_base, is_block, is_size};
pub use memory::Memory;
pub use place::refusal_lent;
pub use reply::{Reply, ReplyOf, ReplyRef};
pub use step::{enabled_bytes, perform, perform_lent};

/// Why an access is not served. It then changes no byte.
#[derive(Clone, Copy, PartialEq)]
pub enum Refusal {
    /// The operation has a fault, or its place crosses a block: CA (section 2.2.9).
    Aborted,
    /// The place lies in one block, but not inside the memory: UR.
    Unsupported,
}
