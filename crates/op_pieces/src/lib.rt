//! An operation in pieces: reads and writes in naturally aligned pieces, in rising order of their addresses.
//!
//! [`front`] and [`back`] divide a read or a write, and [`cut`] divides it at each multiple of a number of bytes. The
//! bytes stay where they are. An AtomicOp is aligned to its operand and stays whole. The pieces of a memory request
//! that end at multiples of 128 bytes are its block requests: [`laws`] says that together they are the request.
#![tactic(auto)]

mod cutting;
mod halves;
pub mod laws;

pub use cutting::cut;
pub use halves::{back, dw_of, dw_to, front};
