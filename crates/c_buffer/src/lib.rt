//! What the calls from other languages share: the buffer that a caller lends for an answer, what
//! a call returns, and [`Parts`], a `Box` by its pointer and its allocator, for handles that stand outside Rattle.
//!
//! An answer, or the text of a fault, stands at the front of the buffer; what is behind it stays.
#![tactic(auto)]

mod outcome;
mod parts;
mod telling;

pub use outcome::{Failure, LINE_BUFFER, Length, the_longest_answer_fills_a_line_buffer};
pub use parts::Parts;
pub use telling::{copy, copy_first, tell, tell_fault};
