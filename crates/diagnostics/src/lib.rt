//! Why a line is refused, for people: one line, on standard error.
//!
//! A reason says where something stands in a text, by the number of the line, from 1, and what is wrong
//! there: the [`Misfit`](operation_text::Misfit) of the reader that didn't read it, or the name of a
//! refusal and what it means. It is told beside the answer, of which it changes nothing, exactly where
//! the answer is a fault: what it says is no promise, and where the stream fails, it is lost.
//!
//! [`Reasoned`] stands around a responder and leaves its answers as they are; what it tells beside them is said by one that
//! has [`Reasons`]. [`ReasonLines`] ends the reasons of a run after the first thousand. In place of the next one it says
//! once that no more are told.
#![tactic(auto)]

mod digits;
mod lines;
mod reason_lines;
mod reasoned;
mod shown;
mod telling;

pub use digits::digits_reason;
pub use lines::{long_line_reason, refusal_reason};
pub use reason_lines::ReasonLines;
pub use reasoned::{Reasoned, Reasons};
pub use telling::{Part, Reason};
