//! The hall: the same fabric for many threads, with no lock round it.
//!
//! Each part of the fabric lies in a slot of one table, and a word says who has it: 0 while it is free, else 1 plus the
//! number of the seat that has it. A call takes the words of the few parts that its event uses, one at a time, does the
//! event on them, and gives them back one at a time. No call waits, and none tries again: a part that another seat has
//! is answered as [`HallRefusal::Busy`].
//!
//! Whatever the threads do, there is one history of requests that acted, it only grows, and each seat knows a prefix
//! of it.
//!
//! A [`Hall`] is `Sync`, so that threads share it by `&`; seats are `Send`, and each moves to the thread that uses it.
//! A seat is used with the hall that it came from.
//!
//! [`opening`] puts the parts of a fabric into the slots of a table, and [`closing`] takes them out again. The words stand
//! [`WORDS_APART`] places apart; [`free_words`] is a row of them before any seat has a part.
#![tactic(auto)]

pub mod closing;
mod fault;
mod free;
mod hall;
pub mod laws;
pub mod opening;
mod seats;
mod told;

pub use closing::StillHeld;
pub use fault::HallFault;
pub use free::{first_taken, free_words};
pub use hall::Hall;
pub use hall_events::refusal::HallRefusal;
pub use hall_events::work::WorkEvent;
pub use hall_laws::part::Part;
pub use seats::{ReqSeat, WorkSeat};
pub use told::{Answered, Submitted};
