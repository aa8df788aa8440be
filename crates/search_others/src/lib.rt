//! What the other requests of a log do to one that waits to act.
//!
//! [`Others`] is what is known of all of them. [`others_spare`] puts a [`Question`] to each one that could act
//! before some place: whether it spares a request, as is [`Asked`], that it doesn't bring what the request
//! needs, for example. Only those are looked at that may be something to it at one of its words.
//! [`all_overlook`] says that what stands at the words of a request is nothing to those that are left,
//! and [`all_ignore`] so of what it leaves there. [`is_idle`] says that a request that was never answered
//! needn't act here, since nobody needs what it would leave. [`is_lost`] says that a request can't have what it needs
//! any more, so that no run leads to the end; [`due_is_lost`] says so of the one whose answer is due, and
//! [`missed_at`] finds one of those that may need what stood at a word.
#![tactic(auto)]

mod due;
mod idle;
mod junk;
mod known;
mod lost;
mod missed;
mod others;

pub use idle::is_idle;
pub use junk::{all_ignore, all_overlook};
pub use known::Others;
pub use lost::{due_is_lost, is_lost};
pub use missed::{Loss, missed_at};
pub use others::{Asked, Question, others_spare};
