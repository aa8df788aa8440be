//! Rules by which a search for a run needn't try everything.
//!
//! A run is dead once a request doesn't find what it needs and no other brings it before its answer is
//! due; also where that is so of one byte: [`Need`]; and where a request was answered what no memory
//! answers: [`first_unanswerable`]. A request that may act acts at once, if each other
//! that could act before it takes away for good what it needs, or makes no difference to it; and if none
//! that has one of its bytes can act before it. It acts at once, too, if others may act in turn after it
//! and leave only junk: nobody who is left then needs what it overwrote, or what any of them put there.
//! What is junk is judged word by word. Of requests that are alike the one that is due first acts first. One that was never
//! answered may wait where nobody needs what it leaves.
//! [`laws`] says this of all runs, whatever the operations do. What two requests of a log do to each
//! other is told by their bytes.
//!
//! The rules are careful: an AtomicOp that wasn't answered may leave anything. A rule that doesn't apply
//! costs choices, never a right answer.
#![tactic(auto)]

mod alike;
mod answers;
mod idle;
mod junk;
pub mod laws;
mod missing;
mod pairs;
mod resting;

pub use alike::are_alike;
pub use answers::first_unanswerable;
pub use idle::{Made, is_junk_behind, is_unanswered, rests_behind};
pub use junk::{is_junk_at, is_served, is_within, leaves_junk_at, overlooks};
pub use missing::{Need, need_at, never_puts};
pub use pairs::{
    Answered, changes_nothing, follows, is_apart, is_quiet, lets_first, never_brings,
    never_brings_answered, yields,
};
