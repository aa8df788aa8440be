//! What the requests of a log need of each word of the memory, and leave there.
//!
//! [`Words`] lists the requests of a log by the words that they name: those that need a value of a word,
//! and those that leave one there, by that value; and those that write all of it, whatever stands there.
//! So whoever may be something to a request is found without a look at all others: [`near_there`],
//! [`near_junk`], [`near_needed`], [`near_left`], [`near_made`], [`near_value`] and [`near_named`] return lists for a
//! [`Stretch`], a word and a part of the log, and say of each request that isn't in them that it is
//! nothing. Whoever writes all of a word needs nothing that stands or is left there. [`span_of`] says
//! which words a request has.
//!
//! The lists are built once, in rising order, so pending requests are a part of one that a binary search
//! finds. Counters would have to be kept, and taken back, at each step. A value that one request alone
//! has at a word stands in the table itself: most are such, and a list takes three times as much. A
//! request of more than 128 bytes, or of none, stands in a list that is always looked at: a short line
//! can name 1,024 words, and no memory serves such a request.
//!
//! What an AtomicOp is answered was there, and is gone if it leaves something else. So it can be found and taken
//! away only as often as it was put there, and once more if it was there at the start. If the log has more requests
//! that took it, no run leads through the log: [`first_overdrawn`]. What a request puts is judged by `search_rules`,
//! as ever: what isn't known may be put there.
#![tactic(auto)]

mod counting;
pub mod laws;
mod lists;
mod near;
mod roles;
mod taken;
mod words;

pub use counting::first_overdrawn;
pub use near::{
    Near, Stretch, near_junk, near_left, near_made, near_named, near_needed, near_there,
    near_value, span_of,
};
pub use words::{Words, words_of};
