//! The recorder: requesters push what they saw into one bounded queue, each from its own thread, and
//! a checker takes it out. What it took of each requester is a prefix of what that requester
//! pushed, in its order, each record once.
#![tactic(auto)]

pub mod laws;

pub use laws::{Pusher, ROOM, Recorder, Taker};
