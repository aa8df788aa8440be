//! The loop of a requester over its seat of a hall: it submits its script, collects the answers, and pushes
//! a record of each into a queue. It takes no `Wait`, so it can't wait for a lock.
#![tactic(auto)]

mod refused;
mod requester;

pub use refused::stop_of;
pub use requester::{Ended, Requester};
