//! What the threads of a hall rest on: the parts of a fabric in the order of their slots, what a seat knows, the rule
//! between any two steps on the words, those steps, and the duty of each event.
#![tactic(auto)]

pub mod boxed;
pub mod duties;
pub mod laws;
pub mod part;
pub mod slots;
pub mod takes;
pub mod token;
