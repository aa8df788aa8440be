//! A monitor of ports in a slot that stands outside Rattle.
//!
//! A slot holds a monitor or nothing, and only the slot that a call gave back holds it then: the one
//! that the call took is used up.
#![tactic(auto)]

mod calls;
mod failures;
mod slot;

pub use calls::{count_open, give_up_tag, tell_acted, tell_completion, tell_request};
pub use slot::{Slot, free_monitor, new_monitor};
