//! A fabric in a slot that stands outside Rattle, driven by the lines of scripts, and brought to rest.
//!
//! A slot holds a fabric or nothing, and only the slot that a call gave back holds it then: the one
//! that the call took is used up.
#![tactic(auto)]

mod happening;
mod held;
mod scripts;
mod session;
mod settling;
mod slot;
mod witness;

pub use happening::tell_event;
pub use held::{copy_bytes, history_length, is_quiet, tell_trace};
pub use scripts::{Reached, tell_script};
pub use settling::{settle_fabric, tell_collected};
pub use slot::{Slot, free_fabric, new_fabric};
