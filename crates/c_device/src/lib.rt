//! A memory device: the bytes of one TLP in, those of its completion out.
//!
//! A [`Slot`] stands outside Rattle and holds a device with its history, or nothing. Only the slot that a call gave back
//! holds the device then: the one that the call took is used up.
//!
//! [`serve_packet`] serves one TLP over bytes that its caller keeps: there is no history, and no memory is taken.
#![tactic(auto)]

mod device;
mod history;
mod serving;
mod slot;

pub use device::{MAX_COMPLETION, answer_bytes, tell_completion};
pub use history::{copy_bytes, history_length, tell_entry};
pub use serving::serve_packet;
pub use slot::{Slot, extent_of, free_device, new_device};
