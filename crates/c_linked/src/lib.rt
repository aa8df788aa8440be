//! An endpoint behind one end of a link, in a slot that stands outside Rattle: a memory device that a root complex brings
//! up, packets and DLLPs in, packets and DLLPs out, and a trace of what its memory did, if one is kept.
//!
//! A slot holds an endpoint or nothing, and only the slot that a call gave back holds it then: the one that the call
//! took is used up. When a packet or a DLLP arrives, and at each [`refresh_link`], requests act and their completions enter
//! the replay buffer. [`tell_next`] sends what is due.
#![tactic(auto)]

mod calls;
mod laws;
mod session;
mod settling;
mod setup;
mod slot;
mod timers;
mod trace;

pub use calls::{MAX_PACKET, Sent, copy_bytes, take_dllp, take_packet, tell_next};
pub use laws::the_trace_behind_a_link_is_explained;
pub use setup::{FiniteCredits, LinkedSetup, NewFailure};
pub use slot::{Slot, free_linked, new_linked};
pub use timers::{
    LinkStatus, link_down, link_status, link_up, refresh_link, replay_link, retrain_link,
};
pub use trace::tell_trace;
