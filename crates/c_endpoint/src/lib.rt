//! An endpoint in a slot that stands outside Rattle: a memory device that a root complex brings up, TLPs in and
//! completions out, and a trace of what its memory did, if one is kept.
//!
//! A slot holds an endpoint or nothing, and only the slot that a call gave back holds it then: the one that the call
//! took is used up.
#![tactic(auto)]

mod calls;
mod session;
mod slot;
mod text;
mod trace;

pub use calls::{copy_bytes, reset_endpoint, take_tlp, tell_next};
pub use slot::{Slot, Wanted, free_endpoint, new_endpoint};
pub use text::tell_recording;
pub use trace::tell_trace;
