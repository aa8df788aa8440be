//! Ack/Nak (PCI Express Base 4.0, section 3.6).
//!
//! A [`Sender`] is the transmitter's side: sequence numbers, the replay buffer and the replay counter (section 3.6.2).
//! Time is the caller's: an expiry of the replay timer is a call.
//!
//! A [`Receiver`] is the receiver's side: which packets are handed up, and which Ack or Nak is sent back (section
//! 3.6.3). The check of a packet (its LCRC) is the caller's, who says whether it was good.
#![tactic(auto)]

mod cargo;
mod fault;
mod laws;
mod receiver;
mod receiver_laws;
mod sender;

pub use cargo::{CARGO_BYTES, Cargo};
pub use fault::{AckFault, SendRefusal};
pub use laws::{
    kept_are_the_last_accepted, kept_numbers_are_consecutive, replays_are_the_same,
    transmitted_under_its_own_number,
};
pub use receiver::{NakScheduled, Receiver, Reception};
pub use receiver_laws::{hands_up_what_it_advanced_by, one_nak_until_a_packet_is_accepted};
pub use sender::{Sender, WINDOW};
