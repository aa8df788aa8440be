//! One end of a link, for a peer of any make: flow-control initialization, the replay buffer, acceptance by sequence
//! number, and credits (PCI Express Base 4.0, sections 2.6 and 3.2 to 3.6).
//!
//! A packet here is its sequence number's two bytes and its TLP. CRCs, framing, link training and time are the caller's:
//! it says what the check of a packet or of a DLLP was, and calls when a timer expires. Arriving TLPs may be of any
//! kind: a port hands them up as they came, and its owner says when their credits are free.
#![tactic(auto)]

mod dllp;
mod due;
mod fault;
mod incoming;
mod init;
mod laws;
mod needs;
mod outgoing;
mod port;

pub use dllp::{InitStage, LinkDllp, decode, encode};
pub use due::{ClassFlags, Due};
pub use fault::{DllpRefusal, EnterRefusal};
pub use incoming::{IncomingEnd, Received};
pub use init::{Advertised, FirstCredits, LinkState};
pub use laws::{
    a_refused_call_changes_nothing, an_initfc_is_read_back, initialization_comes_first,
    no_more_is_held_than_was_advertised, no_more_is_sent_than_the_peer_advertised,
    what_is_acknowledged_was_given_out, what_is_sent_was_entered, whatever_arrives,
};
pub use needs::need_at;
pub use outgoing::{OutgoingEnd, PACKET_BYTES};
pub use port::{DllpReceived, Judged, LinkPort, Outgoing};
