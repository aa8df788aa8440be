//! A lane: one direction of a link, with both its ends and both its wires.
//!
//! Packets go from the sender's end over the forward wire to the receiver's end, which queues them until they are
//! taken; Acks, Naks and UpdateFCs come back over the back wire. Numbers, Acks and replays are those of the data link
//! layer (PCI Express Base 4.0, sections 3.5 and 3.6), credits those of section 2.6, and the queue keeps the order of
//! section 2.4.
//!
//! Each call of [`LaneEnds`] goes over the ends that it uses, and is exact on their values, whether or not these are
//! right together. Time, losses and failed checks are the caller's: a [`Fate`] says what becomes of the oldest on a wire.
//!
//! A [`Lane`] is four ends that are right together. What holds of it whatever calls are made stands in its laws: packets
//! are accepted in the order in which they were entered, each once, no answer is ever a protocol error, and credits are
//! what was granted less what was used.
#![tactic(auto)]

mod ends;
mod lane;
mod laws;
mod packet;
mod receiver_end;
mod sender_end;
mod wires;

pub use ends::LaneEnds;
pub use flow_control::LaneCredits;
pub use lane::Lane;
pub use laws::{
    a_turn_flushes_a_lane, accepted_begins_entered, an_empty_flushed_lane_takes_any_packet,
    an_idle_call_changes_nothing, credits_are_whole_numbers, each_call_keeps_it_right,
    found_within_the_window, never_a_protocol_error, only_the_first_is_accepted,
    quiet_is_nothing_left, room_is_known_less_used, what_a_lane_holds_is_spelled,
    wire_bytes_tell_the_packet,
};
pub use packet::{Arrival, DllpKind, DllpSeen, Fate, LaneRefusal, WirePacket};
pub use receiver_end::ReceiverEnd;
pub use sender_end::SenderEnd;
pub use wires::{BackWire, ForwardWire};
