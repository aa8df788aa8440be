//! Flow control and ordering of one virtual channel (PCI Express Base 4.0, sections 2.6 and 2.4).
//!
//! There are six counters for each direction of a link: headers and data, a data unit being 16 bytes, of each
//! [`Class`](dllp_core::Class) of traffic. Header counters are modulo 256, data counters modulo 4096, and all are
//! cumulative. A first value of 0 advertises infinite credit. [`need_of`] is what a packet takes of the credits,
//! [`CreditGate`] the sender's gate and [`CreditLedger`] the receiver's ledger.
//!
//! [`may_pass`] is the ordering table, without relaxed or ID-based ordering. An [`OrderedQueue`] holds received packets
//! in order of arrival, in a queue for each class; a place of it is takeable if its packet may pass every earlier one.
#![tactic(auto)]

mod classes;
mod counter;
mod gate;
mod laws;
mod ledger;
mod limits;
mod needs;
mod numbers;
mod ordering;
mod queue;
mod queue_laws;

pub use classes::Arrived;
pub use gate::CreditGate;
pub use laws::{
    an_account_is_right, counters_stand_for_whole_numbers, each_event_keeps_the_account,
    limits_let_each_packet_go, units_are_the_least,
};
pub use ledger::CreditLedger;
pub use limits::{LaneCredits, MAX_DATA, MAX_HEADERS, MIN_ATOMIC_DATA, MIN_DATA};
pub use needs::{Need, class_of, need_of};
pub use ordering::may_pass;
pub use queue::OrderedQueue;
pub use queue_laws::{
    completions_of_a_request_keep_their_order, completions_of_different_requests_pass,
    everything_passes_a_non_posted_request, nothing_passes_a_posted_request,
    posted_requests_pass_the_others, requests_pass_completions, the_oldest_is_takeable,
};
