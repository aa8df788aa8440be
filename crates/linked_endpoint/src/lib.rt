//! A memory device behind one end of a link: packets and DLLPs of a root complex's link in, and packets and DLLPs out.
//!
//! A [`LinkedEndpoint`] is a [`LinkPort`](port_core::LinkPort) and an [`Endpoint`](endpoint_core::Endpoint). Accepted TLPs go
//! to the device. A request that waits has its credits until its last completion. Completions enter the replay buffer as
//! far as the peer's credits go.
#![tactic(auto)]

mod laws;
mod linked;

pub use laws::{
    a_settled_device_is_at_rest, each_accepted_request_acts_once,
    no_more_is_completed_than_the_peer_advertised,
};
pub use linked::{Arrived, LinkedEndpoint, tlp_in};
