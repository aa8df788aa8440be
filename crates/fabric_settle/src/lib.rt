//! A fabric that is run until nothing moves.
//!
//! A round tries, in this order:
//!
//! 1. on each lane, `up1` to `up7`, `in`, `out`, `down1` to `down7`: the replay timer expires, where a packet that was
//!    sent is kept; the link is retrained where its sender is stopped; all packets that can go are sent, and all on the
//!    wire arrive; an Ack or Nak and an UpdateFC of each class are sent, and all DLLPs on the wire back arrive;
//! 2. on `up1` to `up7` and `out`: the switch forwards the packet at place 0 of the queue and then that at place 1;
//! 3. the memory acts on the request at place 0 of its queue and then on that at place 1;
//! 4. each requester, from port 1 on, collects the completions that wait for it.
//!
//! Each is an event of the fabric, an [`Attempt`], and one that is refused changes nothing. A round has moved something
//! where a packet was sent, delivered, moved back, forwarded, served or collected. The rounds end after one that moved
//! nothing, and after 10,000 at the latest.
//!
//! [`settle`] makes the rounds. Who wants to keep something of their events is a [`Witness`]: a trace of records is one.
//! What the rounds do to a fabric doesn't depend on it.
//!
//! Why it then rests: a packet that was submitted needs a fixed number of hops until nothing is left of it. A posted
//! request is forwarded and served, any other is forwarded and served, and its completion is forwarded and collected. The
//! sum over all lanes is the number of hops that are left. Whatever was lost, refused or stopped before, one turn flushes
//! each lane ([`hops_laws`]); then, unless the fabric is quiet, a packet goes on, which lowers the hops that are left. So
//! the rounds end in a quiet fabric, within as many rounds as hops were left, and one more before the last ([`rest_laws`]).
#![tactic(auto)]

mod attempt;
mod attempts;
pub mod hops_laws;
pub mod laws;
pub mod rest_laws;
mod rounds;
mod turns;
mod witness;

pub use attempt::Attempt;
pub use rounds::settle;
pub use witness::{Witness, happen};
