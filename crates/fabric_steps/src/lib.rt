//! The events of a fabric, and the laws of its steps: one memory, requesters, and the lanes between them.
//!
//! [`EventOf`] is what can happen to a fabric, [`SeenOf`] what is seen of it. An [`Event`] and a [`Seen`] have an
//! operation or an answer of their own, an [`EventRef`] and a [`SeenRef`] have it lent. The value of both is the same.
//! A [`Refusal`] is why nothing happens.
//!
//! In the laws a fabric is what its lanes hold, each packet with its number, what its requesters
//! have open, and the history of its memory. They say what every list of steps keeps: requests
//! travel once and whole, posted writes stay before what their requester asked later, each request
//! that acted has its one completion, and the growing history explains every answer.
#![tactic(auto)]

mod event;
mod fault;
pub mod laws;
mod lent;

pub use event::{Event, EventOf, LaneName, LinkEvent, Seen, SeenOf};
pub use fault::Refusal;
pub use lent::{EventRef, SeenRef};
