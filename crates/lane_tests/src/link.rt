//! The transmitter's and the receiver's side of a link, its CRCs, its flow control and its receive queue: worked rows.

mod crcs;
mod credits;
mod ordering;
mod senders;
