//! Ports of links: worked rows of initialization, packets and credits, each byte; a peer that breaks rules.

mod errors;
mod rows;
mod session;

pub(crate) use session::CREDITS;
