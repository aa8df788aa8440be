//! The switch of the fabric (PCI Express Base 4.0, section 1.3.3): its ports, which of them a packet goes
//! to, and the packet's way from one lane's queue into another lane, unchanged.
#![tactic(auto)]

mod fault;
mod forwarding;
mod route_fault;
mod routing;

pub use fault::ForwardRefusal;
pub use forwarding::{forward, forward_ends};
pub use route_fault::RouteFault;
pub use routing::{Port, route};
