//! A monitor of the ports of a memory: the TLPs that the ports carry go in, and lines of a log or of
//! a trace come out.
//!
//! Requests and completions go in, as bytes, in the order in which the ports carry them. Each
//! requester, 1 to 7, has one port. The monitor numbers the requests of each, and knows by its tag
//! which request a completion answers. A refused call changes nothing.
#![tactic(auto)]

mod fault;
mod head;
pub mod laws;
mod monitor;
mod reading;
mod watched;
mod writing;

pub use fault::MonitorFault;
pub use head::{Head, read_head, write_head};
pub use monitor::Monitor;
pub use watched::{OpenRequest, Watched};
pub use writing::{write_entry, write_record};
