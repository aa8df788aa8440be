//! A memory device that a root complex brings up and uses: what becomes of each TLP (PCI Express Base 4.0, sections
//! 2.2.9, 2.3.1, 2.4.1 and 7.5).
//!
//! An [`Endpoint`] has the registers of one function, a memory behind its BAR, and a queue of non-posted requests.
//! [`Endpoint::take`] is what a TLP does when it comes: a posted request acts, a non-posted one waits. Each
//! [`Endpoint::act`] lets the oldest one act, a read block by block, and gives its completion.
//!
//! [`receive`] says what any bytes are to a device, whatever its state (sections 2.2, 2.3.1 and 2.7): a memory request,
//! a configuration request, one that is refused, a message that is ignored, a completion that nobody asked for, or a
//! malformed packet. It takes a digest off.
#![tactic(auto)]

mod classes;
mod completions;
mod device;
mod endpoint;
pub mod laws;
mod received;
mod requests;
mod waiting;

pub use classes::receive;
pub use device::Room;
pub use endpoint::{Endpoint, Handled};
pub use received::{Descriptor, Malformed, PacketRoom, Received};
pub use requests::dw_in_front;
pub use waiting::{MemoryRequest, Waiting};
