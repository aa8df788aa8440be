//! Configuration of a memory device: one function with a Type 0 header (PCI Express Base 4.0, section 7.5), and the
//! requests for its registers (sections 2.2.7 and 7.3).
//!
//! [`register_at`] is the table: what each register is after a reset, which of its bits a write sets, and which a 1
//! clears. All other bits are read-only. [`Registers`] are the values of those registers that change.
//!
//! A request is CfgRd0, CfgWr0, CfgRd1 or CfgWr1. [`decode`] reads one from its bytes, or reports the first fault;
//! [`encode`] writes its canonical bytes. A DW is 4 bytes.
#![tactic(auto)]

mod decoding;
mod encoding;
mod fault;
pub mod laws;
pub mod packet_laws;
mod register;
mod registers;
mod request;
mod setup;

pub use decoding::decode;
pub use encoding::{MAX_CFG, encode};
pub use fault::CfgFault;
pub use register::{Register, register_at};
pub use registers::{Noted, Registers};
pub use request::CfgRequest;
pub use setup::Setup;
