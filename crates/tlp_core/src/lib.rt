//! Transaction layer packets (PCI Express Base 4.0, section 2.2) as values and as bytes: memory
//! reads and writes, AtomicOps, and completions, with headers of 3 and 4 DW.
//!
//! [`decode`] reads a packet of its bytes or tells the first fault, [`encode`] writes the one
//! canonical spelling, [`op_of`] gives the operation that a request asks of a memory,
//! [`op_fault`] tells what keeps an operation from being a request, and [`copy_of`] copies one.
//! [`decode_lent`] and [`op_lent`] do the same for packets and operations whose bytes stay where they
//! were read. A DW is 4 bytes. LCRC, ECRC and framing are not part of a packet's bytes here.
#![tactic(auto)]

mod decoding;
mod encoding;
mod fault;
mod field;
pub mod laws;
mod lent;
mod operation;
mod packet;
mod payload;

pub use decoding::{decode, decode_lent};
pub use encoding::{
    COMPLETION_HEADER, MAX_TLP, encode, encode_lent, put_completion_header, short_code,
};
pub use fault::TlpFault;
pub use lent::{OpRef, op_lent, operand_of};
pub use operation::{Op, OpOf, Width, copy_of, op_fault, op_of};
pub use packet::{Body, Header, Kind, MAX_PAYLOAD, REQUESTERS, Status, Tlp, TlpRef};
pub use payload::{Payload, PayloadRef, payload_of};
