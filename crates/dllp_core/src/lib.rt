//! Data link layer packets (DLLPs) as values and as bytes: Ack, Nak and UpdateFC of VC0 (PCI Express Base 4.0,
//! section 3.5). The CRC isn't part of the bytes here.
#![tactic(auto)]

mod decoding;
mod encoding;
mod fault;
mod laws;
mod packet;

pub use decoding::decode;
pub use encoding::encode;
pub use fault::DllpFault;
pub use laws::{bytes_spell_one_dllp, canonical_is_read_back};
pub use packet::{Class, Dllp};
