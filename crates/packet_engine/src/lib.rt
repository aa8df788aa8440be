//! The engines of `tlp`, `decode` and `encode`. Each goes over any reader and writer, a block of input at a time.
//!
//! [`run_tlp`] reads a TLP a line in hexadecimal digits, over one memory, and writes its completion, `-` for a posted
//! write, or a fault. [`run_decode`] reads a TLP or a DLLP a line in hexadecimal digits and writes it in words,
//! [`run_encode`] reads such words and writes the canonical bytes.
//!
//! Each also says why it answers faults, for people, in a line on standard error.
#![tactic(auto)]

mod bytes;
mod decoder;
mod encoder;
mod laws;
mod reasoned;
mod telling;
mod text;
mod tlp;

pub use decoder::run_decode;
pub use encoder::run_encode;
pub use laws::decoded_packets_are_encoded;
pub use tlp::run_tlp;
