//! The CRCs of the data link layer: the LCRC of packets and the CRC of DLLPs (PCI Express Base 4.0, sections 3.6.2
//! and 3.5.1).
//!
//! A packet here is its sequence number's two bytes, its TLP and, if it has one, its LCRC. Framing is the caller's.
//! zlib's `crc32` of the same bytes is `lcrc(bytes).swap_bytes()`.
#![tactic(auto)]

mod check;
mod dllp;
mod laws;
mod packet;

pub use check::{Check, Framing, LcrcCheck, check_dllp, check_packet};
pub use dllp::dllp_crc;
pub use laws::{
    every_burst_is_seen, the_error_alone_decides, the_highest_bit_is_sent_first,
    two_wrong_bits_are_seen, what_was_added_is_good,
};
pub use packet::lcrc;
