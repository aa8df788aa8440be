//! Packets over buffers: the bytes of a TLP or a DLLP in, its line of words out, and back; the fields of a
//! TLP; the names of a TLP's faults; and the CRCs of a link, with checks.
#![tactic(auto)]

mod checks;
mod crc_fields;
mod fields;
mod names;
mod words;

pub use checks::{check_dllp, check_packet};
pub use crc_fields::{tell_dllp_crc, tell_lcrc};
pub use fields::{TlpFields, decode_tlp};
pub use names::{name_fault, tell_version};
pub use words::{tell_bytes, tell_packet};
