//! Packets in words: the one line of text of a TLP or a DLLP, and the packet that a line spells.
//!
//! | Line | Packet |
//! |---|---|
//! | `<operation> from <id> tag <tag>` | a request; the operation is as scripts have it, `read 40 1 F 0` |
//! | `completion <status> to <id> tag <tag> by <id> count <n> lower <lower>` | Cpl |
//! | `completion <status> <bytes> to <id> tag <tag> by <id> count <n> lower <lower>` | CplD |
//! | `cfgread <function> <register> <enables> from <id> tag <tag>` | CfgRd0; CfgRd1 is `cfgread1` |
//! | `cfgwrite <function> <register> <enables> <bytes> from <id> tag <tag>` | CfgWr0; CfgWr1 is `cfgwrite1` |
//! | `ack <number>`, `nak <number>` | Ack, Nak |
//! | `update <class> <headers> <data>` | UpdateFC |
//!
//! A TLP's line ends with ` tc <n>` and ` attr <n>` where they aren't 0, which they never are in a
//! configuration request. An ID has four hexadecimal digits, a tag and a Lower Address two, a sequence
//! number and a register's offset three. A function is `<bus>:<device>.<function>` in hexadecimal
//! digits, without leading zeros; byte enables are one such digit. Other numbers are decimal. A status
//! is `sc`, `ur` or `ca`, a class `p`, `np` or `cpl`. Letters of digits are read in either case and
//! written in capitals.
#![tactic(auto)]

mod bytes;
mod completion;
mod configuration;
mod fault;
mod fields;
mod laws;
mod origin;
mod packet;
mod reading;
mod writing;

pub use bytes::{decode, encode};
pub use fault::{BytesFault, TextFault, Unread};
pub use laws::own_text_spells_packet;
pub use packet::Packet;
pub use reading::{read_packet, read_words};
pub use writing::{write_bytes_fault, write_decoded, write_packet, write_text_fault};
