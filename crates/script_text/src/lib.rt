//! The text of scripts for a fabric: the lines that are read, and what is told of each.
//!
//! The first line makes the fabric:
//!
//! ```text
//! fabric <requesters> <base> <size> [<PH> <PD> <NPH> <NPD> <CPLH> <CPLD>] [block <bytes>]
//! ```
//!
//! Each line behind it is an event, and what is seen of it is told in a line:
//!
//! | Line | What is told |
//! |---|---|
//! | `submit <port> <operation>` | `sub <port> <number>` |
//! | `transmit <lane>` | `sent <sequence number, three hexadecimal digits>` |
//! | `deliver <lane> good`, `failed` or `lost` | `accept`, `duplicate`, `nak`, `quiet` or `gone` |
//! | `dllp <lane> ack`, `p`, `np` or `cpl` | the four bytes sent |
//! | `deliver-dllp <lane> good`, `failed` or `lost` | `took <four bytes>` or `gone` |
//! | `timer <lane>` | `replay <places moved back>` |
//! | `retrained <lane>` | `retrained` |
//! | `forward <lane> <place>` | `to <port>` |
//! | `serve <place>` | `at <index in the history>` |
//! | `collect <port>` | `ans <port> <number> <reply>` |
//!
//! or `settle`, by which the fabric is run until nothing moves: what its requesters collect is told as for `collect`,
//! and then `settled`.
//!
//! Lanes are `up1` to `up7`, `down1` to `down7`, `in` and `out`. Fields are parted by one space. The
//! base is hexadecimal, all other numbers are decimal, none has leading zeros. Ports, the number of
//! requesters and header credits have 8 bits, data credits and the bytes of a block 16, places and
//! the size 64: what is above is no line. What the fabric refuses within these ranges is told by the
//! name of the fault or refusal.
#![tactic(auto)]

mod events;
mod fabric;
mod fields;
pub mod laws;
mod line;
mod line_writing;
mod names;
mod writing;

pub use fields::lane_named;
pub use line::{Line, read_line, script_misfit};
pub use line_writing::{write_event, write_fabric};
pub use names::{write_config_fault, write_refusal};
pub use writing::{write_seen, write_settled, write_told};
