//! The text of logs: what requesters submitted and were answered, in the order of time.
//!
//! ```text
//! pciex-log 1
//! memory <base> <size> <block>
//! sub <requester> <number> <operation>
//! ans <requester> <number> <reply>
//! end
//! ```
//!
//! A log is a trace of version 2 without n's and without a history: its fields have the same ranges, and
//! empty lines and lines that begin with `#` are skipped and counted. In version 2 of a log an answer may be `done`: its
//! request acted before it, and nothing is known of its reply. Where a log is read, a trace of
//! either version may stand in its place. It is read as `check` reads it, and its n's and its history
//! say nothing of the log.
//!
//! The laws [`what_is_seen_can_be_told`] and [`what_is_explained_can_be_told`] say which records lines can tell.
#![tactic(auto)]

mod form;
mod laws;
mod line;
mod reading;
mod told;

pub use laws::{no_fault_is_out_of_memory, what_is_seen_can_be_told};
pub use reading::{read_log, read_seen, read_seen_with_cause};
pub use told::what_is_explained_can_be_told;
