//! The text of traces and histories.
//!
//! ```text
//! pciex-trace 2
//! memory <base> <size> <block>
//! sub <requester> <number> <n> <operation>
//! ans <requester> <number> <n> <reply>
//! history
//! ent <requester> <number> <operation>
//! end
//! ```
//!
//! Fields are parted by one space. Bases are hexadecimal, and all other numbers but those of operations
//! decimal, none with leading zeros. A block is 64 or 128. Requesters are 1 to 7, and a request's number is below 2^32
//! - 1. The `sub` and `ans` lines come in the order of events, the `ent` lines in the history's order. Empty lines and
//! lines that begin with `#` are skipped, and counted.
//!
//! In the first version the head is `pciex-trace 1`, the memory's line has no block, and blocks have
//! 64 bytes. Both versions are read, and the second is written.
#![tactic(auto)]

mod form;
mod laws;
mod line;
mod reader;
mod reading;
mod rewriting;
mod writing;

pub use laws::{
    a_rewriting_is_a_reading, fields_can_be_told, own_text_spells_trace, told_trace_is_read_back,
    what_is_read_can_be_told,
};
pub use reader::TraceReader;
pub use reading::{read_trace, read_trace_with_cause};
pub use rewriting::TraceRewriter;
pub use writing::write_trace;
