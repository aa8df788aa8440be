//! Lines of a text, and bytes in a line of hexadecimal digits.
//!
//! A line feed ends a line, and the last line of a text may have none. Neither the line feed nor one
//! carriage return before it counts. A line has at most 512 bytes before its line feed. Empty lines
//! and lines that begin with `#` are skipped.
//!
//! [`HexLine`] reads the bytes of a line: two digits a byte, of either case, and spaces are ignored.
//! [`read_digits`] reads those of digits without spaces.
//! [`write_bytes`] writes a line of bytes in capitals, in groups of four with a space between each
//! two groups; [`write_both`] one of bytes that stand in two places.
//! [`pair_of`] is a byte's digits as text.
#![tactic(auto)]

mod lines;
mod reading;
mod tables;
mod writing;

pub use lines::{MAX_LINE, is_skipped, is_too_long, without_return};
pub use reading::{HexLine, read_digits};
pub use tables::pair_of;
pub use writing::{HexText, write_both, write_bytes};
