//! Parts of a log: the requests on some bytes of the memory, and their answers.
//!
//! A cell is a range of bytes that no request crosses the ends of, and that can't be divided further.
//! [`Cells`] divides a memory into ranges of one cell or several. [`part`] is the part of a log on one
//! of them. If no run leads through a part, none leads through the log. A part has fewer requests and
//! a smaller memory, so a search of it is shorter.
//!
//! A part is found by a pass over the log's events, which takes less memory than a sorted copy of all.
//! Cells side by side are searched as one range if all passes together would look at more than
//! 33,554,432 events. Where there are many ranges, groups of them get parts first, and each range's part
//! is found in that of its group: a pass over a whole log for each of 256 words took a quarter of the
//! time of a search.
#![tactic(auto)]

mod cells;
pub mod laws;
mod names;
mod parts;
mod places;

pub use cells::Cells;
pub use parts::{LogPart, part};
