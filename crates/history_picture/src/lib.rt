//! Pictures of histories.
//!
//! [`put_picture`] draws a trace and its history as SVG: the points of the history from left to right,
//! its entries along the axis, and below them a row for each requester, with [the bars](history_bars) of its requests. Above
//! stand the first flaw, and what the colours, the dots and the open bars mean that occur.
#![tactic(auto)]

mod entries;
mod flaws;
mod heading;
pub mod laws;
mod legend;
mod notes;
mod picture;
mod scale;

pub use flaws::Finding;
pub use picture::{put_line_picture, put_picture};
pub use scale::Window;
