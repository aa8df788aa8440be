//! What happened on the links of a fabric, as a chart.
//!
//! A [`Chart`] is told each event with what was seen of it, and follows the packets and DLLPs: what waits in the replay
//! buffer of each lane, what is on its wires and in its receive queue. So it knows what each packet carries, and in
//! which row it was sent. It keeps the events of a [`ChartWindow`], 1,000 at most, and counts the others. A brief one leaves
//! out the DLLPs that tell their sender nothing new. [`new_lines`] are the step lines that a window shows beside the rows.
#![tactic(auto)]

mod chart;
mod course;
mod lanes;
mod laws;
mod left;
mod levels;
mod limits;
mod news;
mod window;

pub use chart::Chart;
pub use laws::{charts_without_levels_are_charts, events_get_the_next_row};
pub use levels::new_lines;
pub use window::ChartWindow;
