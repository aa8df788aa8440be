//! The levels of a fabric's lanes through the rows of a chart: queues, replay buffers and credits.
//!
//! A [`StepLine`] keeps one [`Level`] of one lane. It is shown the fabric after the event of each row, and keeps a
//! [`Step`] for each row in which the level has another value than in the row before. [`put_levelled_page`] writes the
//! page of a chart with step lines behind its results.
#![tactic(auto)]

mod drawing;
mod laws;
mod level;
mod page;
mod step_line;

pub use laws::step_lines_have_the_levels_of_their_rows;
pub use level::{Level, level_of};
pub use page::put_levelled_page;
pub use step_line::{Step, StepLine, add_lane, show_all};
