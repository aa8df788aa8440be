//! What is drawn of a row of a chart: arrows, marks and texts beside lines.
//!
//! [`put_strokes`] draws an arrow for each packet and each DLLP that arrived or was lost, from the row in which it was sent,
//! [`put_open`] the beginning of the way of what isn't seen to arrive, and [`put_note`] the marks and texts of a row. What
//! a legend says is asked for with [`kind_shown`], [`stroke_of`] and [`end_of`].
#![tactic(auto)]

mod arrows;
mod notes;
mod shapes;

pub use arrows::{Stroke, cross, end_of, open_pen, pen, pen_of, put_open, put_strokes, stroke_of};
pub use notes::{kind_shown, put_note};
pub use shapes::{Pen, kind_colour, label_at, put_square, rule};
