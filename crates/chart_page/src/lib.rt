//! The page of a chart: what happened on the links of a fabric, as SVG.
//!
//! A [`Page`](chart_rows::Page) is a list of rows, one for each event that is shown, and time goes down. Each requester,
//! the switch and the memory has a line from top to bottom. [`put_chart_shapes`] draws what `chart_marks` draws of each row
//! below a legend, with what is said of each event at the left.
#![tactic(auto)]

mod heading;
mod legend;
mod page;

pub use page::{put_chart_shapes, put_title_chart};
