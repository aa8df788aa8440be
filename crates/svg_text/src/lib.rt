//! Pictures as the text of SVG, which is XML.
//!
//! The text of a picture is that of a tree of elements: each is opened and closed by its name, its
//! attributes have names of their own and values in quotation marks, and what marks tags, values and
//! entities stands in texts and values as an entity. Functions add one shape each, and [`put_page`]
//! a whole document, given the text of its shapes. Each shape that is no text has a title, for those
//! who have the picture read out.
#![tactic(auto)]

mod colour;
mod laws;
mod pieces;
mod shapes;
mod writing;

pub use colour::Colour;
pub use laws::{escaped_texts_are_plain, pages_are_well_formed, shapes_are_read_out};
pub use shapes::{Block, Dot, Label, Rule};
pub use writing::{put_block, put_dot, put_label, put_lines, put_page};
