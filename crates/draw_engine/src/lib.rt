//! The engine of `draw`: the text of a trace in, a picture of its history out.
//!
//! [`run_draw`] goes over any reader and writer, a block of input at a time, and answers at the end of
//! the input. What it writes is one document of SVG, also where the text can't be read.
#![tactic(auto)]

mod draw;
pub mod laws;

pub use draw::run_draw;
