//! Pictures of logs that have no history.
//!
//! [`put_scene`] draws requests of a log as SVG: the lines of the log from left to right, and each request in a row of its
//! own, by requesters, as a bar from its submission to its answer. A bar has its request's place in a history, what was
//! asked and what was answered. The last answer, which no history explains, stands in red. An arrow leads from a request to
//! one that acts after it, and says why.
//!
//! What is drawn is a [`Scene`], which has no more than texts and numbers: what it shows is said where it is made.
#![tactic(auto)]

mod arrows;
mod axis;
mod heading;
pub mod laws;
mod parts;
mod picture;
mod requests;
mod scene;
mod signs;

pub use picture::put_scene;
pub use scene::{Arrow, Line, PictureRequest, Role, Scene};
