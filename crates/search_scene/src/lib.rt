//! Scenes of logs that have no history, for a picture.
//!
//! [`scene_of`] looks for the reasons that a log has no history, and chooses some requests: those on the reasons' lines, and
//! the last ones. Each becomes a bar with what its records say. A bar has its place in a history of the records before the
//! last one, if one is found. The last answer has the reply that is expected, if that is found, too. If the reason is a cycle
//! of requests, arrows go round it.
//!
//! Which requests are shown is a choice, and nothing promises that it is a good one. What a scene says of them follows from
//! the log.
#![tactic(auto)]

mod arrows;
mod bars;
mod choosing;
mod columns;
mod ends;
mod known;
mod notes;
mod page;
mod scenes;

pub use scenes::scene_of;
