//! The bars of requests in a picture of a history.
//!
//! Each request is a bar from the length that the history had at its submission to that at its answer, with a dot where it
//! acted, and says what was asked and what was answered. A bar that a posted request or one without an answer has is open
//! at its right. Each requester has a row, in which bars that overlap stand in sub-rows. [`rows::put_rows`] draws them.
#![tactic(auto)]

pub mod bar_texts;
pub mod bars;
pub mod laws;
pub mod lookup;
pub mod marks;
pub mod requests;
pub mod rows;
pub mod scale;
pub mod signs;
pub mod words;
