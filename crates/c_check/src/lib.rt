//! The checker of histories and the search for one, over texts and buffers.
//!
//! [`check_text`]: the text of a trace in, the line that `pciex check` prints of it out. [`search_text`]: the text of a
//! log in, what `pciex search` prints of it out; [`search_with_reasons`] also says why there is no history.
#![tactic(auto)]

mod search_verdict;
mod verdict;

pub use search_verdict::{Question, Sizes, search_text, search_with_reasons};
pub use verdict::check_text;
