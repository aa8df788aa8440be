//! The end of a search that was given up.
use search_history::Bound;

/// By which bound a search was ended, and after how many choices: as many as it may look at, or fewer, where the work ended
/// it.
#[derive(Clone, Copy)]
pub struct Ending {
    pub bound: Bound,
    pub choices: u64,
    /// How much work was left: none, where that ended it.
    pub work: u64,
}
