//! A history that explains what requesters saw, or a proof that there is none.
//!
//! A log is a [`RecordStore`](trace_store::RecordStore) of which only the order of its records counts, not its
//! n's. An answer `Done` says only that its request acted. [`search`] looks for n's, replies in place of `Done` and a
//! history that make it a trace that the history explains: a run through the log is one. Where it says that there is none, no history explains
//! the log; it then looks for a prefix that has none either, and is as short as it can prove.
//! [`explained_before`] says that the prefix that is one shorter has one, and which reply a history has in place of the last
//! one. [`contradiction`] looks for few answers of such a prefix that no history explains together, [`contradict`] finds out
//! whether some do. All that is searched behind an answer keeps within one [`Budget`].
#![tactic(auto)]

mod alone;
mod budgets;
mod expecting;
mod judging;
pub mod laws;
mod moments;
mod searching;
mod shortest;
mod thinning;
mod within;

pub use budgets::Budget;
pub use judging::is_unexplained;
pub use search_run::{Bound, Bounds, Spot, Unwatched, Watch};
pub use searching::{Sought, search, search_watched};
pub use shortest::{Before, explained_before, is_explained};
pub use thinning::{contradict, contradiction};
