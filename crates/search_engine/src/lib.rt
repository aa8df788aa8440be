//! The engine of `search`: a log in, a history that explains it out, or that there is none.
//!
//! [`run_search`] reads the whole input, a log or a trace, and looks for a history. What it finds it
//! writes as a trace, to which `check` says `ok`. Of a log with a bookkeeping mistake it writes the first flaw. It writes
//! nothing before the answer is there. It keeps no comments of the input, and no more of a line than it reads at once.
//! [`run_search_with_reasons`] also says for people why there is no history, or why the input can't be
//! read. [`run_search_with`] looks for a history of pieces, too, of reads and writes that don't act as a whole, and
//! tells how far it is. [`run_search_for`] has a bound of work, too, and may write a log of few answers in place of `none`.
//! Which of its bounds ended a search is what is answered, `limit` or `work`. [`run_search_drawn`] draws what it finds, and
//! the log in place of `none`.
#![tactic(auto)]

mod answering;
mod cores;
mod drawing;
mod ending;
mod flaws;
mod granularity;
mod input;
mod keeping;
pub mod laws;
mod lines;
mod options;
mod outcomes;
mod search;
mod stages;
mod telling;

pub use answering::{LIMIT_STATUS, Outcome, OutcomeText, answer_of, answer_with_reasons};
pub use drawing::run_search_drawn;
pub use ending::Ending;
pub use options::{DEFAULT_WORK, SearchDemand, SearchOptions};
pub use search::{
    SearchTask, run_search, run_search_for, run_search_with, run_search_with_reasons,
};
pub use stages::{NoClock, Stages};
