//! Why a log has no history, or why its text can't be read, for people: lines on standard error.
//!
//! [`tell_none`] says which lines have no history and which have one, which answers contradict each other, and why, in
//! a few words. It looks for that first ([`reasons_of`]) and writes then. [`tell_fault`] says on which line a text can't
//! be read, and what was expected there, and [`tell_flaw`] where the form of a log is wrong. [`tell_given_up`] says how far
//! a search came that was given up. A reason is told beside the answer, of which it changes nothing. [`reason_lines`] makes
//! the lines of reasons for a picture of the log.
//!
//! Where no word of an answer tells why, a cycle of requests may (`search_anomalies`): each acts before the next one.
//! Nothing promises that one is found, and nothing rests on it; each of its lines follows from the log. Where there is none
//! either, single faults of a device are told with which there would be a history (`search_hypotheses`).
#![tactic(auto)]

mod asked;
mod cases;
mod causes;
mod cycles;
mod faults;
mod finding;
mod flaws;
mod given_up;
mod misreplies;
mod named;
mod supposed;
mod supposing;
mod telling;
mod wording;

pub use cases::Case;
pub use causes::Cause;
pub use faults::tell_fault;
pub use finding::{Reasons, Why, reasons_of, reasons_with_faults};
pub use flaws::tell_flaw;
pub use given_up::{GivenUp, explained_of, tell_given_up};
pub use misreplies::Misreply;
pub use named::{Named, answers_named, named_by};
pub use search_anomalies::{Bound, Edge, Kept, Link, Prefix, Sum, Word, WordCause, core_of};
pub use supposed::Supposed;
pub use telling::{lines_of, reason_lines, tell_none};
pub use wording::word_text;
