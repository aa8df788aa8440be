//! The events of a log: which answer belongs to which submission.
//!
//! Tables guess which records belong together, and each guess is tested where it is used, so that
//! an event never says more than its record. The first record with a wrong form is found exactly.
//!
//! [`Requests`] are the requests of a log's first records, by the places of their records, and when they
//! acted at the latest. [`complete`] puts the replies of a run in place of answers that have only `Done`.
#![tactic(auto)]

mod completing;
mod counts;
mod events;
mod form;
mod partners;
mod prefix;
mod replies;
mod requests;

pub use completing::{complete, perform};
pub use events::{answer_at, log_of};
pub use form::{Form, form_of};
pub use partners::Partners;
pub use prefix::Prefix;
pub use replies::reply_at;
pub use requests::{LogRequest, Requests};
