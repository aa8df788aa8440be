//! Steps that a search may take at once.
//!
//! A step is forced if, when some run leads on, one leads on after it. [`forced`] sees such a step by the
//! rules for one request: a request acts, one of those at which a [`Look`] is worth it, or an event is
//! passed. [`at_once`] goes on from there: it finds requests over bytes that nobody needs, and the only step
//! that may be taken. A [`Catalog`] is what is known of a log before its search begins. [`Losses`] are the
//! words that steps changed, and tell a request that needs what stood there and doesn't get it any more.
//!
//! The rules look at a `Scene`: a place, the log and the catalog. In them `request` is the one of which it is
//! asked whether it acts at once, `other` another one, `member` one of those that act in turn with it, and
//! `awaited` the one before whose answer it must act.
//!
//! What only says where a rule is worth its test stands in `hints` and `sketches`; nothing rests on it.
#![tactic(auto)]

mod catalog;
mod groups;
mod hints;
mod junk;
mod losses;
mod rules;
mod scene;
mod sketches;
mod steps;

pub use catalog::{Catalog, Way, catalog_of};
pub use hints::Look;
pub use losses::Losses;
pub use rules::forced;
pub use steps::{at_once, work_for};
