//! A trace and a history in little memory.
//!
//! A [`RecordStore`] holds what a [`Trace`](history_words::Trace) does, and a [`TraceStore`] a history besides, but a
//! record or an entry takes at most 40 bytes. Up to 8 bytes of data stand in it. More stand in a list of bytes, those
//! of one record behind those of another. Operations and replies are put in as they are lent.
#![tactic(auto)]

mod kept;
mod same;
mod seen;
mod store;
mod stored;

pub use seen::{RecordStore, Records};
pub use store::TraceStore;
