//! The events of a hall: each takes the parts that it uses, one at a time, does the event of the fabric on them, and
//! gives them back one at a time. Where the first part shows that there is nothing to do, no further part is taken.
//! What its seat learns and what is seen are told by the fabric's own steps.
//!
//! A call goes by a [`Desk`](desk::Desk): its seat at the table. A part that was taken is a [`Held`](desk::Held), which
//! can't be dropped.
#![tactic(auto)]

pub mod desk;
mod events;
mod links;
pub mod meeting;
pub mod refusal;
mod requests;
mod switching;
pub mod work;
