//! A requester of the fabric (PCI Express Base 4.0, sections 2.2.6 and 2.2.7): it numbers its
//! requests, gives each non-posted one a tag, and knows its completion by that tag.
#![tactic(auto)]

mod answer;
mod fault;
pub mod laws;
mod request;
mod requester;

pub use answer::{Answer, AnswerOf, AnswerRef};
pub use fault::{CompletionFault, SubmitRefusal};
pub use request::{Origin, request_with};
pub use requester::{NUMBERS, OpenRequest, Requester, TAGS};
