//! The completer of a memory device (PCI Express Base 4.0, section 2.3.1): a request acts on the
//! memory, and its completion carries the reply.
#![tactic(auto)]

mod completion;
pub mod laws;
mod serving;
mod span;

pub use serving::{answer, answer_lent, need_for, need_to_answer, serve, serve_op};
