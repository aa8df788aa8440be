//! Reading texts of records: traces and logs.
//!
//! Such a text has a head, the memory's line, records, and then what its [`Form`] says: entries of a history, or
//! the end alone. A [`RecordReader`] takes its lines and finds the first fault. What is kept of the lines, how they
//! are read and where they may stand, the form says.
#![tactic(auto)]

mod fault;
mod fields;
mod form;
mod reader;
mod reading;

pub use fault::{Cause, Misread, ReadFault, ReadFaultKind, write_fault};
pub use fields::{count, memory, request, requester};
pub use form::{Form, Scratch, Section, Taken};
pub use reader::RecordReader;
pub use reading::read_records;
