//! What is told.
use log_faults::Fault;

/// A fault with which a history explains the first records of a log that has none, or all of it.
#[derive(Clone, Copy, PartialEq)]
pub struct Hypothesis {
    pub fault: Fault,
    /// It explains all records.
    pub is_whole: bool,
}
