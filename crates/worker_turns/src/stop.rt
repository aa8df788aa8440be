//! Why a worker ends a run.

use fabric_core::Refusal;

/// Why a worker ends the run.
#[derive(Clone, Copy, PartialEq)]
pub enum Stop {
    /// It had used up its turns.
    Turns,
    /// The gate let it not pass.
    Gated,
    /// An allocation failed, or a thread could not be started.
    Memory,
    /// The core's answer to a worker that can't try again.
    Core(Refusal),
}
