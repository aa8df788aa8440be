//! What a round tries.

use fabric_core::Event;

/// An event that a round tries.
#[derive(Drop)]
pub enum Attempt {
    /// It is tried once.
    Once(Event),
    /// It is tried until it is refused.
    All(Event),
}
