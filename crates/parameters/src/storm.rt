//! What `generate` is asked for: a storm of events on a fabric, from a seed.
ghost use Rattle.std.specs.Prelude.{◌↔◌, IsTrue};
ghost use Rattle.parameters.specs.Ranges.{IsStorm};

use seq_memory::{LARGE_BLOCK, SMALL_BLOCK};
use tlp_core::REQUESTERS;

/// The most events of a storm.
pub const MOST_EVENTS: u64 = 1_000_000_000;

/// How many events happen to what fabric, over what links, and where their choice begins.
#[derive(Clone, Copy)]
pub struct Storm {
    /// The seed of the generator that chooses the events, any number of 64 bits.
    pub seed: u64,
    /// How many events happen, 0 to 1,000,000,000.
    pub events: u64,
    /// The requesters of the fabric, 1 to 7.
    pub requesters: u64,
    /// N: one in N packets and DLLPs of a lane is lost, none if N is 0; 0 to 65,536.
    pub lose: u64,
    /// N: one in N arrives with a failed check, none if N is 0; 0 to 65,536.
    pub corrupt: u64,
    /// The bytes of a block of the memory, 64 or 128.
    pub block: u64,
}

impl Storm {
    /// Whether each number is in its range.
    pub fn is_right(&self) -> bool
        ensures { IsTrue result ↔ IsStorm self.now }
    {
        self.events <= MOST_EVENTS
            && self.requesters >= 1
            && self.requesters <= u64::from(REQUESTERS)
            && self.lose <= u64::from(crate::MOST)
            && self.corrupt <= u64::from(crate::MOST)
            && (self.block == u64::from(SMALL_BLOCK) || self.block == u64::from(LARGE_BLOCK))
    }
}
