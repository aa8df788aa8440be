//! How many packets and DLLPs have reached the ends of each lane's wires.
ghost use Rattle.std.specs.Prelude.{◌≡◌, ◌<◌, replicate};
ghost use Rattle.script_text.specs.Spelled.{IsSpelledLane};
ghost use Rattle.generate_engine.specs.Arrivals.{lane_place, next_on, with_next};

use fabric_core::LaneName;
use std::marker::Model;

/// As many as there are lanes' names: two for each port, `in` and `out`.
const LANES: usize = 16;

/// The counts of one kind, by lanes.
#[derive(Drop)]
pub(crate) struct Counts {
    counts: [u64; LANES],
}

impl Model for Counts {
    ghost use Rattle.std.specs.Prelude.{ℕ, List};

    ghost Value = { List ℕ };

    ghost view = { λ c. c.counts };
}

/// The place of a lane.
fn place_of(lane: LaneName) -> usize
    requires { IsSpelledLane lane }
    ensures place { result ≡ lane_place lane }
    ensures small { result < 16 }
{
    match lane {
        LaneName::Inward => 0,
        LaneName::Up(port) => usize::from(port),
        LaneName::Outward => 8,
        LaneName::Down(port) => usize::from(port) + 8,
    }
}

impl Counts {
    pub(crate) fn new() -> Counts
        ensures { result ≡ replicate 16 0 }
    {
        Counts { counts: [0; LANES] }
    }

    /// The count of the next one on the lane, from 1. Counts wrap at 2^64, which no fate tells: a plan takes them
    /// modulo 65,536.
    pub(crate) fn next(&self, lane: LaneName) -> u64
        requires { IsSpelledLane lane }
        ensures { result ≡ next_on self.now lane }
    {
        self.counts[place_of(lane)].wrapping_add(1)
    }

    /// One more on the lane.
    pub(crate) fn add(&mut self, lane: LaneName)
        requires { IsSpelledLane lane }
        ensures { self.new ≡ with_next self.old lane }
    {
        let place = place_of(lane);
        self.counts[place] = self.counts[place].wrapping_add(1);
    }
}
