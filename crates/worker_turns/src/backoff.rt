//! When a thread rests.
ghost use Rattle.std.specs.Prelude.{◌≡◌, ◌+◌, ◌-◌, ◌^◌, min};

use crate::gate::Gate;

/// How often a thread rested since it last got on.
#[derive(Clone, Copy)]
pub struct Backoff {
    rests: u32,
}

impl Backoff {
    /// The thread did nothing yet.
    pub fn new() -> Backoff
        ensures { result.rests ≡ 0 }
    {
        Backoff { rests: 0 }
    }

    /// The thread got on in its last round.
    pub fn got_on(&mut self)
        ensures { self.new.rests ≡ 0 }
    {
        self.rests = 0;
    }

    /// The thread got nowhere in its last round, and rests at the gate.
    pub fn rest<G: Gate>(&mut self, gate: &G)
        ensures { self.new.rests ≡ min (self.old.rests + 1) (2 ^ 32 - 1) }
    {
        self.rests = self.rests.saturating_add(1);
        gate.rest(self.rests);
    }
}
