//! What is asked of a sweep.
ghost use Rattle.std.specs.Prelude.{◌↔◌, IsTrue};
ghost use Rattle.sweep_engine.specs.Ranges.{IsSweep};

use parameters::{MOST_WORKERS, Storm};

/// The storms of which seeds are done, and how.
#[derive(Clone, Copy)]
pub struct Sweep {
    /// The storm of the first seed. Those of the others differ in the seed alone.
    pub storm: Storm,
    /// The last seed, at least the first.
    pub last: u64,
    /// Whether `check` asks for the `n`, too.
    pub is_clocked: bool,
    /// Whether seeds after one that fails are told.
    pub keeps_going: bool,
    /// How many threads do the seeds, 1 to 64. None: as many as there are processors.
    pub workers: Option<u64>,
}

impl Sweep {
    /// Whether each number is in its range.
    pub fn is_right(&self) -> bool
        ensures { IsTrue result ↔ IsSweep self.now }
    {
        self.storm.is_right()
            && self.storm.seed <= self.last
            && self
                .workers
                .is_none_or(|workers| workers >= 1 && workers <= MOST_WORKERS)
    }
}
