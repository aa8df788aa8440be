//! What `run` is asked to count: requesters that add to one word.
ghost use Rattle.std.specs.Prelude.{◌↔◌, IsTrue};
ghost use Rattle.parameters.specs.Ranges.{IsCounting};

use tlp_core::REQUESTERS;

/// The most additions of each requester.
pub const MOST_ADDITIONS: u64 = 100_000;

/// The most calls of the hall and pushes of records of a worker.
pub const MOST_TURNS: u64 = 1_000_000_000;

/// The most threads that the workers of lanes, switch and completer are shared by.
pub const MOST_WORKERS: u64 = 64;

/// How many requesters add how often 1 to the first word of a memory, over what links.
#[derive(Clone, Copy)]
pub struct Counting {
    /// 1 to 7.
    pub requesters: u64,
    /// How often each adds, 0 to 100,000.
    pub each: u64,
    /// N: one in N packets and DLLPs is lost, none if N is 0; 0 to 65,536.
    pub lose: u64,
    /// N: one in N arrives with a failed check, none if N is 0; 0 to 65,536.
    pub corrupt: u64,
    /// How many calls of the hall and pushes of records a worker makes at most, 1 to 1,000,000,000.
    pub turns: u64,
    /// How many threads the workers of lanes, switch and completer share, 1 to 64. None: twice the processors.
    pub workers: Option<u64>,
}

impl Counting {
    /// Whether each number is in its range.
    pub fn is_right(&self) -> bool
        ensures { IsTrue result ↔ IsCounting self.now }
    {
        self.requesters >= 1
            && self.requesters <= u64::from(REQUESTERS)
            && self.each <= MOST_ADDITIONS
            && self.lose <= u64::from(crate::MOST)
            && self.corrupt <= u64::from(crate::MOST)
            && self.turns >= 1
            && self.turns <= MOST_TURNS
            && self
                .workers
                .is_none_or(|workers| workers >= 1 && workers <= MOST_WORKERS)
    }
}
