//! How many requests each requester has submitted.
ghost use Rattle.std.specs.Prelude.{◌≡◌, ◌+◌, ◌<◌, IfOk, get_or, set, replicate};

use std::alloc::{AllocError, Global};
use std::marker::Model;

/// By requester, the number of its submissions so far.
#[derive(Drop)]
pub(crate) struct Counts {
    counts: Vec<usize>,
}

impl Model for Counts {
    ghost use Rattle.std.specs.Prelude.{◌≡◌, ℕ, List, length};

    ghost Value = { List ℕ };

    ghost view = { λ m. m.counts.items };

    ghost invariant = { λ m. length m.counts.items ≡ 256 };
}

impl Counts {
    pub(crate) fn new(alloc: Global) -> Result<Self, AllocError>
        ensures { IfOk result (λ c. c ≡ replicate 256 0) }
    {
        Ok(Counts {
            counts: vec![in alloc; 0usize; 256]?,
        })
    }

    pub(crate) fn of(&self, requester: u8) -> usize
        ensures { result ≡ get_or self.now requester 0 }
    {
        self.counts[usize::from(requester)]
    }

    /// One more, unless there are as many as a `usize` counts.
    pub(crate) fn add(&mut self, requester: u8)
        requires { get_or self.old requester 0 < 18446744073709551615 }
        ensures { self.new ≡ set self.old requester (get_or self.old requester 0 + 1) }
    {
        self.counts[usize::from(requester)] += 1;
    }
}
