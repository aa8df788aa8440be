//! Requests that were submitted and haven't acted.
ghost use Rattle.std.specs.Prelude.{◌≡◌, ◌≤◌, ◌==◌, ◌&&◌, ◌||◌, not, true, ℕ, [], OnOk, slice_get};
ghost use Rattle.search_places.specs.Pending.{has};
ghost use Rattle.search_places.specs.Pending as spec;

use log_runs::{EventHeader, Log};
use std::alloc::{AllocError, Global};
use std::marker::Model;

/// Requests, in their order.
#[derive(Drop)]
pub(crate) struct Requests {
    items: Vec<usize>,
}

impl Model for Requests {
    ghost use Rattle.std.specs.Prelude.{ℕ, List};
    ghost use Rattle.std.specs.List.Sorted.{IsStrictlyIncreasing};

    ghost Value = { List ℕ };

    ghost view = { λ r. r.items.items };

    ghost invariant = { λ r. IsStrictlyIncreasing r.items.items };
}

impl Requests {
    /// None.
    pub(crate) fn new(alloc: Global) -> Requests
        ensures { result ≡ [] }
    {
        Requests {
            items: Vec::new(alloc),
        }
    }

    /// All of them.
    pub(crate) fn as_slice(&self) -> &[usize]
        ensures { result.now ≡ self.now }
    {
        self.items.as_slice()
    }

    /// The lowest of them and `or`.
    pub(crate) fn first(&self, or: usize) -> usize
        ensures least { (c : ℕ) → has self.now c ≡ true → result ≤ c }
        ensures bound { result ≤ or }
    {
        match self.items.as_slice().first() {
            Some(c) => if *c < or { *c } else { or },
            None => or,
        }
    }

    /// Adds the request.
    pub(crate) fn add(&mut self, b: usize) -> Result<(), AllocError>
        ensures { OnOk result ((c : ℕ) → has self.new c ≡ ((b == c) || has self.old c)) }
    {
        if let Err(at) = self.items.as_slice().binary_search(&b) {
            self.items.insert(at, b)?;
        }
        Ok(())
    }

    /// Takes the request away.
    pub(crate) fn remove(&mut self, b: usize)
        ensures { (c : ℕ) → has self.new c ≡ (not (b == c) && has self.old c) }
    {
        if let Ok(at) = self.items.as_slice().binary_search(&b) {
            self.items.remove(at);
        }
    }

    /// Adds the request if it is a posted write.
    pub(crate) fn add_post(&mut self, log: &Log, b: usize) -> Result<(), AllocError>
        ensures { OnOk result ((c : ℕ) → has self.new c ≡ (((b == c) && spec.is_post (slice_get log.now.events b)) || has self.old c)) }
    {
        if !is_post(log, b) {
            return Ok(());
        }
        self.add(b)
    }

    /// Takes the request away if it is a posted write.
    pub(crate) fn remove_post(&mut self, log: &Log, b: usize)
        ensures { (c : ℕ) → has self.new c ≡ (not ((b == c) && spec.is_post (slice_get log.now.events b)) && has self.old c) }
    {
        if is_post(log, b) {
            self.remove(b);
        }
    }
}

/// The event at that index is a posted write.
fn is_post(log: &Log, b: usize) -> bool
    ensures { result ≡ spec.is_post (slice_get log.now.events b) }
{
    match log.header(b) {
        Some(EventHeader::Sub { is_posted, .. }) => is_posted,
        _ => false,
    }
}
