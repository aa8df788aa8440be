//! Where the search stands.
ghost use Rattle.std.specs.Prelude.{◌≡◌, ◌≤◌, ◌↔◌, ℕ, List, Some, true, false, IsTrue, IfOk, slice_get, slice_set, replicate};
ghost use Rattle.log_runs.specs.Runs as runs;
ghost use Rattle.search_places.specs.Pending.{has};
ghost use Rattle.search_places.specs.Places.{IsPlace};
ghost use Rattle.search_places.specs.Ready.{is_set};

use crate::bytes::zeros;
use crate::pending::Requests;
use log_runs::Log;
use std::alloc::{AllocError, Global};
use std::cell::Cell;
use std::marker::Model;

/// A state of a run, the requests that were passed and haven't acted, and those of them that are
/// posted writes.
#[derive(Drop)]
pub struct Place {
    /// How many events were passed.
    pub(crate) event: usize,
    /// The requests that were passed and haven't acted.
    pub(crate) pending: Requests,
    /// Those of them that are posted writes.
    pub(crate) posts: Requests,
    /// The bytes of the memory.
    pub(crate) bytes: Vec<u8>,
    /// Which requests have acted, by their index in the log.
    pub(crate) acted: Vec<bool>,
    /// How many requests were looked at and not told yet. Nothing rests on it.
    looks: Cell<u64>,
}

impl Model for Place {
    ghost use Rattle.search_places.specs.PlaceView.{PlaceView};

    ghost Value = { PlaceView };

    ghost view = { λ p. record { state = record { event = p.event; acted = p.acted.items; bytes = p.bytes.items }; pending = p.pending; posts = p.posts } };
}

fn none_acted(alloc: Global, count: usize) -> Result<Vec<bool>, AllocError>
    ensures { IfOk result (λ v. v.items ≡ replicate count false) }
{
    vec![in alloc; false; count]
}

impl Place {
    /// Where each search through the log begins: nothing was passed, nobody has acted, the memory's
    /// bytes are zeros.
    pub fn first(alloc: Global, log: &Log) -> Result<Place, AllocError>
        ensures state { IfOk result (λ p. p.state ≡ runs.start log.now) }
        ensures place { IfOk result (IsPlace log.now) }
    {
        Ok(Place {
            event: 0,
            pending: Requests::new(alloc),
            posts: Requests::new(alloc),
            bytes: zeros(alloc, log.extent().size())?,
            acted: none_acted(alloc, log.len())?,
            looks: Cell::new(0),
        })
    }

    /// How many events were passed.
    pub fn event(&self) -> usize
        ensures { result ≡ self.now.state.event }
    {
        self.event
    }

    /// The requests that were passed and haven't acted, in their order.
    pub fn pending(&self) -> &[usize]
        ensures { result.now ≡ self.now.pending }
    {
        self.pending.as_slice()
    }

    /// Those of the pending requests that are posted writes, in their order.
    pub fn posts(&self) -> &[usize]
        ensures { result.now ≡ self.now.posts }
    {
        self.posts.as_slice()
    }

    /// No request that is pending or still to be passed has a lower index.
    pub fn earliest(&self) -> usize
        ensures pending { (b : ℕ) → has self.now.pending b ≡ true → result ≤ b }
        ensures passed { result ≤ self.now.state.event }
    {
        self.pending.first(self.event)
    }

    /// The bytes of the memory.
    pub fn bytes(&self) -> &[u8]
        ensures { result.now ≡ self.now.state.bytes }
    {
        self.bytes.as_slice()
    }

    /// Whether the request has acted; false for what is no request.
    pub fn has_acted(&self, b: usize) -> bool
        ensures value { result ≡ is_set (slice_get self.now.state.acted b) }
        ensures acted { IsTrue result ↔ runs.has_acted self.now.state b }
    {
        match self.acted.get(b) {
            Some(x) => *x,
            None => false,
        }
    }

    /// The event at that index is one of the log, and no request that has acted.
    pub fn is_left(&self, b: usize) -> bool
        ensures { IsTrue result → slice_get self.now.state.acted b ≡ Some false }
    {
        match self.acted.get(b) {
            Some(acted) => !*acted,
            None => false,
        }
    }

    /// So many requests more are looked at, for a step from here.
    pub fn note_looks(&self, count: u64) {
        self.looks.set(self.looks.get().saturating_add(count));
    }

    /// How many requests were looked at since this was told last.
    pub fn take_looks(&self) -> u64 {
        self.looks.replace(0)
    }

    /// Says whether the request has acted.
    pub(crate) fn mark(&mut self, b: usize, acted: bool)
        ensures event { self.new.state.event ≡ self.old.state.event }
        ensures acted { self.new.state.acted ≡ slice_set self.old.state.acted b acted }
        ensures bytes { self.new.state.bytes ≡ self.old.state.bytes }
        ensures pending { self.new.pending ≡ self.old.pending }
        ensures posts { self.new.posts ≡ self.old.posts }
    {
        if b < self.acted.len() {
            self.acted[b] = acted;
        }
    }
}
