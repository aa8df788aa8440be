//! Turns of a worker, and how a run ends.
ghost use Rattle.std.specs.Prelude.{◌≡◌, ◌+◌, ◌≤◌, OnOk, OnErr};

use crate::gate::Gate;
use crate::stop::Stop;
use std::marker::Model;
use std::sync::OnceLock;
use std::sync::atomic::{AtomicBool, AtomicU64, Ordering};

/// What all workers look at. Nothing is claimed of it.
#[derive(Drop)]
pub struct Shared {
    over: AtomicBool,
    ended: AtomicU64,
    stop: OnceLock<Stop>,
}

impl Shared {
    /// No worker has ended.
    pub fn new() -> Shared {
        Shared {
            over: AtomicBool::new(false),
            ended: AtomicU64::new(0),
            stop: OnceLock::new(),
        }
    }

    /// The run ends. The first cause stands.
    pub fn stop(&self, stop: Stop) {
        let _ = self.stop.try_set(stop);
        self.over.store(true, Ordering::SeqCst);
    }

    /// Whether the workers are to end.
    pub fn is_over(&self) -> bool {
        self.over.load(Ordering::SeqCst)
    }

    /// A requester has ended. With the last one the run is over.
    pub fn end_one(&self, of: u8) {
        let before = self.ended.fetch_add(1, Ordering::SeqCst);
        if before.wrapping_add(1) >= u64::from(of) {
            self.over.store(true, Ordering::SeqCst);
        }
    }

    /// Why a worker ended the run.
    pub fn stopped(&self) -> Option<Stop> {
        self.stop.get().copied()
    }
}

/// The turns of one worker: calls of the hall and pushes of records.
#[derive(Drop)]
pub struct Turns<'a, G> {
    worker: u32,
    done: u64,
    limit: u64,
    gate: &'a G,
    shared: &'a Shared,
}

impl<'a, G> Model for Turns<'a, G> {
    ghost use Rattle.worker_turns.specs.TurnsView.{TurnsView, IsWithin};

    ghost Value = { TurnsView };

    ghost view = { λ t. record { done = t.done; limit = t.limit } };

    ghost invariant = { λ t. IsWithin (record { done = t.done; limit = t.limit }) };
}

impl<'a, G: Gate> Turns<'a, G> {
    /// The worker has begun no turn.
    pub fn new(worker: u32, limit: u64, gate: &'a G, shared: &'a Shared) -> Turns<'a, G>
        ensures { (result.done ≡ 0) × (result.limit ≡ limit) }
    {
        Turns {
            worker,
            done: 0,
            limit,
            gate,
            shared,
        }
    }

    /// The gate that the worker passes.
    pub fn gate(&self) -> &'a G {
        self.gate
    }

    /// Whether the run is over. Then the workers beside the requesters end.
    pub fn is_over(&self) -> bool {
        self.shared.is_over()
    }

    /// Before a record is pushed. The error, why the run ends, ends the worker.
    pub fn push(&mut self) -> Result<(), Stop>
        ensures limit { self.new.limit ≡ self.old.limit }
        ensures turn { OnOk result ((self.new.done ≡ self.old.done + 1) × (self.new.done ≤ self.new.limit)) }
        ensures ended { OnErr result (self.new.done ≡ self.old.done) }
    {
        if let Some(stop) = self.shared.stopped() {
            return Err(stop);
        }
        if self.done >= self.limit {
            self.shared.stop(Stop::Turns);
            return Err(Stop::Turns);
        }
        self.done += 1;
        Ok(())
    }

    /// Before a call of the hall. The error, why the run ends, ends the worker.
    pub fn call(&mut self) -> Result<(), Stop>
        ensures limit { self.new.limit ≡ self.old.limit }
        ensures turn { OnOk result ((self.new.done ≡ self.old.done + 1) × (self.new.done ≤ self.new.limit)) }
        ensures ended { OnErr result ((self.old.done ≤ self.new.done) × (self.new.done ≤ self.old.done + 1)) }
    {
        self.push()?;
        if !self.gate.pass(self.worker, self.done) {
            self.shared.stop(Stop::Gated);
            return Err(Stop::Gated);
        }
        Ok(())
    }

    /// The run ends.
    pub fn stop(&self, stop: Stop) {
        self.shared.stop(stop);
    }
}
