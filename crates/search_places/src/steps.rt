//! A step, and a step taken back.
ghost use Rattle.std.specs.Prelude.{◌≡◌, ◌+◌, ◌-◌, ◌≤◌, ◌==◌, ◌&&◌, ◌||◌, not, ℕ, List, [], Some, true, false, IfOk, OnOk, slice_get, slice_set};
ghost use Rattle.log_runs.specs.declared.Step.TheVariants as kinds;
ghost use Rattle.log_runs.specs.Runs.{State, Allowed, next, acted_on};
ghost use Rattle.search_places.specs.Pending.{has, ArePosts};
ghost use Rattle.search_places.specs.Pending as pending;
ghost use Rattle.search_places.specs.Places.{IsPlace};
ghost use Rattle.search_places.specs.Undo.{old_at, old_of, CameBy};

use crate::bytes::{act_on, restore};
use crate::place::Place;
use log_runs::{EventHeader, Log, Step};
use std::alloc::AllocError;
use tlp_core::Payload;

/// A step that was taken, and the bytes that it overwrote.
#[derive(Drop)]
pub struct Done {
    pub step: Step,
    pub old: Payload,
}

/// The event at that index is a submission.
fn submits(log: &Log, b: usize) -> bool
    ensures { result ≡ pending.submits (slice_get log.now.events b) }
{
    matches!(log.header(b), Some(EventHeader::Sub { .. }))
}

impl Place {
    /// The request is pending.
    fn enter(&mut self, log: &Log, b: usize) -> Result<(), AllocError>
        ensures state { OnOk result (self.new.state ≡ self.old.state) }
        ensures pending { OnOk result ((c : ℕ) → has self.new.pending c ≡ ((b == c) || has self.old.pending c)) }
        ensures posts { OnOk result (ArePosts log.now self.old.pending self.old.posts → ArePosts log.now self.new.pending self.new.posts) }
    {
        self.posts.add_post(log, b)?;
        self.pending.add(b)
    }

    /// The request isn't pending.
    fn leave(&mut self, log: &Log, b: usize)
        ensures state { self.new.state ≡ self.old.state }
        ensures pending { (c : ℕ) → has self.new.pending c ≡ (not (b == c) && has self.old.pending c) }
        ensures posts { ArePosts log.now self.old.pending self.old.posts → ArePosts log.now self.new.pending self.new.posts }
    {
        self.posts.remove_post(log, b);
        self.pending.remove(b);
    }

    /// Passes the next event.
    fn pass(&mut self, log: &Log) -> Result<(), AllocError>
        requires place { IsPlace log.now self.old }
        requires allowed { Allowed log.now self.old.state kinds.Pass }
        ensures state { OnOk result (self.new.state ≡ next log.now self.old.state kinds.Pass) }
        ensures place { OnOk result (IsPlace log.now self.new) }
    {
        if submits(log, self.event) {
            self.enter(log, self.event)?;
        }
        self.event += 1;
        Ok(())
    }

    /// The request has acted, and isn't pending.
    fn mark_acted(&mut self, log: &Log, b: usize)
        requires place { IsPlace log.now self.old }
        requires allowed { Allowed log.now self.old.state (kinds.Act b) }
        ensures event { self.new.state.event ≡ self.old.state.event }
        ensures acted { self.new.state.acted ≡ slice_set self.old.state.acted b true }
        ensures bytes { self.new.state.bytes ≡ self.old.state.bytes }
        ensures place { IsPlace log.now self.new }
    {
        self.mark(b, true);
        self.leave(log, b);
    }

    /// The request acts. The bytes that it overwrites.
    fn act(&mut self, log: &Log, b: usize) -> Payload
        requires place { IsPlace log.now self.old }
        requires allowed { Allowed log.now self.old.state (kinds.Act b) }
        ensures old { result.items ≡ old_of log.now self.old.state (kinds.Act b) }
        ensures state { self.new.state ≡ next log.now self.old.state (kinds.Act b) }
        ensures place { IsPlace log.now self.new }
    {
        self.mark_acted(log, b);
        act_on(log, self.bytes.as_mut_slice(), b)
    }

    /// Takes a step that may be taken here. The result serves to take it back. Err only where there
    /// is no memory; the place is of no more use then.
    #[inline(always)]
    pub fn take(&mut self, log: &Log, step: Step) -> Result<Done, AllocError>
        requires place { IsPlace log.now self.old }
        requires allowed { Allowed log.now self.old.state step }
        ensures came { IfOk result (CameBy log.now self.old.state self.new.state) }
        ensures step { IfOk result (λ d. d.step ≡ step) }
        ensures pass { IfOk result (λ d. d.step ≡ kinds.Pass → d.old.items ≡ []) }
        ensures place { OnOk result (IsPlace log.now self.new) }
    {
        match step {
            Step::Pass => {
                self.pass(log)?;
                Ok(Done {
                    step,
                    old: Payload::new(),
                })
            }
            Step::Act(b) => Ok(Done {
                step,
                old: self.act(log, b),
            }),
        }
    }

    /// The last event that was passed is to be passed.
    fn pass_back(&mut self, log: &Log)
        requires place { IsPlace log.now self.old }
        requires some { 1 ≤ self.old.state.event }
        requires fresh { slice_get self.old.state.acted (self.old.state.event - 1) ≡ Some true → ⊥ }
        ensures event { self.new.state.event + 1 ≡ self.old.state.event }
        ensures acted { self.new.state.acted ≡ self.old.state.acted }
        ensures bytes { self.new.state.bytes ≡ self.old.state.bytes }
        ensures place { IsPlace log.now self.new }
    {
        self.event -= 1;
        self.leave(log, self.event);
    }

    /// The request hasn't acted.
    fn act_back(&mut self, log: &Log, b: usize, old: &[u8]) -> Result<(), AllocError>
        requires place { IsPlace log.now self.old }
        ensures event { OnOk result (self.new.state.event ≡ self.old.state.event) }
        ensures acted { OnOk result (self.new.state.acted ≡ slice_set self.old.state.acted b false) }
        ensures bytes { OnOk result ((m : List ℕ) → self.old.state.bytes ≡ acted_on log.now.extent m (slice_get log.now.events b) →
            old.now ≡ old_at log.now.extent m (slice_get log.now.events b) → self.new.state.bytes ≡ m) }
        ensures place { OnOk result (IsPlace log.now self.new) }
    {
        self.mark(b, false);
        restore(log, self.bytes.as_mut_slice(), b, old);
        self.enter(log, b)
    }

    /// Takes back the step that led here. Err only where there is no memory; the place is of no more
    /// use then.
    pub fn take_back(&mut self, log: &Log, done: &Done) -> Result<(), AllocError>
        requires place { IsPlace log.now self.old }
        requires came { (m : State) × CameBy log.now m self.old.state done.now }
        ensures state { OnOk result ((m : State) → CameBy log.now m self.old.state done.now → self.new.state ≡ m) }
        ensures place { OnOk result (IsPlace log.now self.new) }
    {
        match done.step {
            Step::Pass => self.pass_back(log),
            Step::Act(b) => self.act_back(log, b, done.old.as_slice())?,
        }
        Ok(())
    }
}
