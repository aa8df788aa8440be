//! The work of a thread: the rounds of the workers that share it, one after the other.
ghost use Rattle.std.specs.Prelude.{◌≡◌, ◌<◌, zero, IfSome, IfNone, map};
ghost use Rattle.hall_core.specs.Views.{IsSeatOf};
ghost use Rattle.workers.specs.Tasks.{turns_left, kept_of};

use crate::jobs::{Job, Worker};
use crate::shifts::{Shift, Went};
use hall_core::WorkSeat;
use std::marker::Model;
use worker_turns::{Backoff, Gate, Turns};

/// A worker at its job, with its own turns.
#[derive(Drop)]
pub struct Task<'a, G> {
    shift: Shift<'a, G>,
    job: Job,
    /// Whether it has ended.
    is_over: bool,
}

impl<'a, G> Model for Task<'a, G> {
    ghost use Rattle.std.specs.Prelude.{suc, cond};
    ghost use Rattle.workers.specs.Tasks.{TaskView};

    ghost Value = { TaskView };

    ghost view = { λ t. record { job = t.job; hall = t.shift.hall; left = cond t.is_over 0 (suc t.shift.left) } };
}

impl<'a, G: Gate> Task<'a, G> {
    /// The worker has done nothing at its job yet.
    pub fn new(worker: Worker<'a>, job: Job, turns: Turns<'a, G>) -> Task<'a, G>
        requires { IsSeatOf worker.hall.now worker.seat }
        ensures { (result.job ≡ job) × (result.hall ≡ worker.entry.hall.now) }
    {
        Task {
            shift: Shift::new(worker, turns),
            job,
            is_over: false,
        }
    }

    /// The seat of the worker.
    pub(crate) fn into_seat(self) -> WorkSeat
        ensures { IsSeatOf self.entry.hall result }
    {
        self.shift.into_seat()
    }

    /// The gate that the worker passes.
    fn gate(&self) -> &'a G {
        self.shift.gate()
    }

    /// A round: what became of it. None if it has ended, as it does with the run.
    fn round(&mut self) -> Option<Went>
        ensures job { self.new.job ≡ self.old.job }
        ensures hall { self.new.hall ≡ self.old.hall }
        ensures turn { IfSome result (λ _. self.new.left < self.old.left) }
        ensures ended { IfNone result (self.new.left ≡ zero) }
    {
        if self.is_over {
            return None;
        }
        let went = self.shift.round(self.job);
        self.is_over = went.is_none();
        went
    }

    /// A round, and the next ones that are due at once: whether it got on. None if it has ended. So after a packet was
    /// lost the replay timer expires before the sender, if it shares the thread, sends the packets behind that one.
    fn rounds(&mut self) -> Option<bool>
        ensures job { self.new.job ≡ self.old.job }
        ensures hall { self.new.hall ≡ self.old.hall }
        ensures turn { IfSome result (λ _. self.new.left < self.old.left) }
        ensures ended { IfNone result (self.new.left ≡ zero) }
    {
        let mut did = false;
        loop {
            match self.round() {
                Some(Went::Again) => did = true,
                Some(went) => return Some(did || went == Went::On),
                None => return None,
            }
        }
    }
}

/// A round of each, and those due at once: whether one got on. None if each has ended.
fn all_round<G: Gate>(tasks: &mut [Task<'_, G>]) -> Option<bool>
    ensures turns { IfSome result (λ _. turns_left tasks.new < turns_left tasks.old) }
    ensures same { map kept_of tasks.new ≡ map kept_of tasks.old }
{
    let mut went = None;
    for task in tasks.iter_mut() {
        if let Some(did) = task.rounds() {
            went = Some(did || went == Some(true));
        }
    }
    went
}

/// Rounds of each until each has ended. Each call of the hall is one of its worker's turns. After a round in which none got
/// on the thread rests, at the gate of the first.
pub fn work<G: Gate>(tasks: &mut [Task<'_, G>])
    ensures { map kept_of tasks.new ≡ map kept_of tasks.old }
{
    let Some(first) = tasks.first() else {
        return;
    };
    let gate = first.gate();
    let mut backoff = Backoff::new();
    while let Some(did) = all_round(tasks) {
        if did {
            backoff.got_on();
        } else {
            backoff.rest(gate);
        }
    }
}
