//! The rounds of a worker at its job, call by call. Each call of the hall is one of its turns.
ghost use Rattle.std.specs.Prelude.{◌≡◌, ◌<◌, IfSome};
ghost use Rattle.hall_core.specs.Views.{IsSeatOf};

use crate::jobs::{Job, Worker};
use dllp_core::Class;
use fabric_core::{LaneName, Refusal, Seen};
use hall_core::{HallRefusal, WorkEvent, WorkSeat};
use lane_core::{Arrival, DllpKind};
use link_replay::Reception;
use std::marker::Model;
use worker_turns::{Gate, Stop, Turns};

/// What became of a call.
#[derive(Clone, Copy, PartialEq)]
enum Tried {
    Done,
    /// A packet was lost, failed its check or came too early.
    Missed,
    Idle,
    Refused,
    Busy,
}

/// What became of a call of which this is seen.
fn tried_of(seen: &Seen) -> Tried
    ensures { (¬ (result ≡ Tried.Idle)) × (¬ (result ≡ Tried.Refused)) × (¬ (result ≡ Tried.Busy)) }
{
    match seen {
        Seen::Delivered(Arrival::Gone) => Tried::Missed,
        Seen::Delivered(Arrival::Answered(Reception::NakNow)) => Tried::Missed,
        Seen::Delivered(Arrival::Answered(Reception::Quiet)) => Tried::Missed,
        _ => Tried::Done,
    }
}

/// What became of a round.
#[derive(Clone, Copy, PartialEq)]
pub(crate) enum Went {
    /// The worker got on.
    On,
    /// A packet was lost, failed its check or came too early. The next round is due at once.
    Again,
    Nothing,
}

/// That of a round in which the worker got on or didn't.
fn went_of(did: bool) -> Went {
    if did { Went::On } else { Went::Nothing }
}

/// Whose update is due after one of this class.
fn next_class(class: Class) -> Class {
    match class {
        Class::Posted => Class::NonPosted,
        Class::NonPosted => Class::Completion,
        Class::Completion => Class::Posted,
    }
}

/// A worker with its turns.
#[derive(Drop)]
pub(crate) struct Shift<'a, G> {
    worker: Worker<'a>,
    turns: Turns<'a, G>,
}

impl<'a, G> Model for Shift<'a, G> {
    ghost use Rattle.std.specs.Prelude.{◌-◌};
    ghost use Rattle.hall_core.specs.Views.{IsSeatOf};
    ghost use Rattle.workers.specs.Tasks.{ShiftView};

    ghost Value = { ShiftView };

    ghost view = { λ s. record { hall = s.worker.hall.now; left = s.turns.limit - s.turns.done } };

    ghost invariant = { λ s. IsSeatOf s.worker.hall.now s.worker.seat };
}

impl<'a, G: Gate> Shift<'a, G> {
    /// The worker begins with these turns.
    pub(crate) fn new(worker: Worker<'a>, turns: Turns<'a, G>) -> Shift<'a, G>
        requires { IsSeatOf worker.hall.now worker.seat }
        ensures { result.hall ≡ worker.entry.hall.now }
    {
        Shift { worker, turns }
    }

    /// The seat of the worker.
    pub(crate) fn into_seat(self) -> WorkSeat
        ensures { IsSeatOf self.entry.hall result }
    {
        self.worker.seat
    }

    /// The gate that the worker passes.
    pub(crate) fn gate(&self) -> &'a G {
        self.turns.gate()
    }

    /// One turn. None where the run is over.
    fn attempt(&mut self, event: WorkEvent) -> Option<Tried>
        ensures hall { self.new.hall ≡ self.old.hall }
        ensures turn { IfSome result (λ _. self.new.left < self.old.left) }
    {
        if self.turns.is_over() || self.turns.call().is_err() {
            return None;
        }
        match self.worker.hall.pump(&mut self.worker.seat, event) {
            Ok(seen) => Some(tried_of(&seen)),
            Err(HallRefusal::Busy { .. }) => Some(Tried::Busy),
            Err(HallRefusal::Core(Refusal::Idle)) => Some(Tried::Idle),
            Err(HallRefusal::Core(refusal)) if refusal.is_memory() => {
                self.turns.stop(Stop::Memory);
                None
            }
            Err(HallRefusal::Core(_)) => Some(Tried::Refused),
        }
    }

    /// Delivers a DLLP of the lane.
    fn deliver_dllp(&mut self, name: LaneName) -> Option<()>
        ensures hall { self.new.hall ≡ self.old.hall }
        ensures turn { IfSome result (λ _. self.new.left < self.old.left) }
    {
        let fate = self.worker.plan.fate(self.worker.dllps);
        let seen = self.attempt(WorkEvent::DeliverDllp(name, fate))?;
        if seen == Tried::Done {
            self.worker.dllps = self.worker.dllps.wrapping_add(1);
        }
        self.worker.busy = seen == Tried::Busy;
        Some(())
    }

    /// A round of a lane's first worker: whether it got on.
    fn send(&mut self, name: LaneName) -> Option<bool>
        ensures hall { self.new.hall ≡ self.old.hall }
        ensures turn { IfSome result (λ _. self.new.left < self.old.left) }
    {
        let sent = self.attempt(WorkEvent::Transmit(name))?;
        self.deliver_dllp(name)?;
        if sent != Tried::Idle {
            return Some(sent == Tried::Done);
        }
        let again = self.attempt(WorkEvent::Retrained(name))?;
        Some(again == Tried::Done)
    }

    /// Delivers a packet of the lane.
    fn deliver(&mut self, name: LaneName) -> Option<Tried>
        ensures hall { self.new.hall ≡ self.old.hall }
        ensures turn { IfSome result (λ _. self.new.left < self.old.left) }
    {
        let fate = self.worker.plan.fate(self.worker.packets);
        let arrived = self.attempt(WorkEvent::Deliver(name, fate))?;
        if arrived == Tried::Done || arrived == Tried::Missed {
            self.worker.packets = self.worker.packets.wrapping_add(1);
        }
        Some(arrived)
    }

    /// Sends a DLLP, unless the last one that it delivered was busy, and delivers one.
    fn exchange(&mut self, name: LaneName, kind: DllpKind) -> Option<()>
        ensures hall { self.new.hall ≡ self.old.hall }
        ensures turn { IfSome result (λ _. self.new.left < self.old.left) }
    {
        if !self.worker.busy {
            self.attempt(WorkEvent::SendDllp(name, kind))?;
        }
        self.deliver_dllp(name)
    }

    /// The same with the update that is due. The classes take turns.
    fn update(&mut self, name: LaneName) -> Option<()>
        ensures hall { self.new.hall ≡ self.old.hall }
        ensures turn { IfSome result (λ _. self.new.left < self.old.left) }
    {
        let class = self.worker.class;
        if !self.worker.busy {
            self.worker.class = next_class(class);
        }
        self.exchange(name, DllpKind::Update(class))
    }

    /// A round of a lane's second worker: what became of it.
    fn receive(&mut self, name: LaneName) -> Option<Went>
        ensures hall { self.new.hall ≡ self.old.hall }
        ensures turn { IfSome result (λ _. self.new.left < self.old.left) }
    {
        let arrived = self.deliver(name)?;
        self.exchange(name, DllpKind::Answer)?;
        self.update(name)?;
        if arrived == Tried::Missed {
            return Some(Went::Again);
        }
        if arrived != Tried::Idle {
            return Some(went_of(arrived == Tried::Done));
        }
        let moved = self.attempt(WorkEvent::Timer(name))?;
        Some(went_of(moved == Tried::Done))
    }

    /// Forwards from a lane, place 0 or, where the core refused it, place 1.
    fn forward(&mut self, name: LaneName) -> Option<bool>
        ensures hall { self.new.hall ≡ self.old.hall }
        ensures turn { IfSome result (λ _. self.new.left < self.old.left) }
    {
        let mut went = self.attempt(WorkEvent::Forward(name, 0))?;
        if went == Tried::Refused {
            went = self.attempt(WorkEvent::Forward(name, 1))?;
        }
        Some(went == Tried::Done)
    }

    /// A round of the switch: whether it got on.
    fn switch(&mut self) -> Option<bool>
        ensures hall { self.new.hall ≡ self.old.hall }
        ensures turn { IfSome result (λ _. self.new.left < self.old.left) }
    {
        let mut did = self.forward(LaneName::Outward)?;
        for port in 0..self.worker.requesters {
            let went = self.forward(LaneName::Up(port.wrapping_add(1)))?;
            did = did || went;
        }
        Some(did)
    }

    /// A round of the completer: whether it got on.
    fn complete(&mut self) -> Option<bool>
        ensures hall { self.new.hall ≡ self.old.hall }
        ensures turn { IfSome result (λ _. self.new.left < self.old.left) }
    {
        let mut served = self.attempt(WorkEvent::Serve(0))?;
        if served == Tried::Refused {
            served = self.attempt(WorkEvent::Serve(1))?;
        }
        Some(served == Tried::Done)
    }

    /// A round: what became of it. None if the run is over.
    pub(crate) fn round(&mut self, job: Job) -> Option<Went>
        ensures hall { self.new.hall ≡ self.old.hall }
        ensures turn { IfSome result (λ _. self.new.left < self.old.left) }
    {
        let did = match job {
            Job::Sender(name) => self.send(name)?,
            Job::Receiver(name) => return self.receive(name),
            Job::Switch => self.switch()?,
            Job::Completer => self.complete()?,
        };
        Some(went_of(did))
    }
}
