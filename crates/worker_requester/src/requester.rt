//! The loop of a requester: it submits its script, collects the answers, and records both.
ghost use Rattle.std.specs.Prelude.{◌≡◌, suc, ◌+◌, ◌<◌, ◌≤◌, OnOk, IfOk, IfNone, None, Some, length, []};
ghost use Rattle.hall_core.specs.Views.{IsSeatOf};
ghost use Rattle.worker_requester.specs.Following.{IsUnusedSeat, Follows, IsSame, Finishes};

use crate::refused::stop_of;
use hall_core::{Hall, HallRefusal, ReqSeat};
use history_words::Record;
use recorder::{Pusher, Recorder};
use tlp_core::{Op, copy_of};
use worker_turns::{Backoff, Gate, Stop, Turns};

/// A requester at work.
#[derive(Drop)]
pub struct Requester<'a> {
    hall: &'a Hall,
    recorder: &'a Recorder,
    script: &'a [Op],
    seat: ReqSeat,
    number: u8,
    pusher: Pusher,
    /// The place in the script of what is submitted next.
    next: usize,
    /// How many answers are due.
    due: usize,
    /// The record that is not pushed yet.
    waiting: Option<Record>,
}

/// What became of a round.
#[derive(Clone, Copy, PartialEq)]
pub enum Round {
    Done,
    Nothing,
    Ended,
}

/// A refused call is tried again, or ends the run.
fn go_on<G: Gate>(refusal: HallRefusal, turns: &Turns<'_, G>) -> Result<Round, Stop>
    ensures { IfOk result (λ round. round ≡ Round.Nothing) }
{
    match stop_of(refusal) {
        Some(stop) => {
            turns.stop(stop);
            Err(stop)
        }
        None => Ok(Round::Nothing),
    }
}

impl<'a> Requester<'a> {
    /// A requester that did nothing yet.
    pub fn new(
        hall: &'a Hall,
        recorder: &'a Recorder,
        script: &'a [Op],
        number: u8,
        seat: ReqSeat,
        pusher: Pusher,
    ) -> Requester<'a>
        requires seat { IsUnusedSeat hall.now number seat }
        requires pusher { (pusher.queue ≡ recorder.now) × (pusher.pushed.requester ≡ number) × (pusher.pushed.records ≡ []) }
        ensures follows { Follows result }
        ensures same { (result.hall.now ≡ hall.now) × (result.recorder.now ≡ recorder.now) × (result.script.now ≡ script.now) × (result.number ≡ number) }
    {
        Requester {
            hall,
            recorder,
            script,
            number,
            seat,
            pusher,
            next: 0,
            due: 0,
            waiting: None,
        }
    }

    /// Pushes the record that waits.
    fn tell<G: Gate>(&mut self, recorded: Record, turns: &mut Turns<'_, G>) -> Result<Round, Stop>
        requires follows { Follows (record self.old { waiting = Some recorded }) }
        requires none { self.old.waiting ≡ None }
        ensures follows { Follows self.new }
        ensures same { IsSame self.old self.new }
        ensures limit { turns.new.limit ≡ turns.old.limit }
        ensures turn { OnOk result ((turns.new.done ≡ turns.old.done + 1) × (turns.new.done ≤ turns.new.limit)) }
        ensures on { IfOk result (λ round. ¬ (round ≡ Round.Ended)) }
    {
        if let Err(stop) = turns.push() {
            self.waiting = Some(recorded);
            return Err(stop);
        }
        match self.recorder.push(&mut self.pusher, recorded) {
            Ok(()) => Ok(Round::Done),
            Err(back) => {
                self.waiting = Some(back);
                Ok(Round::Nothing)
            }
        }
    }

    /// Submits the next operation of the script.
    fn ask<G: Gate>(&mut self, turns: &mut Turns<'_, G>) -> Result<Round, Stop>
        requires next { self.old.next < length self.old.script.now }
        requires follows { Follows self.old }
        requires none { self.old.waiting ≡ None }
        ensures follows { Follows self.new }
        ensures none { IfOk result (λ round. ¬ (round ≡ Round.Done) → self.new.waiting ≡ None) }
        ensures same { IsSame self.old self.new }
        ensures limit { turns.new.limit ≡ turns.old.limit }
        ensures turn { OnOk result ((turns.new.done ≡ turns.old.done + 1) × (turns.new.done ≤ turns.new.limit)) }
        ensures on { IfOk result (λ round. ¬ (round ≡ Round.Ended)) }
    {
        turns.call()?;
        let op = &self.script[self.next];
        match self.hall.submit(&mut self.seat, copy_of(op)) {
            Ok(submitted) => {
                self.waiting = Some(Record::Sub {
                    requester: self.number,
                    number: submitted.number,
                    op: copy_of(op),
                    n: submitted.n,
                });
                self.next += 1;
                if !op.is_posted() {
                    self.due += 1;
                }
                Ok(Round::Done)
            }
            Err(refusal) => go_on(refusal, turns),
        }
    }

    /// Collects an answer.
    fn hear<G: Gate>(&mut self, turns: &mut Turns<'_, G>) -> Result<Round, Stop>
        requires follows { Follows self.old }
        requires none { self.old.waiting ≡ None }
        ensures follows { Follows self.new }
        ensures same { IsSame self.old self.new }
        ensures limit { turns.new.limit ≡ turns.old.limit }
        ensures turn { OnOk result ((turns.new.done ≡ turns.old.done + 1) × (turns.new.done ≤ turns.new.limit)) }
        ensures on { IfOk result (λ round. ¬ (round ≡ Round.Ended)) }
    {
        turns.call()?;
        match self.hall.collect(&mut self.seat) {
            Ok(Some(answered)) => {
                self.waiting = Some(Record::Ans {
                    requester: self.number,
                    number: answered.number,
                    reply: answered.reply,
                    n: answered.n,
                });
                self.due -= 1;
                Ok(Round::Done)
            }
            Ok(None) => Ok(Round::Nothing),
            Err(refusal) => go_on(refusal, turns),
        }
    }
}

/// What a requester's thread ends with.
#[derive(Drop)]
pub struct Ended {
    pub seat: ReqSeat,
    pub pusher: Pusher,
    /// Why the run ended before the whole script was submitted, answered and recorded.
    pub stop: Option<Stop>,
}

impl<'a> Requester<'a> {
    /// One round.
    fn round<G: Gate>(&mut self, turns: &mut Turns<'_, G>) -> Result<Round, Stop>
        requires { Follows self.old }
        ensures follows { Follows self.new }
        ensures same { IsSame self.old self.new }
        ensures limit { turns.new.limit ≡ turns.old.limit }
        ensures turn { IfOk result (λ round. ¬ (round ≡ Round.Ended) → (turns.old.done < turns.new.done) × (turns.new.done ≤ turns.new.limit)) }
        ensures ended { IfOk result (λ round. round ≡ Round.Ended →
            Finishes self.new.script.now self.new.pusher.pushed × (self.new.pusher.pushed.records ≡ self.new.seat.knows.records)) }
    {
        if let Some(recorded) = self.waiting.take() {
            return self.tell(recorded, turns);
        }
        if self.next < self.script.len() {
            let asked = self.ask(turns)?;
            if asked != Round::Nothing || self.due == 0 {
                return Ok(asked);
            }
        } else if self.due == 0 {
            return Ok(Round::Ended);
        }
        self.hear(turns)
    }

    /// Submits the script, collects the answers and records both, and rests after each round that did nothing. If nothing
    /// ended the run before, what was recorded are the records of the seat's calls.
    pub fn run<G: Gate>(self, turns: &mut Turns<'_, G>) -> Ended
        requires { Follows self }
        ensures seat { IsSeatOf self.entry.hall.now result.seat × (suc result.seat.knows.number ≡ self.entry.number) }
        ensures pusher { (result.pusher.queue ≡ self.entry.recorder.now) × (result.pusher.pushed.requester ≡ self.entry.number) }
        ensures whole { IfNone result.stop (Finishes self.entry.script.now result.pusher.pushed) }
        ensures recorded { IfNone result.stop (result.pusher.pushed.records ≡ result.seat.knows.records) }
    {
        let mut at = self;
        let mut backoff = Backoff::new();
        let stop = loop {
            match at.round(turns) {
                Ok(Round::Done) => backoff.got_on(),
                Ok(Round::Nothing) => backoff.rest(turns.gate()),
                Ok(Round::Ended) => break None,
                Err(stop) => break Some(stop),
            }
        };
        let Requester { seat, pusher, .. } = at;
        Ended { seat, pusher, stop }
    }
}
