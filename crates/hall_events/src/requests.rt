//! Submissions and collections.
ghost use Rattle.std.specs.Prelude.{◌≡◌, ◌+◌, ◌<◌, IfOk, IfErr, OnErr, MatchOption};
ghost use Rattle.fabric_steps.specs.declared.event.EventOf.TheVariants.{Submit, Collect};
ghost use Rattle.hall_laws.specs.declared.token.Knowledge.{Knowledge};
ghost use Rattle.hall_laws.specs.Calls.{IsIdle, knowing};
ghost use Rattle.hall_laws.specs.Tells.{SubmitTells, CollectTells, SeesTells};
ghost use Rattle.hall_events.specs.Desks.{knows, IsDesk, IsSame, IsOfHall};
ghost use Rattle.hall_events.specs.Refusals.{IsRefused, IsWithAnother};

use crate::desk::Desk;
use crate::refusal::{HallRefusal, each_refusal_is_possible};
use fabric_core::{LaneName, Refusal, events};
use hall_laws::duties::{collecting, submitting};
use hall_laws::part::Part;
use requester_core::Answer;
use std::marker::Brand;
use tlp_core::Op;

impl<'a> Desk<'a> {
    /// The requester of the seat submits. Gives the number of the request, and the length of the history.
    pub fn submit(&mut self, op: &Op) -> Result<(u32, u64), HallRefusal>
        requires desk { IsDesk self.old × (self.old.number < self.old.requesters) }
        requires idle { IsIdle self.old.place.now.me }
        ensures seat { IsSame self.old self.new }
        ensures hall { IsOfHall (knows self.old) (knows self.new) }
        ensures submitted { IfOk result (λ s. (w : Knowledge) × (self.new.place.now.me ≡ knowing w) × SubmitTells (knows self.old) s.0 op.now s.1 w) }
        ensures refused { OnErr result (self.new.place.now.me ≡ self.old.place.now.me) }
        ensures why { IfErr result (λ r. IsRefused (knows self.old) (Submit (self.old.number + 1) op.now) r) }
    {
        submitting();
        let port = self.number as u8 + 1;
        let memory = self.take(Part::Memory)?;
        let (memory, requester) = self.take_second(memory, Part::Requester(port))?;
        let (mut memory, mut requester, mut sender) = self.take_third(
            memory,
            requester,
            Part::SenderEnd(LaneName::Up(port)),
        )?;
        let n = memory.value.memory().entries().len() as u64;
        match events::submit(
            requester.value.requester(),
            sender.value.sender(),
            &op.lend(),
        ) {
            Ok(number) => {
                self.place.turn();
                let told = (number, port, op, &memory, &sender);
                self.event::<Brand, _>(requester, &told);
                self.place.turn();
                self.put_back(sender);
                self.put_back(memory);
                Ok((number, n))
            }
            Err(refusal) => {
                self.put_back(sender);
                Err(self.refuse_both(memory, requester, refusal))
            }
        }
    }

    /// The requester of the seat takes its oldest completion. Gives its answer, and the length of the history; None
    /// where none had arrived. The only refusal is `Busy`.
    pub fn collect(&mut self) -> Result<Option<(Answer, u64)>, HallRefusal>
        requires desk { IsDesk self.old × (self.old.number < self.old.requesters) }
        requires idle { IsIdle self.old.place.now.me }
        ensures seat { IsSame self.old self.new }
        ensures hall { IsOfHall (knows self.old) (knows self.new) }
        ensures collected { IfOk result (λ o. MatchOption o ((w : Knowledge) × (self.new.place.now.me ≡ knowing w) ×
            SeesTells (knows self.old) w) (λ a. (w : Knowledge) × (self.new.place.now.me ≡ knowing w) ×
            CollectTells (knows self.old) a.0.number a.0.reply a.1 w)) }
        ensures refused { OnErr result (self.new.place.now.me ≡ self.old.place.now.me) }
        ensures why { IfErr result (λ r. IsWithAnother (knows self.old) (Collect (self.old.number + 1)) r) }
    {
        collecting();
        each_refusal_is_possible();
        let port = self.number as u8 + 1;
        let memory = self.take(Part::Memory)?;
        let (memory, requester) = self.take_second(memory, Part::Requester(port))?;
        let (mut memory, mut requester, mut receiver) = self.take_third(
            memory,
            requester,
            Part::ReceiverEnd(LaneName::Down(port)),
        )?;
        let n = memory.value.memory().entries().len() as u64;
        match events::collect(receiver.value.receiver(), requester.value.requester()) {
            Ok(answer) => {
                self.place.turn();
                let told = (port, &answer, &memory, &receiver);
                self.event::<Brand, _>(requester, &told);
                self.place.turn();
                self.put_back(receiver);
                self.put_back(memory);
                Ok(Some((answer, n)))
            }
            Err(refusal) => match refusal {
                Refusal::Idle => {
                    self.put_back(receiver);
                    self.put_back(requester);
                    self.put_back_seen(memory);
                    Ok(None)
                }
                _ => {
                    self.put_back(receiver);
                    Err(self.refuse_both(memory, requester, refusal))
                }
            },
        }
    }
}
