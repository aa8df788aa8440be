//! The choice of the next event.
ghost use Rattle.std.specs.Prelude.{◌≡◌, ◌≤◌, true, false, IfOk, OnOk, OnErr};
ghost use Rattle.parameters.specs.Ranges.{IsStorm};
ghost use Rattle.script_text.specs.Spelled.{IsSpelledEvent};
ghost use Rattle.fabric_steps.specs.Event.{Event};
ghost use Rattle.generate_engine.specs.Arrivals.{HasFate, IsCounted};
ghost use Rattle.generate_engine.specs.Choice.{IsChosen, new_choosing};

use crate::arrivals::Arrivals;
use crate::candidates::{Candidate, candidate, with_operation};
use crate::draws::Draws;
use crate::listener::Listener;
use crate::operations::operation;
use fabric_core::{ANSWER_ROOM, EventRef, Fabric, LaneName};
use lane_core::DllpKind;
use parameters::Storm;
use requester_core::Answer;
use seq_memory::Keeper;
use std::alloc::AllocError;
use std::marker::Model;
use tlp_core::Op;

/// What stands in the room for an operation before the first one is drawn: a read of one DW.
const ROOM: Op = Op::Read {
    address: 0,
    dw: 1,
    first: 15,
    last: 0,
};

/// How many candidates are tried before an event comes that can always happen.
const TRIES: u32 = 256;

/// What an event that is tried takes beside the fabric.
#[derive(Drop)]
struct Tries {
    arrivals: Arrivals,
    /// Room for the answer that an event collects.
    answer: Answer,
}

impl Tries {
    /// Whether the event happens to the fabric. If it does, it is counted, and the listener hears of it. The only error
    /// is that an allocation failed.
    fn try_event<K: Keeper, L: Listener>(
        &mut self,
        fabric: &mut Fabric<K>,
        event: &EventRef<'_>,
        listener: &mut L,
    ) -> Result<bool, AllocError>
        requires { IsSpelledEvent event.now × HasFate self.old.arrivals event.now }
        ensures yes { IfOk result (λ happened. happened ≡ true → IsChosen fabric.old event.now fabric.new
            × IsCounted self.old.arrivals event.now self.new.arrivals × L.hears listener.old event.now listener.new) }
        ensures no { IfOk result (λ happened. happened ≡ false → (fabric.new ≡ fabric.old)
            × (self.new.arrivals ≡ self.old.arrivals) × (listener.new ≡ listener.old)) }
        ensures err { OnErr result ((fabric.new ≡ fabric.old)
            × (self.new.arrivals ≡ self.old.arrivals) × (listener.new ≡ listener.old)) }
    {
        match fabric.step(event, &mut self.answer) {
            Ok(_) => {
                self.arrivals.count(event);
                listener.hear(event);
                Ok(true)
            }
            Err(refusal) if refusal.is_memory() => Err(AllocError),
            Err(_) => Ok(false),
        }
    }
}

/// Chooses the events of a storm.
#[derive(Drop)]
pub struct Chooser {
    draws: Draws,
    requesters: u8,
    /// Room for the operation that an event submits.
    operation: Op,
    tries: Tries,
}

impl Model for Chooser {
    ghost use Rattle.std.specs.Prelude.{◌≤◌};
    ghost use Rattle.script_text.specs.Spelled.{IsInRange};
    ghost use Rattle.tlp_core.specs.Limits.{most_requesters};
    ghost use Rattle.generate_engine.specs.Choice.{ChooserView};

    ghost Value = { ChooserView };

    ghost view = { λ c. record { draws = c.draws; arrived = c.tries.arrivals } };

    ghost invariant = { λ c. (1 ≤ c.requesters) × (c.requesters ≤ most_requesters) × IsInRange c.operation };
}

impl Chooser {
    /// The storm's choice before its first event.
    pub fn new(storm: &Storm) -> Chooser
        requires { IsStorm storm.now }
        ensures { result ≡ new_choosing storm.now }
    {
        Chooser {
            draws: Draws::new(storm.seed),
            requesters: storm.requesters as u8,
            operation: ROOM,
            tries: Tries {
                arrivals: Arrivals::new(storm),
                answer: ANSWER_ROOM,
            },
        }
    }

    /// Lets the next event happen to the fabric and counts it. The listener hears of it. A DLLP can always be sent, so the
    /// only error is that an allocation failed. Then the fabric and the counts are as they were, and the listener has
    /// heard nothing.
    pub fn happen_next<K: Keeper, L: Listener>(
        &mut self,
        fabric: &mut Fabric<K>,
        listener: &mut L,
    ) -> Result<(), AllocError>
        ensures ok { OnOk result ((event : Event) × IsChosen fabric.old event fabric.new
            × IsCounted self.old.arrived event self.new.arrived × L.hears listener.old event listener.new) }
        ensures err { OnErr result ((fabric.new ≡ fabric.old)
            × (self.new.arrived ≡ self.old.arrived) × (listener.new ≡ listener.old)) }
    {
        for _try in 0..TRIES {
            let candidate = candidate(&mut self.draws, self.requesters, &self.tries.arrivals);
            // (a submission apart: else each candidate would be stored with room for an operation)
            let happened = if let Candidate::Submit(port, ()) = candidate {
                self.operation = operation(&mut self.draws);
                let event = EventRef::Submit(port, self.operation.lend());
                self.tries.try_event(fabric, &event, listener)?
            } else {
                let event = with_operation(&candidate, &self.operation);
                self.tries.try_event(fabric, &event, listener)?
            };
            if happened {
                return Ok(());
            }
        }
        let event = EventRef::SendDllp(LaneName::Inward, DllpKind::Answer);
        if self.tries.try_event(fabric, &event, listener)? {
            Ok(())
        } else {
            Err(AllocError)
        }
    }
}
