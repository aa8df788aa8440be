//! All events but submissions and collections.
ghost use Rattle.std.specs.Prelude.{◌≡◌, IfOk, IfErr, OnErr};
ghost use Rattle.hall_events.specs.Desks.{knows, IsDesk, IsSame, IsOfHall};
ghost use Rattle.hall_events.specs.Refusals.{IsRefused};
ghost use Rattle.hall_events.specs.Works.{Pumped, event_of};
ghost use Rattle.hall_laws.specs.declared.token.Knowledge.{Knowledge};
ghost use Rattle.hall_laws.specs.Calls.{IsIdle, knowing};
ghost use Rattle.hall_laws.specs.Shows.{Shows};

use crate::desk::Desk;
use crate::refusal::HallRefusal;
use fabric_core::{LaneName, LinkEvent, Seen};
use lane_core::{DllpKind, Fate};

/// An event that any work seat may pump: each event of the fabric but a submission or a collection.
#[derive(Clone, Copy)]
pub enum WorkEvent {
    /// The sender's next packet goes onto the lane's forward wire.
    Transmit(LaneName),
    /// The oldest packet of the lane's forward wire reaches the receiver, or doesn't.
    Deliver(LaneName, Fate),
    /// The lane's receiver puts a DLLP on the back wire.
    SendDllp(LaneName, DllpKind),
    /// The oldest DLLP of the lane's back wire reaches the sender, or doesn't.
    DeliverDllp(LaneName, Fate),
    /// The replay timer of the lane's sender expires.
    Timer(LaneName),
    /// The lane's link was retrained, after its sender had stopped.
    Retrained(LaneName),
    /// The packet at this place of an `up` lane's queue, or of that of `out`, goes on to its port. Places count from 0,
    /// the oldest packet first.
    Forward(LaneName, usize),
    /// The request at this place of the queue of `in` acts on the memory, and its completion enters `out`.
    Serve(usize),
}

impl<'a> Desk<'a> {
    /// An event, and what is seen of it.
    pub fn pump(&mut self, event: WorkEvent) -> Result<Seen, HallRefusal>
        requires desk { IsDesk self.old }
        requires idle { IsIdle self.old.place.now.me }
        ensures seat { IsSame self.old self.new }
        ensures hall { IsOfHall (knows self.old) (knows self.new) }
        ensures pumped { IfOk result (λ what. (w : Knowledge) × (self.new.place.now.me ≡ knowing w) × Pumped event what (knows self.old) w) }
        ensures refused { OnErr result (self.new.place.now.me ≡ self.old.place.now.me) }
        ensures shows { IfOk result (λ what. Shows (knows self.old) (event_of event) what) }
        ensures why { IfErr result (λ r. IsRefused (knows self.old) (event_of event) r) }
    {
        let (name, call) = match event {
            WorkEvent::Transmit(name) => (name, LinkEvent::Transmit),
            WorkEvent::Deliver(name, fate) => (name, LinkEvent::Deliver(fate)),
            WorkEvent::SendDllp(name, kind) => (name, LinkEvent::SendDllp(kind)),
            WorkEvent::DeliverDllp(name, fate) => (name, LinkEvent::DeliverDllp(fate)),
            WorkEvent::Timer(name) => (name, LinkEvent::Timer),
            WorkEvent::Retrained(name) => (name, LinkEvent::Retrained),
            WorkEvent::Forward(name, place) => return self.forward(name, place),
            WorkEvent::Serve(place) => return match self.serve(place) {
                Ok(n) => Ok(Seen::At(n)),
                Err(refusal) => Err(refusal),
            },
        };
        self.link(name, call)
    }
}
