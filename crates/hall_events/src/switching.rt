//! Packets that go on, and requests that act.
ghost use Rattle.std.specs.Prelude.{◌≡◌, ◌↔◌, ◌<◌, ◌≤◌, IsTrue, IfOk, IfErr, OnErr};
ghost use Rattle.tlp_core.specs.Limits.{most_requesters};
ghost use Rattle.fabric_steps.specs.declared.event.EventOf.TheVariants.{Forward, Serve};
ghost use Rattle.fabric_steps.specs.declared.event.SeenOf.TheVariants.{At};
ghost use Rattle.hall_laws.specs.Calls.{IsIdle, knowing, serving_also};
ghost use Rattle.hall_laws.specs.Rule.{with_done};
ghost use Rattle.hall_laws.specs.Shows.{Shows};
ghost use Rattle.hall_laws.specs.Telling.{EventShows};
ghost use Rattle.hall_events.specs.Desks.{knows, IsDesk, IsSame};
ghost use Rattle.hall_events.specs.Refusals.{IsRefused};
ghost use Rattle.hall_events.specs.Ways.{LeadsIn, Leads, HasNoWay, ForwardOwes, ForwardIsRefused, PacketHasNoWay};

use crate::desk::Desk;
use crate::refusal::HallRefusal;
use fabric_core::{LaneName, Refusal, Seen, events};
use hall_laws::duties::{forwarding_out, forwarding_up, serving};
use hall_laws::part::Part;
use lane_core::ReceiverEnd;
use std::marker::Brand;
use switch_core::{Port, RouteFault};

/// A packet that goes on, over the receiver's end of its lane and the sender's end of the next, is that event of the
/// fabric, which shows what is seen of it; where they refuse it, so does the fabric, and so it does where the packet has
/// no way.
fn forwarding()
    ensures owes { ForwardOwes }
    ensures refused { ForwardIsRefused }
    ensures no_way { PacketHasNoWay }
    ensures shown { EventShows }
{
    forwarding_up();
    forwarding_out();
}

/// The fabric has this lane, and it leads to the switch.
fn leads_in(name: LaneName, requesters: u8) -> bool
    ensures { IsTrue result ↔ LeadsIn requesters name }
{
    match name {
        LaneName::Up(port) => 0 < port && port <= requesters,
        LaneName::Outward => true,
        LaneName::Down(_) | LaneName::Inward => false,
    }
}

/// The port to which the packet at this place of a lane goes, and the next lane. `NotTakeable` where there is none or it
/// may not pass an earlier one, then `Route`.
fn way(
    name: LaneName,
    receiver: &ReceiverEnd,
    place: usize,
    requesters: u8,
) -> Result<(u8, LaneName), Refusal>
    requires { LeadsIn requesters name × (requesters ≤ most_requesters) }
    ensures ok { IfOk result (λ w. Leads requesters name receiver.now place w.0 w.1) }
    ensures refused { IfErr result (λ r. HasNoWay requesters name receiver.now place r) }
{
    if let LaneName::Up(port) = name {
        let to = events::destination(receiver, place, Port::new(port))?;
        return Ok((to.number(), LaneName::Inward));
    }
    let to = events::destination(receiver, place, Port::MEMORY)?.number();
    if to == 0 || to > requesters {
        return Err(Refusal::Route(RouteFault::NoPort));
    }
    Ok((to, LaneName::Down(to)))
}

impl<'a> Desk<'a> {
    /// The packet at this place of a lane to the switch goes into the lane that leads to its port.
    pub(crate) fn forward(&mut self, name: LaneName, place: usize) -> Result<Seen, HallRefusal>
        requires desk { IsDesk self.old }
        requires idle { IsIdle self.old.place.now.me }
        ensures seat { IsSame self.old self.new }
        ensures happened { IfOk result (λ what. self.new.place.now.me ≡ knowing (with_done (Forward name place) what (knows self.old))) }
        ensures refused { OnErr result (self.new.place.now.me ≡ self.old.place.now.me) }
        ensures shows { IfOk result (λ what. Shows (knows self.old) (Forward name place) what) }
        ensures why { IfErr result (λ r. IsRefused (knows self.old) (Forward name place) r) }
    {
        forwarding();
        if !leads_in(name, self.requesters) {
            return Err(HallRefusal::Core(Refusal::NoSuchPart));
        }
        let mut one = self.take(Part::ReceiverEnd(name))?;
        let (to, next) = match way(name, one.value.receiver(), place, self.requesters) {
            Ok(way) => way,
            Err(refusal) => return Err(self.refuse(one, refusal)),
        };
        let (mut one, mut two) = self.take_second(one, Part::SenderEnd(next))?;
        match events::forward(one.value.receiver(), place, two.value.sender()) {
            Ok(()) => {
                self.happen::<Brand, _>(one, two, &(name, place, to));
                Ok(Seen::To(to))
            }
            Err(refusal) => Err(self.refuse_both(one, two, refusal)),
        }
    }

    /// The request at this place of `in` acts on the memory. Gives its place in the history. `NotTakeable` where `in`
    /// alone shows that no request of this place may act.
    pub(crate) fn serve(&mut self, place: usize) -> Result<usize, HallRefusal>
        requires desk { IsDesk self.old }
        requires idle { IsIdle self.old.place.now.me }
        ensures seat { IsSame self.old self.new }
        ensures served { IfOk result (λ n. self.new.place.now.me ≡ knowing (with_done (Serve place) (At n) (serving_also n (knows self.old)))) }
        ensures refused { OnErr result (self.new.place.now.me ≡ self.old.place.now.me) }
        ensures shows { IfOk result (λ n. Shows (knows self.old) (Serve place) (At n)) }
        ensures why { IfErr result (λ r. IsRefused (knows self.old) (Serve place) r) }
    {
        serving();
        let mut receiver = self.take(Part::ReceiverEnd(LaneName::Inward))?;
        if !receiver.value.receiver().takeable(place) {
            return Err(self.refuse(receiver, Refusal::NotTakeable));
        }
        let (receiver, memory) = self.take_second(receiver, Part::Memory)?;
        let (mut receiver, mut memory, mut sender) = self.take_third(
            receiver,
            memory,
            Part::SenderEnd(LaneName::Outward),
        )?;
        match events::serve(
            receiver.value.receiver(),
            place,
            memory.value.memory(),
            sender.value.sender(),
        ) {
            Ok(n) => {
                self.place.turn();
                self.place.turn();
                self.event::<Brand, _>(receiver, &(place, n, &memory, &sender));
                self.place.turn();
                self.put_back(memory);
                self.put_back(sender);
                Ok(n)
            }
            Err(refusal) => {
                self.put_back(sender);
                Err(self.refuse_both(receiver, memory, refusal))
            }
        }
    }
}
