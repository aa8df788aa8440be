//! The events of a link, each over the ends that it uses.
ghost use Rattle.std.specs.Prelude.{◌≡◌, ◌↔◌, Some, None, IsTrue, IfOk, IfErr, OnErr};
ghost use Rattle.hall_laws.specs.Calls.{IsIdle, knowing};
ghost use Rattle.hall_laws.specs.Parts.{IsLaneName};
ghost use Rattle.hall_laws.specs.Rule.{with_done};
ghost use Rattle.hall_laws.specs.Shows.{Shows};
ghost use Rattle.hall_laws.specs.Telling.{EventShows};
ghost use Rattle.hall_events.specs.Desks.{knows, IsDesk, IsSame};
ghost use Rattle.hall_events.specs.Ends.{ends_of, LinkOwes, LinkIsRefused, LinkHasNothing, AloneOwes, AloneIsRefused};
ghost use Rattle.hall_events.specs.Refusals.{IsRefused};
ghost use Rattle.hall_events.specs.Works.{link_event};

use crate::desk::Desk;
use crate::events::{act, act_alone, has_nothing};
use crate::refusal::HallRefusal;
use fabric_core::{LaneName, LinkEvent, Refusal, Seen};
use hall_laws::duties::{
    delivering, delivering_a_dllp, expiring, retraining, sending_a_dllp, transmitting,
};
use hall_laws::part::Part;
use std::marker::Brand;

/// An event of a link over the ends that it uses is that event of the fabric, which shows what is seen of it; where the
/// ends refuse it, so does the fabric, and so it does where the first alone shows that there is nothing to do.
fn linking()
    ensures owes { LinkOwes }
    ensures refused { LinkIsRefused }
    ensures nothing { LinkHasNothing }
    ensures owes_alone { AloneOwes }
    ensures refused_alone { AloneIsRefused }
    ensures shown { EventShows }
{
    transmitting();
    delivering();
    sending_a_dllp();
    delivering_a_dllp();
    expiring();
    retraining();
}

/// The two ends that an event of a link uses, in the order of their taking. None where it uses the sender's end alone.
fn ends_of(name: LaneName, event: LinkEvent) -> Option<(Part, Part)>
    ensures { result ≡ ends_of name event }
{
    match event {
        LinkEvent::Transmit => Some((Part::SenderEnd(name), Part::ForwardWire(name))),
        LinkEvent::Deliver(_) => Some((Part::ForwardWire(name), Part::ReceiverEnd(name))),
        LinkEvent::SendDllp(_) => Some((Part::ReceiverEnd(name), Part::BackWire(name))),
        LinkEvent::DeliverDllp(_) => Some((Part::BackWire(name), Part::SenderEnd(name))),
        LinkEvent::Timer | LinkEvent::Retrained => None,
    }
}

/// The fabric has this lane.
fn is_lane(name: LaneName, requesters: u8) -> bool
    ensures { IsTrue result ↔ IsLaneName requesters name }
{
    match name {
        LaneName::Up(port) | LaneName::Down(port) => 0 < port && port <= requesters,
        LaneName::Inward | LaneName::Outward => true,
    }
}

impl<'a> Desk<'a> {
    /// An event over the sender's end.
    fn link_alone(&mut self, name: LaneName, event: LinkEvent) -> Result<Seen, HallRefusal>
        requires desk { IsDesk self.old × IsLaneName self.old.requesters name }
        requires idle { IsIdle self.old.place.now.me }
        requires ends { ends_of name event ≡ None }
        ensures seat { IsSame self.old self.new }
        ensures happened { IfOk result (λ what. self.new.place.now.me ≡ knowing (with_done (link_event name event) what (knows self.old))) }
        ensures refused { OnErr result (self.new.place.now.me ≡ self.old.place.now.me) }
        ensures shows { IfOk result (λ what. Shows (knows self.old) (link_event name event) what) }
        ensures why { IfErr result (λ r. IsRefused (knows self.old) (link_event name event) r) }
    {
        linking();
        let mut sender = self.take(Part::SenderEnd(name))?;
        match act_alone(event, &mut sender.value) {
            Ok(what) => {
                self.event::<Brand, _>(sender, &(name, event, &what));
                Ok(what)
            }
            Err(refusal) => Err(self.refuse(sender, refusal)),
        }
    }

    /// An event over two ends.
    fn link_both(
        &mut self,
        name: LaneName,
        event: LinkEvent,
        first: Part,
        second: Part,
    ) -> Result<Seen, HallRefusal>
        requires desk { IsDesk self.old × IsLaneName self.old.requesters name }
        requires idle { IsIdle self.old.place.now.me }
        requires ends { ends_of name event ≡ Some (first, second) }
        ensures seat { IsSame self.old self.new }
        ensures happened { IfOk result (λ what. self.new.place.now.me ≡ knowing (with_done (link_event name event) what (knows self.old))) }
        ensures refused { OnErr result (self.new.place.now.me ≡ self.old.place.now.me) }
        ensures shows { IfOk result (λ what. Shows (knows self.old) (link_event name event) what) }
        ensures why { IfErr result (λ r. IsRefused (knows self.old) (link_event name event) r) }
    {
        linking();
        let one = self.take(first)?;
        if has_nothing(event, &one.value) {
            return Err(self.refuse(one, Refusal::Idle));
        }
        let (mut one, mut two) = self.take_second(one, second)?;
        match act(event, &mut one.value, &mut two.value) {
            Ok(what) => {
                self.happen::<Brand, _>(one, two, &(name, event, &what));
                Ok(what)
            }
            Err(refusal) => Err(self.refuse_both(one, two, refusal)),
        }
    }

    /// An event of a lane's link, and what is seen of it.
    pub(crate) fn link(&mut self, name: LaneName, event: LinkEvent) -> Result<Seen, HallRefusal>
        requires desk { IsDesk self.old }
        requires idle { IsIdle self.old.place.now.me }
        ensures seat { IsSame self.old self.new }
        ensures happened { IfOk result (λ what. self.new.place.now.me ≡ knowing (with_done (link_event name event) what (knows self.old))) }
        ensures refused { OnErr result (self.new.place.now.me ≡ self.old.place.now.me) }
        ensures shows { IfOk result (λ what. Shows (knows self.old) (link_event name event) what) }
        ensures why { IfErr result (λ r. IsRefused (knows self.old) (link_event name event) r) }
    {
        if !is_lane(name, self.requesters) {
            return Err(HallRefusal::Core(Refusal::NoSuchPart));
        }
        match ends_of(name, event) {
            None => self.link_alone(name, event),
            Some((first, second)) => self.link_both(name, event, first, second),
        }
    }
}
