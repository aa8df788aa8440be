//! The events of a link over the ends that they use.
ghost use Rattle.std.specs.Prelude.{◌≡◌, ◌↔◌, Ok, Err, IsTrue, IfOk, IfErr, OnErr};
ghost use Rattle.fabric_core.specs.Answers.{Refuses, link_grows};
ghost use Rattle.hall_laws.specs.Parts.{IsSender};
ghost use Rattle.hall_events.specs.Acts.{acts, acts_alone, AreEnds, HasNothing};

use fabric_core::{LinkEvent, Refusal, Seen, events};
use hall_laws::part::PartValue;

/// An event over its two ends.
pub fn act(event: LinkEvent, one: &mut PartValue, two: &mut PartValue) -> Result<Seen, Refusal>
    requires { AreEnds event one.old two.old }
    ensures ok { IfOk result (λ what. acts event one.old two.old ≡ Ok (what, one.new, two.new)) }
    ensures refused { IfErr result (λ r. Refuses (λ x. link_grows x.0) (acts event one.old two.old) r) }
    ensures err_one { OnErr result (one.new ≡ one.old) }
    ensures err_two { OnErr result (two.new ≡ two.old) }
{
    match event {
        LinkEvent::Transmit => Ok(Seen::Sent(events::transmit(one.sender(), two.forward())?)),
        LinkEvent::Deliver(fate) => {
            Ok(Seen::Delivered(events::deliver(one.forward(), two.receiver(), fate)?))
        }
        LinkEvent::SendDllp(kind) => {
            Ok(Seen::SentDllp(events::send_dllp(one.receiver(), two.back(), kind)?))
        }
        LinkEvent::DeliverDllp(fate) => {
            Ok(Seen::SeenDllp(events::deliver_dllp(one.back(), two.sender(), fate)?))
        }
        LinkEvent::Timer | LinkEvent::Retrained => unreachable!(),
    }
}

/// The end that was taken first shows that an event has nothing to do.
pub fn has_nothing(event: LinkEvent, one: &PartValue) -> bool
    ensures { IsTrue result ↔ HasNothing event one.now }
{
    match (event, one) {
        (LinkEvent::Transmit, PartValue::Sender(sender)) => !sender.inner.can_transmit(),
        (LinkEvent::Deliver(_), PartValue::Forward(wire)) => wire.inner.is_empty(),
        (LinkEvent::DeliverDllp(_), PartValue::Back(wire)) => wire.inner.is_empty(),
        _ => false,
    }
}

/// The replay timer of the sender's end expires, or its link was retrained.
pub fn act_alone(event: LinkEvent, one: &mut PartValue) -> Result<Seen, Refusal>
    requires { IsSender one.old }
    ensures ok { IfOk result (λ what. acts_alone event one.old ≡ Ok (what, one.new)) }
    ensures refused { IfErr result (λ r. acts_alone event one.old ≡ Err r) }
    ensures err { OnErr result (one.new ≡ one.old) }
{
    match event {
        LinkEvent::Timer => Ok(Seen::Back(events::timer(one.sender())?)),
        LinkEvent::Retrained => {
            events::retrained(one.sender())?;
            Ok(Seen::Retrained)
        }
        _ => Err(Refusal::NoSuchPart),
    }
}
