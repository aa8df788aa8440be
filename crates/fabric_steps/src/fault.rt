//! Why an event is refused.
ghost use Rattle.std.specs.Prelude.{◌≡◌};
ghost use Rattle.fabric_steps.specs.Faults.{refusal_number, refusal_name, is_memory};

use lane_core::LaneRefusal;
use link_replay::AckFault;
use requester_core::{CompletionFault, SubmitRefusal};
use switch_core::RouteFault;
use thiserror::Error;

/// Why an event is refused. Nothing has changed then.
#[derive(Clone, Copy, Debug, PartialEq, Error)]
pub enum Refusal {
    /// The fabric has no requester at that port, or no such lane, or nothing is forwarded from that lane.
    #[error("NoSuchPart")]
    NoSuchPart,
    /// There is nothing to send, the wire is empty, there is no place to move back, the sender isn't stopped, or no
    /// completion has arrived.
    #[error("Idle")]
    Idle,
    /// There is no packet at the place, or it may not pass an earlier one.
    #[error("NotTakeable")]
    NotTakeable,
    /// The requester prepares no such request.
    #[error("{0}")]
    Submit(SubmitRefusal),
    /// The lane has no room for the packet, or its memory could not grow.
    #[error("{0}")]
    Lane(LaneRefusal),
    /// The history or the trace could not grow.
    #[error("Memory")]
    Memory,
    /// An Ack or Nak of no packet.
    #[error("Protocol {0}")]
    Protocol(AckFault),
    /// A completion that its requester doesn't expect.
    #[error("Strange {0}")]
    Strange(CompletionFault),
    /// A packet without a port.
    #[error("Route {0}")]
    Route(RouteFault),
}

impl Refusal {
    /// The number under which it is told, 1 to 9.
    pub fn number(self) -> u8
        ensures { result ≡ refusal_number self }
    {
        match self {
            Refusal::NoSuchPart => 1,
            Refusal::Idle => 2,
            Refusal::NotTakeable => 3,
            Refusal::Submit(_) => 4,
            Refusal::Lane(_) => 5,
            Refusal::Memory => 6,
            Refusal::Protocol(_) => 7,
            Refusal::Strange(_) => 8,
            Refusal::Route(_) => 9,
        }
    }

    /// The name under which it is told.
    pub fn name(self) -> &'static str
        ensures { result.now ≡ refusal_name self }
    {
        match self {
            Refusal::NoSuchPart => "NoSuchPart",
            Refusal::Idle => "Idle",
            Refusal::NotTakeable => "NotTakeable",
            Refusal::Submit(refusal) => refusal.name(),
            Refusal::Lane(refusal) => refusal.name(),
            Refusal::Memory => "Memory",
            Refusal::Protocol(_) => "Protocol",
            Refusal::Strange(_) => "Strange",
            Refusal::Route(_) => "Route",
        }
    }

    /// Whether an allocation failed: the event may happen when it is tried again.
    pub fn is_memory(self) -> bool
        ensures { result ≡ is_memory self }
    {
        matches!(self, Refusal::Memory | Refusal::Lane(LaneRefusal::Memory))
    }
}
