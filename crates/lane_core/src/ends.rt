//! The four ends of a lane, whether or not they are right together.
ghost use Rattle.std.specs.Prelude.{◌≡◌, ◌↔◌, IsTrue};

use crate::receiver_end::ReceiverEnd;
use crate::sender_end::SenderEnd;
use crate::wires::{BackWire, ForwardWire};
use flow_control::LaneCredits;
use std::alloc::Global;
use std::marker::Model;

/// A lane by its four ends.
#[derive(Drop)]
pub struct LaneEnds {
    pub sender: SenderEnd,
    pub forward: ForwardWire,
    pub back: BackWire,
    pub receiver: ReceiverEnd,
}

impl Model for LaneEnds {
    ghost use Rattle.lane_core.specs.Steps.{LaneEndsView};

    ghost Value = { LaneEndsView };

    ghost view = { λ l. record { sender = l.sender; forward = l.forward; back = l.back; receiver = l.receiver } };
}

impl LaneEnds {
    ghost use Rattle.lane_core.specs.Steps.{new_lane, IsStill, IsShort};

    /// A lane whose receiver advertised these credits. It allocates nothing.
    pub fn new(credits: LaneCredits, alloc: Global) -> LaneEnds
        ensures { result ≡ new_lane credits }
    {
        LaneEnds {
            sender: SenderEnd::new(credits, alloc),
            forward: ForwardWire::new(alloc),
            back: BackWire::new(alloc),
            receiver: ReceiverEnd::new(credits, alloc),
        }
    }

    /// Whether no accepted packet waits, and the receiver waits for the number that the sender gives next.
    pub fn quiet(&self) -> bool
        ensures { IsTrue result ↔ IsStill self.now }
    {
        self.receiver.is_empty() && self.receiver.next_rcv_seq() == self.sender.next_transmit_seq()
    }

    /// Each lane's wires are short: a list in memory has fewer than 2 ^ 63 things.
    pub fn short(&self)
        ensures { IsShort self.now }
    {
        let _packets = self.forward.len();
        let _dllps = self.back.len();
    }
}
