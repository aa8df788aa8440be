//! What becomes of the packets and DLLPs that reach the ends of wires.
ghost use Rattle.std.specs.Prelude.{◌≡◌};
ghost use Rattle.parameters.specs.Ranges.{IsStorm};
ghost use Rattle.script_text.specs.Spelled.{IsSpelledLane, IsSpelledEvent};
ghost use Rattle.parameters.specs.Fates.{fate_of};
ghost use Rattle.generate_engine.specs.Arrivals.{nothing_arrived, next_on, with_event};

use crate::counts::Counts;
use fabric_core::{EventRef, LaneName};
use lane_core::Fate;
use parameters::{Plan, Storm};
use std::marker::Model;

/// A plan of faults, and the counts that it goes by.
#[derive(Drop)]
pub(crate) struct Arrivals {
    plan: Plan,
    packets: Counts,
    dllps: Counts,
}

impl Model for Arrivals {
    ghost use Rattle.generate_engine.specs.Arrivals.{ArrivalsView};

    ghost Value = { ArrivalsView };

    ghost view = { λ a. record { lose = a.plan.lose_every; corrupt = a.plan.corrupt_every; packets = a.packets; dllps = a.dllps } };
}

impl Arrivals {
    /// The storm's plan before its first event.
    pub(crate) fn new(storm: &Storm) -> Arrivals
        requires { IsStorm storm.now }
        ensures { result ≡ nothing_arrived storm.now.lose storm.now.corrupt }
    {
        Arrivals {
            plan: Plan {
                lose_every: storm.lose as u32,
                corrupt_every: storm.corrupt as u32,
            },
            packets: Counts::new(),
            dllps: Counts::new(),
        }
    }

    /// What becomes of the next packet of the lane.
    pub(crate) fn packet_fate(&self, lane: LaneName) -> Fate
        requires { IsSpelledLane lane }
        ensures { result ≡ fate_of self.now.lose self.now.corrupt (next_on self.now.packets lane) }
    {
        self.plan.fate(self.packets.next(lane))
    }

    /// What becomes of the next DLLP of the lane.
    pub(crate) fn dllp_fate(&self, lane: LaneName) -> Fate
        requires { IsSpelledLane lane }
        ensures { result ≡ fate_of self.now.lose self.now.corrupt (next_on self.now.dllps lane) }
    {
        self.plan.fate(self.dllps.next(lane))
    }

    /// Counts what arrived.
    pub(crate) fn count(&mut self, event: &EventRef<'_>)
        requires { IsSpelledEvent event.now }
        ensures { self.new ≡ with_event self.old event.now }
    {
        match event {
            EventRef::Deliver(lane, _) => self.packets.add(*lane),
            EventRef::DeliverDllp(lane, _) => self.dllps.add(*lane),
            _ => {}
        }
    }
}
