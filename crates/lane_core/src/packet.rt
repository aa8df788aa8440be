//! What lies on a lane's wires, and what its calls answer.
ghost use Rattle.std.specs.Prelude.{◌≡◌};

use dllp_core::{Class, Dllp};
use link_replay::{Cargo, Reception};
use seq12::Seq12;
use std::error::Error;
use std::fmt;

/// A packet on the forward wire (section 3.6.1): its sequence number and the bytes of the transaction layer packet.
/// Beside them rides the mark, which isn't on the wire.
#[derive(Drop)]
pub struct WirePacket {
    pub number: Seq12,
    pub cargo: Cargo,
}

/// What becomes of the oldest on a wire.
#[derive(Clone, Copy, PartialEq)]
pub enum Fate {
    /// It arrives, and its check is good.
    Good,
    /// It arrives, and its check fails.
    Failed,
    /// It doesn't arrive.
    Lost,
}

/// What became of a packet.
#[derive(Clone, Copy, PartialEq)]
pub enum Arrival {
    /// It arrived, and this is what the receiver does with it.
    Answered(Reception),
    /// It was lost.
    Gone,
}

/// Which DLLP is sent.
#[derive(Clone, Copy, PartialEq)]
pub enum DllpKind {
    /// The Nak that is due, or else an Ack.
    Answer,
    /// The UpdateFC of a class.
    Update(Class),
}

/// What became of a DLLP.
#[derive(Clone, Copy, PartialEq)]
pub enum DllpSeen {
    /// It took effect.
    Took(Dllp),
    /// It was lost, or its check failed.
    Gone,
}

/// Why a lane refuses, in the order in which it is looked for.
#[derive(Clone, Copy, Debug, PartialEq)]
pub enum LaneRefusal {
    /// The credits of this class don't cover the packet.
    NoCredits(Class),
    /// 2047 packets are unacknowledged.
    WindowFull,
    /// The memory could not grow.
    Memory,
}

impl fmt::Display for LaneRefusal {
    fn fmt<W: fmt::Write>(&self, f: &mut fmt::Formatter<W>) -> fmt::Result {
        f.write_str(self.name())
    }
}

impl Error for LaneRefusal {}

impl LaneRefusal {
    ghost use Rattle.lane_core.specs.Refusals.{number_of, name_of};

    /// The place of this refusal in the order in which they are looked for, from 1.
    pub fn number(self) -> u8
        ensures { result ≡ number_of self }
    {
        match self {
            LaneRefusal::NoCredits(_) => 1,
            LaneRefusal::WindowFull => 2,
            LaneRefusal::Memory => 3,
        }
    }

    /// The name under which it is told.
    pub fn name(self) -> &'static str
        ensures { result.now ≡ name_of self }
    {
        match self {
            LaneRefusal::NoCredits(_) => "NoCredits",
            LaneRefusal::WindowFull => "WindowFull",
            LaneRefusal::Memory => "Memory",
        }
    }
}
