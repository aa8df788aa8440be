//! What a sender refuses.
ghost use Rattle.std.specs.Prelude.{◌≡◌};

use std::error::Error;
use std::fmt;

/// Why a packet wasn't accepted.
#[derive(Clone, Copy, Debug, PartialEq)]
pub enum SendRefusal {
    /// 2047 packets are unacknowledged.
    WindowFull,
    /// The replay buffer could not grow.
    Memory,
}

impl fmt::Display for SendRefusal {
    fn fmt<W: fmt::Write>(&self, f: &mut fmt::Formatter<W>) -> fmt::Result {
        f.write_str(self.name())
    }
}

impl Error for SendRefusal {}

/// Why an Ack or Nak is a protocol error.
#[derive(Clone, Copy, Debug, PartialEq)]
pub enum AckFault {
    /// The number is neither ACKD_SEQ nor that of an unacknowledged packet.
    NotOutstanding,
}

impl fmt::Display for AckFault {
    fn fmt<W: fmt::Write>(&self, f: &mut fmt::Formatter<W>) -> fmt::Result {
        f.write_str(self.name())
    }
}

impl Error for AckFault {}

impl SendRefusal {
    ghost use Rattle.link_replay.specs.Refusals.{refusal_number, refusal_name};

    /// The place of this refusal in the order in which they are looked for, from 1.
    pub fn number(self) -> u8
        ensures { result ≡ refusal_number self }
    {
        match self {
            SendRefusal::WindowFull => 1,
            SendRefusal::Memory => 2,
        }
    }

    /// The name under which it is told.
    pub fn name(self) -> &'static str
        ensures { result.now ≡ refusal_name self }
    {
        match self {
            SendRefusal::WindowFull => "WindowFull",
            SendRefusal::Memory => "Memory",
        }
    }
}

impl AckFault {
    ghost use Rattle.link_replay.specs.Refusals.{ack_fault_number, ack_fault_name};

    /// The number of this fault, from 1.
    pub fn number(self) -> u8
        ensures { result ≡ ack_fault_number self }
    {
        match self {
            AckFault::NotOutstanding => 1,
        }
    }

    /// The name under which it is told.
    pub fn name(self) -> &'static str
        ensures { result.now ≡ ack_fault_name self }
    {
        match self {
            AckFault::NotOutstanding => "NotOutstanding",
        }
    }
}
