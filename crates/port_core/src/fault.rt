//! What a port refuses.
ghost use Rattle.std.specs.Prelude.{◌≡◌};

use dllp_core::{Class, DllpFault};
use std::error::Error;
use std::fmt;

/// Why a packet isn't taken to be sent, in the order in which it is looked for.
#[derive(Clone, Copy, Debug, PartialEq)]
pub enum EnterRefusal {
    /// The link isn't initialized.
    NotActive,
    /// The peer's credits of this class don't cover the packet.
    NoCredits(Class),
    /// 2047 packets are unacknowledged.
    WindowFull,
    /// The replay buffer could not grow.
    Memory,
}

impl fmt::Display for EnterRefusal {
    fn fmt<W: fmt::Write>(&self, f: &mut fmt::Formatter<W>) -> fmt::Result {
        f.write_str(self.name())
    }
}

impl Error for EnterRefusal {}

/// What is wrong with a DLLP that arrived.
#[derive(Clone, Copy, Debug, PartialEq)]
pub enum DllpRefusal {
    /// They aren't four bytes, or its credits are scaled, which no peer may use unasked. One of a type that isn't read is no error.
    Bytes(DllpFault),
    /// An Ack or Nak whose number is neither ACKD_SEQ nor that of an unacknowledged packet that was given out: a Data Link Protocol
    /// Error.
    NotOutstanding,
    /// More than 127 headers or 2047 data units of a class would be unused: a Flow Control Protocol Error.
    CreditLimit,
}

impl fmt::Display for DllpRefusal {
    fn fmt<W: fmt::Write>(&self, f: &mut fmt::Formatter<W>) -> fmt::Result {
        f.write_str(self.name())
    }
}

impl Error for DllpRefusal {}

impl EnterRefusal {
    ghost use Rattle.port_core.specs.Refusals.{enter_number, enter_name};

    /// The place of this refusal in the order in which they are looked for, from 1.
    pub fn number(self) -> u8
        ensures { result ≡ enter_number self }
    {
        match self {
            EnterRefusal::NotActive => 1,
            EnterRefusal::NoCredits(_) => 2,
            EnterRefusal::WindowFull => 3,
            EnterRefusal::Memory => 4,
        }
    }

    /// Its name in texts.
    pub fn name(self) -> &'static str
        ensures { result.now ≡ enter_name self }
    {
        match self {
            EnterRefusal::NotActive => "NotActive",
            EnterRefusal::NoCredits(_) => "NoCredits",
            EnterRefusal::WindowFull => "WindowFull",
            EnterRefusal::Memory => "Memory",
        }
    }
}

impl DllpRefusal {
    ghost use Rattle.port_core.specs.Refusals.{dllp_number, dllp_name};

    /// The place of this refusal in the order in which they are looked for, from 1.
    pub fn number(self) -> u8
        ensures { result ≡ dllp_number self }
    {
        match self {
            DllpRefusal::Bytes(fault) => fault.number(),
            DllpRefusal::NotOutstanding => 4,
            DllpRefusal::CreditLimit => 5,
        }
    }

    /// Its name in texts.
    pub fn name(self) -> &'static str
        ensures { result.now ≡ dllp_name self }
    {
        match self {
            DllpRefusal::Bytes(fault) => fault.name(),
            DllpRefusal::NotOutstanding => "NotOutstanding",
            DllpRefusal::CreditLimit => "CreditLimit",
        }
    }
}
