//! Why bytes are no DLLP.
ghost use Rattle.std.specs.Prelude.{◌≡◌};

use std::error::Error;
use std::fmt;

/// The first of these that holds of the bytes.
#[derive(Clone, Copy, Debug, PartialEq)]
pub enum DllpFault {
    /// Not exactly four bytes.
    Short,
    /// Byte 0 is none of Ack, Nak and UpdateFC of VC0.
    Kind,
    /// A scale bit of an UpdateFC is set.
    Scaled,
}

impl fmt::Display for DllpFault {
    fn fmt<W: fmt::Write>(&self, f: &mut fmt::Formatter<W>) -> fmt::Result {
        f.write_str(self.name())
    }
}

impl Error for DllpFault {}

impl DllpFault {
    ghost use Rattle.dllp_core.specs.Faults.{number_of, name_of};

    /// The place of this fault in the order in which they are looked for, from 1.
    pub fn number(self) -> u8
        ensures { result ≡ number_of self }
    {
        match self {
            DllpFault::Short => 1,
            DllpFault::Kind => 2,
            DllpFault::Scaled => 3,
        }
    }

    /// The name under which it is told.
    pub fn name(self) -> &'static str
        ensures { result.now ≡ name_of self }
    {
        match self {
            DllpFault::Short => "Short",
            DllpFault::Kind => "Kind",
            DllpFault::Scaled => "Scaled",
        }
    }
}
