//! Why a packet has no port.
ghost use Rattle.std.specs.Prelude.{◌≡◌};
ghost use Rattle.switch_core.specs.RouteFaults.{fault_number, fault_name};

use std::error::Error;
use std::fmt;

/// Why a packet goes nowhere.
#[derive(Clone, Copy, Debug, PartialEq)]
pub enum RouteFault {
    /// A request from the memory, a completion from a requester, or one for no requester's ID.
    NoPort,
}

impl fmt::Display for RouteFault {
    fn fmt<W: fmt::Write>(&self, f: &mut fmt::Formatter<W>) -> fmt::Result {
        f.write_str(self.name())
    }
}

impl Error for RouteFault {}

impl RouteFault {
    /// The number under which it is told, 1.
    pub fn number(self) -> u8
        ensures { result ≡ fault_number self }
    {
        match self {
            RouteFault::NoPort => 1,
        }
    }

    /// The name under which it is told.
    pub fn name(self) -> &'static str
        ensures { result.now ≡ fault_name self }
    {
        match self {
            RouteFault::NoPort => "NoPort",
        }
    }
}
