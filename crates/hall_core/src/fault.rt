//! Why a hall isn't made.
ghost use Rattle.std.specs.Prelude.{◌≡◌};
ghost use Rattle.hall_core.specs.Faults.{hall_fault_number, hall_fault_name};

use std::error::Error;
use std::fmt;

/// Why no hall is made. The fabric is spent.
#[derive(Clone, Copy, Debug, PartialEq)]
pub enum HallFault {
    /// There would be no work seat, or more than 64.
    Seats,
    /// There is no memory for the hall.
    Memory,
}

impl fmt::Display for HallFault {
    fn fmt<W: fmt::Write>(&self, f: &mut fmt::Formatter<W>) -> fmt::Result {
        f.write_str(self.name())
    }
}

impl Error for HallFault {}

impl HallFault {
    /// The number under which it is told, 1 or 2.
    pub fn number(self) -> u8
        ensures { result ≡ hall_fault_number self }
    {
        match self {
            HallFault::Seats => 1,
            HallFault::Memory => 2,
        }
    }

    /// The name under which it is told.
    pub fn name(self) -> &'static str
        ensures { result.now ≡ hall_fault_name self }
    {
        match self {
            HallFault::Seats => "Seats",
            HallFault::Memory => "Memory",
        }
    }
}
