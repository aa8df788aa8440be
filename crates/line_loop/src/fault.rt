//! What stops an engine.
ghost use Rattle.std.specs.Prelude.{◌≡◌};
ghost use Rattle.line_loop.specs.declared.fault.EngineFault.TheVariants.{Memory};
ghost use Rattle.line_loop.specs.Faults.{fault_number, fault_name};

use std::alloc::AllocError;
use std::error::Error;
use std::fmt;

/// Why an engine stopped before the end of its input.
#[derive(Clone, Copy, Debug, PartialEq)]
pub enum EngineFault {
    /// The reader failed.
    Read,
    /// The writer failed, or took nothing.
    Write,
    /// Memory ran out.
    Memory,
}

impl fmt::Display for EngineFault {
    fn fmt<W: fmt::Write>(&self, f: &mut fmt::Formatter<W>) -> fmt::Result {
        f.write_str(self.name())
    }
}

impl Error for EngineFault {}

impl EngineFault {
    /// The number under which it is told, 1 to 3.
    pub fn number(self) -> u8
        ensures { result ≡ fault_number self }
    {
        match self {
            EngineFault::Read => 1,
            EngineFault::Write => 2,
            EngineFault::Memory => 3,
        }
    }

    /// The name under which it is told.
    pub fn name(self) -> &'static str
        ensures { result.now ≡ fault_name self }
    {
        match self {
            EngineFault::Read => "read",
            EngineFault::Write => "write",
            EngineFault::Memory => "memory",
        }
    }
}

impl From<AllocError> for EngineFault {
    ghost from_gives = { λ _ fault. fault ≡ Memory };

    fn from(_: AllocError) -> EngineFault {
        EngineFault::Memory
    }
}
