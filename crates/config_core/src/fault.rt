//! Why bytes are no configuration request.
ghost use Rattle.std.specs.Prelude.{◌≡◌};
ghost use Rattle.config_core.specs.Fault.{number_of, name_of};

use std::error::Error;
use std::fmt;

/// The faults of a configuration request's bytes, in the order in which they are tested: the first that holds is
/// reported.
#[derive(Clone, Copy, Debug, PartialEq)]
pub enum CfgFault {
    /// Fewer than 12 bytes.
    Short,
    /// Fmt and Type are not those of a configuration request.
    Kind,
    /// TD is 1: a TLP digest (section 2.2.3).
    Digest,
    /// EP is 1: a poisoned packet (section 2.7.2).
    Poisoned,
    /// Length is not 1, or the bytes are not 16 of a write or 12 of a read.
    LengthMismatch,
    /// TC, attributes, AT, LN, TH, a tag's upper bits or Last DW BE are not 0.
    Fields,
}

impl fmt::Display for CfgFault {
    fn fmt<W: fmt::Write>(&self, f: &mut fmt::Formatter<W>) -> fmt::Result {
        f.write_str(self.name())
    }
}

impl Error for CfgFault {}

impl CfgFault {
    /// The number under which the fault is reported, 1 to 6 in the order of the tests.
    pub fn number(self) -> u8
        ensures { result ≡ number_of self }
    {
        match self {
            CfgFault::Short => 1,
            CfgFault::Kind => 2,
            CfgFault::Digest => 3,
            CfgFault::Poisoned => 4,
            CfgFault::LengthMismatch => 5,
            CfgFault::Fields => 6,
        }
    }

    /// The name under which the fault is reported, as `Display` writes it.
    pub fn name(self) -> &'static str
        ensures { result.now ≡ name_of self }
    {
        match self {
            CfgFault::Short => "Short",
            CfgFault::Kind => "Kind",
            CfgFault::Digest => "Digest",
            CfgFault::Poisoned => "Poisoned",
            CfgFault::LengthMismatch => "LengthMismatch",
            CfgFault::Fields => "Fields",
        }
    }
}
