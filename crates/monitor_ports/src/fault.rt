//! Why a monitor refuses a call.
ghost use Rattle.std.specs.Prelude.{◌≡◌};
ghost use Rattle.monitor_ports.specs.Names.{name_of};

use std::error::Error;
use std::fmt;
use tlp_core::TlpFault;

/// Why a monitor refuses a call.
#[derive(Clone, Copy, Debug)]
pub enum MonitorFault {
    /// The requester is not 1 to 7.
    NoRequester,
    /// The bytes are no TLP: its first fault.
    Packet(TlpFault),
    /// The packet is a completion, where a request is needed.
    NoRequest,
    /// The packet is a request, where a completion is needed.
    NoCompletion,
    /// The Requester ID is not that of the requester's first request.
    OtherRequester,
    /// A non-posted request has the tag of an open one.
    TagInUse,
    /// No request is open under the completion's tag. Of a request that acts: none of that number
    /// waits to act.
    Unexpected,
    /// Status and data do not fit the request: status SC without data, data with another status, or
    /// data of another length, as the parts of a split completion have.
    Mismatch,
    /// All 4,294,967,295 numbers of the requester are spent, or 2^64 - 1 requests have acted.
    NumbersUsed,
    /// An allocation failed.
    Memory,
}

impl fmt::Display for MonitorFault {
    fn fmt<W: fmt::Write>(&self, f: &mut fmt::Formatter<W>) -> fmt::Result {
        f.write_str(self.name())
    }
}

impl Error for MonitorFault {}

impl MonitorFault {
    /// Its name, as `Display` writes it: that of the packet's fault for `Packet`.
    pub fn name(self) -> &'static str
        ensures { result.now ≡ name_of self }
    {
        match self {
            MonitorFault::NoRequester => "NoRequester",
            MonitorFault::Packet(fault) => fault.name(),
            MonitorFault::NoRequest => "NoRequest",
            MonitorFault::NoCompletion => "NoCompletion",
            MonitorFault::OtherRequester => "OtherRequester",
            MonitorFault::TagInUse => "TagInUse",
            MonitorFault::Unexpected => "Unexpected",
            MonitorFault::Mismatch => "Mismatch",
            MonitorFault::NumbersUsed => "NumbersUsed",
            MonitorFault::Memory => "Memory",
        }
    }
}
