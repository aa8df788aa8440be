//! A monitor's faults as failures of calls.
ghost use Rattle.std.specs.Prelude.{◌≡◌};
ghost use Rattle.c_monitor.specs.Failures.{failure_of};

use c_buffer::Failure;
use monitor_ports::MonitorFault;

/// The failure of a call at which the monitor finds this fault.
pub(crate) fn failure(fault: MonitorFault) -> Failure
    ensures { result ≡ failure_of fault }
{
    match fault {
        MonitorFault::Packet(fault) => Failure::Fault(fault.number()),
        MonitorFault::TagInUse => Failure::Fault(20),
        MonitorFault::Unexpected => Failure::Fault(21),
        MonitorFault::Mismatch => Failure::Fault(22),
        MonitorFault::OtherRequester => Failure::Fault(23),
        MonitorFault::NumbersUsed => Failure::Fault(24),
        MonitorFault::NoRequest => Failure::NoRequest,
        MonitorFault::Memory => Failure::NoMemory,
        MonitorFault::NoCompletion => Failure::NoCompletion,
        MonitorFault::NoRequester => Failure::NoRequester,
    }
}
