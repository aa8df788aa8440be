//! The packets of a call.
ghost use Rattle.std.specs.Prelude.{◌≡◌, ◌≤◌, OnOk, IfErr};
ghost use Rattle.tlp_core.specs.Limits.{most_requesters};
ghost use Rattle.monitor_ports.specs.declared.fault.MonitorFault.TheVariants as faults;
ghost use Rattle.monitor_ports.specs.Monitoring.{is_requester, packet_from};

use crate::fault::MonitorFault;
use tlp_core::{REQUESTERS, TlpRef, decode_lent};

pub(crate) fn is_requester(requester: u8) -> bool
    ensures { result ≡ is_requester requester }
{
    1 <= requester && requester <= REQUESTERS
}

/// The packet of a requester, 1 to 7.
pub(crate) fn packet_from(requester: u8, bytes: &[u8]) -> Result<TlpRef<'_>, MonitorFault>
    ensures value { result ≡ packet_from requester bytes.now }
    ensures range { OnOk result (requester ≤ most_requesters) }
    ensures not_memory { IfErr result (λ f. ¬ (f ≡ faults.Memory)) }
{
    if !is_requester(requester) {
        return Err(MonitorFault::NoRequester);
    }
    match decode_lent(bytes) {
        Ok(packet) => Ok(packet),
        Err(fault) => Err(MonitorFault::Packet(fault)),
    }
}
