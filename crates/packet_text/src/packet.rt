//! A packet of any kind.

use config_core::CfgRequest;
use dllp_core::Dllp;
use tlp_core::Tlp;

/// A packet of the transaction layer or of the data link layer.
#[derive(Drop)]
pub enum Packet {
    /// A memory request, an AtomicOp or a completion.
    Tlp(Tlp),
    /// A TLP that reads or writes a configuration register.
    Configuration(CfgRequest),
    Dllp(Dllp),
}
