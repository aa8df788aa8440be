//! Why no fabric was made.
ghost use Rattle.std.specs.Prelude.{◌≡◌, OnOk, OnErr};

use fabric_core::ConfigFault;
use std::alloc::AllocError;

/// Out of memory is none of a configuration's faults.
pub(crate) fn is_no_memory(fault: ConfigFault) -> Result<(), AllocError>
    ensures ok { OnOk result (fault ≡ ConfigFault.Memory → ⊥) }
    ensures err { OnErr result (fault ≡ ConfigFault.Memory) }
{
    match fault {
        ConfigFault::Memory => Err(AllocError),
        _ => Ok(()),
    }
}
