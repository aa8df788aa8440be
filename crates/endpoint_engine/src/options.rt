//! What is asked of a device.
use config_core::Setup;

/// Which device is made, and whether it is traced.
#[derive(Clone, Copy)]
pub struct EndpointOptions {
    pub setup: Setup,
    /// Records what the memory does, for the line `trace`.
    pub is_traced: bool,
}
