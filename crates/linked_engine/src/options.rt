//! What is asked of a device behind its end of a link.
use crate::credits::FiniteCredits;
use endpoint_engine::EndpointOptions;

/// Which device is made, what it advertises, and how packets and DLLPs stand in lines.
#[derive(Clone, Copy)]
pub struct LinkedOptions {
    pub device: EndpointOptions,
    pub credits: FiniteCredits,
    /// Packets and DLLPs have their CRC behind them, and no word of their check.
    pub has_crc: bool,
}
