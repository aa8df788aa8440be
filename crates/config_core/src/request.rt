//! A configuration request as a value.

/// A configuration request. TC and attributes are 0, and it names one DW.
#[derive(Clone, Copy, PartialEq)]
pub struct CfgRequest {
    /// It writes the register: CfgWr0 or CfgWr1.
    pub writes: bool,
    /// CfgRd1 or CfgWr1, which is for a device below a bridge.
    pub is_type_1: bool,
    /// Requester ID.
    pub requester: u16,
    pub tag: u8,
    pub bus: u8,
    /// 0 to 31.
    pub device: u8,
    /// 0 to 7.
    pub function: u8,
    /// The register's offset in bytes, a multiple of 4 below 4096.
    pub register: u16,
    /// First DW BE, in the low 4 bits.
    pub enables: u8,
    /// What is written; 0 in a read.
    pub value: u32,
}
