//! What a device is made with.
ghost use Rattle.std.specs.Prelude.{◌≡◌, ◌+◌, ◌-◌, ◌*◌, ◌^◌, IfNone, IfSome, true, false};
ghost use Rattle.config_core.specs.SetupView.{is_size};

use std::marker::Model;

/// The size of a device's memory and the IDs that it says. The size is a power of two, from 4096 to 1,048,576 bytes.
#[derive(Clone, Copy)]
pub struct Setup {
    size: u32,
    vendor: u16,
    device: u16,
}

impl Model for Setup {
    ghost use Rattle.std.specs.Prelude.{◌≡◌, true};
    ghost use Rattle.config_core.specs.SetupView.{SetupView, is_size};

    ghost Value = { SetupView };

    ghost view = { λ s. record { size = s.size; vendor = s.vendor; device = s.device } };

    ghost invariant = { λ s. is_size s.size ≡ true };

    ghost inverse = { λ s. record { size = s.size; vendor = s.vendor; device = s.device } };
}

impl Setup {
    /// A memory of that size in bytes, and a Vendor ID and a Device ID; none if a memory can't have that size.
    pub fn new(size: u32, vendor: u16, device: u16) -> Option<Setup>
        ensures some { IfSome result (λ s. s ≡ record { size = size; vendor = vendor; device = device }) }
        ensures none { IfNone result (is_size size ≡ false) }
    {
        match size {
            4096 | 8192 | 16384 | 32768 | 65536 | 131_072 | 262_144 | 524_288 | 1_048_576 => {
                Some(Setup {
                    size,
                    vendor,
                    device,
                })
            }
            _ => None,
        }
    }

    /// The size of the memory, in bytes.
    pub fn size(self) -> u32
        ensures value { result ≡ self.size }
        ensures right { is_size result ≡ true }
    {
        self.size
    }

    /// The Vendor ID in the low half, the Device ID above it.
    pub(crate) fn identity(self) -> u32
        ensures { result ≡ self.device * 65536 + self.vendor }
    {
        u32::from(self.device) * 65536 + u32::from(self.vendor)
    }

    /// The bits of a base address that are below the size are 0: a mask of the others, in the low 32 bits.
    pub(crate) fn mask(self) -> u32
        ensures { result ≡ 2 ^ 32 - self.size }
    {
        0xFFFF_FFFF - (self.size - 1)
    }
}
