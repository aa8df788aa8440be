//! One register of 32 bits, and the table.
ghost use Rattle.std.specs.Prelude.{◌≡◌, ◌<◌};
ghost use Rattle.config_core.specs.Registers as spec;

use crate::setup::Setup;

/// A register of 32 bits: what it is after a reset, and which of its bits software changes.
#[derive(Clone, Copy)]
pub struct Register {
    pub reset: u32,
    /// The bits that a write sets.
    pub written: u32,
    /// The bits that a 1 clears.
    pub cleared: u32,
}

/// The bits of the bytes that are enabled.
fn lanes(enables: u8) -> u32
    requires { enables < 16 }
    ensures { result ≡ spec.lanes enables }
{
    let enables = u32::from(enables);
    enables % 2 * 0xFF
        + enables / 2 % 2 * 0xFF00
        + enables / 4 % 2 * 0xFF_0000
        + enables / 8 % 2 * 0xFF00_0000
}

impl Register {
    /// The value after a write.
    pub(crate) fn after_write(self, enables: u8, new: u32, old: u32) -> u32
        requires { enables < 16 }
        ensures { result ≡ spec.after_write self enables new old }
    {
        let open = lanes(enables);
        let set = self.written & open;
        let gone = new & (self.cleared & open);
        (old & !(set | gone)) | (new & set)
    }
}

fn row(reset: u32, written: u32, cleared: u32) -> Register
    ensures { result ≡ spec.row reset written cleared }
{
    Register {
        reset,
        written,
        cleared,
    }
}

/// The register at that offset. Where there is none, it reads 0 and a write changes nothing.
pub fn register_at(setup: Setup, offset: u16) -> Register
    ensures { result ≡ spec.register_at setup offset }
{
    match offset {
        0x000 | 0x02C => row(setup.identity(), 0, 0),
        0x004 => row(0x0010_0000, 0x0000_0142, 0xF900_0000),
        0x008 => row(0x0500_0001, 0, 0),
        0x00C | 0x03C => row(0, 0x0000_00FF, 0),
        0x010 => row(0x0000_000C, setup.mask(), 0),
        0x014 => row(0, 0xFFFF_FFFF, 0),
        0x034 => row(0x0000_0040, 0, 0),
        0x040 => row(0x0003_5001, 0, 0),
        0x044 => row(0x0000_0008, 0x0000_0003, 0),
        0x050 => row(0x0002_0010, 0, 0),
        0x054 => row(0x0000_8000, 0, 0),
        0x058 => row(0, 0x0000_000F, 0x000F_0000),
        0x05C => row(0x0040_0011, 0, 0),
        0x060 => row(0x0011_0000, 0x0000_00C3, 0),
        0x074 => row(0x0000_0380, 0, 0),
        0x07C => row(0x0000_0002, 0, 0),
        _ => row(0, 0, 0),
    }
}
