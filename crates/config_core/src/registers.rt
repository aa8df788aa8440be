//! The registers that change.
ghost use Rattle.std.specs.Prelude.{◌≡◌, ◌<◌, ◌+◌, ◌*◌, ◌/◌, ◌^◌};
ghost use Rattle.config_core.specs.Registers as spec;

use crate::register::register_at;
use crate::setup::Setup;
use std::marker::Model;

/// An error that Device Status reports, at 058h (section 7.5.3.5): bit 19 is Unsupported Request Detected, 18 Fatal, 17
/// Non-Fatal and 16 Correctable Error Detected. An advisory error is told as a correctable one (section 6.2.3.2.4).
#[derive(Clone, Copy)]
pub enum Noted {
    /// A non-posted request that the device doesn't support, which is completed so: bits 19 and 16, as it is advisory.
    Refused,
    /// A posted request or a message that the device doesn't support: bits 19 and 17.
    Unclaimed,
    /// A completion that nobody asked for: bit 16, as it is advisory.
    Unexpected,
    /// A poisoned non-posted request, which is completed as not supported: bit 16, as it is advisory.
    Poisoned,
    /// Poisoned data that is dropped: bit 17.
    Dropped,
    /// A malformed packet: bit 18.
    Fatal,
}

impl Noted {
    /// The bits of 058h that it sets.
    pub fn bits(self) -> u32
        ensures value { result ≡ spec.device_bits self }
        ensures range { result < 2 ^ 32 }
    {
        match self {
            Noted::Refused => 0x0009_0000,
            Noted::Unclaimed => 0x000A_0000,
            Noted::Unexpected | Noted::Poisoned => 0x0001_0000,
            Noted::Dropped => 0x0002_0000,
            Noted::Fatal => 0x0004_0000,
        }
    }
}

/// The values of the registers that change. The others are those of the table.
#[derive(Clone, Copy)]
pub struct Registers {
    setup: Setup,
    command: u32,
    cache_line: u32,
    bar_low: u32,
    bar_high: u32,
    interrupt: u32,
    power: u32,
    device: u32,
    link: u32,
}

impl Model for Registers {
    ghost use Rattle.config_core.specs.RegistersView.{RegistersView};

    ghost Value = { RegistersView };

    ghost view = { λ r. record {
      setup = r.setup;
      command = r.command;
      cache_line = r.cache_line;
      bar_low = r.bar_low;
      bar_high = r.bar_high;
      interrupt = r.interrupt;
      power = r.power;
      device = r.device;
      link = r.link;
    } };

    ghost inverse = { λ r. record {
      setup = r.setup;
      command = r.command;
      cache_line = r.cache_line;
      bar_low = r.bar_low;
      bar_high = r.bar_high;
      interrupt = r.interrupt;
      power = r.power;
      device = r.device;
      link = r.link;
    } };
}

/// What a write offers: a PowerState of D1 or D2 isn't taken.
fn offered(offset: u16, new: u32, old: u32) -> u32
    ensures { result ≡ spec.offered offset new old }
{
    if offset == 0x044 && (new % 4 == 1 || new % 4 == 2) {
        old
    } else {
        new
    }
}

/// A base address of its two halves, without the four lowest bits.
fn joined(high: u32, low: u32) -> u64
    ensures { result ≡ high * 2 ^ 32 + low / 16 * 16 }
{
    u64::from(high) * 0x1_0000_0000 + u64::from(low) / 16 * 16
}

impl Registers {
    /// As after a reset.
    pub fn new(setup: Setup) -> Registers
        ensures { result ≡ spec.after_reset setup }
    {
        Registers {
            setup,
            command: register_at(setup, 0x004).reset,
            cache_line: register_at(setup, 0x00C).reset,
            bar_low: register_at(setup, 0x010).reset,
            bar_high: register_at(setup, 0x014).reset,
            interrupt: register_at(setup, 0x03C).reset,
            power: register_at(setup, 0x044).reset,
            device: register_at(setup, 0x058).reset,
            link: register_at(setup, 0x060).reset,
        }
    }

    /// Each register is what it is after a reset.
    pub fn reset(&mut self)
        ensures { self.new ≡ spec.after_reset self.old.setup }
    {
        *self = Registers::new(self.setup);
    }

    /// The register at this offset.
    pub fn read(&self, offset: u16) -> u32
        ensures { result ≡ spec.value self.now offset }
    {
        match offset {
            0x004 => self.command,
            0x00C => self.cache_line,
            0x010 => self.bar_low,
            0x014 => self.bar_high,
            0x03C => self.interrupt,
            0x044 => self.power,
            0x058 => self.device,
            0x060 => self.link,
            _ => register_at(self.setup, offset).reset,
        }
    }

    fn put(&mut self, offset: u16, new: u32)
        ensures { self.new ≡ spec.put self.old offset new }
    {
        match offset {
            0x004 => self.command = new,
            0x00C => self.cache_line = new,
            0x010 => self.bar_low = new,
            0x014 => self.bar_high = new,
            0x03C => self.interrupt = new,
            0x044 => self.power = new,
            0x058 => self.device = new,
            0x060 => self.link = new,
            _ => {}
        }
    }

    /// Writes those bytes of the register at this offset that First DW BE enables, in its low 4 bits.
    pub fn write(&mut self, offset: u16, enables: u8, new: u32)
        requires { enables < 16 }
        ensures { self.new ≡ spec.written self.old offset enables new }
    {
        let old = self.read(offset);
        let register = register_at(self.setup, offset);
        self.put(
            offset,
            register.after_write(enables, offered(offset, new, old), old),
        );
    }

    /// Reports an error in its bits.
    pub fn note(&mut self, error: Noted)
        ensures { self.new ≡ spec.after_error self.old error }
    {
        self.device |= error.bits();
    }

    /// Reports that poisoned data came: Detected Parity Error, bit 31 of 004h (section 7.5.1.1.4).
    pub fn note_poison(&mut self)
        ensures { self.new ≡ spec.after_poison self.old }
    {
        self.command |= 0x8000_0000;
    }

    /// Whether the memory answers: Memory Space Enable is 1, and PowerState is D0.
    fn is_on(&self) -> bool
        ensures { result ≡ spec.is_on self.now }
    {
        self.command / 2 % 2 == 1 && self.power % 4 == 0
    }

    fn base(&self) -> u64
        ensures { result ≡ spec.base_of self.now }
    {
        joined(self.bar_high, self.bar_low)
    }

    /// Where in the memory a place of so many bytes begins, if the memory answers and the BAR claims all of it.
    pub fn claims(&self, address: u64, bytes: u32) -> Option<u64>
        ensures { result ≡ spec.claimed self.now address bytes }
    {
        let base = self.base();
        let size = self.setup.size();
        if !self.is_on() || address < base || bytes > size {
            return None;
        }
        if address - base > u64::from(size - bytes) {
            return None;
        }
        Some(address - base)
    }
}
