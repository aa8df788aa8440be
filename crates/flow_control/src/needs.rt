//! What a packet takes of the credits.
ghost use Rattle.std.specs.Prelude.{◌≡◌, ◌≤◌};
ghost use Rattle.flow_control.specs.Needs as spec;

use dllp_core::Class;
use tlp_core::{Kind, Tlp};

/// What a packet takes of the credits of one class (section 2.6.1).
#[derive(Clone, Copy, Debug, PartialEq)]
pub struct Need {
    pub class: Class,
    /// In header units: 1 for each packet.
    pub header: u8,
    /// In data units of 16 bytes.
    pub units: u16,
}

/// The class of each kind of packet (section 2.4).
pub fn class_of(kind: Kind) -> Class
    ensures { result ≡ spec.class_of kind }
{
    match kind {
        Kind::MemoryWrite => Class::Posted,
        Kind::MemoryRead | Kind::FetchAdd | Kind::Swap | Kind::Cas => Class::NonPosted,
        Kind::Completion | Kind::CompletionData => Class::Completion,
    }
}

/// How many data units hold so many bytes.
fn units_of(bytes: u16) -> u16
    ensures { result ≡ spec.units_of bytes }
{
    bytes.div_ceil(16)
}

/// What a packet takes: one header of its class, and its payload in data units.
pub fn need_of(tlp: &Tlp) -> Need
    ensures value { result ≡ spec.need_of tlp.now }
    ensures class { result.class ≡ spec.class_of tlp.now.kind }
    ensures header { result.header ≡ 1 }
    ensures units { result.units ≤ 8 }
{
    let units = match tlp.kind {
        Kind::MemoryRead | Kind::Completion => 0,
        _ => units_of(tlp.payload.len() as u16),
    };
    Need {
        class: class_of(tlp.kind),
        header: 1,
        units,
    }
}

impl Need {
    /// What a completion takes whose payload has so many bytes, 0 for one without data.
    pub fn completion(bytes: u16) -> Need
        ensures { result ≡ spec.completion_need bytes }
    {
        Need {
            class: Class::Completion,
            header: 1,
            units: units_of(bytes),
        }
    }
}
