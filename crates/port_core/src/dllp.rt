//! DLLPs of a link with one virtual channel: those of `dllp_core`, and InitFC1 and InitFC2 (sections 3.4.1 and 3.5.1).
ghost use Rattle.std.specs.Prelude.{◌≡◌, ◌<◌, length};
ghost use Rattle.port_core.specs.Dllps as spec;

use crate::init::FirstCredits;
use dllp_core::{Class, Dllp, DllpFault};

/// Which of the two.
#[derive(Clone, Copy, PartialEq)]
pub enum InitStage {
    /// InitFC1, of FC_INIT1.
    First,
    /// InitFC2, of FC_INIT2.
    Second,
}

/// A DLLP of a link.
#[derive(Clone, Copy, PartialEq)]
pub enum LinkDllp {
    /// The credits of a class that a port advertises. The units are below 4096.
    Init(InitStage, Class, FirstCredits),
    /// An Ack, a Nak or an UpdateFC.
    Other(Dllp),
}

/// The DLLP Type of an InitFC.
fn init_code(stage: InitStage, class: Class) -> u8
    ensures { result ≡ spec.init_code stage class }
{
    let first = match class {
        Class::Posted => 0x40,
        Class::NonPosted => 0x50,
        Class::Completion => 0x60,
    };
    match stage {
        InitStage::First => first,
        InitStage::Second => first + 0x80,
    }
}

/// What an InitFC's byte 0 says.
fn init_kind_at(code: u8) -> Option<(InitStage, Class)>
    ensures { result ≡ spec.init_kind_of code }
{
    match code {
        0x40 => Some((InitStage::First, Class::Posted)),
        0x50 => Some((InitStage::First, Class::NonPosted)),
        0x60 => Some((InitStage::First, Class::Completion)),
        0xC0 => Some((InitStage::Second, Class::Posted)),
        0xD0 => Some((InitStage::Second, Class::NonPosted)),
        0xE0 => Some((InitStage::Second, Class::Completion)),
        _ => None,
    }
}

/// The credits of an InitFC.
fn credits_at(bytes: &[u8]) -> Result<FirstCredits, DllpFault>
    requires { length bytes.now ≡ 4 }
    ensures { result ≡ spec.credits_in bytes.now }
{
    if bytes[1] / 64 != 0 || bytes[2] / 16 % 4 != 0 {
        return Err(DllpFault::Scaled);
    }
    Ok(FirstCredits {
        header: bytes[1] % 64 * 4 + bytes[2] / 64,
        units: u16::from(bytes[2]) % 16 * 256 + u16::from(bytes[3]),
    })
}

/// The DLLP that the bytes spell, or the first fault, in the order of [`DllpFault`].
pub fn decode(bytes: &[u8]) -> Result<LinkDllp, DllpFault>
    ensures { result ≡ spec.link_reading bytes.now }
{
    if bytes.len() != 4 {
        return Err(DllpFault::Short);
    }
    match init_kind_at(bytes[0]) {
        Some((stage, class)) => match credits_at(bytes) {
            Ok(first) => Ok(LinkDllp::Init(stage, class, first)),
            Err(fault) => Err(fault),
        },
        None => match dllp_core::decode(bytes) {
            Ok(dllp) => Ok(LinkDllp::Other(dllp)),
            Err(fault) => Err(fault),
        },
    }
}

/// The canonical bytes: all that a receiver ignores is 0.
pub fn encode(dllp: &LinkDllp) -> [u8; 4]
    requires { spec.HasFields dllp.now }
    ensures { result ≡ spec.link_bytes dllp.now }
{
    match *dllp {
        LinkDllp::Init(stage, class, first) => [
            init_code(stage, class),
            first.header / 4,
            first.header % 4 * 64 + (first.units / 256) as u8,
            (first.units % 256) as u8,
        ],
        LinkDllp::Other(other) => dllp_core::encode(&other),
    }
}
