//! DLLPs to bytes.
ghost use Rattle.std.specs.Prelude.{◌≡◌, ◌/◌, ◌%◌, ◌<◌, [], ◌∷◌};
ghost use Rattle.dllp_core.specs.Layout.{update_code, canonical, Spells, FitsDataFC};

use crate::packet::{Class, Dllp};
use seq12::Seq12;

/// Byte 0 of an UpdateFC.
fn code_of(class: Class) -> u8
    ensures { result ≡ update_code class }
{
    match class {
        Class::Posted => 0x80,
        Class::NonPosted => 0x90,
        Class::Completion => 0xA0,
    }
}

/// An Ack or a Nak.
fn numbered(code: u8, number: Seq12) -> [u8; 4]
    ensures bytes { result ≡ code ∷ 0 ∷ (number / 256) ∷ (number % 256) ∷ [] }
    ensures in_range { number < 4096 }
{
    let number = number.value();
    [code, 0, (number / 256) as u8, (number % 256) as u8]
}

/// The canonical bytes: all that a receiver ignores is 0.
pub fn encode(dllp: &Dllp) -> [u8; 4]
    requires { FitsDataFC dllp.now }
    ensures value { result ≡ canonical dllp.now }
    ensures spelled { Spells result dllp.now }
{
    match *dllp {
        Dllp::Ack(number) => numbered(0x00, number),
        Dllp::Nak(number) => numbered(0x10, number),
        Dllp::Update(class, header, data) => [
            code_of(class),
            header / 4,
            header % 4 * 64 + (data / 256) as u8,
            (data % 256) as u8,
        ],
    }
}
