//! Bytes to DLLPs.
ghost use Rattle.std.specs.Prelude.{◌≡◌, ◌+◌, ◌*◌, ◌/◌, ◌%◌, ◌<◌, ◌||◌, length, IfOk, IfErr};
ghost use Rattle.dllp_core.specs.declared.packet.Dllp.{Dllp};
ghost use Rattle.dllp_core.specs.Layout.{kind_of, low_twelve, Spells, FitsFields};
ghost use Rattle.dllp_core.specs.Faults.{first_fault, reading};

use crate::fault::DllpFault;
use crate::packet::{Class, Dllp, Kind};
use seq12::Seq12;

/// What byte 0 says.
fn kind_at(code: u8) -> Option<Kind>
    ensures { result ≡ kind_of code }
{
    match code {
        0x00 => Some(Kind::Ack),
        0x10 => Some(Kind::Nak),
        0x80 => Some(Kind::Update(Class::Posted)),
        0x90 => Some(Kind::Update(Class::NonPosted)),
        0xA0 => Some(Kind::Update(Class::Completion)),
        _ => None,
    }
}

/// The low 12 bits of bytes 2 and 3.
fn low_twelve_at(bytes: &[u8]) -> u16
    requires { length bytes.now ≡ 4 }
    ensures value { result ≡ low_twelve bytes.now }
    ensures in_range { result < 4096 }
{
    u16::from(bytes[2]) % 16 * 256 + u16::from(bytes[3])
}

/// The DLLP that the bytes spell, or why there is none.
pub fn decode(bytes: &[u8]) -> Result<Dllp, DllpFault>
    ensures value { result ≡ reading bytes.now }
    ensures spelled { IfOk result (λ d. Spells bytes.now d) }
    ensures only { (d : Dllp) → Spells bytes.now d → result ≡ Ok d }
    ensures fault { IfErr result (λ f. first_fault bytes.now ≡ Some f) }
    ensures in_range { IfOk result FitsFields }
{
    if bytes.len() != 4 {
        return Err(DllpFault::Short);
    }
    let Some(kind) = kind_at(bytes[0]) else {
        return Err(DllpFault::Kind);
    };
    let number = low_twelve_at(bytes);
    match kind {
        Kind::Ack => Ok(Dllp::Ack(Seq12::new(number))),
        Kind::Nak => Ok(Dllp::Nak(Seq12::new(number))),
        Kind::Update(class) => {
            if bytes[1] / 64 != 0 || bytes[2] / 16 % 4 != 0 {
                return Err(DllpFault::Scaled);
            }
            Ok(Dllp::Update(class, bytes[1] % 64 * 4 + bytes[2] / 64, number))
        }
    }
}
