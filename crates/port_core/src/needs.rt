//! What a TLP of any kind takes of the credits.
ghost use Rattle.std.specs.Prelude.{◌≡◌, ◌≤◌, length};
ghost use Rattle.tlp_core.specs.Layout.{dw_count};
ghost use Rattle.flow_control.specs.Needs as known;
ghost use Rattle.port_core.specs.Needs as spec;

use dllp_core::Class;
use flow_control::{Need, class_of};
use tlp_core::{Kind, TlpRef};

/// Length in DW.
fn dw_at(bytes: &[u8]) -> u16
    requires { 4 ≤ length bytes.now }
    ensures { result ≡ dw_count bytes.now }
{
    let dw = u16::from(bytes[2] % 4) * 256 + u16::from(bytes[3]);
    if dw == 0 { 1024 } else { dw }
}

/// What the bytes of a TLP take of the credits, by Fmt, Type and Length: one header of its class, and its payload in
/// data units. None for fewer than 4 bytes, and for a TLP with a prefix or of an undefined Fmt.
pub fn need_at(bytes: &[u8]) -> Option<Need>
    ensures { result ≡ spec.need_at bytes.now }
{
    if bytes.len() < 4 || bytes[0] / 32 > 3 {
        return None;
    }
    let with_data = bytes[0] / 32 / 2 % 2 == 1;
    let kind = bytes[0] % 32;
    let class = if kind == 10 || kind == 11 {
        Class::Completion
    } else if kind / 8 == 2 || kind == 0 && with_data {
        Class::Posted
    } else {
        Class::NonPosted
    };
    let units = if with_data { (dw_at(bytes) + 3) / 4 } else { 0 };
    Some(Need {
        class,
        header: 1,
        units,
    })
}

/// What a packet that borrows its payload takes.
pub fn need_of_lent(tlp: &TlpRef<'_>) -> Need
    ensures { result ≡ known.need_of tlp.now }
{
    let units = match tlp.header.kind {
        Kind::MemoryRead | Kind::Completion => 0,
        _ => (tlp.payload.len() as u16).div_ceil(16),
    };
    Need {
        class: class_of(tlp.header.kind),
        header: 1,
        units,
    }
}
