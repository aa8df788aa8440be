//! Configuration requests to bytes: the one canonical spelling of each.
ghost use Rattle.std.specs.Prelude.{◌≡◌, ◌<◌};
ghost use Rattle.config_core.specs.Layout.{Spells};
ghost use Rattle.config_core.specs.Canonical.{FitsFields, canonical, code_of};

use crate::request::CfgRequest;
use arrayvec::ArrayVec;

/// The most bytes that a configuration request has: a header of 12 and a DW.
pub const MAX_CFG: usize = 16;

/// Fmt and Type.
fn code(request: &CfgRequest) -> u8
    ensures { result ≡ code_of request.now.writes request.now.is_type_1 }
{
    match (request.writes, request.is_type_1) {
        (true, true) => 0x45,
        (true, false) => 0x44,
        (false, true) => 0x05,
        (false, false) => 0x04,
    }
}

/// Fills the buffer with the canonical bytes of the request, whatever it held: zeros in all bits that a reader ignores.
/// Takes no memory.
#[tactic(auto, using(crate::proofs::Canon::spells_canonical))]
pub fn encode(request: &CfgRequest, out: &mut ArrayVec<u8, MAX_CFG>)
    requires { FitsFields request.now }
    ensures bytes { out.new.items ≡ canonical request.now }
    ensures spelled { Spells (canonical request.now) request.now }
{
    out.clear();
    let _ = out.try_extend_from_slice(&[
        code(request),
        0,
        0,
        1,
        (request.requester / 256) as u8,
        (request.requester % 256) as u8,
        request.tag,
        request.enables,
        request.bus,
        request.device * 8 + request.function,
        (request.register / 256) as u8,
        (request.register % 256) as u8,
    ]);
    if request.writes {
        let _ = out.try_extend_from_slice(&request.value.to_le_bytes());
    }
}
