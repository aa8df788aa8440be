//! Bytes to configuration requests.
ghost use Rattle.std.specs.Prelude.{◌≡◌, ◌<◌, ◌≤◌, length, slice_index, IfOk, IfErr, IfNone};
ghost use Rattle.config_core.specs.declared.request.CfgRequest.{CfgRequest};
ghost use Rattle.config_core.specs.Layout as spec;
ghost use Rattle.config_core.specs.Layout.{Spells};
ghost use Rattle.config_core.specs.Canonical.{FitsFields};

use crate::fault::CfgFault;
use crate::request::CfgRequest;
use byteorder::{BigEndian, ByteOrder, LittleEndian};

fn is_kind(code: u8) -> bool
    ensures { result ≡ spec.is_kind code }
{
    matches!(code, 0x04 | 0x05 | 0x44 | 0x45)
}

fn is_write(code: u8) -> bool
    ensures { result ≡ spec.is_write code }
{
    matches!(code, 0x44 | 0x45)
}

fn is_type_1(code: u8) -> bool
    ensures { result ≡ spec.is_type_1 code }
{
    matches!(code, 0x05 | 0x45)
}

/// How many bytes a request has.
fn size_of(code: u8) -> usize
    ensures { result ≡ spec.size_of code }
{
    if is_write(code) { 16 } else { 12 }
}

fn is_mismatched(bytes: &[u8]) -> bool
    requires { 12 ≤ length bytes.now }
    ensures { result ≡ spec.is_mismatched bytes.now }
{
    bytes.len() != size_of(bytes[0]) || bytes[2] % 4 != 0 || bytes[3] != 1
}

fn has_fields(bytes: &[u8]) -> bool
    requires { 12 ≤ length bytes.now }
    ensures { result ≡ spec.has_fields bytes.now }
{
    bytes[1] != 0 || bytes[2] / 4 % 16 != 0 || bytes[7] / 16 != 0
}

/// The first fault.
fn fault_of(bytes: &[u8]) -> Option<CfgFault>
    ensures value { result ≡ spec.first_fault bytes.now }
    ensures whole { IfNone result (12 ≤ length bytes.now) }
    ensures size { IfNone result (length bytes.now ≡ spec.size_of (slice_index bytes.now 0)) }
{
    if bytes.len() < 12 {
        return Some(CfgFault::Short);
    }
    if !is_kind(bytes[0]) {
        return Some(CfgFault::Kind);
    }
    if bytes[2] / 128 == 1 {
        return Some(CfgFault::Digest);
    }
    if bytes[2] / 64 % 2 == 1 {
        return Some(CfgFault::Poisoned);
    }
    if is_mismatched(bytes) {
        return Some(CfgFault::LengthMismatch);
    }
    if has_fields(bytes) {
        return Some(CfgFault::Fields);
    }
    None
}

/// What is written; 0 in a read.
fn value_of(bytes: &[u8]) -> u32
    requires { length bytes.now ≡ spec.size_of (slice_index bytes.now 0) }
    ensures { result ≡ spec.value_of bytes.now }
{
    if is_write(bytes[0]) {
        LittleEndian::read_u32(&bytes[12..])
    } else {
        0
    }
}

/// The request that the bytes spell, or the first of their faults, in the order of [`CfgFault`]. Takes no memory.
#[tactic(auto, using(crate::proofs::Reading::spelled, crate::proofs::Reading::only, crate::proofs::Reading::fault, crate::proofs::Canon::what_is_read_fits))]
pub fn decode(bytes: &[u8]) -> Result<CfgRequest, CfgFault>
    ensures reading { result ≡ spec.reading bytes.now }
    ensures spelled { IfOk result (λ r. Spells bytes.now r) }
    ensures only { (r : CfgRequest) → Spells bytes.now r → result ≡ Ok r }
    ensures fault { IfErr result (λ f. spec.first_fault bytes.now ≡ Some f) }
    ensures fits { IfOk result FitsFields }
{
    if let Some(fault) = fault_of(bytes) {
        return Err(fault);
    }
    Ok(CfgRequest {
        writes: is_write(bytes[0]),
        is_type_1: is_type_1(bytes[0]),
        requester: BigEndian::read_u16(&bytes[4..]),
        tag: bytes[6],
        bus: bytes[8],
        device: bytes[9] / 8,
        function: bytes[9] % 8,
        register: u16::from(bytes[10] % 16) * 256 + u16::from(bytes[11] / 4 * 4),
        enables: bytes[7] % 16,
        value: value_of(bytes),
    })
}
