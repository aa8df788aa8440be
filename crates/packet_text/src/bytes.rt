//! Packets of all kinds and their bytes.
ghost use Rattle.std.specs.Prelude.{◌≡◌, IfOk};
ghost use Rattle.config_core.specs.Layout as configuration;
ghost use Rattle.packet_text.specs.Packets as packets;

use crate::fault::BytesFault;
use crate::packet::Packet;
use arrayvec::ArrayVec;
use config_core::CfgFault;
use tlp_core::{MAX_TLP, TlpFault};

/// The packet that bytes of no kind of TLP spell: a configuration request.
pub(crate) fn of_other(bytes: &[u8]) -> Result<Packet, BytesFault>
    ensures value { result ≡ packets.of_other (configuration.reading bytes.now) }
    ensures in_range { IfOk result packets.FitsFields }
{
    match config_core::decode(bytes) {
        Ok(request) => Ok(Packet::Configuration(request)),
        Err(CfgFault::Kind) => Err(BytesFault::Tlp(TlpFault::Kind)),
        Err(fault) => Err(BytesFault::Configuration(fault)),
    }
}

/// The packet that the bytes spell, or the first of their faults: four bytes are read as a DLLP, and
/// any other number as a TLP or a configuration request. Takes no memory.
pub fn decode(bytes: &[u8]) -> Result<Packet, BytesFault>
    ensures value { result ≡ packets.reading bytes.now }
    ensures in_range { IfOk result packets.FitsFields }
{
    if bytes.len() == 4 {
        match dllp_core::decode(bytes) {
            Ok(dllp) => Ok(Packet::Dllp(dllp)),
            Err(fault) => Err(BytesFault::Dllp(fault)),
        }
    } else {
        match tlp_core::decode(bytes) {
            Ok(tlp) => Ok(Packet::Tlp(tlp)),
            Err(TlpFault::Kind) => of_other(bytes),
            Err(fault) => Err(BytesFault::Tlp(fault)),
        }
    }
}

/// Fills the buffer with the canonical bytes of the packet, whatever it held. The data credits of an
/// UpdateFC are below 4096, and a configuration request's numbers fit their fields. Takes no memory.
pub fn encode(packet: &Packet, out: &mut ArrayVec<u8, MAX_TLP>)
    requires { packets.FitsFields packet.now }
    ensures { out.new.items ≡ packets.canonical packet.now }
{
    match packet {
        Packet::Tlp(tlp) => tlp_core::encode(tlp, out),
        Packet::Configuration(request) => {
            let mut bytes = ArrayVec::new();
            config_core::encode(request, &mut bytes);
            out.clear();
            let _ = out.try_extend_from_slice(&bytes);
        }
        Packet::Dllp(dllp) => {
            out.clear();
            let _ = out.try_extend_from_slice(&dllp_core::encode(dllp));
        }
    }
}
