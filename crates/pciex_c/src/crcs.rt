//! The CRCs of a link.
ghost use Rattle.std.specs.Prelude.{◌≡◌, ◌≤◌};
ghost use Rattle.c_packets.specs.Crcs.{lcrc_told, dllp_crc_told, packet_verdict, dllp_verdict};
ghost use Rattle.pciex_c.specs.Codes.{code_of};

use crate::codes::code;

/// The LCRC of a packet, in the order in which it is sent.
#[unsafe(no_mangle)]
pub extern "C" fn pciex_raw_lcrc(packet: &[u8], buffer: &mut [u8]) -> u32
    ensures code { result ≡ code_of (lcrc_told packet.now buffer.old).outcome }
    ensures buffer { buffer.new ≡ (lcrc_told packet.now buffer.old).buffer }
    ensures unchanged { 1000 ≤ result → buffer.new ≡ buffer.old }
{
    code(c_packets::tell_lcrc(packet, buffer))
}

/// The check of a packet with its LCRC.
#[unsafe(no_mangle)]
pub extern "C" fn pciex_raw_lcrc_check(packet: &[u8]) -> u32
    ensures { result ≡ packet_verdict packet.now }
{
    u32::from(c_packets::check_packet(packet))
}

/// The CRC of a DLLP, in the order in which it is sent.
#[unsafe(no_mangle)]
pub extern "C" fn pciex_raw_dllp_crc(dllp: &[u8], buffer: &mut [u8]) -> u32
    ensures code { result ≡ code_of (dllp_crc_told dllp.now buffer.old).outcome }
    ensures buffer { buffer.new ≡ (dllp_crc_told dllp.now buffer.old).buffer }
    ensures unchanged { 1000 ≤ result → buffer.new ≡ buffer.old }
{
    code(c_packets::tell_dllp_crc(dllp, buffer))
}

/// The check of a DLLP with its CRC.
#[unsafe(no_mangle)]
pub extern "C" fn pciex_raw_dllp_check(dllp: &[u8]) -> u32
    ensures { result ≡ dllp_verdict dllp.now }
{
    u32::from(c_packets::check_dllp(dllp))
}
