//! Checks of what arrived.
ghost use Rattle.std.specs.Prelude.{◌≡◌};
ghost use Rattle.c_packets.specs.Crcs.{packet_verdict, dllp_verdict};

use link_crc::{Check, LcrcCheck};

/// The check of a packet with its LCRC: 0 good, 1 failed, 2 nullified.
pub fn check_packet(packet: &[u8]) -> u8
    ensures { result ≡ packet_verdict packet.now }
{
    match link_crc::check_packet(packet) {
        LcrcCheck::Good => 0,
        LcrcCheck::Failed => 1,
        LcrcCheck::Nullified => 2,
    }
}

/// The check of a DLLP with its CRC: 0 good, 1 failed; failed if it hasn't exactly six bytes.
pub fn check_dllp(dllp: &[u8]) -> u8
    ensures { result ≡ dllp_verdict dllp.now }
{
    if dllp.len() != 6 {
        return 1;
    }
    match link_crc::check_dllp([dllp[0], dllp[1], dllp[2], dllp[3], dllp[4], dllp[5]]) {
        Check::Good => 0,
        Check::Failed => 1,
    }
}
