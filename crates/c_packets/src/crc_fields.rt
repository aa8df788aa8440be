//! CRCs in the caller's buffer.
ghost use Rattle.std.specs.Prelude.{◌≡◌, IsErr};
ghost use Rattle.c_packets.specs.Crcs.{lcrc_told, dllp_crc_told};

use c_buffer::{Failure, Length, tell};
use link_crc::{dllp_crc, lcrc};

/// Puts the four bytes of a packet's LCRC to the front of `buffer`, in the order in which they are sent, and returns
/// their number. The packet is its sequence number's two bytes and its TLP. `SmallBuffer` for fewer than four bytes, and
/// then the buffer stays as it was.
pub fn tell_lcrc(packet: &[u8], buffer: &mut [u8]) -> Result<Length, Failure>
    ensures outcome { result ≡ (lcrc_told packet.now buffer.old).outcome }
    ensures buffer { buffer.new ≡ (lcrc_told packet.now buffer.old).buffer }
    ensures unchanged { IsErr result → buffer.new ≡ buffer.old }
{
    if buffer.len() < 4 {
        return Err(Failure::SmallBuffer);
    }
    Ok(tell(&lcrc(packet).to_be_bytes(), buffer))
}

/// Puts the two bytes of a DLLP's CRC to the front of `buffer`, in the order in which they are sent, and returns their
/// number. `SmallBuffer` for fewer than two bytes, then the fault 1 for a DLLP that hasn't exactly four bytes, and then
/// the buffer stays as it was.
pub fn tell_dllp_crc(dllp: &[u8], buffer: &mut [u8]) -> Result<Length, Failure>
    ensures outcome { result ≡ (dllp_crc_told dllp.now buffer.old).outcome }
    ensures buffer { buffer.new ≡ (dllp_crc_told dllp.now buffer.old).buffer }
    ensures unchanged { IsErr result → buffer.new ≡ buffer.old }
{
    if buffer.len() < 2 {
        return Err(Failure::SmallBuffer);
    }
    if dllp.len() != 4 {
        return Err(Failure::Fault(1));
    }
    let crc = dllp_crc([dllp[0], dllp[1], dllp[2], dllp[3]]);
    Ok(tell(&crc.to_be_bytes(), buffer))
}
