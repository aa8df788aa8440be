//! Checks of packets and DLLPs by their CRCs.
ghost use Rattle.std.specs.Prelude.{◌≡◌};
ghost use Rattle.link_crc.specs.Checks.{lcrc_check_of, dllp_check_of, check_if, passed, framed};

use crate::{dllp_crc, lcrc};

/// The result of a packet's check.
#[derive(Clone, Copy, Debug, PartialEq)]
pub enum LcrcCheck {
    /// The LCRC is that of the packet.
    Good,
    /// It is neither that nor its complement, or the packet has fewer than four bytes.
    Failed,
    /// It is the complement, as in a packet that its sender nullified. Without EDB behind it that is a failed check, since wrong
    /// bits can also turn an LCRC into its complement.
    Nullified,
}

/// The result of the check of what arrived: a DLLP, or a packet that isn't nullified.
#[derive(Clone, Copy, Debug, PartialEq)]
pub enum Check {
    /// The CRC is that of the bytes.
    Good,
    /// It isn't.
    Failed,
}

/// How a packet's framing ends.
#[derive(Clone, Copy)]
pub enum Framing {
    /// With END.
    End,
    /// With EDB: its sender nullified it.
    Edb,
}

impl Check {
    /// Whether it is good.
    pub fn passed(self) -> bool
        ensures { result ≡ passed self }
    {
        match self {
            Check::Good => true,
            Check::Failed => false,
        }
    }

    /// The check that passed, or not.
    pub fn of(passed: bool) -> Check
        ensures { result ≡ check_if passed }
    {
        if passed { Check::Good } else { Check::Failed }
    }
}

impl LcrcCheck {
    /// The check of the packet that ends so. None if it is nullified: then it is dropped without a Nak. EDB behind any other LCRC, and
    /// an inverted LCRC without EDB, are a failed check.
    pub fn framed(self, framing: Framing) -> Option<Check>
        ensures { result ≡ framed self framing }
    {
        match (self, framing) {
            (LcrcCheck::Good, Framing::End) => Some(Check::Good),
            (LcrcCheck::Nullified, Framing::Edb) => None,
            _ => Some(Check::Failed),
        }
    }
}

/// Checks a packet: its last four bytes are the LCRC of those before them.
pub fn check_packet(packet: &[u8]) -> LcrcCheck
    ensures { result ≡ lcrc_check_of packet.now }
{
    if packet.len() < 4 {
        return LcrcCheck::Failed;
    }
    let end = packet.len() - 4;
    let field = u32::from_be_bytes([
        packet[end],
        packet[end + 1],
        packet[end + 2],
        packet[end + 3],
    ]);
    let lcrc = lcrc(&packet[..end]);
    if field == lcrc {
        LcrcCheck::Good
    } else if field == lcrc ^ 0xFFFF_FFFF {
        LcrcCheck::Nullified
    } else {
        LcrcCheck::Failed
    }
}

/// Checks a DLLP: bytes 4 and 5 are the CRC of bytes 0 to 3.
pub fn check_dllp(dllp: [u8; 6]) -> Check
    ensures { result ≡ dllp_check_of dllp }
{
    let crc = dllp_crc([dllp[0], dllp[1], dllp[2], dllp[3]]);
    if u16::from_be_bytes([dllp[4], dllp[5]]) == crc {
        Check::Good
    } else {
        Check::Failed
    }
}
