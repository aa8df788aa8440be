//! Why bytes are no packet, or an operation makes none.
ghost use Rattle.std.specs.Prelude.{◌≡◌, Some, IfSome};
ghost use Rattle.tlp_core.specs.declared.fault.TlpFault as faults;
ghost use Rattle.tlp_core.specs.Fault.{number_of, name_of};

use std::error::Error;
use std::fmt;

/// The faults of a packet's bytes, in the order in which they are tested: the first that holds is
/// told. An operation has the last five alone, but for `PayloadTooLong`.
#[derive(Clone, Copy, Debug, PartialEq)]
pub enum TlpFault {
    /// Fewer bytes than the header has: 12, or 16 where bit 5 of byte 0 is 1.
    Short,
    /// Fmt is 100b: a TLP prefix (section 2.2.1).
    Prefix,
    /// Fmt and Type name no kind of this profile.
    Kind,
    /// T9 or T8 is 1: a 10-bit tag.
    TenBitTag,
    /// LN or TH is 1.
    Hints,
    /// TD is 1: a TLP digest (section 2.2.3).
    Digest,
    /// EP is 1: a poisoned packet (section 2.7.2).
    Poisoned,
    /// AT is not 0: a translated address.
    Translated,
    /// The bytes behind the header are not those that Length promises. For an operation: a read of
    /// 0 or more than 1024 DW, or a write of no bytes or of a part of a DW.
    LengthMismatch,
    /// More bytes of payload than [`MAX_PAYLOAD`](crate::MAX_PAYLOAD), the Max_Payload_Size of this profile.
    PayloadTooLong,
    /// Byte enables against section 2.2.5.
    ByteEnables,
    /// The Length of an AtomicOp, or for an operation its width or operands (section 2.2.7).
    OperandSize,
    /// An address that is no multiple of the operand's size, or for a read or write operation of 4.
    Unaligned,
}

impl fmt::Display for TlpFault {
    fn fmt<W: fmt::Write>(&self, f: &mut fmt::Formatter<W>) -> fmt::Result {
        f.write_str(self.name())
    }
}

impl Error for TlpFault {}

impl TlpFault {
    /// The number under which the fault is told, 1 to 13 in the order of the tests.
    pub fn number(self) -> u8
        ensures { result ≡ number_of self }
    {
        match self {
            TlpFault::Short => 1,
            TlpFault::Prefix => 2,
            TlpFault::Kind => 3,
            TlpFault::TenBitTag => 4,
            TlpFault::Hints => 5,
            TlpFault::Digest => 6,
            TlpFault::Poisoned => 7,
            TlpFault::Translated => 8,
            TlpFault::LengthMismatch => 9,
            TlpFault::PayloadTooLong => 10,
            TlpFault::ByteEnables => 11,
            TlpFault::OperandSize => 12,
            TlpFault::Unaligned => 13,
        }
    }

    /// The fault that is told under that number, none for 0 and for more than 13.
    pub fn of_number(number: u32) -> Option<TlpFault>
        ensures some { IfSome result (λ f. number_of f ≡ number) }
        ensures all { (f : faults.TlpFault) → number ≡ number_of f → result ≡ Some f }
    {
        match number {
            1 => Some(TlpFault::Short),
            2 => Some(TlpFault::Prefix),
            3 => Some(TlpFault::Kind),
            4 => Some(TlpFault::TenBitTag),
            5 => Some(TlpFault::Hints),
            6 => Some(TlpFault::Digest),
            7 => Some(TlpFault::Poisoned),
            8 => Some(TlpFault::Translated),
            9 => Some(TlpFault::LengthMismatch),
            10 => Some(TlpFault::PayloadTooLong),
            11 => Some(TlpFault::ByteEnables),
            12 => Some(TlpFault::OperandSize),
            13 => Some(TlpFault::Unaligned),
            _ => None,
        }
    }

    /// The name under which the fault is told, as `Display` writes it.
    pub fn name(self) -> &'static str
        ensures { result.now ≡ name_of self }
    {
        match self {
            TlpFault::Short => "Short",
            TlpFault::Prefix => "Prefix",
            TlpFault::Kind => "Kind",
            TlpFault::TenBitTag => "TenBitTag",
            TlpFault::Hints => "Hints",
            TlpFault::Digest => "Digest",
            TlpFault::Poisoned => "Poisoned",
            TlpFault::Translated => "Translated",
            TlpFault::LengthMismatch => "LengthMismatch",
            TlpFault::PayloadTooLong => "PayloadTooLong",
            TlpFault::ByteEnables => "ByteEnables",
            TlpFault::OperandSize => "OperandSize",
            TlpFault::Unaligned => "Unaligned",
        }
    }
}
