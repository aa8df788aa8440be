//! What a TLP is to a device.
use config_core::{CfgFault, CfgRequest, Noted};
use std::marker::Model;
use tlp_core::{MAX_TLP, TlpFault, TlpRef};

/// Transaction Descriptor (section 2.2.6): what a completion repeats of its request.
#[derive(Clone, Copy)]
pub struct Descriptor {
    /// Traffic Class, 0 to 7.
    pub tc: u8,
    /// Attributes, 0 to 7: IDO 4, RO 2, NS 1.
    pub attr: u8,
    /// Requester ID.
    pub requester: u16,
    pub tag: u8,
}

impl Model for Descriptor {
    ghost use Rattle.std.specs.Prelude.{◌<◌};
    ghost use Rattle.endpoint_core.specs.DescriptorView.{DescriptorView};

    ghost Value = { DescriptorView };

    ghost view = { λ d. record { tc = d.tc; attr = d.attr; requester = d.requester; tag = d.tag } };

    ghost invariant = { λ d. (d.tc < 8) × (d.attr < 8) };

    ghost inverse = { λ d. record { tc = d.tc; attr = d.attr; requester = d.requester; tag = d.tag } };
}

/// Why a TLP is malformed.
#[derive(Clone, Copy, PartialEq)]
pub enum Malformed {
    /// A fault of a packet; of I/O requests and messages `Short`, `LengthMismatch` and `PayloadTooLong` alone. Bytes
    /// that are more than any TLP of this device has are `PayloadTooLong`.
    Packet(TlpFault),
    /// A fault of a configuration request.
    Configuration(CfgFault),
    /// A read or a write across a multiple of 4096 (section 2.2.7).
    Boundary,
}

/// What becomes of a TLP.
#[derive(Drop)]
pub enum Received<'a> {
    /// A memory write.
    Posted(TlpRef<'a>),
    /// A memory read or an AtomicOp.
    NonPosted(TlpRef<'a>),
    /// A poisoned memory write.
    PoisonedPosted(TlpRef<'a>),
    /// A poisoned AtomicOp.
    PoisonedNonPosted(TlpRef<'a>),
    /// A configuration request.
    Configuration(CfgRequest),
    /// Another non-posted request that no function of the device supports, or that is poisoned, with the error to report.
    Refused(Descriptor, Noted),
    /// Any other TLP that is not supported or poisoned, with the error to report.
    Unsupported(Noted),
    /// A message without effect.
    Ignored,
    /// A completion: the device has no requests.
    Unexpected,
    /// A malformed TLP.
    Malformed(Malformed),
}

/// Room for a TLP that is read without its digest. What it holds counts for nothing.
#[derive(Drop)]
pub struct PacketRoom {
    pub(crate) bytes: [u8; LONGEST],
}

/// The bytes of the longest TLP, with a digest of 4.
pub(crate) const LONGEST: usize = MAX_TLP + 4;

impl PacketRoom {
    pub fn new() -> PacketRoom {
        PacketRoom {
            bytes: [0; LONGEST],
        }
    }
}
