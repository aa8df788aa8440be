//! Why bytes or words are no packet.
ghost use Rattle.std.specs.Prelude.{◌≡◌};
ghost use Rattle.packet_text.specs.Texts as texts;
ghost use Rattle.packet_text.specs.Faults.{fault_of};

use config_core::CfgFault;
use dllp_core::DllpFault;
use operation_text::Misfit;
use thiserror::Error;
use tlp_core::TlpFault;

/// Why bytes are no packet.
#[derive(Clone, Copy, Debug, Error)]
pub enum BytesFault {
    /// They are not four, and no TLP.
    #[error("{0}")]
    Tlp(TlpFault),
    /// They are not four, and begin as a configuration request, but are none.
    #[error("{0}")]
    Configuration(CfgFault),
    /// They are four, and no DLLP.
    #[error("{0}")]
    Dllp(DllpFault),
}

/// The number of a configuration request's fault: that of the fault of other TLPs that has its name, and behind them 14.
pub(crate) fn configuration_number(fault: CfgFault) -> u8
    ensures { result ≡ texts.configuration_number fault }
{
    match fault {
        CfgFault::Short => TlpFault::Short.number(),
        CfgFault::Kind => TlpFault::Kind.number(),
        CfgFault::Digest => TlpFault::Digest.number(),
        CfgFault::Poisoned => TlpFault::Poisoned.number(),
        CfgFault::LengthMismatch => TlpFault::LengthMismatch.number(),
        CfgFault::Fields => 14,
    }
}

impl BytesFault {
    /// The name under which it is told.
    pub fn name(self) -> &'static str
        ensures { result.now ≡ texts.bytes_fault_name self }
    {
        match self {
            BytesFault::Tlp(fault) => fault.name(),
            BytesFault::Configuration(fault) => fault.name(),
            BytesFault::Dllp(fault) => fault.name(),
        }
    }
}

/// Why words are no packet.
#[derive(Clone, Copy, Debug, Error)]
pub enum TextFault {
    /// The line has none of the forms.
    #[error("words")]
    Words,
    /// The line has the form of a TLP, of which the grammar has none such.
    #[error("{0}")]
    Packet(TlpFault),
}

impl TextFault {
    /// The name under which it is told.
    pub fn name(self) -> &'static str
        ensures { result.now ≡ texts.text_fault_name self }
    {
        match self {
            TextFault::Words => "words",
            TextFault::Packet(fault) => fault.name(),
        }
    }
}

/// Why words are no packet, and where.
#[derive(Clone, Copy)]
pub enum Unread {
    /// The line has none of the forms: the first word that doesn't fit.
    Words(Misfit),
    /// The line has the form of a TLP, of which the grammar has none such.
    Packet(TlpFault),
}

impl Unread {
    /// The fault under which it is told.
    pub fn fault(self) -> TextFault
        ensures { result ≡ fault_of self }
    {
        match self {
            Unread::Words(_) => TextFault::Words,
            Unread::Packet(fault) => TextFault::Packet(fault),
        }
    }
}
