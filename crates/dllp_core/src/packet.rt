//! A DLLP as a value.

use seq12::Seq12;

/// The class of traffic that credits are for (section 2.6.1).
#[derive(Clone, Copy, Debug, PartialEq)]
pub enum Class {
    Posted,
    NonPosted,
    Completion,
}

/// A data link layer packet.
#[derive(Clone, Copy, PartialEq)]
pub enum Dllp {
    /// Packets through this sequence number arrived.
    Ack(Seq12),
    /// Packets through this sequence number arrived, and those after it are to be sent again.
    Nak(Seq12),
    /// UpdateFC: HdrFC, the header credits given modulo 256, and DataFC, the data credits (of 16 bytes) given modulo
    /// 4096. DataFC is below 4096.
    Update(Class, u8, u16),
}

/// What byte 0 of a DLLP says.
#[derive(Clone, Copy)]
pub(crate) enum Kind {
    Ack,
    Nak,
    Update(Class),
}
