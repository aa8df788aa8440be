//! A packet as a value, with a payload of its own or a lent one.
//!
//! Every [`Tlp`] and every [`TlpRef`] is a packet of the grammar: its body fits its kind, its payload has 4 times as
//! many bytes as its Length says, its byte enables keep section 2.2.5 and its address is aligned.
//! A literal proves that where it is made.

ghost use Rattle.std.specs.Prelude.{◌≡◌};
ghost use Rattle.tlp_core.specs.Operation.{is_completion};

use crate::payload::{Payload, payload_of};
use std::marker::Model;

/// Max_Payload_Size, in bytes.
pub const MAX_PAYLOAD: usize = 128;

/// How many requesters there can be. Their numbers, and the ports of the switch where they are, are 1 to 7.
pub const REQUESTERS: u8 = 7;

/// What a packet asks or answers (section 2.2.1, Fmt and Type), whatever the size of its header.
#[derive(Clone, Copy, Debug, PartialEq)]
pub enum Kind {
    /// MRd.
    MemoryRead,
    /// MWr, the only posted kind.
    MemoryWrite,
    FetchAdd,
    Swap,
    /// Compare and swap.
    Cas,
    /// Cpl, without data.
    Completion,
    /// CplD.
    CompletionData,
}

impl Kind {
    /// Whether it is a completion's, with data or without.
    pub fn is_completion(self) -> bool
        ensures { result ≡ is_completion self }
    {
        matches!(self, Kind::Completion | Kind::CompletionData)
    }
}

/// Completion Status (section 2.2.9).
#[derive(Clone, Copy, Debug, PartialEq)]
pub enum Status {
    /// SC.
    Success,
    /// UR.
    Unsupported,
    /// CA.
    Aborted,
}

/// What only requests or only completions have.
#[derive(Clone, Copy, Debug, PartialEq)]
pub enum Body {
    Request {
        /// A multiple of 4.
        address: u64,
        /// First DW BE, in the low 4 bits; 0 in an AtomicOp.
        first: u8,
        /// Last DW BE, in the low 4 bits; 0 in an AtomicOp.
        last: u8,
    },
    Completion {
        /// Completer ID.
        completer: u16,
        status: Status,
        /// Byte Count, 1 to 4096.
        byte_count: u16,
        /// Lower Address, 7 bits.
        lower: u8,
    },
}

/// A packet of the grammar.
#[derive(Debug, PartialEq, Drop)]
pub struct Tlp {
    pub kind: Kind,
    /// Traffic Class, 0 to 7.
    pub tc: u8,
    /// Attributes, 0 to 7: IDO 4, RO 2, NS 1.
    pub attr: u8,
    /// Length in DW, 1 to 1024; 0 in a completion without data.
    pub length: u16,
    /// Requester ID.
    pub requester: u16,
    pub tag: u8,
    pub body: Body,
    /// In rising address order.
    pub payload: Payload,
}

impl Model for Tlp {
    ghost use Rattle.tlp_core.specs.TlpView.{TlpView, IsPacket};

    ghost Value = { TlpView };

    ghost view = { λ t. record {
      kind = t.kind;
      tc = t.tc;
      attr = t.attr;
      length = t.length;
      requester = t.requester;
      tag = t.tag;
      body = t.body;
      payload = t.payload.items;
    } };

    ghost invariant = { λ t. IsPacket (record {
      kind = t.kind;
      tc = t.tc;
      attr = t.attr;
      length = t.length;
      requester = t.requester;
      tag = t.tag;
      body = t.body;
      payload = t.payload.items;
    }) };

    ghost inverse = { λ p. record {
      kind = p.kind;
      tc = p.tc;
      attr = p.attr;
      length = p.length;
      requester = p.requester;
      tag = p.tag;
      body = p.body;
      payload = record { items = p.payload };
    } };
}

/// All of a packet but its payload.
#[derive(Clone, Copy)]
pub struct Header {
    pub kind: Kind,
    /// Traffic Class, 0 to 7.
    pub tc: u8,
    /// Attributes, 0 to 7: IDO 4, RO 2, NS 1.
    pub attr: u8,
    /// Length in DW, 1 to 1024; 0 in a completion without data.
    pub length: u16,
    /// Requester ID.
    pub requester: u16,
    pub tag: u8,
    pub body: Body,
}

/// A packet of the grammar whose payload is lent, as one that stands in the bytes it was decoded
/// from. Small, so it goes by value where a [`Tlp`] would be copied with its room.
#[derive(Drop)]
pub struct TlpRef<'a> {
    pub header: Header,
    /// In rising address order.
    pub payload: &'a [u8],
}

impl<'a> Model for TlpRef<'a> {
    ghost use Rattle.tlp_core.specs.TlpView.{TlpView, IsPacket};

    ghost Value = { TlpView };

    ghost view = { λ t. record {
      kind = t.header.kind;
      tc = t.header.tc;
      attr = t.header.attr;
      length = t.header.length;
      requester = t.header.requester;
      tag = t.header.tag;
      body = t.header.body;
      payload = t.payload.now;
    } };

    ghost invariant = { λ t. IsPacket (record {
      kind = t.header.kind;
      tc = t.header.tc;
      attr = t.header.attr;
      length = t.header.length;
      requester = t.header.requester;
      tag = t.header.tag;
      body = t.header.body;
      payload = t.payload.now;
    }) };
}

impl Tlp {
    /// The same packet, which lends the payload.
    #[inline(always)]
    pub fn lend(&self) -> TlpRef<'_>
        ensures { result ≡ self.now }
    {
        TlpRef {
            header: Header {
                kind: self.kind,
                tc: self.tc,
                attr: self.attr,
                length: self.length,
                requester: self.requester,
                tag: self.tag,
                body: self.body,
            },
            payload: self.payload.as_slice(),
        }
    }
}

impl<'a> TlpRef<'a> {
    /// The packet with a payload of its own. Takes no memory.
    #[inline(always)]
    #[tactic(auto, using(crate::proofs::Room::fits_room))]
    pub fn to_owned(&self) -> Tlp
        ensures { result ≡ self.now }
    {
        let header = self.header;
        Tlp {
            kind: header.kind,
            tc: header.tc,
            attr: header.attr,
            length: header.length,
            requester: header.requester,
            tag: header.tag,
            body: header.body,
            payload: payload_of(self.payload),
        }
    }
}
