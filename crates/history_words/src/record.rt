//! What requesters saw, with operations and replies of its own or lent.
ghost use Rattle.std.specs.Prelude.{◌≡◌};
ghost use Rattle.history_words.specs.Headers.{header_of};

use crate::claim::RecordHeader;
use seq_memory::{Extent, Reply, ReplyRef};
use std::marker::Model;
use tlp_core::{Op, OpRef};

/// What a requester saw, with its operation kept as an `O` or its reply as an `R`. `n` is the length of
/// the history at that event.
#[derive(Drop)]
pub enum RecordOf<O, R> {
    /// The requester submitted an operation under its next number.
    Sub {
        requester: u8,
        number: u32,
        op: O,
        n: u64,
    },
    /// It was answered.
    Ans {
        requester: u8,
        number: u32,
        reply: R,
        n: u64,
    },
}

/// A record with an operation or a reply of its own.
pub type Record = RecordOf<Op, Reply>;

/// A record whose operation or reply is lent. Its value is that of a [`Record`].
pub type RecordRef<'a> = RecordOf<OpRef<'a>, ReplyRef<'a>>;

impl RecordOf<Op, Reply> {
    /// The same record, which lends its operation or its reply.
    #[inline(always)]
    pub fn lend(&self) -> RecordRef<'_>
        ensures { result ≡ self.now }
    {
        match self {
            Record::Sub {
                requester,
                number,
                op,
                n,
            } => RecordRef::Sub {
                requester: *requester,
                number: *number,
                op: op.lend(),
                n: *n,
            },
            Record::Ans {
                requester,
                number,
                reply,
                n,
            } => RecordRef::Ans {
                requester: *requester,
                number: *number,
                reply: reply.lend(),
                n: *n,
            },
        }
    }

    /// The record without its operation or its reply.
    pub fn header(&self) -> RecordHeader
        ensures { result ≡ header_of self.now }
    {
        match self {
            Record::Sub {
                requester,
                number,
                op,
                n,
            } => RecordHeader::Sub {
                requester: *requester,
                number: *number,
                is_posted: op.is_posted(),
                n: *n,
            },
            Record::Ans {
                requester,
                number,
                n,
                ..
            } => RecordHeader::Ans {
                requester: *requester,
                number: *number,
                n: *n,
            },
        }
    }
}

impl<'a> RecordOf<OpRef<'a>, ReplyRef<'a>> {
    /// The record with an operation or a reply of its own. Takes no memory.
    #[inline(always)]
    pub fn to_owned(&self) -> Record
        ensures { result ≡ self.now }
    {
        match self {
            RecordRef::Sub {
                requester,
                number,
                op,
                n,
            } => Record::Sub {
                requester: *requester,
                number: *number,
                op: op.to_owned(),
                n: *n,
            },
            RecordRef::Ans {
                requester,
                number,
                reply,
                n,
            } => Record::Ans {
                requester: *requester,
                number: *number,
                reply: reply.to_owned(),
                n: *n,
            },
        }
    }
}

/// What requesters submitted to a memory and were answered, in the order of events.
#[derive(Drop)]
pub struct Trace {
    /// The memory, whose bytes are zeros at first.
    pub extent: Extent,
    pub records: Vec<Record>,
}

impl Model for Trace {
    ghost use Rattle.history_words.specs.TraceView.{TraceView};

    ghost Value = { TraceView };

    ghost view = { λ t. record { base = t.extent.base; size = t.extent.size; block = t.extent.block; records = t.records.items } };
}
