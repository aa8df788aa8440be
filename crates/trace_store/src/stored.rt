//! A record and an entry whose bytes stand in them, or in a list with those of others.
ghost use Rattle.std.specs.Prelude.{ℕ, ◌≡◌, List};
ghost use Rattle.trace_store.specs.Ranges.{range_of};
ghost use Rattle.seq_memory.specs.Step.{after, answer};
ghost use Rattle.history_words.specs.Flaws as flaw;
ghost use Rattle.history_words.specs.Headers.{header_of};
ghost use Rattle.history_words.specs.Lookup.{answers_with};
ghost use Rattle.trace_store.specs.Kept.{op_in};
ghost use Rattle.trace_store.specs.Stored.{record_in, entry_in, HasRecord, HasEntry};

use crate::kept::{Fields, OpKind, ReplyKind, op_in, reply_in, size_in};
use crate::same::{KeptOp, is_same_op, is_same_reply};
use history_words::{RecordHeader, RecordRef};
use seq_memory::{EntryRef, Extent, ReplyData, ReplyRef, perform_lent};
use std::mem::size_of;

/// What a record says.
#[derive(Clone, Copy)]
pub(crate) enum RecordKind {
    /// The requester submitted an operation.
    Sub(OpKind),
    /// It was answered.
    Ans(ReplyKind),
}

/// A record but for more than 8 bytes of data, in 40 bytes.
#[derive(Clone, Copy)]
pub(crate) struct StoredRecord {
    pub fields: Fields,
    pub n: u64,
    pub number: u32,
    pub requester: u8,
    pub kind: RecordKind,
}

/// An entry but for more than 8 bytes of data, in 32 bytes.
#[derive(Clone, Copy)]
pub(crate) struct StoredEntry {
    pub fields: Fields,
    pub number: u32,
    pub requester: u8,
    pub kind: OpKind,
}

const _: () = prove!(size_of::<StoredRecord>() <= 40);

const _: () = prove!(size_of::<StoredEntry>() <= 32);

impl StoredRecord {
    /// The record without its operation or its reply, wherever their bytes stand.
    #[inline(always)]
    pub(crate) fn header(&self) -> RecordHeader
        ensures { (bytes : List ℕ) → result ≡ header_of (record_in bytes self.now) }
    {
        match self.kind {
            RecordKind::Sub(kind) => RecordHeader::Sub {
                requester: self.requester,
                number: self.number,
                is_posted: matches!(kind, OpKind::Write),
                n: self.n,
            },
            RecordKind::Ans(_) => RecordHeader::Ans {
                requester: self.requester,
                number: self.number,
                n: self.n,
            },
        }
    }

    /// The first address and the number of the bytes that its operation names, if it is a submission.
    #[inline(always)]
    pub(crate) fn range(&self) -> Option<(u64, u32)>
        ensures { (bytes : List ℕ) → HasRecord bytes self.now → result ≡ range_of (record_in bytes self.now) }
    {
        match self.kind {
            RecordKind::Sub(kind) => Some((self.fields.address, size_in(kind, &self.fields))),
            RecordKind::Ans(_) => None,
        }
    }

    /// The record, with its bytes where they stand.
    #[inline(always)]
    pub(crate) fn record<'a>(&'a self, bytes: &'a [u8]) -> RecordRef<'a>
        requires { HasRecord bytes.now self.now }
        ensures { result ≡ record_in bytes.now self.now }
    {
        let requester = self.requester;
        let number = self.number;
        let n = self.n;
        match self.kind {
            RecordKind::Sub(kind) => RecordRef::Sub {
                requester,
                number,
                op: op_in(bytes, kind, &self.fields),
                n,
            },
            RecordKind::Ans(kind) => RecordRef::Ans {
                requester,
                number,
                reply: reply_in(bytes, kind, &self.fields),
                n,
            },
        }
    }

    /// It submits the operation of the entry, whose bytes are others.
    #[inline(always)]
    pub(crate) fn submits(&self, bytes: &[u8], others: &[u8], entry: &StoredEntry) -> bool
        requires record { HasRecord bytes.now self.now }
        requires entry { HasEntry others.now entry.now }
        ensures { result ≡ flaw.submits (op_in others.now entry.now.kind entry.now.fields) (record_in bytes.now self.now) }
    {
        match self.kind {
            RecordKind::Sub(kind) => {
                let op = KeptOp {
                    bytes: others,
                    kind: entry.kind,
                    fields: &entry.fields,
                };
                let submitted = KeptOp {
                    bytes,
                    kind,
                    fields: &self.fields,
                };
                is_same_op(op, submitted)
            }
            RecordKind::Ans(_) => false,
        }
    }

    /// It is an answer with that reply.
    #[inline(always)]
    pub(crate) fn tells(&self, bytes: &[u8], made: &ReplyRef<'_>) -> bool
        requires { HasRecord bytes.now self.now }
        ensures { result ≡ answers_with made.now (record_in bytes.now self.now) }
    {
        match self.kind {
            RecordKind::Sub(_) => false,
            RecordKind::Ans(kind) => is_same_reply(&reply_in(bytes, kind, &self.fields), made),
        }
    }
}

impl StoredEntry {
    /// The entry, with its bytes where they stand.
    #[inline(always)]
    pub(crate) fn entry<'a>(&'a self, bytes: &'a [u8]) -> EntryRef<'a>
        requires { HasEntry bytes.now self.now }
        ensures { result ≡ entry_in bytes.now self.now }
    {
        EntryRef {
            requester: self.requester,
            number: self.number,
            op: op_in(bytes, self.kind, &self.fields),
        }
    }

    /// Performs its operation on the memory's bytes. The reply's data is put into the room.
    #[inline(always)]
    pub(crate) fn perform<'r>(
        &self,
        kept: &[u8],
        extent: Extent,
        bytes: &mut [u8],
        room: &'r mut ReplyData,
    ) -> ReplyRef<'r>
        requires { HasEntry kept.now self.now }
        ensures bytes { bytes.new ≡ after extent.base extent.block bytes.old (op_in kept.now self.now.kind self.now.fields) }
        ensures reply { result ≡ answer extent.base extent.block bytes.old (op_in kept.now self.now.kind self.now.fields) }
    {
        let op = op_in(kept, self.kind, &self.fields);
        if op.fault().is_some() {
            return ReplyRef::Aborted;
        }
        perform_lent(extent.base(), extent.block(), bytes, &op, room)
    }
}
