//! What requesters saw.
ghost use Rattle.std.specs.Prelude.{◌≡◌, ◌<◌, [], ◌∷◌, ◌++◌, IfOk, IfSome, OnErr, OnOk, None, Some, ℕ, length, map, option_and_then, option_map, set, slice_get, take};
ghost use Rattle.std.specs.List.{All};
ghost use Rattle.history_words.specs.Flaws as flaw;
ghost use Rattle.history_words.specs.Flaws.{at_place};
ghost use Rattle.history_words.specs.Headers.{header_of};
ghost use Rattle.history_words.specs.Lookup.{is_told_at};
ghost use Rattle.history_words.specs.Records.{Record};
ghost use Rattle.history_words.specs.TraceView.{observed};
ghost use Rattle.history_words.specs.declared.record.RecordOf.TheVariants as kinds;
ghost use Rattle.trace_store.specs.Changes.{submitted, with_n, with_reply};
ghost use Rattle.trace_store.specs.Kept.{op_in};
ghost use Rattle.trace_store.specs.Ranges.{range_of};
ghost use Rattle.trace_store.specs.Stored.{record_in, HasEntry, HasRecord};

use crate::kept::{EMPTY, keep_op, keep_reply};
use crate::stored::{RecordKind, StoredEntry, StoredRecord};
use history_words::{Record, RecordHeader, RecordRef, Trace};
use seq_memory::{EntryRef, Extent, ReplyRef};
use std::alloc::{AllocError, Global};
use std::marker::Model;
use tlp_core::OpRef;

/// What requesters submitted to a memory and were answered, in the order of events: what a
/// [`Trace`] holds, in at most 40 bytes a record, and those of its data where they are more than 8.
///
/// Records are counted by their places, from 0.
#[derive(Drop)]
pub struct RecordStore {
    extent: Extent,
    records: Vec<StoredRecord>,
    bytes: Vec<u8>,
}

impl Model for RecordStore {
    ghost use Rattle.std.specs.List.{All};
    ghost use Rattle.history_words.specs.TraceView.{TraceView};
    ghost use Rattle.trace_store.specs.Stored.{seen_in, HasRecord};

    ghost Value = { TraceView };

    ghost view = { λ s. seen_in s.extent s.bytes.items s.records.items };

    ghost invariant = { λ s. All (HasRecord s.bytes.items) s.records.items };
}

/// Records of a store, lent: what a slice of a [`Trace`]'s records is.
#[derive(Drop)]
pub struct Records<'a> {
    all: &'a [StoredRecord],
    bytes: &'a [u8],
}

impl<'a> Model for Records<'a> {
    ghost use Rattle.std.specs.Prelude.{List, map};
    ghost use Rattle.std.specs.List.{All};
    ghost use Rattle.history_words.specs.Records.{Record};
    ghost use Rattle.trace_store.specs.Stored.{record_in, HasRecord};

    ghost Value = { List Record };

    ghost view = { λ s. map (record_in s.bytes.now) s.all.now };

    ghost invariant = { λ s. All (HasRecord s.bytes.now) s.all.now };
}

impl<'a> Records<'a> {
    /// How many there are.
    #[inline(always)]
    pub fn len(&self) -> usize
        ensures { result ≡ length self.now }
    {
        self.all.len()
    }

    /// The record at the place.
    #[inline(always)]
    pub fn get(&self, place: usize) -> Option<RecordRef<'a>>
        ensures { result ≡ slice_get self.now place }
    {
        Some(self.all.get(place)?.record(self.bytes))
    }

    /// The request that the record at the place submits.
    #[inline(always)]
    pub fn submitted(&self, place: usize) -> Option<EntryRef<'a>>
        ensures value { result ≡ option_and_then submitted (slice_get self.now place) }
        ensures is { IfSome result (λ e. (n : ℕ) × (slice_get self.now place ≡ Some (kinds.Sub e.requester e.number e.op n))) }
    {
        match self.get(place) {
            Some(
                RecordRef::Sub {
                    requester,
                    number,
                    op,
                    ..
                },
            ) => Some(EntryRef {
                requester,
                number,
                op,
            }),
            _ => None,
        }
    }

    /// The record at the place, without its operation or its reply.
    #[inline(always)]
    pub fn header(&self, place: usize) -> Option<RecordHeader>
        ensures { result ≡ option_map header_of (slice_get self.now place) }
    {
        Some(self.all.get(place)?.header())
    }

    /// The first address and the number of the bytes that are named by the operation that is submitted at the place.
    #[inline(always)]
    pub fn range(&self, place: usize) -> Option<(u64, u32)>
        ensures { result ≡ option_and_then range_of (slice_get self.now place) }
    {
        self.all.get(place)?.range()
    }

    /// The first `count`, or all if there are fewer.
    pub fn first(&self, count: usize) -> Records<'a>
        ensures { result ≡ take count self.now }
    {
        Records {
            all: first_of(self.all, count),
            bytes: self.bytes,
        }
    }
}

/// The first `count`, or all if there are fewer.
fn first_of(all: &[StoredRecord], count: usize) -> &[StoredRecord]
    ensures { result.now ≡ take count all.now }
{
    if count < all.len() {
        &all[..count]
    } else {
        all
    }
}

/// What is stored at the place.
fn stored_at(records: &[StoredRecord], place: usize) -> Option<StoredRecord>
    ensures value { result ≡ slice_get records.now place }
    ensures within { IfSome result (λ stored. place < length records.now) }
{
    records.get(place).copied()
}

/// Stores another record at the place.
fn put_at(records: &mut Vec<StoredRecord>, place: usize, changed: StoredRecord)
    requires { place < length records.old.items }
    ensures { records.new.items ≡ set records.old.items place changed }
{
    records[place] = changed;
}

/// The records with bytes of their own.
fn owned_records(
    alloc: Global,
    bytes: &[u8],
    all: &[StoredRecord],
) -> Result<Vec<Record>, AllocError>
    requires { All (HasRecord bytes.now) all.now }
    ensures { IfOk result (λ v. v.items ≡ map (record_in bytes.now) all.now) }
{
    let mut records = Vec::with_capacity(alloc, all.len())?;
    for stored in all {
        records.push(stored.record(bytes).to_owned())?;
    }
    Ok(records)
}

impl RecordStore {
    /// No records over that memory. Takes no memory.
    pub fn new(alloc: Global, extent: Extent) -> RecordStore
        ensures { result ≡ record { base = extent.base; size = extent.size; block = extent.block; records = [] } }
    {
        RecordStore {
            extent,
            records: Vec::new(alloc),
            bytes: Vec::new(alloc),
        }
    }

    /// The memory.
    pub fn extent(&self) -> Extent
        ensures { result ≡ observed self.now }
    {
        self.extent
    }

    /// Puts another memory in place of the one that it had.
    pub fn set_extent(&mut self, extent: Extent)
        ensures { self.new ≡ record { base = extent.base; size = extent.size; block = extent.block; records = self.old.records } }
    {
        self.extent = extent;
    }

    /// The records.
    #[inline(always)]
    pub fn records(&self) -> Records<'_>
        ensures { result ≡ self.now.records }
    {
        Records {
            all: &self.records,
            bytes: &self.bytes,
        }
    }

    /// How many records there are.
    #[inline(always)]
    pub fn len(&self) -> usize
        ensures { result ≡ length self.now.records }
    {
        self.records.len()
    }

    /// The record at the place.
    #[inline(always)]
    pub fn get(&self, place: usize) -> Option<RecordRef<'_>>
        ensures { result ≡ slice_get self.now.records place }
    {
        Some(self.records.get(place)?.record(&self.bytes))
    }

    /// The record at the place, without its operation or its reply.
    #[inline(always)]
    pub fn header(&self, place: usize) -> Option<RecordHeader>
        ensures { result ≡ option_map header_of (slice_get self.now.records place) }
    {
        Some(self.records.get(place)?.header())
    }

    /// Adds a record of a submission. `n` is the length of the history then.
    #[inline(always)]
    pub fn submitted(
        &mut self,
        requester: u8,
        number: u32,
        n: u64,
        op: &OpRef<'_>,
    ) -> Result<(), AllocError>
        ensures ok { OnOk result (self.new ≡ record self.old { records = self.old.records ++ kinds.Sub requester number op.now n ∷ [] }) }
        ensures err { OnErr result (self.new ≡ self.old) }
    {
        let mut fields = EMPTY;
        let kind = keep_op(&mut self.bytes, op, &mut fields)?;
        self.records.push(StoredRecord {
            fields,
            n,
            number,
            requester,
            kind: RecordKind::Sub(kind),
        })?;
        Ok(())
    }

    /// Adds a record of an answer. `n` is the length of the history then.
    #[inline(always)]
    pub fn answered(
        &mut self,
        requester: u8,
        number: u32,
        n: u64,
        reply: &ReplyRef<'_>,
    ) -> Result<(), AllocError>
        ensures ok { OnOk result (self.new ≡ record self.old { records = self.old.records ++ kinds.Ans requester number reply.now n ∷ [] }) }
        ensures err { OnErr result (self.new ≡ self.old) }
    {
        let mut fields = EMPTY;
        let kind = keep_reply(&mut self.bytes, reply, &mut fields)?;
        self.records.push(StoredRecord {
            fields,
            n,
            number,
            requester,
            kind: RecordKind::Ans(kind),
        })?;
        Ok(())
    }

    /// Adds the record.
    #[inline(always)]
    pub fn push(&mut self, seen: &RecordRef<'_>) -> Result<(), AllocError>
        ensures ok { OnOk result (self.new ≡ record self.old { records = self.old.records ++ seen.now ∷ [] }) }
        ensures err { OnErr result (self.new ≡ self.old) }
    {
        match seen {
            RecordRef::Sub {
                requester,
                number,
                op,
                n,
            } => self.submitted(*requester, *number, *n, op),
            RecordRef::Ans {
                requester,
                number,
                reply,
                n,
            } => self.answered(*requester, *number, *n, reply),
        }
    }

    /// Sets the `n` of the record at the place, if there is one.
    pub fn set_moment(&mut self, place: usize, n: u64)
        ensures some { (r : Record) → slice_get self.old.records place ≡ Some r →
            self.new ≡ record self.old { records = set self.old.records place (with_n n r) } }
        ensures none { slice_get self.old.records place ≡ None → self.new ≡ self.old }
    {
        let Some(stored) = stored_at(&self.records, place) else {
            return;
        };
        put_at(&mut self.records, place, StoredRecord { n, ..stored });
    }

    /// Puts another reply in place of the one that the answer at the place has. No other record changes. Where the old
    /// one has more than 8 bytes of data, their room in the list isn't used again.
    pub fn set_reply(&mut self, place: usize, reply: &ReplyRef<'_>) -> Result<(), AllocError>
        ensures some { OnOk result ((r : Record) → slice_get self.old.records place ≡ Some r →
            self.new ≡ record self.old { records = set self.old.records place (with_reply r reply.now) }) }
        ensures none { slice_get self.old.records place ≡ None → self.new ≡ self.old }
        ensures err { OnErr result (self.new ≡ self.old) }
    {
        let Some(stored) = stored_at(&self.records, place) else {
            return Ok(());
        };
        let RecordKind::Ans(_) = stored.kind else {
            return Ok(());
        };
        let mut fields = EMPTY;
        let kind = keep_reply(&mut self.bytes, reply, &mut fields)?;
        let changed = StoredRecord {
            fields,
            kind: RecordKind::Ans(kind),
            ..stored
        };
        put_at(&mut self.records, place, changed);
        Ok(())
    }

    /// The trace, with bytes of its own.
    pub fn to_owned(&self, alloc: Global) -> Result<Trace, AllocError>
        ensures { IfOk result (λ t. t ≡ self.now) }
    {
        let records = owned_records(alloc, &self.bytes, &self.records)?;
        Ok(Trace {
            extent: self.extent,
            records,
        })
    }

    /// The record at the place, if there is one, submits the operation of the entry, whose bytes are these.
    #[inline(always)]
    pub(crate) fn submits(&self, place: usize, bytes: &[u8], entry: &StoredEntry) -> bool
        requires { HasEntry bytes.now entry.now }
        ensures { result ≡ at_place (flaw.submits (op_in bytes.now entry.now.kind entry.now.fields)) self.now.records place }
    {
        match self.records.get(place) {
            Some(stored) => stored.submits(&self.bytes, bytes, entry),
            None => false,
        }
    }

    /// The record at the place, if there is one, is an answer with that reply.
    #[inline(always)]
    pub(crate) fn tells(&self, place: Option<usize>, made: &ReplyRef<'_>) -> bool
        ensures { result ≡ is_told_at self.now.records place made.now }
    {
        let Some(a) = place else {
            return false;
        };
        match self.records.get(a) {
            Some(stored) => stored.tells(&self.bytes, made),
            None => false,
        }
    }
}
