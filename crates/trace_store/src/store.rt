//! The trace and the history.
ghost use Rattle.std.specs.Prelude.{◌≡◌, [], ◌∷◌, ◌++◌, map, None, OnOk, OnErr, IfOk, Some, set, slice_get};
ghost use Rattle.std.specs.List.{All};
ghost use Rattle.seq_memory.specs.History.{extent_of};
ghost use Rattle.history_words.specs.declared.record.RecordOf.TheVariants as records;
ghost use Rattle.history_words.specs.Claim.{claim_of};
ghost use Rattle.history_words.specs.Records.{Record};
ghost use Rattle.trace_store.specs.Changes.{entry_at, seen_by, with_n, with_reply};
ghost use Rattle.trace_store.specs.Stored.{entry_in, HasEntry};

use crate::kept::{EMPTY, keep_op};
use crate::seen::RecordStore;
use crate::stored::StoredEntry;
use history_words::{AsClaim, RecordHeader, RecordRef, Trace};
use seq_memory::{Entry, EntryRef, Extent, ReplyData, ReplyRef};
use std::alloc::{AllocError, Global};
use std::marker::Model;
use tlp_core::OpRef;

/// What requesters submitted to a memory and were answered, in the order of events, and the requests
/// in the order in which the memory did them.
#[derive(Drop)]
pub struct TraceStore {
    seen: RecordStore,
    entries: Vec<StoredEntry>,
    /// The bytes of the entries.
    bytes: Vec<u8>,
}

impl Model for TraceStore {
    ghost use Rattle.std.specs.Prelude.{map};
    ghost use Rattle.std.specs.List.{All};
    ghost use Rattle.history_words.specs.Claim.{Claim, claim_of};
    ghost use Rattle.trace_store.specs.Stored.{entry_in, HasEntry};

    ghost Value = { Claim };

    ghost view = { λ s. claim_of s.seen (map (entry_in s.bytes.items) s.entries.items) };

    ghost invariant = { λ s. All (HasEntry s.bytes.items) s.entries.items };
}

/// The entries with bytes of their own.
fn owned_entries(alloc: Global, bytes: &[u8], all: &[StoredEntry]) -> Result<Vec<Entry>, AllocError>
    requires { All (HasEntry bytes.now) all.now }
    ensures { IfOk result (λ v. v.items ≡ map (entry_in bytes.now) all.now) }
{
    let mut entries = Vec::with_capacity(alloc, all.len())?;
    for stored in all {
        entries.push(stored.entry(bytes).to_owned())?;
    }
    Ok(entries)
}

/// Keeps an entry behind the others, and its bytes behind theirs.
#[inline(always)]
fn keep_entry(
    entries: &mut Vec<StoredEntry>,
    bytes: &mut Vec<u8>,
    requester: u8,
    number: u32,
    op: &OpRef<'_>,
) -> Result<(), AllocError>
    requires { All (HasEntry bytes.old.items) entries.old.items }
    ensures ok { OnOk result (map (entry_in bytes.new.items) entries.new.items ≡
        map (entry_in bytes.old.items) entries.old.items ++ (record { requester = requester; number = number; op = op.now }) ∷ []) }
    ensures err { OnErr result (map (entry_in bytes.new.items) entries.new.items ≡ map (entry_in bytes.old.items) entries.old.items) }
    ensures there { All (HasEntry bytes.new.items) entries.new.items }
{
    let mut fields = EMPTY;
    let kind = keep_op(bytes, op, &mut fields)?;
    entries.push(StoredEntry {
        fields,
        number,
        requester,
        kind,
    })?;
    Ok(())
}

impl TraceStore {
    /// No records and no entries, over that memory. Takes no memory.
    pub fn new(alloc: Global, extent: Extent) -> TraceStore
        ensures memory { extent_of result.memory ≡ extent }
        ensures entries { result.memory.entries ≡ [] }
        ensures records { result.records ≡ [] }
    {
        TraceStore::of(alloc, RecordStore::new(alloc, extent))
    }

    /// What was seen, and no entries. Takes no memory.
    pub fn of(alloc: Global, seen: RecordStore) -> TraceStore
        ensures { result ≡ claim_of seen [] }
    {
        TraceStore {
            seen,
            entries: Vec::new(alloc),
            bytes: Vec::new(alloc),
        }
    }

    /// What was seen, without the history.
    pub fn into_seen(self) -> RecordStore
        ensures { result ≡ seen_by self }
    {
        self.seen
    }

    /// What was seen.
    #[inline(always)]
    pub fn seen(&self) -> &RecordStore
        ensures { result.now ≡ seen_by self.now }
    {
        &self.seen
    }

    /// Puts another memory in place of the one that it had.
    pub fn set_extent(&mut self, extent: Extent)
        ensures memory { extent_of self.new.memory ≡ extent }
        ensures entries { self.new.memory.entries ≡ self.old.memory.entries }
        ensures records { self.new.records ≡ self.old.records }
    {
        self.seen.set_extent(extent);
    }

    /// Adds a record of a submission. `n` is the length of the history then.
    #[inline(always)]
    pub fn submitted(
        &mut self,
        requester: u8,
        number: u32,
        n: u64,
        op: &OpRef<'_>,
    ) -> Result<(), AllocError>
        ensures ok { OnOk result (self.new ≡ record self.old { records = self.old.records ++ records.Sub requester number op.now n ∷ [] }) }
        ensures err { OnErr result (self.new ≡ self.old) }
    {
        self.seen.submitted(requester, number, n, op)
    }

    /// Adds a record of an answer. `n` is the length of the history then.
    #[inline(always)]
    pub fn answered(
        &mut self,
        requester: u8,
        number: u32,
        n: u64,
        reply: &ReplyRef<'_>,
    ) -> Result<(), AllocError>
        ensures ok { OnOk result (self.new ≡ record self.old { records = self.old.records ++ records.Ans requester number reply.now n ∷ [] }) }
        ensures err { OnErr result (self.new ≡ self.old) }
    {
        self.seen.answered(requester, number, n, reply)
    }

    /// Adds an entry to the history.
    #[inline(always)]
    pub fn acted(&mut self, requester: u8, number: u32, op: &OpRef<'_>) -> Result<(), AllocError>
        ensures ok { OnOk result (self.new ≡
            record self.old {
              memory = record self.old.memory {
                entries = self.old.memory.entries ++
                    (record { requester = requester; number = number; op = op.now }) ∷ [];
              };
            }) }
        ensures err { OnErr result (self.new ≡ self.old) }
    {
        keep_entry(&mut self.entries, &mut self.bytes, requester, number, op)
    }

    /// The request that the record at the place submits acts: adds its entry to the history, if it is one.
    pub fn act(&mut self, place: usize) -> Result<(), AllocError>
        ensures ok { OnOk result (self.new ≡
            record self.old { memory = record self.old.memory { entries = self.old.memory.entries ++ entry_at self.old.records place } }) }
        ensures err { OnErr result (self.new ≡ self.old) }
    {
        let Some(
            RecordRef::Sub {
                requester,
                number,
                op,
                ..
            },
        ) = self.seen.get(place)
        else {
            return Ok(());
        };
        keep_entry(&mut self.entries, &mut self.bytes, requester, number, &op)
    }

    /// Sets the `n` of the record at the place, if there is one.
    pub fn set_moment(&mut self, place: usize, n: u64)
        ensures some { (r : Record) → slice_get self.old.records place ≡ Some r →
            self.new ≡ record self.old { records = set self.old.records place (with_n n r) } }
        ensures none { slice_get self.old.records place ≡ None → self.new ≡ self.old }
    {
        self.seen.set_moment(place, n);
    }

    /// Puts another reply in place of the one that the answer at the place has, as [`RecordStore::set_reply`] does.
    pub fn set_reply(&mut self, place: usize, reply: &ReplyRef<'_>) -> Result<(), AllocError>
        ensures some { OnOk result ((r : Record) → slice_get self.old.records place ≡ Some r →
            self.new ≡ record self.old { records = set self.old.records place (with_reply r reply.now) }) }
        ensures none { slice_get self.old.records place ≡ None → self.new ≡ self.old }
        ensures err { OnErr result (self.new ≡ self.old) }
    {
        self.seen.set_reply(place, reply)
    }

    /// The trace and the history with bytes of their own.
    pub fn to_owned(&self, alloc: Global) -> Result<(Trace, Vec<Entry>), AllocError>
        ensures { IfOk result (λ t. claim_of t.0 t.1.items ≡ self.now) }
    {
        let trace = self.seen.to_owned(alloc)?;
        let entries = owned_entries(alloc, &self.bytes, &self.entries)?;
        Ok((trace, entries))
    }
}

impl AsClaim for TraceStore {
    ghost claim = { λ s. s };

    fn extent(&self) -> Extent {
        self.seen.extent()
    }

    fn records(&self) -> usize {
        self.seen.len()
    }

    fn entries(&self) -> usize {
        self.entries.len()
    }

    #[inline(always)]
    fn header(&self, place: usize) -> Option<RecordHeader> {
        self.seen.header(place)
    }

    #[inline(always)]
    fn request(&self, index: usize) -> Option<(u8, u32)> {
        let stored = self.entries.get(index)?;
        Some((stored.requester, stored.number))
    }

    #[inline(always)]
    fn submits(&self, place: usize, index: usize) -> bool {
        let Some(stored) = self.entries.get(index) else {
            return false;
        };
        self.seen.submits(place, &self.bytes, stored)
    }

    #[inline(always)]
    fn replays(
        &self,
        index: usize,
        place: Option<usize>,
        bytes: &mut [u8],
        room: &mut ReplyData,
    ) -> bool {
        let Some(stored) = self.entries.get(index) else {
            return false;
        };
        let made = stored.perform(&self.bytes, self.seen.extent(), bytes, room);
        self.seen.tells(place, &made)
    }

    #[inline(always)]
    fn record(&self, place: usize) -> Option<RecordRef<'_>> {
        self.seen.get(place)
    }

    #[inline(always)]
    fn entry(&self, index: usize) -> Option<EntryRef<'_>> {
        Some(self.entries.get(index)?.entry(&self.bytes))
    }
}
