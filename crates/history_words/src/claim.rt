//! A trace and a history, however they are kept.
ghost use Rattle.std.specs.Prelude.{◌≡◌, length, option_map, slice_get};
ghost use Rattle.seq_memory.specs.History.{extent_of};
ghost use Rattle.seq_memory.specs.Step.{after, answer};
ghost use Rattle.history_words.specs.Claim as claims;
ghost use Rattle.history_words.specs.Flaws as flaw;
ghost use Rattle.history_words.specs.Headers.{header_of, request_of_header, moment_of, request_of, submits_at, bytes_after, replays_at};
ghost use Rattle.history_words.specs.Lookup.{is_told_at};

use crate::record::{Record, RecordRef, Trace};
use seq_memory::{Entry, EntryRef, Extent, Reply, ReplyData, perform};
use std::marker::Model;
use tlp_core::Op;

/// A record without its operation or its reply.
#[derive(Clone, Copy)]
pub enum RecordHeader {
    /// See [`Record::Sub`].
    Sub {
        requester: u8,
        number: u32,
        /// Whether the operation is a posted write.
        is_posted: bool,
        n: u64,
    },
    /// See [`Record::Ans`].
    Ans {
        requester: u8,
        number: u32,
        n: u64,
    },
}

impl RecordHeader {
    /// The requester and the number of the record's request.
    pub fn request(self) -> (u8, u32)
        ensures { result ≡ request_of_header self }
    {
        match self {
            RecordHeader::Sub {
                requester,
                number,
                ..
            }
            | RecordHeader::Ans {
                requester,
                number,
                ..
            } => (requester, number),
        }
    }

    /// `n` of the record.
    pub fn moment(self) -> u64
        ensures { result ≡ moment_of self }
    {
        match self {
            RecordHeader::Sub { n, .. } | RecordHeader::Ans { n, .. } => n,
        }
    }
}

/// A trace and a history, however they are kept: what the check asks of them.
///
/// Records are counted by their places and entries by their indexes, from 0. No call copies a record or an
/// entry.
pub trait AsClaim {
    // the trace and the history
    ghost claim: { Self → claims.Claim };

    /// The memory.
    fn extent(&self) -> Extent
        ensures { result ≡ extent_of (claim self.now).memory };

    /// How many records there are.
    fn records(&self) -> usize
        ensures { result ≡ length (claim self.now).records };

    /// How many entries there are.
    fn entries(&self) -> usize
        ensures { result ≡ length (claim self.now).memory.entries };

    /// The record at the place, without its operation or its reply.
    fn header(&self, place: usize) -> Option<RecordHeader>
        ensures { result ≡ option_map header_of (slice_get (claim self.now).records place) };

    /// The requester and the number of the request at the index.
    fn request(&self, index: usize) -> Option<(u8, u32)>
        ensures { result ≡ option_map request_of (slice_get (claim self.now).memory.entries index) };

    /// Whether the record at the place submits the operation of the entry at the index.
    fn submits(&self, place: usize, index: usize) -> bool
        ensures { result ≡ submits_at (claim self.now) place index };

    /// Performs the operation of the entry at the index on the bytes. Whether the record at `place` is
    /// an answer with the memory's reply. What the room holds doesn't count. Where there is no such
    /// entry, nothing is done.
    fn replays(
        &self,
        index: usize,
        place: Option<usize>,
        bytes: &mut [u8],
        room: &mut ReplyData,
    ) -> bool
        ensures bytes { bytes.new ≡ bytes_after (claim self.now).memory (slice_get (claim self.now).memory.entries index) bytes.old }
        ensures told { result ≡ replays_at (claim self.now) index place bytes.old };

    /// The record at the place.
    fn record(&self, place: usize) -> Option<RecordRef<'_>>
        ensures { result ≡ slice_get (claim self.now).records place };

    /// The entry at the index.
    fn entry(&self, index: usize) -> Option<EntryRef<'_>>
        ensures { result ≡ slice_get (claim self.now).memory.entries index };
}

/// A trace and a history, lent.
#[derive(Drop)]
pub struct Claim<'a> {
    pub trace: &'a Trace,
    pub history: &'a [Entry],
}

impl<'a> Model for Claim<'a> {
    ghost use Rattle.history_words.specs.Claim as claims;

    ghost Value = { claims.Claim };

    ghost view = { λ c. claims.claim_of c.trace.now c.history.now };
}

/// The record is a submission of the operation.
fn submits(seen: &Record, op: &Op) -> bool
    ensures { result ≡ flaw.submits op.now seen.now }
{
    match seen {
        Record::Sub { op: submitted, .. } => *op == *submitted,
        Record::Ans { .. } => false,
    }
}

/// The record at the place, if there is one, submits the operation.
fn submits_at(records: &[Record], place: usize, op: &Op) -> bool
    ensures { result ≡ flaw.at_place (flaw.submits op.now) records.now place }
{
    match records.get(place) {
        Some(seen) => submits(seen, op),
        None => false,
    }
}

/// The record at the place, if there is one, is an answer with that reply.
fn tells(records: &[Record], place: Option<usize>, made: &Reply) -> bool
    ensures { result ≡ is_told_at records.now place made.now }
{
    let Some(a) = place else {
        return false;
    };
    match records.get(a) {
        Some(Record::Ans { reply, .. }) => *reply == *made,
        _ => false,
    }
}

/// Performs the entry. Whether the record at the place, if there is one, is an answer with the reply.
fn compare(trace: &Trace, entry: &Entry, place: Option<usize>, bytes: &mut [u8]) -> bool
    ensures bytes { bytes.new ≡ after trace.now.base trace.now.block bytes.old entry.now.op }
    ensures told { result ≡ is_told_at trace.now.records place (answer trace.now.base trace.now.block bytes.old entry.now.op) }
{
    let extent = trace.extent;
    let made = perform(extent.base(), extent.block(), bytes, &entry.op);
    tells(trace.records.as_slice(), place, &made)
}

impl AsClaim for Claim<'_> {
    ghost claim = { λ c. c };

    fn extent(&self) -> Extent {
        let trace = self.trace;
        trace.extent
    }

    fn records(&self) -> usize {
        let trace = self.trace;
        trace.records.len()
    }

    fn entries(&self) -> usize {
        self.history.len()
    }

    fn header(&self, place: usize) -> Option<RecordHeader> {
        let trace = self.trace;
        Some(trace.records.get(place)?.header())
    }

    fn request(&self, index: usize) -> Option<(u8, u32)> {
        let entry = self.history.get(index)?;
        Some((entry.requester, entry.number))
    }

    fn submits(&self, place: usize, index: usize) -> bool {
        let trace = self.trace;
        match self.history.get(index) {
            Some(entry) => submits_at(trace.records.as_slice(), place, &entry.op),
            None => false,
        }
    }

    fn replays(
        &self,
        index: usize,
        place: Option<usize>,
        bytes: &mut [u8],
        _room: &mut ReplyData,
    ) -> bool {
        let Some(entry) = self.history.get(index) else {
            return false;
        };
        compare(self.trace, entry, place, bytes)
    }

    fn record(&self, place: usize) -> Option<RecordRef<'_>> {
        let trace = self.trace;
        Some(trace.records.get(place)?.lend())
    }

    fn entry(&self, index: usize) -> Option<EntryRef<'_>> {
        Some(self.history.get(index)?.lend())
    }
}
