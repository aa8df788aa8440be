//! What a history has in place of an answer.
//!
//! The reply is guessed: it is the memory's, by a history of the records before. A search finds out whether a
//! history explains the records with it.
ghost use Rattle.std.specs.Prelude.{◌≡◌, ◌++◌, ◌∷◌, [], true, IfOk, IfSome, OnOk};
ghost use Rattle.history_words.specs.Records.{Record};
ghost use Rattle.log_runs.specs.Explainable.{IsExplainable};
ghost use Rattle.search_history.specs.Expected as expected;
ghost use Rattle.search_history.specs.Expected.{IsExpected};
ghost use Rattle.trace_store.specs.Changes.{with_reply};

use crate::budgets::Budget;
use crate::judging::{Beginning, is_explainable};
use history_words::{RecordHeader, RecordRef};
use log_events::{form_of, perform};
use log_runs::Step;
use seq_memory::{EntryRef, Extent, Reply, ReplyData, ReplyRef};
use std::alloc::{AllocError, Global};
use tlp_core::OpRef;
use trace_store::{RecordStore, Records};

/// A request, by its requester and its number.
#[derive(Clone, Copy, PartialEq)]
struct Name {
    requester: u8,
    number: u32,
}

impl Name {
    fn of(request: &EntryRef<'_>) -> Name {
        Name {
            requester: request.requester,
            number: request.number,
        }
    }
}

/// The request that the record at the place answers.
fn answered_at(records: &Records<'_>, place: usize) -> Option<Name> {
    match records.header(place) {
        Some(
            RecordHeader::Ans {
                requester,
                number,
                ..
            },
        ) => Some(Name { requester, number }),
        _ => None,
    }
}

/// A memory, and which of the records were done.
#[derive(Drop)]
struct Contents {
    extent: Extent,
    bytes: Vec<u8>,
    done: Vec<bool>,
    /// The data of the last reply.
    room: ReplyData,
}

impl Contents {
    /// The memory at the start, before each of so many records.
    fn new(alloc: Global, extent: Extent, count: usize) -> Result<Contents, AllocError> {
        Ok(Contents {
            extent,
            bytes: vec![in alloc; 0u8; extent.size()]?,
            done: vec![in alloc; false; count]?,
            room: ReplyData::new(),
        })
    }

    /// Does the operation that the record at the place submits.
    fn perform(&mut self, op: &OpRef<'_>, place: usize) -> ReplyRef<'_> {
        if let Some(done) = self.done.get_mut(place) {
            *done = true;
        }
        perform(self.extent, &mut self.bytes, op, &mut self.room)
    }

    /// Does the steps up to the one that does the request, and returns its reply.
    fn replay(&mut self, records: &Records<'_>, steps: &[Step], asked: Name) -> Option<Reply> {
        for step in steps {
            if let Step::Act(place) = step
                && let Some(request) = records.submitted(*place)
            {
                let reply = self.perform(&request.op, *place);
                if Name::of(&request) == asked {
                    return Some(reply.to_owned());
                }
            }
        }
        None
    }

    /// Does the posted writes of the requester that weren't done, up to the request that is asked for, and that.
    fn answer(&mut self, records: &Records<'_>, asked: Name) -> Option<Reply> {
        for place in 0..records.len() {
            let Some(request) = records.submitted(place) else {
                continue;
            };
            if Name::of(&request) == asked {
                return Some(self.perform(&request.op, place).to_owned());
            }
            let is_own = request.requester == asked.requester;
            if is_own && request.op.is_posted() && self.done.get(place) == Some(&false) {
                let _ = self.perform(&request.op, place);
            }
        }
        None
    }
}

/// What the memory answers to the request that the record at the place answers: where it acts by these steps, or
/// behind them.
fn guessed(
    alloc: Global,
    seen: &RecordStore,
    place: usize,
    steps: &[Step],
) -> Result<Option<Reply>, AllocError> {
    let records = seen.records();
    let Some(asked) = answered_at(&records, place) else {
        return Ok(None);
    };
    let mut contents = Contents::new(alloc, seen.extent(), place)?;
    if let Some(reply) = contents.replay(&records, steps, asked) {
        return Ok(Some(reply));
    }
    Ok(contents.answer(&records, asked))
}

/// A history explains the log; false where it isn't found.
fn has_history(alloc: Global, seen: &RecordStore, budget: &mut Budget) -> Result<bool, AllocError>
    ensures { IfOk result (λ yes. yes ≡ true → IsExplainable seen.now) }
{
    let form = form_of(alloc, &seen.records())?;
    if form.flaw.is_some() {
        return Ok(false);
    }
    let records = Beginning {
        seen,
        partners: &form.partners,
        count: seen.len(),
    };
    is_explainable(alloc, records, budget)
}

/// Adds the record with that reply, if it is an answer; else the record.
fn push_with_reply(
    log: &mut RecordStore,
    item: &RecordRef<'_>,
    told: &ReplyRef<'_>,
) -> Result<(), AllocError>
    ensures { OnOk result (log.new ≡ record log.old { records = log.old.records ++ with_reply item.now told.now ∷ [] }) }
{
    match item {
        RecordRef::Sub { .. } => log.push(item),
        RecordRef::Ans {
            requester,
            number,
            n,
            ..
        } => log.answered(*requester, *number, *n, told),
    }
}

/// The first records, over that memory.
fn copies_of(
    alloc: Global,
    extent: Extent,
    records: &Records<'_>,
) -> Result<RecordStore, AllocError>
    ensures { IfOk result (λ v. v ≡ record { base = extent.base; size = extent.size; block = extent.block; records = records.now }) }
{
    let mut copies = RecordStore::new(alloc, extent);
    for place in 0..records.len() {
        if let Some(item) = records.get(place) {
            copies.push(&item)?;
        }
    }
    Ok(copies)
}

/// The records up to the place, and the one there with that reply.
fn replied(
    alloc: Global,
    seen: &RecordStore,
    place: usize,
    reply: &ReplyRef<'_>,
) -> Result<RecordStore, AllocError>
    ensures { IfOk result (λ t. (item : Record) → expected.IsAt seen.now place item → t ≡ expected.replied seen.now place item reply.now) }
{
    let mut log = copies_of(alloc, seen.extent(), &seen.records().first(place))?;
    if let Some(item) = seen.get(place) {
        push_with_reply(&mut log, &item, reply)?;
    }
    Ok(log)
}

/// A reply with which, in place of the one at the place, a history explains the records up to there, if one is found. These
/// steps lead through the records before.
pub(crate) fn expected_at(
    alloc: Global,
    seen: &RecordStore,
    place: usize,
    steps: &[Step],
    budget: &mut Budget,
) -> Result<Option<Reply>, AllocError>
    ensures { IfOk result (λ o. IfSome o (IsExpected seen.now place)) }
{
    let Some(reply) = guessed(alloc, seen, place, steps)? else {
        return Ok(None);
    };
    let other = replied(alloc, seen, place, &reply.lend())?;
    if has_history(alloc, &other, budget)? {
        return Ok(Some(reply));
    }
    Ok(None)
}
