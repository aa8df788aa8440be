//! The form of records: whether each submission has its number, and each answer its submission.
ghost use Rattle.std.specs.Prelude.{◌≡◌, ◌<◌, ◌≤◌, ℕ, IfOk, IfSome, IfNone, OnOk, IsTrue, ◌+◌, length, take, slice_get, get_or, set, replicate, Some, true, false};
ghost use Rattle.std.specs.List.{list_any};
ghost use Rattle.tlp_core.specs.Ops.{Op};
ghost use Rattle.tlp_core.specs.Operation.{is_posted};
ghost use Rattle.seq_memory.specs.Entries.{Reply};
ghost use Rattle.history_words.specs.Records.{Record};
ghost use Rattle.history_words.specs.declared.record.RecordOf.TheVariants as kinds;
ghost use Rattle.history_words.specs.Trace.{IsNumbered, answers_to};
ghost use Rattle.log_runs.specs.Tasks.{IsMisformed};
ghost use Rattle.log_events.specs.Counts.{AreAsked, AreMarks, IsCounted};
ghost use Rattle.log_events.specs.Formed.{MisformedAt, AreFormed, IsOpen};
ghost use Rattle.log_events.specs.Formed as spec;
ghost use Rattle.log_events.specs.Joined.{AreJoined, ArePartners};

use crate::counts::Counts;
use crate::events::{submission_at, submits};
use crate::partners::Partners;
use history_words::RecordHeader;
use log_runs::laws::{numbers_name_submissions, submissions_grow_by_records};
use std::alloc::{AllocError, Global};
use trace_store::Records;

/// Which records belong together, as far as the form is right.
#[derive(Drop)]
pub struct Form {
    pub partners: Partners,
    /// The first record whose form is wrong.
    pub flaw: Option<usize>,
}

/// What is known of the records so far.
#[derive(Drop)]
struct Tables {
    counts: Counts,
    /// By requester, the places of its submissions.
    rows: Vec<Vec<usize>>,
    partners: Partners,
    /// By place, whether the request that is submitted there was answered.
    answered: Vec<bool>,
}

fn none_answered(alloc: Global, count: usize) -> Result<Vec<bool>, AllocError>
    ensures { IfOk result (λ v. v.items ≡ replicate count false) }
{
    vec![in alloc; false; count]
}

fn rows(alloc: Global) -> Result<Vec<Vec<usize>>, AllocError> {
    let mut rows = Vec::with_capacity(alloc, 256)?;
    for _ in 0..256usize {
        rows.push(Vec::new(alloc))?;
    }
    Ok(rows)
}

/// The place of a submission with that number, as the table has it.
fn place(rows: &[Vec<usize>], requester: u8, number: u32) -> Option<usize> {
    rows.get(usize::from(requester))?
        .get(number as usize)
        .copied()
}

/// The place of the first of the records that submits the request.
fn first_submission(records: &Records<'_>, requester: u8, number: u32) -> Option<usize>
    ensures some { IfSome result (λ b. (op : Op) × (n : ℕ) × (slice_get records.now b ≡ Some (kinds.Sub requester number op n))) }
    ensures none { IfNone result (list_any (spec.submits requester number) records.now ≡ false) }
{
    for at in 0..records.len() {
        if submits(records, at, requester, number) {
            return Some(at);
        }
    }
    None
}

/// The place of the record that submits the request: the guess, if it is right, or the first.
fn place_of(
    records: &Records<'_>,
    guess: Option<usize>,
    requester: u8,
    number: u32,
) -> Option<usize>
    ensures some { IfSome result (λ b. (op : Op) × (n : ℕ) × (slice_get records.now b ≡ Some (kinds.Sub requester number op n))) }
    ensures none { IfNone result (list_any (spec.submits requester number) records.now ≡ false) }
{
    match submission_at(records, guess, requester, number) {
        Some(at) => Some(at),
        None => first_submission(records, requester, number),
    }
}

/// The request that is submitted at that place is posted.
fn is_posted_at(records: &Records<'_>, at: usize) -> bool
    ensures { (i k n : ℕ) (op : Op) → slice_get records.now at ≡ Some (kinds.Sub i k op n) → result ≡ is_posted op }
{
    match records.header(at) {
        Some(RecordHeader::Sub { is_posted, .. }) => is_posted,
        _ => false,
    }
}

impl Tables {
    fn new(alloc: Global, count: usize) -> Result<Self, AllocError>
        ensures counts { IfOk result (λ t. t.counts ≡ replicate 256 0) }
        ensures partners { IfOk result (λ t. length t.partners ≡ count) }
        ensures answered { IfOk result (λ t. t.answered.items ≡ replicate count false) }
    {
        Ok(Tables {
            counts: Counts::new(alloc)?,
            rows: rows(alloc)?,
            partners: Partners::none(alloc, count)?,
            answered: none_answered(alloc, count)?,
        })
    }

    /// A submission more of the requester, at that place.
    fn submit(&mut self, requester: u8, at: usize) -> Result<(), AllocError>
        requires { get_or self.old.counts requester 0 < 18446744073709551615 }
        ensures counts { OnOk result (self.new.counts ≡ set self.old.counts requester (get_or self.old.counts requester 0 + 1)) }
        ensures requester { requester < 256 }
        ensures partners { OnOk result (self.new.partners ≡ self.old.partners) }
        ensures answered { OnOk result (self.new.answered.items ≡ self.old.answered.items) }
    {
        self.counts.add(requester);
        if let Some(row) = self.rows.get_mut(usize::from(requester)) {
            row.push(at)?;
        }
        Ok(())
    }

    /// The answer at that place joins its submission.
    fn answer(&mut self, submission: usize, at: usize)
        requires { submission < length self.old.answered.items }
        ensures counts { self.new.counts ≡ self.old.counts }
        ensures partners { self.new.partners ≡ set (set self.old.partners submission at) at submission }
        ensures answered { self.new.answered.items ≡ set self.old.answered.items submission true }
    {
        self.answered[submission] = true;
        self.partners.join(submission, at);
    }

    /// The request that is submitted at that place was answered.
    fn is_answered(&self, at: usize) -> bool
        ensures { result ≡ get_or self.now.answered.items at false }
    {
        match self.answered.get(at) {
            Some(answered) => *answered,
            None => false,
        }
    }

    /// Where the request is submitted, if behind these records an answer to it is right.
    fn open_at(&self, records: &Records<'_>, requester: u8, number: u32) -> Option<usize>
        requires numbered { IsNumbered records.now }
        requires answered { AreMarks self.now.answered.items records.now }
        ensures some { IfSome result (IsOpen records.now requester number) }
        ensures none { IfNone result ((reply : Reply) (n : ℕ) → IsMisformed records.now (kinds.Ans requester number reply n)) }
    {
        numbers_name_submissions();
        let guess = place(&self.rows, requester, number);
        let Some(at) = place_of(records, guess, requester, number) else {
            return None;
        };
        if is_posted_at(records, at) {
            return None;
        }
        if self.is_answered(at) {
            return None;
        }
        Some(at)
    }

    /// Takes the next record, if its form is right.
    fn add(&mut self, records: &Records<'_>, at: usize) -> Result<bool, AllocError>
        requires within { at < length records.now }
        requires known { IsCounted self.old.counts self.old.answered.items records.now at }
        requires joined { AreJoined self.old.partners records.now at }
        ensures right { IfOk result (λ right. IsTrue right → IsCounted self.new.counts self.new.answered.items records.now (at + 1)) }
        ensures joined { IfOk result (λ right. IsTrue right → AreJoined self.new.partners records.now (at + 1)) }
        ensures wrong { IfOk result (λ right. right ≡ false → MisformedAt records.now at) }
        ensures kept { IfOk result (λ right. right ≡ false → self.new.partners ≡ self.old.partners) }
    {
        submissions_grow_by_records();
        numbers_name_submissions();
        match records.header(at) {
            Some(
                RecordHeader::Sub {
                    requester,
                    number,
                    ..
                },
            ) => {
                if self.counts.of(requester) != number as usize {
                    return Ok(false);
                }
                self.submit(requester, at)?;
            }
            Some(
                RecordHeader::Ans {
                    requester,
                    number,
                    ..
                },
            ) => {
                let Some(submission) = self.open_at(&records.first(at), requester, number) else {
                    return Ok(false);
                };
                self.answer(submission, at);
            }
            None => {}
        }
        Ok(true)
    }
}

/// Joins submissions and answers, up to the first record whose form is wrong: a submission that
/// hasn't its requester's next number, an answer to what wasn't submitted before or to a posted
/// write, or a second answer.
pub fn form_of(alloc: Global, records: &Records<'_>) -> Result<Form, AllocError>
    ensures wrong { IfOk result (λ f. IfSome f.flaw (MisformedAt records.now)) }
    ensures first { IfOk result (λ f. IfSome f.flaw (AreFormed records.now)) }
    ensures formed { IfOk result (λ f. IfNone f.flaw (AreFormed records.now (length records.now))) }
    ensures numbered { IfOk result (λ f. IfNone f.flaw (IsNumbered records.now)) }
    ensures joined { IfOk result (λ f. IfNone f.flaw (ArePartners f.partners records.now)) }
    ensures joined_before { IfOk result (λ f. IfSome f.flaw (λ a. ArePartners f.partners (take a records.now))) }
    ensures asked { IfOk result (λ f. IfNone f.flaw (AreAsked records.now (length records.now))) }
{
    let mut tables = Tables::new(alloc, records.len())?;
    for at in 0..records.len() {
        if !tables.add(records, at)? {
            return Ok(Form {
                partners: tables.partners,
                flaw: Some(at),
            });
        }
    }
    Ok(Form {
        partners: tables.partners,
        flaw: None,
    })
}
