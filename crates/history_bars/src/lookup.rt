//! Where requests acted, and where they are answered.
ghost use Rattle.std.specs.Prelude.{ℕ, ◌≡◌, ◌==◌, if◌then◌else◌, Some, None, IfOk, OnOk};
ghost use Rattle.std.specs.Option.{option_or};
ghost use Rattle.std.specs.Ordering.{nat_cmp};
ghost use Rattle.std.specs.BTreeMap.{get};
ghost use Rattle.history_words.specs.Trace.{is_request, answers_to};
ghost use Rattle.history_bars.specs.Layout.{acted_in, answer_in};

use history_words::Record;
use seq_memory::Entry;
use std::alloc::{AllocError, Global};
use std::collections::BTreeMap;

/// Notes a value for the number, if it is the first.
fn note(map: &mut BTreeMap<u32, u64>, number: u32, value: u64) -> Result<(), AllocError>
    ensures { OnOk result ((k : ℕ) → get nat_cmp map.new k ≡ option_or (get nat_cmp map.old k) (if k == number then Some value else None)) }
{
    if map.contains_key(&number) {
        return Ok(());
    }
    map.insert(number, value)?;
    Ok(())
}

/// Notes a value for an entry, if it is the requester's.
fn note_entry(
    map: &mut BTreeMap<u32, u64>,
    requester: u8,
    entry: &Entry,
    value: u64,
) -> Result<(), AllocError>
    ensures { OnOk result ((k : ℕ) →
        get nat_cmp map.new k ≡ option_or (get nat_cmp map.old k) (if is_request requester k entry.now then Some value else None)) }
{
    if requester != entry.requester {
        return Ok(());
    }
    note(map, entry.number, value)
}

/// Notes a value for a record, if it is an answer to the requester.
fn note_answer(
    map: &mut BTreeMap<u32, u64>,
    requester: u8,
    seen: &Record,
    value: u64,
) -> Result<(), AllocError>
    ensures { OnOk result ((k : ℕ) → get nat_cmp map.new k ≡ option_or (get nat_cmp map.old k) (if answers_to requester k seen.now then Some value else None)) }
{
    match seen {
        Record::Ans {
            requester: other,
            number,
            ..
        } => {
            if requester != *other {
                return Ok(());
            }
            note(map, *number, value)
        }
        Record::Sub { .. } => Ok(()),
    }
}

/// By the numbers of a requester's requests, how long the history was once each had acted.
pub fn acted_by(
    alloc: Global,
    history: &[Entry],
    requester: u8,
) -> Result<BTreeMap<u32, u64>, AllocError>
    ensures { IfOk result (λ m. (k : ℕ) → get nat_cmp m k ≡ acted_in history.now requester k) }
{
    let mut acted = BTreeMap::new(alloc);
    for place in 0..history.len() {
        let entry = &history[place];
        note_entry(&mut acted, requester, entry, place as u64 + 1)?;
    }
    Ok(acted)
}

/// By the numbers of a requester's requests, the place of the first answer to each.
pub fn answers_by(
    alloc: Global,
    records: &[Record],
    requester: u8,
) -> Result<BTreeMap<u32, u64>, AllocError>
    ensures { IfOk result (λ m. (k : ℕ) → get nat_cmp m k ≡ answer_in records.now requester k) }
{
    let mut answers = BTreeMap::new(alloc);
    for place in 0..records.len() {
        let seen = &records[place];
        note_answer(&mut answers, requester, seen, place as u64)?;
    }
    Ok(answers)
}
