//! Requesters that a log hasn't.
ghost use Rattle.std.specs.Prelude.{◌≡◌, true, IfSome};
ghost use Rattle.log_faults.specs.Free.{IsFree, IsNew};
ghost use Rattle.log_faults.specs.Free as spec;

use crate::faults::FaultKind;
use history_words::RecordRef;
use trace_store::Records;

/// Whose record it is.
fn requester_of(item: &RecordRef<'_>) -> u8
    ensures { result ≡ spec.requester_of item.now }
{
    match item {
        RecordRef::Sub { requester, .. } => *requester,
        RecordRef::Ans { requester, .. } => *requester,
    }
}

/// There is no record, or it isn't of the requester.
fn is_of_others(item: &Option<RecordRef<'_>>, by: u8) -> bool
    ensures { result ≡ true → IfSome item.now (λ r. spec.requester_of r ≡ by → ⊥) }
{
    match item {
        Some(item) => requester_of(item) != by,
        None => true,
    }
}

/// No record is of the requester.
fn is_free(records: &Records<'_>, by: u8) -> bool
    ensures { result ≡ true → IsFree by records.now }
{
    for place in 0..records.len() {
        let item = records.get(place);
        if !is_of_others(&item, by) {
            return false;
        }
    }
    true
}

/// The first requester of which no record is.
pub fn free_requester(records: &Records<'_>) -> Option<u8> {
    for by in 0..u8::MAX {
        if is_free(records, by) {
            return Some(by);
        }
    }
    None
}

/// A request that is some requester's own is of none of which a record is.
pub fn is_new(records: &Records<'_>, kind: FaultKind) -> bool
    ensures { result ≡ true → IsNew kind records.now }
{
    match kind {
        FaultKind::Twice(by) => is_free(records, by),
        FaultKind::Apart(by) => is_free(records, by),
        FaultKind::Early(by, _) => is_free(records, by),
        FaultKind::Refused(by) => is_free(records, by),
        FaultKind::Lost => true,
        FaultKind::Swapped => true,
        FaultKind::First => true,
        FaultKind::Last => true,
    }
}
