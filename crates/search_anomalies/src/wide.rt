//! Reads and writes of several DW, which may act in parts.
ghost use Rattle.std.specs.Prelude.{◌≡◌, true, IfOk, IfSome};
ghost use Rattle.search_anomalies.specs.Wide.{IsWide, IsWideAt};

use log_events::{Prefix, Requests};
use search_effects::are_apart;
use std::alloc::{AllocError, Global};
use tlp_core::OpRef;

/// A read or a write of several DW.
fn is_wide(op: &OpRef<'_>) -> bool
    ensures { result ≡ true → IsWide op.now }
{
    match op {
        OpRef::Read { .. } | OpRef::Write { .. } => op.size() > 4,
        _ => false,
    }
}

/// The submission of a read of several DW that was answered at the place.
fn asked_at(requests: &Requests<'_>, answer: usize) -> Option<usize>
    ensures { IfSome result (IsWideAt requests.now.records) }
{
    let request = requests.at(answer)?;
    let op = requests.op(&request)?;
    if is_wide(&op) {
        Some(request.submission)
    } else {
        None
    }
}

/// The last submission of a write of several DW, some of which the request that was answered at the place has too.
fn written_for(requests: &Requests<'_>, answer: usize) -> Option<usize>
    ensures { IfSome result (IsWideAt requests.now.records) }
{
    let request = requests.at(answer)?;
    let asked = requests.op(&request)?;
    for other in requests.all.as_slice() {
        if other.submission < answer
            && let Some(op) = requests.op(other)
            && is_wide(&op)
            && !are_apart(&op, &asked)
        {
            return Some(other.submission);
        }
    }
    None
}

/// The submission of a read or a write of several DW: of a read that was answered at one of the places, or else of a write
/// to what was.
pub fn wide_request(
    alloc: Global,
    prefix: Prefix<'_>,
    answers: &[usize],
) -> Result<Option<usize>, AllocError>
    ensures { IfOk result (λ o. IfSome o (IsWideAt prefix.entry.seen.now.records)) }
{
    let requests = Requests::of(alloc, prefix)?;
    for answer in answers {
        if let Some(submission) = asked_at(&requests, *answer) {
            return Ok(Some(submission));
        }
    }
    for answer in answers {
        if let Some(submission) = written_for(&requests, *answer) {
            return Ok(Some(submission));
        }
    }
    Ok(None)
}
