//! The text of a short log that has no history, made of few answers of a long one.
ghost use Rattle.std.specs.Prelude.{◌≡◌, true, IfOk, IfSome};
ghost use Rattle.search_engine.specs.Findings.{IsNoneFinding};
ghost use Rattle.search_engine.specs.Search.{IsUnexplainedText};

use crate::answering::Finding;
use crate::options::SearchDemand;
use crate::telling::case_of;
use arrayvec::ArrayString;
use history_words::RecordRef;
use log_text::read_seen;
use operation_text::{write_hexadecimal, write_op, write_reply};
use search_history::{Budget, is_unexplained};
use search_reasons::{Case, Kept, answers_named, core_of, reasons_of};
use seq_memory::ReplyRef;
use std::alloc::{AllocError, Global};
use std::fmt::Display;
use std::io::Write;
use trace_store::RecordStore;

/// Adds a line.
fn put_line<D: Display + Drop>(out: &mut Vec<u8>, line: D) -> Result<(), AllocError> {
    match writeln!(out, "{line}") {
        Ok(()) => Ok(()),
        Err(_) => Err(AllocError),
    }
}

/// The version in which a log has that record.
fn version_of(record: &RecordRef<'_>) -> u8 {
    match record {
        RecordRef::Ans {
            reply: ReplyRef::Done,
            ..
        } => 2,
        _ => 1,
    }
}

/// Adds the head of a log, of version 2 if one of its answers has only that its request was done.
fn put_head(out: &mut Vec<u8>, seen: &RecordStore) -> Result<(), AllocError> {
    let extent = seen.extent();
    let mut text = ArrayString::new();
    write_hexadecimal(extent.base(), &mut text);
    let (base, size, block) = (text.as_str(), extent.size(), extent.block());
    let mut version = 1;
    for place in 0..seen.len() {
        if let Some(record) = seen.get(place) {
            version = version_of(&record).max(version);
        }
    }
    put_line(
        out,
        format_args!("pciex-log {version}\nmemory {base} {size} {block}"),
    )
}

/// Adds the line of a record that is kept.
fn put_kept(out: &mut Vec<u8>, seen: &RecordStore, kept: Kept) -> Result<(), AllocError> {
    let number = kept.number;
    let mut text = ArrayString::new();
    match seen.get(kept.place) {
        Some(RecordRef::Sub { requester, op, .. }) => {
            write_op(&op, &mut text);
            let shown = text.as_str();
            put_line(out, format_args!("sub {requester} {number} {shown}"))
        }
        Some(
            RecordRef::Ans {
                requester,
                reply,
                ..
            },
        ) => {
            write_reply(&reply, &mut text);
            let shown = text.as_str();
            put_line(out, format_args!("ans {requester} {number} {shown}"))
        }
        None => Ok(()),
    }
}

/// The text of a log of these answers, and of the requests that have to do with them.
fn text_of_few(alloc: Global, case: Case<'_>, answers: &[usize]) -> Result<Vec<u8>, AllocError> {
    let seen = case.searched.seen;
    let kept = core_of(alloc, case.searched, answers)?;
    let mut out = Vec::new(alloc);
    put_head(&mut out, seen)?;
    for record in kept.as_slice() {
        put_kept(&mut out, seen, *record)?;
    }
    put_line(&mut out, format_args!("end"))?;
    Ok(out)
}

/// The answers that have no history, by the reasons, with those to the other requests that the reasons name.
fn answers_of(
    alloc: Global,
    case: Case<'_>,
    budget: &mut Budget,
) -> Result<Vec<usize>, AllocError> {
    let mut own = budget.half(u64::MAX);
    let reasons = reasons_of(alloc, case, &mut own)?;
    budget.end_half(own);
    answers_named(alloc, case, &reasons)
}

/// The text of a log of few answers that may have no history.
fn few_of(
    alloc: Global,
    case: Case<'_>,
    budget: &mut Budget,
) -> Result<Option<Vec<u8>>, AllocError> {
    let answers = answers_of(alloc, case, budget)?;
    if answers.is_empty() {
        return Ok(None);
    }
    let text = text_of_few(alloc, case, &answers)?;
    Ok(Some(text))
}

/// No history explains the log of the text, as far as that is found out.
fn is_text_unexplained(alloc: Global, text: &[u8], budget: &mut Budget) -> Result<bool, AllocError>
    ensures { IfOk result (λ yes. yes ≡ true → IsUnexplainedText text.now) }
{
    let Ok(log) = read_seen(alloc, text) else {
        return Ok(false);
    };
    let mut own = budget.half(u64::MAX);
    let is_so = is_unexplained(alloc, &log, None, &mut own)?;
    budget.end_half(own);
    Ok(is_so)
}

/// The text, if no history explains its log.
fn confirmed(
    alloc: Global,
    text: Option<Vec<u8>>,
    budget: &mut Budget,
) -> Result<Option<Vec<u8>>, AllocError>
    ensures { IfOk result (λ o. IfSome o (λ v. IsUnexplainedText v.items)) }
{
    let Some(text) = text else {
        return Ok(None);
    };
    if is_text_unexplained(alloc, &text, budget)? {
        return Ok(Some(text));
    }
    Ok(None)
}

/// The text of a log of few answers that no history explains, if it is asked for, the log that was read has none, and one
/// is found.
pub(crate) fn core_text(
    alloc: Global,
    finding: &Finding,
    demand: SearchDemand,
    budget: &mut Budget,
) -> Result<Option<Vec<u8>>, AllocError>
    ensures unexplained { IfOk result (λ o. IfSome o (λ v. IsUnexplainedText v.items)) }
    ensures asked { IfOk result (λ o. IfSome o (λ v. demand.has_core ≡ true)) }
    ensures none { IfOk result (λ o. IfSome o (λ v. IsNoneFinding finding.now)) }
{
    match finding {
        Finding::None {
            seen,
            prefix,
            pieces,
        } if demand.has_core => {
            let text = few_of(alloc, case_of(seen, *prefix, pieces), budget)?;
            confirmed(alloc, text, budget)
        }
        _ => Ok(None),
    }
}
