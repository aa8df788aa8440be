//! Single faults in lines.
use crate::wording::{op_text, put_line};
use arrayvec::ArrayString;
use history_words::RecordRef;
use log_pieces::Granularity;
use search_anomalies::Prefix;
use search_hypotheses::{Fault, FaultKind, Hypothesis, Tried};
use std::alloc::{AllocError, Global};
use std::fmt::Write;
use tlp_core::OpRef;
use trace_diagnostics::TraceLines;
use trace_store::RecordStore;

/// The most lines that are told.
const MOST: usize = 4;

/// The log that is told of, and its lines.
#[derive(Clone, Copy)]
pub(crate) struct Page<'a> {
    pub(crate) lines: &'a TraceLines,
    pub(crate) prefix: Prefix<'a>,
}

/// The request is a read.
fn is_read(seen: &RecordStore, place: usize) -> bool {
    matches!(
        seen.get(place),
        Some(RecordRef::Sub {
            op: OpRef::Read { .. },
            ..
        })
    )
}

/// Adds the words, as far as there is room.
fn push(text: &mut ArrayString<512>, words: &str) {
    let _ = write!(text, "{words}");
}

/// What a device with the fault does with the request, in words behind `if line N (OPERATION)`.
fn push_words(text: &mut ArrayString<512>, page: Page<'_>, fault: Fault) {
    match fault.kind {
        FaultKind::Lost => push(text, "had had no effect"),
        FaultKind::Swapped => push(text, "had swapped whatever it found"),
        FaultKind::First => push(text, "had written all bytes of its first DW"),
        FaultKind::Last => push(text, "had written all bytes of its last DW"),
        FaultKind::Twice(_) => push(text, "had added twice"),
        FaultKind::Apart(_) => {
            if is_read(page.prefix.seen, fault.place) {
                push(text, "had passed an earlier posted write of its requester");
            } else {
                push(text, "had not kept the order of its requester");
            }
        }
        FaultKind::Early(_, before) => {
            let line = page.lines.of_record(before);
            let _ = write!(text, "had read what was there before line {line}");
        }
        FaultKind::Refused(_) => push(text, "had been carried out, though it isn't served"),
    }
}

/// The two are told in one line.
fn are_together(one: &Hypothesis, other: &Hypothesis) -> bool {
    one.fault.place == other.fault.place && one.is_whole == other.is_whole
}

/// Which are told first: those with which the whole log would have a history; and of these the requests that change something.
fn rank(prefix: Prefix<'_>, told: &Hypothesis) -> u8 {
    let part = if told.is_whole { 0 } else { 2 };
    let read = if is_read(prefix.seen, told.fault.place) {
        1
    } else {
        0
    };
    part + read
}

/// All that was found, as it is told.
fn in_order(
    alloc: Global,
    prefix: Prefix<'_>,
    tried: &Tried,
) -> Result<Vec<Hypothesis>, AllocError> {
    let mut all = Vec::new(alloc);
    all.extend_from_slice(&tried.found)?;
    all.sort_by_key(|told| rank(prefix, told))?;
    Ok(all)
}

/// The first one of each line that is told.
pub(crate) fn told_first(
    alloc: Global,
    prefix: Prefix<'_>,
    tried: &Tried,
) -> Result<Vec<Hypothesis>, AllocError> {
    let all = in_order(alloc, prefix, tried)?;
    let mut first = Vec::new(alloc);
    for at in 0..all.len() {
        if first.len() < MOST && !is_told(&all, at) {
            first.push(all[at])?;
        }
    }
    Ok(first)
}

/// Adds the line of these, which are of one request; how many they are.
fn put_request(
    out: &mut Vec<u8>,
    page: Page<'_>,
    all: &[Hypothesis],
    first: &Hypothesis,
) -> Result<usize, AllocError> {
    let mut text = ArrayString::new();
    let mut count = 0usize;
    for told in all {
        if are_together(told, first) {
            if count > 0 {
                push(&mut text, ", or ");
            }
            push_words(&mut text, page, told.fault);
            count = count.saturating_add(1);
        }
    }
    let line = page.lines.of_record(first.fault.place);
    let op = op_text(page.prefix.seen, first.fault.place);
    let (shown, words) = (op.as_str(), text.as_str());
    if first.is_whole {
        put_line(
            out,
            format_args!("if line {line} ({shown}) {words}, the whole log would have a history"),
        )?;
        return Ok(count);
    }
    let (from, to) = (
        page.lines.of_record(0),
        page.lines.of_record(page.prefix.count.saturating_sub(1)),
    );
    put_line(
        out,
        format_args!("if line {line} ({shown}) {words}, lines {from} to {to} would have a history"),
    )?;
    Ok(count)
}

/// One before the place is of the same line.
fn is_told(all: &[Hypothesis], at: usize) -> bool {
    let Some(told) = all.get(at) else {
        return false;
    };
    for place in 0..at {
        if let Some(before) = all.get(place)
            && are_together(before, told)
        {
            return true;
        }
    }
    false
}

/// Adds how many others there are, if there are some.
fn put_others(out: &mut Vec<u8>, others: usize) -> Result<(), AllocError> {
    match others {
        0 => Ok(()),
        1 => put_line(out, "1 other single fault would do, too"),
        _ => put_line(
            out,
            format_args!("{others} other single faults would do, too"),
        ),
    }
}

/// Adds with which single faults the prefix would have a history.
pub(crate) fn put_faults(
    alloc: Global,
    out: &mut Vec<u8>,
    page: Page<'_>,
    tried: &Tried,
) -> Result<(), AllocError> {
    if tried.found.is_empty() {
        let tries = tried.tries;
        return put_line(
            out,
            format_args!(
                "no order gives these answers, and none was found with one of {tries} single faults"
            ),
        );
    }
    let all = in_order(alloc, page.prefix, tried)?;
    let mut count = 0usize;
    for first in told_first(alloc, page.prefix, tried)?.as_slice() {
        count = count.saturating_add(put_request(out, page, &all, first)?);
    }
    put_others(out, all.len().saturating_sub(count))
}

/// Adds with pieces of which size the prefix has a history.
pub(crate) fn put_pieces(
    out: &mut Vec<u8>,
    page: Page<'_>,
    size: Granularity,
) -> Result<(), AllocError> {
    let bytes = match size {
        Granularity::Four => "4",
        Granularity::Eight => "8",
        Granularity::Sixteen => "16",
        Granularity::SixtyFour => "64",
        Granularity::Whole => "whole",
    };
    let (from, to) = (
        page.lines.of_record(0),
        page.lines.of_record(page.prefix.count.saturating_sub(1)),
    );
    put_line(
        out,
        format_args!("with --granularity {bytes} lines {from} to {to} have a history"),
    )
}
