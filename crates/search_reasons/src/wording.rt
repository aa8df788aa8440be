//! Causes in words.
ghost use Rattle.search_reasons.specs.Lines.{IsWordText};

use crate::causes::Cause;
use crate::misreplies::Misreply;
use arrayvec::ArrayString;
use history_words::RecordRef;
use operation_text::{write_bytes, write_hexadecimal, write_op};
use search_anomalies::{Bound, Sum, Word, WordCause};
use std::alloc::AllocError;
use std::fmt::Display;
use std::io::Write;
use trace_diagnostics::TraceLines;
use trace_store::RecordStore;

/// Adds a line of a reason.
pub(crate) fn put_line<D: Display + Drop>(out: &mut Vec<u8>, line: D) -> Result<(), AllocError> {
    match writeln!(out, "pciex: {line}") {
        Ok(()) => Ok(()),
        Err(_) => Err(AllocError),
    }
}

/// The bytes of a word, and its address.
pub fn word_text(word: &Word) -> ArrayString<512>
    ensures { IsWordText word.now.address result.bytes }
{
    let mut text = ArrayString::new();
    write_bytes(&word.shown(), &mut text);
    text.push_str(" at ");
    write_hexadecimal(word.address, &mut text);
    text
}

/// The address.
fn address_text(address: u64) -> ArrayString<512> {
    let mut text = ArrayString::new();
    write_hexadecimal(address, &mut text);
    text
}

/// Adds that nothing put the word there before a line.
fn put_unput(out: &mut Vec<u8>, word: &Word, line: u64) -> Result<(), AllocError> {
    let text = word_text(word);
    let shown = text.as_str();
    put_line(out, format_args!("nothing put {shown} before line {line}"))
}

/// Adds that the access isn't served, and the reply to it.
fn put_refused(out: &mut Vec<u8>, address: u64, reply: &str) -> Result<(), AllocError> {
    let text = address_text(address);
    let shown = text.as_str();
    put_line(
        out,
        format_args!("the access at {shown} isn't served: {reply} is expected"),
    )
}

/// Adds that the access is served, with so many bytes.
fn put_served(out: &mut Vec<u8>, address: u64, bytes: usize) -> Result<(), AllocError> {
    let text = address_text(address);
    let shown = text.as_str();
    put_line(
        out,
        format_args!("the access at {shown} is served: data of {bytes} bytes is expected"),
    )
}

/// The operation that the record submits.
pub(crate) fn op_text(seen: &RecordStore, place: usize) -> ArrayString<512> {
    let mut text = ArrayString::new();
    if let Some(RecordRef::Sub { op, .. }) = seen.get(place) {
        write_op(&op, &mut text);
    }
    text
}

/// Adds that the word was there once, and was taken twice.
fn put_twice(out: &mut Vec<u8>, word: &Word, first: u64, second: u64) -> Result<(), AllocError> {
    let text = word_text(word);
    let shown = text.as_str();
    put_line(
        out,
        format_args!(
            "{shown} was there once, and two AtomicOps that change it were answered it (lines {first} and {second})"
        ),
    )
}

/// Adds that the word was overwritten, and by what.
fn put_overwritten(
    out: &mut Vec<u8>,
    word: &Word,
    by: u64,
    over: &ArrayString<512>,
    of: u64,
) -> Result<(), AllocError> {
    let text = word_text(word);
    let (shown, what) = (text.as_str(), over.as_str());
    put_line(
        out,
        format_args!(
            "{shown} was overwritten (line {by}: {what}) before the request of line {of} could act"
        ),
    )
}

/// The bytes of the number, and their address.
fn number_text(sum: &Sum) -> ArrayString<512> {
    let bytes = sum.value.to_le_bytes();
    let mut text = ArrayString::new();
    write_bytes(bytes.get(..sum.bytes).unwrap_or(&[]), &mut text);
    text.push_str(" at ");
    write_hexadecimal(sum.address, &mut text);
    text
}

/// Adds what additions make.
fn put_sum(out: &mut Vec<u8>, lines: &TraceLines, sum: &Sum) -> Result<(), AllocError> {
    let text = number_text(sum);
    let (shown, value) = (text.as_str(), sum.value);
    match sum.bound {
        Bound::Most(most, record) => {
            let line = lines.of_record(record);
            put_line(
                out,
                format_args!(
                    "{shown} is {value}, and all additions submitted before line {line} make {most}"
                ),
            )
        }
        Bound::Least(least, record) => {
            let line = lines.of_record(record);
            put_line(
                out,
                format_args!(
                    "{shown} is {value}, and the additions answered before line {line} make {least}"
                ),
            )
        }
    }
}

/// Adds what is wrong with a reply.
fn put_misreply(out: &mut Vec<u8>, found: Misreply) -> Result<(), AllocError> {
    match found {
        Misreply::Unsupported(address) => put_refused(out, address, "ur"),
        Misreply::Aborted(address) => put_refused(out, address, "ca"),
        Misreply::Served(address, bytes) => put_served(out, address, bytes),
        Misreply::Disabled(place) => put_line(
            out,
            format_args!("byte {place} of the data isn't enabled: 00 is expected"),
        ),
    }
}

/// Adds why a word isn't there.
fn put_word_cause(
    out: &mut Vec<u8>,
    lines: &TraceLines,
    seen: &RecordStore,
    cause: &WordCause,
) -> Result<(), AllocError> {
    match cause {
        WordCause::NothingPuts(word, answer) => put_unput(out, word, lines.of_record(*answer)),
        WordCause::Twice(word, first, second) => {
            put_twice(out, word, lines.of_record(*first), lines.of_record(*second))
        }
        WordCause::Overwritten(word, submission, by) => put_overwritten(
            out,
            word,
            lines.of_record(*by),
            &op_text(seen, *by),
            lines.of_record(*submission),
        ),
        WordCause::Sum(sum) => put_sum(out, lines, sum),
        WordCause::NoOrder => put_line(out, "no order gives these answers"),
    }
}

/// Adds the cause, by the records and the lines of the log.
pub(crate) fn put_cause(
    out: &mut Vec<u8>,
    lines: &TraceLines,
    seen: &RecordStore,
    cause: &Cause,
) -> Result<(), AllocError> {
    match cause {
        Cause::Misreply(found) => put_misreply(out, *found),
        Cause::Words(words) => put_word_cause(out, lines, seen, words),
    }
}
