//! The reasons in lines.
ghost use Rattle.std.specs.Prelude.{List, [], ◌∷◌, ℕ, ◌≡◌, ◌<◌, IfErr, IfOk, IfSome, MatchOption, OnErr, OnOk, length};
ghost use Rattle.std.specs.Io.KnownBytes.{Appends, Keeps};
ghost use Rattle.line_loop.specs.declared.fault.EngineFault.{EngineFault};
ghost use Rattle.search_reasons.specs.Lines.{lines_in, said_lines};

use crate::cases::Case;
use crate::causes::Cause;
use crate::cycles::put_cycle;
use crate::finding::{Reasons, Why, reasons_with_faults, records_with};
use crate::supposing::{Page, put_faults, put_pieces};
use crate::wording::{put_cause, put_line};
use arrayvec::ArrayString;
use hex_text::without_return;
use history_words::{RecordHeader, RecordRef};
use line_loop::{EngineFault, write_out};
use memchr::memchr;
use operation_text::write_reply;
use search_anomalies::{Bound, Prefix, Sum, WordCause};
use search_history::Budget;
use std::alloc::{AllocError, Global};
use std::io::Write;
use trace_diagnostics::TraceLines;
use trace_store::{RecordStore, Records};

/// The first line of the text that a line feed ends, without what ends it, and the rest.
fn next_line(text: &[u8]) -> Option<(&[u8], &[u8])>
    ensures line { MatchOption result (said_lines text.now ≡ []) (λ cut. said_lines text.now ≡ cut.0.now ∷ said_lines cut.1.now) }
    ensures less { IfSome result (λ cut. length cut.1.now < length text.now) }
{
    match memchr(b'\n', text) {
        Some(end) => Some((without_return(&text[..end]), &text[end + 1..])),
        None => None,
    }
}

/// The lines of the text, by their numbers.
pub fn lines_of(alloc: Global, text: &[u8]) -> Result<TraceLines, AllocError>
    ensures { IfOk result (λ lines. lines ≡ lines_in text.now) }
{
    let mut lines = TraceLines::new(alloc);
    let mut rest = text;
    while let Some((line, behind)) = next_line(rest) {
        lines.note(line)?;
        rest = behind;
    }
    Ok(lines)
}

/// Adds which record is told on standard output and which line that is, on which lines the records up to it have no history,
/// and on which they have one.
fn put_lines(
    out: &mut Vec<u8>,
    lines: &TraceLines,
    count: usize,
    explained: Option<usize>,
) -> Result<(), AllocError> {
    let record = count.saturating_sub(1);
    let (first, last) = (lines.of_record(0), lines.of_record(record));
    if first == last {
        return put_line(
            out,
            format_args!("record {record} is line {last}: line {last} has no history"),
        );
    }
    match explained {
        Some(known) if known > 0 => {
            let end = lines.of_record(known - 1);
            put_line(
                out,
                format_args!(
                    "record {record} is line {last}: lines {first} to {last} have no history, lines {first} to {end} have one"
                ),
            )
        }
        _ => put_line(
            out,
            format_args!("record {record} is line {last}: lines {first} to {last} have no history"),
        ),
    }
}

/// Why an answer to the request behind these records answers nothing.
fn misanswer(before: &Records<'_>, requester: u8, number: u32) -> &'static str {
    for place in 0..before.len() {
        if let Some(
            RecordHeader::Sub {
                requester: who,
                number: own,
                is_posted,
                ..
            },
        ) = before.header(place)
            && who == requester
            && own == number
        {
            return if is_posted {
                "is a posted write, which has no answer"
            } else {
                "was answered before"
            };
        }
    }
    "was not submitted before"
}

/// Adds the answer at a place, and what is behind it.
fn put_answer(
    out: &mut Vec<u8>,
    lines: &TraceLines,
    seen: &RecordStore,
    place: usize,
    behind: &str,
) -> Result<(), AllocError> {
    let Some(
        RecordRef::Ans {
            requester,
            number,
            reply,
            ..
        },
    ) = seen.get(place)
    else {
        return Ok(());
    };
    let line = lines.of_record(place);
    let mut text = ArrayString::new();
    write_reply(&reply, &mut text);
    let shown = text.as_str();
    put_line(
        out,
        format_args!("line {line}: ans {requester} {number} {shown}{behind}"),
    )
}

/// Adds what is wrong with the form of the record at a place: a submission has not the next number of its requester, or
/// an answer is none, whatever its reply is.
fn put_form(
    out: &mut Vec<u8>,
    lines: &TraceLines,
    seen: &RecordStore,
    place: usize,
) -> Result<(), AllocError> {
    let line = lines.of_record(place);
    match seen.header(place) {
        Some(
            RecordHeader::Sub {
                requester,
                number,
                ..
            },
        ) => put_line(
            out,
            format_args!(
                "line {line}: request {number} of requester {requester} where its next is expected"
            ),
        ),
        Some(
            RecordHeader::Ans {
                requester,
                number,
                ..
            },
        ) => {
            put_answer(out, lines, seen, place, "")?;
            let why = misanswer(&seen.records().first(place), requester, number);
            put_line(
                out,
                format_args!("request {number} of requester {requester} {why}"),
            )
        }
        None => Ok(()),
    }
}

/// Adds the answers at places, the first of which contradicts the others.
fn put_answers(
    out: &mut Vec<u8>,
    lines: &TraceLines,
    seen: &RecordStore,
    answers: &[usize],
) -> Result<(), AllocError> {
    let first = if answers.len() > 1 {
        ", against these answers:"
    } else {
        ""
    };
    for index in 0..answers.len() {
        let behind = if index == 0 { first } else { "" };
        put_answer(out, lines, seen, answers[index], behind)?;
    }
    Ok(())
}

/// Adds with which reply in place of the last one the records have a history, if that is known and they were searched as
/// they were read.
fn put_expected(
    out: &mut Vec<u8>,
    lines: &TraceLines,
    case: Case<'_>,
    reasons: &Reasons,
) -> Result<(), AllocError> {
    let Some(before) = &reasons.before else {
        return Ok(());
    };
    let Some(reply) = &before.expected else {
        return Ok(());
    };
    if case.ends.is_some() {
        return Ok(());
    }
    let (first, last) = (lines.of_record(0), lines.of_record(before.count));
    let mut text = ArrayString::new();
    write_reply(&reply.lend(), &mut text);
    let shown = text.as_str();
    put_line(
        out,
        format_args!("with {shown} in line {last}, lines {first} to {last} have a history"),
    )
}

/// The bound, by a record of the log that was read in place of one of those that were searched.
fn bound_as_read(case: Case<'_>, bound: Bound) -> Bound {
    match bound {
        Bound::Most(number, record) => Bound::Most(number, case.record_with(record)),
        Bound::Least(number, record) => Bound::Least(number, case.record_with(record)),
    }
}

/// The cause, with records of the log that was read in place of those that were searched.
fn words_as_read(case: Case<'_>, cause: WordCause) -> WordCause {
    match cause {
        WordCause::NothingPuts(word, answer) => {
            WordCause::NothingPuts(word, case.record_with(answer))
        }
        WordCause::Twice(word, first, second) => {
            WordCause::Twice(word, case.record_with(first), case.record_with(second))
        }
        WordCause::Overwritten(word, submission, by) => {
            WordCause::Overwritten(word, case.record_with(submission), case.record_with(by))
        }
        WordCause::Sum(sum) => WordCause::Sum(Sum {
            bound: bound_as_read(case, sum.bound),
            ..sum
        }),
        other => other,
    }
}

/// The cause, with records of the log that was read in place of those that were searched.
fn cause_as_read(case: Case<'_>, cause: Cause) -> Cause {
    match cause {
        Cause::Words(words) => Cause::Words(words_as_read(case, words)),
        other => other,
    }
}

/// The places of the answers in the log that was read, the last one first.
fn answers_as_read(
    alloc: Global,
    case: Case<'_>,
    last: usize,
    others: &[usize],
) -> Result<Vec<usize>, AllocError> {
    let mut places = Vec::new(alloc);
    places.push(last)?;
    places.extend_from_slice(others)?;
    records_with(alloc, case, &places)
}

/// The lines of the reasons, for people, as [`tell_none`] writes them. They name lines of the text.
pub fn reason_lines(
    alloc: Global,
    text: &[u8],
    case: Case<'_>,
    reasons: &Reasons,
) -> Result<Vec<u8>, AllocError> {
    let lines = lines_of(alloc, text)?;
    let mut out = Vec::new(alloc);
    let explained = match &reasons.before {
        Some(before) => Some(case.record_with(before.count)),
        None => None,
    };
    let Prefix { seen, count } = case.read;
    put_lines(&mut out, &lines, count, explained)?;
    match &reasons.why {
        Why::Form => put_form(&mut out, &lines, seen, count.saturating_sub(1))?,
        Why::Answers {
            last,
            others,
            cause,
            cycle,
            ..
        } => {
            let answers = answers_as_read(alloc, case, *last, others)?;
            put_answers(&mut out, &lines, seen, &answers)?;
            put_expected(&mut out, &lines, case, reasons)?;
            let page = Page {
                lines: &lines,
                prefix: case.read,
            };
            match &reasons.supposed.faults {
                Some(tried) => put_faults(alloc, &mut out, page, tried)?,
                None if cycle.is_empty() => {
                    put_cause(&mut out, &lines, seen, &cause_as_read(case, *cause))?;
                }
                None => put_cycle(&mut out, &lines, case, cycle)?,
            }
            if let Some(size) = reasons.supposed.pieces {
                put_pieces(&mut out, page, size)?;
            }
        }
    }
    Ok(out)
}

/// Tells why the prefix has no history: on which lines of the text it has none, and on which a shorter one has a
/// history, as far as that is known; which answers contradict each other; and why. [`reasons_with_faults`] says what is promised
/// of that and what is done for it. Nothing is written if memory can't be allocated.
pub fn tell_none<E: Write>(
    alloc: Global,
    text: &[u8],
    case: Case<'_>,
    budget: &mut Budget,
    errors: &mut E,
) -> Result<(), EngineFault>
    ensures ok { OnOk result ((lines : List ℕ) × Appends (E.contents errors.old) (E.contents errors.new) lines) }
    ensures memory { IfErr result (λ f. f ≡ EngineFault.Memory → Keeps (E.contents errors.old) (E.contents errors.new)) }
    ensures part { OnErr result ((lines : List ℕ) × Appends (E.contents errors.old) (E.contents errors.new) lines) }
{
    let reasons = reasons_with_faults(alloc, case, budget)?;
    let lines = reason_lines(alloc, text, case, &reasons)?;
    write_out(errors, &lines)
}
