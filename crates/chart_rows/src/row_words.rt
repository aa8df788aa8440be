//! The words at the left of a row, and what is shown where one points at it.
ghost use Rattle.std.specs.Prelude.{◌≡◌, ◌≤◌, ◌++◌, [], codes, OnOk};
ghost use Rattle.std.specs.Fmt.{decimal};
ghost use Rattle.script_text.specs.Texts.{port_of};
ghost use Rattle.chart_rows.specs.Words as said;

use crate::layout::MOST_LETTERS;
use crate::row::{Row, Said};
use crate::words::put_reply;
use arrayvec::ArrayString;
use fabric_core::{Event, Refusal, Seen};
use operation_text::write_decimal;
use requester_core::Answer;
use script_text::{write_event, write_refusal, write_seen};
use std::alloc::AllocError;

/// Adds the text, or its first letters and two dots, so that these are no more than `most`.
fn put_shortened(text: &[u8], most: usize, out: &mut Vec<u8>) -> Result<(), AllocError>
    requires { 2 ≤ most }
    ensures { OnOk result (out.new.items ≡ out.old.items ++ said.shortened most text.now) }
{
    if text.len() <= most {
        return out.extend_from_slice(text);
    }
    out.extend_from_slice(&text[..most - 2])?;
    out.extend_from_slice(b"..")
}

/// Writes the line of an event, or that a row is a `settle`.
fn write_event_of(row: &Said, text: &mut ArrayString<512>)
    requires { text.old.bytes ≡ [] }
    ensures { text.new.bytes ≡ said.event_words row.now }
{
    match row {
        Said::Settle => text.push_str("settle"),
        Said::Event(event, _) => write_event(&event.lend(), text),
    }
}

/// Adds the line of an event, or that a row is a `settle`, in so many letters.
fn put_event(row: &Said, most: usize, out: &mut Vec<u8>) -> Result<(), AllocError>
    requires { 2 ≤ most }
    ensures { OnOk result (out.new.items ≡ out.old.items ++ said.shortened most (said.event_words row.now)) }
{
    let mut text = ArrayString::new();
    write_event_of(row, &mut text);
    put_shortened(text.as_bytes(), most, out)
}

/// Writes what a row is of as it stands at its left.
pub fn write_event_words(row: &Said, out: &mut Vec<u8>) -> Result<(), AllocError>
    requires { out.old.items ≡ [] }
    ensures { OnOk result (out.new.items ≡ said.shortened 25 (said.event_words row.now)) }
{
    put_event(row, 25, out)
}

/// The port of the requester that collects, 0 where none does.
fn port_of(event: &Event) -> u8
    ensures { result ≡ port_of event.now }
{
    match event {
        Event::Submit(port, _) => *port,
        Event::Collect(port) => *port,
        _ => 0,
    }
}

/// Adds an answer, with its data cut where there is much.
fn put_answer(port: u8, answer: &Answer, text: &mut ArrayString<512>)
    requires { text.old.bytes ≡ [] }
    ensures { text.new.bytes ≡ said.answer_words port answer.now }
{
    text.push_str("ans ");
    write_decimal(u64::from(port), text);
    text.push_str(" ");
    write_decimal(u64::from(answer.number), text);
    text.push_str(" ");
    put_reply(&answer.reply, text);
}

/// Writes what was seen of an event, with its data cut where there is much.
fn write_seen_briefly(event: &Event, seen: &Seen, text: &mut ArrayString<512>)
    requires { text.old.bytes ≡ [] }
    ensures { text.new.bytes ≡ said.brief_seen event.now seen.now }
{
    match seen {
        Seen::Collected(answer) => put_answer(port_of(event), answer, text),
        _ => write_seen(&event.lend(), &seen.lend(), text),
    }
}

/// Writes why an event was refused.
fn write_refused(refusal: Refusal, text: &mut ArrayString<512>)
    requires { text.old.bytes ≡ [] }
    ensures { text.new.bytes ≡ said.refused_words refusal }
{
    text.push_str("refused ");
    write_refusal(&refusal, text);
}

/// Writes what was seen of the event of a row or why it was refused, with its data cut where there is much.
fn write_result(row: &Said, text: &mut ArrayString<512>)
    requires { text.old.bytes ≡ [] }
    ensures { text.new.bytes ≡ said.result_words row.now }
{
    match row {
        Said::Settle => {}
        Said::Event(event, Ok(seen)) => write_seen_briefly(event, seen, text),
        Said::Event(_, Err(refusal)) => write_refused(*refusal, text),
    }
}

/// Writes what was seen of the event of a row or why it was refused, as it stands at the left of the row.
pub fn write_result_words(row: &Said, out: &mut Vec<u8>) -> Result<(), AllocError>
    requires { out.old.items ≡ [] }
    ensures { OnOk result (out.new.items ≡ said.shortened 44 (said.result_words row.now)) }
{
    let mut text = ArrayString::new();
    write_result(row, &mut text);
    put_shortened(text.as_bytes(), MOST_LETTERS, out)
}

/// How many letters that has.
pub fn letters_of(row: &Said) -> usize
    ensures { result ≡ said.letters_of row.now }
{
    let mut text: ArrayString<512> = ArrayString::new();
    write_result(row, &mut text);
    text.len().min(MOST_LETTERS)
}

/// Writes what was seen of an event, or why it was refused.
fn write_outcome(event: &Event, outcome: &Result<Seen, Refusal>, text: &mut ArrayString<512>)
    requires { text.old.bytes ≡ [] }
    ensures { text.new.bytes ≡ said.outcome_words event.now outcome.now }
{
    match outcome {
        Ok(seen) => write_seen(&event.lend(), &seen.lend(), text),
        Err(refusal) => write_refused(*refusal, text),
    }
}

/// Adds what was seen of an event or why it was refused, in so many letters.
fn put_outcome(
    event: &Event,
    outcome: &Result<Seen, Refusal>,
    most: usize,
    out: &mut Vec<u8>,
) -> Result<(), AllocError>
    requires { 2 ≤ most }
    ensures { OnOk result (out.new.items ≡ out.old.items ++ said.shortened most (said.outcome_words event.now outcome.now)) }
{
    let mut text = ArrayString::new();
    write_outcome(event, outcome, &mut text);
    put_shortened(text.as_bytes(), most, out)
}

/// Adds an arrow of letters, and what was seen of the event of a row, or why it was refused.
fn put_becomes(row: &Said, out: &mut Vec<u8>) -> Result<(), AllocError>
    ensures { OnOk result (out.new.items ≡ out.old.items ++ said.becomes_words row.now) }
{
    match row {
        Said::Settle => Ok(()),
        Said::Event(event, outcome) => {
            out.extend_from_slice(b" -> ")?;
            put_outcome(event, outcome, 60, out)
        }
    }
}

/// Writes the number of a line.
fn put_line(line: u64, text: &mut ArrayString<512>)
    requires { text.old.bytes ≡ [] }
    ensures { text.new.bytes ≡ codes "line " ++ (decimal line ++ codes ": ") }
{
    text.push_str("line ");
    write_decimal(line, text);
    text.push_str(": ");
}

/// Writes what is shown where one points at a row.
pub fn write_row_words(row: &Row, out: &mut Vec<u8>) -> Result<(), AllocError>
    requires { out.old.items ≡ [] }
    ensures { OnOk result (out.new.items ≡ said.row_words row.now) }
{
    let mut text = ArrayString::new();
    put_line(row.line, &mut text);
    out.extend_from_slice(text.as_bytes())?;
    put_event(&row.said, 60, out)?;
    put_becomes(&row.said, out)
}
