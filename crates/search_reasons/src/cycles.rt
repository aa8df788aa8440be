//! A cycle of requests in lines.
use crate::cases::Case;
use crate::wording::{put_line, word_text};
use search_anomalies::{Edge, Link, Word};
use std::alloc::AllocError;
use trace_diagnostics::TraceLines;

/// The lines of a request.
#[derive(Clone, Copy)]
struct Asked {
    submission: u64,
    answer: u64,
}

/// Adds that an answer shows what another request overwrote.
fn put_overwritten(
    out: &mut Vec<u8>,
    word: &Word,
    shown: u64,
    put: Option<u64>,
    by: u64,
) -> Result<(), AllocError> {
    let text = word_text(word);
    let what = text.as_str();
    match put {
        Some(line) => put_line(
            out,
            format_args!(
                "line {shown} shows {what}, which line {line} put and line {by} overwrote"
            ),
        ),
        None => put_line(
            out,
            format_args!(
                "line {shown} shows {what}, which was there at the start and line {by} overwrote"
            ),
        ),
    }
}

/// Adds that an answer shows what a request put.
fn put_shown(out: &mut Vec<u8>, word: &Word, by: u64, shown: u64) -> Result<(), AllocError> {
    let text = word_text(word);
    let what = text.as_str();
    put_line(
        out,
        format_args!("line {by} put {what}, which line {shown} shows"),
    )
}

/// Adds that a posted write stands before another request of its requester, or before another piece of its line.
fn put_posted(out: &mut Vec<u8>, one: u64, other: u64) -> Result<(), AllocError> {
    if one == other {
        return put_line(
            out,
            format_args!("line {one} is a posted write, whose pieces act in rising order"),
        );
    }
    put_line(
        out,
        format_args!("line {one} is a posted write of its requester before line {other}"),
    )
}

/// The log and its lines.
#[derive(Clone, Copy)]
struct Pages<'a> {
    case: Case<'a>,
    lines: &'a TraceLines,
}

impl<'a> Pages<'a> {
    /// The line of what was searched at the place.
    fn line(self, place: usize) -> u64 {
        self.lines.of_record(self.case.record_with(place))
    }

    /// The lines of the request; that of its submission for its answer's, if it has none.
    fn asked(self, link: &Link) -> Asked {
        Asked {
            submission: self.line(link.submission),
            answer: self.line(link.answer.unwrap_or(link.submission)),
        }
    }

    /// Adds why a request acts before the next one.
    fn put_link(self, out: &mut Vec<u8>, link: &Link, next: &Link) -> Result<(), AllocError> {
        let (one, other) = (self.asked(link), self.asked(next));
        match &link.edge {
            Edge::Overwritten(word, by) => {
                let put = by.map(|submission| self.line(submission));
                put_overwritten(out, word, one.answer, put, other.submission)
            }
            Edge::Shown(word) => put_shown(out, word, one.submission, other.answer),
            Edge::Posted => put_posted(out, one.submission, other.submission),
            Edge::Answered => {
                let (a, b) = (one.answer, other.submission);
                put_line(out, format_args!("line {a} is an answer before line {b}"))
            }
        }
    }
}

/// Adds a cycle of requests, if there is one.
pub(crate) fn put_cycle(
    out: &mut Vec<u8>,
    lines: &TraceLines,
    case: Case<'_>,
    cycle: &[Link],
) -> Result<(), AllocError> {
    let Some(first) = cycle.first() else {
        return Ok(());
    };
    put_line(
        out,
        format_args!(
            "of these requests each acts before the next one, and the last one before the first:"
        ),
    )?;
    let pages = Pages { case, lines };
    for at in 0..cycle.len() {
        let next = cycle.get(at.saturating_add(1)).unwrap_or(first);
        pages.put_link(out, &cycle[at], next)?;
    }
    Ok(())
}
