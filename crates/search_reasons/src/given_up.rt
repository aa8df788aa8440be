//! How far a search came that was given up.
ghost use Rattle.std.specs.Prelude.{List, ℕ, ◌<◌, ◌≡◌, IfErr, IfOk, OnErr, OnOk};
ghost use Rattle.std.specs.Io.KnownBytes.{Appends, Keeps};
ghost use Rattle.log_runs.specs.Explainable.{IsExplainable, prefix as first};
ghost use Rattle.line_loop.specs.declared.fault.EngineFault.{EngineFault};

use crate::cases::Case;
use crate::telling::lines_of;
use crate::wording::put_line;
use arrayvec::ArrayString;
use hex_text::is_skipped;
use line_loop::{EngineFault, write_out};
use operation_text::{split_word, write_hexadecimal};
use search_anomalies::Prefix;
use search_history::{Budget, Spot, is_explained};
use std::alloc::{AllocError, Global};
use std::io::Write;
use trace_diagnostics::TraceLines;

/// How many prefixes are searched for a history, at most.
const SEARCHES: u32 = 4;

/// How many of the first `count` records a history explains, as far as that is found: all, or a half of them, and so on.
pub fn explained_of(
    alloc: Global,
    prefix: Prefix<'_>,
    budget: &mut Budget,
) -> Result<usize, AllocError>
    ensures { IfOk result (λ n. 0 < n → IsExplainable (first n prefix.entry.seen.now)) }
{
    let seen = prefix.seen;
    let mut count = prefix.count.min(seen.len());
    for _search in 0..SEARCHES {
        if count > seen.len() {
            return Ok(0);
        }
        if is_explained(alloc, seen, count, budget)? {
            return Ok(count);
        }
        count /= 2;
    }
    Ok(0)
}

/// The bytes that were searched alone.
fn range_text(range: Option<(u64, u64)>) -> ArrayString<512> {
    let mut text = ArrayString::new();
    if let Some((low, high)) = range {
        text.push_str(" of the bytes ");
        write_hexadecimal(low, &mut text);
        text.push_str(" to ");
        write_hexadecimal(high.saturating_sub(1), &mut text);
    }
    text
}

/// Adds on which line the search ended, and how more of it is seen.
fn put_end(out: &mut Vec<u8>, line: u64, given_up: GivenUp<'_>) -> Result<(), AllocError> {
    let Spot { open, range, .. } = given_up.spot;
    let text = range_text(range);
    let shown = text.as_str();
    let hint = if given_up.hints_at_progress {
        "; --progress shows how far it is"
    } else {
        ""
    };
    put_line(
        out,
        format_args!("given up at line {line}{shown} (open requests: {open}){hint}"),
    )
}

/// Adds which lines have a history.
fn put_explained(out: &mut Vec<u8>, lines: &TraceLines, known: usize) -> Result<(), AllocError> {
    match known.checked_sub(1) {
        Some(last) => {
            let (first, end) = (lines.of_record(0), lines.of_record(last));
            put_line(out, format_args!("lines {first} to {end} have a history"))
        }
        None => Ok(()),
    }
}

/// The text is a trace, which has a history of its own.
fn is_trace(text: &[u8]) -> bool {
    for line in text.split(|byte| *byte == b'\n') {
        if !is_skipped(line) {
            return split_word(line).0 == b"pciex-trace".as_slice();
        }
    }
    false
}

/// A log of which the search was given up, and the farthest choice that it looked at.
#[derive(Clone, Copy)]
pub struct GivenUp<'a> {
    pub case: Case<'a>,
    pub spot: Spot,
    /// Whether the option is named by which it is told how far a search is.
    pub hints_at_progress: bool,
}

/// Tells how far a search came that was given up: the line of the farthest record that it came to, how many requests were
/// submitted there and hadn't acted, and which of the lines before have a history, as far as that is found out within
/// the budget; and of a trace, what judges its history. Nothing is written if memory can't be allocated.
pub fn tell_given_up<E: Write>(
    alloc: Global,
    text: &[u8],
    given_up: GivenUp<'_>,
    budget: &mut Budget,
    errors: &mut E,
) -> Result<(), EngineFault>
    ensures ok { OnOk result ((lines : List ℕ) × Appends (E.contents errors.old) (E.contents errors.new) lines) }
    ensures memory { IfErr result (λ f. f ≡ EngineFault.Memory → Keeps (E.contents errors.old) (E.contents errors.new)) }
    ensures part { OnErr result ((lines : List ℕ) × Appends (E.contents errors.old) (E.contents errors.new) lines) }
{
    let GivenUp { case, spot, .. } = given_up;
    let before = Prefix {
        seen: case.searched.seen,
        count: spot.event,
    };
    let explained = explained_of(alloc, before, budget)?;
    let lines = lines_of(alloc, text)?;
    let mut out = Vec::new(alloc);
    let line = lines.of_record(case.record_with(spot.event));
    put_end(&mut out, line, given_up)?;
    put_explained(&mut out, &lines, case.record_with(explained))?;
    if is_trace(text) {
        put_line(&mut out, "'pciex check' judges a trace's history")?;
    }
    write_out(errors, &out)
}
