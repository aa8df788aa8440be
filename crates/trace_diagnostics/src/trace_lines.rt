//! On which lines of a text the parts of a trace stand.
ghost use Rattle.std.specs.Prelude.{◌≡◌, OnOk, OnErr};
ghost use Rattle.trace_diagnostics.specs.Told as spec;
ghost use Rattle.trace_diagnostics.specs.Told.{number_at, record_line, entry_line, line_of_flaw, nothing_numbered, numbered};

use flaw_places::is_of_entry;
use hex_text::is_skipped;
use history_words::Flaw;
use std::alloc::{AllocError, Global};
use std::marker::Model;

/// On which lines of its text the records and entries of a trace stand.
#[derive(Drop)]
pub struct TraceLines {
    lines: u64,
    /// The numbers of those that are skipped.
    skipped: Vec<u64>,
}

impl Model for TraceLines {
    ghost use Rattle.trace_diagnostics.specs.Told.{TraceLinesView};

    ghost Value = { TraceLinesView };

    ghost view = { λ t. record { lines = t.lines; skipped = t.skipped.items } };
}

/// The number of a line where each of the skipped lines, in their order, puts those from its number on one
/// further.
fn further(skipped: &[u64], line: u64) -> u64
    ensures { result ≡ spec.further skipped.now line }
{
    let mut number = line;
    for other in skipped {
        if *other <= number {
            number = number.saturating_add(1);
        }
    }
    number
}

impl TraceLines {
    /// No line so far.
    pub fn new(alloc: Global) -> TraceLines
        ensures { result ≡ nothing_numbered }
    {
        TraceLines {
            lines: 0,
            skipped: Vec::new(alloc),
        }
    }

    /// Takes a line of the text. It grows where the line is skipped.
    #[inline(always)]
    pub fn note(&mut self, line: &[u8]) -> Result<(), AllocError>
        ensures ok { OnOk result (self.new ≡ numbered self.old line.now) }
        ensures err { OnErr result (self.new ≡ self.old) }
    {
        let number = self.lines.saturating_add(1);
        if is_skipped(line) {
            self.skipped.push(number)?;
        }
        self.lines = number;
        Ok(())
    }

    /// The number of the line, from 1, that is the nth one that isn't skipped, from 0.
    fn line(&self, nth: usize) -> u64
        ensures { result ≡ number_at self.now nth }
    {
        further(self.skipped.as_slice(), (nth as u64).saturating_add(1))
    }

    /// The line of the record at that place.
    pub fn of_record(&self, place: usize) -> u64
        ensures { result ≡ record_line self.now place }
    {
        self.line(place.saturating_add(2))
    }

    /// The line of the entry at that index of the history, after so many records.
    pub fn of_entry(&self, records: usize, index: usize) -> u64
        ensures { result ≡ entry_line self.now records index }
    {
        self.line(index.saturating_add(records.saturating_add(3)))
    }

    /// The line on which a flaw lies, after so many records.
    pub fn of_flaw(&self, records: usize, flaw: Flaw) -> u64
        ensures { result ≡ line_of_flaw self.now records flaw.kind flaw.place }
    {
        if is_of_entry(flaw.kind) {
            self.of_entry(records, flaw.place)
        } else {
            self.of_record(flaw.place)
        }
    }
}
