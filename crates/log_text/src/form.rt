//! What is kept of the text of a log, and where its lines stand.
ghost use Rattle.std.specs.Prelude.{◌≡◌, true, IfOk, OnErr};
ghost use Rattle.std.specs.Result.{result_ok};
ghost use Rattle.record_text.specs.RecordReaderView.{adds};
ghost use Rattle.record_text.specs.Step.{step_by, step_told};
ghost use Rattle.log_text.specs.LogReaderView.{log_grammar};
ghost use Rattle.log_text.specs.LogReaderView as reads;
ghost use Rattle.log_text.specs.Forms as forms;

use crate::line::{LogLine, Version, ans, read_line, sub};
use operation_text::{Expected, Misfit};
use record_text::{Form, Scratch, Section, Taken};
use seq_memory::{Extent, MIN_SIZE};
use std::alloc::{AllocError, Global};
use std::marker::Model;
use trace_store::RecordStore;

/// The head of a log, or of a trace, which may stand in its place.
const HEAD: Expected = Expected::Of(
    "the head",
    "pciex-log 1, pciex-log 2, pciex-trace 1, pciex-trace 2",
);

const MEMORY: Expected = Expected::Of("the memory's line", "memory <base> <size> <block>");

const RECORD: Expected = Expected::Of(
    "a record or the end",
    "sub <requester> <number> <operation>, ans <requester> <number> <reply>, end",
);

const NOTHING: Expected = Expected::Named("the text's end");

/// The section after a line, if the line is due in the section.
#[inline(always)]
fn section_after(section: Section, line: &LogLine<'_>) -> Option<Section>
    ensures { result ≡ forms.section_after section line.now }
{
    match (section, line) {
        (Section::FirstLine, LogLine::FirstLine(_)) => Some(Section::Memory),
        (Section::Memory, LogLine::Memory(_)) => Some(Section::Records),
        (Section::Records, LogLine::Record(_)) => Some(Section::Records),
        (Section::Records, LogLine::End) => Some(Section::End),
        _ => None,
    }
}

/// A log, as far as its text was read.
#[derive(Drop)]
pub(crate) struct LogForm {
    version: Version,
    seen: RecordStore,
}

impl Model for LogForm {
    ghost use Rattle.history_words.specs.TraceView.{observed};
    ghost use Rattle.log_text.specs.LogReaderView.{LogFormView};

    ghost Value = { LogFormView };

    ghost view = { λ l. record { version = l.version; extent = observed l.seen; records = l.seen.records } };
}

impl LogForm {
    /// Nothing was read.
    pub(crate) fn new(alloc: Global) -> LogForm
        ensures { result ≡ reads.no_log }
    {
        LogForm {
            version: Version::One,
            seen: RecordStore::new(alloc, Extent::new(0, MIN_SIZE, 64).unwrap()),
        }
    }

    /// Takes a line, if one was read and is due in the section.
    #[inline(always)]
    fn keep(
        &mut self,
        section: Section,
        read: &Result<LogLine<'_>, Misfit>,
        misfit: &mut Option<Misfit>,
    ) -> Result<Taken, AllocError>
        ensures ok { IfOk result (λ t. step_told t self.new ≡ step_by log_grammar section self.old (result_ok read.now)) }
        ensures err { OnErr result (self.new ≡ self.old) }
        ensures adds { OnErr result (adds log_grammar section (result_ok read.now) ≡ true) }
    {
        let line = match read {
            Ok(line) => line,
            Err(left) => {
                *misfit = Some(*left);
                return Ok(Taken::Misfit);
            }
        };
        let Some(after) = section_after(section, line) else {
            return Ok(Taken::NotDue);
        };
        match line {
            LogLine::FirstLine(version) => self.version = *version,
            LogLine::Memory(extent) => self.seen.set_extent(*extent),
            LogLine::Record(record) => self.seen.push(record)?,
            LogLine::End => {}
        }
        Ok(Taken::Kept(after))
    }

    /// The log.
    pub(crate) fn log(self) -> RecordStore
        ensures { result ≡ reads.log_read self }
    {
        self.seen
    }
}

impl Form for LogForm {
    ghost use Rattle.log_text.specs.declared.line.LogLine.{LogLine};
    ghost use Rattle.log_text.specs.LogReaderView.{log_grammar};

    ghost Line = { LogLine };

    ghost grammar = { log_grammar };

    // What most lines say is kept where it is read, and not moved.
    #[inline(always)]
    fn take(
        &mut self,
        section: Section,
        text: &[u8],
        scratch: &mut Scratch,
    ) -> Result<Taken, AllocError> {
        let Scratch { bytes, misfit } = scratch;
        match text {
            [b's', b'u', b'b', b' ', rest @ ..] => self.keep(
                section,
                &sub(Some(rest), bytes),
                misfit,
            ),
            [b'a', b'n', b's', b' ', rest @ ..] => self.keep(
                section,
                &ans(Some(rest), self.version, bytes),
                misfit,
            ),
            _ => self.keep(section, &read_line(text, self.version, bytes), misfit),
        }
    }

    fn expected(section: Section) -> Expected {
        match section {
            Section::FirstLine => HEAD,
            Section::Memory => MEMORY,
            Section::Records | Section::History => RECORD,
            Section::End => NOTHING,
        }
    }

    fn begins_with(section: Section, word: &[u8]) -> bool {
        match section {
            Section::Memory => word == b"memory".as_slice(),
            Section::Records => {
                word == b"sub".as_slice() || word == b"ans".as_slice() || word == b"end".as_slice()
            }
            _ => false,
        }
    }
}
