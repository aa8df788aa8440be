//! What is kept of the text of a trace, and where its lines stand.
ghost use Rattle.std.specs.Prelude.{◌≡◌, true, IfOk, OnErr};
ghost use Rattle.record_text.specs.RecordReaderView.{adds};
ghost use Rattle.record_text.specs.Step.{step_by, step_told};
ghost use Rattle.trace_text.specs.TraceReaderView.{trace_grammar};
ghost use Rattle.trace_text.specs.TraceReaderView as reads;
ghost use Rattle.trace_text.specs.Forms as forms;

use crate::line::{Line, ReadLine, Version, ans, any_line, ent, sub};
use history_words::RecordRef;
use operation_text::{Expected, Misfit};
use record_text::{Form, Scratch, Section, Taken};
use seq_memory::{Extent, MIN_SIZE};
use std::alloc::{AllocError, Global};
use std::marker::Model;
use trace_store::TraceStore;

const HEAD: Expected = Expected::Of(
    "the head",
    "pciex-trace 1, pciex-trace 2; step --trace prints one",
);

const MEMORY: Expected = Expected::Of("the memory's line", "memory");

const RECORD: Expected = Expected::Of("a record or the history", "sub, ans, history");

const ENTRY: Expected = Expected::Of("an entry or the end", "ent, end");

const NOTHING: Expected = Expected::Named("the text's end");

/// The section after a line, if the line is due in the section.
#[inline(always)]
pub(crate) fn section_after(section: Section, line: &Line<'_>) -> Option<Section>
    ensures { result ≡ forms.section_after section line.now }
{
    match (section, line) {
        (Section::FirstLine, Line::FirstLine(_)) => Some(Section::Memory),
        (Section::Memory, Line::Memory(_)) => Some(Section::Records),
        (Section::Records, Line::Record(_)) => Some(Section::Records),
        (Section::Records, Line::History) => Some(Section::History),
        (Section::History, Line::Entry(_)) => Some(Section::History),
        (Section::History, Line::End) => Some(Section::End),
        _ => None,
    }
}

/// The line that is due in the section.
pub(crate) fn expected(section: Section) -> Expected {
    match section {
        Section::FirstLine => HEAD,
        Section::Memory => MEMORY,
        Section::Records => RECORD,
        Section::History => ENTRY,
        Section::End => NOTHING,
    }
}

/// Whether a line that is due in the section begins with that word.
pub(crate) fn begins_with(section: Section, word: &[u8]) -> bool {
    match section {
        Section::FirstLine => word == b"pciex-trace".as_slice(),
        Section::Memory => word == b"memory".as_slice(),
        Section::Records => {
            word == b"sub".as_slice() || word == b"ans".as_slice() || word == b"history".as_slice()
        }
        Section::History => word == b"ent".as_slice() || word == b"end".as_slice(),
        Section::End => false,
    }
}

/// The extent of the least memory, until the memory's line tells another.
pub(crate) fn least_extent() -> Extent
    ensures { result ≡ record { base = 0; size = 128; block = 64 } }
{
    Extent::new(0, MIN_SIZE, 64).unwrap()
}

/// A trace and a history, as far as their text was read.
#[derive(Drop)]
pub(crate) struct TraceForm {
    version: Version,
    store: TraceStore,
}

impl Model for TraceForm {
    ghost use Rattle.seq_memory.specs.History.{extent_of};
    ghost use Rattle.trace_text.specs.TraceReaderView.{TraceFormView};

    ghost Value = { TraceFormView };

    ghost view = { λ t. record { version = t.version; extent = extent_of t.store.memory; records = t.store.records; entries = t.store.memory.entries } };
}

impl TraceForm {
    /// Nothing was read.
    pub(crate) fn new(alloc: Global) -> TraceForm
        ensures { result ≡ reads.no_trace }
    {
        TraceForm {
            version: Version::One,
            store: TraceStore::new(alloc, least_extent()),
        }
    }

    /// Takes a line, if one was read and is due in the section.
    #[inline(always)]
    fn keep(
        &mut self,
        section: Section,
        read: Result<ReadLine<'_, '_>, Misfit>,
        misfit: &mut Option<Misfit>,
    ) -> Result<Taken, AllocError>
        ensures ok { IfOk result (λ t. step_told t self.new ≡ step_by trace_grammar section self.old (forms.line_in read.entry)) }
        ensures err { OnErr result (self.new ≡ self.old) }
        ensures adds { OnErr result (adds trace_grammar section (forms.line_in read.entry) ≡ true) }
    {
        let line = match read {
            Ok(ReadLine { line, .. }) => line,
            Err(left) => {
                *misfit = Some(left);
                return Ok(Taken::Misfit);
            }
        };
        let Some(after) = section_after(section, &line) else {
            return Ok(Taken::NotDue);
        };
        match line {
            Line::FirstLine(version) => self.version = version,
            // (rattle has no proof of a line whose extent is taken by value)
            Line::Memory(ref extent) => self.store.set_extent(*extent),
            Line::Record(
                RecordRef::Sub {
                    requester,
                    number,
                    op,
                    n,
                },
            ) => self.store.submitted(requester, number, n, &op)?,
            Line::Record(
                RecordRef::Ans {
                    requester,
                    number,
                    reply,
                    n,
                },
            ) => self.store.answered(requester, number, n, &reply)?,
            Line::Entry(entry) => self.store.acted(entry.requester, entry.number, &entry.op)?,
            Line::History | Line::End => {}
        }
        Ok(Taken::Kept(after))
    }

    /// The trace and the history.
    pub(crate) fn claim(self) -> TraceStore
        ensures { result ≡ reads.claim_read self }
    {
        self.store
    }
}

impl Form for TraceForm {
    ghost use Rattle.trace_text.specs.declared.line.Line.{Line};
    ghost use Rattle.trace_text.specs.TraceReaderView.{trace_grammar};

    ghost Line = { Line };

    ghost grammar = { trace_grammar };

    // What the most frequent lines say is kept where it is read, and not moved.
    #[inline(always)]
    fn take(
        &mut self,
        section: Section,
        text: &[u8],
        scratch: &mut Scratch,
    ) -> Result<Taken, AllocError> {
        let Scratch { bytes, misfit } = scratch;
        match text {
            [b's', b'u', b'b', b' ', rest @ ..] => self.keep(
                section,
                sub(Some(rest), bytes),
                misfit,
            ),
            [b'a', b'n', b's', b' ', rest @ ..] => self.keep(
                section,
                ans(Some(rest), bytes),
                misfit,
            ),
            [b'e', b'n', b't', b' ', rest @ ..] => self.keep(
                section,
                ent(Some(rest), bytes),
                misfit,
            ),
            _ => self.keep(section, any_line(text, self.version, bytes), misfit),
        }
    }

    fn expected(section: Section) -> Expected {
        expected(section)
    }

    fn begins_with(section: Section, word: &[u8]) -> bool {
        begins_with(section, word)
    }
}
