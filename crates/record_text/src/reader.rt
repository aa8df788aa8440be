//! Reading a text of records line by line.
ghost use Rattle.std.specs.Prelude.{◌≡◌, true, OnOk, OnErr, IfOk, IfErr, Ok, Err};
ghost use Rattle.record_text.specs.RecordReaderView as reads;

use crate::fault::{Cause, Misread, ReadFault, ReadFaultKind};
use crate::form::{Form, Scratch, Section, Taken};
use hex_text::is_skipped;
use operation_text::{Expected, Misfit, split_word};
use std::alloc::AllocError;
use std::marker::Model;
use tlp_core::MAX_PAYLOAD;

/// A text of records, as far as it was read.
#[derive(Drop)]
pub struct RecordReader<F: Form> {
    section: Section,
    lines: u64,
    fault: Option<ReadFault>,
    /// What doesn't fit in the line of the fault, if there is one that isn't too long; and room for a line's bytes.
    scratch: Scratch,
    form: F,
}

impl<F: Form> Model for RecordReader<F> {
    ghost use Rattle.record_text.specs.RecordReaderView.{RecordReaderView};

    ghost Value = { RecordReaderView F };

    ghost view = { λ s. record { section = s.section; lines = s.lines; fault = s.fault; form = s.form } };
}

/// The kind of a fault of a line that isn't due in the section.
fn misplaced(section: Section) -> ReadFaultKind
    ensures { result ≡ reads.misplaced section }
{
    match section {
        Section::FirstLine => ReadFaultKind::Head,
        _ => ReadFaultKind::Section,
    }
}

/// The kind of a fault of a line of no form.
fn formless(section: Section) -> ReadFaultKind
    ensures { result ≡ reads.formless section }
{
    match section {
        Section::FirstLine => ReadFaultKind::Head,
        _ => ReadFaultKind::Line,
    }
}

impl<F: Form> RecordReader<F> {
    /// Nothing was read; that is kept.
    pub fn new(form: F) -> RecordReader<F>
        ensures { result ≡ reads.nothing_read form }
    {
        RecordReader {
            section: Section::FirstLine,
            lines: 0,
            fault: None,
            scratch: Scratch {
                bytes: [0; MAX_PAYLOAD],
                misfit: None,
            },
            form,
        }
    }

    /// The first fault of the lines so far.
    pub fn fault(&self) -> Option<ReadFault>
        ensures { result ≡ self.now.fault }
    {
        self.fault
    }

    /// The line that is due, for people.
    fn due(&self) -> Expected {
        F::expected(self.section)
    }

    /// What is wrong at the fault, or if there is none, that the text ends here.
    pub fn cause(&self) -> Cause {
        match (self.fault, self.scratch.misfit) {
            (None, _) => Cause::End(self.due()),
            (Some(_), Some(misfit)) => Cause::Misfit(misfit),
            (Some(_), None) => Cause::LongLine,
        }
    }

    /// The number of the line that comes next, from 1; it stays at 2^64 - 1.
    fn next_line(&self) -> u64
        ensures { result ≡ reads.next_line self.now }
    {
        self.lines.saturating_add(1)
    }

    /// A fault of that kind in the line that comes next.
    fn fault_at_next(&self, kind: ReadFaultKind) -> ReadFault
        ensures { result ≡ reads.fault_at_next self.now kind }
    {
        ReadFault {
            kind,
            line: self.next_line(),
        }
    }

    /// That memory ran out in the line that comes next.
    pub fn out_of_memory(&self) -> ReadFault
        ensures { result ≡ reads.fault_at_next self.now ReadFaultKind.Memory }
    {
        self.fault_at_next(ReadFaultKind::Memory)
    }

    /// That fault, with its cause.
    pub(crate) fn misread(&self, fault: ReadFault) -> Misread
        ensures { result.fault ≡ fault }
    {
        Misread {
            fault,
            cause: self.cause(),
        }
    }

    /// That memory ran out in the line that comes next, as a fault with a cause.
    pub(crate) fn refused(&self) -> Misread
        ensures { result.fault ≡ reads.fault_at_next self.now ReadFaultKind.Memory }
    {
        self.misread(self.out_of_memory())
    }

    #[inline(always)]
    fn count(&mut self)
        ensures { self.new ≡ reads.counted self.old }
    {
        self.lines = self.lines.saturating_add(1);
    }

    /// Takes a line with a fault of that kind.
    fn refuse(&mut self, kind: ReadFaultKind, misfit: Option<Misfit>)
        ensures { self.new ≡ reads.faulty self.old kind }
    {
        self.fault = Some(self.fault_at_next(kind));
        self.scratch.misfit = misfit;
        self.lines = self.lines.saturating_add(1);
    }

    /// Counts a line after which that section goes on.
    #[inline(always)]
    fn go_on(&mut self, section: Section)
        ensures { self.new ≡ reads.gone_on self.old section }
    {
        self.section = section;
        self.count();
    }

    /// What doesn't fit in a line of no form: its first word, if no line that is due begins with it.
    fn misfit_of(&self, text: &[u8]) -> Option<Misfit> {
        if F::begins_with(self.section, split_word(text).0) {
            self.scratch.misfit
        } else {
            Some(self.due().at(Some(text)))
        }
    }
}

impl<F: Form> RecordReader<F> {
    /// Takes a line, without the line feed and the carriage return that end it. Behind a fault
    /// nothing is read. `Err` tells that an allocation failed, for a line behind no fault; nothing was
    /// taken then.
    #[inline(always)]
    pub fn line(&mut self, line: &[u8]) -> Result<(), AllocError>
        ensures ok { OnOk result (self.new ≡ reads.after_line F.grammar self.old line.now) }
        ensures err { OnErr result (self.new ≡ self.old) }
        ensures adds { OnErr result (reads.adds_one F.grammar self.old line.now ≡ true) }
    {
        if self.fault.is_some() {
            return Ok(());
        }
        if is_skipped(line) {
            self.count();
            return Ok(());
        }
        let RecordReader {
            section,
            scratch,
            form,
            ..
        } = self;
        match form.take(*section, line, scratch)? {
            Taken::Kept(section) => self.go_on(section),
            Taken::NotDue => self.refuse(misplaced(self.section), Some(self.due().at(Some(line)))),
            Taken::Misfit => self.refuse(formless(self.section), self.misfit_of(line)),
        }
        Ok(())
    }

    /// Takes a line of more bytes than a line may have: 512 before its line feed.
    pub fn long_line(&mut self)
        ensures { self.new ≡ reads.after_long_line self.old }
    {
        if self.fault.is_none() {
            self.refuse(formless(self.section), None);
        }
    }

    /// What is kept of all lines, or the first fault.
    pub fn end(self) -> Result<F, ReadFault>
        ensures ok { IfOk result (λ form. reads.at_end self ≡ Ok form) }
        ensures err { IfErr result (λ f. reads.at_end self ≡ Err f) }
    {
        if let Some(fault) = self.fault {
            return Err(fault);
        }
        match self.section {
            Section::FirstLine => Err(self.fault_at_next(ReadFaultKind::Head)),
            Section::Memory => Err(self.fault_at_next(ReadFaultKind::Line)),
            Section::Records | Section::History => {
                Err(self.fault_at_next(ReadFaultKind::Section))
            }
            Section::End => Ok(self.form),
        }
    }
}
