//! Why a text is no trace.
ghost use Rattle.std.specs.Prelude.{◌≡◌, length, Some, None, IfErr, OnOk, OnErr};
ghost use Rattle.diagnostics.specs.Told.{IsReasonTold, IsReasonBegun, IsPartTold, IsPartBegun};
ghost use Rattle.trace_diagnostics.specs.Told.{first_of, news_of, line_of_flaw, part_of_flaw};

use crate::cause::tell_misread;
use crate::flaws::flaw_reason;
use crate::trace_lines::TraceLines;
use diagnostics::Part;
use flaw_places::is_of_entry;
use history_words::{AsClaim, Flaw};
use line_loop::EngineFault;
use record_text::Cause;
use std::alloc::Global;
use std::io::Write;
use std::marker::Model;

/// Tells why the text of a trace can't be read, or the trace isn't explained: one line at most. The
/// calls tell the number of the first line that can't be read, once one was found. After an `Err` a
/// prefix of the reason was written.
#[derive(Drop)]
pub struct TraceReasons<E: Write> {
    /// The line whose reason was told.
    told: Option<u64>,
    errors: E,
}

impl<E: Write> Model for TraceReasons<E> {
    ghost use Rattle.trace_diagnostics.specs.Told.{TraceReasonsView};

    ghost Value = { TraceReasonsView };

    ghost view = { λ t. record { told = t.told; errors = E.contents t.errors } };
}

impl<E: Write + Drop> TraceReasons<E> {
    /// Nothing is told so far, and a text begins. Reasons are told on `errors`.
    pub fn new(errors: E) -> TraceReasons<E>
        ensures told { result.told ≡ None }
        ensures errors { result.errors ≡ E.contents errors }
    {
        TraceReasons { told: None, errors }
    }

    /// The line of the fault, where its reason is still to be told.
    fn news(&mut self, fault: Option<u64>) -> Option<u64>
        ensures result { result ≡ news_of self.old.told fault }
        ensures told { self.new.told ≡ first_of self.old.told fault }
        ensures errors { self.new.errors ≡ self.old.errors }
    {
        if self.told.is_some() {
            return None;
        }
        self.told = fault;
        fault
    }

    /// Takes a line, and the cause of the fault, if there is one.
    pub fn take_line(
        &mut self,
        line: &[u8],
        fault: Option<u64>,
        cause: Cause,
    ) -> Result<(), EngineFault>
        ensures told { self.new.told ≡ first_of self.old.told fault }
        ensures errors { OnOk result (IsReasonTold (news_of self.old.told fault) self.old.errors self.new.errors) }
        ensures fault { IfErr result (λ f. f ≡ EngineFault.Write) }
        ensures part { OnErr result (IsReasonBegun (news_of self.old.told fault) self.old.errors self.new.errors) }
    {
        let news = self.news(fault);
        tell_misread(line, cause, news, &mut self.errors)
    }

    /// Takes the end of a text that has a fault, and what is wrong there, if none was found before. Then
    /// it begins anew.
    pub fn take_end(&mut self, fault: u64, cause: Cause) -> Result<(), EngineFault>
        ensures told { self.new.told ≡ None }
        ensures errors { OnOk result (IsReasonTold (news_of self.old.told (Some fault)) self.old.errors self.new.errors) }
        ensures fault { IfErr result (λ f. f ≡ EngineFault.Write) }
        ensures part { OnErr result (IsReasonBegun (news_of self.old.told (Some fault)) self.old.errors self.new.errors) }
    {
        let news = self.news(Some(fault));
        self.told = None;
        tell_misread(b"", cause, news, &mut self.errors)
    }

    /// Tells on which record or entry the trace's first flaw lies, which line of the text that is, what stands there and what was
    /// expected. Takes the bytes of the memory and a byte for each record, where the flaw's kind asks
    /// for them; where they are refused, less is told.
    pub fn tell_flaw<C: AsClaim>(
        &mut self,
        alloc: Global,
        claim: &C,
        flaw: Flaw,
        lines: &TraceLines,
    ) -> Result<(), EngineFault>
        ensures told { self.new.told ≡ self.old.told }
        ensures errors { OnOk result (IsPartTold (part_of_flaw flaw.kind flaw.place) (line_of_flaw lines.now
            (length (C.claim claim.now).records) flaw.kind flaw.place) self.old.errors self.new.errors) }
        ensures fault { IfErr result (λ f. f ≡ EngineFault.Write) }
        ensures part { OnErr result (IsPartBegun (part_of_flaw flaw.kind flaw.place) (line_of_flaw lines.now
            (length (C.claim claim.now).records) flaw.kind flaw.place) self.old.errors self.new.errors) }
    {
        let reason = flaw_reason(alloc, claim, flaw, lines);
        let line = lines.of_flaw(claim.records(), flaw);
        reason.tell_of(part_of(flaw), line, &mut self.errors)
    }
}

/// The record or the entry on which the flaw lies.
fn part_of(flaw: Flaw) -> Part
    ensures { result ≡ part_of_flaw flaw.kind flaw.place }
{
    if is_of_entry(flaw.kind) {
        Part::Entry(flaw.place)
    } else {
        Part::Record(flaw.place)
    }
}
