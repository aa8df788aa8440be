//! What the subcommands that read a trace share.
ghost use Rattle.std.specs.Prelude.{◌≡◌, ◌++◌, ◌∷◌, [], IfOk, IfErr, OnErr, OnOk, Ok, Err};
ghost use Rattle.trace_text.specs.Texts.{trace_text};
ghost use Rattle.trace_text.specs.TraceReaderView.{nothing_read, after_line, after_long_line, at_end};
ghost use Rattle.record_text.specs.Names.{fault_line};
ghost use Rattle.trace_diagnostics.specs.Told.{first_of};
ghost use Rattle.trace_engine.specs.Reasons.{faulty_line};

use arrayvec::ArrayString;
use history_words::{AsClaim, Flaw};
use line_loop::Verdict;
use record_text::{ReadFault, write_fault};
use std::alloc::{AllocError, Global};
use std::io::Write;
use std::marker::Model;
use std::mem;
use trace_diagnostics::{TraceLines, TraceReasons};
use trace_store::TraceStore;
use trace_text::{TraceReader, write_trace};

/// Tells the reason of the first fault, if one was found so far and its reason is still to be told. It is that
/// line's, if it is new. Without a fault the cause isn't asked for: most texts have none.
#[tactic(auto, using(crate::proofs::Reasons::stays_known))]
#[inline(always)]
fn tell_reason<E: Write + Drop>(reader: &TraceReader, line: &[u8], reasons: &mut TraceReasons<E>)
    ensures { reasons.new.told ≡ first_of reasons.old.told (faulty_line reader.now) }
{
    if let Some(fault) = reader.fault() {
        let _ = reasons.take_line(line, Some(fault.line), reader.cause());
    }
}

/// A trace that is read line by line, and the reasons that are told of it: where a line can't be read,
/// that of the first such line.
#[derive(Drop)]
pub struct TraceInput<E: Write> {
    alloc: Global,
    reader: TraceReader,
    pub(crate) reasons: TraceReasons<E>,
}

impl<E: Write> Model for TraceInput<E> {
    ghost use Rattle.trace_text.specs.TraceReaderView.{TraceReaderView};
    ghost use Rattle.trace_engine.specs.Reasons.{Agrees};

    ghost Value = { TraceReaderView };

    ghost view = { λ t. t.reader };

    ghost invariant = { λ t. Agrees t.reader t.reasons };
}

impl<E: Write + Drop> TraceInput<E> {
    /// Nothing is read so far. Reasons are told on `errors`.
    pub fn new(alloc: Global, errors: E) -> TraceInput<E>
        ensures { result ≡ nothing_read }
    {
        TraceInput {
            alloc,
            reader: TraceReader::new(alloc),
            reasons: TraceReasons::new(errors),
        }
    }

    /// Where the lists grow.
    pub fn alloc(&self) -> Global {
        self.alloc
    }

    /// Takes a line, without what ends it.
    #[inline(always)]
    pub fn line(&mut self, line: &[u8]) -> Result<(), AllocError>
        ensures ok { OnOk result (self.new ≡ after_line self.old line.now) }
        ensures err { OnErr result (self.new ≡ self.old) }
    {
        self.reader.line(line)?;
        tell_reason(&self.reader, line, &mut self.reasons);
        Ok(())
    }

    /// Takes a line of more bytes than a line may have.
    pub fn long_line(&mut self)
        ensures { self.new ≡ after_long_line self.old }
    {
        self.reader.long_line();
        tell_reason(&self.reader, b"", &mut self.reasons);
    }

    /// Tells the reason of a flaw of what was read, by the lines of its text, if the stream takes it.
    pub fn tell_flaw<C: AsClaim>(&mut self, claim: &C, flaw: Flaw, lines: &TraceLines)
        ensures { self.new ≡ self.old }
    {
        let _ = self.reasons.tell_flaw(self.alloc, claim, flaw, lines);
    }

    /// Takes the end of the text: gives what was read, or the first fault, and keeps nothing.
    pub fn end(&mut self) -> Result<TraceStore, ReadFault>
        ensures ok { IfOk result (λ t. at_end self.old ≡ Ok t) }
        ensures err { IfErr result (λ f. at_end self.old ≡ Err f) }
        ensures gone { self.new ≡ nothing_read }
    {
        let reader = mem::replace(&mut self.reader, TraceReader::new(self.alloc));
        let cause = reader.cause();
        match reader.end() {
            Ok(read) => Ok(read),
            Err(fault) => {
                let _ = self.reasons.take_end(fault.line, cause);
                Err(fault)
            }
        }
    }
}

/// Adds the line of a text that can't be read.
pub fn tell_fault(fault: ReadFault, out: &mut Vec<u8>) -> Result<Verdict, AllocError>
    ensures ok { IfOk result (λ verdict. (verdict ≡ Verdict.Fault) × (out.new.items ≡ out.old.items ++ (fault_line fault ++ 10 ∷ []))) }
    ensures err { OnErr result (out.new.items ≡ out.old.items) }
{
    let mut text = ArrayString::new();
    write_fault(fault, &mut text);
    text.push_str("\n");
    out.extend_from_slice(text.as_bytes())?;
    Ok(Verdict::Fault)
}

/// Adds the text, which takes the place of nothing where nothing is there.
pub(crate) fn hand_over(text: Vec<u8>, out: &mut Vec<u8>) -> Result<(), AllocError>
    ensures ok { OnOk result (out.new.items ≡ out.old.items ++ text.items) }
    ensures err { OnErr result (out.new.items ≡ out.old.items) }
{
    if out.is_empty() {
        *out = text;
        return Ok(());
    }
    out.extend_from_slice(text.as_slice())
}

/// Adds the text of the trace and its history.
pub fn tell_trace<C: AsClaim>(
    alloc: Global,
    claim: &C,
    out: &mut Vec<u8>,
) -> Result<Verdict, AllocError>
    ensures ok { IfOk result (λ verdict. (verdict ≡ Verdict.Fine) × (out.new.items ≡ out.old.items ++ trace_text (C.claim claim.now))) }
    ensures err { OnErr result (out.new.items ≡ out.old.items) }
{
    let text = write_trace(alloc, claim)?;
    hand_over(text.into_bytes(), out)?;
    Ok(Verdict::Fine)
}
