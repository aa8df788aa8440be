//! The subcommand `upgrade`: a trace in the second version of its text.
ghost use Rattle.std.specs.Prelude.{◌≡◌, IfOk, IfErr, OnErr, Ok, Err};
ghost use Rattle.trace_text.specs.TraceRewriterView.{nothing_rewritten, text_at_end};
ghost use Rattle.line_loop.specs.Run.{IsWhole, IsPart};
ghost use Rattle.trace_diagnostics.specs.Told.{first_of};
ghost use Rattle.trace_engine.specs.Reasons.{faulty_line};
ghost use Rattle.trace_engine.specs.Upgrade.{out_upgrade};

use crate::traces::{hand_over, tell_fault};
use line_loop::{EngineFault, Responder, Verdict, run};
use record_text::ReadFault;
use std::alloc::{AllocError, Global};
use std::io::{Read, Write};
use std::marker::Model;
use std::mem;
use trace_diagnostics::TraceReasons;
use trace_text::{TraceRewriter, a_rewriting_is_a_reading};

/// Tells the reason of the first fault, if one was found so far and its reason is still to be told. It is that
/// line's, if it is new.
#[tactic(auto, using(crate::proofs::Reasons::stays_known))]
fn tell_reason<E: Write + Drop>(
    rewriter: &TraceRewriter,
    line: &[u8],
    reasons: &mut TraceReasons<E>,
)
    ensures { reasons.new.told ≡ first_of reasons.old.told (faulty_line rewriter.now) }
{
    if let Some(fault) = rewriter.fault() {
        let _ = reasons.take_line(line, Some(fault.line), rewriter.cause());
    }
}

/// A trace that is written line by line as it is read, and the reasons that are told of it. The text is
/// handed on at the end: behind a fault nothing of it counts.
#[derive(Drop)]
struct Upgrader<E: Write> {
    alloc: Global,
    rewriter: TraceRewriter,
    reasons: TraceReasons<E>,
}

impl<E: Write> Model for Upgrader<E> {
    ghost use Rattle.trace_text.specs.TraceRewriterView.{TraceRewriterView};
    ghost use Rattle.trace_engine.specs.Reasons.{Agrees};

    ghost Value = { TraceRewriterView };

    ghost view = { λ u. u.rewriter };

    ghost invariant = { λ u. Agrees u.rewriter u.reasons };
}

impl<E: Write + Drop> Upgrader<E> {
    fn new(alloc: Global, errors: E) -> Upgrader<E>
        ensures { result ≡ nothing_rewritten }
    {
        Upgrader {
            alloc,
            rewriter: TraceRewriter::new(alloc),
            reasons: TraceReasons::new(errors),
        }
    }

    /// Takes the end of the text: gives the text in the second version, or the first fault, and keeps
    /// nothing.
    fn end(&mut self) -> Result<Vec<u8>, ReadFault>
        ensures ok { IfOk result (λ text. text_at_end self.old ≡ Ok text.items) }
        ensures err { IfErr result (λ f. text_at_end self.old ≡ Err f) }
        ensures gone { self.new ≡ nothing_rewritten }
    {
        let rewriter = mem::replace(&mut self.rewriter, TraceRewriter::new(self.alloc));
        let cause = rewriter.cause();
        match rewriter.end() {
            Ok(text) => Ok(text),
            Err(fault) => {
                let _ = self.reasons.take_end(fault.line, cause);
                Err(fault)
            }
        }
    }
}

impl<E: Write + Drop> Responder for Upgrader<E> {
    ghost use Rattle.trace_engine.specs.Rewriter.{rewriter_responses};

    ghost responses = { rewriter_responses };

    fn on_line(&mut self, line: &[u8], _out: &mut Vec<u8>) -> Result<Verdict, AllocError> {
        self.rewriter.line(line)?;
        tell_reason(&self.rewriter, line, &mut self.reasons);
        Ok(Verdict::Fine)
    }

    fn on_long_line(&mut self, _out: &mut Vec<u8>) -> Result<Verdict, AllocError> {
        self.rewriter.long_line();
        tell_reason(&self.rewriter, b"", &mut self.reasons);
        Ok(Verdict::Fine)
    }

    fn on_end(&mut self, out: &mut Vec<u8>) -> Result<Verdict, AllocError> {
        match self.end() {
            Ok(text) => {
                hand_over(text, out)?;
                Ok(Verdict::Fine)
            }
            Err(fault) => tell_fault(fault, out),
        }
    }
}

/// Reads the text of a trace, of version 1 or 2, and writes it in version 2, unchecked; or `fault`
/// with the line that can't be read and why. `Ok` is the exit status, 1 where a fault was told. After
/// an `Err` what was written is a prefix of the whole output. It keeps the text that it is to write,
/// and neither records nor entries. Why it answers a fault is told on `errors`, in a line; a stream that
/// fails there changes nothing.
pub fn run_upgrade<R: Read, W: Write, E: Write>(
    alloc: Global,
    reader: &mut R,
    writer: &mut W,
    errors: &mut E,
) -> Result<u8, EngineFault>
    ensures ok { IfOk result (IsWhole out_upgrade (R.remaining reader.old) (R.remaining reader.new) (W.contents writer.old) (W.contents writer.new)) }
    ensures err { OnErr result (IsPart out_upgrade (R.remaining reader.old) (R.remaining reader.new) (W.contents writer.old) (W.contents writer.new)) }
{
    a_rewriting_is_a_reading();
    let upgrader = Upgrader::new(alloc, errors);
    run(alloc, upgrader, reader, writer)
}
