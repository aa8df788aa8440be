//! The subcommand `check`: whether a history explains what requesters were told.
ghost use Rattle.std.specs.Prelude.{◌≡◌, ◌++◌, ◌∷◌, [], codes, Some, IfOk, IfErr, OnOk, OnErr};
ghost use Rattle.trace_text.specs.TraceReaderView.{nothing_read, at_end};
ghost use Rattle.line_loop.specs.Run.{IsAnswer, IsWhole, IsPart};
ghost use Rattle.flaw_places.specs.Places.{flaw_line};
ghost use Rattle.trace_engine.specs.Check.{judged, if_clocked, flaw_with, checked_with, out_check, out_check_clocked, out_check_with};
ghost use Rattle.trace_engine.specs.Reasons.{IsFlawTold, IsFlawBegun};

use crate::traces::{TraceInput, tell_fault};
use arrayvec::ArrayString;
use flaw_places::write_flaw;
use history_check::check_claim_with_clock;
use history_words::{Flaw, FlawKind};
use line_loop::{EngineFault, Responder, Verdict, run};
use std::alloc::{AllocError, Global};
use std::io::{Read, Write};
use std::marker::Model;
use trace_diagnostics::{TraceLines, TraceReasons};
use trace_store::TraceStore;

/// Adds the line of a flaw.
fn tell_flaw(flaw: Flaw, out: &mut Vec<u8>) -> Result<Verdict, AllocError>
    ensures ok { IfOk result (λ verdict. (verdict ≡ Verdict.Fault) × (out.new.items ≡ out.old.items ++ (flaw_line flaw.kind flaw.place ++ 10 ∷ []))) }
    ensures err { OnErr result (out.new.items ≡ out.old.items) }
{
    let mut text = ArrayString::new();
    write_flaw(flaw, &mut text);
    text.push_str("\n");
    out.extend_from_slice(text.as_bytes())?;
    Ok(Verdict::Fault)
}

/// Adds `ok`.
fn tell_ok(out: &mut Vec<u8>) -> Result<Verdict, AllocError>
    ensures ok { IfOk result (λ verdict. (verdict ≡ Verdict.Fine) × (out.new.items ≡ out.old.items ++ (codes "ok" ++ 10 ∷ []))) }
    ensures err { OnErr result (out.new.items ≡ out.old.items) }
{
    out.extend_from_slice(b"ok\n")?;
    Ok(Verdict::Fine)
}

/// Adds the line of a trace that the history explains, whose `n` have that flaw: it is told in the line only
/// if it is asked for.
fn tell_clock(flaw: Flaw, is_clocked: bool, out: &mut Vec<u8>) -> Result<Verdict, AllocError>
    ensures ok { IfOk result (λ verdict. IsAnswer nothing_read out.old.items out.new.items verdict
        (judged (if_clocked is_clocked (Some (flaw.kind, flaw.place))))) }
    ensures err { OnErr result (out.new.items ≡ out.old.items) }
{
    if is_clocked {
        tell_flaw(flaw, out)
    } else {
        tell_ok(out)
    }
}

/// Adds the line that tells whether the history explains the trace, and tells the reason of a flaw, be it of
/// an `n` that isn't asked for. Returns the verdict, and whether the stream took the reason.
fn judge<E: Write + Drop>(
    alloc: Global,
    claim: &TraceStore,
    is_clocked: bool,
    lines: &TraceLines,
    reasons: &mut TraceReasons<E>,
    out: &mut Vec<u8>,
) -> Result<(Verdict, Result<(), EngineFault>), AllocError>
    ensures ok { IfOk result (λ answered. IsAnswer nothing_read out.old.items out.new.items answered.0 (judged (flaw_with is_clocked claim.now))) }
    ensures err { OnErr result (out.new.items ≡ out.old.items) }
    ensures reason { IfOk result (λ answered. OnOk answered.1 (IsFlawTold lines.now claim.now reasons.old.errors reasons.new.errors)) }
    ensures fault { IfOk result (λ answered. IfErr answered.1 (λ f. f ≡ EngineFault.Write)) }
    ensures part { IfOk result (λ answered. OnErr answered.1 (IsFlawBegun lines.now claim.now reasons.old.errors reasons.new.errors)) }
    ensures told { reasons.new.told ≡ reasons.old.told }
{
    match check_claim_with_clock(alloc, claim) {
        Ok(None) => {
            let verdict = tell_ok(out)?;
            Ok((verdict, Ok(())))
        }
        Ok(Some(place)) => {
            let flaw = Flaw {
                kind: FlawKind::Clock,
                place,
            };
            let told = reasons.tell_flaw(alloc, claim, flaw, lines);
            let verdict = tell_clock(flaw, is_clocked, out)?;
            Ok((verdict, told))
        }
        Err(flaw) if flaw.kind == FlawKind::Memory => Err(AllocError),
        Err(flaw) => {
            let reason = reasons.tell_flaw(alloc, claim, flaw, lines);
            let verdict = tell_flaw(flaw, out)?;
            Ok((verdict, reason))
        }
    }
}

/// A trace that is read, and then checked.
#[derive(Drop)]
struct Checker<E: Write> {
    input: TraceInput<E>,
    lines: TraceLines,
}

impl<E: Write> Model for Checker<E> {
    ghost use Rattle.trace_text.specs.TraceReaderView.{TraceReaderView};

    ghost Value = { TraceReaderView };

    ghost view = { λ c. c.input };
}

impl<E: Write + Drop> Checker<E> {
    fn new(alloc: Global, errors: E) -> Checker<E>
        ensures { result ≡ nothing_read }
    {
        Checker {
            input: TraceInput::new(alloc, errors),
            lines: TraceLines::new(alloc),
        }
    }

    /// Answers the end of the input.
    fn conclude(&mut self, is_clocked: bool, out: &mut Vec<u8>) -> Result<Verdict, AllocError>
        ensures ok { IfOk result (λ verdict. IsAnswer self.new out.old.items out.new.items verdict (checked_with is_clocked (at_end self.old))) }
        ensures err { OnErr result (out.new.items ≡ out.old.items) }
    {
        match self.input.end() {
            Ok(claim) => {
                let (verdict, _) = judge(
                    self.input.alloc(),
                    &claim,
                    is_clocked,
                    &self.lines,
                    &mut self.input.reasons,
                    out,
                )?;
                Ok(verdict)
            }
            Err(fault) => tell_fault(fault, out),
        }
    }
}

impl<E: Write + Drop> Responder for Checker<E> {
    ghost use Rattle.trace_engine.specs.Check.{check_responses};

    ghost responses = { check_responses };

    #[inline(always)]
    fn on_line(&mut self, line: &[u8], _out: &mut Vec<u8>) -> Result<Verdict, AllocError> {
        self.lines.note(line)?;
        self.input.line(line)?;
        Ok(Verdict::Fine)
    }

    fn on_long_line(&mut self, _out: &mut Vec<u8>) -> Result<Verdict, AllocError> {
        self.input.long_line();
        Ok(Verdict::Fine)
    }

    fn on_end(&mut self, out: &mut Vec<u8>) -> Result<Verdict, AllocError> {
        self.conclude(false, out)
    }
}

/// A checker that asks for the `n`, too.
#[derive(Drop)]
struct ClockedChecker<E: Write> {
    checker: Checker<E>,
}

impl<E: Write> Model for ClockedChecker<E> {
    ghost use Rattle.trace_text.specs.TraceReaderView.{TraceReaderView};

    ghost Value = { TraceReaderView };

    ghost view = { λ c. c.checker };
}

impl<E: Write + Drop> Responder for ClockedChecker<E> {
    ghost use Rattle.trace_engine.specs.Check.{clocked_responses};

    ghost responses = { clocked_responses };

    fn on_line(&mut self, line: &[u8], out: &mut Vec<u8>) -> Result<Verdict, AllocError> {
        self.checker.on_line(line, out)
    }

    fn on_long_line(&mut self, out: &mut Vec<u8>) -> Result<Verdict, AllocError> {
        self.checker.on_long_line(out)
    }

    fn on_end(&mut self, out: &mut Vec<u8>) -> Result<Verdict, AllocError> {
        self.checker.conclude(true, out)
    }
}

/// Reads the text of a trace and writes one line: `ok` where its history explains its records, else `flaw` with the
/// number, the name and the place of the first flaw; or `fault` with the line that can't be read and why. If `is_clocked`
/// is set, it asks also that the `n` are those of a history that grew: they never fall, none is above the history's
/// length, and no request acted before the `n` of its submission. Where only that is wrong, the line is `flaw 13 Clock`
/// with the place of the first such record. `Ok` is the exit status, 0 for `ok` and else 1. After an `Err` what was
/// written is a prefix of the whole output. Why it answers a flaw or a fault, or that the `n` of a trace that is explained
/// are not those of a history that grew, is told on `errors`, in a line; a stream that fails there changes nothing.
pub fn run_check<R: Read, W: Write, E: Write>(
    alloc: Global,
    is_clocked: bool,
    reader: &mut R,
    writer: &mut W,
    errors: &mut E,
) -> Result<u8, EngineFault>
    ensures ok { IfOk result (IsWhole (out_check_with is_clocked) (R.remaining reader.old) (R.remaining reader.new) (W.contents writer.old)
        (W.contents writer.new)) }
    ensures err { OnErr result (IsPart (out_check_with is_clocked) (R.remaining reader.old) (R.remaining reader.new) (W.contents writer.old)
        (W.contents writer.new)) }
{
    let checker = Checker::new(alloc, errors);
    if is_clocked {
        run(alloc, ClockedChecker { checker }, reader, writer)
    } else {
        run(alloc, checker, reader, writer)
    }
}
