//! Why a script's lines are refused, and its requests not served.
ghost use Rattle.std.specs.Prelude.{◌≡◌, true, IfOk, IfErr, OnErr};
ghost use Rattle.line_loop.specs.Run.{IsCaughtUp, IsWhole, IsPart};
ghost use Rattle.step_engine.specs.Step as spec;

use crate::options::StepOptions;
use crate::step::{Rooms, Stepper};
use arrayvec::ArrayString;
use diagnostics::{Reason, ReasonLines, Reasoned, Reasons, refusal_reason};
use line_loop::{EngineFault, Responder, Verdict, run};
use script_text::{script_misfit, write_refusal};
use seq_memory::{Counted, Keeper, Kept};
use std::alloc::{AllocError, Global};
use std::io::{Read, Write};
use std::marker::Model;

/// A script that is run line by line, and room for what its lines lend.
#[derive(Drop)]
struct Script<K: Keeper> {
    stepper: Stepper<K>,
    rooms: Rooms,
}

impl<K: Keeper> Model for Script<K> {
    ghost use Rattle.step_engine.specs.Step.{StepperView};

    ghost Value = { StepperView };

    ghost view = { λ s. s.stepper };
}

impl<K: Keeper> Responder for Script<K> {
    ghost use Rattle.step_engine.specs.Step.{step_responses};

    ghost responses = { step_responses };

    #[inline(always)]
    fn on_line(&mut self, line: &[u8], out: &mut Vec<u8>) -> Result<Verdict, AllocError> {
        self.stepper.answer(line, &mut self.rooms, out)
    }

    fn on_long_line(&mut self, out: &mut Vec<u8>) -> Result<Verdict, AllocError> {
        self.stepper.answer_long(out)
    }

    fn on_end(&mut self, out: &mut Vec<u8>) -> Result<Verdict, AllocError> {
        self.stepper.answer_end(out)
    }
}

impl<K: Keeper> Script<K> {
    /// Before its first line.
    fn new(alloc: Global, options: StepOptions) -> Script<K>
        requires { options.is_traced ≡ true → K.keeps ≡ true }
        ensures { result ≡ spec.new_script options }
    {
        Script {
            stepper: Stepper::new(alloc, options),
            rooms: Rooms::new(),
        }
    }

    /// Why the line that was answered last by a fault or a refusal is refused.
    fn reason(&mut self, line: &[u8]) -> Reason
        ensures { self.new ≡ self.old }
    {
        let Some(refusal) = self.stepper.take_refusal() else {
            return match script_misfit(line, self.stepper.has_fabric()) {
                Some(misfit) => Reason::of_misfit(line, &misfit),
                None => refusal_reason(line, ""),
            };
        };
        let mut name = ArrayString::new();
        write_refusal(&refusal, &mut name);
        refusal_reason(line, name.as_str())
    }
}

/// Why the request of an answer in words isn't served, if it isn't.
fn unserved(answer: &[u8]) -> Option<&'static str> {
    if answer.ends_with(b" ca") {
        Some(": ca (the request crosses a block)")
    } else if answer.ends_with(b" ur") {
        Some(": ur (the request isn't within the memory)")
    } else {
        None
    }
}

/// Tells why requests aren't served whose answers a line of the script had, each in a line.
fn tell_answers(text: &[u8], reasons: &mut ReasonLines) -> Result<(), AllocError> {
    for answer in text.split(|byte| *byte == b'\n') {
        if let Some(why) = unserved(answer) {
            let mut reason = Reason::new();
            reason.put(why);
            reasons.tell(&reason)?;
        }
    }
    Ok(())
}

/// Whether the text may have an answer of a request that isn't served: it says so at its end, or `settle` wrote it. The
/// text of a fault or a refusal doesn't end so.
#[inline(always)]
fn may_be_unserved(text: &[u8]) -> bool {
    matches!(
        text,
        [.., b' ', b'c', b'a', b'\n']
            | [.., b' ', b'u', b'r', b'\n']
            | [.., b's', b'e', b't', b't', b'l', b'e', b'd', b'\n']
    )
}

/// Says why a script's lines are refused, and its requests not served.
#[derive(Drop)]
struct ScriptReasons {}

impl<K: Keeper> Reasons<Script<K>> for ScriptReasons {
    #[inline(always)]
    fn is_due(&self, verdict: Verdict, text: &[u8]) -> bool {
        verdict.is_fault() || may_be_unserved(text)
    }

    fn tell(
        &self,
        script: &mut Script<K>,
        line: &[u8],
        text: &[u8],
        reasons: &mut ReasonLines,
    ) -> Result<(), AllocError> {
        if may_be_unserved(text) {
            tell_answers(text, reasons)
        } else {
            reasons.tell(&script.reason(line))
        }
    }
}

/// Runs a script: the first line makes a fabric, and each line after it is an event, whose result is written in a line,
/// or `settle`, which is answered by a line for each answer that it collects and the line `settled`. The first line that is
/// none, the first fault of the configuration and the first refusal end the run with one line; with `keeps_going` a refusal
/// doesn't end it. With `echoes` what answers an event or `settle` follows its line. With `is_traced` the trace of a run
/// that ends well is written in place of the results. `Ok` is the exit status, 1 where a fault or a refusal was told. After
/// an `Err` what was written is a prefix of the whole output. Why a line is a fault or a refusal, and a request isn't
/// served, is told on `errors`, a line each; a stream that fails there changes nothing.
pub fn run_step<R: Read, W: Write, E: Write>(
    alloc: Global,
    options: StepOptions,
    reader: &mut R,
    writer: &mut W,
    errors: &mut E,
) -> Result<u8, EngineFault>
    ensures ok { IfOk result (IsWhole (spec.out_step_with options) (R.remaining reader.old) (R.remaining reader.new) (W.contents writer.old)
        (W.contents writer.new)) }
    ensures err { OnErr result (IsPart (spec.out_step_with options) (R.remaining reader.old) (R.remaining reader.new) (W.contents writer.old)
        (W.contents writer.new)) }
    ensures read { IfErr result (λ f. f ≡ EngineFault.Read →
        IsCaughtUp spec.step_responses (spec.new_script options)
        (R.remaining reader.old) (R.remaining reader.new) (W.contents writer.old) (W.contents writer.new)) }
{
    if options.is_traced {
        let script: Script<Kept> = Script::new(alloc, options);
        run(
            alloc,
            Reasoned::new(alloc, script, ScriptReasons {}, errors),
            reader,
            writer,
        )
    } else {
        let script: Script<Counted> = Script::new(alloc, options);
        run(
            alloc,
            Reasoned::new(alloc, script, ScriptReasons {}, errors),
            reader,
            writer,
        )
    }
}
