//! The subcommand `step`: scripts of events for a fabric.
ghost use Rattle.std.specs.Prelude.{◌≡◌, ◌≤◌, true, ◌+◌, ◌++◌, ◌∷◌, [], length, is_some, Ok, Err, IfOk, IfErr, OnOk, OnErr};
ghost use Rattle.arrayvec.specs.ArrayString.{array_string_len};
ghost use Rattle.fabric_core.specs.Answers.{answer};
ghost use Rattle.fabric_steps.specs.Faults.{IsTold};
ghost use Rattle.fabric_core.specs.Config.{fault_name};
ghost use Rattle.script_text.specs.Names.{refusal_text};
ghost use Rattle.script_text.specs.Texts.{seen_text};
ghost use Rattle.line_loop.specs.Run.{IsAnswer};
ghost use Rattle.step_engine.specs.Step as spec;

use crate::answering::{ending, put_settled, put_shown};
use crate::options::StepOptions;
use arrayvec::ArrayString;
use fabric_core::{ANSWER_ROOM, Config, ConfigFault, EventRef, Fabric, Refusal, SeenRef};
use fabric_settle::{happen, settle};
use hex_text::is_skipped;
use history_words::{Claim, Record};
use line_loop::Verdict;
use requester_core::Answer;
use script_text::{Line, read_line, write_config_fault, write_refusal, write_seen};
use seq_memory::Keeper;
use std::alloc::{AllocError, Global};
use std::marker::Model;
use std::mem;
use tlp_core::MAX_PAYLOAD;
use trace_engine::tell_trace;

/// What is seen of an event that happens to the fabric.
#[inline(always)]
fn see<'a, K: Keeper>(
    fabric: &mut Fabric<K>,
    event: &EventRef<'_>,
    room: &'a mut Answer,
) -> Result<SeenRef<'a>, Refusal>
    ensures ok { IfOk result (λ what. answer fabric.old event.now ≡ Ok (what, fabric.new)) }
    ensures refused { IfErr result (λ r. IsTold r → answer fabric.old event.now ≡ Err r) }
    ensures err { OnErr result (fabric.new ≡ fabric.old) }
{
    fabric.step(event, room)
}

/// Room for what lines lend.
#[derive(Drop)]
pub(crate) struct Rooms {
    /// Room for the bytes of a line's operation.
    bytes: [u8; MAX_PAYLOAD],
    /// Room for the answer that a requester takes.
    answer: Answer,
}

impl Rooms {
    pub(crate) fn new() -> Rooms {
        Rooms {
            bytes: [0; MAX_PAYLOAD],
            answer: ANSWER_ROOM,
        }
    }
}

/// A script that is run line by line. Its fabric keeps the history where a trace is asked for.
#[derive(Drop)]
pub(crate) struct Stepper<K: Keeper> {
    alloc: Global,
    options: StepOptions,
    fabric: Option<Fabric<K>>,
    records: Vec<Record>,
    lines: u64,
    has_ended: bool,
    /// Why the fabric refused the event that was refused last, as long as nobody took it.
    refusal: Option<Refusal>,
    /// Room for the text that answers a line.
    text: ArrayString<512>,
}

impl<K: Keeper> Model for Stepper<K> {
    ghost use Rattle.std.specs.Prelude.{◌≡◌, true};
    ghost use Rattle.step_engine.specs.Step.{StepperView};

    ghost Value = { StepperView };

    ghost view = { λ s. record { options = s.options; fabric = s.fabric; records = s.records.items; lines = s.lines; has_ended = s.has_ended } };

    ghost invariant = { λ s. s.options.is_traced ≡ true → K.keeps ≡ true };
}

impl<K: Keeper> Stepper<K> {
    pub(crate) fn new(alloc: Global, options: StepOptions) -> Stepper<K>
        requires { options.is_traced ≡ true → K.keeps ≡ true }
        ensures { result ≡ spec.new_script options }
    {
        Stepper {
            alloc,
            options,
            fabric: None,
            records: Vec::new(alloc),
            lines: 0,
            has_ended: false,
            refusal: None,
            text: ArrayString::new(),
        }
    }

    /// Whether the script has its fabric.
    pub(crate) fn has_fabric(&self) -> bool
        ensures { result ≡ is_some self.now.fabric }
    {
        self.fabric.is_some()
    }

    /// Why the fabric refused the event that was refused last, where nobody took it yet.
    pub(crate) fn take_refusal(&mut self) -> Option<Refusal>
        ensures { self.new ≡ self.old }
    {
        self.refusal.take()
    }

    /// The number of the line that comes next, from 1; it stays at 2^64 - 1.
    fn next_line(&self) -> u64
        ensures { result ≡ spec.next_line self.now }
    {
        self.lines.saturating_add(1)
    }

    fn count(&mut self)
        ensures { self.new ≡ spec.counted self.old }
    {
        self.lines = self.next_line();
    }

    /// Ends the run with this line.
    fn end(&mut self, mut line: ArrayString<512>, out: &mut Vec<u8>) -> Result<Verdict, AllocError>
        requires { array_string_len line ≤ 64 }
        ensures ok { IfOk result (λ verdict. IsAnswer self.new out.old.items out.new.items verdict (spec.ends self.old (line.bytes ++ 10 ∷ []))) }
        ensures err { OnErr result (out.new.items ≡ out.old.items) }
    {
        line.push_str("\n");
        out.extend_from_slice(line.as_bytes())?;
        self.count();
        self.has_ended = true;
        Ok(Verdict::Fault)
    }

    /// The line is none of a script.
    fn no_line(&mut self, out: &mut Vec<u8>) -> Result<Verdict, AllocError>
        ensures ok { IfOk result (λ verdict. IsAnswer self.new out.old.items out.new.items verdict (spec.no_line self.old)) }
        ensures err { OnErr result (out.new.items ≡ out.old.items) }
    {
        let mut line = ending("fault ", self.next_line());
        line.push_str("Script");
        self.end(line, out)
    }

    /// There is no fabric of the configuration.
    fn not_made(&mut self, fault: ConfigFault, out: &mut Vec<u8>) -> Result<Verdict, AllocError>
        ensures ok { IfOk result (λ verdict. IsAnswer self.new out.old.items out.new.items verdict (spec.fault self.old (fault_name fault))) }
        ensures err { OnErr result (out.new.items ≡ out.old.items) }
    {
        let mut line = ending("fault ", self.next_line());
        write_config_fault(&fault, &mut line);
        self.end(line, out)
    }

    /// An event was refused, which ends the run unless it goes on; out of memory is no answer.
    fn refused(
        &mut self,
        line: &[u8],
        refusal: Refusal,
        out: &mut Vec<u8>,
    ) -> Result<Verdict, AllocError>
        ensures ok { IfOk result (λ verdict. IsTold refusal ×
            IsAnswer self.new out.old.items out.new.items verdict (spec.refused self.old line.now (refusal_text refusal))) }
        ensures err { OnErr result (out.new.items ≡ out.old.items) }
    {
        if refusal.is_memory() {
            return Err(AllocError);
        }
        let mut text = ending("refused ", self.next_line());
        write_refusal(&refusal, &mut text);
        self.refusal = Some(refusal);
        let is_hidden = self.options.keeps_going && self.options.is_traced;
        if !is_hidden {
            put_shown(self.options.echoes, line, &mut text, out)?;
        }
        self.count();
        self.has_ended = !self.options.keeps_going;
        Ok(Verdict::Fault)
    }
}

impl<K: Keeper> Stepper<K> {
    /// The fabric of the script is made.
    fn make(&mut self, config: Config, out: &mut Vec<u8>) -> Result<Verdict, AllocError>
        ensures ok { IfOk result (λ verdict. IsAnswer self.new out.old.items out.new.items verdict (spec.made_once self.old self.old.fabric config)) }
        ensures err { OnErr result (out.new.items ≡ out.old.items) }
    {
        if self.fabric.is_some() {
            return self.no_line(out);
        }
        match Fabric::with_keeper(config, self.alloc) {
            Ok(fabric) => {
                self.fabric = Some(fabric);
                self.count();
                Ok(Verdict::Fine)
            }
            Err(ConfigFault::Memory) => Err(AllocError),
            Err(fault) => self.not_made(fault, out),
        }
    }

    /// Tells what was seen of an event.
    #[inline(always)]
    fn tell(
        &mut self,
        line: &[u8],
        event: &EventRef<'_>,
        seen: &SeenRef<'_>,
        out: &mut Vec<u8>,
    ) -> Result<Verdict, AllocError>
        ensures state { OnOk result (self.new ≡ spec.counted self.old) }
        ensures text { OnOk result (out.new.items ≡ out.old.items ++ spec.shown self.old.options.echoes line.now (seen_text event.now seen.now)) }
        ensures verdict { IfOk result (λ verdict. verdict ≡ Verdict.Fine) }
        ensures err { OnErr result (out.new.items ≡ out.old.items) }
    {
        self.text.clear();
        write_seen(event, seen, &mut self.text);
        put_shown(self.options.echoes, line, &mut self.text, out)?;
        self.count();
        Ok(Verdict::Fine)
    }

    /// An event happens.
    #[inline(always)]
    fn happen(
        &mut self,
        line: &[u8],
        event: &EventRef<'_>,
        room: &mut Answer,
        out: &mut Vec<u8>,
    ) -> Result<Verdict, AllocError>
        ensures ok { IfOk result (λ verdict. IsAnswer self.new out.old.items out.new.items verdict
            (spec.happened self.old line.now self.old.fabric event.now)) }
        ensures err { OnErr result (out.new.items ≡ out.old.items) }
    {
        let number = self.next_line();
        let Some(fabric) = &mut self.fabric else {
            return self.no_line(out);
        };
        if self.options.is_traced {
            match happen(fabric, &mut self.records, number, event) {
                Ok(()) => {
                    self.count();
                    Ok(Verdict::Fine)
                }
                Err(refusal) => self.refused(line, refusal, out),
            }
        } else {
            match see(fabric, event, room) {
                Ok(seen) => self.tell(line, event, &seen, out),
                Err(refusal) => self.refused(line, refusal, out),
            }
        }
    }

    /// The fabric is run until nothing moves.
    fn settle(&mut self, line: &[u8], out: &mut Vec<u8>) -> Result<Verdict, AllocError>
        ensures ok { IfOk result (λ verdict. IsAnswer self.new out.old.items out.new.items verdict (spec.settled self.old line.now self.old.fabric)) }
        ensures err { OnErr result (out.new.items ≡ out.old.items) }
    {
        let number = self.next_line();
        let Some(fabric) = &mut self.fabric else {
            return self.no_line(out);
        };
        if self.options.is_traced {
            settle(fabric, &mut self.records, number)?;
            self.count();
            return Ok(Verdict::Fine);
        }
        let mut answers = Vec::new(self.alloc);
        settle(fabric, &mut answers, number)?;
        let mut lines = Vec::new(self.alloc);
        put_settled(self.options.echoes, line, answers.as_slice(), &mut lines)?;
        out.extend_from_slice(lines.as_slice())?;
        self.count();
        Ok(Verdict::Fine)
    }
}

impl<K: Keeper> Stepper<K> {
    /// Answers a line.
    #[inline(always)]
    pub(crate) fn answer(
        &mut self,
        line: &[u8],
        rooms: &mut Rooms,
        out: &mut Vec<u8>,
    ) -> Result<Verdict, AllocError>
        ensures ok { IfOk result (λ verdict. IsAnswer self.new out.old.items out.new.items verdict (spec.step_line self.old line.now)) }
        ensures err { OnErr result (out.new.items ≡ out.old.items) }
    {
        if self.has_ended {
            return Ok(Verdict::Fine);
        }
        if is_skipped(line) {
            self.count();
            return Ok(Verdict::Fine);
        }
        match &read_line(line, &mut rooms.bytes) {
            Err(_) => self.no_line(out),
            Ok(Line::Fabric(config)) => self.make(*config, out),
            Ok(Line::Settle) => self.settle(line, out),
            Ok(Line::Event(event)) => self.happen(line, event, &mut rooms.answer, out),
        }
    }

    /// Answers a line of more bytes than a line may have.
    pub(crate) fn answer_long(&mut self, out: &mut Vec<u8>) -> Result<Verdict, AllocError>
        ensures ok { IfOk result (λ verdict. IsAnswer self.new out.old.items out.new.items verdict (spec.step_long_line self.old)) }
        ensures err { OnErr result (out.new.items ≡ out.old.items) }
    {
        if self.has_ended {
            return Ok(Verdict::Fine);
        }
        self.no_line(out)
    }

    /// Answers the end of the input.
    pub(crate) fn answer_end(&mut self, out: &mut Vec<u8>) -> Result<Verdict, AllocError>
        ensures ok { IfOk result (λ verdict. IsAnswer self.new out.old.items out.new.items verdict (spec.step_end self.old)) }
        ensures err { OnErr result (out.new.items ≡ out.old.items) }
    {
        let records = mem::replace(&mut self.records, Vec::new(self.alloc));
        if self.has_ended || !self.options.is_traced {
            return Ok(Verdict::Fine);
        }
        let Some(fabric) = &self.fabric else {
            return Ok(Verdict::Fine);
        };
        let Some(history) = fabric.list() else {
            // (not with a trace)
            return Ok(Verdict::Fine);
        };
        let trace = fabric.trace_of(records);
        let claim = Claim {
            trace: &trace,
            history,
        };
        tell_trace(self.alloc, &claim, out)
    }
}
