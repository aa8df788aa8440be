//! The subcommand `endpoint`: TLPs of a root complex, line by line.
ghost use Rattle.std.specs.Prelude.{◌≡◌, ◌≤◌, length, Ok, IfOk, IfErr, OnErr};
ghost use Rattle.hex.specs.Hex.{decode_of};
ghost use Rattle.hex_text.specs.Line.{digits_of};
ghost use Rattle.line_loop.specs.Run.{IsAnswer, IsCaughtUp, IsWhole, IsPart};
ghost use Rattle.endpoint_engine.specs.Lines as spec;

use crate::options::EndpointOptions;
use crate::reasons::reason_of;
use crate::texts::{no_line, put_completion, put_handled};
use diagnostics::{ReasonLines, Reasoned, Reasons};
use endpoint_core::{Endpoint, Room};
use endpoint_log::Recording;
use hex_text::{HexLine, HexText, is_skipped};
use line_loop::{EngineFault, Responder, Verdict, run};
use std::alloc::{AllocError, Global};
use std::io::{Read, Write};
use std::marker::Model;
use tlp_core::MAX_TLP;
use trace_engine::tell_trace;

/// A device whose TLPs come line by line.
#[derive(Drop)]
struct Lines {
    alloc: Global,
    endpoint: Endpoint,
    recording: Recording,
    rooms: Rooms,
}

/// Room for lines, for TLPs that are read, and for completions. What they hold counts for nothing.
#[derive(Drop)]
struct Rooms {
    device: Room,
    packet: [u8; MAX_TLP],
    text: HexText,
}

impl Model for Lines {
    ghost use Rattle.endpoint_log.specs.Recordings.{log_of};
    ghost use Rattle.endpoint_engine.specs.Lines.{DeviceLines};

    ghost Value = { DeviceLines };

    ghost view = { λ l. record { endpoint = l.endpoint; log = log_of l.recording } };
}

impl Lines {
    /// A new device, before its first line.
    fn new(alloc: Global, options: EndpointOptions) -> Result<Lines, AllocError>
        ensures { IfOk result (λ l. l ≡ spec.new_device options.setup options.is_traced) }
    {
        Ok(Lines {
            alloc,
            endpoint: Endpoint::new(alloc, options.setup)?,
            recording: Recording::new(alloc, options.setup, options.is_traced),
            rooms: Rooms {
                device: Room::new(),
                packet: [0; MAX_TLP],
                text: HexText::new(),
            },
        })
    }

    /// A TLP of these bytes comes.
    fn take(&mut self, tlp: &[u8], out: &mut Vec<u8>) -> Result<Verdict, AllocError>
        ensures ok { IfOk result (λ verdict. IsAnswer self.new out.old.items out.new.items verdict (spec.answer_tlp self.old (Ok tlp.now))) }
        ensures err { OnErr result (out.new.items ≡ out.old.items) }
    {
        let handled = self
            .recording
            .take(&mut self.endpoint, tlp, &mut self.rooms.device)?;
        self.recording.check()?;
        put_handled(handled, out)?;
        Ok(Verdict::Fine)
    }

    /// The oldest request acts, and its completion is written.
    #[inline(never)]
    fn next(&mut self, out: &mut Vec<u8>) -> Result<Verdict, AllocError>
        ensures ok { IfOk result (λ verdict. IsAnswer self.new out.old.items out.new.items verdict (spec.answer_next self.old)) }
        ensures err { OnErr result (out.new.items ≡ out.old.items) }
    {
        let completion = self
            .recording
            .act(&mut self.endpoint, &mut self.rooms.device);
        self.recording.check()?;
        put_completion(
            &completion,
            &mut self.rooms.packet,
            &mut self.rooms.text,
            out,
        )?;
        Ok(Verdict::Fine)
    }

    /// The device is reset.
    fn reset(&mut self, out: &mut Vec<u8>) -> Result<Verdict, AllocError>
        ensures ok { IfOk result (λ verdict. IsAnswer self.new out.old.items out.new.items verdict (spec.answer_reset self.old)) }
        ensures err { OnErr result (out.new.items ≡ out.old.items) }
    {
        out.extend_from_slice(b"reset\n")?;
        self.endpoint.reset();
        self.recording.reset();
        Ok(Verdict::Fine)
    }

    /// Adds what was recorded, if the device is traced.
    fn trace(&mut self, out: &mut Vec<u8>) -> Result<Verdict, AllocError>
        ensures ok { IfOk result (λ verdict. IsAnswer self.new out.old.items out.new.items verdict (spec.answer_trace self.old self.old.log)) }
        ensures err { OnErr result (out.new.items ≡ out.old.items) }
    {
        let Recording::On(log) = &self.recording else {
            return no_line(out);
        };
        tell_trace(self.alloc, log.claim(), out)
    }

    /// Answers a line that is no TLP.
    fn answer_word(&mut self, line: &[u8], out: &mut Vec<u8>) -> Result<Verdict, AllocError>
        ensures ok { IfOk result (λ verdict. IsAnswer self.new out.old.items out.new.items verdict (spec.answer_word self.old line.now)) }
        ensures err { OnErr result (out.new.items ≡ out.old.items) }
    {
        if line == b"next".as_slice() {
            self.next(out)
        } else if line == b"reset".as_slice() {
            self.reset(out)
        } else if line == b"trace".as_slice() {
            self.trace(out)
        } else {
            no_line(out)
        }
    }
}

/// A device that is asked line by line, with the bytes of the last TLP.
#[derive(Drop)]
struct Asked {
    lines: Lines,
    line: HexLine,
}

impl Model for Asked {
    ghost use Rattle.endpoint_engine.specs.Lines.{DeviceLines};

    ghost Value = { DeviceLines };

    ghost view = { λ a. a.lines };
}

impl Asked {
    /// A new device, before its first line.
    fn new(alloc: Global, options: EndpointOptions) -> Result<Asked, AllocError>
        ensures { IfOk result (λ a. a ≡ spec.new_device options.setup options.is_traced) }
    {
        Ok(Asked {
            lines: Lines::new(alloc, options)?,
            line: HexLine::new(),
        })
    }

    /// A TLP of these digits comes.
    #[inline(never)]
    #[tactic(auto, using(crate::proofs::Reading::unread))]
    fn take(&mut self, digits: &[u8], out: &mut Vec<u8>) -> Result<Verdict, AllocError>
        requires { length digits.now ≤ 512 }
        ensures ok { IfOk result (λ verdict. IsAnswer self.new out.old.items out.new.items verdict
            (spec.answer_tlp self.old (decode_of (digits_of digits.now)))) }
        ensures err { OnErr result (out.new.items ≡ out.old.items) }
    {
        if !self.line.read(digits) {
            return no_line(out);
        }
        self.lines.take(self.line.bytes(), out)
    }

    /// Answers a line, whatever it is.
    #[inline(never)]
    fn answer_other(&mut self, line: &[u8], out: &mut Vec<u8>) -> Result<Verdict, AllocError>
        requires { length line.now ≤ 512 }
        ensures ok { IfOk result (λ verdict. IsAnswer self.new out.old.items out.new.items verdict (spec.answer_line self.old line.now)) }
        ensures err { OnErr result (out.new.items ≡ out.old.items) }
    {
        if is_skipped(line) {
            return Ok(Verdict::Fine);
        }
        match line.strip_prefix(b"tlp ") {
            Some(digits) => self.take(digits, out),
            None => self.lines.answer_word(line, out),
        }
    }
}

impl Responder for Asked {
    ghost use Rattle.endpoint_engine.specs.Lines.{endpoint_responses};

    ghost responses = { endpoint_responses };

    #[inline(always)]
    fn on_line(&mut self, line: &[u8], out: &mut Vec<u8>) -> Result<Verdict, AllocError> {
        match line {
            [b't', b'l', b'p', b' ', digits @ ..] => self.take(digits, out),
            [b'n', b'e', b'x', b't'] => self.lines.next(out),
            _ => self.answer_other(line, out),
        }
    }

    fn on_long_line(&mut self, out: &mut Vec<u8>) -> Result<Verdict, AllocError> {
        no_line(out)
    }

    fn on_end(&mut self, _out: &mut Vec<u8>) -> Result<Verdict, AllocError> {
        Ok(Verdict::Fine)
    }
}

/// Says why a line of a device is a fault.
#[derive(Drop)]
struct LineReasons {}

impl Reasons<Asked> for LineReasons {
    fn tell(
        &self,
        _responder: &mut Asked,
        line: &[u8],
        _text: &[u8],
        reasons: &mut ReasonLines,
    ) -> Result<(), AllocError> {
        reasons.tell(&reason_of(line))
    }
}

/// Answers each line of the reader's input with one line, but `trace` with a trace: TLPs that come to a memory device, and
/// its completions. `Ok` is the exit status, 1 if a line was a fault. After an `Err` what was written is a prefix of the
/// whole output. The memory that it takes grows only with requests that wait and what is recorded. Why lines are faults is
/// told on `errors`, a line each; a stream that fails there changes nothing.
pub fn run_endpoint<R: Read, W: Write, E: Write>(
    alloc: Global,
    options: EndpointOptions,
    reader: &mut R,
    writer: &mut W,
    errors: &mut E,
) -> Result<u8, EngineFault>
    ensures ok { IfOk result (IsWhole (spec.out_endpoint options.setup options.is_traced) (R.remaining reader.old) (R.remaining reader.new)
        (W.contents writer.old) (W.contents writer.new)) }
    ensures err { OnErr result (IsPart (spec.out_endpoint options.setup options.is_traced) (R.remaining reader.old) (R.remaining reader.new)
        (W.contents writer.old) (W.contents writer.new)) }
    ensures read { IfErr result (λ f. f ≡ EngineFault.Read →
        IsCaughtUp spec.endpoint_responses (spec.new_device options.setup options.is_traced)
        (R.remaining reader.old) (R.remaining reader.new) (W.contents writer.old) (W.contents writer.new)) }
{
    let device = Asked::new(alloc, options)?;
    let reasoned = Reasoned::new(alloc, device, LineReasons {}, errors);
    run(alloc, reasoned, reader, writer)
}
