//! The loop that all subcommands share: blocks of input in, lines to the responder, its text out.
ghost use Rattle.std.specs.Prelude.{◌≡◌, ◌≢◌, ◌≤◌, ◌++◌, List, ℕ, [], take, length, OnOk, IfOk, IfErr, OnErr, if◌then◌else◌};
ghost use Rattle.std.specs.Io.BufRead.{strip_last};
ghost use Rattle.std.specs.Io.KnownBytes.{Appends};
ghost use Rattle.line_loop.specs.Run.{IsAnswer, IsBeginning, IsCaughtUp, IsWhole, IsPart, is_fault, run_of};
ghost use Rattle.line_loop.specs.Engine.{Stands, Begins, IsAnswered, on_said, on_ended_line, on_last_line};

use crate::fault::EngineFault;
use crate::output::write_out;
use crate::responder::Responder;
use crate::verdict::Verdict;
use arrayvec::ArrayVec;
use hex_text::{MAX_LINE, is_too_long, without_return};
use memchr::memchr;
use std::alloc::{AllocError, Global};
use std::io::{Read, Write};

/// What is kept of an unfinished line: one byte more than a line may have.
const KEPT: usize = MAX_LINE + 1;

/// How many bytes are read at once, at most.
const BLOCK: usize = 8192;

/// Answers a line, of which this is said if it isn't too long.
fn answer<P: Responder>(
    responder: &mut P,
    line: &[u8],
    said: &[u8],
    out: &mut Vec<u8>,
) -> Result<Verdict, AllocError>
    requires { length said.now ≤ length line.now }
    ensures ok { IfOk result (λ verdict. IsAnswer responder.new out.old.items out.new.items verdict
        (on_said P.responses responder.old line.now said.now)) }
    ensures err { OnErr result (out.new.items ≡ out.old.items) }
{
    if is_too_long(line) {
        responder.on_long_line(out)
    } else {
        responder.on_line(said, out)
    }
}

/// Answers a line that a line feed ended, given without it.
fn answer_ended<P: Responder>(
    responder: &mut P,
    line: &[u8],
    out: &mut Vec<u8>,
) -> Result<Verdict, AllocError>
    ensures ok { IfOk result (λ verdict. IsAnswer responder.new out.old.items out.new.items verdict
        (on_ended_line P.responses responder.old line.now)) }
    ensures err { OnErr result (out.new.items ≡ out.old.items) }
{
    answer(responder, line, without_return(line), out)
}

/// Answers a line that the end of the input ended.
fn answer_last<P: Responder>(
    responder: &mut P,
    line: &[u8],
    out: &mut Vec<u8>,
) -> Result<Verdict, AllocError>
    ensures ok { IfOk result (λ verdict. IsAnswer responder.new out.old.items out.new.items verdict
        (on_last_line P.responses responder.old line.now)) }
    ensures err { OnErr result (out.new.items ≡ out.old.items) }
{
    answer(responder, line, line, out)
}

/// A run in the middle of its input.
#[derive(Drop)]
struct Engine<P> {
    responder: P,
    /// What is kept of the unfinished line.
    line: ArrayVec<u8, 513>,
    /// The text that is to be written.
    pending: Vec<u8>,
    /// The exit status so far.
    status: u8,
}

impl<P: Responder> Engine<P> {
    fn new(alloc: Global, responder: P) -> Engine<P>
        ensures stands { Stands P.responses responder result.responder result.line.items result.pending.items result.status [] [] }
        ensures pending { result.pending.items ≡ [] }
    {
        Engine {
            responder,
            line: ArrayVec::new(),
            pending: Vec::new(alloc),
            status: 0,
        }
    }

    /// Notes the verdict of an answer.
    fn note(&mut self, verdict: Verdict)
        ensures status { self.new.status ≡ (if is_fault verdict then 1 else self.old.status) }
        ensures responder { self.new.responder ≡ self.old.responder }
        ensures line { self.new.line.items ≡ self.old.line.items }
        ensures pending { self.new.pending.items ≡ self.old.pending.items }
    {
        if verdict.is_fault() {
            self.status = 1;
        }
    }

    /// Keeps more of the unfinished line, as much as there is room for.
    fn keep(&mut self, bytes: &[u8])
        ensures line { self.new.line.items ≡ take 513 (self.old.line.items ++ bytes.now) }
        ensures responder { self.new.responder ≡ self.old.responder }
        ensures pending { self.new.pending.items ≡ self.old.pending.items }
        ensures status { self.new.status ≡ self.old.status }
    {
        let room = KEPT - self.line.len();
        let _ = self
            .line
            .try_extend_from_slice(&bytes[..bytes.len().min(room)]);
    }

    /// Answers the line that ends in these bytes, and begins a new one.
    fn end_line(&mut self, tail: &[u8]) -> Result<(), AllocError>
        ensures responder { OnOk result (self.new.responder ≡ (on_ended_line P.responses self.old.responder (self.old.line.items ++ tail.now)).state) }
        ensures text { OnOk result (self.new.pending.items ≡ self.old.pending.items ++
            (on_ended_line P.responses self.old.responder (self.old.line.items ++ tail.now)).text) }
        ensures status { OnOk result (self.new.status ≡
            (if (on_ended_line P.responses self.old.responder (self.old.line.items ++ tail.now)).is_fault then 1 else self.old.status)) }
        ensures line { OnOk result (self.new.line.items ≡ []) }
        ensures err { OnErr result (self.new.pending.items ≡ self.old.pending.items) }
    {
        if self.line.is_empty() {
            let verdict = answer_ended(&mut self.responder, tail, &mut self.pending)?;
            self.note(verdict);
            return Ok(());
        }
        self.keep(tail);
        let verdict = answer_ended(&mut self.responder, self.line.as_slice(), &mut self.pending)?;
        self.note(verdict);
        self.line.clear();
        Ok(())
    }
}

impl<P: Responder> Engine<P> {
    /// Takes more of the input, and answers the lines that end in it.
    fn feed(&mut self, bytes: &[u8]) -> Result<(), AllocError>
        ensures ok { OnOk result ((start : P) (written read : List ℕ)
            → Stands P.responses start self.old.responder self.old.line.items self.old.pending.items self.old.status written read
            → Stands P.responses start self.new.responder self.new.line.items self.new.pending.items self.new.status written (read ++ bytes.now)) }
        ensures err { OnErr result ((start : P) (written read : List ℕ)
            → Stands P.responses start self.old.responder self.old.line.items self.old.pending.items self.old.status written read
            → Begins P.responses start self.new.pending.items written (read ++ bytes.now)) }
    {
        let mut rest = bytes;
        while let Some(end) = memchr(b'\n', rest) {
            self.end_line(&rest[..end])?;
            rest = &rest[end + 1..];
        }
        self.keep(rest);
        Ok(())
    }

    /// Answers the last line, if the input ended in one without a line feed.
    fn end_last(&mut self) -> Result<(), AllocError>
        ensures ok { OnOk result ((start : P) (written read : List ℕ)
            → Stands P.responses start self.old.responder self.old.line.items self.old.pending.items self.old.status written read
            → IsAnswered P.responses start self.new.responder self.new.pending.items self.new.status written read) }
        ensures err { OnErr result (self.new.pending.items ≡ self.old.pending.items) }
    {
        if self.line.is_empty() {
            return Ok(());
        }
        let verdict = answer_last(&mut self.responder, self.line.as_slice(), &mut self.pending)?;
        self.note(verdict);
        Ok(())
    }

    /// Answers what is left where the input ends, and the end itself.
    fn finish(&mut self) -> Result<(), AllocError>
        ensures ok { OnOk result ((start : P) (written read : List ℕ)
            → Stands P.responses start self.old.responder self.old.line.items self.old.pending.items self.old.status written read
            → (self.new.status ≡ (run_of P.responses start read).status)
            × (written ++ self.new.pending.items ≡ (run_of P.responses start read).text)) }
        ensures err { OnErr result ((start : P) (written read : List ℕ)
            → Stands P.responses start self.old.responder self.old.line.items self.old.pending.items self.old.status written read
            → IsBeginning (written ++ self.new.pending.items) (run_of P.responses start read).text) }
    {
        self.end_last()?;
        let verdict = self.responder.on_end(&mut self.pending)?;
        self.note(verdict);
        Ok(())
    }
}

impl<P: Responder> Engine<P> {
    /// Writes the pending text.
    fn flush<W: Write>(&mut self, writer: &mut W) -> Result<(), EngineFault>
        ensures text { OnOk result (Appends (W.contents writer.old) (W.contents writer.new) self.old.pending.items) }
        ensures pending { OnOk result (self.new.pending.items ≡ []) }
        ensures responder { self.new.responder ≡ self.old.responder }
        ensures line { self.new.line.items ≡ self.old.line.items }
        ensures status { self.new.status ≡ self.old.status }
        ensures fault { IfErr result (λ f. f ≡ EngineFault.Write) }
        ensures part { OnErr result ((done : List ℕ) × IsBeginning done self.old.pending.items
            × Appends (W.contents writer.old) (W.contents writer.new) done) }
    {
        write_out(writer, self.pending.as_slice())?;
        self.pending.clear();
        Ok(())
    }

    /// Takes more of the input, and writes the answers to the lines that end in it. Also where an
    /// answer fails, those before it are written.
    fn advance<W: Write>(&mut self, bytes: &[u8], writer: &mut W) -> Result<(), EngineFault>
        ensures ok { OnOk result ((text : List ℕ) × Appends (W.contents writer.old) (W.contents writer.new) text
            × ((start : P) (written read : List ℕ)
            → Stands P.responses start self.old.responder self.old.line.items self.old.pending.items self.old.status written read
            → Stands P.responses start self.new.responder self.new.line.items self.new.pending.items self.new.status (written ++ text) (read ++ bytes.now))) }
        ensures pending { OnOk result (self.new.pending.items ≡ []) }
        ensures fault { IfErr result (λ f. f ≢ EngineFault.Read) }
        ensures err { OnErr result ((done : List ℕ) × Appends (W.contents writer.old) (W.contents writer.new) done
            × ((start : P) (written read : List ℕ)
            → Stands P.responses start self.old.responder self.old.line.items self.old.pending.items self.old.status written read
            → Begins P.responses start done written (read ++ bytes.now))) }
    {
        let fed = self.feed(bytes);
        self.responder.on_block();
        self.flush(writer)?;
        fed?;
        Ok(())
    }

    /// Answers the end of the input, and gives the exit status.
    fn close<W: Write>(&mut self, writer: &mut W) -> Result<u8, EngineFault>
        ensures ok { IfOk result (λ exit. (text : List ℕ) × Appends (W.contents writer.old) (W.contents writer.new) text
            × ((start : P) (written read : List ℕ)
            → Stands P.responses start self.old.responder self.old.line.items self.old.pending.items self.old.status written read
            → (exit ≡ (run_of P.responses start read).status) × (written ++ text ≡ (run_of P.responses start read).text))) }
        ensures fault { IfErr result (λ f. f ≢ EngineFault.Read) }
        ensures err { OnErr result ((done : List ℕ) × Appends (W.contents writer.old) (W.contents writer.new) done
            × ((start : P) (written read : List ℕ)
            → Stands P.responses start self.old.responder self.old.line.items self.old.pending.items self.old.status written read
            → IsBeginning (written ++ done) (run_of P.responses start read).text)) }
    {
        let ended = self.finish();
        self.responder.on_block();
        self.flush(writer)?;
        ended?;
        Ok(self.status)
    }
}

/// Answers the reader's input to its end, a block at a time: the answers to the lines that have
/// ended are written before more is read. `Ok` is the exit status, 1 if the verdict of an answer was a fault.
pub fn run<P: Responder, R: Read, W: Write>(
    alloc: Global,
    responder: P,
    reader: &mut R,
    writer: &mut W,
) -> Result<u8, EngineFault>
    ensures ok { IfOk result (IsWhole (run_of P.responses responder) (R.remaining reader.old) (R.remaining reader.new) (W.contents writer.old)
        (W.contents writer.new)) }
    ensures err { OnErr result (IsPart (run_of P.responses responder) (R.remaining reader.old) (R.remaining reader.new) (W.contents writer.old)
        (W.contents writer.new)) }

    // Where reading failed, the answers to the lines that had ended were written: so they were written before more was
    // to be read.
    ensures read { IfErr result (λ f. f ≡ EngineFault.Read →
        IsCaughtUp P.responses responder (R.remaining reader.old) (R.remaining reader.new) (W.contents writer.old) (W.contents writer.new)) }
{
    let mut engine = Engine::new(alloc, responder);
    let mut buffer = [0u8; BLOCK];
    for _ in 0..u64::MAX {
        let Ok(count) = reader.read(&mut buffer) else {
            return Err(EngineFault::Read);
        };
        if count == 0 {
            return engine.close(writer);
        }
        engine.advance(&buffer[..count], writer)?;
    }
    Err(EngineFault::Read)
}
