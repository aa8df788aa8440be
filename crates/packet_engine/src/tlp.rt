//! The subcommand `tlp`: requests in, completions out, over one memory.
ghost use Rattle.std.specs.Prelude.{◌≡◌, ◌/◌, ◌<◌, ◌++◌, ◌∷◌, [], ℕ, IfOk, IfErr, OnErr, length, replicate, slice_index};
ghost use Rattle.tlp_core.specs.Faults.{reading};
ghost use Rattle.tlp_core.specs.Operation.{is_completion};
ghost use Rattle.line_loop.specs.Run.{IsAnswer, IsCaughtUp, IsWhole, IsPart};
ghost use Rattle.packet_engine.specs.Tlp.{new_state, out_tlp, tlp_responses, answer_request, answer_packet, answer_reading, fault_text, completion_text};
ghost use Rattle.packet_engine.specs.CompleterView.{new_kept, without_history, kept_responses};

use crate::reasoned::PacketLines;
use crate::text::{put_fault, write_packet};
use arrayvec::ArrayVec;
use completer_core::answer_lent;
use diagnostics::Reasoned;
use hex_text::{HexLine, HexText, is_skipped};
use line_loop::{EngineFault, Responder, Verdict, run};
use seq_memory::laws::history_grows_by_steps;
use seq_memory::{Extent, ReplyData};
use std::alloc::{AllocError, Global};
use std::io::{Read, Write};
use std::marker::Model;
use tlp_core::laws::reading_is_spelling;
use tlp_core::{MAX_TLP, TlpFault, TlpRef, decode_lent};

/// The bytes of a memory, and how many requests of each port have acted on it: what `tlp` needs of
/// a history, in memory that doesn't grow.
#[derive(Drop)]
struct Device {
    extent: Extent,
    bytes: Vec<u8>,
    /// By port.
    counts: [u32; 256],
}

impl Model for Device {
    ghost use Rattle.packet_engine.specs.CompleterView.{CompleterView};

    ghost Value = { CompleterView };

    ghost view = { λ c. record { base = c.extent.base; block = c.extent.block; bytes = c.bytes.items; counts = c.counts } };
}

/// Buffers for the text of an answer, used again and again: what they hold does not count.
#[derive(Drop)]
struct Room {
    bytes: [u8; MAX_TLP],
    text: HexText,
}

/// A device that is asked line by line.
#[derive(Drop)]
struct Completer {
    device: Device,
    line: HexLine,
    /// A completion's payload stands there.
    reply: ReplyData,
    room: Room,
}

impl Model for Completer {
    ghost use Rattle.packet_engine.specs.CompleterView.{CompleterView};

    ghost Value = { CompleterView };

    ghost view = { λ c. c.device };
}

/// No request of any requester.
fn no_counts() -> [u32; 256]
    ensures { result ≡ replicate 256 0 }
{
    [0; 256]
}

fn zeros(alloc: Global, size: usize) -> Result<Vec<u8>, AllocError>
    ensures { IfOk result (λ v. v.items ≡ replicate size 0) }
{
    vec![in alloc; 0u8; size]
}

/// Adds a line that tells a fault.
fn tell(text: &[u8], out: &mut Vec<u8>) -> Result<Verdict, AllocError>
    ensures ok { IfOk result (λ verdict. (verdict ≡ Verdict.Fault) × (out.new.items ≡ out.old.items ++ text.now)) }
    ensures err { OnErr result (out.new.items ≡ out.old.items) }
{
    out.extend_from_slice(text)?;
    Ok(Verdict::Fault)
}

/// Adds the line of a packet's fault.
fn tell_fault(fault: TlpFault, out: &mut Vec<u8>) -> Result<Verdict, AllocError>
    ensures ok { IfOk result (λ verdict. (verdict ≡ Verdict.Fault) × (out.new.items ≡ out.old.items ++ (fault_text fault ++ 10 ∷ []))) }
    ensures err { OnErr result (out.new.items ≡ out.old.items) }
{
    let mut text = ArrayVec::new();
    put_fault(fault, &mut text);
    text.push(b'\n');
    tell(text.as_slice(), out)
}

/// Adds the line of a completion, or of a posted write.
fn tell_completion(
    completion: &Option<TlpRef<'_>>,
    room: &mut Room,
    out: &mut Vec<u8>,
) -> Result<Verdict, AllocError>
    ensures ok { IfOk result (λ verdict. (verdict ≡ Verdict.Fine) × (out.new.items ≡ out.old.items ++ (completion_text completion.now ++ 10 ∷ []))) }
    ensures err { OnErr result (out.new.items ≡ out.old.items) }
{
    let Some(completion) = completion else {
        out.extend_from_slice(b"-\n")?;
        return Ok(Verdict::Fine);
    };
    write_packet(completion, &mut room.bytes, &mut room.text);
    out.extend_from_slice(room.text.as_slice())?;
    Ok(Verdict::Fine)
}

impl Device {
    fn new(alloc: Global, extent: Extent) -> Result<Device, AllocError>
        ensures { IfOk result (λ c. c ≡ new_kept extent) }
    {
        let bytes = zeros(alloc, extent.size())?;
        let counts = no_counts();
        Ok(Device {
            extent,
            bytes,
            counts,
        })
    }

    /// How many requests of the request's requester have acted.
    fn count(&self, request: &TlpRef<'_>) -> u32
        ensures { result ≡ slice_index self.now.counts (request.now.requester / 256) }
    {
        self.counts[usize::from(request.header.requester / 256)]
    }

    /// Answers a request.
    fn answer_request(
        &mut self,
        request: &TlpRef<'_>,
        reply: &mut ReplyData,
        room: &mut Room,
        out: &mut Vec<u8>,
    ) -> Result<Verdict, AllocError>
        ensures ok { IfOk result (λ verdict. IsAnswer self.new out.old.items out.new.items verdict
            (answer_request without_history self.old request.now (slice_index self.old.counts (request.now.requester / 256)))) }
        ensures err { OnErr result (out.new.items ≡ out.old.items) }
    {
        let number = self.count(request);
        if number == u32::MAX {
            return tell(b"fault numbers\n", out);
        }
        let (base, block) = (self.extent.base(), self.extent.block());
        self.counts[usize::from(request.header.requester / 256)] = number + 1;
        let completion = answer_lent(base, block, &mut self.bytes, request, reply);
        tell_completion(&completion, room, out)
    }

    /// Answers a packet.
    fn answer_packet(
        &mut self,
        packet: &TlpRef<'_>,
        reply: &mut ReplyData,
        room: &mut Room,
        out: &mut Vec<u8>,
    ) -> Result<Verdict, AllocError>
        ensures ok { IfOk result (λ verdict. IsAnswer self.new out.old.items out.new.items verdict (answer_packet without_history self.old packet.now)) }
        ensures err { OnErr result (out.new.items ≡ out.old.items) }
    {
        if packet.header.kind.is_completion() {
            return tell(b"fault completion\n", out);
        }
        self.answer_request(packet, reply, room, out)
    }

    /// Answers the bytes of a line.
    fn answer_bytes(
        &mut self,
        bytes: &[u8],
        reply: &mut ReplyData,
        room: &mut Room,
        out: &mut Vec<u8>,
    ) -> Result<Verdict, AllocError>
        ensures ok { IfOk result (λ verdict. IsAnswer self.new out.old.items out.new.items verdict
            (answer_reading without_history self.old (reading bytes.now))) }
        ensures err { OnErr result (out.new.items ≡ out.old.items) }
    {
        match decode_lent(bytes) {
            Ok(packet) => self.answer_packet(&packet, reply, room, out),
            Err(fault) => tell_fault(fault, out),
        }
    }
}

impl Completer {
    fn new(alloc: Global, extent: Extent) -> Result<Completer, AllocError>
        ensures { IfOk result (λ c. c ≡ new_kept extent) }
    {
        let device = Device::new(alloc, extent)?;
        let room = Room {
            bytes: [0; MAX_TLP],
            text: HexText::new(),
        };
        Ok(Completer {
            device,
            line: HexLine::new(),
            reply: ReplyData::new(),
            room,
        })
    }
}

impl Responder for Completer {
    ghost use Rattle.packet_engine.specs.CompleterView.{kept_responses};

    ghost responses = { kept_responses };

    fn on_line(&mut self, line: &[u8], out: &mut Vec<u8>) -> Result<Verdict, AllocError> {
        if is_skipped(line) {
            return Ok(Verdict::Fine);
        }
        if !self.line.read(line) {
            return tell(b"fault hex\n", out);
        }
        self.device
            .answer_bytes(self.line.bytes(), &mut self.reply, &mut self.room, out)
    }

    fn on_long_line(&mut self, out: &mut Vec<u8>) -> Result<Verdict, AllocError> {
        tell(b"fault line\n", out)
    }

    fn on_end(&mut self, _out: &mut Vec<u8>) -> Result<Verdict, AllocError> {
        Ok(Verdict::Fine)
    }
}

/// Answers each line of the reader's input with a line: it holds the bytes of a request, which acts
/// on a memory of zeros in that place. The answer is the request's
/// completion, `-` for a posted write, or a fault. `Ok` is the exit status, 1 if there was a fault.
/// After an `Err` what was written is a prefix of the whole output. The memory that it takes doesn't
/// grow with the input. Why lines are faults is told on `errors`, a line each; a stream that fails there
/// changes nothing.
pub fn run_tlp<R: Read, W: Write, E: Write>(
    alloc: Global,
    extent: Extent,
    reader: &mut R,
    writer: &mut W,
    errors: &mut E,
) -> Result<u8, EngineFault>
    ensures ok { IfOk result (IsWhole (out_tlp extent) (R.remaining reader.old) (R.remaining reader.new) (W.contents writer.old) (W.contents writer.new)) }
    ensures err { OnErr result (IsPart (out_tlp extent) (R.remaining reader.old) (R.remaining reader.new) (W.contents writer.old) (W.contents writer.new)) }
    ensures read { IfErr result (λ f. f ≡ EngineFault.Read →
        IsCaughtUp tlp_responses (new_state extent) (R.remaining reader.old) (R.remaining reader.new) (W.contents writer.old) (W.contents writer.new)) }
{
    reading_is_spelling();
    history_grows_by_steps();
    let completer = Completer::new(alloc, extent)?;
    let reasoned = Reasoned::new(alloc, completer, PacketLines::Requests, errors);
    run(alloc, reasoned, reader, writer)
}
