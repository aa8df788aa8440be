//! The subcommand `encode`: words to bytes.
ghost use Rattle.std.specs.Prelude.{◌≡◌, IfOk, IfErr, OnErr};
ghost use Rattle.packet_text.specs.Forms.{text_reading};
ghost use Rattle.line_loop.specs.Run.{IsAnswer, IsCaughtUp, IsWhole, IsPart};
ghost use Rattle.packet_engine.specs.Lines.{out_encode, encode_reading, encode_responses};

use crate::reasoned::PacketLines;
use crate::telling::{tell, tell_bytes, tell_text_fault};
use diagnostics::Reasoned;
use hex_text::is_skipped;
use line_loop::{EngineFault, Responder, Verdict, run};
use packet_text::read_packet;
use std::alloc::{AllocError, Global};
use std::io::{Read, Write};
use std::marker::Model;

/// Nothing is remembered from line to line.
#[derive(Drop)]
struct Encoder {}

impl Model for Encoder {
    ghost use Rattle.packet_engine.specs.Lines.{State};

    ghost Value = { State };

    ghost view = { λ _. tt };
}

/// Answers the words of a line.
fn answer(line: &[u8], out: &mut Vec<u8>) -> Result<Verdict, AllocError>
    ensures ok { IfOk result (λ verdict. IsAnswer tt out.old.items out.new.items verdict (encode_reading (text_reading line.now))) }
    ensures err { OnErr result (out.new.items ≡ out.old.items) }
{
    match read_packet(line) {
        Ok(packet) => tell_bytes(&packet, out),
        Err(fault) => tell_text_fault(fault, out),
    }
}

impl Responder for Encoder {
    ghost use Rattle.packet_engine.specs.Lines.{encode_responses};

    ghost responses = { encode_responses };

    fn on_line(&mut self, line: &[u8], out: &mut Vec<u8>) -> Result<Verdict, AllocError> {
        if is_skipped(line) {
            return Ok(Verdict::Fine);
        }
        answer(line, out)
    }

    fn on_long_line(&mut self, out: &mut Vec<u8>) -> Result<Verdict, AllocError> {
        tell(b"fault line\n", out)
    }

    fn on_end(&mut self, _out: &mut Vec<u8>) -> Result<Verdict, AllocError> {
        Ok(Verdict::Fine)
    }
}

/// Answers each line of the reader's input with a line: it has the text of a packet. The answer is
/// the packet's canonical bytes, in capitals in groups of four, or a fault. `Ok` is the exit status,
/// 1 where a fault was told. After an `Err` what was written is a prefix of the whole output. Why lines
/// are faults is told on `errors`, a line each; a stream that fails there changes nothing.
pub fn run_encode<R: Read, W: Write, E: Write>(
    alloc: Global,
    reader: &mut R,
    writer: &mut W,
    errors: &mut E,
) -> Result<u8, EngineFault>
    ensures ok { IfOk result (IsWhole out_encode (R.remaining reader.old) (R.remaining reader.new) (W.contents writer.old) (W.contents writer.new)) }
    ensures err { OnErr result (IsPart out_encode (R.remaining reader.old) (R.remaining reader.new) (W.contents writer.old) (W.contents writer.new)) }
    ensures read { IfErr result (λ f. f ≡ EngineFault.Read →
        IsCaughtUp encode_responses tt (R.remaining reader.old) (R.remaining reader.new) (W.contents writer.old) (W.contents writer.new)) }
{
    let encoder = Reasoned::new(alloc, Encoder {}, PacketLines::Words, errors);
    run(alloc, encoder, reader, writer)
}
