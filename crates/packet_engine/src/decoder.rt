//! The subcommand `decode`: bytes to words.
ghost use Rattle.std.specs.Prelude.{◌≡◌, IfOk, IfErr, OnErr};
ghost use Rattle.line_loop.specs.Run.{IsCaughtUp, IsWhole, IsPart};
ghost use Rattle.packet_engine.specs.Lines.{out_decode, decode_responses};

use crate::reasoned::PacketLines;
use crate::telling::{tell, tell_decoded};
use arrayvec::ArrayString;
use diagnostics::Reasoned;
use hex_text::{HexLine, is_skipped};
use line_loop::{EngineFault, Responder, Verdict, run};
use std::alloc::{AllocError, Global};
use std::io::{Read, Write};
use std::marker::Model;

/// Buffers for the bytes of a line and for its answer, used again and again: what they hold does not
/// count.
#[derive(Drop)]
struct Decoder {
    line: HexLine,
    text: ArrayString<512>,
}

impl Model for Decoder {
    ghost use Rattle.packet_engine.specs.Lines.{State};

    ghost Value = { State };

    ghost view = { λ _. tt };
}

impl Responder for Decoder {
    ghost use Rattle.packet_engine.specs.Lines.{decode_responses};

    ghost responses = { decode_responses };

    fn on_line(&mut self, line: &[u8], out: &mut Vec<u8>) -> Result<Verdict, AllocError> {
        if is_skipped(line) {
            return Ok(Verdict::Fine);
        }
        if !self.line.read(line) {
            return tell(b"fault hex\n", out);
        }
        tell_decoded(self.line.bytes(), &mut self.text, out)
    }

    fn on_long_line(&mut self, out: &mut Vec<u8>) -> Result<Verdict, AllocError> {
        tell(b"fault line\n", out)
    }

    fn on_end(&mut self, _out: &mut Vec<u8>) -> Result<Verdict, AllocError> {
        Ok(Verdict::Fine)
    }
}

/// Answers each line of the reader's input with a line: it holds the bytes of a DLLP, where they are
/// four, or else of a TLP. The answer is the packet's text, or a fault. `Ok` is the exit status, 1
/// where a fault was told. After an `Err` what was written is a prefix of the whole output. Why lines
/// are faults is told on `errors`, a line each; a stream that fails there changes nothing.
pub fn run_decode<R: Read, W: Write, E: Write>(
    alloc: Global,
    reader: &mut R,
    writer: &mut W,
    errors: &mut E,
) -> Result<u8, EngineFault>
    ensures ok { IfOk result (IsWhole out_decode (R.remaining reader.old) (R.remaining reader.new) (W.contents writer.old) (W.contents writer.new)) }
    ensures err { OnErr result (IsPart out_decode (R.remaining reader.old) (R.remaining reader.new) (W.contents writer.old) (W.contents writer.new)) }
    ensures read { IfErr result (λ f. f ≡ EngineFault.Read →
        IsCaughtUp decode_responses tt (R.remaining reader.old) (R.remaining reader.new) (W.contents writer.old) (W.contents writer.new)) }
{
    let decoder = Decoder {
        line: HexLine::new(),
        text: ArrayString::new(),
    };
    let decoder = Reasoned::new(alloc, decoder, PacketLines::Bytes, errors);
    run(alloc, decoder, reader, writer)
}
