//! The subcommand `endpoint --link`: what arrives at a device's end of a link and what is sent there, line by line.
ghost use Rattle.std.specs.Prelude.{◌≡◌, IfOk, IfErr, OnErr};
ghost use Rattle.line_loop.specs.Run.{IsCaughtUp, IsWhole, IsPart};
ghost use Rattle.linked_engine.specs.Lines as spec;

use crate::asked::Asked;
use crate::options::LinkedOptions;
use crate::reasons::reason_of;
use diagnostics::{ReasonLines, Reasoned, Reasons};
use line_loop::{EngineFault, run};
use std::alloc::{AllocError, Global};
use std::io::{Read, Write};

/// Says why a line of a device behind a link is a fault.
#[derive(Drop)]
struct LineReasons {}

impl Reasons<Asked> for LineReasons {
    fn tell(
        &self,
        device: &mut Asked,
        line: &[u8],
        _text: &[u8],
        reasons: &mut ReasonLines,
    ) -> Result<(), AllocError> {
        reasons.tell(&reason_of(line, device.has_crc()))
    }
}

/// Answers each line of the reader's input with one line, but `trace` with a trace: what arrives at a memory device's end of a
/// link, and what is sent there. After a packet and a DLLP requests act, and their completions enter the replay buffer. `Ok`
/// is the exit status, 1 if a line was a fault. After an `Err` what was written is a prefix of the whole output. The memory
/// that it takes is bounded whatever the peer does, but for what is recorded. Why lines are faults is told on `errors`, a
/// line each; a stream that fails there changes nothing.
pub fn run_linked<R: Read, W: Write, E: Write>(
    alloc: Global,
    options: LinkedOptions,
    reader: &mut R,
    writer: &mut W,
    errors: &mut E,
) -> Result<u8, EngineFault>
    ensures ok { IfOk result (IsWhole (spec.out_linked options.device.setup options.credits options.has_crc options.device.is_traced)
        (R.remaining reader.old) (R.remaining reader.new) (W.contents writer.old) (W.contents writer.new)) }
    ensures err { OnErr result (IsPart (spec.out_linked options.device.setup options.credits options.has_crc options.device.is_traced)
        (R.remaining reader.old) (R.remaining reader.new) (W.contents writer.old) (W.contents writer.new)) }
    ensures read { IfErr result (λ f. f ≡ EngineFault.Read →
        IsCaughtUp spec.link_responses (spec.new_lines options.device.setup options.credits options.has_crc options.device.is_traced)
        (R.remaining reader.old) (R.remaining reader.new) (W.contents writer.old) (W.contents writer.new)) }
{
    let device = Asked::new(alloc, options)?;
    let reasoned = Reasoned::new(alloc, device, LineReasons {}, errors);
    run(alloc, reasoned, reader, writer)
}
