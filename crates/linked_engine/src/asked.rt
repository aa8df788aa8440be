//! A device behind its end of a link, line by line: the digits of packets and DLLPs, and words.
ghost use Rattle.std.specs.Prelude.{◌≡◌, ◌≤◌, length, IfOk, OnErr};
ghost use Rattle.hex.specs.Hex.{decode_of};
ghost use Rattle.hex_text.specs.Line.{digits_of};
ghost use Rattle.line_loop.specs.Run.{IsAnswer};
ghost use Rattle.linked_engine.specs.Crcs.{marked_packet, marked_dllp};
ghost use Rattle.linked_engine.specs.Lines as spec;

use crate::frames::{Mark, marked_dllp, marked_packet};
use crate::lines::Lines;
use crate::options::LinkedOptions;
use crate::packet_line::PacketLine;
use endpoint_engine::no_line;
use hex_text::{HexLine, is_skipped};
use line_loop::{Responder, Verdict};
use link_crc::Check;
use std::alloc::{AllocError, Global};
use std::marker::Model;

/// A device that is asked line by line, with the bytes of the last packet or DLLP.
#[derive(Drop)]
pub(crate) struct Asked {
    lines: Lines,
    packet: PacketLine,
    dllp: HexLine,
}

impl Model for Asked {
    ghost use Rattle.linked_engine.specs.Lines.{LinkLines};

    ghost Value = { LinkLines };

    ghost view = { λ a. a.lines };
}

impl Asked {
    /// A new device, before its first line.
    pub(crate) fn new(alloc: Global, options: LinkedOptions) -> Result<Asked, AllocError>
        ensures { IfOk result (λ a. a ≡ spec.new_lines options.device.setup options.credits options.has_crc options.device.is_traced) }
    {
        Ok(Asked {
            lines: Lines::new(alloc, options)?,
            packet: PacketLine::new(),
            dllp: HexLine::new(),
        })
    }

    /// Whether packets and DLLPs have CRCs.
    pub(crate) fn has_crc(&self) -> bool
        ensures { result ≡ self.now.has_crc }
    {
        self.lines.has_crc
    }

    /// A packet of these digits arrives.
    #[tactic(auto, using(crate::proofs::Reading::no_packet))]
    fn read_packet(
        &mut self,
        digits: &[u8],
        mark: Mark,
        out: &mut Vec<u8>,
    ) -> Result<Verdict, AllocError>
        requires { length digits.now ≤ 512 }
        ensures ok { IfOk result (λ verdict. IsAnswer self.new out.old.items out.new.items verdict
            (spec.answer_packet_bytes self.old (decode_of (digits_of digits.now)) mark)) }
        ensures err { OnErr result (out.new.items ≡ out.old.items) }
    {
        if !self.packet.read(digits) {
            return no_line(out);
        }
        self.lines.take_packet(self.packet.bytes(), mark, out)
    }

    /// A DLLP of these digits arrives.
    #[tactic(auto, using(crate::proofs::Reading::no_dllp))]
    fn read_dllp(
        &mut self,
        digits: &[u8],
        check: Check,
        out: &mut Vec<u8>,
    ) -> Result<Verdict, AllocError>
        requires { length digits.now ≤ 512 }
        ensures ok { IfOk result (λ verdict. IsAnswer self.new out.old.items out.new.items verdict
            (spec.answer_dllp_bytes self.old (decode_of (digits_of digits.now)) check)) }
        ensures err { OnErr result (out.new.items ≡ out.old.items) }
    {
        if !self.dllp.read(digits) {
            return no_line(out);
        }
        self.lines.take_dllp(self.dllp.bytes(), check, out)
    }

    /// Answers what stands behind `packet`.
    fn answer_packet(&mut self, line: &[u8], out: &mut Vec<u8>) -> Result<Verdict, AllocError>
        requires { length line.now ≤ 512 }
        ensures ok { IfOk result (λ verdict. IsAnswer self.new out.old.items out.new.items verdict
            (spec.answer_packet self.old (marked_packet self.old.has_crc line.now))) }
        ensures err { OnErr result (out.new.items ≡ out.old.items) }
    {
        match marked_packet(self.has_crc(), line) {
            Some((digits, mark)) => self.read_packet(digits, mark, out),
            None => no_line(out),
        }
    }

    /// Answers what stands behind `dllp`.
    fn answer_dllp(&mut self, line: &[u8], out: &mut Vec<u8>) -> Result<Verdict, AllocError>
        requires { length line.now ≤ 512 }
        ensures ok { IfOk result (λ verdict. IsAnswer self.new out.old.items out.new.items verdict
            (spec.answer_dllp self.old (marked_dllp self.old.has_crc line.now))) }
        ensures err { OnErr result (out.new.items ≡ out.old.items) }
    {
        match marked_dllp(self.has_crc(), line) {
            Some((digits, check)) => self.read_dllp(digits, check, out),
            None => no_line(out),
        }
    }

    /// Answers a line, whatever it is.
    #[inline(never)]
    fn answer_other(&mut self, line: &[u8], out: &mut Vec<u8>) -> Result<Verdict, AllocError>
        requires { length line.now ≤ 512 }
        ensures ok { IfOk result (λ verdict. IsAnswer self.new out.old.items out.new.items verdict (spec.answer_line self.old line.now)) }
        ensures err { OnErr result (out.new.items ≡ out.old.items) }
    {
        if is_skipped(line) {
            return Ok(Verdict::Fine);
        }
        if let Some(packet) = line.strip_prefix(b"packet ") {
            return self.answer_packet(packet, out);
        }
        match line.strip_prefix(b"dllp ") {
            Some(dllp) => self.answer_dllp(dllp, out),
            None => self.lines.answer_word(line, out),
        }
    }
}

impl Responder for Asked {
    ghost use Rattle.linked_engine.specs.Lines.{link_responses};

    ghost responses = { link_responses };

    #[inline(always)]
    fn on_line(&mut self, line: &[u8], out: &mut Vec<u8>) -> Result<Verdict, AllocError> {
        match line {
            [b'p', b'a', b'c', b'k', b'e', b't', b' ', packet @ ..] => {
                self.answer_packet(packet, out)
            }
            [b'd', b'l', b'l', b'p', b' ', dllp @ ..] => self.answer_dllp(dllp, out),
            [b'n', b'e', b'x', b't'] => self.lines.next(out),
            _ => self.answer_other(line, out),
        }
    }

    fn on_long_line(&mut self, out: &mut Vec<u8>) -> Result<Verdict, AllocError> {
        no_line(out)
    }

    fn on_end(&mut self, _out: &mut Vec<u8>) -> Result<Verdict, AllocError> {
        Ok(Verdict::Fine)
    }
}
