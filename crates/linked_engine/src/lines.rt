//! What a device behind its end of a link does, and what it answers.
ghost use Rattle.std.specs.Prelude.{◌≡◌, Ok, IfOk, OnOk, OnErr};
ghost use Rattle.linked_endpoint.specs.Linked as link;
ghost use Rattle.line_loop.specs.Run.{IsAnswer};
ghost use Rattle.link_crc.specs.Checks.{lcrc_check_of, framed};
ghost use Rattle.linked_engine.specs.Crcs.{without_last};
ghost use Rattle.linked_engine.specs.Lines as spec;

use crate::frames::{Mark, dllp_check, without_dllp_crc, without_lcrc};
use crate::options::LinkedOptions;
use crate::texts::{put_arrived, put_heard, put_replay, put_sent, put_state, put_word};
use arrayvec::ArrayVec;
use endpoint_core::Room;
use endpoint_engine::no_line;
use endpoint_log::Recording;
use hex_text::HexText;
use line_loop::Verdict;
use link_crc::{Check, Framing, check_packet};
use linked_endpoint::{Arrived, LinkedEndpoint};
use port_core::PACKET_BYTES;
use std::alloc::{AllocError, Global};
use std::marker::Model;
use trace_engine::tell_trace;

/// A device behind its end of a link.
#[derive(Drop)]
pub(crate) struct Lines {
    alloc: Global,
    linked: LinkedEndpoint,
    recording: Recording,
    pub(crate) has_crc: bool,
    rooms: Rooms,
}

/// Room for TLPs that are read and completions, and for what is sent and its digits. What it holds counts for nothing.
#[derive(Drop)]
struct Rooms {
    device: Room,
    sent: ArrayVec<u8, PACKET_BYTES>,
    text: HexText,
}

impl Model for Lines {
    ghost use Rattle.endpoint_log.specs.Recordings.{log_of};
    ghost use Rattle.linked_engine.specs.Lines.{LinkLines};

    ghost Value = { LinkLines };

    ghost view = { λ l. record { linked = l.linked; log = log_of l.recording; has_crc = l.has_crc } };
}

/// A device whose link is down.
fn new_linked(alloc: Global, options: LinkedOptions) -> Result<LinkedEndpoint, AllocError>
    ensures { IfOk result (λ l. l ≡ link.new_linked options.device.setup options.credits) }
{
    LinkedEndpoint::new(alloc, options.device.setup, options.credits.advertised())
}

impl Lines {
    /// A new device, before its first line.
    pub(crate) fn new(alloc: Global, options: LinkedOptions) -> Result<Lines, AllocError>
        ensures { IfOk result (λ l. l ≡ spec.new_lines options.device.setup options.credits options.has_crc options.device.is_traced) }
    {
        Ok(Lines {
            alloc,
            linked: new_linked(alloc, options)?,
            recording: Recording::new(alloc, options.device.setup, options.device.is_traced),
            has_crc: options.has_crc,
            rooms: Rooms {
                device: Room::new(),
                sent: ArrayVec::new(),
                text: HexText::new(),
            },
        })
    }

    /// Requests act and their completions enter the replay buffer, until none that waits may act: as far as the peer's credits
    /// and the window of 2047 packets go.
    fn settle(&mut self) -> Result<(), AllocError>
        ensures { OnOk result (self.new ≡ spec.settled self.old) }
    {
        self.linked
            .settle(&mut self.rooms.device, &mut self.recording)?;
        self.recording.check()?;
        Ok(())
    }

    /// A packet arrives.
    fn receive(&mut self, packet: &[u8], check: Check) -> Result<Arrived, AllocError>
        ensures answer { IfOk result (λ a. a ≡ link.arrived self.old.linked packet.now check) }
        ensures state { OnOk result (self.new ≡ spec.received self.old packet.now check) }
    {
        let arrived = self
            .linked
            .receive(packet, check, &mut self.rooms.device, &mut self.recording)?;
        self.recording.check()?;
        Ok(arrived)
    }

    /// A packet arrives, and requests act.
    fn come(
        &mut self,
        packet: &[u8],
        check: Check,
        out: &mut Vec<u8>,
    ) -> Result<Verdict, AllocError>
        ensures ok { IfOk result (λ verdict. IsAnswer self.new out.old.items out.new.items verdict (spec.answer_arrival self.old packet.now check)) }
        ensures err { OnErr result (out.new.items ≡ out.old.items) }
    {
        let arrived = self.receive(packet, check)?;
        self.settle()?;
        put_arrived(arrived, out)?;
        Ok(Verdict::Fine)
    }

    /// A packet with its LCRC arrives, whose framing ends so.
    fn come_checked(
        &mut self,
        bytes: &[u8],
        framing: Framing,
        out: &mut Vec<u8>,
    ) -> Result<Verdict, AllocError>
        ensures ok { IfOk result (λ verdict. IsAnswer self.new out.old.items out.new.items verdict
            (spec.answer_checked self.old (framed (lcrc_check_of bytes.now) framing) (without_last 4 bytes.now))) }
        ensures err { OnErr result (out.new.items ≡ out.old.items) }
    {
        match check_packet(bytes).framed(framing) {
            Some(check) => self.come(without_lcrc(bytes), check, out),
            None => {
                put_word("gone", out)?;
                Ok(Verdict::Fine)
            }
        }
    }

    /// The bytes of a packet's line arrive, and what stands behind them.
    pub(crate) fn take_packet(
        &mut self,
        bytes: &[u8],
        mark: Mark,
        out: &mut Vec<u8>,
    ) -> Result<Verdict, AllocError>
        ensures ok { IfOk result (λ verdict. IsAnswer self.new out.old.items out.new.items verdict (spec.answer_packet_bytes self.old (Ok bytes.now) mark)) }
        ensures err { OnErr result (out.new.items ≡ out.old.items) }
    {
        match mark {
            Mark::Word(check) => self.come(bytes, check, out),
            Mark::Framing(framing) => self.come_checked(bytes, framing, out),
        }
    }

    /// A DLLP arrives, and requests act.
    fn hear(&mut self, dllp: &[u8], check: Check, out: &mut Vec<u8>) -> Result<Verdict, AllocError>
        ensures ok { IfOk result (λ verdict. IsAnswer self.new out.old.items out.new.items verdict (spec.answer_hearing self.old dllp.now check)) }
        ensures err { OnErr result (out.new.items ≡ out.old.items) }
    {
        let heard = self.linked.receive_dllp(dllp, check);
        self.settle()?;
        put_heard(heard, out)?;
        Ok(Verdict::Fine)
    }

    /// The bytes of a DLLP's line arrive.
    pub(crate) fn take_dllp(
        &mut self,
        bytes: &[u8],
        check: Check,
        out: &mut Vec<u8>,
    ) -> Result<Verdict, AllocError>
        ensures ok { IfOk result (λ verdict. IsAnswer self.new out.old.items out.new.items verdict (spec.answer_dllp_bytes self.old (Ok bytes.now) check)) }
        ensures err { OnErr result (out.new.items ≡ out.old.items) }
    {
        if self.has_crc {
            self.hear(without_dllp_crc(bytes), dllp_check(bytes), out)
        } else {
            self.hear(bytes, check, out)
        }
    }

    /// What is sent next.
    pub(crate) fn next(&mut self, out: &mut Vec<u8>) -> Result<Verdict, AllocError>
        ensures ok { IfOk result (λ verdict. IsAnswer self.new out.old.items out.new.items verdict (spec.answer_next self.old)) }
        ensures err { OnErr result (out.new.items ≡ out.old.items) }
    {
        let sent = self.linked.next(&mut self.rooms.sent);
        let bytes = self.rooms.sent.as_slice();
        put_sent(self.has_crc, sent, bytes, &mut self.rooms.text, out)?;
        Ok(Verdict::Fine)
    }

    /// The link is up.
    fn up(&mut self, out: &mut Vec<u8>) -> Result<Verdict, AllocError>
        ensures ok { IfOk result (λ verdict. IsAnswer self.new out.old.items out.new.items verdict (spec.answer_up self.old)) }
        ensures err { OnErr result (out.new.items ≡ out.old.items) }
    {
        put_word("up", out)?;
        self.linked.up(self.alloc);
        self.recording.reset();
        Ok(Verdict::Fine)
    }

    /// The link is down.
    fn down(&mut self, out: &mut Vec<u8>) -> Result<Verdict, AllocError>
        ensures ok { IfOk result (λ verdict. IsAnswer self.new out.old.items out.new.items verdict (spec.answer_down self.old)) }
        ensures err { OnErr result (out.new.items ≡ out.old.items) }
    {
        put_word("down", out)?;
        self.linked.down(self.alloc);
        self.recording.reset();
        Ok(Verdict::Fine)
    }

    /// A timer for InitFCs, or for Acks and UpdateFCs, expired.
    fn refresh(&mut self, out: &mut Vec<u8>) -> Result<Verdict, AllocError>
        ensures ok { IfOk result (λ verdict. IsAnswer self.new out.old.items out.new.items verdict (spec.answer_refresh self.old)) }
        ensures err { OnErr result (out.new.items ≡ out.old.items) }
    {
        put_word("refresh", out)?;
        self.linked.refresh();
        Ok(Verdict::Fine)
    }

    /// REPLAY_TIMER expired.
    fn replay(&mut self, out: &mut Vec<u8>) -> Result<Verdict, AllocError>
        ensures ok { IfOk result (λ verdict. IsAnswer self.new out.old.items out.new.items verdict (spec.answer_replay self.old)) }
        ensures err { OnErr result (out.new.items ≡ out.old.items) }
    {
        let moved = self.linked.replay();
        let stopped = self.linked.port().sender().sending().stopped();
        put_replay(stopped, moved, out)?;
        Ok(Verdict::Fine)
    }

    /// The link was retrained.
    fn retrained(&mut self, out: &mut Vec<u8>) -> Result<Verdict, AllocError>
        ensures ok { IfOk result (λ verdict. IsAnswer self.new out.old.items out.new.items verdict (spec.answer_retrained self.old)) }
        ensures err { OnErr result (out.new.items ≡ out.old.items) }
    {
        put_word("retrained", out)?;
        self.linked.retrained();
        Ok(Verdict::Fine)
    }

    /// The state of the link.
    fn state(&self, out: &mut Vec<u8>) -> Result<Verdict, AllocError>
        ensures ok { IfOk result (λ verdict. IsAnswer self.now out.old.items out.new.items verdict (spec.answer_state self.now)) }
        ensures err { OnErr result (out.new.items ≡ out.old.items) }
    {
        put_state(&self.linked, out)?;
        Ok(Verdict::Fine)
    }

    /// Adds what was recorded, if the device is traced.
    fn trace(&self, out: &mut Vec<u8>) -> Result<Verdict, AllocError>
        ensures ok { IfOk result (λ verdict. IsAnswer self.now out.old.items out.new.items verdict (spec.answer_trace self.now self.now.log)) }
        ensures err { OnErr result (out.new.items ≡ out.old.items) }
    {
        let Recording::On(log) = &self.recording else {
            return no_line(out);
        };
        tell_trace(self.alloc, log.claim(), out)
    }

    /// Answers a line of a timer.
    fn answer_timer(&mut self, line: &[u8], out: &mut Vec<u8>) -> Result<Verdict, AllocError>
        ensures ok { IfOk result (λ verdict. IsAnswer self.new out.old.items out.new.items verdict (spec.answer_timer self.old line.now)) }
        ensures err { OnErr result (out.new.items ≡ out.old.items) }
    {
        if line == b"refresh".as_slice() {
            self.refresh(out)
        } else if line == b"replay".as_slice() {
            self.replay(out)
        } else if line == b"retrained".as_slice() {
            self.retrained(out)
        } else {
            no_line(out)
        }
    }

    /// Answers a line of the physical layer or a timer.
    fn answer_link(&mut self, line: &[u8], out: &mut Vec<u8>) -> Result<Verdict, AllocError>
        ensures ok { IfOk result (λ verdict. IsAnswer self.new out.old.items out.new.items verdict (spec.answer_link self.old line.now)) }
        ensures err { OnErr result (out.new.items ≡ out.old.items) }
    {
        if line == b"up".as_slice() {
            self.up(out)
        } else if line == b"down".as_slice() {
            self.down(out)
        } else {
            self.answer_timer(line, out)
        }
    }

    /// Answers a line of one word.
    pub(crate) fn answer_word(
        &mut self,
        line: &[u8],
        out: &mut Vec<u8>,
    ) -> Result<Verdict, AllocError>
        ensures ok { IfOk result (λ verdict. IsAnswer self.new out.old.items out.new.items verdict (spec.answer_word self.old line.now)) }
        ensures err { OnErr result (out.new.items ≡ out.old.items) }
    {
        if line == b"next".as_slice() {
            self.next(out)
        } else if line == b"state".as_slice() {
            self.state(out)
        } else if line == b"trace".as_slice() {
            self.trace(out)
        } else {
            self.answer_link(line, out)
        }
    }
}
