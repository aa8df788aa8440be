//! The receiving end: numbers and credits.
ghost use Rattle.std.specs.Prelude.{◌≡◌};
ghost use Rattle.port_core.specs.Incoming as spec;

use crate::needs::need_at;
use dllp_core::{Class, Dllp};
use flow_control::{CreditLedger, LaneCredits, Need};
use link_crc::Check;
use link_replay::{NakScheduled, Receiver, Reception};
use seq12::Seq12;
use std::marker::Model;

/// What becomes of a packet that arrived.
#[derive(Clone, Copy, Debug, PartialEq)]
pub enum Received {
    /// The link isn't up: the packet is discarded, and nothing changes.
    Dropped,
    /// It is handed up: its TLP is the bytes behind the first two.
    Accepted {
        /// What the TLP takes of the credits, which the owner gives back by [`free`](crate::LinkPort::free) unless it
        /// overflows. None if its bytes are no TLP without a prefix.
        need: Option<Need>,
        /// Receiver Overflow: the TLP needs more than was advertised. Its credits are back already.
        overflows: bool,
    },
    /// It was accepted before, and is discarded; an Ack is due.
    Duplicate,
    /// It is discarded, and a Nak is due.
    NakNow,
    /// It is discarded, and nothing is sent: a Nak was scheduled before.
    Quiet,
}

/// NEXT_RCV_SEQ and NAK_SCHEDULED, and the credits that were given.
#[derive(Clone, Copy)]
pub struct IncomingEnd {
    receiver: Receiver,
    ledger: CreditLedger,
}

impl Model for IncomingEnd {
    ghost use Rattle.port_core.specs.Incoming.{IncomingView};

    ghost Value = { IncomingView };

    ghost view = { λ e. record { receiving = e.receiver; ledger = e.ledger } };

    ghost inverse = { λ e. record { receiver = e.receiving; ledger = e.ledger } };
}

/// Whether more than was given would be received, if a packet of this need came.
fn would_overflow(ledger: &CreditLedger, need: Need) -> bool
    ensures { result ≡ spec.would_overflow ledger.now need }
{
    let mut tried = *ledger;
    tried.received(need);
    tried.has_overflowed(need.class)
}

/// Counts an accepted packet. One that overflows is given back at once. Returns whether it does.
fn count(ledger: &mut CreditLedger, need: Option<Need>) -> bool
    ensures overflow { result ≡ spec.overflow_of ledger.old need }
    ensures state { ledger.new ≡ spec.counted ledger.old need }
{
    let Some(need) = need else {
        return false;
    };
    let overflows = would_overflow(ledger, need);
    ledger.received(need);
    if overflows {
        ledger.freed(need);
    }
    overflows
}

/// The sequence number, 12 bits behind four that are ignored.
fn number_at(packet: &[u8]) -> Seq12
    ensures { result ≡ spec.number_in packet.now }
{
    if packet.len() < 2 {
        return Seq12::new(0);
    }
    Seq12::new(u16::from(packet[0] % 16) * 256 + u16::from(packet[1]))
}

/// What the TLP of a packet takes of the credits.
fn need_in(packet: &[u8]) -> Option<Need>
    ensures { result ≡ spec.need_in packet.now }
{
    if packet.len() < 2 {
        return None;
    }
    need_at(&packet[2..])
}

impl IncomingEnd {
    ghost use Rattle.dllp_core.specs.Layout.{FitsDataFC};
    ghost use Rattle.flow_control.specs.Credits.{after_freed, update_of};
    ghost use Rattle.link_replay.specs.ReceiverView.{acknowledgment_of};

    /// Nothing was accepted, and these credits were given.
    pub fn new(credits: LaneCredits) -> IncomingEnd
        ensures { result ≡ spec.new_incoming credits }
    {
        IncomingEnd {
            receiver: Receiver::new(),
            ledger: CreditLedger::new(credits),
        }
    }

    /// A packet arrives, with a good check or a failed one; fewer than two bytes count as a failed check.
    pub fn receive(&mut self, packet: &[u8], check: Check) -> Received
        ensures answer { result ≡ spec.received_on self.old packet.now check }
        ensures state { self.new ≡ spec.after_packet self.old packet.now check }
    {
        let is_good = check.passed() && packet.len() >= 2;
        match self.receiver.receive(number_at(packet), is_good) {
            Reception::Accept => {
                let need = need_in(packet);
                let overflows = count(&mut self.ledger, need);
                Received::Accepted { need, overflows }
            }
            Reception::Duplicate => Received::Duplicate,
            Reception::NakNow => Received::NakNow,
            Reception::Quiet => Received::Quiet,
        }
    }

    /// The credits of a packet are given back.
    pub fn free(&mut self, need: Need)
        ensures { self.new ≡ record { receiving = self.old.receiving; ledger = after_freed self.old.ledger need } }
    {
        self.ledger.freed(need);
    }

    /// Whether a Nak is due.
    pub fn nak_is_due(&self) -> bool
        ensures { result ≡ spec.nak_is_due self.now.receiving.nak }
    {
        self.receiver.nak_scheduled() == NakScheduled::Due
    }

    /// The Nak that is due, which is then no longer due, or else an Ack.
    pub fn acknowledge(&mut self) -> Dllp
        ensures answer { result ≡ acknowledgment_of self.old.receiving }
        ensures in_range { FitsDataFC result }
        ensures state { self.new ≡ spec.after_answer self.old }
    {
        self.receiver.acknowledge()
    }

    /// The UpdateFC of a class.
    pub fn update(&self, class: Class) -> Dllp
        ensures value { result ≡ update_of self.now.ledger class }
        ensures in_range { FitsDataFC result }
    {
        self.ledger.update(class)
    }

    /// NEXT_RCV_SEQ, the number that is waited for.
    pub fn next_rcv_seq(&self) -> Seq12
        ensures { result ≡ self.now.receiving.next }
    {
        self.receiver.next_rcv_seq()
    }
}
