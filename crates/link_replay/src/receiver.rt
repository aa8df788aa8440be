//! The receiver: NEXT_RCV_SEQ and NAK_SCHEDULED.
ghost use Rattle.std.specs.Prelude.{◌≡◌};

use dllp_core::Dllp;
use seq12::{Seq12, SequenceClass, classify};
use std::marker::Model;

/// NAK_SCHEDULED, and whether the Nak was sent.
#[derive(Clone, Copy, Debug, PartialEq)]
pub enum NakScheduled {
    /// NAK_SCHEDULED is clear.
    Clear,
    /// NAK_SCHEDULED is set, and a Nak is due.
    Due,
    /// NAK_SCHEDULED is set, and its Nak was sent.
    Sent,
}

/// What a receiver does with a packet.
#[derive(Clone, Copy, Debug, PartialEq)]
pub enum Reception {
    /// It is the packet that is waited for, and is handed up.
    Accept,
    /// It was accepted before, and is discarded; an Ack is due.
    Duplicate,
    /// It is discarded, and a Nak is due.
    NakNow,
    /// It is discarded, and nothing is sent: a Nak was scheduled before.
    Quiet,
}

/// The receiver's side of a link: the number that is waited for, and whether a Nak is scheduled.
#[derive(Clone, Copy)]
pub struct Receiver {
    next: Seq12,
    nak: NakScheduled,
}

impl Model for Receiver {
    ghost use Rattle.link_replay.specs.ReceiverView.{ReceiverView};

    ghost Value = { ReceiverView };

    ghost view = { λ r. record { next = r.next; nak = r.nak } };

    ghost inverse = { λ r. record { next = r.next; nak = r.nak } };
}

impl Receiver {
    ghost use Rattle.link_replay.specs.ReceiverView.{fresh, reception_of, after_receive, acknowledgment_of, after_acknowledge};

    /// NEXT_RCV_SEQ is 000h, NAK_SCHEDULED is clear.
    pub fn new() -> Receiver
        ensures { result ≡ fresh }
    {
        Receiver {
            next: Seq12::new(0),
            nak: NakScheduled::Clear,
        }
    }

    /// NEXT_RCV_SEQ, the number that is waited for.
    pub fn next_rcv_seq(&self) -> Seq12
        ensures { result ≡ self.now.next }
    {
        self.next
    }

    /// NAK_SCHEDULED, and whether its Nak is due.
    pub fn nak_scheduled(&self) -> NakScheduled
        ensures { result ≡ self.now.nak }
    {
        self.nak
    }

    /// What is done with a packet of this number, whose check was good or failed.
    pub fn receive(&mut self, got: Seq12, good: bool) -> Reception
        ensures answer { result ≡ reception_of self.old got good }
        ensures state { self.new ≡ after_receive self.old got good }
    {
        if good {
            match classify(self.next, got) {
                SequenceClass::Expected => {
                    self.next = self.next.next();
                    self.nak = NakScheduled::Clear;
                    return Reception::Accept;
                }
                SequenceClass::Duplicate => return Reception::Duplicate,
                SequenceClass::Ahead => {}
            }
        }
        if self.nak == NakScheduled::Clear {
            self.nak = NakScheduled::Due;
            Reception::NakNow
        } else {
            Reception::Quiet
        }
    }

    /// A Nak where one is due, which is then no longer due, and else an Ack, both with `(NEXT_RCV_SEQ - 1) mod 4096`.
    pub fn acknowledge(&mut self) -> Dllp
        ensures answer { result ≡ acknowledgment_of self.old }
        ensures state { self.new ≡ after_acknowledge self.old }
    {
        let last = self.next.previous();
        if self.nak == NakScheduled::Due {
            self.nak = NakScheduled::Sent;
            Dllp::Nak(last)
        } else {
            Dllp::Ack(last)
        }
    }
}
