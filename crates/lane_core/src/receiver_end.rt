//! The receiver's end of a lane.
ghost use Rattle.std.specs.Prelude.{◌≡◌, ◌<◌, ◌↔◌, [], length, slice_get, Some, true, false, IsTrue, IsSome, IsNone, IfSome, OnOk, OnErr, IfOk, IfErr};

use crate::packet::{Arrival, DllpKind, Fate, LaneRefusal, WirePacket};
use crate::wires::{BackWire, ForwardWire};
use dllp_core::Dllp;
use flow_control::{CreditLedger, LaneCredits, OrderedQueue, need_of};
use link_replay::{Cargo, Receiver, Reception};
use seq12::Seq12;
use std::alloc::Global;
use std::marker::Model;
use tlp_core::Tlp;

/// The receiver's end: its numbers, the credits that it gave, and the accepted packets.
#[derive(Drop)]
pub struct ReceiverEnd {
    receiver: Receiver,
    ledger: CreditLedger,
    queue: OrderedQueue,
}

impl Model for ReceiverEnd {
    ghost use Rattle.lane_core.specs.Steps.{ReceiverEndView};

    ghost Value = { ReceiverEndView };

    ghost view = { λ e. record { receiving = e.receiver; ledger = e.ledger; queue = e.queue } };
}

impl ReceiverEnd {
    ghost use Rattle.dllp_core.specs.Layout.{FitsDataFC};
    ghost use Rattle.link_replay.specs.ReceiverView.{reception_of};
    ghost use Rattle.flow_control.specs.Queue.{is_takeable};
    ghost use Rattle.lane_core.specs.Content.{item_spelled};
    ghost use Rattle.lane_core.specs.declared.packet.Arrival.TheVariants.{Answered};
    ghost use Rattle.lane_core.specs.Steps.{ReceiverEndView, new_receiver, all_but_first, ledger_with, queue_with, after_arrival, delivered, after_deliver, dllp_of, after_send, wire_after_send, after_take};

    /// Nothing was accepted, and these credits were given. It allocates nothing.
    pub fn new(credits: LaneCredits, alloc: Global) -> ReceiverEnd
        ensures { result ≡ new_receiver credits }
    {
        ReceiverEnd {
            receiver: Receiver::new(),
            ledger: CreditLedger::new(credits),
            queue: OrderedQueue::new(alloc),
        }
    }

    /// The packet that the bytes spell goes into the queue as the last.
    fn take_in(&mut self, cargo: &Cargo) -> Result<(), LaneRefusal>
        ensures ok { OnOk result (self.new ≡
            record {
              receiving = self.old.receiving;
              ledger = ledger_with self.old.ledger (item_spelled cargo.now);
              queue = queue_with self.old.queue (item_spelled cargo.now);
            }) }
        ensures memory { IfErr result (λ refusal. refusal ≡ LaneRefusal.Memory) }
        ensures err { OnErr result (self.new ≡ self.old) }
    {
        let Ok(tlp) = tlp_core::decode(cargo.bytes.as_slice()) else {
            // No lane carries such bytes: its sender encoded them.
            return Ok(());
        };
        let need = need_of(&tlp);
        if self.queue.push(tlp, cargo.mark).is_err() {
            return Err(LaneRefusal::Memory);
        }
        self.ledger.received(need);
        Ok(())
    }

    /// A packet arrives, with a good check or a failed one.
    fn receive(&mut self, packet: &WirePacket, good: bool) -> Result<Reception, LaneRefusal>
        ensures answer { IfOk result (λ answer. answer ≡ reception_of self.old.receiving packet.now.number good) }
        ensures ok { IfOk result (λ answer. self.new ≡ after_arrival self.old packet.now.cargo (Answered answer)) }
        ensures grows { OnErr result (reception_of self.old.receiving packet.now.number good ≡ Reception.Accept) }
        ensures memory { IfErr result (λ refusal. refusal ≡ LaneRefusal.Memory) }
        ensures err { OnErr result (self.new ≡ self.old) }
    {
        let mut receiver = self.receiver;
        let answer = receiver.receive(packet.number, good);
        if answer == Reception::Accept {
            self.take_in(&packet.cargo)?;
        }
        self.receiver = receiver;
        Ok(answer)
    }

    /// Takes the oldest packet of the wire; None where the wire is empty. An accepted packet stands last in the queue.
    pub fn deliver(
        &mut self,
        wire: &mut ForwardWire,
        fate: Fate,
    ) -> Result<Option<Arrival>, LaneRefusal>
        ensures answer { IfOk result (λ arrival. arrival ≡ delivered wire.old self.old fate) }
        ensures ok { OnOk result (self.new ≡ after_deliver wire.old self.old fate) }
        ensures wire { OnOk result (wire.new ≡ all_but_first wire.old) }
        ensures grows { OnErr result (delivered wire.old self.old fate ≡ Some (Arrival.Answered Reception.Accept)) }
        ensures memory { IfErr result (λ refusal. refusal ≡ LaneRefusal.Memory) }
        ensures err { OnErr result (self.new ≡ self.old) }
        ensures err_wire { OnErr result (wire.new ≡ wire.old) }
    {
        let Some(packet) = wire.packets.front() else {
            return Ok(None);
        };
        let arrival = match fate {
            Fate::Good => Arrival::Answered(self.receive(packet, true)?),
            Fate::Failed => Arrival::Answered(self.receive(packet, false)?),
            Fate::Lost => Arrival::Gone,
        };
        wire.packets.pop_front();
        Ok(Some(arrival))
    }

    /// Puts the Ack or Nak that is due, or a class's UpdateFC, on the wire as the last.
    pub fn send_dllp(&mut self, wire: &mut BackWire, kind: DllpKind) -> Result<Dllp, LaneRefusal>
        ensures answer { IfOk result (λ dllp. dllp ≡ dllp_of self.old kind) }
        ensures in_range { IfOk result (λ dllp. FitsDataFC dllp) }
        ensures ok { OnOk result (self.new ≡ after_send self.old kind) }
        ensures wire { OnOk result (wire.new ≡ wire_after_send self.old kind wire.old) }
        ensures memory { IfErr result (λ refusal. refusal ≡ LaneRefusal.Memory) }
        ensures err { OnErr result (self.new ≡ self.old) }
        ensures err_wire { OnErr result (wire.new ≡ wire.old) }
    {
        let mut receiver = self.receiver;
        let dllp = match kind {
            DllpKind::Answer => receiver.acknowledge(),
            DllpKind::Update(class) => self.ledger.update(class),
        };
        let sent = dllp;
        if wire.dllps.push_back(dllp).is_err() {
            return Err(LaneRefusal::Memory);
        }
        self.receiver = receiver;
        Ok(sent)
    }

    /// How many accepted packets there are.
    pub fn len(&self) -> usize
        ensures { result ≡ length self.now.queue }
    {
        self.queue.len()
    }

    pub fn is_empty(&self) -> bool
        ensures { IsTrue result ↔ (self.now.queue ≡ []) }
    {
        self.queue.is_empty()
    }

    /// NEXT_RCV_SEQ, the number that is waited for.
    pub fn next_rcv_seq(&self) -> Seq12
        ensures { result ≡ self.now.receiving.next }
    {
        self.receiver.next_rcv_seq()
    }

    /// Whether there is an accepted packet at this place that may pass every earlier one.
    pub fn takeable(&self, place: usize) -> bool
        ensures { result ≡ is_takeable self.now.queue place }
    {
        self.queue.takeable(place)
    }

    /// The accepted packet of a place and its mark if [`take`](Self::take) would take them, otherwise none.
    pub fn peek(&self, place: usize) -> Option<(&Tlp, u32)>
        ensures none { IsNone result ↔ (is_takeable self.now.queue place ≡ false) }
        ensures item { IfSome result (λ x. IsTrue (is_takeable self.now.queue place) × (slice_get self.now.queue place ≡ Some (x.0.now, x.1))) }
    {
        self.queue.peek(place)
    }

    /// The accepted packet of a place and its mark, oldest first from 0; None past the end.
    pub fn at(&self, place: usize) -> Option<(&Tlp, u32)>
        ensures there { IsSome result ↔ (place < length self.now.queue) }
        ensures item { IfSome result (λ x. slice_get self.now.queue place ≡ Some (x.0.now, x.1)) }
    {
        self.queue.at(place)
    }

    /// Takes the accepted packet of a place, with its mark, and gives its credits back.
    #[inline(always)]
    pub fn take(&mut self, place: usize) -> (Tlp, u32)
        requires { IsTrue (is_takeable self.old.queue place) }
        ensures item { slice_get self.old.queue place ≡ Some result }
        ensures state { self.new ≡ after_take self.old place }
    {
        let (tlp, mark) = self.queue.take(place);
        self.ledger.freed(need_of(&tlp));
        (tlp, mark)
    }
}
