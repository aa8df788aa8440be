//! The sender's end of a lane.
ghost use Rattle.std.specs.Prelude.{◌≡◌, ◌<◌, ◌≤◌, ◌↔◌, ◌⊎◌, length, true, false, IsTrue, IsOk, OnOk, OnErr, IfOk, IfErr, Some, is_some};

use crate::packet::{DllpSeen, Fate, LaneRefusal, WirePacket};
use crate::wires::{BackWire, ForwardWire};
use arrayvec::ArrayVec;
use dllp_core::Dllp;
use flow_control::{CreditGate, LaneCredits, Need, need_of};
use link_replay::{AckFault, Cargo, SendRefusal, Sender};
use seq12::Seq12;
use std::alloc::Global;
use std::marker::Model;
use tlp_core::Tlp;

/// The sender's end: the packets that aren't acknowledged, and the credits that it knows of.
#[derive(Drop)]
pub struct SenderEnd {
    sender: Sender,
    gate: CreditGate,
}

impl Model for SenderEnd {
    ghost use Rattle.lane_core.specs.Steps.{SenderEndView};

    ghost Value = { SenderEndView };

    ghost view = { λ e. record { sending = e.sender; gate = e.gate } };
}

/// The packet's bytes, with the mark beside them.
#[inline(always)]
fn cargo_of(tlp: &Tlp, mark: u32) -> Cargo
    ensures value { result ≡ cargo_of tlp.now mark }
    ensures spelled { Spells (canonical tlp.now) tlp.now }
{
    let mut bytes = ArrayVec::new();
    tlp_core::encode(tlp, &mut bytes);
    Cargo { bytes, mark }
}

ghost use Rattle.tlp_core.specs.Layout.{Spells, canonical};
ghost use Rattle.lane_core.specs.Content.{cargo_of};

impl SenderEnd {
    ghost use Rattle.flow_control.specs.Needs.{need_of as need};
    ghost use Rattle.flow_control.specs.Credits.{gate_covers};
    ghost use Rattle.link_replay.specs.SenderView.{next_number, next_item};
    ghost use Rattle.lane_core.specs.Refusals.{LacksRoom};
    ghost use Rattle.lane_core.specs.Steps.{new_sender, may_enter, entered, with_room, without_room, after_timer, after_retraining, transmitted, after_transmission, wire_after_transmit, all_but_first, is_expected, after_dllp, sender_after, dllp_seen};
    ghost use Rattle.dllp_core.specs.Layout.{FitsDataFC};
    ghost use Rattle.dllp_core.specs.declared.packet.Dllp.{Dllp};
    ghost use Rattle.lane_core.specs.declared.packet.Fate.TheVariants.{Good};

    /// Nothing was entered, and these credits are known of. It allocates nothing.
    pub fn new(credits: LaneCredits, alloc: Global) -> SenderEnd
        ensures { result ≡ new_sender credits }
    {
        SenderEnd {
            sender: Sender::new(alloc),
            gate: CreditGate::new(credits),
        }
    }

    /// Keeps room for one packet of this need: after Ok, the next `enter` of that need is accepted and takes no memory.
    pub fn make_room(&mut self, need: Need) -> Result<(), LaneRefusal>
        ensures no_credits { (result ≡ Err (LaneRefusal.NoCredits need.class)) ↔ (gate_covers self.old.gate need ≡ false) }
        ensures full { (result ≡ Err LaneRefusal.WindowFull) ↔ (IsTrue (gate_covers self.old.gate need) × (2047 ≤ length self.old.sending.kept)) }
        ensures errors { IfErr result (λ refusal. (refusal ≡ LaneRefusal.NoCredits need.class) ⊎ (refusal ≡ LaneRefusal.WindowFull) ⊎
            (refusal ≡ LaneRefusal.Memory)) }
        ensures refused { IfErr result (λ refusal. LacksRoom self.old need refusal) }
        ensures may { OnOk result (may_enter self.old need ≡ true) }
        ensures made { IsTrue self.old.sending.reserved → IsTrue (gate_covers self.old.gate need) → length self.old.sending.kept < 2047 → IsOk result }
        ensures ok { OnOk result (self.new ≡ with_room self.old) }
        ensures err { OnErr result (self.new ≡ self.old) }
    {
        let is_covered = self.gate.fits(need);
        if !is_covered {
            return Err(LaneRefusal::NoCredits(need.class));
        }
        match self.sender.reserve() {
            Ok(()) => Ok(()),
            Err(SendRefusal::WindowFull) => Err(LaneRefusal::WindowFull),
            Err(SendRefusal::Memory) => Err(LaneRefusal::Memory),
        }
    }

    /// The packets that aren't acknowledged, and which of them is sent next.
    pub fn sending(&self) -> &Sender
        ensures { result.now ≡ self.now.sending }
    {
        &self.sender
    }

    /// The credits that the sender knows of.
    pub fn gate(&self) -> &CreditGate
        ensures { result.now ≡ self.now.gate }
    {
        &self.gate
    }

    /// Whether room is kept for one packet.
    pub fn has_room(&self) -> bool
        ensures { result ≡ self.now.sending.reserved }
    {
        self.sender.has_room()
    }

    /// Room is no longer kept for a packet: undoes a [`make_room`](Self::make_room) that found no room kept.
    pub fn release(&mut self)
        ensures { self.new ≡ without_room self.old }
    {
        self.sender.release();
    }

    /// Takes a packet with its mark as the last, under the next sequence number.
    pub fn enter(&mut self, tlp: &Tlp, mark: u32) -> Result<Seq12, LaneRefusal>
        ensures no_credits { (result ≡ Err (LaneRefusal.NoCredits (need tlp.now).class)) ↔ (gate_covers self.old.gate (need tlp.now) ≡ false) }
        ensures full { (result ≡ Err LaneRefusal.WindowFull) ↔ (IsTrue (gate_covers self.old.gate (need tlp.now)) × (2047 ≤ length self.old.sending.kept)) }
        ensures errors { IfErr result (λ refusal. (refusal ≡ LaneRefusal.NoCredits (need tlp.now).class) ⊎ (refusal ≡ LaneRefusal.WindowFull) ⊎
            (refusal ≡ LaneRefusal.Memory)) }
        ensures refused { IfErr result (λ refusal. LacksRoom self.old (need tlp.now) refusal) }
        ensures may { OnOk result (may_enter self.old (need tlp.now) ≡ true) }
        ensures room_was_made { IsTrue self.old.sending.reserved → IsTrue (gate_covers self.old.gate (need tlp.now)) → length self.old.sending.kept < 2047 →
            IsOk result }
        ensures number { IfOk result (λ number. number ≡ next_number self.old.sending) }
        ensures ok { OnOk result (self.new ≡ entered self.old tlp.now mark) }
        ensures err { OnErr result (self.new ≡ self.old) }
        ensures spelled { OnOk result (Spells (canonical tlp.now) tlp.now) }
        ensures small { (need tlp.now).units ≤ 8 }
    {
        let need = need_of(tlp);
        if !self.gate.fits(need) {
            return Err(LaneRefusal::NoCredits(need.class));
        }
        if self.sender.is_full() {
            return Err(LaneRefusal::WindowFull);
        }
        match self.sender.accept(cargo_of(tlp, mark)) {
            Ok(number) => {
                self.gate.consume(need);
                Ok(number)
            }
            Err(SendRefusal::WindowFull) => Err(LaneRefusal::WindowFull),
            Err(SendRefusal::Memory) => Err(LaneRefusal::Memory),
        }
    }

    /// Whether the next `transmit` has a packet to send.
    pub fn can_transmit(&self) -> bool
        ensures { result ≡ is_some (next_item self.now.sending) }
    {
        self.sender.can_transmit()
    }

    /// The next packet goes onto the wire as the last; None where there is none to send, and while the sender is
    /// stopped.
    pub fn transmit(&mut self, wire: &mut ForwardWire) -> Result<Option<Seq12>, LaneRefusal>
        ensures number { IfOk result (λ number. number ≡ transmitted self.old) }
        ensures sender { OnOk result (self.new ≡ after_transmission self.old) }
        ensures wire { OnOk result (wire.new ≡ wire_after_transmit self.old wire.old) }
        ensures idle { transmitted self.old ≡ None → IsOk result }
        ensures memory { IfErr result (λ refusal. refusal ≡ LaneRefusal.Memory) }
        ensures err_sender { OnErr result (self.new ≡ self.old) }
        ensures err_wire { OnErr result (wire.new ≡ wire.old) }
    {
        let Some((number, kept)) = self.sender.next_packet() else {
            return Ok(None);
        };
        let cargo = kept.copied();
        if wire
            .packets
            .push_back(WirePacket { number, cargo })
            .is_err()
        {
            return Err(LaneRefusal::Memory);
        }
        self.sender.advance();
        Ok(Some(number))
    }

    /// A good DLLP takes effect.
    fn take_effect(&mut self, dllp: Dllp) -> Result<(), AckFault>
        requires { FitsDataFC dllp }
        ensures ok { IsOk result ↔ IsTrue (is_expected self.old.sending dllp) }
        ensures state { self.new ≡ after_dllp self.old dllp Good }
    {
        match dllp {
            Dllp::Ack(number) => {
                self.sender.ack(number)?;
            }
            Dllp::Nak(number) => {
                self.sender.nak(number)?;
            }
            Dllp::Update(class, header, units) => self.gate.limit(class, header, units),
        }
        Ok(())
    }

    /// Takes the oldest DLLP of the wire; None where the wire is empty. It takes effect where it is good: an Ack or Nak
    /// for the sender, an UpdateFC for the credits.
    pub fn deliver_dllp(
        &mut self,
        wire: &mut BackWire,
        fate: Fate,
    ) -> Result<Option<DllpSeen>, AckFault>
        ensures answer { result ≡ dllp_seen wire.old self.old fate }
        ensures in_range { (dllp : Dllp) → result ≡ Ok (Some (DllpSeen.Took dllp)) → FitsDataFC dllp }
        ensures sender { self.new ≡ sender_after wire.old self.old fate }
        ensures ok { OnOk result (wire.new ≡ all_but_first wire.old) }
        ensures err { OnErr result (wire.new ≡ wire.old) }
    {
        let Some(first) = wire.dllps.front() else {
            return Ok(None);
        };
        let dllp = *first;
        let seen = match fate {
            Fate::Good => {
                let good = dllp;
                self.take_effect(dllp)?;
                DllpSeen::Took(good)
            }
            Fate::Failed | Fate::Lost => DllpSeen::Gone,
        };
        wire.dllps.pop_front();
        Ok(Some(seen))
    }

    /// NEXT_TRANSMIT_SEQ, the number of the packet that is entered next.
    pub fn next_transmit_seq(&self) -> Seq12
        ensures { result ≡ next_number self.now.sending }
    {
        self.sender.next_transmit_seq()
    }

    /// The replay timer expired: the next packet to send is the oldest. Gives by how many places that moved back.
    pub fn timer(&mut self) -> usize
        ensures moved { result ≡ self.old.sending.place }
        ensures state { self.new ≡ after_timer self.old }
    {
        self.sender.timer()
    }

    /// The link was retrained: the sender is no longer stopped. Answers whether it was.
    pub fn retrained(&mut self) -> bool
        ensures answer { result ≡ self.old.sending.stopped }
        ensures state { self.new ≡ after_retraining self.old }
    {
        self.sender.retrained()
    }
}
