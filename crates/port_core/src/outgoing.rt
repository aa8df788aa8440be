//! The sending end: the replay buffer, and the credits that the peer gave.
ghost use Rattle.std.specs.Prelude.{◌≡◌, ◌<◌, ◌↔◌, ℕ, length, nat_le, true, false, None, Some, is_some, IsOk, IsTrue, OnOk, OnErr, IfOk, IfErr};
ghost use Rattle.tlp_core.specs.Layout.{Spells, canonical};
ghost use Rattle.lane_core.specs.Content as lane;
ghost use Rattle.port_core.specs.Outgoing as spec;

use crate::fault::EnterRefusal;
use crate::needs::need_of_lent;
use arrayvec::ArrayVec;
use dllp_core::{Class, Dllp};
use flow_control::{CreditGate, LaneCredits, Need};
use link_replay::{AckFault, Cargo, SendRefusal, Sender};
use seq12::Seq12;
use std::alloc::Global;
use std::marker::Model;
use tlp_core::{MAX_TLP, TlpRef};

/// The most bytes of a packet that a port sends.
pub const PACKET_BYTES: usize = 146;

/// The unacknowledged packets, and the credits that the peer gave.
#[derive(Drop)]
pub struct OutgoingEnd {
    sender: Sender,
    gate: CreditGate,
}

impl Model for OutgoingEnd {
    ghost use Rattle.lane_core.specs.Steps.{SenderEndView};

    ghost Value = { SenderEndView };

    ghost view = { λ e. record { sending = e.sender; gate = e.gate } };
}

fn is_within(left: Option<u16>, most: u16) -> bool
    ensures none { left ≡ None → result ≡ true }
    ensures some { (n : ℕ) → left ≡ Some n → result ≡ nat_le n most }
{
    match left {
        None => true,
        Some(n) => n <= most,
    }
}

/// Whether an UpdateFC may be learned: no more than 127 headers and 2047 data units would be unused.
fn may_learn(gate: &CreditGate, class: Class, header: u8, units: u16) -> bool
    requires { units < 4096 }
    ensures { result ≡ spec.may_learn gate.now class header units }
{
    let mut tried = *gate;
    tried.limit(class, header, units);
    is_within(tried.headers_left(class), 127) && is_within(tried.data_left(class), 2047)
}

/// The packet's bytes.
fn cargo_of(tlp: &TlpRef<'_>) -> Cargo
    ensures value { result ≡ lane.cargo_of tlp.now 0 }
    ensures spelled { Spells (canonical tlp.now) tlp.now }
{
    let mut room = [0; MAX_TLP];
    let end = tlp_core::encode_lent(tlp, &mut room);
    let mut bytes = ArrayVec::new();
    let _fits = bytes.try_extend_from_slice(&room[..end]);
    Cargo { bytes, mark: 0 }
}

/// Fills `out` with a packet: the number's two bytes, high byte first, and those of the TLP.
fn put_packet(number: Seq12, cargo: &Cargo, out: &mut ArrayVec<u8, PACKET_BYTES>)
    ensures { out.new.items ≡ lane.wire_bytes (record { number = number; cargo = cargo.now }) }
{
    let number = number.value();
    out.clear();
    out.push((number / 256) as u8);
    out.push((number % 256) as u8);
    let _fits = out.try_extend_from_slice(cargo.bytes.as_slice());
}

impl OutgoingEnd {
    ghost use Rattle.dllp_core.specs.declared.packet.Dllp.TheVariants.{Update};
    ghost use Rattle.flow_control.specs.Needs.{need_of};
    ghost use Rattle.flow_control.specs.Credits.{gate_covers};
    ghost use Rattle.link_replay.specs.SenderView.{next_number, next_item};
    ghost use Rattle.lane_core.specs.Steps.{SenderEndView, entered, after_timer, after_retraining, after_transmission, after_dllp, is_expected};
    ghost use Rattle.lane_core.specs.declared.packet.Fate.TheVariants.{Good};

    /// Nothing was entered, and all credits are infinite. It allocates nothing.
    pub fn new(alloc: Global) -> OutgoingEnd
        ensures { result ≡ spec.new_outgoing }
    {
        OutgoingEnd {
            sender: Sender::new(alloc),
            gate: CreditGate::new(LaneCredits {
                ph: 0,
                pd: 0,
                nph: 0,
                npd: 0,
                cplh: 0,
                cpld: 0,
            }),
        }
    }

    /// The peer's credits are known, and nothing of them is used.
    pub fn begin(&mut self, credits: LaneCredits)
        ensures { self.new ≡ spec.begun self.old credits }
    {
        self.gate = CreditGate::new(credits);
    }

    /// Why a packet of this need can't be entered, unless for want of memory.
    pub fn refusal(&self, need: Need) -> Option<EnterRefusal>
        ensures value { result ≡ spec.refusal_on self.now need }
        ensures covered { result ≡ None → IsTrue (gate_covers self.now.gate need) }
        ensures in_window { result ≡ None → length self.now.sending.kept < 2047 }
    {
        if !self.gate.fits(need) {
            return Some(EnterRefusal::NoCredits(need.class));
        }
        if self.sender.is_full() {
            return Some(EnterRefusal::WindowFull);
        }
        None
    }

    /// Takes a packet as the last, under NEXT_TRANSMIT_SEQ.
    pub fn enter(&mut self, tlp: &TlpRef<'_>) -> Result<Seq12, EnterRefusal>
        ensures refused { IfErr result (λ r. spec.Refuses (spec.refusal_on self.old (need_of tlp.now)) r) }
        ensures may { OnOk result (spec.refusal_on self.old (need_of tlp.now) ≡ None) }
        ensures number { IfOk result (λ number. number ≡ next_number self.old.sending) }
        ensures ok { OnOk result (self.new ≡ entered self.old tlp.now 0) }
        ensures err { OnErr result (self.new ≡ self.old) }
    {
        let need = need_of_lent(tlp);
        if let Some(refusal) = self.refusal(need) {
            return Err(refusal);
        }
        match self.sender.accept(cargo_of(tlp)) {
            Ok(number) => {
                self.gate.consume(need);
                Ok(number)
            }
            Err(SendRefusal::WindowFull) => Err(EnterRefusal::WindowFull),
            Err(SendRefusal::Memory) => Err(EnterRefusal::Memory),
        }
    }

    /// Whether a packet is to be sent.
    pub fn can_transmit(&self) -> bool
        ensures { result ≡ is_some (next_item self.now.sending) }
    {
        self.sender.can_transmit()
    }

    /// Fills `out` with the next packet, and returns its number. None, and no bytes, if there is none to send.
    pub fn transmit(&mut self, out: &mut ArrayVec<u8, PACKET_BYTES>) -> Option<Seq12>
        ensures number { result ≡ spec.transmitted self.old }
        ensures bytes { out.new.items ≡ spec.packet_bytes self.old }
        ensures state { self.new ≡ after_transmission self.old }
    {
        let Some((number, cargo)) = self.sender.next_packet() else {
            out.clear();
            return None;
        };
        put_packet(number, cargo, out);
        self.sender.advance();
        Some(number)
    }

    /// An Ack or Nak.
    pub fn acknowledge(&mut self, number: Seq12, is_nak: bool) -> Result<(), AckFault>
        ensures ok { IsOk result ↔ IsTrue (is_expected self.old.sending (spec.ack_or_nak number is_nak)) }
        ensures state { self.new ≡ after_dllp self.old (spec.ack_or_nak number is_nak) Good }
    {
        if is_nak {
            self.sender.nak(number)?;
        } else {
            self.sender.ack(number)?;
        }
        Ok(())
    }

    /// An UpdateFC, unless it may not be learned. Returns whether it was.
    pub fn learn(&mut self, class: Class, header: u8, units: u16) -> bool
        requires { units < 4096 }
        ensures answer { result ≡ spec.may_learn self.old.gate class header units }
        ensures learned { result ≡ true → self.new ≡ after_dllp self.old (Update class header units) Good }
        ensures refused { result ≡ false → self.new ≡ self.old }
    {
        if !may_learn(&self.gate, class, header, units) {
            return false;
        }
        self.gate.limit(class, header, units);
        true
    }

    /// REPLAY_TIMER expired: the next packet to send is the oldest. Returns by how many places that moved back.
    pub fn timer(&mut self) -> usize
        ensures moved { result ≡ self.old.sending.place }
        ensures state { self.new ≡ after_timer self.old }
    {
        self.sender.timer()
    }

    /// The link was retrained: the sender is no longer stopped. Returns whether it was.
    pub fn retrained(&mut self) -> bool
        ensures answer { result ≡ self.old.sending.stopped }
        ensures state { self.new ≡ after_retraining self.old }
    {
        self.sender.retrained()
    }

    /// The unacknowledged packets, and which of them is sent next.
    pub fn sending(&self) -> &Sender
        ensures { result.now ≡ self.now.sending }
    {
        &self.sender
    }
}
