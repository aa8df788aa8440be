//! The four ends together.
ghost use Rattle.std.specs.Prelude.{◌≡◌, ◌+◌, ◌<◌, ◌≤◌, ◌↔◌, ◌⊎◌, List, [], ◌∷◌, ◌++◌, length, true, false, remove, slice_get, Some, IsTrue, IsOk, IsSome, IsNone, IfSome, OnOk, OnErr, IfOk, IfErr};

use crate::laws::{quiet_is_nothing_left, room_is_known_less_used};
use crate::{Arrival, DllpKind, DllpSeen, Fate, LaneEnds, LaneRefusal};
use dllp_core::Dllp;
use flow_control::{LaneCredits, Need, limits_let_each_packet_go};
use link_replay::{AckFault, Reception};
use seq12::Seq12;
use std::alloc::Global;
use std::marker::Model;
use tlp_core::Tlp;
use tlp_core::laws::reading_is_spelling;

/// One direction of a link: both ends and both wires, right through every loss and every wrap.
#[derive(Drop)]
pub struct Lane {
    ends: LaneEnds,
}

impl Model for Lane {
    ghost use Rattle.lane_core.specs.Steps.{LaneEndsView};
    ghost use Rattle.lane_core.specs.Calls.{IsRight};

    ghost Value = { LaneEndsView };

    ghost view = { λ l. l.ends };

    ghost invariant = { λ l. IsRight l.ends };
}

impl Lane {
    ghost use Rattle.dllp_core.specs.Layout.{FitsDataFC};
    ghost use Rattle.dllp_core.specs.declared.packet.Dllp.{Dllp};
    ghost use Rattle.link_replay.specs.SenderView.{next_number};
    ghost use Rattle.tlp_core.specs.Layout.{Spells, canonical};
    ghost use Rattle.flow_control.specs.Limits.{IsInLimits};
    ghost use Rattle.flow_control.specs.Needs.{need_of as need};
    ghost use Rattle.flow_control.specs.Credits.{gate_covers};
    ghost use Rattle.flow_control.specs.Queue.{is_takeable};
    ghost use Rattle.lane_core.specs.Refusals.{LacksRoom};
    ghost use Rattle.lane_core.specs.Steps.{new_lane, may_enter, transmitted, delivered, dllp_of, dllp_seen};
    ghost use Rattle.flow_control.specs.declared.limits.LaneCredits.{LaneCredits};
    ghost use Rattle.lane_core.specs.Calls.{Call, MakeRoom, Enter, Transmit, Deliver, SendDllp, DeliverDllp, Timer, Retrained, Take, AreCalls, after_calls, after_call, content, AcceptsFirst, IsRight};
    ghost use Rattle.lane_core.specs.Credit.{numbers_of, HasRoom};

    /// A lane whose receiver advertised these credits. It allocates nothing.
    pub fn new(credits: LaneCredits, alloc: Global) -> Lane
        requires { IsInLimits credits }
        ensures { result ≡ new_lane credits }
    {
        Lane {
            ends: LaneEnds::new(credits, alloc),
        }
    }

    /// Keeps room for one packet of this need: after Ok, the next `enter` of that need is accepted and takes no memory.
    pub fn make_room(&mut self, need: Need) -> Result<(), LaneRefusal>
        ensures no_credits { (result ≡ Err (LaneRefusal.NoCredits need.class)) ↔ (gate_covers self.old.sender.gate need ≡ false) }
        ensures no_room { need.header ≤ 127 → need.units ≤ 2047 → (credits : LaneCredits) (calls : List Call) → IsInLimits credits → AreCalls calls →
            after_calls (new_lane credits) calls ≡ self.old →
            (result ≡ Err (LaneRefusal.NoCredits need.class)) ↔ (¬ HasRoom credits (numbers_of credits calls) need) }
        ensures full { (result ≡ Err LaneRefusal.WindowFull) ↔ (IsTrue (gate_covers self.old.sender.gate need) × (2047 ≤ length self.old.sender.sending.kept)) }
        ensures errors { IfErr result (λ refusal. (refusal ≡ LaneRefusal.NoCredits need.class) ⊎ (refusal ≡ LaneRefusal.WindowFull) ⊎
            (refusal ≡ LaneRefusal.Memory)) }
        ensures refused { IfErr result (λ refusal. LacksRoom self.old.sender need refusal) }
        ensures may { OnOk result (may_enter self.old.sender need ≡ true) }
        ensures made { IsTrue self.old.sender.sending.reserved → IsTrue (gate_covers self.old.sender.gate need) →
            length self.old.sender.sending.kept < 2047 → IsOk result }
        ensures ok { OnOk result (self.new ≡ after_call self.old (MakeRoom need)) }
        ensures content { content self.new ≡ content self.old }
        ensures err { OnErr result (self.new ≡ self.old) }
    {
        room_is_known_less_used();
        let ends = &mut self.ends;
        ends.sender.make_room(need)
    }

    /// Takes a packet with its mark as the last, under the next sequence number.
    pub fn enter(&mut self, tlp: &Tlp, mark: u32) -> Result<Seq12, LaneRefusal>
        ensures no_credits { (result ≡ Err (LaneRefusal.NoCredits (need tlp.now).class)) ↔ (gate_covers self.old.sender.gate (need tlp.now) ≡ false) }
        ensures no_room { (credits : LaneCredits) (calls : List Call) → IsInLimits credits → AreCalls calls → after_calls (new_lane credits) calls ≡ self.old →
            (result ≡ Err (LaneRefusal.NoCredits (need tlp.now).class)) ↔ (¬ HasRoom credits (numbers_of credits calls) (need tlp.now)) }
        ensures full { (result ≡ Err LaneRefusal.WindowFull) ↔ (IsTrue (gate_covers self.old.sender.gate (need tlp.now)) ×
            (2047 ≤ length self.old.sender.sending.kept)) }
        ensures errors { IfErr result (λ refusal. (refusal ≡ LaneRefusal.NoCredits (need tlp.now).class) ⊎ (refusal ≡ LaneRefusal.WindowFull) ⊎
            (refusal ≡ LaneRefusal.Memory)) }
        ensures refused { IfErr result (λ refusal. LacksRoom self.old.sender (need tlp.now) refusal) }
        ensures may { OnOk result (may_enter self.old.sender (need tlp.now) ≡ true) }
        ensures room_was_made { IsTrue self.old.sender.sending.reserved → IsTrue (gate_covers self.old.sender.gate (need tlp.now)) →
            length self.old.sender.sending.kept < 2047 → IsOk result }
        ensures number { IfOk result (λ number. number ≡ next_number self.old.sender.sending) }
        ensures ok { OnOk result (self.new ≡ after_call self.old (Enter tlp.now mark)) }
        ensures spelled { OnOk result (Spells (canonical tlp.now) tlp.now) }
        ensures content { OnOk result (content self.new ≡ content self.old ++ (tlp.now, mark) ∷ []) }
        ensures err { OnErr result (self.new ≡ self.old) }
    {
        reading_is_spelling();
        limits_let_each_packet_go();
        room_is_known_less_used();
        let ends = &mut self.ends;
        ends.sender.enter(tlp, mark)
    }

    /// The next packet goes onto the forward wire as the last; None where there is none to send, and while the sender
    /// is stopped.
    pub fn transmit(&mut self) -> Result<Option<Seq12>, LaneRefusal>
        ensures number { IfOk result (λ number. number ≡ transmitted self.old.sender) }
        ensures idle { transmitted self.old.sender ≡ None → IsOk result }
        ensures ok { OnOk result (self.new ≡ after_call self.old Transmit) }
        ensures content { content self.new ≡ content self.old }
        ensures memory { IfErr result (λ refusal. refusal ≡ LaneRefusal.Memory) }
        ensures err { OnErr result (self.new ≡ self.old) }
    {
        let ends = &mut self.ends;
        ends.sender.transmit(&mut ends.forward)
    }

    /// Takes the oldest packet of the forward wire; None where the wire is empty. An accepted packet stands last in the
    /// queue.
    pub fn deliver(&mut self, fate: Fate) -> Result<Option<Arrival>, LaneRefusal>
        ensures answer { IfOk result (λ arrival. arrival ≡ delivered self.old.forward self.old.receiver fate) }
        ensures ok { OnOk result (self.new ≡ after_call self.old (Deliver fate)) }
        ensures accepts { result ≡ Ok (Some (Arrival.Answered Reception.Accept)) → AcceptsFirst self.old self.new }
        ensures grows { OnErr result (delivered self.old.forward self.old.receiver fate ≡ Some (Arrival.Answered Reception.Accept)) }
        ensures content { content self.new ≡ content self.old }
        ensures memory { IfErr result (λ refusal. refusal ≡ LaneRefusal.Memory) }
        ensures err { OnErr result (self.new ≡ self.old) }
    {
        reading_is_spelling();
        let ends = &mut self.ends;
        ends.receiver.deliver(&mut ends.forward, fate)
    }

    /// Puts the Ack or Nak that is due, or a class's UpdateFC, on the back wire as the last.
    pub fn send_dllp(&mut self, kind: DllpKind) -> Result<Dllp, LaneRefusal>
        ensures answer { IfOk result (λ dllp. dllp ≡ dllp_of self.old.receiver kind) }
        ensures in_range { IfOk result (λ dllp. FitsDataFC dllp) }
        ensures ok { OnOk result (self.new ≡ after_call self.old (SendDllp kind)) }
        ensures content { content self.new ≡ content self.old }
        ensures memory { IfErr result (λ refusal. refusal ≡ LaneRefusal.Memory) }
        ensures err { OnErr result (self.new ≡ self.old) }
    {
        let ends = &mut self.ends;
        ends.receiver.send_dllp(&mut ends.back, kind)
    }

    /// Takes the oldest DLLP of the back wire; None where the wire is empty. It takes effect where it is good. In a
    /// lane it is never a protocol error.
    pub fn deliver_dllp(&mut self, fate: Fate) -> Result<Option<DllpSeen>, AckFault>
        ensures never_fault { IsOk result }
        ensures answer { result ≡ dllp_seen self.old.back self.old.sender fate }
        ensures in_range { (dllp : Dllp) → result ≡ Ok (Some (DllpSeen.Took dllp)) → FitsDataFC dllp }
        ensures state { self.new ≡ after_call self.old (DeliverDllp fate) }
        ensures content { content self.new ≡ content self.old }
    {
        reading_is_spelling();
        let ends = &mut self.ends;
        ends.sender.deliver_dllp(&mut ends.back, fate)
    }

    /// The replay timer expired: the next packet to send is the oldest. Gives by how many places that moved back.
    pub fn timer(&mut self) -> usize
        ensures moved { result ≡ self.old.sender.sending.place }
        ensures state { self.new ≡ after_call self.old Timer }
        ensures content { content self.new ≡ content self.old }
    {
        let ends = &mut self.ends;
        ends.sender.timer()
    }

    /// The link was retrained: the sender is no longer stopped. Answers whether it was.
    pub fn retrained(&mut self) -> bool
        ensures answer { result ≡ self.old.sender.sending.stopped }
        ensures state { self.new ≡ after_call self.old Retrained }
        ensures content { content self.new ≡ content self.old }
    {
        let ends = &mut self.ends;
        ends.sender.retrained()
    }

    /// How many packets of the queue there are, which were accepted and not yet taken.
    pub fn queue_len(&self) -> usize
        ensures { result ≡ length self.now.receiver.queue }
    {
        self.ends.receiver.len()
    }

    /// Whether there is an accepted packet at this place that may pass every earlier one.
    pub fn takeable(&self, place: usize) -> bool
        ensures { result ≡ is_takeable self.now.receiver.queue place }
    {
        self.ends.receiver.takeable(place)
    }

    /// The accepted packet of a place and its mark if [`take`](Self::take) would take them, otherwise none.
    pub fn peek(&self, place: usize) -> Option<(&Tlp, u32)>
        ensures none { IsNone result ↔ (is_takeable self.now.receiver.queue place ≡ false) }
        ensures item { IfSome result (λ x. IsTrue (is_takeable self.now.receiver.queue place) ×
            (slice_get self.now.receiver.queue place ≡ Some (x.0.now, x.1))) }
    {
        self.ends.receiver.peek(place)
    }

    /// The accepted packet of a place and its mark, oldest first from 0; None past the end.
    pub fn at(&self, place: usize) -> Option<(&Tlp, u32)>
        ensures there { IsSome result ↔ (place < length self.now.receiver.queue) }
        ensures item { IfSome result (λ x. slice_get self.now.receiver.queue place ≡ Some (x.0.now, x.1)) }
    {
        self.ends.receiver.at(place)
    }

    /// Takes the accepted packet of a place, with its mark, and gives its credits back.
    pub fn take(&mut self, place: usize) -> (Tlp, u32)
        requires { IsTrue (is_takeable self.old.receiver.queue place) }
        ensures item { slice_get self.old.receiver.queue place ≡ Some result }
        ensures state { self.new ≡ after_call self.old (Take place) }
        ensures content { content self.new ≡ remove (content self.old) place }
    {
        let ends = &mut self.ends;
        ends.receiver.take(place)
    }

    /// Whether every packet that was entered was taken.
    pub fn quiet(&self) -> bool
        ensures quiet { IsTrue result ↔ (content self.now ≡ []) }
    {
        quiet_is_nothing_left();
        self.ends.quiet()
    }

    /// The four ends apart.
    pub fn into_ends(self) -> LaneEnds
        ensures ends { result ≡ self }
        ensures right { IsRight result }
    {
        self.ends
    }

    /// The four ends together, which are right together.
    pub fn of_ends(ends: LaneEnds) -> Lane
        requires { IsRight ends }
        ensures { result ≡ ends }
    {
        Lane { ends }
    }
}
