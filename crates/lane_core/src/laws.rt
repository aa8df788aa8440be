//! What holds of a lane whatever calls are made, said of the values of its four ends, wherever these are.
ghost use Rattle.std.specs.Prelude.{◌≡◌, ◌↔◌, ℕ, ◌+◌, ◌/◌, ◌%◌, ◌<◌, ◌≤◌, true, false, All, IsOk, IsTrue, Some, None, Ok, List, [], ◌++◌, length, slice_get};
ghost use Rattle.dllp_core.specs.declared.packet.Class.{Class};
ghost use Rattle.tlp_core.specs.TlpView.{TlpView, IsPacket};
ghost use Rattle.tlp_core.specs.Layout.{Spells, canonical};
ghost use Rattle.link_replay.specs.declared.receiver.Reception.TheVariants.{Accept};
ghost use Rattle.flow_control.specs.declared.needs.Need.{Need};
ghost use Rattle.flow_control.specs.declared.limits.LaneCredits.{LaneCredits};
ghost use Rattle.flow_control.specs.Limits.{IsInLimits};
ghost use Rattle.flow_control.specs.Needs.{need_of};
ghost use Rattle.flow_control.specs.Credits.{most, allowance, grant, first_of, gate_covers};
ghost use Rattle.flow_control.specs.Account.{demand, IsRight as IsBalanced};
ghost use Rattle.lane_core.specs.declared.packet.Fate.{Fate};
ghost use Rattle.lane_core.specs.declared.packet.WirePacket.{WirePacket};
ghost use Rattle.lane_core.specs.declared.packet.Arrival.TheVariants.{Answered};
ghost use Rattle.lane_core.specs.Content.{cargo_of, item_spelled, IsSpelled, wire_bytes};
ghost use Rattle.lane_core.specs.Steps.{LaneEndsView, new_lane, may_enter, transmitted, delivered, dllp_seen, IsStill};
ghost use Rattle.lane_core.specs.Calls.{Call, Transmit, Deliver, DeliverDllp, Timer, Retrained, IsCall, AreCalls, after_call, entered_by, accepted_by, after_calls, entered_in, accepted_in, taken_in, IsPrefixOf, on_the_way, content, content_after, IsRightWith, IsRight, AcceptsFirst};
ghost use Rattle.lane_core.specs.Windows.{next_entered, oldest_unacknowledged, next_accepted, deliveries};
ghost use Rattle.lane_core.specs.Credit.{needs_of, numbers_of, HasRoom};
ghost use Rattle.lane_core.specs.Flushed.{IsFlushed, IsEnough, turned};

use flow_control::{
    an_account_is_right, counters_stand_for_whole_numbers, each_event_keeps_the_account,
    limits_let_each_packet_go,
};
use tlp_core::laws::reading_is_spelling;

/// Each call keeps four ends right together, with their credits. `Enter` adds to the end of the content, `Take` removes
/// the packet of its place, every other call leaves it.
pub fn each_call_keeps_it_right()
    ensures new { (credits : LaneCredits) → IsInLimits credits → IsRightWith credits (new_lane credits) }
    ensures right { (credits : LaneCredits) (e : LaneEndsView) (call : Call) → IsCall call → IsRightWith credits e → IsRightWith credits (after_call e call) }
    ensures content { (e : LaneEndsView) (call : Call) → IsCall call → IsRight e → content (after_call e call) ≡ content_after e call }
    ensures on_the_way { (e : LaneEndsView) (call : Call) → IsCall call → IsRight e →
        on_the_way e ++ entered_by e call ≡ accepted_by e call ++ on_the_way (after_call e call) }
{
    reading_is_spelling();
}

/// Whatever calls come, what was accepted is a prefix of what was entered, packets with their marks; the rest is on
/// the way.
pub fn accepted_begins_entered()
    ensures begins { (credits : LaneCredits) (calls : List Call) → AreCalls calls →
        IsPrefixOf (accepted_in (new_lane credits) calls) (entered_in (new_lane credits) calls) }
    ensures rest { (credits : LaneCredits) (calls : List Call) → AreCalls calls →
        accepted_in (new_lane credits) calls ++ on_the_way (after_calls (new_lane credits) calls) ≡ entered_in (new_lane credits) calls }
{
    reading_is_spelling();
}

/// Only the first packet that is not yet accepted is accepted, and it then stands last in the queue.
pub fn only_the_first_is_accepted()
    ensures { (e : LaneEndsView) (fate : Fate) → IsRight e → delivered e.forward e.receiver fate ≡ Some (Answered Accept) →
        AcceptsFirst e (after_call e (Deliver fate)) }
{
    reading_is_spelling();
}

/// No Ack or Nak of a lane is a protocol error.
pub fn never_a_protocol_error()
    ensures { (e : LaneEndsView) (fate : Fate) → IsRight e → IsOk (dllp_seen e.back e.sender fate) }
{
    reading_is_spelling();
}

/// All that was entered was taken exactly where the queue is empty and the receiver waits for the number that the
/// sender gives next.
pub fn quiet_is_nothing_left()
    ensures { (e : LaneEndsView) → IsRight e → (content e ≡ []) ↔ IsStill e }
{
    reading_is_spelling();
}

/// What is entered is read back from its bytes; every packet under way is of bytes that spell a packet; and the bytes
/// on the wire tell the number and the packet's bytes, the four bits above the number being 0.
pub fn wire_bytes_tell_the_packet()
    ensures entered { (t : TlpView) (mark : ℕ) → Spells (canonical t) t → item_spelled (cargo_of t mark) ≡ Some (t, mark) }
    ensures under_way { (e : LaneEndsView) → IsRight e → All (λ p. IsSpelled p.cargo) e.forward }
    ensures number { (p q : WirePacket) → wire_bytes p ≡ wire_bytes q → p.number ≡ q.number }
    ensures bytes { (p q : WirePacket) → wire_bytes p ≡ wire_bytes q → p.cargo.bytes ≡ q.cargo.bytes }
    ensures zero_bits { (p : WirePacket) → p.number < 4096 → p.number / 256 < 16 }
{
    reading_is_spelling();
}

/// The canonical bytes of each packet that a lane holds, on its way or in its queue, spell that packet.
pub fn what_a_lane_holds_is_spelled()
    ensures { (e : LaneEndsView) (place mark : ℕ) (t : TlpView) → IsRight e → slice_get (content e) place ≡ Some (t, mark) → Spells (canonical t) t }
{
    reading_is_spelling();
}

/// Whatever calls come and however often the counters wrap, whole numbers stand behind those of a new lane. What was
/// used is what the entered packets need, what was given is the first value and what the taken packets need, and known
/// is the last given value that reached the gate. For each finite counter what was used is at most what is known, and
/// that at most what was given; what was given less what was used, with the units of the content, is the first value,
/// so the queue is within its credits; and unused credit is at most 127 header and 2047 data units.
pub fn credits_are_whole_numbers()
    ensures used { (credits : LaneCredits) (calls : List Call) (c : Class) (p : _) → AreCalls calls →
        (numbers_of credits calls c p).used ≡ demand c p (needs_of (entered_in (new_lane credits) calls)) }
    ensures given { (credits : LaneCredits) (calls : List Call) (c : Class) (p : _) → AreCalls calls →
        (numbers_of credits calls c p).given ≡ first_of c p credits + demand c p (needs_of (taken_in (new_lane credits) calls)) }
    ensures whole { (credits : LaneCredits) (calls : List Call) (c : Class) (p : _) → IsInLimits credits → AreCalls calls → 0 < first_of c p credits →
        IsBalanced p (first_of c p credits) (allowance c p (after_calls (new_lane credits) calls).sender.gate)
        (grant c p (after_calls (new_lane credits) calls).receiver.ledger)
        (numbers_of credits calls c p) (demand c p (needs_of (after_calls (new_lane credits) calls).receiver.queue))
        (demand c p (needs_of (on_the_way (after_calls (new_lane credits) calls)))) }
    ensures unused { (credits : LaneCredits) (calls : List Call) (c : Class) (p : _) → IsInLimits credits → AreCalls calls → 0 < first_of c p credits →
        (numbers_of credits calls c p).known ≤ (numbers_of credits calls c p).used + most p }
{
    reading_is_spelling();
    limits_let_each_packet_go();
    counters_stand_for_whole_numbers();
}

/// A packet is right whoever holds the ends meanwhile. Let some calls come and then others, of which at most as many
/// deliver as packets were under way between the two: a packet that was sent there is still under way. It was one of
/// the unacknowledged packets, A to N - 1 in true numbers, and has its own true number, modulo 4096. The true number that
/// the receiver waits for is from A to N.
pub fn found_within_the_window()
    ensures sent { (credits : LaneCredits) (before : List Call) (number : ℕ) → transmitted (after_calls (new_lane credits) before).sender ≡ Some number →
        (after_calls (new_lane credits) before).sender.sending.place < length (after_calls (new_lane credits) before).sender.sending.kept }
    ensures numbered { (credits : LaneCredits) (before : List Call) (number : ℕ) → AreCalls before →
        transmitted (after_calls (new_lane credits) before).sender ≡ Some number →
        number ≡ (oldest_unacknowledged credits before + (after_calls (new_lane credits) before).sender.sending.place) % 4096 }
    ensures found { (credits : LaneCredits) (before after : List Call) → AreCalls before →
        deliveries after ≤ length (after_calls (new_lane credits) before).forward →
        (oldest_unacknowledged credits before ≤ next_accepted credits (before ++ after)) ×
        (next_accepted credits (before ++ after) ≤ next_entered credits before) }
{
    reading_is_spelling();
}

/// A need within the limits is covered exactly where the room, known less used in whole numbers, is enough.
pub fn room_is_known_less_used()
    ensures { (credits : LaneCredits) (calls : List Call) (need : Need) → IsInLimits credits → AreCalls calls → need.header ≤ 127 → need.units ≤ 2047 →
        IsTrue (gate_covers (after_calls (new_lane credits) calls).sender.gate need) ↔ HasRoom credits (numbers_of credits calls) need }
{
    reading_is_spelling();
    limits_let_each_packet_go();
    counters_stand_for_whole_numbers();
}

/// A flushed lane that holds nothing takes any packet: its window is empty, and all credit is known and unused. If the
/// credits of a class are infinite, a flushed lane takes a packet of that class whatever it holds.
pub fn an_empty_flushed_lane_takes_any_packet()
    ensures empty { (credits : LaneCredits) (e : LaneEndsView) (t : TlpView) → IsRightWith credits e → IsFlushed e → content e ≡ [] → IsPacket t →
        may_enter e.sender (need_of t) ≡ true }
    ensures infinite { (credits : LaneCredits) (e : LaneEndsView) (t : TlpView) → IsRightWith credits e → IsFlushed e →
        ((p : _) → first_of (need_of t).class p credits ≡ 0) → IsPacket t → may_enter e.sender (need_of t) ≡ true }
{
    reading_is_spelling();
    limits_let_each_packet_go();
    counters_stand_for_whole_numbers();
    an_account_is_right();
}

/// A call that finds nothing to do leaves the lane as it is: nothing to send, an empty wire, a timer that expires with
/// the oldest packet next, and the retraining of a link that wasn't stopped.
pub fn an_idle_call_changes_nothing()
    ensures transmit { (e : LaneEndsView) → transmitted e.sender ≡ None → after_call e Transmit ≡ e }
    ensures deliver { (e : LaneEndsView) (fate : Fate) → delivered e.forward e.receiver fate ≡ None → after_call e (Deliver fate) ≡ e }
    ensures deliver_dllp { (e : LaneEndsView) (fate : Fate) → dllp_seen e.back e.sender fate ≡ Ok None → after_call e (DeliverDllp fate) ≡ e }
    ensures timer { (e : LaneEndsView) → e.sender.sending.place ≡ 0 → after_call e Timer ≡ e }
    ensures retrained { (e : LaneEndsView) → e.sender.sending.stopped ≡ false → after_call e Retrained ≡ e }
{}

/// One turn flushes a lane, whatever was lost, refused or stopped before, and whatever is stale on its wires. The replay
/// timer expires, and a link that was stopped is up again; the packets that are kept go, and all that is on the wire
/// arrives; an Ack or Nak and an UpdateFC of each class go, and all that is on that wire arrives. All that was entered
/// and not yet taken then stands in the queue.
pub fn a_turn_flushes_a_lane()
    ensures flushed { (credits : LaneCredits) (e : LaneEndsView) (n : ℕ) → IsRightWith credits e → IsEnough n e → IsFlushed (turned n e) }
    ensures right { (credits : LaneCredits) (e : LaneEndsView) (n : ℕ) → IsRightWith credits e → IsRightWith credits (turned n e) }
    ensures content { (e : LaneEndsView) (n : ℕ) → IsRight e → content (turned n e) ≡ content e }
    ensures queue { (e : LaneEndsView) (n : ℕ) → IsRight e → IsEnough n e → (turned n e).receiver.queue ≡ content e }
{
    reading_is_spelling();
    limits_let_each_packet_go();
    counters_stand_for_whole_numbers();
    each_event_keeps_the_account();
}
