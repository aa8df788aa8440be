//! From one lane into another.
ghost use Rattle.std.specs.Prelude.{◌≡◌, ◌≤◌, ◌<◌, ◌++◌, ◌∷◌, [], ◌↔◌, false, IsTrue, OnOk, OnErr, Some, slice_get, remove, length};
ghost use Rattle.dllp_core.specs.declared.packet.Class.{Class};
ghost use Rattle.flow_control.specs.Needs.{need_of};
ghost use Rattle.flow_control.specs.Credits.{gate_covers};
ghost use Rattle.flow_control.specs.Queue.{Item, is_takeable};
ghost use Rattle.lane_core.specs.Calls.{content};
ghost use Rattle.lane_core.specs.Refusals.{LacksRoom};
ghost use Rattle.lane_core.specs.declared.packet.LaneRefusal.{LaneRefusal};
ghost use Rattle.switch_core.specs.Forwarding.{Forwards};

use crate::fault::ForwardRefusal;
use lane_core::{Lane, LaneRefusal, ReceiverEnd, SenderEnd};

/// Moves the packet of a place of one lane's queue, with its mark, into another lane, over the two
/// ends that this uses: `NotTakeable` where there is no packet or it may not pass an earlier one,
/// then the refusals of the second lane. After a refusal both are as before.
pub fn forward_ends(
    from: &mut ReceiverEnd,
    place: usize,
    to: &mut SenderEnd,
) -> Result<(), ForwardRefusal>
    ensures not_takeable { (result ≡ Err ForwardRefusal.NotTakeable) ↔ (is_takeable from.old.queue place ≡ false) }
    ensures no_credits { (item : Item) → slice_get from.old.queue place ≡ Some item → IsTrue (is_takeable from.old.queue place) →
        (result ≡ Err (ForwardRefusal.Lane (LaneRefusal.NoCredits (need_of item.0).class))) ↔ (gate_covers to.old.gate (need_of item.0) ≡ false) }
    ensures full { (item : Item) → slice_get from.old.queue place ≡ Some item → IsTrue (is_takeable from.old.queue place) →
        (result ≡ Err (ForwardRefusal.Lane LaneRefusal.WindowFull)) ↔ (IsTrue (gate_covers to.old.gate (need_of item.0)) ×
        (2047 ≤ length to.old.sending.kept)) }
    ensures class { (c : Class) → result ≡ Err (ForwardRefusal.Lane (LaneRefusal.NoCredits c)) →
        (item : Item) × (slice_get from.old.queue place ≡ Some item) × (c ≡ (need_of item.0).class) }
    ensures lacks { (refusal : LaneRefusal) → result ≡ Err (ForwardRefusal.Lane refusal) →
        (item : Item) × (slice_get from.old.queue place ≡ Some item) × (LacksRoom to.old (need_of item.0) refusal) }
    ensures ok { OnOk result (Forwards from.old from.new place to.old to.new) }
    ensures err_from { OnErr result (from.new ≡ from.old) }
    ensures err_to { OnErr result (to.new ≡ to.old) }
{
    let Some((tlp, mark)) = from.peek(place) else {
        return Err(ForwardRefusal::NotTakeable);
    };
    match to.enter(tlp, mark) {
        Ok(_) => {
            let (_, _) = from.take(place);
            Ok(())
        }
        Err(refusal) => Err(ForwardRefusal::Lane(refusal)),
    }
}

/// The same over two whole lanes.
pub fn forward(from: &mut Lane, place: usize, to: &mut Lane) -> Result<(), ForwardRefusal>
    ensures not_takeable { (result ≡ Err ForwardRefusal.NotTakeable) ↔ (is_takeable from.old.receiver.queue place ≡ false) }
    ensures no_credits { (item : Item) → slice_get from.old.receiver.queue place ≡ Some item → IsTrue (is_takeable from.old.receiver.queue place) →
        (result ≡ Err (ForwardRefusal.Lane (LaneRefusal.NoCredits (need_of item.0).class))) ↔ (gate_covers to.old.sender.gate (need_of item.0) ≡ false) }
    ensures full { (item : Item) → slice_get from.old.receiver.queue place ≡ Some item → IsTrue (is_takeable from.old.receiver.queue place) →
        (result ≡ Err (ForwardRefusal.Lane LaneRefusal.WindowFull)) ↔ (IsTrue (gate_covers to.old.sender.gate (need_of item.0)) ×
        (2047 ≤ length to.old.sender.sending.kept)) }
    ensures class { (c : Class) → result ≡ Err (ForwardRefusal.Lane (LaneRefusal.NoCredits c)) →
        (item : Item) × (slice_get from.old.receiver.queue place ≡ Some item) × (c ≡ (need_of item.0).class) }
    ensures lacks { (refusal : LaneRefusal) → result ≡ Err (ForwardRefusal.Lane refusal) →
        (item : Item) × (slice_get from.old.receiver.queue place ≡ Some item) × (LacksRoom to.old.sender (need_of item.0) refusal) }
    ensures ok { OnOk result (Forwards from.old.receiver from.new.receiver place to.old.sender to.new.sender) }
    ensures rest_from { from.new ≡ record from.old { receiver = from.new.receiver } }
    ensures rest_to { to.new ≡ record to.old { sender = to.new.sender } }
    ensures content { OnOk result ((item : Item) × (slice_get from.old.receiver.queue place ≡ Some item) × (content to.new ≡ content to.old ++ item ∷ []) ×
        (content from.new ≡ remove (content from.old) place)) }
    ensures err_from { OnErr result (from.new ≡ from.old) }
    ensures err_to { OnErr result (to.new ≡ to.old) }
{
    let Some((packet, mark)) = from.peek(place) else {
        return Err(ForwardRefusal::NotTakeable);
    };
    match to.enter(packet, mark) {
        Ok(_) => {
            let (_, _) = from.take(place);
            Ok(())
        }
        Err(refusal) => Err(ForwardRefusal::Lane(refusal)),
    }
}
