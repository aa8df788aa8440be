//! What holds of the hops that are left.
ghost use Rattle.std.specs.Prelude.{◌≡◌, ◌↔◌, ◌+◌, ◌≤◌, Ok, IsOk};
ghost use Rattle.fabric_steps.specs.Fabric.{Fabric};
ghost use Rattle.fabric_steps.specs.Event.{Event, Seen};
ghost use Rattle.fabric_core.specs.Answers.{answer};
ghost use Rattle.fabric_core.specs.Kept.{IsSoundFabric};
ghost use Rattle.fabric_core.specs.Quiet.{IsQuiet, HaveTags};
ghost use Rattle.fabric_settle.specs.Hops.{IsHop, IsOfLink, IsOldestHop, AreFlushed, hops_left};

use completer_core::laws::a_completion_is_spelled;
use fabric_core::laws::{
    each_event_happens_by_its_parts, the_credits_of_a_lane_are_accounted, what_is_answered_happens,
};
use fabric_steps::laws::{no_completion_is_strange, packets_keep_their_ports};
use flow_control::counters_stand_for_whole_numbers;
use lane_core::{
    an_empty_flushed_lane_takes_any_packet, each_call_keeps_it_right, what_a_lane_holds_is_spelled,
};

/// A fabric whose lanes are flushed isn't stuck before it is quiet: the oldest packet of some queue can go. Each hop
/// lowers the hops that are left by one, each call of a link leaves them, and there are none exactly where the fabric is
/// quiet.
pub fn a_flushed_fabric_is_not_stuck()
    ensures goes { (f : Fabric) → IsSoundFabric f → AreFlushed f → ¬ IsQuiet f → (event : Event) × IsOldestHop event × IsOk (answer f event) }
    ensures hop { (f f' : Fabric) (event : Event) (what : Seen) → IsSoundFabric f → IsHop event → answer f event ≡ Ok (what, f') →
        hops_left f' + 1 ≡ hops_left f }
    ensures link { (f f' : Fabric) (event : Event) (what : Seen) → IsSoundFabric f → IsOfLink event → answer f event ≡ Ok (what, f') →
        hops_left f' ≡ hops_left f }
    ensures none { (f : Fabric) → (hops_left f ≡ 0) ↔ IsQuiet f }
{
    a_completion_is_spelled();
    an_empty_flushed_lane_takes_any_packet();
    each_call_keeps_it_right();
    each_event_happens_by_its_parts();
    no_completion_is_strange();
    packets_keep_their_ports();
    what_a_lane_holds_is_spelled();
    what_is_answered_happens();
}

/// At most 7,888 hops are left in a sound fabric whose requesters have 256 tags. A lane with finite credits holds at most
/// 127 packets of a class, so the seven `up` lanes need at most 889 * 2 + 889 * 4 hops, `in` 127 + 127 * 3 and `out`
/// 127 * 2. A `down` lane holds at most one completion for each tag of its requester, so the seven need at most 7 * 256.
pub fn few_hops_are_left()
    ensures { (f : Fabric) → IsSoundFabric f → HaveTags f → hops_left f ≤ 7888 }
{
    counters_stand_for_whole_numbers();
    the_credits_of_a_lane_are_accounted();
}
