//! What the rounds lead to.
ghost use Rattle.std.specs.Prelude.{◌+◌, [], false};
ghost use Rattle.fabric_steps.specs.Fabric.{Fabric};
ghost use Rattle.fabric_core.specs.Kept.{IsSoundFabric};
ghost use Rattle.fabric_core.specs.Quiet.{IsQuiet, AreShort, HaveTags};
ghost use Rattle.fabric_settle.specs.Hops.{AreFlushed, hops_left};
ghost use Rattle.fabric_settle.specs.Rounds.{at, settlement};
ghost use Rattle.fabric_settle.specs.Rest.{EndsWithin, Reaches};

use crate::hops_laws::{a_flushed_fabric_is_not_stuck, few_hops_are_left};
use fabric_core::laws::{
    each_event_happens_by_its_parts, each_event_keeps_it_sound, what_is_answered_happens,
};
use lane_core::{a_turn_flushes_a_lane, each_call_keeps_it_right, never_a_protocol_error};

/// A sound fabric comes to rest: the rounds end quiet, and before the last one, which moves nothing, there are at most as
/// many as hops were left, and one. Its wires are short and its requesters have 256 tags, as those of every
/// [`Fabric`](fabric_core::Fabric) are (`short`, `tags`).
pub fn every_fabric_comes_to_rest()
    ensures quiet { (f : Fabric) → IsSoundFabric f → AreShort f → HaveTags f → IsQuiet (settlement f).fabric }
    ensures soon { (f : Fabric) → IsSoundFabric f → AreShort f → HaveTags f → EndsWithin (hops_left f + 1) (at f [] false) (settlement f) }
    ensures flushed { (f : Fabric) → IsSoundFabric f → AreShort f → HaveTags f → AreFlushed (settlement f).fabric }
    ensures reached { (f : Fabric) → IsSoundFabric f → AreShort f → Reaches f (settlement f).fabric }
{
    a_flushed_fabric_is_not_stuck();
    a_turn_flushes_a_lane();
    each_call_keeps_it_right();
    each_event_happens_by_its_parts();
    each_event_keeps_it_sound();
    few_hops_are_left();
    never_a_protocol_error();
    what_is_answered_happens();
}
