//! What happens in a settlement.
#![tactic(auto)]

ghost use Rattle.fabric_steps.specs.Fabric.{Fabric};
ghost use Rattle.fabric_steps.specs.Lists.{Each};
ghost use Rattle.fabric_core.specs.Answers.{Happens};
ghost use Rattle.fabric_core.specs.Kept.{IsSoundFabric, IsNoSubmission};
ghost use Rattle.fabric_settle.specs.Happenings.{Happening, Leads};
ghost use Rattle.fabric_settle.specs.Rounds.{settlement};

use fabric_core::laws::{each_event_keeps_it_sound, what_is_answered_happens};

/// What a settlement lists happens to a sound fabric, one event after the other, and leads to the fabric that it leaves;
/// and none of its events is a submission.
pub fn what_settles_happens()
    ensures happens { (f : Fabric) → IsSoundFabric f → Leads Happens f (settlement f).happened (settlement f).fabric }
    ensures nothing { (f : Fabric) → Each (λ (h : Happening). IsNoSubmission h.event) (settlement f).happened }
{
    each_event_keeps_it_sound();
    what_is_answered_happens();
}
