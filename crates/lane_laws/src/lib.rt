//! What holds of the DLLPs that are under way on a lane.
#![tactic(auto)]

ghost use Rattle.std.specs.Prelude.{◌≡◌, All, Ok};
ghost use Rattle.dllp_core.specs.Faults.{reading};
ghost use Rattle.dllp_core.specs.Layout.{FitsFields, Spells, canonical};
ghost use Rattle.lane_core.specs.Calls.{IsRight};
ghost use Rattle.lane_core.specs.Steps.{LaneEndsView};

use dllp_core::canonical_is_read_back;

/// Each DLLP under way on a lane is what its bytes say: every number of it fits its field, the bytes that `encode`
/// returns spell it, and `decode` of these bytes returns it. So a lane loses nothing by sending values in place of
/// bytes.
pub fn dllps_under_way_are_what_their_bytes_say()
    ensures in_range { (e : LaneEndsView) → IsRight e → All FitsFields e.back }
    ensures spelled { (e : LaneEndsView) → IsRight e → All (λ d. Spells (canonical d) d) e.back }
    ensures read { (e : LaneEndsView) → IsRight e → All (λ d. reading (canonical d) ≡ Ok d) e.back }
{
    canonical_is_read_back();
}
