//! Which refusals a requester tries again.
ghost use Rattle.std.specs.Prelude.{◌≡◌};
ghost use Rattle.worker_requester.specs.Refused.{stop_by};

use fabric_core::Refusal;
use hall_core::HallRefusal;
use lane_core::LaneRefusal;
use requester_core::SubmitRefusal;
use worker_turns::Stop;

/// Why the refusal of a call ends the run. None where the requester tries again, since what the call lacked comes back:
/// a part, a tag, credits, or room in the window.
pub fn stop_of(refusal: HallRefusal) -> Option<Stop>
    ensures { result ≡ stop_by refusal }
{
    match refusal {
        HallRefusal::Busy { .. } => None,
        HallRefusal::Core(Refusal::Submit(SubmitRefusal::TagsUsed)) => None,
        HallRefusal::Core(Refusal::Lane(LaneRefusal::NoCredits(_))) => None,
        HallRefusal::Core(Refusal::Lane(LaneRefusal::WindowFull)) => None,
        HallRefusal::Core(Refusal::Lane(LaneRefusal::Memory)) => Some(Stop::Memory),
        HallRefusal::Core(Refusal::Memory) => Some(Stop::Memory),
        HallRefusal::Core(refusal) => Some(Stop::Core(refusal)),
    }
}
