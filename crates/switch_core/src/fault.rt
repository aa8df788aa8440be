//! Why a packet stays where it is.
ghost use Rattle.std.specs.Prelude.{◌≡◌};
ghost use Rattle.switch_core.specs.Faults.{refusal_number, refusal_name};

use lane_core::LaneRefusal;
use thiserror::Error;

/// Why a packet isn't forwarded, in the order of the tests.
#[derive(Clone, Copy, Debug, PartialEq, Error)]
pub enum ForwardRefusal {
    /// There is no packet at the place, or it may not pass an earlier one.
    #[error("NotTakeable")]
    NotTakeable,
    /// The lane that it goes to refuses it.
    #[error("{0}")]
    Lane(LaneRefusal),
}

impl ForwardRefusal {
    /// The place of this refusal in the order of the tests, from 1.
    pub fn number(self) -> u8
        ensures { result ≡ refusal_number self }
    {
        match self {
            ForwardRefusal::NotTakeable => 1,
            ForwardRefusal::Lane(_) => 2,
        }
    }

    /// The name under which it is told.
    pub fn name(self) -> &'static str
        ensures { result.now ≡ refusal_name self }
    {
        match self {
            ForwardRefusal::NotTakeable => "NotTakeable",
            ForwardRefusal::Lane(refusal) => refusal.name(),
        }
    }
}
