//! Why a call is refused.
ghost use Rattle.std.specs.Prelude.{◌≡◌};
ghost use Rattle.hall_events.specs.Refusals.{RefusalsArePossible, hall_refusal_number, hall_refusal_name};

use fabric_core::Refusal;
use fabric_core::laws::every_refusal_is_possible;
use hall_laws::part::Part;
use thiserror::Error;

/// Why a call of the hall is refused. It has changed nothing then: no event happened, no part is held, and the seat
/// knows what it knew.
#[derive(Clone, Copy, Debug, PartialEq, Error)]
pub enum HallRefusal {
    /// The part, which the event uses, was found to have this word, which is neither 0 nor the caller's own: the seat with
    /// the number one less had the part.
    #[error("Busy")]
    Busy { part: Part, word: u64 },
    /// The fabric's refusal of the event.
    #[error("{0}")]
    Core(Refusal),
}

impl HallRefusal {
    /// The number under which it is told, 1 or 2.
    pub fn number(self) -> u8
        ensures { result ≡ hall_refusal_number self }
    {
        match self {
            HallRefusal::Busy { .. } => 1,
            HallRefusal::Core(_) => 2,
        }
    }

    /// The name under which it is told.
    pub fn name(self) -> &'static str
        ensures { result.now ≡ hall_refusal_name self }
    {
        match self {
            HallRefusal::Busy { .. } => "Busy",
            HallRefusal::Core(refusal) => refusal.name(),
        }
    }
}

/// Whatever refuses a call, it is neither `Protocol` nor `Strange` nor `Route`.
pub fn each_refusal_is_possible()
    ensures { RefusalsArePossible }
{
    every_refusal_is_possible();
}
