//! Why a run ends without a report.
ghost use Rattle.std.specs.Prelude.{◌≡◌};
ghost use Rattle.worker_report.specs.Halts.{halt_number, halt_name, halt_of};

use fabric_core::Refusal;
use hall_core::StillHeld;
use history_words::Flaw;
use worker_turns::Stop;

/// Why a run ended without a report. The first halt that a worker sets is the one that is answered.
#[derive(Clone, Copy, Debug, PartialEq)]
pub enum RunHalt {
    /// No fabric has that configuration, there is not one script for each requester, or a worker has no
    /// turns.
    Plan,
    /// A worker had used up its turns.
    Turns,
    /// The gate let a worker not pass.
    Gated,
    /// The check found this flaw. No run ends so.
    Flaw(Flaw),
    /// An allocation failed, or a thread could not be started.
    Memory,
    /// A part's word wasn't 0 when the hall was closed.
    Held(StillHeld),
    /// The core's answer to a worker that can't try again.
    Core(Refusal),
    /// A script wasn't submitted whole, or an operation that isn't posted has no answer. No run ends so.
    Missing,
}

impl RunHalt {
    /// The halt that tells why a worker ended the run.
    pub fn of(stop: Stop) -> RunHalt
        ensures { result ≡ halt_of stop }
    {
        match stop {
            Stop::Turns => RunHalt::Turns,
            Stop::Gated => RunHalt::Gated,
            Stop::Memory => RunHalt::Memory,
            Stop::Core(refusal) => RunHalt::Core(refusal),
        }
    }

    /// The number under which it is told, 1 to 8.
    pub fn number(self) -> u8
        ensures { result ≡ halt_number self }
    {
        match self {
            RunHalt::Plan => 1,
            RunHalt::Turns => 2,
            RunHalt::Gated => 3,
            RunHalt::Flaw(_) => 4,
            RunHalt::Memory => 5,
            RunHalt::Held(_) => 6,
            RunHalt::Core(_) => 7,
            RunHalt::Missing => 8,
        }
    }

    /// The name under which it is told.
    pub fn name(self) -> &'static str
        ensures { result.now ≡ halt_name self }
    {
        match self {
            RunHalt::Plan => "Plan",
            RunHalt::Turns => "Turns",
            RunHalt::Gated => "Gated",
            RunHalt::Flaw(_) => "Flaw",
            RunHalt::Memory => "Memory",
            RunHalt::Held(_) => "Held",
            RunHalt::Core(_) => "Core",
            RunHalt::Missing => "Missing",
        }
    }
}
