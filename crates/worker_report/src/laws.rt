//! What holds of every run whose hall all seats close.
ghost use Rattle.std.specs.Prelude.{◌≡◌, ℕ, List, ◌++◌, length, slice_get, Some, None};
ghost use Rattle.history_words.specs.Records.{Record};
ghost use Rattle.history_words.specs.TraceView.{TraceView};
ghost use Rattle.history_words.specs.Claim.{claim_of};
ghost use Rattle.history_words.specs.Flaws.{first_flaw};
ghost use Rattle.history_words.specs.Trace.{Explains};
ghost use Rattle.fabric_steps.specs.Fabric.{Fabric};
ghost use Rattle.fabric_core.specs.declared.config.Config.{Config};
ghost use Rattle.hall_laws.specs.Rule.{HasConfig};
ghost use Rattle.hall_core.specs.Views.{SeatView, HallView, RanBy};
ghost use Rattle.worker_report.specs.Halts.{IsOfMemory};
ghost use Rattle.worker_report.specs.OneRun.{IsOfOneRun, AreOfSeats};

use fabric_steps::laws::the_trace_belongs;
use history_check::laws::explained_is_without_flaw;

/// If all seats of a hall close it, and the records of each requester are those of its seat's calls, these are the records
/// of one run of the fabric that the hall was made of.
pub fn what_seats_recorded_is_one_run()
    ensures { (h : HallView) (requesters work : List SeatView) (f : Fabric) (rs : List Record) → RanBy h (requesters ++ work) f → HasConfig f h.config →
        length requesters ≡ h.config.requesters → AreOfSeats rs 1 requesters → IsOfOneRun h.opened rs f }
{}

/// The history of the fabric explains the records of one run, in whatever order those of different requesters were taken:
/// the check of the trace finds no flaw. Each of them stands in the run's records, with the length that the history had.
pub fn the_records_of_one_run_are_explained()
    ensures explained { (opened f : Fabric) (rs : List Record) → IsOfOneRun opened rs f → Explains (record { memory = f.memory; records = rs }) }
    ensures flawless { (c : Config) (opened f : Fabric) (trace : TraceView) → IsOfOneRun opened trace.records f → HasConfig f c → IsOfMemory c trace →
        first_flaw (claim_of trace f.memory.entries) ≡ None }
    ensures stands { (opened f : Fabric) (rs : List Record) (run : IsOfOneRun opened rs f) (a : ℕ) (r : Record) → slice_get rs a ≡ Some r →
        (b : ℕ) × (slice_get run.told b ≡ Some r) }
{
    explained_is_without_flaw();
    the_trace_belongs();
}
