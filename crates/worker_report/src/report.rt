//! What a run did, and the check of it.
ghost use Rattle.std.specs.Prelude.{IfOk, IfErr, OnOk, ◌≡◌};
ghost use Rattle.history_words.specs.Flaws.{first_flaw};
ghost use Rattle.history_words.specs.Claim.{claim_of};
ghost use Rattle.history_words.specs.Trace.{Explains};
ghost use Rattle.hall_laws.specs.Rule.{HasConfig};
ghost use Rattle.worker_report.specs.Halts.{IsOfMemory, IsFlaw, IsEndBy};
ghost use Rattle.worker_report.specs.OneRun.{IsOfOneRun, IsGathered};

use crate::halt::RunHalt;
use crate::laws::{the_records_of_one_run_are_explained, what_seats_recorded_is_one_run};
use fabric_core::Fabric;
use hall_core::{Hall, ReqSeat, WorkSeat};
use history_check::check;
use history_words::{FlawKind, Record, Trace};
use std::alloc::Global;

/// What the threads of a run leave: all seats of its hall, and what the requesters recorded.
#[derive(Drop)]
pub struct Gathered {
    pub requesters: Vec<ReqSeat>,
    pub work: Vec<WorkSeat>,
    pub records: Vec<Record>,
}

/// What a run did.
#[derive(Drop)]
pub struct Report {
    /// What the requesters submitted and were answered.
    pub trace: Trace,
    /// What is left of the hall. Posted writes may still be on their way.
    pub fabric: Fabric,
}

/// Whether the history explains the trace, and else the halt that tells the flaw.
fn explained(alloc: Global, trace: &Trace, fabric: &Fabric) -> Result<(), RunHalt>
    ensures explained { OnOk result (Explains (claim_of trace.now fabric.now.memory.entries)) }
    ensures flaw { IfErr result (λ h. IsFlaw (first_flaw (claim_of trace.now fabric.now.memory.entries)) h) }
{
    match check(alloc, trace, fabric.history()) {
        Ok(()) => Ok(()),
        Err(flaw) if flaw.kind == FlawKind::Memory => Err(RunHalt::Memory),
        Err(flaw) => Err(RunHalt::Flaw(flaw)),
    }
}

/// The report of a run, whose hall all its seats close. The records are those of one run of the fabric that the hall was
/// made of, so the check finds no flaw. The halts are `Held`, then `Memory`.
pub fn report_of(alloc: Global, hall: Hall, gathered: Gathered) -> Result<Report, RunHalt>
    requires { IsGathered hall gathered }
    ensures ran { IfOk result (λ r. IsOfOneRun hall.opened r.trace.records r.fabric) }
    ensures checked { IfOk result (λ r. Explains (claim_of r.trace r.fabric.memory.entries)) }
    ensures records { IfOk result (λ r. r.trace.records ≡ gathered.records.items) }
    ensures memory { IfOk result (λ r. IsOfMemory hall.config r.trace) }
    ensures config { IfOk result (λ r. HasConfig r.fabric hall.config) }
    ensures halt { IfErr result (λ h. IsEndBy h) }
{
    what_seats_recorded_is_one_run();
    the_records_of_one_run_are_explained();
    let Gathered {
        requesters,
        work,
        records,
    } = gathered;
    let fabric = match hall.close_all(requesters, work) {
        Ok(fabric) => fabric,
        Err(held) => return Err(RunHalt::Held(held)),
    };
    let trace = fabric.trace_of(records);
    match explained(alloc, &trace, &fabric) {
        Ok(()) => Ok(Report { trace, fabric }),
        Err(halt) => Err(halt),
    }
}
