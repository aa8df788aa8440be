//! A run from its plan to its report.
ghost use Rattle.std.specs.Prelude.{◌≡◌, ◌+◌, ◌<◌, [], IfOk, IfErr, length, map};
ghost use Rattle.history_words.specs.Claim.{claim_of};
ghost use Rattle.history_words.specs.Trace.{Explains};
ghost use Rattle.hall_laws.specs.Rule.{HasConfig};
ghost use Rattle.worker_report.specs.Halts.{IsPlan, IsOfMemory, IsCause};
ghost use Rattle.worker_report.specs.OneRun.{IsGathered, IsRunOf};
ghost use Rattle.workers.specs.Jobs.{jobs_of};
ghost use Rattle.workers.specs.Running.{AreDone};
ghost use Rattle.worker_report.specs.declared.plan.RunPlan.{RunPlan};
ghost use Rattle.workers.specs.Begun.{IsRunBy};
ghost use Rattle.workers.specs.Crews.{IsCrewOf};

use crate::context::{Crew, RunContext};
use crate::shares::shares_of;
use crate::threads::drive;
use hall_core::Hall;
use recorder::Recorder;
use std::alloc::Global;
use std::sync::Wait;
use std::sync::atomic::AtomicU64;
use std::thread;
use std::thread::Threads;
use worker_report::{Gathered, Report, RunHalt, RunPlan, fabric_of, report_of};
use worker_turns::{Gate, Shared, Stop};

/// Runs all threads, each joined at the return.
fn run_threads<R: Threads + Wait + Sync, G: Gate + Sync>(
    rt: &R,
    run: &RunContext,
    gate: &G,
    answered: &AtomicU64,
    crew: Crew,
) -> Result<Gathered, Stop>
    requires crew { IsCrewOf run.now crew }
    ensures gathered { IfOk result (λ g. IsGathered run.now.hall g) }
    ensures done { IfOk result (λ g. AreDone g.records.items 1 (map (λ s. s.items) run.now.plan.scripts.items)) }
{
    thread::scope(
        thread::scope_env(),
        rt,
        |scope| -> Result<Gathered, Stop>
            requires { IsCrewOf run.now crew }
            ensures gathered { IfOk result (λ g. IsGathered run.entry.now.hall g) }
            ensures done { IfOk result (λ g. AreDone g.records.items 1 (map (λ s. s.items) run.entry.now.plan.scripts.items)) }
        { drive(scope, rt, run, gate, answered, crew) },
    )
}

/// How many workers there are beside the requesters.
fn workers_of(requesters: u8) -> usize
    ensures { result ≡ length (jobs_of requesters) }
{
    4 * usize::from(requesters) + 6
}

/// What a run of the plan begins with.
fn begun(alloc: Global, plan: RunPlan) -> Result<(RunContext, Crew), RunHalt>
    ensures begun { IfOk result (λ t. IsRunBy plan t.0) }
    ensures crew { IfOk result (λ t. IsCrewOf t.0 t.1) }
    ensures halt { IfErr result (λ h. IsCause plan h) }
{
    let fabric = fabric_of(alloc, &plan)?;
    let config = plan.config;
    let Ok(shares) = shares_of(alloc, config.requesters, plan.threads) else {
        return Err(RunHalt::Memory);
    };
    let Ok((hall, seats, workers)) = Hall::new(fabric, workers_of(config.requesters), alloc) else {
        return Err(RunHalt::Memory);
    };
    let Ok((recorder, taker)) = Recorder::new(alloc) else {
        return Err(RunHalt::Memory);
    };
    let run = RunContext {
        alloc,
        plan,
        shares,
        hall,
        recorder,
        shared: Shared::new(),
    };
    let crew = Crew {
        seats,
        workers,
        taker,
    };
    Ok((run, crew))
}

/// The report of what was gathered.
fn reported(alloc: Global, run: RunContext, gathered: Gathered) -> Result<Report, RunHalt>
    requires gathered { IsGathered run.hall gathered }
    requires done { AreDone gathered.records.items 1 (map (λ s. s.items) run.plan.scripts.items) }
    ensures ran { (p : RunPlan) → IsRunBy p run → IfOk result (λ r. IsRunOf p.config r.trace.records r.fabric) }
    ensures checked { IfOk result (λ r. Explains (claim_of r.trace r.fabric.memory.entries)) }
    ensures done { (p : RunPlan) → IsRunBy p run → IfOk result (λ r. AreDone r.trace.records 1 (map (λ s. s.items) p.scripts.items)) }
    ensures memory { (p : RunPlan) → IsRunBy p run → IfOk result (λ r. IsOfMemory p.config r.trace) }
    ensures config { (p : RunPlan) → IsRunBy p run → IfOk result (λ r. IsPlan p × HasConfig r.fabric p.config) }
    ensures halt { (p : RunPlan) → IsRunBy p run → IfErr result (λ h. IsCause p h) }
{
    report_of(alloc, run.hall, gathered)
}

/// The report of a run that has ended, or what ended it before all was done.
fn ended(
    alloc: Global,
    run: RunContext,
    gathered: Result<Gathered, Stop>,
) -> Result<Report, RunHalt>
    requires gathered { IfOk gathered (λ g. IsGathered run.hall g) }
    requires done { IfOk gathered (λ g. AreDone g.records.items 1 (map (λ s. s.items) run.plan.scripts.items)) }
    ensures ran { (p : RunPlan) → IsRunBy p run → IfOk result (λ r. IsRunOf p.config r.trace.records r.fabric) }
    ensures checked { IfOk result (λ r. Explains (claim_of r.trace r.fabric.memory.entries)) }
    ensures done { (p : RunPlan) → IsRunBy p run → IfOk result (λ r. AreDone r.trace.records 1 (map (λ s. s.items) p.scripts.items)) }
    ensures memory { (p : RunPlan) → IsRunBy p run → IfOk result (λ r. IsOfMemory p.config r.trace) }
    ensures config { (p : RunPlan) → IsRunBy p run → IfOk result (λ r. IsPlan p × HasConfig r.fabric p.config) }
    ensures halt { (p : RunPlan) → IsRunBy p run → IfErr result (λ h. IsCause p h) }
{
    if let Some(stop) = run.shared.stopped() {
        return Err(RunHalt::of(stop));
    }
    match gathered {
        Ok(gathered) => reported(alloc, run, gathered),
        Err(stop) => Err(RunHalt::of(stop)),
    }
}

/// Runs the plan, as [`run_workers`] does, and raises the counter by the answers, soon after each was given.
pub fn run_workers_counting<R: Threads + Wait + Sync, G: Gate + Sync>(
    rt: &R,
    alloc: Global,
    plan: RunPlan,
    gate: &G,
    answered: &AtomicU64,
) -> Result<Report, RunHalt>
    ensures ran { IfOk result (λ r. IsRunOf plan.config r.trace.records r.fabric) }
    ensures checked { IfOk result (λ r. Explains (claim_of r.trace r.fabric.memory.entries)) }
    ensures done { IfOk result (λ r. AreDone r.trace.records 1 (map (λ s. s.items) plan.scripts.items)) }
    ensures memory { IfOk result (λ r. IsOfMemory plan.config r.trace) }
    ensures config { IfOk result (λ r. IsPlan plan × HasConfig r.fabric plan.config) }
    ensures halt { IfErr result (λ h. IsCause plan h) }
{
    let (run, crew) = begun(alloc, plan)?;
    let gathered = run_threads(rt, &run, gate, answered, crew);
    ended(alloc, run, gathered)
}

/// Runs the plan. A report's records are those of one run of the plan's fabric: one list of calls of the hall leads to the
/// report's fabric, and has the records of each requester, each with the length that the history had. Its history explains
/// its trace, the submissions of each requester in the trace are its script, each operation that isn't posted is answered,
/// and no record is of anyone else. No halt is `Flaw` or `Missing`.
pub fn run_workers<R: Threads + Wait + Sync, G: Gate + Sync>(
    rt: &R,
    alloc: Global,
    plan: RunPlan,
    gate: &G,
) -> Result<Report, RunHalt>
    ensures ran { IfOk result (λ r. IsRunOf plan.config r.trace.records r.fabric) }
    ensures checked { IfOk result (λ r. Explains (claim_of r.trace r.fabric.memory.entries)) }
    ensures done { IfOk result (λ r. AreDone r.trace.records 1 (map (λ s. s.items) plan.scripts.items)) }
    ensures memory { IfOk result (λ r. IsOfMemory plan.config r.trace) }
    ensures config { IfOk result (λ r. IsPlan plan × HasConfig r.fabric plan.config) }
    ensures halt { IfErr result (λ h. IsCause plan h) }
{
    run_workers_counting(rt, alloc, plan, gate, &AtomicU64::new(0))
}
