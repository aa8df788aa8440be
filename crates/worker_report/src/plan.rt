//! What a run is to do, and the fabric for it.
ghost use Rattle.std.specs.Prelude.{IfOk, IfErr};
ghost use Rattle.fabric_core.specs.Config.{IsNewWith};
ghost use Rattle.hall_core.specs.Opens.{IsUnused};
ghost use Rattle.worker_report.specs.Halts.{IsPlan, IsCause};

use crate::halt::RunHalt;
use fabric_core::{Config, ConfigFault, Fabric};
use parameters::Plan;
use std::alloc::Global;
use tlp_core::Op;

/// What a run is to do.
#[derive(Drop)]
pub struct RunPlan {
    /// The fabric of the run.
    pub config: Config,
    /// What each requester submits, in order, from requester 1 on.
    pub scripts: Vec<Vec<Op>>,
    /// What becomes of packets and DLLPs on their way.
    pub plan: Plan,
    /// How many calls of the hall and pushes of records a worker makes at most.
    pub turns: u64,
    /// How many threads the workers of lanes, switch and completer share at most. 0 stands for 1.
    pub threads: u64,
}

/// The fabric of a plan that can be run, to which nothing has happened. The halts are `Plan`, then `Memory`.
pub fn fabric_of(alloc: Global, plan: &RunPlan) -> Result<Fabric, RunHalt>
    ensures ok { IfOk result (λ f. IsPlan plan.now × IsNewWith plan.now.config f × IsUnused f) }
    ensures halt { IfErr result (λ h. IsCause plan.now h) }
{
    if plan.turns == 0 || plan.scripts.len() != usize::from(plan.config.requesters) {
        return Err(RunHalt::Plan);
    }
    match Fabric::new(plan.config, alloc) {
        Ok(fabric) => Ok(fabric),
        Err(ConfigFault::Memory) => Err(RunHalt::Memory),
        Err(_) => Err(RunHalt::Plan),
    }
}
