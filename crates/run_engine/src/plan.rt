//! The plan of a counting.
ghost use Rattle.std.specs.Prelude.{◌≡◌, IfOk, IfSome, map};
ghost use Rattle.parameters.specs.Ranges.{IsCounting};
ghost use Rattle.tlp_core.specs.Ops.{Op};
ghost use Rattle.run_engine.specs.Counting.{addition, script_of, scripts_of, config_of, IsPlanOf};

use fabric_core::Config;
use flow_control::LaneCredits;
use parameters::{Counting, MOST_WORKERS, Plan};
use std::alloc::{AllocError, Global};
use std::thread;
use std::thread::Threads;
use tlp_core::{Op, Width};
use workers::RunPlan;

/// Adds 1 to the first word.
fn addition() -> Op
    ensures { result ≡ addition }
{
    Op::FetchAdd {
        address: 0,
        width: Width::Four,
        operand: 1,
    }
}

/// The fabric.
pub(crate) fn config_of(requesters: u8) -> Config
    ensures { result ≡ config_of requesters }
{
    Config {
        requesters,
        base: 0,
        size: 4096,
        credits: LaneCredits::DEFAULT,
        block: 64,
    }
}

/// So many additions.
fn script_of(alloc: Global, each: u64) -> Result<Vec<Op>, AllocError>
    ensures { IfOk result (λ v. v.items ≡ script_of each) }
{
    let mut script = Vec::new(alloc);
    for _place in 0..each {
        script.push(addition())?;
    }
    Ok(script)
}

/// A script for each requester.
fn scripts_of(alloc: Global, requesters: u8, each: u64) -> Result<Vec<Vec<Op>>, AllocError>
    ensures { IfOk result (λ v. map (λ s. s.items) v.items ≡ scripts_of requesters each) }
{
    let mut scripts = Vec::new(alloc);
    for _place in 0..requesters {
        let script = script_of(alloc, each)?;
        scripts.push(script)?;
    }
    Ok(scripts)
}

/// How many threads share the workers of lanes, switch and completer: as many as are asked for, else twice the processors,
/// or 8 if their number is unknown.
pub(crate) fn threads_of<R: Threads>(rt: &R, counting: &Counting) -> u64
    ensures { IfSome counting.now.workers (λ n. result ≡ n) }
{
    if let Some(workers) = counting.workers {
        return workers;
    }
    match thread::available_parallelism(rt) {
        Ok(processors) => (processors.get() as u64)
            .saturating_mul(2)
            .min(MOST_WORKERS),
        Err(_) => 8,
    }
}

/// The plan of the run, with so many threads.
pub(crate) fn plan_of(
    alloc: Global,
    counting: &Counting,
    threads: u64,
) -> Result<RunPlan, AllocError>
    requires { IsCounting counting.now }
    ensures plan { IfOk result (IsPlanOf counting.now) }
    ensures threads { IfOk result (λ p. p.threads ≡ threads) }
{
    let requesters = counting.requesters as u8;
    let scripts = scripts_of(alloc, requesters, counting.each)?;
    Ok(RunPlan {
        config: config_of(requesters),
        scripts,
        plan: Plan {
            lose_every: counting.lose as u32,
            corrupt_every: counting.corrupt as u32,
        },
        turns: counting.turns,
        threads,
    })
}
