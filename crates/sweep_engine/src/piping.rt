//! What the pipe of three programs says of a seed, done in memory.
ghost use Rattle.std.specs.Prelude.{◌≡◌, true, [], Some, IfOk, IfSome};
ghost use Rattle.parameters.specs.Ranges.{IsStorm};
ghost use Rattle.generate_engine.specs.Script.{IsWhole};
ghost use Rattle.step_engine.specs.Step.{out_step};
ghost use Rattle.trace_engine.specs.Check.{out_check_with};
ghost use Rattle.sweep_engine.specs.Ranges.{IsSweep};
ghost use Rattle.sweep_engine.specs.Pipe.{IsPiped, IsSaid, storm_of};

use crate::options::Sweep;
use generate_engine::run_generate;
use line_loop::EngineFault;
use parameters::Storm;
use std::alloc::Global;
use std::io::sink;
use step_engine::{StepOptions, run_step};
use trace_engine::run_check;

/// What is said of a seed.
#[derive(Drop)]
pub struct Said {
    pub seed: u64,
    /// The line of `check`.
    pub text: Vec<u8>,
    /// Whether each program of the pipe ends with status 0.
    pub is_ok: bool,
}

/// What a program wrote, and its exit status.
#[derive(Drop)]
struct Output {
    text: Vec<u8>,
    status: u8,
}

/// What `generate` writes of the storm.
fn script_of(alloc: Global, storm: &Storm) -> Result<Vec<u8>, EngineFault>
    requires { IsStorm storm.now }
    ensures { IfOk result (λ v. IsWhole storm.now (Some []) (Some v.items)) }
{
    let mut script = Vec::new(alloc);
    run_generate(alloc, storm, &mut script)?;
    Ok(script)
}

/// What `step --trace` writes of the script.
fn traced(alloc: Global, script: &[u8]) -> Result<Output, EngineFault>
    ensures text { IfOk result (λ o. o.text.items ≡ (out_step true script.now).text) }
    ensures status { IfOk result (λ o. o.status ≡ (out_step true script.now).status) }
{
    let mut text = Vec::new(alloc);
    let mut reader = script;
    let status = run_step(
        alloc,
        StepOptions::plain(true),
        &mut reader,
        &mut text,
        &mut sink(),
    )?;
    Ok(Output { text, status })
}

/// What `check` writes of the trace.
fn checked(alloc: Global, is_clocked: bool, trace: &[u8]) -> Result<Output, EngineFault>
    ensures text { IfOk result (λ o. o.text.items ≡ (out_check_with is_clocked trace.now).text) }
    ensures status { IfOk result (λ o. o.status ≡ (out_check_with is_clocked trace.now).status) }
{
    let mut text = Vec::new(alloc);
    let mut reader = trace;
    let status = run_check(alloc, is_clocked, &mut reader, &mut text, &mut sink())?;
    Ok(Output { text, status })
}

/// What the pipe says of the storm: the line of `check`, and whether each of the three ends with status 0.
fn piped(alloc: Global, is_clocked: bool, storm: &Storm) -> Result<(Vec<u8>, bool), EngineFault>
    requires { IsStorm storm.now }
    ensures { IfOk result (λ r. IsPiped is_clocked storm.now r.0.items r.1) }
{
    let script = script_of(alloc, storm)?;
    let trace = traced(alloc, script.as_slice())?;
    let answer = checked(alloc, is_clocked, trace.text.as_slice())?;
    Ok((answer.text, trace.status == 0 && answer.status == 0))
}

/// What is said of the seed; none if out of memory.
pub(crate) fn said_of(alloc: Global, sweep: &Sweep, seed: u64) -> Option<Said>
    requires { IsSweep sweep.now }
    ensures { IfSome result (IsSaid sweep.now seed) }
{
    let storm = Storm {
        seed,
        ..sweep.storm
    };
    match piped(alloc, sweep.is_clocked, &storm) {
        Ok((text, is_ok)) => Some(Said { seed, text, is_ok }),
        Err(_) => None,
    }
}
