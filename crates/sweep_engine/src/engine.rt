//! A sweep from its first seed to its last line.
ghost use Rattle.std.specs.Prelude.{◌≡◌, ◌≢◌, ◌≤◌, ◌<◌, IfOk, IfErr, OnErr};
ghost use Rattle.sweep_engine.specs.Ranges.{IsSweep};
ghost use Rattle.sweep_engine.specs.Sweep.{IsWhole, IsPart};

use crate::options::Sweep;
use crate::sweeper::{Batches, Sweeper};
use line_loop::EngineFault;
use parameters::MOST_WORKERS;
use std::alloc::Global;
use std::io::Write;
use std::thread;
use std::thread::Threads;

/// How many events a thread does in a batch, if its seeds have few enough.
const BATCH_EVENTS: u64 = 100_000;

/// The most seeds that a thread does in a batch.
const MOST_SEEDS: u64 = 256;

/// How many threads do the seeds: as many as are asked for, else as many as there are processors, or one if their number is
/// unknown.
fn workers_of<R: Threads>(rt: &R, sweep: &Sweep) -> u64
    requires { IsSweep sweep.now }
    ensures { (0 < result) × (result ≤ 64) }
{
    if let Some(workers) = sweep.workers {
        return workers;
    }
    match thread::available_parallelism(rt) {
        Ok(processors) => (processors.get() as u64).clamp(1, MOST_WORKERS),
        Err(_) => 1,
    }
}

/// How many seeds of so many events a thread does in a batch.
fn seeds_of(events: u64) -> u64
    requires { events ≤ 1000000000 }
    ensures { (0 < result) × (result ≤ 256) }
{
    (BATCH_EVENTS / (events + 1)).clamp(1, MOST_SEEDS)
}

/// Does the storms of the seeds, each as the pipe `generate | step --trace | check` does it, and writes two lines for each
/// that fails, in the order of seeds: its seed with what `check` says, and the pipe. If it does not keep going, nothing is
/// told of seeds after the first that fails. The last line is `ok` and how many seeds were. `Ok` is the exit status, 1 if
/// a seed failed and else 0. After an `Err`, which is out of memory or the writer's, what was written is a prefix of
/// the output for some of the first seeds.
pub fn run_sweep<R: Threads + Sync, W: Write>(
    rt: &R,
    alloc: Global,
    sweep: &Sweep,
    writer: &mut W,
) -> Result<u8, EngineFault>
    requires { IsSweep sweep.now }
    ensures ok { IfOk result (IsWhole sweep.now (W.contents writer.old) (W.contents writer.new)) }
    ensures fault { IfErr result (λ f. f ≢ EngineFault.Read) }
    ensures part { OnErr result (IsPart sweep.now (W.contents writer.old) (W.contents writer.new)) }
{
    let workers = workers_of(rt, sweep);
    let batches = Batches {
        sweep,
        last: sweep.last,
        size: workers * seeds_of(sweep.storm.events),
        workers,
    };
    let mut sweeper = Sweeper::new(alloc);
    sweeper.put_all(rt, batches, writer)?;
    sweeper.end(writer)
}
