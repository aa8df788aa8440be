//! Seeds side by side in threads.
ghost use Rattle.std.specs.Prelude.{◌≡◌, ◌+◌, ◌^◌, ◌<◌, ◌≤◌, ℕ, Option, IfOk, IfSome, length, slice_index_or, vec_len};
ghost use Rattle.sweep_engine.specs.declared.piping.Said.{Said};
ghost use Rattle.sweep_engine.specs.Ranges.{IsSweep};
ghost use Rattle.sweep_engine.specs.Pipe.{IsSaid, AreFound};

use crate::options::Sweep;
use crate::piping::{Said, said_of};
use std::alloc::{AllocError, Global};
use std::thread;
use std::thread::Threads;

/// Seeds that threads do side by side.
#[derive(Clone, Copy)]
pub(crate) struct Batch<'a> {
    pub sweep: &'a Sweep,
    pub first: u64,
    pub count: usize,
    pub workers: usize,
}

/// Does the seed at a place of the batch.
fn find(alloc: Global, sweep: &Sweep, seed: u64, found: &mut Option<Said>)
    requires { IsSweep sweep.now }
    ensures { IfSome found.new (IsSaid sweep.now seed) }
{
    *found = said_of(alloc, sweep, seed);
}

/// Places for what is found.
fn places(alloc: Global, count: usize) -> Result<Vec<Option<Said>>, AllocError>
    ensures { IfOk result (λ v. vec_len v ≡ count) }
{
    let mut found = Vec::with_capacity(alloc, count)?;
    for _place in 0..count {
        found.push(None)?;
    }
    Ok(found)
}

/// Does a seed for each place, from the batch's first on.
fn fill<R: Threads + Sync>(rt: &R, alloc: Global, batch: Batch<'_>, found: &mut [Option<Said>])
    requires sweep { IsSweep batch.sweep.now }
    requires workers { 0 < batch.workers }
    requires fits { batch.first + length found.old ≤ 2 ^ 64 }
    ensures { (place : ℕ) (none : Option Said) → place < length found.old →
        IfSome (slice_index_or found.new place none) (IsSaid batch.entry.sweep.now (batch.entry.first + place)) }
{
    let Batch {
        sweep,
        first,
        workers,
        ..
    } = batch;
    thread::for_each_mut(
        rt,
        found,
        workers,
        &|place, one| find(alloc, sweep, first + place as u64, one),
    );
}

/// Does the seeds of the batch. There is none for a seed whose thread was out of memory.
pub(crate) fn found_in<R: Threads + Sync>(
    rt: &R,
    alloc: Global,
    batch: Batch<'_>,
) -> Result<Vec<Option<Said>>, AllocError>
    requires sweep { IsSweep batch.sweep.now }
    requires workers { 0 < batch.workers }
    requires fits { batch.first + batch.count ≤ 2 ^ 64 }
    ensures count { IfOk result (λ v. vec_len v ≡ batch.entry.count) }
    ensures found { IfOk result (λ v. AreFound batch.entry.sweep.now batch.entry.first v.items) }
{
    let mut found = places(alloc, batch.count)?;
    fill(rt, alloc, batch, found.as_mut_slice());
    Ok(found)
}
