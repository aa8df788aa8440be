//! A whole fabric, driven by events. Worked rows of fabrics and halls are printed. A call that is out of memory is told by
//! the number of its refusal and made again, so that a run in which one allocation is refused prints what a whole run
//! prints, and one line `refused` besides.
//!
//! The tests are worked scripts step by step and in one call, the rounds in which full queues come to rest, and the example
//! of `docs/use-the-crates.md`.
#![tactic(auto)]

#[cfg(test)]
mod lost_ack;
#[cfg(test)]
mod runs;
#[cfg(test)]
mod settle;
#[cfg(test)]
mod steps;
#[cfg(test)]
mod trials;

use fabric_rows::halls::{add_and_meet, write_then_read};
use fabric_rows::memory::{ROWS, Refused, goes_so};
use std::io;

/// Tells how a row goes.
fn tell<R: Print>(rt: &R, name: &str, gone: (bool, Option<Refused>)) -> io::Result<()> {
    let (right, refused) = gone;
    if let Some(refused) = refused {
        print!(rt;
            "refused {} {} {}\n",
            refused.what, refused.number, refused.lane
        )?;
    }
    print!(rt; "{name}: {right}\n")
}

fn main(rt: HostRuntime) -> io::Result<()> {
    let alloc = rt.alloc();
    for row in &ROWS {
        tell(&rt, row.name, goes_so(row, alloc))?;
    }
    tell(&rt, "hall: write, then read", write_then_read(alloc))?;
    tell(&rt, "hall: add and meet", add_and_meet(alloc))
}
