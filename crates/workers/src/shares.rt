//! Which jobs share a thread: those of a port's two lanes stay together, and so do those of no port; neighbours on
//! different threads take turns at each step of a packet.
ghost use Rattle.std.specs.Prelude.{◌≡◌, ◌<◌, ◌++◌, IfOk, OnOk, map};
ghost use Rattle.fabric_steps.specs.declared.event.LaneName.TheVariants.{Up, Down};
ghost use Rattle.workers.specs.Jobs.{lane_jobs, middle_jobs, jobs_of, AreShares, AreSingle};

use crate::jobs::Job;
use fabric_core::LaneName;
use std::alloc::{AllocError, Global};

/// The jobs of a lane join the others.
fn push_lane(jobs: &mut Vec<Job>, lane: LaneName) -> Result<(), AllocError>
    ensures { OnOk result (jobs.new.items ≡ jobs.old.items ++ lane_jobs lane) }
{
    jobs.push(Job::Sender(lane))?;
    jobs.push(Job::Receiver(lane))?;
    Ok(())
}

/// The jobs of a port join the others.
fn push_port(jobs: &mut Vec<Job>, port: u8) -> Result<(), AllocError>
    ensures { OnOk result (jobs.new.items ≡ jobs.old.items ++ (lane_jobs (Up port) ++ lane_jobs (Down port))) }
{
    push_lane(jobs, LaneName::Up(port))?;
    push_lane(jobs, LaneName::Down(port))
}

/// The jobs of no port join the others.
fn push_middle(jobs: &mut Vec<Job>) -> Result<(), AllocError>
    ensures { OnOk result (jobs.new.items ≡ jobs.old.items ++ middle_jobs) }
{
    push_lane(jobs, LaneName::Inward)?;
    push_lane(jobs, LaneName::Outward)?;
    jobs.push(Job::Switch)?;
    jobs.push(Job::Completer)?;
    Ok(())
}

/// All jobs.
fn all_jobs(alloc: Global, requesters: u8) -> Result<Vec<Job>, AllocError>
    requires { requesters < 8 }
    ensures { IfOk result (λ v. v.items ≡ jobs_of requesters) }
{
    let mut jobs = Vec::new(alloc);
    for i in 0..requesters {
        push_port(&mut jobs, i + 1)?;
    }
    push_middle(&mut jobs)?;
    Ok(jobs)
}

/// Each job alone.
fn single_shares(alloc: Global, jobs: &[Job]) -> Result<Vec<Vec<Job>>, AllocError>
    ensures { IfOk result (λ v. AreSingle jobs.now (map (λ s. s.items) v.items)) }
{
    let mut shares = Vec::with_capacity(alloc, jobs.len())?;
    for job in jobs {
        let mut share = Vec::with_capacity(alloc, 1)?;
        share.push(*job)?;
        shares.push(share)?;
    }
    Ok(shares)
}

/// The jobs port by port, those of no port last, shared evenly by so many threads, or by one for each port and one more
/// if that is fewer.
fn port_shares(alloc: Global, requesters: u8, threads: u64) -> Result<Vec<Vec<Job>>, AllocError>
    requires { requesters < 8 }
    ensures { IfOk result (λ v. AreShares requesters threads (map (λ s. s.items) v.items)) }
{
    let groups = u64::from(requesters) + 1;
    let step = threads.clamp(1, groups);
    let mut shares = Vec::new(alloc);
    let mut share = Vec::new(alloc);
    let mut filled = 0u64;
    for i in 0..requesters {
        push_port(&mut share, i + 1)?;
        filled += step;
        if filled >= groups {
            filled -= groups;
            shares.push(share)?;
            share = Vec::new(alloc);
        }
    }
    push_middle(&mut share)?;
    shares.push(share)?;
    Ok(shares)
}

/// The jobs of each of so many threads at most: one each if there are as many threads as jobs, else port by port.
pub(crate) fn shares_of(
    alloc: Global,
    requesters: u8,
    threads: u64,
) -> Result<Vec<Vec<Job>>, AllocError>
    requires { requesters < 8 }
    ensures { IfOk result (λ v. AreShares requesters threads (map (λ s. s.items) v.items)) }
{
    let jobs = all_jobs(alloc, requesters)?;
    if threads < jobs.len() as u64 {
        port_shares(alloc, requesters, threads)
    } else {
        single_shares(alloc, jobs.as_slice())
    }
}
