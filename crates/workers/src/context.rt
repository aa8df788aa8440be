//! What a run has before its threads begin.

use crate::jobs::Job;
use hall_core::{Hall, ReqSeat, WorkSeat};
use recorder::{Recorder, Taker};
use std::alloc::Global;
use worker_report::RunPlan;
use worker_turns::Shared;

/// What all threads of a run share.
#[derive(Drop)]
pub struct RunContext {
    pub alloc: Global,
    pub plan: RunPlan,
    /// The jobs of each thread beside those of the requesters.
    pub shares: Vec<Vec<Job>>,
    pub hall: Hall,
    pub recorder: Recorder,
    pub shared: Shared,
}

/// The seats of a run's hall, and the pass of its checker: each is given away once.
#[derive(Drop)]
pub struct Crew {
    pub seats: Vec<ReqSeat>,
    pub workers: Vec<WorkSeat>,
    pub taker: Taker,
}
