//! The threads of a run: one for each requester, and one for each share of the other jobs. Each is joined at its end.
ghost use Rattle.std.specs.Prelude.{◌≡◌, ◌+◌, ◌-◌, ◌<◌, ◌≤◌, [], ◌++◌, suc, IfOk, OnOk, IfNone, vec_len, length, map};
ghost use Rattle.recorder.specs.Rule.{unbegun, IsWhole};
ghost use Rattle.hall_core.specs.Views.{IsSeatOf};
ghost use Rattle.worker_requester.specs.Following.{IsUnusedSeat, Follows, Finishes};
ghost use Rattle.workers.specs.Jobs.{jobs_of, AreShares};
ghost use Rattle.worker_report.specs.OneRun.{IsGathered};
ghost use Rattle.workers.specs.Running.{AreUnusedSeats, AreSeats, AreHandles, AreFinished, AreRecorded, AreDone, AreWorkSeats, AreOfHall};
ghost use Rattle.workers.specs.Tasks.{AreTasks, AreWorkersOf, kept_of};
ghost use Rattle.workers.specs.Crews.{IsCrewOf};

use crate::context::{Crew, RunContext};
use crate::jobs::{Job, Worker};
use crate::tasks::{Task, work};
use hall_core::{Hall, ReqSeat, WorkSeat};
use history_words::Record;
use recorder::{Pusher, Recorder, Taker};
use std::alloc::{AllocError, Global};
use std::sync::Wait;
use std::sync::atomic::{AtomicU64, Ordering};
use std::thread::{Promise, PromisedHandle, Scope, Threads};
use tlp_core::Op;
use worker_report::Gathered;
use worker_requester::{Ended, Requester};
use worker_turns::{Backoff, Gate, Shared, Stop, Turns};

/// What a requester's thread keeps.
#[derive(Clone, Copy)]
pub struct Keeps<'a> {
    hall: &'a Hall,
    recorder: &'a Recorder,
    script: &'a [Op],
    requester: u8,
}

impl<'a> Promise<Ended> for Keeps<'a> {
    ghost use Rattle.worker_requester.specs.Following.{Finishes};
    ghost use Rattle.std.specs.Prelude.{◌≡◌, suc, IfNone};

    ghost kept_by = { λ p r. IsSeatOf p.hall.now r.seat × (suc r.seat.knows.number ≡ p.requester) × (r.pusher.queue ≡ p.recorder.now) ×
        (r.pusher.pushed.requester ≡ p.requester) × IfNone r.stop (Finishes p.script.now r.pusher.pushed × (r.pusher.pushed.records ≡ r.seat.knows.records)) };
}

/// What a requester's thread does.
fn one<G: Gate>(
    requester: Requester<'_>,
    mut turns: Turns<'_, G>,
    shared: &Shared,
    requesters: u8,
) -> Ended
    requires { Follows requester }
    ensures seat { IsSeatOf requester.entry.hall.now result.seat × (suc result.seat.knows.number ≡ requester.entry.number) }
    ensures pusher { (result.pusher.queue ≡ requester.entry.recorder.now) × (result.pusher.pushed.requester ≡ requester.entry.number) }
    ensures whole { IfNone result.stop (Finishes requester.entry.script.now result.pusher.pushed) }
    ensures recorded { IfNone result.stop (result.pusher.pushed.records ≡ result.seat.knows.records) }
{
    let ended = requester.run(&mut turns);
    shared.end_one(requesters);
    ended
}

/// Starts a requester's thread.
fn start<'s, E, G: Gate + Sync>(
    scope: &Scope<'s, E>,
    run: &'s RunContext,
    gate: &'s G,
    keeps: Keeps<'s>,
    seat: ReqSeat,
    pusher: Pusher,
) -> Result<PromisedHandle<Ended, Keeps<'s>>, AllocError>
    requires seat { IsUnusedSeat keeps.hall.now keeps.requester seat }
    requires pusher { (pusher.queue ≡ keeps.recorder.now) × (pusher.pushed.requester ≡ keeps.requester) × (pusher.pushed.records ≡ []) }
    ensures { IfOk result (λ h. (h.promise.hall.now ≡ keeps.entry.hall.now) × (h.promise.recorder.now ≡ keeps.entry.recorder.now) ×
        (h.promise.script.now ≡ keeps.entry.script.now) × (h.promise.requester ≡ keeps.entry.requester)) }
{
    let Keeps {
        hall,
        recorder,
        script,
        requester,
    } = keeps;
    let shared = &run.shared;
    let (limit, requesters) = (run.plan.turns, run.plan.config.requesters);
    let handle = scope.spawn_with(keeps, move || {
        one(
            Requester::new(hall, recorder, script, requester, seat, pusher),
            Turns::new(u32::from(requester), limit, gate, shared),
            shared,
            requesters,
        )
    })?;
    Ok(handle)
}

/// Starts the requesters' threads.
fn start_all<'s, E, G: Gate + Sync>(
    scope: &Scope<'s, E>,
    run: &'s RunContext,
    gate: &'s G,
    mut seats: Vec<ReqSeat>,
    taker: &mut Taker,
) -> Result<Vec<PromisedHandle<Ended, Keeps<'s>>>, AllocError>
    requires seats { (vec_len seats ≡ length run.now.plan.scripts.items) × (length run.now.plan.scripts.items < 8) × AreUnusedSeats run.now.hall 1 seats.items }
    requires taker { (taker.old.queue ≡ run.now.recorder) × (taker.old.taken.known ≡ unbegun 7 1) }
    ensures taker { taker.new.queue ≡ taker.old.queue }
    ensures records { taker.new.taken.records ≡ taker.old.taken.records }
    ensures known { OnOk result (taker.new.taken.known ≡ unbegun (7 - length run.now.plan.scripts.items) (length run.now.plan.scripts.items + 1)) }
    ensures handles { IfOk result (λ v. AreHandles run.now.hall run.now.recorder 1 (map (λ s. s.items) run.now.plan.scripts.items) v.items) }
{
    let mut handles = Vec::with_capacity(run.alloc, run.plan.scripts.len())?;
    let mut number = 0u8;
    for script in &run.plan.scripts {
        number += 1;
        let keeps = Keeps {
            hall: &run.hall,
            recorder: &run.recorder,
            script: script.as_slice(),
            requester: number,
        };
        let seat = seats.remove(0);
        let pusher = run.recorder.begin(taker, number);
        let handle = start(scope, run, gate, keeps, seat, pusher)?;
        handles.push(handle)?;
    }
    Ok(handles)
}

/// The jobs of a thread that is started, and the hall of its workers.
#[derive(Clone, Copy)]
pub struct Share<'a> {
    hall: &'a Hall,
    jobs: &'a [Job],
}

impl<'a, G> Promise<Vec<Task<'a, G>>> for Share<'a> {
    ghost use Rattle.workers.specs.Tasks.{AreTasks};

    ghost kept_by = { λ p r. AreTasks p.hall.now p.jobs.now r.items };
}

/// The threads of the shares, which end with their workers.
type Others<'s, G> = Vec<PromisedHandle<Vec<Task<'s, G>>, Share<'s>>>;

/// The job as a task, with the seat.
fn task_of<'s, G: Gate>(run: &'s RunContext, gate: &'s G, job: Job, seat: WorkSeat) -> Task<'s, G>
    requires { IsSeatOf run.now.hall seat }
    ensures { (result.job ≡ job) × (result.hall ≡ run.now.hall) }
{
    let worker = Worker::new(&run.hall, seat, run.plan.plan, run.plan.config.requesters);
    let turns = Turns::new(job.number(), run.plan.turns, gate, &run.shared);
    Task::new(worker, job, turns)
}

/// The jobs as tasks, each with a seat of its own.
fn tasks_of<'s, G: Gate>(
    run: &'s RunContext,
    gate: &'s G,
    jobs: &[Job],
    seats: &mut Vec<WorkSeat>,
) -> Result<Vec<Task<'s, G>>, AllocError>
    requires { AreWorkSeats run.now.hall seats.old.items × (length jobs.now ≤ vec_len seats.old) }
    ensures tasks { IfOk result (λ v. AreTasks run.now.hall jobs.now v.items) }
    ensures seats { OnOk result (AreWorkSeats run.now.hall seats.new.items × (vec_len seats.new + length jobs.now ≡ vec_len seats.old)) }
{
    let mut tasks = Vec::with_capacity(run.alloc, jobs.len())?;
    for job in jobs {
        let seat = seats.pop().unwrap();
        tasks.push(task_of(run, gate, *job, seat))?;
    }
    Ok(tasks)
}

/// What the thread of a share does.
fn one_work<'s, G: Gate>(mut tasks: Vec<Task<'s, G>>) -> Vec<Task<'s, G>>
    ensures { map kept_of result.items ≡ map kept_of tasks.entry.items }
{
    work(tasks.as_mut_slice());
    tasks
}

/// Starts the thread of a share.
fn start_work<'s, E, G: Gate + Sync>(
    scope: &Scope<'s, E>,
    share: Share<'s>,
    tasks: Vec<Task<'s, G>>,
) -> Result<PromisedHandle<Vec<Task<'s, G>>, Share<'s>>, AllocError>
    requires { AreTasks share.hall.now share.jobs.now tasks.items }
    ensures { IfOk result (λ h. h.promise ≡ share.entry) }
{
    let handle = scope.spawn_with(share, move || one_work(tasks))?;
    Ok(handle)
}

/// Starts the threads of all jobs, one for each share.
fn start_others<'s, E, G: Gate + Sync>(
    scope: &Scope<'s, E>,
    run: &'s RunContext,
    gate: &'s G,
    mut seats: Vec<WorkSeat>,
) -> Result<Others<'s, G>, AllocError>
    requires shares { AreShares run.now.plan.config.requesters run.now.plan.threads (map (λ s. s.items) run.now.shares.items) }
    requires seats { (vec_len seats ≡ length (jobs_of run.now.plan.config.requesters)) × AreWorkSeats run.now.hall seats.items }
    ensures shares { IfOk result (λ v. AreShares run.now.plan.config.requesters run.now.plan.threads (map (λ h. h.promise.jobs.now) v.items)) }
    ensures hall { IfOk result (λ v. AreOfHall run.now.hall v.items) }
{
    let mut handles = Vec::with_capacity(run.alloc, run.shares.len())?;
    for jobs in &run.shares {
        let share = Share {
            hall: &run.hall,
            jobs: jobs.as_slice(),
        };
        let tasks = tasks_of(run, gate, share.jobs, &mut seats)?;
        let handle = start_work(scope, share, tasks)?;
        handles.push(handle)?;
    }
    Ok(handles)
}

/// Starts all threads: those of the requesters, and the others.
fn start_crew<'s, E, G: Gate + Sync>(
    scope: &Scope<'s, E>,
    run: &'s RunContext,
    gate: &'s G,
    seats: Vec<ReqSeat>,
    workers: Vec<WorkSeat>,
    taker: &mut Taker,
) -> Result<(Vec<PromisedHandle<Ended, Keeps<'s>>>, Others<'s, G>), AllocError>
    requires shares { AreShares run.now.plan.config.requesters run.now.plan.threads (map (λ s. s.items) run.now.shares.items) }
    requires seats { (vec_len seats ≡ length run.now.plan.scripts.items) × (length run.now.plan.scripts.items < 8) × AreUnusedSeats run.now.hall 1 seats.items }
    requires workers { (vec_len workers ≡ length (jobs_of run.now.plan.config.requesters)) × AreWorkSeats run.now.hall workers.items }
    requires taker { (taker.old.queue ≡ run.now.recorder) × (taker.old.taken.known ≡ unbegun 7 1) }
    ensures taker { taker.new.queue ≡ taker.old.queue }
    ensures records { taker.new.taken.records ≡ taker.old.taken.records }
    ensures known { OnOk result (taker.new.taken.known ≡ unbegun (7 - length run.now.plan.scripts.items) (length run.now.plan.scripts.items + 1)) }
    ensures handles { IfOk result (λ r. AreHandles run.now.hall run.now.recorder 1 (map (λ s. s.items) run.now.plan.scripts.items) r.0.items) }
    ensures others { IfOk result (λ r. AreShares run.now.plan.config.requesters run.now.plan.threads (map (λ h. h.promise.jobs.now) r.1.items) ×
        AreOfHall run.now.hall r.1.items) }
{
    let others = start_others(scope, run, gate, workers)?;
    let handles = start_all(scope, run, gate, seats, taker)?;
    Ok((handles, others))
}

/// How many of the records from that place on are answers.
fn answers(records: &[Record], from: usize) -> u64 {
    let mut count = 0u64;
    let Some(new) = records.get(from..) else {
        return count;
    };
    for record in new {
        if matches!(record, Record::Ans { .. }) {
            count = count.wrapping_add(1);
        }
    }
    count
}

/// Takes records until the run is over and the queue is empty. The counter rises by the answers taken.
fn take_all<R: Wait, G: Gate>(
    rt: &R,
    run: &RunContext,
    gate: &G,
    answered: &AtomicU64,
    taker: &mut Taker,
    records: &mut Vec<Record>,
) -> Result<(), AllocError>
    requires { (taker.old.queue ≡ run.now.recorder) × (taker.old.taken.records ≡ records.old.items) }
    ensures queue { taker.new.queue ≡ taker.old.queue }
    ensures known { taker.new.taken.known ≡ taker.old.taken.known }
    ensures records { taker.new.taken.records ≡ records.new.items }
    ensures whole { OnOk result (IsWhole taker.new.taken) }
{
    let mut backoff = Backoff::new();
    for _ in rt.forever() {
        let over = run.shared.is_over();
        let from = records.len();
        let none = run.recorder.drain(rt, taker, records)?;
        answered.fetch_add(answers(records.as_slice(), from), Ordering::SeqCst);
        if none {
            if over {
                break;
            }
            backoff.rest(gate);
        } else {
            backoff.got_on();
        }
    }
    Ok(())
}

/// Joins the requesters, whose passes go to the checker. The error is why one of them ended before it was done.
fn join_all<R: Threads>(
    rt: &R,
    run: &RunContext,
    taker: &mut Taker,
    mut handles: Vec<PromisedHandle<Ended, Keeps<'_>>>,
) -> Result<Vec<ReqSeat>, Stop>
    requires taker { taker.old.queue ≡ run.now.recorder }
    requires handles { AreHandles run.now.hall run.now.recorder 1 (map (λ s. s.items) run.now.plan.scripts.items) handles.items }
    ensures taker { taker.new.queue ≡ taker.old.queue }
    ensures records { taker.new.taken.records ≡ taker.old.taken.records }
    ensures seats { IfOk result (λ v. (vec_len v ≡ length run.now.plan.scripts.items) × AreSeats run.now.hall v.items) }
    ensures known { IfOk result (λ v. (told : _) × (taker.new.taken.known ≡ taker.old.taken.known ++ told) ×
        AreFinished 1 (map (λ s. s.items) run.now.plan.scripts.items) told × AreRecorded 1 v.items told) }
{
    let Ok(mut seats) = Vec::with_capacity(run.alloc, run.plan.scripts.len()) else {
        return Err(Stop::Memory);
    };
    for _script in &run.plan.scripts {
        let handle = handles.remove(0);
        let Ended { seat, pusher, stop } = handle.join(rt);
        if let Some(stop) = stop {
            return Err(stop);
        }
        run.recorder.end(taker, pusher);
        let Ok(()) = seats.push(seat) else {
            return Err(Stop::Memory);
        };
    }
    Ok(seats)
}

/// The seats of the workers join the others.
fn give_back<G: Gate>(
    mut tasks: Vec<Task<'_, G>>,
    seats: &mut Vec<WorkSeat>,
) -> Result<(), AllocError>
    ensures count { OnOk result (vec_len seats.new ≡ vec_len seats.old + vec_len tasks.entry) }
    ensures seats { OnOk result ((hall : _) → AreWorkersOf hall tasks.entry.items → AreSeats hall seats.old.items → AreSeats hall seats.new.items) }
{
    let count = tasks.len();
    for _task in 0..count {
        let task = tasks.remove(0);
        seats.push(task.into_seat())?;
    }
    Ok(())
}

/// Joins the threads of the shares, once the run is over: the seats of their workers.
fn join_others<R: Threads, G: Gate>(
    rt: &R,
    run: &RunContext,
    mut handles: Others<'_, G>,
) -> Result<Vec<WorkSeat>, AllocError>
    requires shares { AreShares run.now.plan.config.requesters run.now.plan.threads (map (λ h. h.promise.jobs.now) handles.items) }
    requires hall { AreOfHall run.now.hall handles.items }
    ensures { IfOk result (λ v. (vec_len v ≡ length (jobs_of run.now.plan.config.requesters)) × AreSeats run.now.hall v.items) }
{
    let mut seats = Vec::new(run.alloc);
    let count = handles.len();
    for _share in 0..count {
        let handle = handles.remove(0);
        give_back(handle.join(rt), &mut seats)?;
    }
    Ok(seats)
}

/// The checker's part of a run: it starts all others, takes their records, and joins them. The error is why the run ended
/// before all was done.
pub fn drive<'s, E, R: Threads + Wait, G: Gate + Sync>(
    scope: &Scope<'s, E>,
    rt: &R,
    run: &'s RunContext,
    gate: &'s G,
    answered: &AtomicU64,
    crew: Crew,
) -> Result<Gathered, Stop>
    requires { IsCrewOf run.now crew }
    ensures gathered { IfOk result (λ g. IsGathered run.now.hall g) }
    ensures done { IfOk result (λ g. AreDone g.records.items 1 (map (λ s. s.items) run.now.plan.scripts.items)) }
{
    let Crew {
        seats,
        workers,
        mut taker,
    } = crew;
    let mut records = Vec::new(run.alloc);
    let Ok((handles, others)) = start_crew(scope, run, gate, seats, workers, &mut taker) else {
        run.shared.stop(Stop::Memory);
        return Err(Stop::Memory);
    };
    let taken = take_all(rt, run, gate, answered, &mut taker, &mut records);
    if taken.is_err() {
        run.shared.stop(Stop::Memory);
    }
    let requesters = join_all(rt, run, &mut taker, handles)?;
    // What came in between the last look and the end of the requesters.
    let Ok(()) = take_all(rt, run, gate, answered, &mut taker, &mut records) else {
        return Err(Stop::Memory);
    };
    let Ok(work) = join_others(rt, run, others) else {
        return Err(Stop::Memory);
    };
    Ok(Gathered {
        requesters,
        work,
        records,
    })
}
