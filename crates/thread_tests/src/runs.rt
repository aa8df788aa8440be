//! Runs by worker threads, and what one writes.
ghost use Rattle.std.specs.Prelude.{◌≡◌};

use fabric_core::{Config, Refusal};
use flow_control::LaneCredits;
use history_words::Record;
use parameters::{Counting, Plan};
use requester_core::SubmitRefusal;
use run_engine::{Progress, run_counting};
use seq_memory::Reply;
use std::alloc::{AllocError, Global};
use std::sync::Wait;
use std::test::Fail;
use std::thread::Threads;
use std::time::Clock;
use tlp_core::{Op, TlpFault, Width};
use workers::{OpenGate, Report, RunHalt, RunPlan, run_workers};

/// A plan of so many additions of 1 to the word at an address by each of so many requesters, over links that lose one
/// packet or DLLP of 3.
fn plan_of(alloc: Global, requesters: u8, each: u32, address: u64) -> Result<RunPlan, AllocError> {
    let mut scripts = Vec::new(alloc);
    for _ in 0..requesters {
        let mut script = Vec::new(alloc);
        for _ in 0..each {
            script.push(Op::FetchAdd {
                address,
                width: Width::Four,
                operand: 1,
            })?;
        }
        scripts.push(script)?;
    }
    Ok(RunPlan {
        config: Config {
            requesters,
            base: 0,
            size: 4096,
            credits: LaneCredits::DEFAULT,
            block: 64,
        },
        scripts,
        plan: Plan {
            lose_every: 3,
            corrupt_every: 0,
        },
        turns: 50_000_000,
        threads: 34,
    })
}

/// Whether the report's answers are the words from 0 up to their count, each once, and its history has
/// as many entries.
fn counts_once(alloc: Global, report: &Report, count: usize) -> Result<bool, AllocError> {
    let mut seen = Vec::new(alloc);
    seen.resize(count, false)?;
    let mut answers = 0usize;
    for record in report.trace.records.as_slice() {
        if let Record::Ans {
            reply: Reply::Data(word),
            ..
        } = record
        {
            let Ok(bytes) = <[u8; 4]>::try_from(word.as_slice()) else {
                return Ok(false);
            };
            match seen
                .as_mut_slice()
                .get_mut(u32::from_le_bytes(bytes) as usize)
            {
                Some(place) if !*place => *place = true,
                _ => return Ok(false),
            }
            answers = answers.wrapping_add(1);
        }
    }
    Ok(answers == count && report.fabric.history().len() == count)
}

/// Whether a run of additions ends in a report that counts each once.
fn counts<R: Threads + Wait + Sync>(
    rt: &R,
    alloc: Global,
    plan: RunPlan,
    count: usize,
) -> Result<bool, AllocError> {
    match run_workers(rt, alloc, plan, &OpenGate) {
        Ok(report) => counts_once(alloc, &report, count),
        Err(_) => Ok(false),
    }
}

#[test]
fn two_requesters_count_each_addition_once(rt: HostRuntime) -> Result<(), Fail> {
    let plan = plan_of(rt.alloc(), 2, 20, 0)?;
    assert!(rt; counts(&rt, rt.alloc(), plan, 40)?);
    Ok(())
}

/// The halt of a run of one operation that no request can ask for.
fn halt_of_unaligned<R: Threads + Wait + Sync>(
    rt: &R,
    alloc: Global,
) -> Result<Option<RunHalt>, AllocError> {
    let plan = plan_of(alloc, 1, 1, 0x42)?;
    Ok(run_workers(rt, alloc, plan, &OpenGate).err())
}

#[test]
fn a_refusal_of_the_core_ends_the_run(rt: HostRuntime) -> Result<(), Fail> {
    let unaligned = Refusal::Submit(SubmitRefusal::Profile(TlpFault::Unaligned));
    let halt = halt_of_unaligned(&rt, rt.alloc())?;
    assert_eq!(rt; halt, Some(RunHalt::Core(unaligned)));
    Ok(())
}

/// Whether a run of no additions writes its report, and nothing on the error stream.
fn counts_nothing<T: Threads + Wait + Sync + Clock>(rt: &T, alloc: Global) -> bool {
    let counting = Counting {
        requesters: 1,
        each: 0,
        lose: 0,
        corrupt: 0,
        turns: 50_000_000,
        workers: None,
    };
    let mut out = Vec::new(alloc);
    let mut errors = Vec::new(alloc);
    let result = run_counting(
        rt,
        alloc,
        &counting,
        Progress::Hidden,
        &mut out,
        &mut errors,
    );
    result == Ok(0)
        && out.as_slice() == b"answered 0\nhistory 0\nword 0\ncheck ok\n".as_slice()
        && errors.is_empty()
}

#[test]
fn a_run_of_no_additions(rt: HostRuntime) {
    assert!(rt; counts_nothing(&rt, rt.alloc()));
}
