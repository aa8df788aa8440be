//! What a counting came to, as text.
ghost use Rattle.std.specs.Prelude.{◌≡◌, ◌≤◌, ◌+◌, ◌++◌, length, IfOk, IfErr, OnErr};
ghost use Rattle.arrayvec.specs.ArrayString.{array_string_len};
ghost use Rattle.history_words.specs.Claim.{claim_of};
ghost use Rattle.history_words.specs.Trace.{Explains};
ghost use Rattle.hall_laws.specs.Rule.{HasConfig};
ghost use Rattle.worker_report.specs.Halts.{IsOfMemory, IsEndBy};
ghost use Rattle.workers.specs.Running.{AreDone};
ghost use Rattle.parameters.specs.Ranges.{IsCounting};
ghost use Rattle.run_engine.specs.Counting.{scripts_of, config_of};
ghost use Rattle.run_engine.specs.Text.{number_line, is_answer, answers_in, first_word, report_text, halt_text, halt_status, IsOutput, IsWhole, IsPart};

use crate::plan::{plan_of, threads_of};
use crate::progress::{Progress, watched};
use arrayvec::ArrayString;
use byteorder::{ByteOrder, LittleEndian};
use history_words::Record;
use line_loop::{EngineFault, write_out};
use operation_text::write_decimal;
use parameters::Counting;
use std::alloc::Global;
use std::io::Write;
use std::sync::Wait;
use std::sync::atomic::AtomicU64;
use std::thread::Threads;
use std::time::Clock;
use workers::{Report, RunHalt, SleepingGate, run_workers_counting};

/// Whether the record is an answer.
fn is_answer(told: &Record) -> bool
    ensures { result ≡ is_answer told.now }
{
    match told {
        Record::Ans { .. } => true,
        Record::Sub { .. } => false,
    }
}

/// How many of the records are answers.
fn answers_in(records: &[Record]) -> usize
    ensures { result ≡ answers_in records.now }
{
    records.iter().filter(|record| is_answer(record)).count()
}

/// The first four bytes as a number.
fn first_word(bytes: &[u8]) -> u32
    ensures { result ≡ first_word bytes.now }
{
    if bytes.len() < 4 {
        return 0;
    }
    LittleEndian::read_u32(&bytes[..4])
}

/// A line with a name and a number.
fn put_number(name: &str, number: u64, out: &mut ArrayString<512>)
    requires { (length name.now ≤ 9) × (array_string_len out.old ≤ 400) }
    ensures text { out.new.bytes ≡ out.old.bytes ++ number_line name.now number }
    ensures len { array_string_len out.new ≤ array_string_len out.old + 30 }
{
    out.push_str(name);
    write_decimal(number, out);
    out.push_str("\n");
}

/// The text of a report.
fn report_text(report: &Report) -> ArrayString<512>
    ensures { result.bytes ≡ report_text report.now.trace.records report.now.fabric }
{
    let mut out = ArrayString::new();
    put_number(
        "answered ",
        answers_in(report.trace.records.as_slice()) as u64,
        &mut out,
    );
    put_number("history ", report.fabric.history().len() as u64, &mut out);
    put_number(
        "word ",
        u64::from(first_word(report.fabric.bytes())),
        &mut out,
    );
    out.push_str("check ok\n");
    out
}

/// The text of a halt.
fn halt_text(halt: RunHalt) -> ArrayString<512>
    ensures { result.bytes ≡ halt_text halt }
{
    let mut out = ArrayString::new();
    out.push_str("halt ");
    out.push_str(halt.name());
    out.push_str("\n");
    out
}

/// The exit status of a halt.
fn halt_status(halt: RunHalt) -> u8
    ensures { result ≡ halt_status halt }
{
    match halt {
        RunHalt::Turns => 3,
        _ => 1,
    }
}

/// Runs the counting.
fn run<R: Threads + Wait + Sync + Clock>(
    rt: &R,
    alloc: Global,
    counting: &Counting,
    answered: &AtomicU64,
) -> Result<Report, RunHalt>
    requires { IsCounting counting.now }
    ensures checked { IfOk result (λ r. Explains (claim_of r.trace r.fabric.memory.entries)) }
    ensures done { IfOk result (λ r. AreDone r.trace.records 1 (scripts_of counting.now.requesters counting.now.each)) }
    ensures memory { IfOk result (λ r. IsOfMemory (config_of counting.now.requesters) r.trace) }
    ensures config { IfOk result (λ r. HasConfig r.fabric (config_of counting.now.requesters)) }
    ensures halt { IfErr result (λ h. IsEndBy h) }
{
    match plan_of(alloc, counting, threads_of(rt, counting)) {
        Ok(plan) => run_workers_counting(rt, alloc, plan, &SleepingGate { clock: rt }, answered),
        Err(_) => Err(RunHalt::Memory),
    }
}

/// The text and the exit status of a counting.
pub(crate) fn output<R: Threads + Wait + Sync + Clock>(
    rt: &R,
    alloc: Global,
    counting: &Counting,
    answered: &AtomicU64,
) -> (ArrayString<512>, u8)
    requires { IsCounting counting.now }
    ensures { IsOutput counting.now result.0.bytes result.1 }
{
    match run(rt, alloc, counting, answered) {
        Ok(report) => (report_text(&report), 0),
        Err(halt) => (halt_text(halt), halt_status(halt)),
    }
}

/// Runs the counting and writes what came of it: the answers, the history's length, the first word and
/// `check ok`, or the halt. `Ok` is the exit status, 0 for a report, 3 for the halt `Turns` and 1 for any
/// other. After an `Err` what was written is a prefix of the output. If `progress` isn't hidden, it is told on
/// `errors` after two seconds, and then more rarely, how many answers of how many were given.
pub fn run_counting<R: Threads + Wait + Sync + Clock, W: Write, E: Write + Send>(
    rt: &R,
    alloc: Global,
    counting: &Counting,
    progress: Progress,
    writer: &mut W,
    errors: &mut E,
) -> Result<u8, EngineFault>
    requires { IsCounting counting.now }
    ensures ok { IfOk result (IsWhole counting.now (W.contents writer.old) (W.contents writer.new)) }
    ensures fault { IfErr result (λ f. f ≡ EngineFault.Write) }
    ensures part { OnErr result (IsPart counting.now (W.contents writer.old) (W.contents writer.new)) }
{
    let (text, status) = match progress {
        Progress::Hidden => output(rt, alloc, counting, &AtomicU64::new(0)),
        _ => watched(rt, alloc, counting, progress, errors),
    };
    write_out(writer, text.as_bytes())?;
    Ok(status)
}
