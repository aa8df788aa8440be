//! The words of a command line, done on one thread.
ghost use Rattle.std.specs.Prelude.{◌≡◌, ◌≢◌, ◌⊎◌, map, true, IfOk, OnErr};
ghost use Rattle.std.specs.IoError.{error_kind};
ghost use Rattle.clap.specs.Words.{fault_of, kind_of, subcommand_of, takes};
ghost use Rattle.cli_words.specs.Faults.{IsMemoryFault, RangeFault, WordsFault};
ghost use Rattle.cli_words.specs.Options.{the_app, Asks};
ghost use Rattle.cli_commands.specs.Command.{IsBegun, EndsWrong, IsRight, IsRightRequest, AreRefused};
ghost use Rattle.cli_words.specs.declared.words.Request.{Request};

use crate::hints::hint;
use crate::noted::Fallible;
use crate::plain::Plain;
use crate::searching::{Search, run_search_as, stages_of};
use chart_engine::run_chart;
use chart_links::ChartWindow;
use clap::error::ErrorKind;
use cli_words::{Request, RequestFault, options};
use draw_engine::run_draw;
use endpoint_engine::{EndpointOptions, run_endpoint};
use generate_engine::run_generate;
use history_picture::Window;
use line_loop::EngineFault;
use linked_engine::{LinkedOptions, run_linked};
use packet_engine::{run_decode, run_encode, run_tlp};
use parameters::Counting;
use search_engine::SearchOptions;
use std::alloc::Global;
use std::convert::AsStr;
use std::io;
use std::io::{ErrorKind as IoErrorKind, Read, Write};
use std::time::Clock;
use step_engine::{StepOptions, run_step};
use sweep_engine::Sweep;
use trace_engine::{run_check, run_upgrade};

/// Tells what stopped an engine and why, where that is known, and gives the exit status for that. Of an output that
/// nobody reads any more nothing is told.
fn stopped<E: Write>(fault: EngineFault, why: Option<&io::Error>, errors: &mut E) -> u8
    ensures { result ≡ 1 }
{
    let Some(why) = why else {
        let _ = writeln!(errors, "pciex: {fault}");
        return 1;
    };
    if fault != EngineFault::Write || why.kind() != IoErrorKind::BrokenPipe {
        let _ = writeln!(errors, "pciex: {fault}: {why}");
    }
    1
}

/// The exit status of an engine's run over these streams; what stopped it is told.
pub fn ended<R: Fallible, W: Fallible, E: Write>(
    run: Result<u8, EngineFault>,
    reader: &R,
    writer: &W,
    errors: &mut E,
) -> u8
    ensures ok { IfOk run (λ status. result ≡ status) }
    ensures err { OnErr run (result ≡ 1) }
{
    match run {
        Ok(status) => status,
        Err(EngineFault::Read) => stopped(EngineFault::Read, reader.failure(), errors),
        Err(EngineFault::Write) => stopped(EngineFault::Write, writer.failure(), errors),
        Err(EngineFault::Memory) => stopped(EngineFault::Memory, None, errors),
    }
}

/// Tells what `clap` says of the words, and gives the exit status: a text that was asked for goes
/// to standard output, and any other to standard error.
fn told<W: Write + Fallible, E: Write>(error: &clap::Error, writer: &mut W, errors: &mut E) -> u8
    ensures status { kind_of error.now ≡ ErrorKind.OutOfMemory → result ≡ 1 }
    ensures same { kind_of error.now ≡ ErrorKind.OutOfMemory → W.contents writer.new ≡ W.contents writer.old }
    ensures wrong { kind_of error.now ≢ ErrorKind.OutOfMemory → kind_of error.now ≢ ErrorKind.DisplayHelp → kind_of error.now ≢ ErrorKind.DisplayVersion →
        result ≡ 2 }
    ensures wrong_same { kind_of error.now ≢ ErrorKind.DisplayHelp → kind_of error.now ≢ ErrorKind.DisplayVersion →
        W.contents writer.new ≡ W.contents writer.old }
{
    if error.kind() == ErrorKind::OutOfMemory {
        return stopped(EngineFault::Memory, None, errors);
    }
    if error.use_stderr() {
        let _ = write!(Plain { to: errors }, "{error}");
        return 2;
    }
    match write!(writer, "{error}") {
        Ok(()) => 0,
        Err(_) => stopped(EngineFault::Write, writer.failure(), errors),
    }
}

/// Tells why the words ask for nothing, and gives the exit status for that.
fn refused<W: Write + Fallible, E: Write>(
    fault: &RequestFault<'_>,
    writer: &mut W,
    errors: &mut E,
) -> u8
    ensures status { IsMemoryFault fault.now → result ≡ 1 }
    ensures same { IsMemoryFault fault.now → W.contents writer.new ≡ W.contents writer.old }
    ensures words { WordsFault (λ e. kind_of e ≢ ErrorKind.DisplayHelp → kind_of e ≢ ErrorKind.DisplayVersion
        → ((result ≡ 1) ⊎ (result ≡ 2)) × (W.contents writer.new ≡ W.contents writer.old)) fault.now }
    ensures range { RangeFault (result ≡ 2) fault.now }
    ensures range_same { RangeFault (W.contents writer.new ≡ W.contents writer.old) fault.now }
{
    match fault {
        RequestFault::Words(error) => told(error, writer, errors),
        RequestFault::Value(refused) => {
            let _ = writeln!(errors, "pciex: options\npciex: {refused}");
            2
        }
        RequestFault::Nothing => {
            let _ = writeln!(errors, "pciex: options");
            2
        }
    }
}

/// Tells why the words of the command line were not read, and gives the exit status for that: want
/// of memory, or a word that is no text.
pub fn no_words<E: Write>(fault: &io::Error, errors: &mut E) -> u8
    ensures memory { error_kind fault.now ≡ IoErrorKind.OutOfMemory → result ≡ 1 }
    ensures word { error_kind fault.now ≢ IoErrorKind.OutOfMemory → result ≡ 2 }
{
    if fault.kind() == IoErrorKind::OutOfMemory {
        return stopped(EngineFault::Memory, None, errors);
    }
    let _ = writeln!(errors, "pciex: options");
    2
}

/// What became of the words of a command line on one thread.
#[derive(Clone, Copy)]
pub enum Outcome {
    /// The program ends with this exit status.
    Ended(u8),
    /// They ask for a run, of which nothing is done yet.
    Run { counting: Counting, is_told: bool },
    /// They ask for a sweep, of which nothing is done yet.
    Sweep(Sweep),
}

/// What a command has of the process: its memory, whether its error stream is a terminal, and a clock, by which it is told
/// how far a search is.
#[derive(Drop)]
pub struct Host<'h, C> {
    pub alloc: Global,
    pub is_terminal: bool,
    pub clock: &'h C,
}

/// Does what is asked for, but for a run and a sweep, and gives the exit status.
fn begin<C: Clock, R: Read + Fallible, W: Write + Fallible, E: Write>(
    request: Request,
    host: Host<'_, C>,
    reader: &mut R,
    writer: &mut W,
    errors: &mut E,
) -> Outcome
    requires { IsRightRequest request }
    ensures begun { IsBegun request (R.remaining reader.old) (R.remaining reader.new) (W.contents writer.old) (W.contents writer.new) result }
    ensures right { IsRight result }
{
    let alloc = host.alloc;
    match request {
        Request::Tlp(extent) => {
            let run = run_tlp(alloc, extent, reader, writer, errors);
            Outcome::Ended(ended(run, reader, writer, errors))
        }
        Request::Endpoint { setup, is_traced } => {
            let options = EndpointOptions { setup, is_traced };
            let run = run_endpoint(alloc, options, reader, writer, errors);
            Outcome::Ended(ended(run, reader, writer, errors))
        }
        Request::Linked {
            setup,
            is_traced,
            credits,
            has_crc,
        } => {
            let options = LinkedOptions {
                device: EndpointOptions { setup, is_traced },
                credits,
                has_crc,
            };
            let run = run_linked(alloc, options, reader, writer, errors);
            Outcome::Ended(ended(run, reader, writer, errors))
        }
        Request::Decode => {
            let run = run_decode(alloc, reader, writer, errors);
            Outcome::Ended(ended(run, reader, writer, errors))
        }
        Request::Encode => {
            let run = run_encode(alloc, reader, writer, errors);
            Outcome::Ended(ended(run, reader, writer, errors))
        }
        Request::Check { is_clocked } => {
            let run = run_check(alloc, is_clocked, reader, writer, errors);
            Outcome::Ended(ended(run, reader, writer, errors))
        }
        Request::Search {
            limit,
            work,
            granularity,
            output,
            is_told,
        } => {
            let options = SearchOptions {
                limit,
                granularity,
                stages: stages_of(is_told, host.is_terminal),
            };
            let search = Search {
                options,
                work,
                output,
                clock: host.clock,
            };
            let run = run_search_as(alloc, search, reader, writer, errors);
            Outcome::Ended(ended(run, reader, writer, errors))
        }
        Request::Draw { from, to } => {
            let window = Window { from, to };
            let run = run_draw(alloc, window, reader, writer, errors);
            Outcome::Ended(ended(run, reader, writer, errors))
        }
        Request::Upgrade => {
            let run = run_upgrade(alloc, reader, writer, errors);
            Outcome::Ended(ended(run, reader, writer, errors))
        }
        Request::Step {
            is_traced,
            keeps_going,
            echoes,
        } => {
            let options = StepOptions {
                is_traced,
                keeps_going,
                echoes,
            };
            let run = run_step(alloc, options, reader, writer, errors);
            Outcome::Ended(ended(run, reader, writer, errors))
        }
        Request::Chart {
            lane,
            from,
            to,
            has_all,
            has_levels,
        } => {
            let window = ChartWindow {
                lane,
                from,
                to,
                is_brief: !has_all,
                has_levels,
            };
            let run = run_chart(alloc, window, reader, writer, errors);
            Outcome::Ended(ended(run, reader, writer, errors))
        }
        Request::Generate { storm } => {
            let run = run_generate(alloc, &storm, writer);
            Outcome::Ended(ended(run, reader, writer, errors))
        }
        Request::Sweep {
            storm,
            last,
            is_clocked,
            keeps_going,
            workers,
        } => Outcome::Sweep(Sweep {
            storm,
            last,
            is_clocked,
            keeps_going,
            workers,
        }),
        Request::Run { counting, is_told } => Outcome::Run { counting, is_told },
    }
}

/// Does what the words of the command line ask for, the program's name before them, but for a run and a sweep, and gives
/// the exit status: 0 done; 1 a fault, a flaw or a refusal was told, or reading, writing or memory failed; 2 the
/// words ask for nothing; 3 a search was given up. A long search tells how far it is if the error stream is a terminal.
/// It waits for no thread, so what is said of it needs no return.
pub fn on_one_thread<C: Clock, S: AsStr, R: Read + Fallible, W: Write + Fallible, E: Write>(
    words: &[S],
    host: Host<'_, C>,
    reader: &mut R,
    writer: &mut W,
    errors: &mut E,
) -> Outcome
    // Words that `clap` takes and that ask for something have the run of that.
    ensures run { (request : Request) → takes the_app (map S.text words.now) ≡ true → Asks (subcommand_of the_app (map S.text words.now)) request
        → IsBegun request (R.remaining reader.old) (R.remaining reader.new) (W.contents writer.old) (W.contents writer.new) result }

    // Words that `clap` takes and that ask for nothing have status 2, or 1 where out of memory, and nothing is written.
    ensures nothing { takes the_app (map S.text words.now) ≡ true → ((r : Request) → Asks (subcommand_of the_app (map S.text words.now)) r → ⊥)
        → EndsWrong result × (W.contents writer.new ≡ W.contents writer.old) }

    // So do words that `clap` refuses, but where they ask for a text.
    ensures refused { AreRefused (fault_of the_app (map S.text words.now))
        → EndsWrong result × (W.contents writer.new ≡ W.contents writer.old) }

    // What is to be run can be.
    ensures right { IsRight result }
{
    match options(host.alloc, words) {
        Ok(request) => begin(request, host, reader, writer, errors),
        Err(fault) => {
            let status = refused(&fault, writer, errors);
            hint(words, &fault, errors);
            Outcome::Ended(status)
        }
    }
}
