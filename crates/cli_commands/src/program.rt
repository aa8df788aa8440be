//! The program, over any streams, with the worker threads of a run and of a sweep.
ghost use Rattle.std.specs.Prelude.{◌≡◌, ◌⊎◌, map, true};
ghost use Rattle.clap.specs.Words.{fault_of, subcommand_of, takes};
ghost use Rattle.cli_words.specs.Options.{the_app, Asks};
ghost use Rattle.cli_commands.specs.Command.{IsDone, AreRefused};
ghost use Rattle.cli_words.specs.declared.words.Request.{Request};

use crate::noted::Fallible;
use crate::one_thread::{Host, Outcome, ended, on_one_thread};
use run_engine::{Progress, run_counting};
use std::alloc::Global;
use std::convert::AsStr;
use std::io::{Read, Write};
use std::sync::Wait;
use std::thread::Threads;
use std::time::Clock;
use sweep_engine::run_sweep;

/// How it is told how far a run is.
fn progress_of(is_told: bool, is_terminal: bool) -> Progress {
    if is_terminal {
        Progress::OneLine
    } else if is_told {
        Progress::Lines
    } else {
        Progress::Hidden
    }
}

/// Does what the words of the command line ask for, the program's name before them, and gives the exit status:
/// that of [`on_one_thread`], or that of the sweep, or that of the run, which is 3 for the halt `Turns`. A run tells how
/// far it is where the words ask for that or the error stream is a terminal.
pub fn command<
    T: Threads + Wait + Sync + Clock,
    S: AsStr,
    R: Read + Fallible,
    W: Write + Fallible,
    E: Write + Send,
>(
    rt: &T,
    alloc: Global,
    words: &[S],
    is_terminal: bool,
    reader: &mut R,
    writer: &mut W,
    errors: &mut E,
) -> u8
    // Words that `clap` takes and that ask for something have the run of that.
    ensures run { (request : Request) → takes the_app (map S.text words.now) ≡ true → Asks (subcommand_of the_app (map S.text words.now)) request
        → IsDone request (R.remaining reader.old) (R.remaining reader.new) (W.contents writer.old) (W.contents writer.new) result }

    // Words that `clap` takes and that ask for nothing have status 1 or 2, and nothing is written.
    ensures nothing { takes the_app (map S.text words.now) ≡ true → ((r : Request) → Asks (subcommand_of the_app (map S.text words.now)) r → ⊥)
        → ((result ≡ 1) ⊎ (result ≡ 2)) × (W.contents writer.new ≡ W.contents writer.old) }

    // So do words that `clap` refuses, but where they ask for a text.
    ensures refused { AreRefused (fault_of the_app (map S.text words.now))
        → ((result ≡ 1) ⊎ (result ≡ 2)) × (W.contents writer.new ≡ W.contents writer.old) }
{
    let host = Host {
        alloc,
        is_terminal,
        clock: rt,
    };
    match on_one_thread(words, host, reader, writer, errors) {
        Outcome::Ended(status) => status,
        Outcome::Run { counting, is_told } => {
            let progress = progress_of(is_told, is_terminal);
            let run = run_counting(rt, alloc, &counting, progress, writer, errors);
            ended(run, reader, writer, errors)
        }
        Outcome::Sweep(sweep) => {
            let run = run_sweep(rt, alloc, &sweep, writer);
            ended(run, reader, writer, errors)
        }
    }
}
