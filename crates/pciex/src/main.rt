//! The program `pciex`: a shared memory device on a PCI Express fabric.
#![tactic(auto)]

mod telling;

use cli_commands::{Noted, command, is_request, no_words, take_file};
use std::fs::File;
use std::io;
use std::io::{IsTerminal, Read};
use std::process::ExitCode;
use std::sync::Wait;
use std::thread::Threads;
use std::time::Clock;
use telling::{tell_no_text, told_reader, two_files, unopened};

/// The words of the command line, the program's name before them.
fn words(rt: &HostRuntime) -> io::Result<Vec<String>> {
    let words = std::env::args(rt)?.collect(rt.alloc())?;
    Ok(words)
}

/// Does what the words ask for, on what a stream reads, and gives the exit status.
fn status_of<T: Threads + Wait + Sync + Clock, R: Read + Drop>(
    threads: &T,
    rt: &HostRuntime,
    words: &[String],
    reader: R,
) -> u8 {
    let mut errors = rt.stderr();
    let is_terminal = errors.is_terminal();
    command(
        threads,
        rt.alloc(),
        words,
        is_terminal,
        &mut Noted::new(reader),
        &mut Noted::new(rt.stdout()),
        &mut errors,
    )
}

/// The exit status for words that ask for nothing.
const REFUSED: u8 = 2;

/// Does what the words ask for, on standard input. If they ask for nothing, tells which subcommand reads a file that is
/// named in its place.
fn on_standard_input<T: Threads + Wait + Sync + Clock>(
    threads: &T,
    rt: &HostRuntime,
    words: &[String],
) -> u8 {
    let status = status_of(threads, rt, words, rt.stdin());
    if status == REFUSED {
        told_reader(rt, words, &mut rt.stderr());
    }
    status
}

/// Does what the words ask for, on the file of this name. If they name a second one, or ask for nothing, that is told.
fn on_file<T: Threads + Wait + Sync + Clock>(
    threads: &T,
    rt: &HostRuntime,
    name: &str,
    words: &mut Vec<String>,
) -> u8 {
    if let Some(other) = take_file(rt.alloc(), words) {
        return two_files(name, other.as_str(), &mut rt.stderr());
    }
    if !is_request(rt.alloc(), words.as_slice()) {
        return status_of(threads, rt, words.as_slice(), rt.stdin());
    }
    match File::open(rt, name) {
        Ok(file) => status_of(threads, rt, words.as_slice(), file),
        Err(why) => unopened(name, &why, &mut rt.stderr()),
    }
}

fn main(rt: HostRuntime) -> ExitCode {
    let mut words = match words(&rt) {
        Ok(words) => words,
        Err(fault) => {
            let mut errors = rt.stderr();
            let status = no_words(&fault, &mut errors);
            tell_no_text(&rt, &mut errors);
            return ExitCode::from(status);
        }
    };
    let status = match take_file(rt.alloc(), &mut words) {
        Some(name) => on_file(&rt, &rt, name.as_str(), &mut words),
        None => on_standard_input(&rt, &rt, words.as_slice()),
    };
    ExitCode::from(status)
}
