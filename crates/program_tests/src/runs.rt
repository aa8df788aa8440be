//! Runs of the program by the words of its command line. These functions say nothing of what they do: the tests look, and a
//! proof that rests on the exact calls would be dear.
use cli_commands::command;
use memchr::memmem;
use std::alloc::Global;
use std::sync::Wait;
use std::thread::Threads;
use std::time::Clock;

/// What is written on standard output.
pub(crate) enum Written {
    Text(&'static str),
    /// These parts, one behind the other.
    Parts(&'static [&'static str]),
}

/// The words of a command line, what standard input has, what is written, what is told on standard error, and the exit status.
pub(crate) struct Row {
    pub(crate) name: &'static str,
    pub(crate) words: &'static [&'static str],
    pub(crate) input: &'static str,
    pub(crate) written: Written,
    pub(crate) told: &'static str,
    pub(crate) status: u8,
}

/// The text from a part on.
fn from_part<'a>(text: &'a [u8], part: &str) -> Option<&'a [u8]> {
    match memmem::find(text, part.as_bytes()) {
        Some(place) => text.get(place..),
        None => None,
    }
}

/// Whether the parts stand in the text, one after the other.
fn has_parts(text: &[u8], parts: &[&str]) -> bool {
    let mut rest = text;
    let mut right = true;
    for part in parts {
        match from_part(rest, part) {
            Some(found) => rest = found,
            None => right = false,
        }
    }
    right
}

impl Written {
    fn is(&self, text: &[u8]) -> bool {
        match self {
            Written::Text(whole) => text == whole.as_bytes(),
            Written::Parts(parts) => has_parts(text, parts),
        }
    }
}

/// The exit status of the row's words.
fn run<T: Threads + Wait + Sync + Clock>(
    rt: &T,
    alloc: Global,
    row: &Row,
    out: &mut Vec<u8>,
    errors: &mut Vec<u8>,
) -> u8 {
    let mut reader = row.input.as_bytes();
    command(rt, alloc, row.words, false, &mut reader, out, errors)
}

/// Whether the row's words write and tell what it has, with its exit status.
fn is_done<T: Threads + Wait + Sync + Clock>(rt: &T, alloc: Global, row: &Row) -> bool {
    let mut out = Vec::new(alloc);
    let mut errors = Vec::new(alloc);
    run(rt, alloc, row, &mut out, &mut errors) == row.status
        && row.written.is(out.as_slice())
        && errors.as_slice() == row.told.as_bytes()
}

/// The name of the first row that goes otherwise.
pub(crate) fn first_wrong<T: Threads + Wait + Sync + Clock>(
    rt: &T,
    alloc: Global,
    rows: &[Row],
) -> Option<&'static str> {
    for row in rows {
        if !is_done(rt, alloc, row) {
            return Some(row.name);
        }
    }
    None
}
