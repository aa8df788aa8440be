//! Hints beside what `clap` says of the words: how a subcommand is given a file, and which one reads a text.
ghost use Rattle.std.specs.Prelude.{◌≡◌, true};
ghost use Rattle.clap.specs.Words.{kind_of};

use crate::files::{has_file, is_reader};
use clap::error::ErrorKind;
use cli_options::Shown;
use cli_words::{RequestFault, options};
use hex_text::is_skipped;
use operation_text::split_word;
use std::alloc::Global;
use std::convert::AsStr;
use std::io::{Cursor, Write};

/// How `clap` begins what it says of a word that it did not expect; that word follows.
const UNEXPECTED: &[u8; 28] = b"error: unexpected argument '";

/// Whether `clap` did not expect a word that is no option.
pub(crate) fn is_unexpected_file(error: &clap::Error) -> bool
    ensures { result ≡ true → kind_of error.now ≡ ErrorKind.UnknownArgument }
{
    if error.kind() != ErrorKind::UnknownArgument {
        return false;
    }
    let mut said = Cursor::new([b'-'; 29]);
    let _ = write!(said, "{error}");
    let said = said.into_inner();
    said.starts_with(UNEXPECTED) && said[28] != b'-'
}

/// Tells how a subcommand is given a file, if a word that can only be a file's name follows it.
pub(crate) fn hint<S: AsStr, E: Write>(words: &[S], fault: &RequestFault<'_>, errors: &mut E) {
    if !is_reader(words) || !has_file(fault) {
        return;
    }
    if let Some(word) = words.get(1) {
        let subcommand = word.as_str();
        let _ = writeln!(
            errors,
            "pciex: {subcommand} reads standard input, or a file: pciex {subcommand} FILE"
        );
    }
}

/// The first words of the texts, what they are, the subcommand, and what it does with them.
static TEXTS: [(&str, &str, &str, &str); 3] = [
    ("fabric", "a script", "step", "runs"),
    ("pciex-log", "a log", "search", "judges"),
    ("pciex-trace", "a trace", "check", "judges"),
];

/// The first word of the first line that isn't skipped.
fn first_word(text: &[u8]) -> &[u8] {
    for line in text.split(|byte| *byte == b'\n') {
        if !is_skipped(line) {
            return split_word(line).0;
        }
    }
    b""
}

/// Whether the word behind the program's name is no subcommand.
pub fn has_no_subcommand<S: AsStr>(alloc: Global, words: &[S]) -> bool {
    match options(alloc, words) {
        Err(RequestFault::Words(error)) => error.kind() == ErrorKind::InvalidSubcommand,
        _ => false,
    }
}

/// Tells which subcommand reads the file of this name, if its text begins as one of those that are read.
pub fn tell_reader<E: Write>(name: &str, beginning: &[u8], errors: &mut E) {
    let word = first_word(beginning);
    for (first, text, subcommand, does) in &TEXTS {
        if word == first.as_bytes() {
            let name = Shown::first(name.as_bytes());
            let _ = writeln!(
                errors,
                "pciex: {name} is {text}, which 'pciex {subcommand} {name}' {does}"
            );
        }
    }
}
