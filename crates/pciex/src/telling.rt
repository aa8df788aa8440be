//! What is told of words that name a file, and of words that are no text.
ghost use Rattle.std.specs.Prelude.{◌≡◌};

use cli_commands::{has_no_subcommand, tell_reader};
use cli_options::Shown;
use std::env::{Env, FillError};
use std::fs::File;
use std::io::{Read, Write};
use std::{fs, io};

/// Tells that a file can't be opened, and gives the exit status for that.
pub fn unopened<E: Write>(name: &str, why: &io::Error, errors: &mut E) -> u8
    ensures { result ≡ 1 }
{
    let name = Shown::first(name.as_bytes());
    let _ = writeln!(errors, "pciex: '{name}': {why}");
    1
}

/// Tells that two words can only be names of files, and gives the exit status for that.
pub fn two_files<E: Write>(one: &str, other: &str, errors: &mut E) -> u8
    ensures { result ≡ 2 }
{
    let (one, other) = (Shown::first(one.as_bytes()), Shown::first(other.as_bytes()));
    let _ = writeln!(errors, "pciex: two files: '{one}', '{other}'");
    2
}

/// How much is read of a text, to see what it is.
const BEGINNING: usize = 4096;

/// Tells which subcommand reads the file that is named in a subcommand's place, if there is one and it begins so.
pub fn told_reader<E: Write>(rt: &HostRuntime, words: &[String], errors: &mut E) {
    let Some(name) = words.get(1) else {
        return;
    };
    if !has_no_subcommand(rt.alloc(), words) || !is_file(rt, name.as_str()) {
        return;
    }
    let mut beginning = [0; BEGINNING];
    if let Ok(mut file) = File::open(rt, name.as_str())
        && let Ok(count) = file.read(&mut beginning)
    {
        tell_reader(name.as_str(), &beginning[..count], errors);
    }
}

/// Whether there is a file of this name, and no folder or device.
fn is_file(rt: &HostRuntime, name: &str) -> bool {
    match fs::metadata(rt, name) {
        Ok(metadata) => metadata.is_file(),
        Err(_) => false,
    }
}

/// The most bytes of a word that Linux passes.
const LONGEST: usize = 131_072;

/// Tells the first word of the command line that is no text.
pub fn tell_no_text<E: Write>(rt: &HostRuntime, errors: &mut E) {
    let Ok(mut bytes) = vec![in rt.alloc(); 0u8; LONGEST] else {
        return;
    };
    for place in 0..usize::MAX {
        match rt.arg(place, &mut bytes) {
            Ok(length) if str::from_utf8(&bytes[..length]).is_err() => {
                let word = Shown::first(&bytes[..length]);
                let _ = writeln!(errors, "pciex: '{word}' is not UTF-8");
                return;
            }
            Ok(_) | Err(FillError::TooLong) => {}
            Err(FillError::NotPresent) => return,
        }
    }
}
