//! Words that aren't read, a file as the last word, and streams that keep why they failed.
use cli_commands::{
    Fallible, Noted, has_no_subcommand, is_request, no_words, take_file, tell_reader,
};
use std::alloc::{AllocError, Global};
use std::io::{ErrorKind, Read};

/// Whether this is told of words that are not read, with this exit status.
fn is_unread(alloc: Global, kind: ErrorKind, exit: u8, text: &[u8]) -> bool {
    let mut errors = Vec::new(alloc);
    no_words(&kind.into(), &mut errors) == exit && errors.as_slice() == text
}

#[test]
fn words_that_are_not_read(rt: HostRuntime) {
    let alloc = rt.alloc();
    assert!(rt;
        is_unread(alloc, ErrorKind::OutOfMemory, 1, b"pciex: memory\n")
            & is_unread(alloc, ErrorKind::InvalidData, 2, b"pciex: options\n")
    );
}

/// Words, and the file's name among them.
static FILES: [(&[&str], Option<&str>); 5] = [
    (&["pciex", "step", "script.txt"], Some("script.txt")),
    (
        &["pciex", "check", "--clocked", "trace.txt"],
        Some("trace.txt"),
    ),
    (
        &["pciex", "draw", "trace.txt", "--from", "7"],
        Some("trace.txt"),
    ),
    (&["pciex", "draw", "--from", "7"], None),
    (&["pciex", "generate", "storm.txt"], None),
];

/// Whether this name is taken out of the words, and the others ask for something.
fn is_taken(alloc: Global, words: &[&'static str], name: Option<&str>) -> Result<bool, AllocError> {
    let mut left = Vec::new(alloc);
    for word in words {
        left.push(*word)?;
    }
    let taken = take_file(alloc, &mut left);
    let is_file = name.is_some();
    Ok(taken == name && (!is_file || is_request(alloc, left.as_slice())))
}

/// Whether the file's name of each row is taken.
fn all_have_their_files(alloc: Global) -> bool {
    let mut right = true;
    for (words, name) in &FILES {
        right &= is_taken(alloc, words, *name) == Ok(true);
    }
    right
}

#[test]
fn a_file_is_a_word(rt: HostRuntime) {
    assert!(rt; all_have_their_files(rt.alloc()));
}

/// Whether the reader of a log is told to who names no subcommand.
fn is_told_the_reader(alloc: Global) -> bool {
    let mut errors = Vec::new(alloc);
    tell_reader("my.log", b"# seen\npciex-log 1\n", &mut errors);
    has_no_subcommand(alloc, &["pciex", "my.log"])
        && errors.as_slice()
            == b"pciex: my.log is a log, which 'pciex search my.log' judges\n".as_slice()
}

#[test]
fn a_log_without_a_subcommand(rt: HostRuntime) {
    assert!(rt; is_told_the_reader(rt.alloc()));
}

/// Whether a stream that is noted gives what it has, and has not failed.
fn reads_on() -> bool {
    let mut noted = Noted::new(b"7".as_slice());
    let mut byte = [0];
    noted.read(&mut byte).is_ok() && byte == [b'7'] && noted.failure().is_none()
}

#[test]
fn a_stream_that_has_not_failed(rt: HostRuntime) {
    assert!(rt; reads_on());
}
