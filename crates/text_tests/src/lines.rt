//! A small responder whose answers are shown at once.
use crate::rows::{Row, all_right};
use arrayvec::ArrayVec;
use line_loop::{EngineFault, Responder, Verdict, run};
use std::alloc::{AllocError, Global};
use std::cell::Cell;
use std::io;
use std::io::{ErrorKind, Read, Write};

/// Marks lines with `a` and `b` by turns, tells a long line as a fault, and has no memory for the
/// line `none`.
#[derive(Drop)]
struct Marker {
    is_second: bool,
}

impl Responder for Marker {
    ghost use Rattle.std.specs.Prelude.{◌++◌, ◌∷◌, [], not, true, false, codes, if◌then◌else◌};

    ghost responses = { record {
      on_line = λ s line. record {
        state = record { is_second = not s.is_second };
        text = (if s.is_second then 98 else 97) ∷ (line ++ 10 ∷ []);
        is_fault = false;
      };
      on_long_line = λ s. record { state = s; text = codes "long\n"; is_fault = true };
      on_end = λ s. record { state = s; text = codes "end\n"; is_fault = false };
    } };

    fn on_line(&mut self, line: &[u8], out: &mut Vec<u8>) -> Result<Verdict, AllocError> {
        if line == b"none".as_slice() {
            return Err(AllocError);
        }
        let mut text: ArrayVec<u8, 514> = ArrayVec::new();
        text.push(if self.is_second { b'b' } else { b'a' });
        let _ = text.try_extend_from_slice(line);
        text.push(b'\n');
        out.extend_from_slice(text.as_slice())?;
        self.is_second = !self.is_second;
        Ok(Verdict::Fine)
    }

    fn on_long_line(&mut self, out: &mut Vec<u8>) -> Result<Verdict, AllocError> {
        out.extend_from_slice(b"long\n")?;
        Ok(Verdict::Fault)
    }

    fn on_end(&mut self, out: &mut Vec<u8>) -> Result<Verdict, AllocError> {
        out.extend_from_slice(b"end\n")?;
        Ok(Verdict::Fine)
    }
}

/// A marker before its first line.
fn new_marker() -> Marker {
    Marker { is_second: false }
}

/// Whether a run on the input answers so, and this is written.
fn answers(alloc: Global, input: &[u8], want: Result<u8, EngineFault>, output: &[u8]) -> bool {
    let mut reader = input;
    let mut writer = Vec::new(alloc);
    let result = run(alloc, new_marker(), &mut reader, &mut writer);
    result == want && writer.as_slice() == output
}

const OUTPUT: &[u8] = b"aone\nbtwo\nathree\nend\n";

/// What is written of the input where its bytes from this place on can't be read.
fn before(place: usize) -> &'static [u8] {
    match place {
        0..4 => b"",
        4..8 => b"aone\n",
        _ => b"aone\nbtwo\n",
    }
}

/// What is written of the input, a byte of which is read at a time, before the writer fails at the flush after so many:
/// there is one after each byte, and one at the end.
fn flushed(flushes: usize) -> (Result<u8, EngineFault>, &'static [u8]) {
    match flushes {
        0..13 => (Err(EngineFault::Write), before(flushes + 1)),
        13 => (Err(EngineFault::Write), OUTPUT),
        _ => (Ok(0), OUTPUT),
    }
}

/// A user at a terminal gives a line once the answers to all lines before it are shown, and else
/// gives none.
#[derive(Drop)]
struct User<'a> {
    lines: &'a [&'a str],
    given: usize,
    shown: &'a Cell<usize>,
}

impl Read for User<'_> {
    ghost use Rattle.std.specs.Prelude.{None};

    ghost remaining = { λ _. None };

    fn read(&mut self, buf: &mut [u8]) -> io::Result<usize> {
        if self.shown.get() != self.given {
            return Err(ErrorKind::Other.into());
        }
        let [line, rest @ ..] = self.lines else {
            return Ok(0);
        };
        let count = line.len().min(buf.len());
        buf[..count].copy_from_slice(&line.as_bytes()[..count]);
        self.lines = rest;
        self.given = self.given.saturating_add(1);
        Ok(count)
    }
}

/// Counts the lines that were flushed.
#[derive(Drop)]
struct Terminal<'a> {
    lines: usize,
    shown: &'a Cell<usize>,
}

impl Write for Terminal<'_> {
    ghost use Rattle.std.specs.Prelude.{None};

    ghost contents = { λ _. None };

    fn write(&mut self, buf: &[u8]) -> io::Result<usize> {
        for byte in buf {
            if *byte == b'\n' {
                self.lines = self.lines.saturating_add(1);
            }
        }
        Ok(buf.len())
    }

    fn flush(&mut self) -> io::Result<()> {
        self.shown.set(self.lines);
        Ok(())
    }
}

/// Whether a user at a terminal gives all lines, and the run ends well.
fn user_is_answered(alloc: Global) -> bool {
    let shown = Cell::new(0);
    let mut user = User {
        lines: &["one\n", "two\n", "three\n"],
        given: 0,
        shown: &shown,
    };
    let mut terminal = Terminal {
        lines: 0,
        shown: &shown,
    };
    run(alloc, new_marker(), &mut user, &mut terminal) == Ok(0)
}

/// Each answer is shown before more is read.
#[test]
fn answers_are_shown_at_once(rt: HostRuntime) {
    assert!(rt; user_is_answered(rt.alloc()));
}

/// A fault, its number and its name.
struct Named(EngineFault, u8, &'static str);

impl Row for Named {
    fn is_right(&self, _: Global) -> bool {
        let fault = self.0;
        let mut text: ArrayVec<u8, 16> = ArrayVec::new();
        let _ = write!(text, "{fault}");
        fault.number() == self.1 && text.as_slice() == self.2.as_bytes()
    }
}

static FAULTS: [Named; 3] = [
    Named(EngineFault::Read, 1, "read"),
    Named(EngineFault::Write, 2, "write"),
    Named(EngineFault::Memory, 3, "memory"),
];

#[test]
fn names_of_faults(rt: HostRuntime) {
    assert!(rt; all_right(&FAULTS, rt.alloc()));
}
