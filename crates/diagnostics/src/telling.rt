//! The line that tells a reason.
ghost use Rattle.std.specs.Prelude.{◌≡◌, ◌≤◌, ◌==◌, ◌++◌, codes, length, IfErr, OnOk, OnErr};
ghost use Rattle.std.specs.List.{list_any};
ghost use Rattle.std.specs.Fmt.{decimal};
ghost use Rattle.arrayvec.specs.ArrayString.{array_string_len};
ghost use Rattle.diagnostics.specs.Told.{IsReason, IsReasonToldAt, IsReasonBegunAt, IsPartTold, IsPartBegun, beginning_of, part_line, reason_line};

use crate::shown::shown_byte;
use arrayvec::{ArrayString, ArrayVec};
use line_loop::{EngineFault, write_out};
use operation_text::{Expected, Misfit, split_word, write_decimal};
use std::fmt::Write;
use std::{fmt, io};

/// The most bytes of a reason, without the line that it lies on.
const ROOM: usize = 1024;

/// How many bytes are shown of a word.
const SHOWN: usize = 40;

/// Bytes of a text, those that aren't printable ASCII as `\xNN`.
#[derive(Clone, Copy)]
pub(crate) struct Shown<'a>(pub &'a [u8]);

impl<'a> Shown<'a> {
    /// The first 40 of them.
    pub(crate) fn first(bytes: &'a [u8]) -> Shown<'a> {
        Shown(&bytes[..bytes.len().min(SHOWN)])
    }
}

impl fmt::Display for Shown<'_> {
    fn fmt<W: fmt::Write>(&self, f: &mut fmt::Formatter<W>) -> fmt::Result {
        for byte in self.0 {
            f.write_str(shown_byte(*byte).as_str())?;
        }
        Ok(())
    }
}

/// What is wrong, in at most 1024 bytes: what has no room is left out.
#[derive(Drop)]
pub struct Reason {
    text: ArrayString<ROOM>,
}

/// The beginning of a reason's line: the number of the line of the text at which it lies.
fn beginning(line: u64) -> ArrayString<512>
    ensures text { result.bytes ≡ codes "pciex: line " ++ decimal line }
    ensures len { array_string_len result ≤ 32 }
{
    let mut text = ArrayString::new();
    text.push_str("pciex: line ");
    write_decimal(line, &mut text);
    text
}

/// A record of a text, or an entry of its history, by its number, from 0.
#[derive(Clone, Copy, Debug)]
pub enum Part {
    /// A line `sub` or `ans`.
    Record(usize),
    /// A line `ent`.
    Entry(usize),
}

/// The beginning of a reason's line that says of a part which line of the text it is.
fn part_beginning(part: Part, line: u64) -> ArrayString<512>
    ensures text { result.bytes ≡ beginning_of part line }
    ensures len { array_string_len result ≤ 64 }
{
    let mut text = ArrayString::new();
    match part {
        Part::Record(number) => {
            text.push_str("pciex: record ");
            write_decimal(number as u64, &mut text);
        }
        Part::Entry(number) => {
            text.push_str("pciex: entry ");
            write_decimal(number as u64, &mut text);
        }
    }
    text.push_str(" is line ");
    write_decimal(line, &mut text);
    text
}

/// What is told of a reason that has more than one line, or says nothing.
const REFUSED: &[u8] = b": it is refused";

fn has_line_feed(text: &[u8]) -> bool
    ensures { result ≡ list_any (λ b. b == 10) text.now }
{
    text.contains(&b'\n')
}

/// The words with which a text of each kind begins, and what reads it.
static BEGINNINGS: [(&str, &str); 3] = [
    ("fabric", "a script, which 'pciex step' reads"),
    ("pciex-log", "a log, which 'pciex search' reads"),
    (
        "pciex-trace",
        "a trace, which 'pciex check', 'draw' and 'search' read",
    ),
];

/// What begins with this word, and what reads it, where the beginning of a text of another kind is expected.
fn text_begun(word: &[u8], expected: Expected) -> Option<&'static str> {
    let Expected::Of(name, values) = expected else {
        return None;
    };
    if name != "the head" && name != "a fabric" {
        return None;
    }
    for (beginning, text) in &BEGINNINGS {
        if word == beginning.as_bytes() && !values.contains(*beginning) {
            return Some(*text);
        }
    }
    None
}

/// The line of a reason.
pub(crate) fn line_of(number: u64, why: &[u8]) -> ArrayVec<u8, 1057>
    requires { length why.now ≤ 1024 }
    ensures { result.items ≡ reason_line number why.now }
{
    let mut line = ArrayVec::new();
    let _ = line.try_extend_from_slice(beginning(number).as_bytes());
    let _ = line.try_extend_from_slice(why);
    line.push(b'\n');
    line
}

/// The line of a reason that lies on a part of the text.
fn line_of_part(part: Part, number: u64, why: &[u8]) -> ArrayVec<u8, 1089>
    requires { length why.now ≤ 1024 }
    ensures { result.items ≡ part_line part number why.now }
{
    let mut line = ArrayVec::new();
    let _ = line.try_extend_from_slice(part_beginning(part, number).as_bytes());
    let _ = line.try_extend_from_slice(why);
    line.push(b'\n');
    line
}

impl Reason {
    /// Nothing so far.
    pub fn new() -> Reason {
        Reason {
            text: ArrayString::new(),
        }
    }

    /// What stands where something else is expected, by its column, from 1. Of two spaces the second one
    /// stands there.
    pub fn of_misfit(line: &[u8], misfit: &Misfit) -> Reason {
        let mut reason = Reason::new();
        let left = misfit.left.unwrap_or(0).min(line.len());
        let rest = &line[line.len() - left..];
        let column = (line.len() - left).saturating_add(1);
        reason.put(format_args!(", column {column}: "));
        if rest.is_empty() {
            reason.put("the line ends");
        } else {
            reason.put_word(split_word(rest).0);
        }
        reason.put_expected_of(split_word(rest).0, misfit.expected);
        if column == 1
            && let Some(text) = text_begun(split_word(rest).0, misfit.expected)
        {
            reason.put(format_args!("; so begins {text}"));
        }
        reason
    }

    /// Adds a word in quotes, a space for an empty one.
    fn put_word(&mut self, word: &[u8]) {
        if word.is_empty() {
            self.put("' '");
        } else {
            let word = Shown::first(word);
            self.put(format_args!("'{word}'"));
        }
    }

    /// Adds what is expected where that word stands.
    fn put_expected_of(&mut self, word: &[u8], expected: Expected) {
        match expected {
            Expected::Of(name @ "a reply", values) if word == b"done".as_slice() => {
                self.put(format_args!(
                    " where {name} is expected ({values}; done needs pciex-log 2)"
                ));
            }
            _ => self.put_expected(expected),
        }
    }

    /// Adds what is expected, and which values it has.
    pub fn put_expected(&mut self, expected: Expected) {
        match expected {
            Expected::Named(name) => self.put(format_args!(" where {name} is expected")),
            Expected::Of(name, values) => {
                self.put(format_args!(" where {name} is expected ({values})"));
            }
            Expected::Between(name, least, most) => {
                self.put(format_args!(" where {name} is expected ({least} to {most})"));
            }
            Expected::Multiple(name, least, most, unit) => {
                self.put(format_args!(
                    " where {name} is expected ({least} to {most}, a multiple of {unit})"
                ));
            }
        }
    }

    /// Adds to the reason.
    pub fn put<D: fmt::Display + Drop>(&mut self, part: D) {
        let _ = write!(self.text, "{part}");
    }

    /// What is told: the text, if it is one line that says something.
    pub(crate) fn said(&self) -> &[u8]
        ensures reason { IsReason result.now }
        ensures len { length result.now ≤ 1024 }
    {
        let text = self.text.as_bytes();
        if text.is_empty() || has_line_feed(text) {
            REFUSED
        } else {
            text
        }
    }

    /// Writes the line of a reason that lies on the line of this number. After an `Err` a prefix of it
    /// was written.
    pub fn tell_at<E: io::Write>(&self, number: u64, errors: &mut E) -> Result<(), EngineFault>
        ensures ok { OnOk result (IsReasonToldAt number (E.contents errors.old) (E.contents errors.new)) }
        ensures fault { IfErr result (λ f. f ≡ EngineFault.Write) }
        ensures part { OnErr result (IsReasonBegunAt number (E.contents errors.old) (E.contents errors.new)) }
    {
        let line = line_of(number, self.said());
        write_out(errors, line.as_slice())
    }

    /// Writes the line of a reason that lies on a record or an entry, which is the line of this number. After an `Err` a
    /// prefix of it was written.
    pub fn tell_of<E: io::Write>(
        &self,
        part: Part,
        number: u64,
        errors: &mut E,
    ) -> Result<(), EngineFault>
        ensures ok { OnOk result (IsPartTold part number (E.contents errors.old) (E.contents errors.new)) }
        ensures fault { IfErr result (λ f. f ≡ EngineFault.Write) }
        ensures part { OnErr result (IsPartBegun part number (E.contents errors.old) (E.contents errors.new)) }
    {
        let line = line_of_part(part, number, self.said());
        write_out(errors, line.as_slice())
    }
}
