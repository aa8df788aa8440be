//! Writing a trace in the second version while it is read.
ghost use Rattle.std.specs.Prelude.{◌≡◌, ◌++◌, OnOk, OnErr, IfOk, IfErr, Some, Ok, Err, true};
ghost use Rattle.operation_text.specs.Words.{words, words_behind};
ghost use Rattle.record_text.specs.RecordReaderView.{adds};
ghost use Rattle.record_text.specs.Step.{step_by, step_told};
ghost use Rattle.trace_text.specs.Forms.{line_of, line_in, behind_numbers};
ghost use Rattle.trace_text.specs.TraceRewriterView.{rewrite_grammar};
ghost use Rattle.trace_text.specs.TraceRewriterView as writes;

use crate::form::{begins_with, expected, section_after};
use crate::line::{Line, ReadLine, Version, ans, any_line, ent, sub};
use crate::writing::write_behind;
use arrayvec::ArrayString;
use operation_text::{Expected, Misfit, own_digits_spell_number};
use record_text::{Cause, Form, ReadFault, RecordReader, Scratch, Section, Taken};
use std::alloc::{AllocError, Global};
use std::marker::Model;

/// The text in the second version of the lines so far.
#[derive(Drop)]
struct RewriteForm {
    version: Version,
    text: Vec<u8>,
    /// Room for a line: what it holds does not count.
    line: ArrayString<512>,
}

impl Model for RewriteForm {
    ghost use Rattle.trace_text.specs.TraceRewriterView.{RewriteFormView};

    ghost Value = { RewriteFormView };

    ghost view = { λ w. record { version = w.version; text = w.text.items } };
}

/// The version of the text after a line.
#[inline(always)]
fn version_after(version: Version, line: &Line<'_>) -> Version
    ensures { result ≡ writes.version_after version line.now }
{
    match line {
        Line::FirstLine(version) => *version,
        _ => version,
    }
}

/// Adds both to the text, or nothing.
#[inline(always)]
fn put_both(text: &mut Vec<u8>, front: &[u8], rest: &[u8]) -> Result<(), AllocError>
    ensures ok { OnOk result (text.new.items ≡ text.old.items ++ (front.now ++ rest.now)) }
    ensures err { OnErr result (text.new.items ≡ text.old.items) }
{
    let before = text.len();
    text.extend_from_slice(front)?;
    if text.extend_from_slice(rest).is_err() {
        text.truncate(before);
        return Err(AllocError);
    }
    Ok(())
}

impl RewriteForm {
    /// Writes a line that was read: what its text has in front of its operation or its reply as it is, the rest anew.
    #[inline(always)]
    fn write(
        &mut self,
        line: Line<'_>,
        text: &[u8],
        behind: Option<&[u8]>,
    ) -> Result<(), AllocError>
        requires spelled { line_of self.old.version (words text.now) ≡ Some line }
        requires behind { words_behind behind ≡ behind_numbers line (words text.now) }
        ensures ok { OnOk result (self.new ≡ writes.written self.old line.entry) }
        ensures err { OnErr result (self.new ≡ self.old) }
    {
        own_digits_spell_number();
        let front = match behind {
            Some(behind) => &text[..text.len() - behind.len()],
            None => &[],
        };
        let version = version_after(self.version, &line);
        self.line.clear();
        write_behind(line, &mut self.line);
        put_both(&mut self.text, front, self.line.as_bytes())?;
        self.version = version;
        Ok(())
    }

    /// Takes a line, if one was read from the text and is due in the section.
    #[inline(always)]
    fn keep(
        &mut self,
        section: Section,
        read: Result<ReadLine<'_, '_>, Misfit>,
        text: &[u8],
        misfit: &mut Option<Misfit>,
    ) -> Result<Taken, AllocError>
        requires spelled { IfOk read (λ s. line_of self.old.version (words text.now) ≡ Some s.line) }
        requires behind { IfOk read (λ s. words_behind s.behind ≡ behind_numbers s.line (words text.now)) }
        ensures ok { IfOk result (λ t. step_told t self.new ≡ step_by rewrite_grammar section self.old (line_in read.entry)) }
        ensures err { OnErr result (self.new ≡ self.old) }
        ensures adds { OnErr result (adds rewrite_grammar section (line_in read.entry) ≡ true) }
    {
        let ReadLine { line, behind } = match read {
            Ok(read) => read,
            Err(left) => {
                *misfit = Some(left);
                return Ok(Taken::Misfit);
            }
        };
        let Some(after) = section_after(section, &line) else {
            return Ok(Taken::NotDue);
        };
        self.write(line, text, behind)?;
        Ok(Taken::Kept(after))
    }
}

impl Form for RewriteForm {
    ghost use Rattle.trace_text.specs.declared.line.Line.{Line};
    ghost use Rattle.trace_text.specs.TraceRewriterView.{rewrite_grammar};

    ghost Line = { Line };

    ghost grammar = { rewrite_grammar };

    // What the most frequent lines say is written where it is read, and not moved.
    #[inline(always)]
    fn take(
        &mut self,
        section: Section,
        text: &[u8],
        scratch: &mut Scratch,
    ) -> Result<Taken, AllocError> {
        let Scratch { bytes, misfit } = scratch;
        match text {
            [b's', b'u', b'b', b' ', rest @ ..] => {
                self.keep(section, sub(Some(rest), bytes), text, misfit)
            }
            [b'a', b'n', b's', b' ', rest @ ..] => {
                self.keep(section, ans(Some(rest), bytes), text, misfit)
            }
            [b'e', b'n', b't', b' ', rest @ ..] => {
                self.keep(section, ent(Some(rest), bytes), text, misfit)
            }
            _ => self.keep(section, any_line(text, self.version, bytes), text, misfit),
        }
    }

    fn expected(section: Section) -> Expected {
        expected(section)
    }

    fn begins_with(section: Section, word: &[u8]) -> bool {
        begins_with(section, word)
    }
}

/// A trace and a history that are written in the second version while their text is read: the text
/// alone is kept.
#[derive(Drop)]
pub struct TraceRewriter {
    reader: RecordReader<RewriteForm>,
}

impl Model for TraceRewriter {
    ghost use Rattle.trace_text.specs.TraceRewriterView.{TraceRewriterView};

    ghost Value = { TraceRewriterView };

    ghost view = { λ w. w.reader };
}

impl TraceRewriter {
    /// Nothing was read.
    pub fn new(alloc: Global) -> TraceRewriter
        ensures { result ≡ writes.nothing_rewritten }
    {
        TraceRewriter {
            reader: RecordReader::new(RewriteForm {
                version: Version::One,
                text: Vec::new(alloc),
                line: ArrayString::new(),
            }),
        }
    }

    /// The first fault of the lines so far.
    pub fn fault(&self) -> Option<ReadFault>
        ensures { result ≡ self.now.fault }
    {
        self.reader.fault()
    }

    /// What is wrong at the fault, for people; or if there is none, that the text ends here.
    pub fn cause(&self) -> Cause {
        self.reader.cause()
    }

    /// Takes a line, without the line feed and the carriage return that end it. Behind a fault
    /// nothing is read. `Err` tells that an allocation failed, for a line that is due behind no fault;
    /// nothing was taken then.
    pub fn line(&mut self, line: &[u8]) -> Result<(), AllocError>
        ensures ok { OnOk result (self.new ≡ writes.after_line self.old line.now) }
        ensures err { OnErr result (self.new ≡ self.old) }
        ensures adds { OnErr result (writes.adds_one self.old line.now ≡ true) }
    {
        self.reader.line(line)
    }

    /// Takes a line of more bytes than a line may have: 512 before its line feed.
    pub fn long_line(&mut self)
        ensures { self.new ≡ writes.after_long_line self.old }
    {
        self.reader.long_line();
    }

    /// The text in the second version, or the first fault.
    pub fn end(self) -> Result<Vec<u8>, ReadFault>
        ensures ok { IfOk result (λ text. writes.text_at_end self ≡ Ok text.items) }
        ensures err { IfErr result (λ f. writes.text_at_end self ≡ Err f) }
    {
        match self.reader.end() {
            Ok(form) => Ok(form.text),
            Err(fault) => Err(fault),
        }
    }
}
