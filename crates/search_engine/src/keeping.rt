//! What is kept of the lines of an input.
ghost use Rattle.std.specs.Prelude.{◌≡◌, ◌++◌, List, ℕ, [], take, IfOk, OnOk};
ghost use Rattle.search_engine.specs.Kept.{AreKept, KeepsUpTo, kept_of, ended};

use arrayvec::ArrayVec;
use hex_text::{MAX_LINE, is_skipped, is_too_long, without_return};
use memchr::{memchr, memrchr};
use std::alloc::{AllocError, Global};

/// How many bytes of a line tell that it is too long.
const KEPT: usize = MAX_LINE + 1;

/// The least that is kept of a line that a line feed ended, given without it: of one that is too long as much as tells that, of
/// one that is skipped nothing.
fn kept_of(line: &[u8]) -> &[u8]
    ensures { result.now ≡ kept_of line.now }
{
    if is_too_long(line) {
        &line[..KEPT]
    } else if is_skipped(without_return(line)) {
        &line[..0]
    } else {
        line
    }
}

/// Adds the least that is kept of a line that a line feed ended, given without it.
fn put_line(text: &mut Vec<u8>, line: &[u8]) -> Result<(), AllocError>
    ensures { OnOk result (text.new.items ≡ text.old.items ++ ended (kept_of line.now)) }
{
    text.extend_from_slice(kept_of(line))?;
    text.push(b'\n')?;
    Ok(())
}

/// What is kept of an input, as far as it was read.
#[derive(Drop)]
pub(crate) struct KeptText {
    /// Of the lines that have ended.
    text: Vec<u8>,
    /// Of the line that goes on.
    line: ArrayVec<u8, 513>,
}

impl KeptText {
    /// Nothing was read.
    pub(crate) fn new(alloc: Global) -> KeptText
        ensures { KeepsUpTo [] result.text.items result.line.items }
    {
        KeptText {
            text: Vec::new(alloc),
            line: ArrayVec::new(),
        }
    }

    /// Keeps more of the line that goes on, as much as there is room for.
    fn keep(&mut self, bytes: &[u8])
        ensures line { self.new.line.items ≡ take 513 (self.old.line.items ++ bytes.now) }
        ensures text { self.new.text.items ≡ self.old.text.items }
    {
        let room = KEPT - self.line.len();
        let _ = self
            .line
            .try_extend_from_slice(&bytes[..bytes.len().min(room)]);
    }

    /// Keeps the line that ends in these bytes, and begins a new one.
    fn end_line(&mut self, tail: &[u8]) -> Result<(), AllocError>
        ensures text { OnOk result (self.new.text.items ≡ self.old.text.items ++ ended (kept_of (self.old.line.items ++ tail.now))) }
        ensures line { OnOk result (self.new.line.items ≡ []) }
    {
        if self.line.is_empty() {
            return put_line(&mut self.text, tail);
        }
        self.keep(tail);
        put_line(&mut self.text, self.line.as_slice())?;
        self.line.clear();
        Ok(())
    }

    /// Takes more of the input, a line at a time.
    fn take_lines(&mut self, bytes: &[u8]) -> Result<(), AllocError>
        ensures { OnOk result ((read : List ℕ) → KeepsUpTo read self.old.text.items self.old.line.items
            → KeepsUpTo (read ++ bytes.now) self.new.text.items self.new.line.items) }
    {
        let mut rest = bytes;
        while let Some(end) = memchr(b'\n', rest) {
            self.end_line(&rest[..end])?;
            rest = &rest[end + 1..];
        }
        self.keep(rest);
        Ok(())
    }

    /// Takes more of the input, where no line goes on: the lines that end in it are kept whole.
    fn take_whole(&mut self, bytes: &[u8]) -> Result<(), AllocError>
        ensures { OnOk result ((read : List ℕ) → self.old.line.items ≡ [] → KeepsUpTo read self.old.text.items self.old.line.items
            → KeepsUpTo (read ++ bytes.now) self.new.text.items self.new.line.items) }
    {
        let Some(end) = memrchr(b'\n', bytes) else {
            self.keep(bytes);
            return Ok(());
        };
        self.text.extend_from_slice(&bytes[..end + 1])?;
        self.keep(&bytes[end + 1..]);
        Ok(())
    }

    /// Takes more of the input. Where it has no `#` no comment begins in it: then the lines that begin and end in it are kept
    /// whole, so that no work is done for each.
    pub(crate) fn take(&mut self, bytes: &[u8]) -> Result<(), AllocError>
        ensures { OnOk result ((read : List ℕ) → KeepsUpTo read self.old.text.items self.old.line.items
            → KeepsUpTo (read ++ bytes.now) self.new.text.items self.new.line.items) }
    {
        if memchr(b'#', bytes).is_some() {
            return self.take_lines(bytes);
        }
        let Some(end) = memchr(b'\n', bytes) else {
            self.keep(bytes);
            return Ok(());
        };
        self.end_line(&bytes[..end])?;
        self.take_whole(&bytes[end + 1..])
    }

    /// All that is kept of the input, which has ended.
    pub(crate) fn end(self) -> Result<Vec<u8>, AllocError>
        ensures { IfOk result (λ text. (read : List ℕ) → KeepsUpTo read self.text.items self.line.items → AreKept read text.items) }
    {
        let KeptText { mut text, line } = self;
        text.extend_from_slice(line.as_slice())?;
        Ok(text)
    }
}
