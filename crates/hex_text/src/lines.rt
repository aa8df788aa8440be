//! What a line of a text is.
//!
//! A line feed ends a line, and the last line of a text may have none. Neither the line feed nor one
//! carriage return before it counts. A line has at most 512 bytes before its line feed. Empty lines
//! and lines that begin with `#` are skipped.
ghost use Rattle.std.specs.Prelude.{◌≡◌, length, nat_lt};
ghost use Rattle.std.specs.Io.BufRead.{strip_last};
ghost use Rattle.hex_text.specs.Lines.{is_skipped};

/// The most bytes that a line may have before its line feed: 512.
pub const MAX_LINE: usize = 512;

/// Whether a line, given without its line feed, has more bytes than a line may have.
#[inline(always)]
pub fn is_too_long(line: &[u8]) -> bool
    ensures { result ≡ nat_lt 512 (length line.now) }
{
    line.len() > MAX_LINE
}

/// The line without the carriage return at its end, if there is one.
#[inline(always)]
pub fn without_return(line: &[u8]) -> &[u8]
    ensures { result.now ≡ strip_last 13 line.now }
{
    match line {
        [front @ .., b'\r'] => front,
        _ => line,
    }
}

/// Whether the line says nothing: it is empty, or begins with `#`.
#[inline(always)]
pub fn is_skipped(line: &[u8]) -> bool
    ensures { result ≡ is_skipped line.now }
{
    line.is_empty() || line[0] == b'#'
}
