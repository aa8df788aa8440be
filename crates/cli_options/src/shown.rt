//! Words as people are shown them.
ghost use Rattle.std.specs.Prelude.{◌≡◌, take};

use std::fmt;

/// How many bytes are shown of a word.
const SHOWN: usize = 40;

/// Bytes of a word, those that aren't printable ASCII as `\xNN`.
#[derive(Clone, Copy, Debug)]
pub struct Shown<'a> {
    bytes: &'a [u8],
}

impl<'a> Shown<'a> {
    /// The first 40 of them.
    #[tactic(auto, using(crate::proofs::Takes::first_ones))]
    pub fn first(bytes: &'a [u8]) -> Shown<'a>
        ensures { result.bytes.now ≡ take 40 bytes.now }
    {
        Shown {
            bytes: &bytes[..SHOWN.min(bytes.len())],
        }
    }
}

/// A byte: as it is where it is printable ASCII, and else as `\xNN`.
fn show_byte<W: fmt::Write>(byte: u8, f: &mut fmt::Formatter<W>) -> fmt::Result {
    if byte.is_ascii_graphic() || byte == b' ' {
        let glyph = char::from(byte);
        write!(f, "{glyph}")
    } else {
        write!(f, "\\x{byte:02X}")
    }
}

impl fmt::Display for Shown<'_> {
    fn fmt<W: fmt::Write>(&self, f: &mut fmt::Formatter<W>) -> fmt::Result {
        for byte in self.bytes {
            show_byte(*byte, f)?;
        }
        Ok(())
    }
}
