//! A stream for people, in which words of the command line may stand.
ghost use Rattle.std.specs.Prelude.{None};

use cli_options::Shown;
use std::io;
use std::io::Write;

/// A stream to which each byte that is neither printable ASCII nor a line feed is written as `\xNN`.
#[derive(Drop)]
pub(crate) struct Plain<'a, W> {
    pub(crate) to: &'a mut W,
}

/// Whether the byte is written as it is.
fn is_plain(byte: u8) -> bool {
    byte == b'\n' || byte == b' ' || byte.is_ascii_graphic()
}

impl<W: Write> Write for Plain<'_, W> {
    ghost contents = { λ _. None };

    fn write(&mut self, buf: &[u8]) -> io::Result<usize> {
        match buf.iter().position(|byte| !is_plain(*byte)) {
            None => self.to.write(buf),
            Some(0) => {
                let shown = Shown::first(&buf[..1]);
                write!(self.to, "{shown}")?;
                Ok(1)
            }
            Some(count) => self.to.write(&buf[..count]),
        }
    }

    fn flush(&mut self) -> io::Result<()> {
        self.to.flush()
    }
}
