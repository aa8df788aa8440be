//! Streams that keep why they failed.
ghost use Rattle.std.specs.Prelude.{◌≡◌, None};

use std::io;
use std::io::{Read, Write};

/// A stream that may know why it failed.
pub trait Fallible {
    /// The error of the last call that failed, where it is kept.
    fn failure(&self) -> Option<&io::Error>;
}

/// Bytes in memory don't fail.
impl Fallible for &[u8] {
    fn failure(&self) -> Option<&io::Error> {
        None
    }
}

/// Bytes in memory fail for want of it alone, which needs no error to tell.
impl Fallible for Vec<u8> {
    fn failure(&self) -> Option<&io::Error> {
        None
    }
}

/// A stream that keeps the error of the last call that failed, and gives one of the same kind in its place.
#[derive(Drop)]
pub struct Noted<S> {
    pub stream: S,
    pub failure: Option<io::Error>,
}

impl<S> Noted<S> {
    /// The stream, of which no call has failed.
    pub fn new(stream: S) -> Noted<S>
        ensures stream { result.stream ≡ stream }
        ensures failure { result.failure ≡ None }
    {
        Noted {
            stream,
            failure: None,
        }
    }
}

impl<S> Noted<S> {
    /// Keeps an error, and gives one of its kind.
    fn keep(&mut self, error: io::Error) -> io::Error
        ensures stream { self.new.stream ≡ self.old.stream }
    {
        let kind = error.kind();
        self.failure = Some(error);
        kind.into()
    }
}

impl<S> Fallible for Noted<S> {
    fn failure(&self) -> Option<&io::Error> {
        self.failure.as_ref()
    }
}

impl<R: Read> Read for Noted<R> {
    ghost remaining = { λ noted. R.remaining noted.stream };

    fn read(&mut self, buf: &mut [u8]) -> io::Result<usize> {
        match self.stream.read(buf) {
            Ok(count) => Ok(count),
            Err(error) => Err(self.keep(error)),
        }
    }
}

impl<W: Write> Write for Noted<W> {
    ghost contents = { λ noted. W.contents noted.stream };

    fn write(&mut self, buf: &[u8]) -> io::Result<usize> {
        match self.stream.write(buf) {
            Ok(count) => Ok(count),
            Err(error) => Err(self.keep(error)),
        }
    }

    fn flush(&mut self) -> io::Result<()> {
        match self.stream.flush() {
            Ok(()) => Ok(()),
            Err(error) => Err(self.keep(error)),
        }
    }
}
