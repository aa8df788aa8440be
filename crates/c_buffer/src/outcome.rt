//! What a call returns.
ghost use Rattle.std.specs.Prelude.{ℕ, ◌≡◌, ◌≤◌};
ghost use Rattle.c_buffer.specs.declared.outcome.TheConstants.{LINE_BUFFER};

use std::marker::Model;

/// The bytes of buffer that a line of text is asked for, whatever it has.
pub const LINE_BUFFER: usize = 512;

/// It holds the longest answer, and no byte more.
pub fn the_longest_answer_fills_a_line_buffer()
    ensures { LINE_BUFFER ≡ 512 }
{}

/// How many bytes an answer or the text of a fault has, 0 to 512.
#[derive(Clone, Copy)]
pub struct Length {
    bytes: u16,
}

impl Model for Length {
    ghost Value = { ℕ };

    ghost view = { λ l. l.bytes };

    ghost invariant = { λ l. l.bytes ≤ 512 };

    ghost inverse = { λ n. record { bytes = n } };
}

impl Length {
    /// Of nothing, as after a posted write.
    pub const ZERO: Length = Length { bytes: 0 };

    pub fn new(bytes: usize) -> Length
        requires { bytes ≤ 512 }
        ensures { result ≡ bytes }
    {
        Length {
            bytes: bytes as u16,
        }
    }

    pub fn value(self) -> u16
        ensures value { result ≡ self }
        ensures in_range { result ≤ 512 }
    {
        self.bytes
    }
}

/// Why a call fails.
#[derive(Clone, Copy)]
pub enum Failure {
    /// A fault of a packet, or of its place at a port, by its number.
    Fault(u8),
    /// A fault, a refusal or a flaw, whose text of that length stands at the front of the buffer.
    Text(Length),
    /// The buffer has fewer bytes than the answer, or than the call asks for.
    SmallBuffer,
    /// A block has neither 64 nor 128 bytes.
    WrongBlock,
    /// The packet is a completion, and a request is asked for.
    NoRequest,
    /// Memory was refused.
    NoMemory,
    /// The size of a memory is out of its range.
    WrongSize,
    /// The base address of a memory is none for its size.
    WrongBase,
    /// A history has no entry of that index.
    NoEntry,
    /// No fault has that number.
    NoFault,
    /// The line isn't one of the form that is asked for.
    NoLine,
    /// The packet is a request, and a completion is asked for.
    NoCompletion,
    /// The requester is none of 1 to 7.
    NoRequester,
    /// The granularity of a search is none of 4, 8, 16 and 64 bytes, and not 0 for whole requests.
    WrongGranularity,
}
