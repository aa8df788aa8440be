//! What keeps a line from being read.
use seq_memory::{LARGE_BLOCK, MAX_SIZE, MIN_SIZE};

/// What is expected next in a line, by its name.
#[derive(Clone, Copy, PartialEq)]
pub enum Expected {
    /// The name says it all.
    Named(&'static str),
    /// One of these values.
    Of(&'static str, &'static str),
    /// A number from the first to the last.
    Between(&'static str, u64, u64),
    /// A multiple of the last number, from the first to the second.
    Multiple(&'static str, u64, u64, u64),
}

/// No more words.
pub const LINE_END: Expected = Expected::Named("the line's end");

/// A byte string.
pub const BYTES: Expected = Expected::Of(
    "a byte string",
    "two hexadecimal digits a byte, 1 to 128 bytes",
);

/// The first address of a memory.
pub const BASE: Expected = Expected::Of(
    "a base",
    "hexadecimal, a multiple of 80h; the memory ends at 2^64 or below",
);

/// The bytes of a memory.
pub const SIZE: Expected = Expected::Multiple(
    "a size",
    MIN_SIZE as u64,
    MAX_SIZE as u64,
    LARGE_BLOCK as u64,
);

/// The bytes of a block.
pub const BLOCK: Expected = Expected::Of("a block", "64, 128");

/// The first word of a line that doesn't fit, or the line's end, and what is expected there.
#[derive(Clone, Copy, PartialEq)]
pub struct Misfit {
    pub expected: Expected,
    /// The bytes of the line from the misfit on, none where the line has ended.
    pub left: Option<usize>,
}

impl Expected {
    /// That it doesn't come next. `rest` is what [`split_word`](crate::split_word) left.
    #[inline(always)]
    pub fn at(self, rest: Option<&[u8]>) -> Misfit {
        let left = match rest {
            Some(rest) => Some(rest.len()),
            None => None,
        };
        Misfit {
            expected: self,
            left,
        }
    }

    /// That more comes where the line might end: of a space at its end that space.
    #[inline(always)]
    pub fn before(self, rest: Option<&[u8]>) -> Misfit {
        match rest {
            Some([]) => Misfit {
                expected: self,
                left: Some(1),
            },
            _ => self.at(rest),
        }
    }
}
