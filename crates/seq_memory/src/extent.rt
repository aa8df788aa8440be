//! Where a memory lies, how large it is, and by which blocks it is served.
ghost use Rattle.std.specs.Prelude.{◌≡◌, ◌↔◌, IsSome, IfSome, is_some};
ghost use Rattle.seq_memory.specs.Limits.{IsSize, IsBase, IsBlock, IsWithinLimits, is_within_limits};

use crate::limits::{is_base, is_block, is_size};
use std::marker::Model;

/// `size` bytes from the address `base` on, to which accesses are served by blocks of `block` bytes.
/// All three are within the limits of a memory.
#[derive(Clone, Copy)]
pub struct Extent {
    base: u64,
    size: usize,
    block: u16,
}

impl Model for Extent {
    ghost use Rattle.seq_memory.specs.Limits as limits;

    ghost Value = { limits.Extent };

    ghost view = { λ x. record { base = x.base; size = x.size; block = x.block } };

    ghost invariant = { λ x. limits.IsWithinLimits (record { base = x.base; size = x.size; block = x.block }) };

    ghost inverse = { λ x. record { base = x.base; size = x.size; block = x.block } };
}

impl Extent {
    /// The extent of these three, if a memory can have it: [`is_size`](crate::is_size),
    /// [`is_base`](crate::is_base) and [`is_block`](crate::is_block) say which of them is wrong.
    pub fn new(base: u64, size: usize, block: u16) -> Option<Extent>
        ensures value { IfSome result (λ x. x ≡ record { base = base; size = size; block = block }) }
        ensures limits { IsSome result ↔ IsWithinLimits (record { base = base; size = size; block = block }) }
        ensures test { is_some result ≡ is_within_limits (record { base = base; size = size; block = block }) }
    {
        if is_size(size) && is_base(base, size) && is_block(block) {
            Some(Extent { base, size, block })
        } else {
            None
        }
    }

    /// The first address.
    pub fn base(self) -> u64
        ensures value { result ≡ self.base }
        ensures range { IsBase result self.size }
    {
        self.base
    }

    /// How many bytes there are.
    pub fn size(self) -> usize
        ensures value { result ≡ self.size }
        ensures range { IsSize result }
    {
        self.size
    }

    /// The bytes of a block, 64 or 128: an access across its bounds is aborted.
    pub fn block(self) -> u16
        ensures value { result ≡ self.block }
        ensures range { IsBlock result }
    {
        self.block
    }
}
