//! Where a memory can lie, and how large it can be.
ghost use Rattle.std.specs.Prelude.{◌≡◌, ◌↔◌, IsTrue};
ghost use Rattle.seq_memory.specs.Limits.{IsSize, IsBase, IsBlock};
ghost use Rattle.seq_memory.specs.Limits as limits;

/// The small block by which accesses can be served, in bytes.
pub const SMALL_BLOCK: u16 = 64;

/// The large block by which accesses can be served, in bytes. Base and size are multiples of it.
pub const LARGE_BLOCK: u16 = 128;

/// The least size of a memory, in bytes.
pub const MIN_SIZE: usize = 128;

/// The greatest size of a memory, in bytes.
pub const MAX_SIZE: usize = 1_048_576;

/// Whether a memory can have so many bytes: [`MIN_SIZE`] to [`MAX_SIZE`], a multiple of
/// [`LARGE_BLOCK`].
pub fn is_size(size: usize) -> bool
    ensures limits { IsTrue result ↔ IsSize size }
    ensures test { result ≡ limits.is_size size }
{
    MIN_SIZE <= size && size <= MAX_SIZE && size % usize::from(LARGE_BLOCK) == 0
}

/// Whether a memory of `size` bytes can begin at `base`: a multiple of [`LARGE_BLOCK`] from which on
/// so many addresses are below 2^64.
pub fn is_base(base: u64, size: usize) -> bool
    ensures limits { IsTrue result ↔ IsBase base size }
    ensures test { result ≡ limits.is_base base size }
{
    base % u64::from(LARGE_BLOCK) == 0 && u128::from(base) + size as u128 <= 1 << 64
}

/// Whether accesses can be served by blocks of so many bytes: [`SMALL_BLOCK`] or [`LARGE_BLOCK`].
pub fn is_block(block: u16) -> bool
    ensures limits { IsTrue result ↔ IsBlock block }
    ensures test { result ≡ limits.is_block block }
{
    block == SMALL_BLOCK || block == LARGE_BLOCK
}
