//! The memory and its history.
ghost use Rattle.std.specs.Prelude.{◌≡◌, [], ◌∷◌, ◌++◌, length, replicate, is_some, IfOk, IfSome, OnOk, OnErr};
ghost use Rattle.seq_memory.specs.Limits.{IsSize, IsBase, IsBlock};
ghost use Rattle.seq_memory.specs.History.{bytes_of, extent_of};
ghost use Rattle.seq_memory.specs.Step.{refusal, answer, IsSizedFor};

use crate::history::{Keeper, Kept};
use crate::place::refusal_of;
use crate::step::perform;
use crate::{Entry, Extent, Refusal, Reply};
use std::alloc::{AllocError, Global};
use std::marker::Model;
use tlp_core::Op;

/// Bytes from a base address on, and the history of the requests that made them of zeros. `K` says how
/// the history is kept: a `Memory<Counted>` keeps its length alone.
#[derive(Drop)]
pub struct Memory<K: Keeper = Kept> {
    extent: Extent,
    bytes: Vec<u8>,
    past: K,
}

impl<K: Keeper> Model for Memory<K> {
    ghost use Rattle.std.specs.Prelude.{◌≡◌};
    ghost use Rattle.seq_memory.specs.History.{MemoryView, contents};

    ghost Value = { MemoryView };

    ghost view = { λ m. record { base = m.extent.base; size = m.extent.size; block = m.extent.block; entries = K.entries m.past } };

    ghost invariant = { λ m. m.bytes.items ≡ contents m.extent (K.entries m.past) };
}

fn zeros(alloc: Global, size: usize) -> Result<Vec<u8>, AllocError>
    ensures items { IfOk result (λ v. v.items ≡ replicate size 0) }
    ensures len { IfOk result (λ v. length v.items ≡ size) }
{
    vec![in alloc; 0u8; size]
}

impl Memory {
    /// A memory of zeros in that place, with an empty history.
    pub fn new(alloc: Global, extent: Extent) -> Result<Self, AllocError>
        ensures { IfOk result (λ m. m ≡ record { base = extent.base; size = extent.size; block = extent.block; entries = [] }) }
    {
        Memory::with_keeper(alloc, extent)
    }

    /// The history, oldest first.
    pub fn entries(&self) -> &[Entry]
        ensures { result.now ≡ self.now.entries }
    {
        self.past.as_slice()
    }
}

impl<K: Keeper> Memory<K> {
    /// As [`new`](Memory::new), of a memory whose history `K` keeps.
    pub fn with_keeper(alloc: Global, extent: Extent) -> Result<Self, AllocError>
        ensures { IfOk result (λ m. m ≡ record { base = extent.base; size = extent.size; block = extent.block; entries = [] }) }
    {
        let bytes = zeros(alloc, extent.size())?;
        Ok(Memory {
            extent,
            bytes,
            past: K::new(alloc),
        })
    }

    /// Does the entry's operation, if it is served, and adds the entry to the history, served or
    /// not. The only call that changes bytes; it fails only where the history can't grow.
    #[inline(always)]
    pub fn act(&mut self, entry: Entry) -> Result<Reply, AllocError>
        ensures entry { OnOk result (self.new ≡ record self.old { entries = self.old.entries ++ entry ∷ [] }) }
        ensures reply { IfOk result (λ r. r ≡ answer self.old.base self.old.block (bytes_of self.old) entry.op) }
        ensures size { IfOk result (λ r. IsSizedFor entry.op r) }
        ensures err { OnErr result (self.new ≡ self.old) }
    {
        self.past.add(&entry)?;
        let base = self.extent.base();
        let block = self.extent.block();
        Ok(perform(base, block, &mut self.bytes, &entry.op))
    }

    /// Why [`act`](Memory::act) would not serve the operation, none where it would; what it would
    /// reply is known by that but for the data of a read or an AtomicOp.
    pub fn refusal(&self, op: &Op) -> Option<Refusal>
        ensures value { result ≡ refusal self.now.base self.now.size self.now.block op.now }
        ensures size { length (bytes_of self.now) ≡ self.now.size }
    {
        refusal_of(
            self.extent.base(),
            self.extent.block(),
            self.extent.size(),
            op,
        )
    }

    /// How long the history is.
    pub fn count(&self) -> usize
        ensures { result ≡ length self.now.entries }
    {
        self.past.count()
    }

    /// The history, oldest first, where it is kept.
    pub fn list(&self) -> Option<&[Entry]>
        ensures kept { is_some result ≡ K.keeps }
        ensures entries { IfSome result (λ es. es.now ≡ self.now.entries) }
    {
        self.past.list()
    }

    /// The bytes as they are now, from the base address on.
    pub fn bytes(&self) -> &[u8]
        ensures value { result.now ≡ bytes_of self.now }
        ensures size { length result.now ≡ self.now.size }
        ensures range { IsSize self.now.size }
    {
        let _size = self.extent.size();
        &self.bytes
    }

    /// Where it lies, how large it is, and by which blocks accesses are served.
    pub fn extent(&self) -> Extent
        ensures { result ≡ extent_of self.now }
    {
        self.extent
    }

    /// How many bytes there are.
    pub fn size(&self) -> usize
        ensures value { result ≡ self.now.size }
        ensures range { IsSize result }
    {
        self.extent.size()
    }

    /// The first address.
    pub fn base(&self) -> u64
        ensures value { result ≡ self.now.base }
        ensures range { IsBase result self.now.size }
    {
        self.extent.base()
    }

    /// The bytes of a block, 64 or 128: an access across its bounds is aborted.
    pub fn block(&self) -> u16
        ensures value { result ≡ self.now.block }
        ensures range { IsBlock result }
    {
        self.extent.block()
    }
}
