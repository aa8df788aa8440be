//! Where the history of a memory is kept: as a list, or as its length alone.
ghost use Rattle.std.specs.Prelude.{◌≡◌, Bool, true, false, List, [], ◌∷◌, ◌++◌, length, is_some, IfSome, OnOk, OnErr};
ghost use Rattle.seq_memory.specs.Entries.{Entry};

use crate::Entry;
use ghost_list::GhostList;
use std::alloc::{AllocError, Global};

/// What a memory keeps of its history.
pub trait Keeper: Drop {
    // whether it keeps the entries
    ghost keeps: { Bool };

    // the history, oldest first
    ghost entries: { Self → List Entry };

    /// No entry yet.
    fn new(alloc: Global) -> Self
        ensures { entries result ≡ [] };

    /// One more entry; it fails only where there is no room for it.
    fn add(&mut self, entry: &Entry) -> Result<(), AllocError>
        ensures ok { OnOk result (entries self.new ≡ entries self.old ++ entry.now ∷ []) }
        ensures err { OnErr result (entries self.new ≡ entries self.old) };

    /// How many entries there are.
    fn count(&self) -> usize
        ensures { result ≡ length (entries self.now) };

    /// The entries, oldest first, where they are kept.
    fn list(&self) -> Option<&[Entry]>
        ensures kept { is_some result ≡ keeps }
        ensures entries { IfSome result (λ es. es.now ≡ entries self.now) };
}

/// Keeps each entry.
#[derive(Drop)]
pub struct Kept {
    entries: Vec<Entry>,
}

impl Kept {
    /// The entries, oldest first.
    #[inline(always)]
    pub(crate) fn as_slice(&self) -> &[Entry]
        ensures { result.now ≡ ⟦<Kept as Keeper>⟧.entries self.now }
    {
        &self.entries
    }
}

impl Keeper for Kept {
    ghost keeps = { true };

    ghost entries = { λ k. k.entries.items };

    fn new(alloc: Global) -> Kept {
        Kept {
            entries: Vec::new(alloc),
        }
    }

    #[inline(always)]
    fn add(&mut self, entry: &Entry) -> Result<(), AllocError> {
        let entry = entry.lend().to_owned();
        match self.entries.push(entry) {
            Ok(()) => Ok(()),
            Err(_) => Err(AllocError),
        }
    }

    #[inline(always)]
    fn count(&self) -> usize {
        self.entries.len()
    }

    fn list(&self) -> Option<&[Entry]> {
        Some(&self.entries)
    }
}

/// Keeps their number. The list is for proofs alone, and takes no memory.
#[derive(Drop)]
pub struct Counted {
    count: usize,
    past: GhostList<Entry>,
    ghost counted: { count ≡ length past.items },
}

impl Keeper for Counted {
    ghost keeps = { false };

    ghost entries = { λ k. k.past.items };

    fn new(_alloc: Global) -> Counted {
        Counted {
            count: 0,
            past: GhostList::new(),
        }
    }

    #[inline(always)]
    fn add(&mut self, entry: &Entry) -> Result<(), AllocError> {
        if self.count == usize::MAX {
            return Err(AllocError);
        }
        let past = self.past.and(entry);
        let count = self.count + 1;
        *self = Counted { count, past };
        Ok(())
    }

    #[inline(always)]
    fn count(&self) -> usize {
        self.count
    }

    fn list(&self) -> Option<&[Entry]> {
        None
    }
}
