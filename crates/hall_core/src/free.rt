//! The words of a hall's parts, before any seat has a part and after the last.
//!
//! A part's word is 0 while the part is free, and else 1 plus the number of the seat that has it. The words stand
//! [`WORDS_APART`] places apart.
ghost use Rattle.std.specs.Prelude.{◌≡◌, ◌≢◌, ◌<◌, ◌≤◌, ℕ, replicate, IfOk, MatchOption};
ghost use Rattle.std.specs.Mem.Slots.{slots_items, slots_len, IsFull};
ghost use mathlib.Core.Option.{some};
ghost use lib.ListN.{get_elem?};
ghost use Rattle.hall_laws.specs.Standing.{word_of};

use atomic_table::Closed;
use hall_laws::part::PartValue;
use hall_laws::slots::WORDS_APART;
use std::alloc::{AllocError, Global};

/// So many words, none of which names a seat. Fails only for want of their memory.
pub fn free_words(count: usize, alloc: Global) -> Result<Vec<u64>, AllocError>
    ensures { IfOk result (λ v. v.items ≡ replicate count 0) }
{
    Vec::from_elem(alloc, 0u64, count)
}

/// The first of so many parts, 0 to 72, whose word isn't 0, with that word; None where all are free.
pub fn first_taken(closed: &Closed<Option<PartValue>, Global>, count: usize) -> Option<(usize, u64)>
    requires { IsFull closed.now.words × (slots_len closed.now.words ≡ word_of count) × (count ≤ 72) }
    ensures { MatchOption result ((k : ℕ) → k < count →
        get_elem? (slots_items closed.now.words) (word_of k) ≡ some 0) (λ f. (f.0 < count) × (f.1 ≢ 0) ×
        (get_elem? (slots_items closed.now.words) (word_of f.0) ≡ some f.1)) }
{
    for k in 0..count {
        let word = closed.word(WORDS_APART * k);
        if word != 0 {
            return Some((k, word));
        }
    }
    None
}
