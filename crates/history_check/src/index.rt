//! Where each submission stands among the records.
ghost use Rattle.std.specs.Prelude.{◌≡◌, ◌<◌, ◌++◌, ◌∷◌, [], length, set, get_or, None, IfOk, OnOk, IfErr};
ghost use Rattle.history_words.specs.Flaws.{first_at, numbering_at, Tells};
ghost use Rattle.history_words.specs.Lookup.{IsIndex, place_in};

use crate::NO_MEMORY;
use history_words::{AsClaim, Flaw, FlawKind, RecordHeader};
use std::alloc::{AllocError, Global};
use std::marker::Model;

/// The row of a requester in a table of 256.
pub(crate) fn row_of(requester: u8) -> usize
    ensures value { result ≡ requester }
    ensures row { result < 256 }
{
    usize::from(requester)
}

/// The places of each requester's submissions, by number.
#[derive(Drop)]
pub(crate) struct Index {
    rows: Vec<Vec<usize>>,
}

impl Model for Index {
    ghost use Rattle.std.specs.Prelude.{◌≡◌, ℕ, List, map, length};

    ghost Value = { List (List ℕ) };

    ghost view = { λ m. map (λ v. v.items) m.rows.items };

    ghost invariant = { λ m. length m.rows.items ≡ 256 };
}

impl Index {
    fn new(alloc: Global) -> Result<Self, AllocError>
        ensures { IfOk result (λ rows. IsIndex rows []) }
    {
        let mut rows = Vec::with_capacity(alloc, 256)?;
        for _ in 0..256usize {
            rows.push(Vec::new(alloc))?;
        }
        Ok(Index { rows })
    }

    /// How many submissions of the requester there are.
    fn count(&self, requester: u8) -> usize
        ensures value { result ≡ length (get_or self.now requester []) }
        ensures row { requester < 256 }
    {
        self.rows[usize::from(requester)].len()
    }

    /// Where the submission stands.
    pub(crate) fn place(&self, requester: u8, number: u32) -> Option<usize>
        ensures value { result ≡ place_in self.now requester number }
        ensures row { requester < 256 }
    {
        self.rows[usize::from(requester)]
            .get(number as usize)
            .copied()
    }

    fn add(&mut self, requester: u8, place: usize) -> Result<(), AllocError>
        ensures { OnOk result (self.new ≡ set self.old requester (get_or self.old requester [] ++ place ∷ [])) }
    {
        self.rows[usize::from(requester)].push(place)?;
        Ok(())
    }
}

/// The index of records whose numbers are in order.
pub(crate) fn index_of<C: AsClaim>(alloc: Global, claim: &C) -> Result<Index, Flaw>
    ensures index { IfOk result (λ rows. IsIndex rows (C.claim claim.now).records) }
    ensures ok { OnOk result (first_at (numbering_at (C.claim claim.now).records) (length (C.claim claim.now).records) ≡ None) }
    ensures err { IfErr result (Tells (first_at (numbering_at (C.claim claim.now).records) (length (C.claim claim.now).records))) }
{
    let Ok(mut index) = Index::new(alloc) else {
        return Err(NO_MEMORY);
    };
    for a in 0..claim.records() {
        match claim.header(a) {
            Some(
                RecordHeader::Sub {
                    requester,
                    number,
                    ..
                },
            ) => {
                if index.count(requester) != number as usize {
                    return Err(Flaw {
                        kind: FlawKind::Numbering,
                        place: a,
                    });
                }
                let Ok(()) = index.add(requester, a) else {
                    return Err(NO_MEMORY);
                };
            }
            Some(RecordHeader::Ans { .. }) => {}
            None => {}
        }
    }
    Ok(index)
}
