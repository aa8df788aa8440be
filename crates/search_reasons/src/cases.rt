//! A log of which a prefix has no history.
ghost use Rattle.std.specs.Prelude.{◌≡◌, MatchOption};
ghost use Rattle.search_reasons.specs.Lines.{IsFirstAbove};

use search_anomalies::Prefix;

/// A log of which a prefix has no history: as it was read, and as it was searched, which is the same or in pieces.
#[derive(Clone, Copy)]
pub struct Case<'a> {
    pub read: Prefix<'a>,
    pub searched: Prefix<'a>,
    /// If it was searched in pieces, how many pieces there are of the records up to each one.
    pub ends: Option<&'a [usize]>,
}

impl Case<'_> {
    /// The record that has what was searched at that place: the first one with more pieces up to it.
    pub fn record_with(self, place: usize) -> usize
        ensures { MatchOption self.entry.ends (result ≡ place) (λ ends. IsFirstAbove ends.now place result) }
    {
        let Some(ends) = self.ends else {
            return place;
        };
        for at in 0..ends.len() {
            if place < ends[at] {
                return at;
            }
        }
        ends.len()
    }
}
