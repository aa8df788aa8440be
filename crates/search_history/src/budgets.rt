//! What the searches behind an answer may do together. Nothing rests on it.
use search_run::Bounds;

/// How much work the searches for a shorter prefix do, and all others that tell the reasons. Together it is two seconds or
/// three.
const PREFIX: u64 = 6_000_000;

const REASONS: u64 = 14_000_000;

/// How much work it is to begin a search, for each record.
const RECORD: u64 = 4;

/// What searches may do: each looks at no more than `limit` choices, and all of them together do so much work.
#[derive(Clone, Copy)]
pub struct Budget {
    pub limit: u64,
    /// How much work is left.
    pub work: u64,
}

impl Budget {
    /// For prefixes that are shorter and have no history either.
    pub(crate) fn for_prefixes(limit: u64) -> Budget {
        Budget {
            limit,
            work: PREFIX,
        }
    }

    /// For all that tells why there is no history, or how far a search came that was given up.
    pub fn for_reasons(limit: u64) -> Budget {
        Budget {
            limit,
            work: REASONS,
        }
    }

    /// What one search may do.
    pub(crate) fn bounds(self) -> Bounds {
        Bounds {
            choices: self.limit,
            work: self.work,
        }
    }

    /// A half of its work, for searches that look at no more than so many choices each.
    pub fn half(self, limit: u64) -> Budget {
        Budget {
            limit: self.limit.min(limit),
            work: self.work / 2,
        }
    }

    /// So much is left of a half of it.
    pub fn end_half(&mut self, left: Budget) {
        let had = self.work / 2;
        self.work = self.work.saturating_sub(had.saturating_sub(left.work));
    }

    /// A search of so many records begins; false if no work is left for it.
    pub(crate) fn begin(&mut self, records: usize) -> bool {
        self.work = self
            .work
            .saturating_sub(RECORD.saturating_mul(records as u64));
        self.work > 0
    }
}
