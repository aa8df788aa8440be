//! The options of a search.
ghost use Rattle.std.specs.Prelude.{◌≡◌, false};
ghost use Rattle.log_pieces.specs.declared.Granularity.TheVariants.{Whole};
ghost use Rattle.search_engine.specs.Bounded.{bounds_of};
ghost use Rattle.search_engine.specs.declared.stages.Stages.TheVariants.{Hidden};

use crate::stages::Stages;
use log_pieces::Granularity;
use search_history::Bounds;

/// The most work that is done where nobody says how much: about half a minute of one processor.
pub const DEFAULT_WORK: u64 = 300_000_000;

/// What a search is asked for.
#[derive(Clone, Copy)]
pub struct SearchOptions {
    /// The most choices that are looked at.
    pub limit: u64,
    /// How many bytes of a read or a write act at once.
    pub granularity: Granularity,
    /// Whether it is told how far the search is.
    pub stages: Stages,
}

/// A search, its bounds, and what is written where there is no history.
#[derive(Clone, Copy)]
pub struct SearchDemand {
    pub options: SearchOptions,
    /// The most work that is done: about as many steps, or requests that are looked at for one.
    pub work: u64,
    /// Whether a log of few answers that has no history is written in place of `none`, if it is found.
    pub has_core: bool,
}

impl SearchDemand {
    /// What the search may do.
    pub(crate) fn bounds(self) -> Bounds
        ensures { result ≡ bounds_of self }
    {
        Bounds {
            choices: self.options.limit,
            work: self.work,
        }
    }
}

impl SearchOptions {
    /// This search, which does so much work at most, and `none` where there is no history.
    pub(crate) fn within(self, work: u64) -> SearchDemand
        ensures { result ≡ record { options = self; work = work; has_core = false } }
    {
        SearchDemand {
            options: self,
            work,
            has_core: false,
        }
    }

    /// This search, which only its choices bound, and `none` where there is no history.
    pub(crate) fn plain(self) -> SearchDemand
        ensures { result ≡ record { options = self; work = 18446744073709551615; has_core = false } }
    {
        self.within(u64::MAX)
    }

    /// A search in which each request acts as a whole, and of which it isn't told how far it is.
    pub(crate) fn of_whole_requests(limit: u64) -> SearchOptions
        ensures { result ≡ record { limit = limit; granularity = Whole; stages = Hidden } }
    {
        SearchOptions {
            limit,
            granularity: Granularity::Whole,
            stages: Stages::Hidden,
        }
    }
}
