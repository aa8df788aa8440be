//! How far a search is, seen while it goes on.
use log_runs::Log;
use search_places::Place;

/// How far a search is, at a choice.
#[derive(Clone, Copy)]
pub struct Spot {
    /// How many events of the log were passed.
    pub event: usize,
    /// How many requests were submitted and haven't acted.
    pub open: usize,
    /// The addresses where the cells begin and end that are searched alone, if some are.
    pub range: Option<(u64, u64)>,
    /// How much work is left.
    pub work: u64,
}

/// Sees how far a search is.
pub trait Watch {
    ghost use Rattle.std.specs.Prelude.{⊤};
    ghost use Rattle.log_runs.specs.LogView.{LogView};
    ghost use Rattle.log_runs.specs.Runs.{State};

    /// It saw one choice more, at that state of the log.
    ghost sees: { LogView → State → Self → Self → Type 0 } = { λ _ _ _ _. ⊤ };

    /// One choice more is looked at, at that place of the log, or of a part of it.
    fn choice(&mut self, spot: Spot, log: &Log<'_>, place: &Place)
        ensures { sees log.now place.now.state self.old self.new };
}

/// Sees nothing.
#[derive(Clone, Copy)]
pub struct Unwatched;

impl Watch for Unwatched {
    fn choice(&mut self, _spot: Spot, _log: &Log<'_>, _place: &Place) {}
}
