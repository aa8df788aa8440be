//! Laws of places.
ghost use Rattle.std.specs.Prelude.{ℕ, ◌≡◌, ◌<◌, Option, Some, true, false, slice_get};
ghost use Rattle.seq_memory.specs.Entries.{Reply};
ghost use Rattle.log_runs.specs.LogView.{LogView};
ghost use Rattle.search_places.specs.Pending.{has, submits};
ghost use Rattle.search_places.specs.PlaceView.{PlaceView};
ghost use Rattle.search_places.specs.Places.{IsPlace};
ghost use Rattle.search_places.specs.Ready.{is_told};

/// A request that was passed and hasn't acted is pending.
#[tactic(auto, using(crate::proofs::Tables::left_pending))]
pub fn who_is_left_is_pending()
    ensures { (log : LogView) (p : PlaceView) (b : ℕ) → IsPlace log p → b < p.state.event → submits (slice_get log.events b) ≡ true →
        slice_get p.state.acted b ≡ Some false → has p.pending b ≡ true }
{}

/// A reply that is the one that was told, if one was, is found to be so.
#[tactic(auto, using(crate::proofs::Readiness::told_from))]
pub fn what_was_told_is_told()
    ensures { (told : Option Reply) (made : Reply) → ((r : Reply) → told ≡ Some r → made ≡ r) → is_told told made ≡ true }
{}
