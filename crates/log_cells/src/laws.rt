//! Laws of parts.
ghost use Rattle.std.specs.Prelude.{ℕ, List};
ghost use Rattle.log_runs.specs.LogView.{LogView};
ghost use Rattle.log_runs.specs.Runs.{Live, start};
ghost use Rattle.log_cells.specs.Parts.{IsPart};

use seq_memory::laws::{only_the_place_changes, refused_and_read_change_nothing};

/// If a run leads through a log to its end, one leads through each part of it.
pub fn a_part_has_a_run()
    ensures { (log part : LogView) (low high : ℕ) (names : List ℕ) → IsPart log part low high names → Live log (start log) → Live part (start part) }
{
    only_the_place_changes();
    refused_and_read_change_nothing();
}
