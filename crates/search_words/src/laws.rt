//! Laws of what is taken and put.
ghost use Rattle.std.specs.Prelude.{ℕ};
ghost use Rattle.log_runs.specs.LogView.{LogView};
ghost use Rattle.log_runs.specs.Runs.{Dead, start};
ghost use Rattle.search_words.specs.Counts.{IsOverdrawn};

use seq_memory::laws::only_the_place_changes;

/// Where more requests take away what one of them found than may put it there, no run leads to the end.
pub fn what_is_overdrawn_is_dead()
    ensures { (log : LogView) (q : ℕ) → IsOverdrawn log q → Dead log (start log) }
{
    only_the_place_changes();
}
