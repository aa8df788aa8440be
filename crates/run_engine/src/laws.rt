//! What holds of all that `run` writes.
ghost use Rattle.std.specs.Prelude.{◌≡◌, ◌*◌, ℕ, List};
ghost use Rattle.parameters.specs.declared.counting.Counting.{Counting};
ghost use Rattle.run_engine.specs.Text.{counted_text, IsReport};

use seq_memory::laws::{a_counter_counts_each_once, history_grows_by_steps};

/// A report of R requesters with E additions each says that R * E were answered and that the history has R * E
/// requests. The word is R * E modulo 2^32.
pub fn a_report_counts_each_addition_once()
    ensures { (c : Counting) (text : List ℕ) → IsReport c text → text ≡ counted_text (c.requesters * c.each) }
{
    a_counter_counts_each_once();
    history_grows_by_steps();
}
