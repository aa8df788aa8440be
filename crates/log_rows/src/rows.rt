//! Facts about small logs.
ghost use Rattle.log_runs.specs.Explainable.{IsExplainable};
ghost use Rattle.log_rows.specs.Logs as logs;

use history_check::laws::explained_is_without_flaw;
use log_runs::laws::explainable_has_a_run;

/// A read returns what a posted write of its own requester wrote, though the write was submitted
/// after it: a posted write may pass a read.
pub fn a_posted_write_may_pass_a_read()
    ensures { IsExplainable logs.write_passes_read }
{
    explained_is_without_flaw();
}

/// A swap was never answered, and a read returns its value: it has acted all the same.
pub fn an_unanswered_swap_may_have_acted()
    ensures { IsExplainable logs.unanswered_swap }
{
    explained_is_without_flaw();
}

/// A read that was submitted after the answer to a swap returns the value from before it.
pub fn no_read_is_stale()
    ensures { IsExplainable logs.stale_read → ⊥ }
{
    explainable_has_a_run();
}

/// Two additions return the same value, so one of them was lost.
pub fn no_update_is_lost()
    ensures { IsExplainable logs.lost_update → ⊥ }
{
    explainable_has_a_run();
}
