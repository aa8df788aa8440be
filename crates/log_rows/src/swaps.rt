//! Which lines of a log may stand in another order.
ghost use Rattle.std.specs.Prelude.{◌++◌, ◌∷◌, List};
ghost use Rattle.history_words.specs.Records.{Record};
ghost use Rattle.history_words.specs.TraceView.{TraceView};
ghost use Rattle.log_rows.specs.Swaps.{MaySwap, with_records};
ghost use Rattle.log_runs.specs.Explainable.{IsExplainable};

/// An answer that comes later than it came, and a submission that comes earlier, among the lines of other requesters or
/// among answers, leave an explainable log explainable: so they never invent a defect.
pub fn neighbours_may_be_swapped()
    ensures { (t : TraceView) (before after : List Record) (r s : Record) → MaySwap r s
        → IsExplainable (with_records t (before ++ r ∷ s ∷ after)) → IsExplainable (with_records t (before ++ s ∷ r ∷ after)) }
{}
