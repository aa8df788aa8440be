//! What holds of all rows of bars.
ghost use Rattle.history_bars.specs.Apart.{BarsDoNotOverlap};

/// Bars of one requester don't overlap, but in the last of 256 sub-rows.
pub fn bars_do_not_overlap()
    ensures { BarsDoNotOverlap }
{}
