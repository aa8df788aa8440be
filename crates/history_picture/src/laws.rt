//! What holds of all pictures.
ghost use Rattle.history_picture.specs.Shown.{EachRequestHasItsBar, BarsGoFromSubmissionToAnswer, DotsStandAtEntries, WholeHistoriesAreShown, FewPointsAreShown, FlawsAreShown};

/// Each request has its bar: from when it was submitted to its answer, with a dot at its entry.
pub fn requests_are_drawn()
    ensures each { EachRequestHasItsBar }
    ensures answered { BarsGoFromSubmissionToAnswer }
    ensures dots { DotsStandAtEntries }
{}

/// A short history is shown whole, and a longer one if that is chosen. Otherwise a few points are shown, the first flaw's
/// among them.
pub fn points_are_chosen()
    ensures whole { WholeHistoriesAreShown }
    ensures few { FewPointsAreShown }
    ensures flaws { FlawsAreShown }
{}
