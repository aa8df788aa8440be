//! Answers that are a line, whatever is asked for.
ghost use Rattle.std.specs.Prelude.{◌≡◌, ◌++◌, ◌∷◌, [], None, Some};
ghost use Rattle.flaw_places.specs.Places.{flaw_line};
ghost use Rattle.record_text.specs.Names.{fault_line};
ghost use Rattle.search_engine.specs.Bounded.{bound_line};
ghost use Rattle.search_engine.specs.Findings.{text_of};

use crate::answering::{LIMIT_STATUS, Outcome, OutcomeText};
use crate::ending::Ending;
use crate::lines::{bound_text, fault_text, flaw_text};
use history_words::Flaw;
use record_text::ReadFault;
use search_history::Bounds;

/// Nothing is known, since a bound ended the search.
pub(crate) fn given_up_outcome(bounds: Bounds, ending: Ending) -> Outcome
    ensures text { text_of result.text ≡ bound_line bounds ending.bound ++ 10 ∷ [] }
    ensures status { result.status ≡ 3 }
    ensures ending { result.ending ≡ Some ending }
{
    let line = bound_text(bounds, ending.bound);
    Outcome {
        text: OutcomeText::Line(line),
        status: LIMIT_STATUS,
        ending: Some(ending),
    }
}

/// The form of the log is wrong.
pub(crate) fn flaw_outcome(flaw: Flaw) -> Outcome
    ensures text { text_of result.text ≡ flaw_line flaw.kind flaw.place ++ 10 ∷ [] }
    ensures status { result.status ≡ 1 }
    ensures ending { result.ending ≡ None }
{
    let line = flaw_text(flaw);
    Outcome {
        text: OutcomeText::Line(line),
        status: 1,
        ending: None,
    }
}

/// The text can't be read.
pub(crate) fn fault_outcome(fault: ReadFault) -> Outcome
    ensures text { text_of result.text ≡ fault_line fault ++ 10 ∷ [] }
    ensures status { result.status ≡ 1 }
    ensures ending { result.ending ≡ None }
{
    let line = fault_text(fault);
    Outcome {
        text: OutcomeText::Line(line),
        status: 1,
        ending: None,
    }
}
