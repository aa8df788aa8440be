//! What holds of all answers.
ghost use Rattle.std.specs.Prelude.{◌≡◌, Bool, List, [], ℕ, codes};
ghost use Rattle.history_words.specs.TraceView.{TraceView};
ghost use Rattle.log_pieces.specs.declared.Granularity.{Granularity};
ghost use Rattle.log_pieces.specs.declared.Granularity.TheVariants.{Whole};
ghost use Rattle.log_text.specs.Told.{IsToldLog};
ghost use Rattle.search_run.specs.declared.exploring.Bounds.{Bounds};
ghost use Rattle.trace_engine.specs.Check.{out_check, out_check_clocked};
ghost use Rattle.search_engine.specs.Bounded.{IsGivenUp};
ghost use Rattle.search_engine.specs.Search.{IsFoundIn, OutSearchFor};

use log_text::{what_is_explained_can_be_told, what_is_seen_can_be_told};
use trace_engine::laws::{a_clocked_trace_is_ok, an_explained_trace_is_ok};
use trace_text::told_trace_is_read_back;

/// `check` says `ok`, with status 0, to the text of what is found of a log, and so does `check --clocked`, if lines can
/// tell the log: its extent, requests and operations.
pub fn what_is_found_is_ok()
    ensures ok { (t : TraceView) (text : List ℕ) (status : ℕ) → IsFoundIn t text status → IsToldLog t → (out_check text).text ≡ codes "ok\n" }
    ensures status { (t : TraceView) (text : List ℕ) (status : ℕ) → IsFoundIn t text status → IsToldLog t → (out_check text).status ≡ 0 }
    ensures clocked { (t : TraceView) (text : List ℕ) (status : ℕ) → IsFoundIn t text status → IsToldLog t → (out_check_clocked text).text ≡ codes "ok\n" }
{
    what_is_explained_can_be_told();
    told_trace_is_read_back();
    a_clocked_trace_is_ok();
    an_explained_trace_is_ok();
}

/// `check` says `ok`, with status 0, to what is answered to a text with status 0, and so does `check --clocked`: whatever
/// the bounds are, and whether a log of few answers is asked for, if requests act as a whole and no picture is asked for.
pub fn what_is_answered_is_ok()
    ensures ok { (core : Bool) (bounds : Bounds) (input text : List ℕ) →
        OutSearchFor core Whole bounds input text 0 → (out_check text).text ≡ codes "ok\n" }
    ensures status { (core : Bool) (bounds : Bounds) (input text : List ℕ) →
        OutSearchFor core Whole bounds input text 0 → (out_check text).status ≡ 0 }
    ensures clocked { (core : Bool) (bounds : Bounds) (input text : List ℕ) →
        OutSearchFor core Whole bounds input text 0 → (out_check_clocked text).text ≡ codes "ok\n" }
{
    what_is_seen_can_be_told();
    what_is_found_is_ok();
}

/// A search of a log without records isn't given up, whatever its bounds are.
pub fn a_search_without_records_is_not_given_up()
    ensures { (size : Granularity) (bounds : Bounds) (t : TraceView) (text : List ℕ) (status : ℕ) →
        IsGivenUp size bounds t text status → t.records ≡ [] → ⊥ }
{}
