//! What `check` answers to the traces of pieces that `search` writes.
#![tactic(auto)]

ghost use Rattle.std.specs.Prelude.{◌≡◌, ◌<◌, ◌^◌, Bool, List, ℕ, Ok, codes, length};
ghost use Rattle.history_words.specs.TraceView.{TraceView};
ghost use Rattle.log_pieces.specs.InPieces.{in_pieces};
ghost use Rattle.log_pieces.specs.declared.Granularity.{Granularity};
ghost use Rattle.log_text.specs.LogReaderView.{seen_of};
ghost use Rattle.search_engine.specs.Search.{OutSearchFor};
ghost use Rattle.search_run.specs.declared.exploring.Bounds.{Bounds};
ghost use Rattle.trace_engine.specs.Check.{out_check, out_check_clocked};

use log_text::what_is_seen_can_be_told;
use operation_text::own_digits_spell_number;
use search_engine::laws::what_is_found_is_ok;

/// `check` says `ok`, with status 0, to what is answered to a log with status 0, and so does `check --clocked`: in pieces of
/// any size, if the log in pieces has fewer than 2^32 records, and no picture is asked for.
pub fn a_trace_of_pieces_is_ok()
    ensures ok { (core : Bool) (size : Granularity) (bounds : Bounds) (input text : List ℕ) (t : TraceView) → seen_of input ≡ Ok t →
        length (in_pieces size t).records < 2 ^ 32 → OutSearchFor core size bounds input text 0 → (out_check text).text ≡ codes "ok\n" }
    ensures status { (core : Bool) (size : Granularity) (bounds : Bounds) (input text : List ℕ) (t : TraceView) → seen_of input ≡ Ok t →
        length (in_pieces size t).records < 2 ^ 32 → OutSearchFor core size bounds input text 0 → (out_check text).status ≡ 0 }
    ensures clocked { (core : Bool) (size : Granularity) (bounds : Bounds) (input text : List ℕ) (t : TraceView) → seen_of input ≡ Ok t →
        length (in_pieces size t).records < 2 ^ 32 → OutSearchFor core size bounds input text 0 → (out_check_clocked text).text ≡ codes "ok\n" }
{
    own_digits_spell_number();
    what_is_found_is_ok();
    what_is_seen_can_be_told();
}
