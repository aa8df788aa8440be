//! What holds of the verdicts of `check`.
ghost use Rattle.std.specs.Prelude.{◌≡◌, List, ℕ, Ok, codes};
ghost use Rattle.history_words.specs.Claim.{Claim};
ghost use Rattle.history_words.specs.Clocks.{IsClocked, KeepsRealTimeOrder};
ghost use Rattle.history_words.specs.Trace.{Explains};
ghost use Rattle.trace_text.specs.TraceReaderView.{read_of};
ghost use Rattle.trace_engine.specs.Check.{out_check, out_check_clocked};

use history_check::laws::explained_is_without_flaw;
use history_words::laws::answered_first_acts_first;

/// `check` says `ok`, with status 0, to a text exactly where it is read as a trace and a history that explains the
/// trace.
pub fn an_explained_trace_is_ok()
    ensures ok { (text : List ℕ) (c : Claim) → read_of text ≡ Ok c → Explains c → (out_check text).text ≡ codes "ok\n" }
    ensures status { (text : List ℕ) (c : Claim) → read_of text ≡ Ok c → Explains c → (out_check text).status ≡ 0 }
    ensures only { (text : List ℕ) → (out_check text).status ≡ 0 → (c : Claim) × (read_of text ≡ Ok c) × Explains c }
{
    explained_is_without_flaw();
}

/// `check --clocked` says `ok`, with status 0, to a text exactly where it is read as a trace and a history that
/// explains the trace, and the `n` are those of a history that grew. Then requests act in real-time order: one
/// that was answered before another was submitted acts before it, so that the answered ones are linearizable.
pub fn a_clocked_trace_is_ok()
    ensures ok { (text : List ℕ) (c : Claim) → read_of text ≡ Ok c → Explains c → IsClocked c → (out_check_clocked text).text ≡ codes "ok\n" }
    ensures status { (text : List ℕ) (c : Claim) → read_of text ≡ Ok c → Explains c → IsClocked c → (out_check_clocked text).status ≡ 0 }
    ensures only { (text : List ℕ) → (out_check_clocked text).status ≡ 0 →
        (c : Claim) × (read_of text ≡ Ok c) × Explains c × IsClocked c × KeepsRealTimeOrder c }
{
    answered_first_acts_first();
    explained_is_without_flaw();
}
