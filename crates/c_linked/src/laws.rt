//! What holds of the trace and the history of an endpoint behind its link, whatever its peer and the wires do.
ghost use Rattle.std.specs.Prelude.{◌≡◌, List, None, true};
ghost use Rattle.flow_control.specs.declared.limits.LaneCredits.{LaneCredits};
ghost use Rattle.history_words.specs.Clocks.{IsClocked};
ghost use Rattle.history_words.specs.Flaws.{first_flaw_clocked};
ghost use Rattle.history_words.specs.Trace.{Explains};
ghost use Rattle.config_core.specs.SetupView.{SetupView, is_size};
ghost use Rattle.linked_endpoint.specs.Runs.{Call, AreCalls};
ghost use Rattle.c_linked.specs.Traces.{claim_after};

use endpoint_laws::laws::an_endpoints_trace_is_explained;

/// Whatever calls come, and whatever bytes arrive: the history that is recorded explains the trace, and the `n` are those of a
/// history that grew. So a check of both finds no flaw.
pub fn the_trace_behind_a_link_is_explained()
    ensures explained { (s : SetupView) (ours : LaneCredits) (calls : List Call) → is_size s.size ≡ true → AreCalls calls →
        Explains (claim_after s ours calls) }
    ensures clocked { (s : SetupView) (ours : LaneCredits) (calls : List Call) → is_size s.size ≡ true → AreCalls calls → IsClocked (claim_after s ours calls) }
    ensures flawless { (s : SetupView) (ours : LaneCredits) (calls : List Call) → is_size s.size ≡ true → AreCalls calls →
        first_flaw_clocked (claim_after s ours calls) ≡ None }
{
    an_endpoints_trace_is_explained();
}
