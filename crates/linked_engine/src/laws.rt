//! What holds of the traces that `trace` prints.
ghost use Rattle.std.specs.Prelude.{◌≡◌, ℕ, Bool, List, Some, IsSome, true, false, codes};
ghost use Rattle.flow_control.specs.declared.limits.LaneCredits.{LaneCredits};
ghost use Rattle.history_words.specs.Clocks.{IsClocked};
ghost use Rattle.history_words.specs.Trace.{Explains};
ghost use Rattle.config_core.specs.SetupView.{SetupView, is_size};
ghost use Rattle.endpoint_log.specs.LogView.{LogView};
ghost use Rattle.trace_text.specs.Tellable.{IsTellable};
ghost use Rattle.trace_text.specs.Texts.{trace_text};
ghost use Rattle.trace_engine.specs.Check.{out_check_clocked};
ghost use Rattle.endpoint_engine.specs.Recorded.{IsCounted};
ghost use Rattle.linked_endpoint.specs.Linked.{may_act, may_enter};
ghost use Rattle.linked_engine.specs.Lines.{LinkLines, settled};
ghost use Rattle.linked_engine.specs.Traces.{asked, trace_after};

use endpoint_engine::laws::{a_recorded_trace_is_ok, each_call_is_recorded};
use linked_endpoint::a_settled_device_is_at_rest;

/// Whatever lines came, so whatever the peer and the wires did: the line `trace` then prints what is recorded of the device, if
/// it is traced. The history that is recorded explains the trace, whose `n` are those of a history that grew.
pub fn the_trace_behind_a_link_is_explained()
    ensures traced { (s : SetupView) (ours : LaneCredits) (has_crc : Bool) (input : List ℕ) → IsSome (asked s ours has_crc input).log }
    ensures told { (s : SetupView) (ours : LaneCredits) (has_crc : Bool) (input : List ℕ) (l : LogView) →
        (asked s ours has_crc input).log ≡ Some l → trace_after s ours has_crc input ≡ trace_text l.claim }
    ensures explained { (s : SetupView) (ours : LaneCredits) (has_crc : Bool) (input : List ℕ) (l : LogView) →
        is_size s.size ≡ true → (asked s ours has_crc input).log ≡ Some l → Explains l.claim }
    ensures clocked { (s : SetupView) (ours : LaneCredits) (has_crc : Bool) (input : List ℕ) (l : LogView) →
        is_size s.size ≡ true → (asked s ours has_crc input).log ≡ Some l → IsClocked l.claim }
{
    each_call_is_recorded();
    a_recorded_trace_is_ok();
    a_settled_device_is_at_rest();
}

/// Whatever lines came: `check --clocked` says `ok`, with status 0, to what the line `trace` then prints. A log counts the
/// block requests that were submitted in 32 bits, and those that acted in 64: lines can tell each trace with no more.
pub fn the_trace_behind_a_link_is_ok()
    ensures tellable { (s : SetupView) (ours : LaneCredits) (has_crc : Bool) (input : List ℕ) (l : LogView) →
        is_size s.size ≡ true → (asked s ours has_crc input).log ≡ Some l → IsCounted l → IsTellable l.claim }
    ensures ok { (s : SetupView) (ours : LaneCredits) (has_crc : Bool) (input : List ℕ) (l : LogView) →
        is_size s.size ≡ true → (asked s ours has_crc input).log ≡ Some l → IsCounted l →
        (out_check_clocked (trace_after s ours has_crc input)).text ≡ codes "ok\n" }
    ensures status { (s : SetupView) (ours : LaneCredits) (has_crc : Bool) (input : List ℕ) (l : LogView) →
        is_size s.size ≡ true → (asked s ours has_crc input).log ≡ Some l → IsCounted l → (out_check_clocked (trace_after s ours has_crc input)).status ≡ 0 }
{
    each_call_is_recorded();
    a_recorded_trace_is_ok();
    a_settled_device_is_at_rest();
}

/// Behind a packet or a DLLP nothing that may act waits: no request may act, and no completion that is held may enter the
/// replay buffer.
pub fn nothing_that_may_act_waits()
    ensures acts { (u : LinkLines) → may_act (settled u).linked ≡ false }
    ensures enters { (u : LinkLines) → may_enter (settled u).linked ≡ false }
{
    a_settled_device_is_at_rest();
}
