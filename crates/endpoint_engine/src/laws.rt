//! What holds of the traces that `trace` prints.
ghost use Rattle.std.specs.Prelude.{◌≡◌, ◌∷◌, [], ℕ, List, Some, IsSome, true, codes};
ghost use Rattle.history_words.specs.Clocks.{IsClocked};
ghost use Rattle.history_words.specs.Trace.{Explains};
ghost use Rattle.config_core.specs.SetupView.{SetupView, is_size};
ghost use Rattle.endpoint_core.specs.EndpointView.{EndpointView};
ghost use Rattle.endpoint_core.specs.Runs.{Call, after_call};
ghost use Rattle.endpoint_core.specs.Steps.{new_endpoint};
ghost use Rattle.endpoint_log.specs.LogView.{LogView};
ghost use Rattle.endpoint_log.specs.Steps.{new_log};
ghost use Rattle.endpoint_laws.specs.Runs.{AreBytes, logged};
ghost use Rattle.trace_text.specs.Tellable.{IsTellable};
ghost use Rattle.trace_text.specs.Texts.{trace_text};
ghost use Rattle.trace_engine.specs.Check.{out_check_clocked};
ghost use Rattle.endpoint_engine.specs.Recorded.{IsRecorded, IsCounted};
ghost use Rattle.endpoint_engine.specs.Traces.{asked, trace_after};

use endpoint_laws::laws::{an_endpoint_records_block_requests, an_endpoints_trace_is_explained};
use operation_text::own_digits_spell_number;
use trace_engine::laws::a_clocked_trace_is_ok;
use trace_text::told_trace_is_read_back;

/// A new device is recorded, and each call keeps it so.
pub fn each_call_is_recorded()
    ensures first { (s : SetupView) → IsRecorded s (new_endpoint s) (new_log s) }
    ensures next { (s : SetupView) (e : EndpointView) (l : LogView) (call : Call) →
        IsRecorded s e l → AreBytes (call ∷ []) → IsRecorded s (after_call e call) (logged e l call) }
{}

/// What is recorded of a device, whatever it was asked: the history explains the trace, whose `n` are those of a history that
/// grew, and `check --clocked` says `ok`, with status 0, to the text of both. A log counts the block requests that were
/// submitted in 32 bits, and those that acted in 64: lines can tell each trace with no more.
pub fn a_recorded_trace_is_ok()
    ensures explained { (s : SetupView) (e : EndpointView) (l : LogView) → is_size s.size ≡ true → IsRecorded s e l → Explains l.claim }
    ensures clocked { (s : SetupView) (e : EndpointView) (l : LogView) → is_size s.size ≡ true → IsRecorded s e l → IsClocked l.claim }
    ensures tellable { (s : SetupView) (e : EndpointView) (l : LogView) → is_size s.size ≡ true → IsRecorded s e l → IsCounted l → IsTellable l.claim }
    ensures ok { (s : SetupView) (e : EndpointView) (l : LogView) →
        is_size s.size ≡ true → IsRecorded s e l → IsCounted l → (out_check_clocked (trace_text l.claim)).text ≡ codes "ok\n" }
    ensures status { (s : SetupView) (e : EndpointView) (l : LogView) →
        is_size s.size ≡ true → IsRecorded s e l → IsCounted l → (out_check_clocked (trace_text l.claim)).status ≡ 0 }
{
    own_digits_spell_number();
    an_endpoints_trace_is_explained();
    an_endpoint_records_block_requests();
    told_trace_is_read_back();
    a_clocked_trace_is_ok();
}

/// Whatever lines came: the line `trace` then prints what is recorded of the device, if it is traced. The history that is
/// recorded explains the trace, whose `n` are those of a history that grew.
pub fn a_told_trace_is_explained()
    ensures traced { (s : SetupView) (input : List ℕ) → IsSome (asked s input).log }
    ensures told { (s : SetupView) (input : List ℕ) (l : LogView) → (asked s input).log ≡ Some l → trace_after s input ≡ trace_text l.claim }
    ensures explained { (s : SetupView) (input : List ℕ) (l : LogView) → is_size s.size ≡ true → (asked s input).log ≡ Some l → Explains l.claim }
    ensures clocked { (s : SetupView) (input : List ℕ) (l : LogView) → is_size s.size ≡ true → (asked s input).log ≡ Some l → IsClocked l.claim }
{
    a_recorded_trace_is_ok();
}

/// Whatever lines came: `check --clocked` says `ok`, with status 0, to what the line `trace` then prints. A log counts the
/// block requests that were submitted in 32 bits, and those that acted in 64: lines can tell each trace with no more.
pub fn a_told_trace_is_ok()
    ensures tellable { (s : SetupView) (input : List ℕ) (l : LogView) → is_size s.size ≡ true → (asked s input).log ≡ Some l → IsCounted l →
        IsTellable l.claim }
    ensures ok { (s : SetupView) (input : List ℕ) (l : LogView) →
        is_size s.size ≡ true → (asked s input).log ≡ Some l → IsCounted l → (out_check_clocked (trace_after s input)).text ≡ codes "ok\n" }
    ensures status { (s : SetupView) (input : List ℕ) (l : LogView) →
        is_size s.size ≡ true → (asked s input).log ≡ Some l → IsCounted l → (out_check_clocked (trace_after s input)).status ≡ 0 }
{
    a_recorded_trace_is_ok();
}
