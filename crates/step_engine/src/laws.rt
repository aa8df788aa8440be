//! What holds of the traces of scripts.
ghost use Rattle.std.specs.Prelude.{◌≡◌, Bool, true, ℕ, List, codes};
ghost use Rattle.history_words.specs.Records.{Record};
ghost use Rattle.history_words.specs.Clocks.{IsClocked};
ghost use Rattle.history_words.specs.Trace.{Explains};
ghost use Rattle.fabric_steps.specs.Fabric.{Fabric};
ghost use Rattle.fabric_core.specs.declared.config.Config.{Config};
ghost use Rattle.fabric_steps.specs.Event.{Event};
ghost use Rattle.fabric_core.specs.Config.{IsNewWith};
ghost use Rattle.fabric_core.specs.Runs.{Runs};
ghost use Rattle.trace_engine.specs.Check.{out_check, out_check_clocked};
ghost use Rattle.trace_text.specs.Tellable.{IsTellable};
ghost use Rattle.trace_text.specs.Texts.{trace_text};
ghost use Rattle.step_engine.specs.declared.options.StepOptions.{StepOptions};
ghost use Rattle.step_engine.specs.Options.{traced};
ghost use Rattle.step_engine.specs.Script.{IsScript, Progress, RunsThrough};
ghost use Rattle.step_engine.specs.Step.{claim_with, out_step, out_step_with};

use fabric_core::laws::{
    a_configuration_has_one_answer, a_new_fabric_is_sound, each_event_has_one_answer,
    each_event_keeps_it_sound,
};
use fabric_steps::laws::the_trace_belongs;
use trace_engine::laws::{a_clocked_trace_is_ok, an_explained_trace_is_ok};
use trace_text::told_trace_is_read_back;

/// Where each line of a script is an event that happens, or `settle`, or with `--keep-going` an event that is refused,
/// its run ends with status 1 where an event was refused, else 0, and with `--trace` it writes the trace of what happened
/// with the fabric's history; and the history explains that trace, whose `n` are those of a history that grew.
pub fn what_a_script_does_is_explained()
    ensures text { (keeps_going echoes : Bool) (input : List ℕ) (p : Progress) →
        RunsThrough keeps_going input p → (out_step_with (traced keeps_going echoes) input).text ≡ trace_text (claim_with p.fabric p.records) }
    ensures status { (options : StepOptions) (input : List ℕ) (p : Progress) →
        RunsThrough options.keeps_going input p → (out_step_with options input).status ≡ p.status }
    ensures explained { (keeps_going : Bool) (input : List ℕ) (p : Progress) → RunsThrough keeps_going input p → Explains (claim_with p.fabric p.records) }
    ensures clocked { (keeps_going : Bool) (input : List ℕ) (p : Progress) → RunsThrough keeps_going input p → IsClocked (claim_with p.fabric p.records) }
{
    a_configuration_has_one_answer();
    a_new_fabric_is_sound();
    each_event_has_one_answer();
    each_event_keeps_it_sound();
    the_trace_belongs();
}

/// `check` says `ok`, with status 0, to the trace of what such a script does, and so does `check --clocked`, if lines can
/// tell that trace.
pub fn what_a_script_does_is_ok()
    ensures ok { (keeps_going echoes : Bool) (input : List ℕ) (p : Progress) →
        RunsThrough keeps_going input p → IsTellable (claim_with p.fabric p.records) →
        (out_check (out_step_with (traced keeps_going echoes) input).text).text ≡ codes "ok\n" }
    ensures status { (keeps_going echoes : Bool) (input : List ℕ) (p : Progress) →
        RunsThrough keeps_going input p → IsTellable (claim_with p.fabric p.records) →
        (out_check (out_step_with (traced keeps_going echoes) input).text).status ≡ 0 }
    ensures clocked { (keeps_going echoes : Bool) (input : List ℕ) (p : Progress) →
        RunsThrough keeps_going input p → IsTellable (claim_with p.fabric p.records) →
        (out_check_clocked (out_step_with (traced keeps_going echoes) input).text).text ≡ codes "ok\n" }
{
    a_clocked_trace_is_ok();
    what_a_script_does_is_explained();
    told_trace_is_read_back();
    an_explained_trace_is_ok();
}

/// Where all events of a script happen to a new fabric of its configuration, its run ends with status 0, and with
/// `--trace` it writes the trace of those events with the fabric's history; and the history explains that trace.
pub fn a_traced_script_is_explained()
    ensures text { (input : List ℕ) (c : Config) (f f' : Fabric) (events : List Event) (rs : List Record) →
        IsScript input c events → IsNewWith c f → Runs f events rs f' → (out_step true input).text ≡ trace_text (claim_with f' rs) }
    ensures status { (traced : Bool) (input : List ℕ) (c : Config) (f f' : Fabric) (events : List Event) (rs : List Record) →
        IsScript input c events → IsNewWith c f → Runs f events rs f' → (out_step traced input).status ≡ 0 }
    ensures explained { (c : Config) (f f' : Fabric) (events : List Event) (rs : List Record) →
        IsNewWith c f → Runs f events rs f' → Explains (claim_with f' rs) }
{
    a_new_fabric_is_sound();
    each_event_keeps_it_sound();
    the_trace_belongs();
    what_a_script_does_is_explained();
}

/// Where all events of a script happen to a new fabric of its configuration, `check` says `ok`, with status 0, to what
/// the script's run with `--trace` writes, if lines can tell that trace.
pub fn a_traced_script_is_ok()
    ensures ok { (input : List ℕ) (c : Config) (f f' : Fabric) (events : List Event) (rs : List Record) →
        IsScript input c events → IsNewWith c f → Runs f events rs f' → IsTellable (claim_with f' rs) →
        (out_check (out_step true input).text).text ≡ codes "ok\n" }
    ensures status { (input : List ℕ) (c : Config) (f f' : Fabric) (events : List Event) (rs : List Record) →
        IsScript input c events → IsNewWith c f → Runs f events rs f' → IsTellable (claim_with f' rs) → (out_check (out_step true input).text).status ≡ 0 }
{
    a_traced_script_is_explained();
    told_trace_is_read_back();
    an_explained_trace_is_ok();
}
