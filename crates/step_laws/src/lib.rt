//! What `check` answers to the traces that `step` writes.
#![tactic(auto)]

ghost use Rattle.std.specs.Prelude.{◌≡◌, ◌≢◌, Bool, List, ℕ, [], codes};
ghost use Rattle.hex_text.specs.Lines.{lines_of};
ghost use Rattle.trace_engine.specs.Check.{out_check, out_check_clocked};
ghost use Rattle.trace_text.specs.Tellable.{IsTellable};
ghost use Rattle.step_engine.specs.Options.{traced};
ghost use Rattle.step_engine.specs.Script.{Progress, RunsThrough, script_of};
ghost use Rattle.step_engine.specs.Step.{claim_with, out_step_with};

use fabric_core::laws::{
    a_new_fabric_is_sound, each_event_happens_by_its_parts, each_event_keeps_it_sound,
    what_is_answered_happens,
};
use fabric_settle_laws::what_settles_happens;
use fabric_steps::laws::the_trace_belongs;
use log_text::what_is_explained_can_be_told;
use operation_text::own_digits_spell_number;
use requester_core::laws::each_number_is_answered_once;
use step_engine::laws::{what_a_script_does_is_explained, what_a_script_does_is_ok};
use tlp_core::laws::canonical_bytes_spell_their_packet;
use trace_engine::laws::a_clocked_trace_is_ok;
use trace_text::told_trace_is_read_back;

/// Where a script has a line that isn't skipped, and its run with `--trace` ends with status 0, its first line makes a
/// fabric, each line after it is an event that happens, or `settle`, and lines can tell the trace of what happened.
pub fn a_run_with_status_0_runs_through()
    ensures { (keeps_going echoes : Bool) (input : List ℕ) → script_of (lines_of input) ≢ [] → (out_step_with (traced keeps_going echoes) input).status ≡ 0 →
        (p : Progress) × RunsThrough keeps_going input p × IsTellable (claim_with p.fabric p.records) }
{
    a_new_fabric_is_sound();
    canonical_bytes_spell_their_packet();
    each_event_happens_by_its_parts();
    each_event_keeps_it_sound();
    each_number_is_answered_once();
    own_digits_spell_number();
    the_trace_belongs();
    what_a_script_does_is_explained();
    what_is_answered_happens();
    what_is_explained_can_be_told();
    what_settles_happens();
}

/// `check` says `ok`, with status 0, to what a run of `step` with `--trace` writes that ends with status 0, and so does
/// `check --clocked`, if the script has a line that isn't skipped.
pub fn what_is_traced_is_ok()
    ensures ok { (keeps_going echoes : Bool) (input : List ℕ) → script_of (lines_of input) ≢ [] →
        (out_step_with (traced keeps_going echoes) input).status ≡ 0 →
        (out_check (out_step_with (traced keeps_going echoes) input).text).text ≡ codes "ok\n" }
    ensures status { (keeps_going echoes : Bool) (input : List ℕ) → script_of (lines_of input) ≢ [] →
        (out_step_with (traced keeps_going echoes) input).status ≡ 0 →
        (out_check (out_step_with (traced keeps_going echoes) input).text).status ≡ 0 }
    ensures clocked { (keeps_going echoes : Bool) (input : List ℕ) → script_of (lines_of input) ≢ [] →
        (out_step_with (traced keeps_going echoes) input).status ≡ 0 →
        (out_check_clocked (out_step_with (traced keeps_going echoes) input).text).text ≡ codes "ok\n" }
    ensures clocked_status { (keeps_going echoes : Bool) (input : List ℕ) → script_of (lines_of input) ≢ [] →
        (out_step_with (traced keeps_going echoes) input).status ≡ 0 →
        (out_check_clocked (out_step_with (traced keeps_going echoes) input).text).status ≡ 0 }
{
    a_clocked_trace_is_ok();
    a_run_with_status_0_runs_through();
    told_trace_is_read_back();
    what_a_script_does_is_explained();
    what_a_script_does_is_ok();
}
