//! What `step` and `check` answer to the scripts that `generate` writes, and so what `sweep` says.
#![tactic(auto)]

ghost use Rattle.std.specs.Prelude.{◌≡◌, ◌-◌, ◌^◌, min, true, false, ℕ, List, Option, codes};
ghost use Rattle.std.specs.Io.KnownBytes.{Appends};
ghost use Rattle.fabric_steps.specs.Fabric.{Fabric};
ghost use Rattle.fabric_core.specs.declared.config.Config.{Config};
ghost use Rattle.trace_engine.specs.Check.{out_check, out_check_clocked};
ghost use Rattle.trace_text.specs.Texts.{trace_text};
ghost use Rattle.step_engine.specs.Script.{IsScript};
ghost use Rattle.step_engine.specs.Step.{claim_with, out_step};
ghost use Rattle.generate_engine.specs.Script.{IsScriptOf};
ghost use Rattle.sweep_engine.specs.declared.options.Sweep.{Sweep};
ghost use Rattle.sweep_engine.specs.Sweep.{IsWhole, last_line, seeds_in};

use script_text::laws::{own_line_spells_event, own_line_spells_fabric};
use step_engine::laws::a_traced_script_is_explained;
use step_laws::what_is_traced_is_ok;

/// What `generate` writes is read as the fabric and the events that happened.
pub fn a_generated_script_is_read()
    ensures { (c : Config) (count : ℕ) (text : List ℕ) (f : Fabric) (s : IsScriptOf c count text f) → IsScript text c s.events }
{
    own_line_spells_event();
    own_line_spells_fabric();
}

/// `step` refuses no line of what `generate` writes: with no option it ends with status 0. With `--trace` it does too,
/// and writes the trace of all its events, with the history that they left. And `check` says `ok` to that trace, with
/// status 0, and so does `check --clocked`.
pub fn nothing_generated_is_refused()
    ensures plain { (c : Config) (count : ℕ) (text : List ℕ) (f : Fabric) (s : IsScriptOf c count text f) → (out_step false text).status ≡ 0 }
    ensures text { (c : Config) (count : ℕ) (text : List ℕ) (f : Fabric) (s : IsScriptOf c count text f) →
        (out_step true text).text ≡ trace_text (claim_with f s.happened.records) }
    ensures status { (c : Config) (count : ℕ) (text : List ℕ) (f : Fabric) (s : IsScriptOf c count text f) → (out_step true text).status ≡ 0 }
    ensures ok { (c : Config) (count : ℕ) (text : List ℕ) (f : Fabric) → IsScriptOf c count text f →
        (out_check (out_step true text).text).text ≡ codes "ok\n" }
    ensures clocked { (c : Config) (count : ℕ) (text : List ℕ) (f : Fabric) → IsScriptOf c count text f →
        (out_check_clocked (out_step true text).text).text ≡ codes "ok\n" }
    ensures ok_status { (c : Config) (count : ℕ) (text : List ℕ) (f : Fabric) → IsScriptOf c count text f →
        (out_check (out_step true text).text).status ≡ 0 }
    ensures clocked_status { (c : Config) (count : ℕ) (text : List ℕ) (f : Fabric) → IsScriptOf c count text f →
        (out_check_clocked (out_step true text).text).status ≡ 0 }
{
    a_generated_script_is_read();
    a_traced_script_is_explained();
    what_is_traced_is_ok();
}

/// A sweep finds no seed that fails: with all its output written, that is the last line alone, which counts all seeds, and
/// the exit status is 0.
pub fn a_sweep_is_ok()
    ensures written { (o : Sweep) (out out' : Option (List ℕ)) (exit : ℕ) → IsWhole o out out' exit →
        Appends out out' (last_line (min (seeds_in o) (2 ^ 64 - 1))) }
    ensures status { (o : Sweep) (out out' : Option (List ℕ)) (exit : ℕ) → IsWhole o out out' exit → exit ≡ 0 }
{
    nothing_generated_is_refused();
}
