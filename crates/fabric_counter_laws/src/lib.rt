//! Counters among the requests of a fabric.
#![tactic(auto)]

ghost use Rattle.std.specs.Prelude.{◌≡◌, ◌-◌, ◌%◌, ◌*◌, ◌^◌, List, None, ℕ};
ghost use Rattle.byteorder.specs.Endian.{little_number};
ghost use Rattle.tlp_core.specs.declared.operation.OpOf.TheVariants as ops;
ghost use Rattle.tlp_core.specs.declared.operation.Width.{Width};
ghost use Rattle.tlp_core.specs.Operation.{size_of};
ghost use Rattle.seq_memory.specs.Step.{refusal, bytes_at};
ghost use Rattle.seq_memory.specs.History.{bytes_of, extent_of};
ghost use Rattle.history_words.specs.Records.{Record};
ghost use Rattle.fabric_steps.specs.Fabric.{Fabric};
ghost use Rattle.fabric_steps.specs.Event.{Event};
ghost use Rattle.fabric_core.specs.declared.config.Config.{Config};
ghost use Rattle.fabric_core.specs.Config.{IsNewWith};
ghost use Rattle.fabric_core.specs.Quiet.{IsQuiet};
ghost use Rattle.fabric_core.specs.Runs.{Runs};
ghost use Rattle.fabric_counter_laws.specs.Counters.{submitted_additions, AllFit};

use fabric_core::laws::{a_new_fabric_is_sound, a_run_keeps_its_trace, each_event_keeps_it_sound};
use seq_memory::laws::a_counter_counts_beside_other_traffic;

/// A counter of a fabric counts each addition once, whatever the links lose and whatever else is submitted: if each other
/// request leaves the bytes of the counter as they are, and the new fabric ends quiet, the number there is that of the
/// FetchAdds of 1 that were submitted, modulo 2 to the number of the operand's bits.
/// [`a_counter_counts_beside_other_traffic`] says which requests leave them.
pub fn a_counter_of_a_fabric_counts_beside_other_traffic()
    ensures { (c : Config) (f f' : Fabric) (events : List Event) (rs : List Record) (a : ℕ) (w : Width) → IsNewWith c f → Runs f events rs f' → IsQuiet f' →
        refusal f'.memory.base f'.memory.size f'.memory.block (ops.FetchAdd a w 1) ≡ None → AllFit (extent_of f'.memory) a w rs →
        little_number (size_of w) (bytes_at (bytes_of f'.memory) (a - f'.memory.base) (size_of w)) ≡ submitted_additions a w rs % 2 ^ (8 * size_of w) }
{
    a_counter_counts_beside_other_traffic();
    a_new_fabric_is_sound();
    a_run_keeps_its_trace();
    each_event_keeps_it_sound();
}
