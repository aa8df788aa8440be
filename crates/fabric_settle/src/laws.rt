//! What holds of all settlements.
ghost use Rattle.std.specs.Prelude.{◌≡◌, ◌++◌, List, fold};
ghost use Rattle.history_words.specs.Records.{Record};
ghost use Rattle.history_words.specs.Clocks.{KeepsRealTimeOrder};
ghost use Rattle.history_words.specs.Trace.{Explains};
ghost use Rattle.fabric_steps.specs.Fabric.{Fabric, whole_of};
ghost use Rattle.fabric_steps.specs.Trace.{Belongs};
ghost use Rattle.fabric_core.specs.Answers.{Happens};
ghost use Rattle.fabric_core.specs.Kept.{IsSoundFabric};
ghost use Rattle.fabric_core.specs.Runs.{Runs};
ghost use Rattle.fabric_settle.specs.Happenings.{Answers, Happening, Leads};
ghost use Rattle.fabric_settle.specs.Rounds.{settlement};
ghost use Rattle.fabric_settle.specs.Keeping.{IsLossless, Never, events_of, with_record};
ghost use Rattle.fabric_settle.specs.Reached.{Reached};

use fabric_core::laws::a_run_keeps_its_trace;

/// What happens while a fabric is run until nothing moves are its answers, one after the other, and they leave the fabric
/// that the rounds leave.
pub fn a_settlement_is_of_answers()
    ensures { (f : Fabric) → Leads Answers f (settlement f).happened (settlement f).fabric }
{}

/// The trace that [`settle`](crate::settle) keeps is that of a run: its events, one after the other, with the records
/// that they add to the trace. So a trace that belonged to the fabric before belongs to it after, as kept then; the
/// history explains it, and its requests act in real-time order.
pub fn a_settlement_keeps_its_trace()
    ensures run { (f f' : Fabric) (happened : List Happening) (rs : List Record) → Leads Happens f happened f' →
        (told : List Record) × Runs f (events_of happened) told f' × (fold with_record rs happened ≡ rs ++ told) }
    ensures belongs { (f f' : Fabric) (rs rs' : List Record) → IsSoundFabric f → Reached with_record (IsLossless Never) f rs f' rs' →
        Belongs (whole_of f) rs → Belongs (whole_of f') rs' }
    ensures explained { (f f' : Fabric) (rs rs' : List Record) → IsSoundFabric f → Reached with_record (IsLossless Never) f rs f' rs' →
        Belongs (whole_of f) rs → Explains (record { memory = f'.memory; records = rs' }) }
    ensures ordered { (f f' : Fabric) (rs rs' : List Record) → IsSoundFabric f → Reached with_record (IsLossless Never) f rs f' rs' →
        Belongs (whole_of f) rs → KeepsRealTimeOrder (record { memory = f'.memory; records = rs' }) }
{
    a_run_keeps_its_trace();
}
