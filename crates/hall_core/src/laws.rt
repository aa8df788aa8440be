//! The steps on the words, of which each call is made, and what holds of every seat between them and of all seats at
//! the end.
ghost use Rattle.std.specs.Prelude.{◌<◌, ◌≤◌, ◌++◌, ℕ, suc, List};
ghost use Rattle.tlp_core.specs.Ops.{Op};
ghost use Rattle.seq_memory.specs.Entries.{Entry, Reply};
ghost use Rattle.history_words.specs.Records.{Record};
ghost use Rattle.history_words.specs.Clocks.{ActsAt, KeepsRealTimeOrder};
ghost use Rattle.history_words.specs.Trace.{Explains};
ghost use Rattle.fabric_steps.specs.Fabric.{Fabric, whole_of};
ghost use Rattle.fabric_steps.specs.Event.{Event};
ghost use Rattle.fabric_steps.specs.Trace.{Belongs};
ghost use Rattle.fabric_core.specs.Kept.{IsSoundFabric};
ghost use Rattle.fabric_core.specs.Quiet.{IsQuiet};
ghost use Rattle.fabric_core.specs.Runs.{Runs};
ghost use Rattle.hall_laws.specs.declared.token.Knowledge.{Knowledge};
ghost use Rattle.hall_laws.specs.Rule.{Begins};
ghost use Rattle.hall_laws.specs.Tells.{Has, SubmitTells, CollectTells};
ghost use Rattle.hall_core.specs.Carries.{IsCarried};
ghost use Rattle.hall_core.specs.Linearizable.{IsLinearizable, AreAnswered, KeepsTheOrderOfCounts};
ghost use Rattle.hall_core.specs.Views.{SeatView, HallView, RanBy};

use fabric_core::laws::{
    a_run_keeps_its_trace, answered_first_acts_first, each_request_is_answered_at_rest,
};
use fabric_steps::laws::the_trace_belongs;
pub use hall_laws::laws::{
    Place, Steps, event, join, put_back, put_back_seen, split, take, the_rule_line_by_line,
    what_a_seat_knows_is_true, what_threads_did_is_a_run,
};

/// Counts order requests: whichever requesters two requests are of, and in whatever order their records stand, one that was
/// answered with a count `n` no greater than that of the other's submission acts before it.
pub fn counts_order_requests()
    ensures { (f : Fabric) (rs : List Record) → IsSoundFabric f → Belongs (whole_of f) rs → KeepsTheOrderOfCounts f.memory.entries rs }
{
    the_trace_belongs();
}

/// What one thread was answered before another submitted acts before it, if what the first had seen then reached the
/// other's seat: the two seats met, or a work seat met the one, then the other
/// ([`meet_work`](crate::Hall::meet_work)). In every history that goes on from what the other has seen its request stands
/// behind the first's, and its count is no less.
pub fn what_was_carried_acts_first()
    ensures carried { (a b : Knowledge) → IsCarried a b → Begins a.seen b.seen }
    ensures counts { (a a' b b' : Knowledge) (k m until since : ℕ) (reply : Reply) (op : Op) → CollectTells a k reply until a' → Begins a'.seen b.seen →
        SubmitTells b m op since b' → until ≤ since }
    ensures first { (a a' b b' : Knowledge) (k m until since q : ℕ) (reply : Reply) (op : Op) (h : List Entry) (c : CollectTells a k reply until a') →
        Begins a'.seen b.seen → SubmitTells b m op since b' → Begins b'.seen h → ActsAt h (suc b.number) m q → c.point < q }
{}

/// What threads submit to a hall and are answered is linearizable, in the words of Herlihy and Wing (1990). The records
/// of all its seats' calls, whichever threads made them, are explained by the one history of the fabric that
/// [`close_all`](crate::Hall::close_all) returns. A request that was answered before another was submitted stands
/// before it there, whichever seats they are of: before in the order of the records (`ordered`), which is one that fits
/// each seat's calls; and before by the counts `n` that the calls returned (`counted`), whatever that order is.
///
/// Each request that isn't posted has its answer among the records once the fabric is quiet. If more happens to the
/// fabric behind the hall, as in a `settle`, the same holds of all records, those of the threads and the later ones.
pub fn what_threads_did_is_linearizable()
    ensures explained { (h : HallView) (seats : List SeatView) (f : Fabric) (r : RanBy h seats f) → Explains (record { memory = f.memory; records = r.told }) }
    ensures ordered { (h : HallView) (seats : List SeatView) (f : Fabric) (r : RanBy h seats f) →
        KeepsRealTimeOrder (record { memory = f.memory; records = r.told }) }
    ensures counted { (h : HallView) (seats : List SeatView) (f : Fabric) → RanBy h seats f → (a b : SeatView) → Has a seats → Has b seats →
        KeepsTheOrderOfCounts f.memory.entries (a.knows.records ++ b.knows.records) }
    ensures answered { (h : HallView) (seats : List SeatView) (f : Fabric) (r : RanBy h seats f) → IsQuiet f → AreAnswered r.told }
    ensures later { (h : HallView) (seats : List SeatView) (f f' : Fabric) (r : RanBy h seats f) (events : List Event) (rs : List Record) →
        Runs f events rs f' →
        IsLinearizable f' (r.told ++ rs) × (IsQuiet f' → AreAnswered (r.told ++ rs)) }
{
    a_run_keeps_its_trace();
    answered_first_acts_first();
    counts_order_requests();
    each_request_is_answered_at_rest();
    the_trace_belongs();
}
