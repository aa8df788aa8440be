//! Rounds until one moves nothing.
ghost use Rattle.std.specs.Prelude.{◌≡◌, ◌≢◌, ◌+◌, ℕ, [], Some, false, fold, slice_get, OnOk, OnErr};
ghost use Rattle.requester_core.specs.RequesterView.{RequesterView};
ghost use Rattle.fabric_steps.specs.Whole.{open_number};
ghost use Rattle.fabric_steps.specs.Event as events;
ghost use Rattle.fabric_core.specs.Quiet.{IsQuiet};
ghost use Rattle.fabric_settle.specs.Hops.{AreFlushed, hops_left};
ghost use Rattle.fabric_settle.specs.Rest.{EndsWithin};
ghost use Rattle.fabric_settle.specs.Doing.{Does};
ghost use Rattle.fabric_settle.specs.Keeping.{IsLossless, WantsMemory};
ghost use Rattle.fabric_settle.specs.Reached.{Reached};
ghost use Rattle.fabric_settle.specs.Rounds as spec;

use crate::rest_laws::every_fabric_comes_to_rest;
use crate::turns::round;
use crate::witness::Witness;
use fabric_core::Fabric;
use fabric_steps::laws::quiet_is_all_acted;
use seq_memory::Keeper;
use std::alloc::AllocError;

/// The most rounds.
const MOST_ROUNDS: u64 = 10_000;

/// Rounds until one moves nothing.
fn all_rounds<K: Keeper, W: Witness>(
    fabric: &mut Fabric<K>,
    witness: &mut W,
    moved: &mut bool,
    line: u64,
) -> Result<(), AllocError>
    ensures state { OnOk result (Does (W.saw line) fabric.old (W.kept witness.old) moved.old (spec.rounds 10000) fabric.new (W.kept witness.new) moved.new) }
    ensures err { OnErr result ((event : events.Event) × WantsMemory W.needs_room W.may_lose fabric.new event) }
    ensures reached { Reached (W.saw line) (IsLossless W.may_lose) fabric.old (W.kept witness.old) fabric.new (W.kept witness.new) }
{
    for _count in 0..MOST_ROUNDS {
        round(fabric, witness, moved, line)?;
        if !*moved {
            return Ok(());
        }
    }
    Ok(())
}

/// Runs the fabric by rounds until one moves nothing. Then it is quiet: each submission stands in the history, and no
/// requester waits for an answer. Nothing is under way on its links either: both wires of each lane are empty, each
/// packet is acknowledged, and each sender knows all credit. The witness keeps what it keeps of each event, as of that
/// line of a script.
///
/// The only error is want of memory, of the fabric for an event or of the witness. Then the events so far have happened,
/// and a witness that loses nothing has kept what it keeps of them.
pub fn settle<K: Keeper, W: Witness>(
    fabric: &mut Fabric<K>,
    witness: &mut W,
    line: u64,
) -> Result<(), AllocError>
    ensures fabric { OnOk result (fabric.new ≡ (spec.settlement fabric.old).fabric) }
    ensures kept { OnOk result (W.kept witness.new ≡ fold (W.saw line) (W.kept witness.old) (spec.settlement fabric.old).happened) }
    ensures settled { OnOk result (IsQuiet fabric.new) }
    ensures flushed { OnOk result (AreFlushed fabric.new) }
    ensures answered { OnOk result ((i tag k : ℕ) (q : RequesterView) → slice_get fabric.new.requesters i ≡ Some q → open_number q tag ≢ Some k) }

    // The last round moved nothing, and before it there were at most as many as hops were left, and one.
    ensures soon { OnOk result (EndsWithin (hops_left fabric.old + 1) (spec.at fabric.old [] false) (spec.settlement fabric.old)) }
    ensures err { OnErr result ((event : events.Event) × WantsMemory W.needs_room W.may_lose fabric.new event) }

    // In any case the fabric is one that a list of events leads to, and what is kept is of these events.
    ensures reached { Reached (W.saw line) (IsLossless W.may_lose) fabric.old (W.kept witness.old) fabric.new (W.kept witness.new) }
{
    every_fabric_comes_to_rest();
    quiet_is_all_acted();
    fabric.sound();
    fabric.short();
    fabric.tags();
    let mut moved = false;
    all_rounds(fabric, witness, &mut moved, line)?;
    fabric.sound();
    Ok(())
}
