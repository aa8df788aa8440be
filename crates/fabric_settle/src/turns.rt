//! A round of events.
ghost use Rattle.std.specs.Prelude.{◌≡◌, fold, IfOk, OnOk, OnErr};
ghost use Rattle.fabric_steps.specs.Event as events;
ghost use Rattle.fabric_settle.specs.Doing.{Does};
ghost use Rattle.fabric_settle.specs.Keeping.{IsLossless, WantsMemory};
ghost use Rattle.fabric_settle.specs.Reached.{Reached};
ghost use Rattle.fabric_settle.specs.Rounds as spec;

use crate::Attempt;
use crate::attempts::{AFTER_LANES, LANES, is_move, lane_attempts};
use crate::witness::{Witness, happen};
use fabric_core::{Event, Fabric, LaneName};
use seq_memory::Keeper;
use std::alloc::AllocError;

/// Tries the event, and tells whether it happened.
fn once<K: Keeper, W: Witness>(
    fabric: &mut Fabric<K>,
    witness: &mut W,
    moved: &mut bool,
    line: u64,
    event: &Event,
) -> Result<bool, AllocError>
    ensures state { OnOk result (Does (W.saw line) fabric.old (W.kept witness.old) moved.old (λ s. spec.tried s event.now) fabric.new
        (W.kept witness.new) moved.new) }
    ensures went { IfOk result (λ went. went ≡ spec.goes fabric.old event.now) }
    ensures err { OnErr result ((event : events.Event) × WantsMemory W.needs_room W.may_lose fabric.new event) }
    ensures reached { Reached (W.saw line) (IsLossless W.may_lose) fabric.old (W.kept witness.old) fabric.new (W.kept witness.new) }
{
    match happen(fabric, witness, line, &event.lend()) {
        Ok(()) => {
            *moved = *moved || is_move(event);
            Ok(true)
        }
        Err(refusal) if refusal.is_memory() => Err(AllocError),
        Err(_) => Ok(false),
    }
}

/// Tries the event until it is refused.
fn all<K: Keeper, W: Witness>(
    fabric: &mut Fabric<K>,
    witness: &mut W,
    moved: &mut bool,
    line: u64,
    event: &Event,
) -> Result<(), AllocError>
    ensures state { OnOk result (Does (W.saw line) fabric.old (W.kept witness.old) moved.old (λ s. spec.all s event.now) fabric.new
        (W.kept witness.new) moved.new) }
    ensures err { OnErr result ((event : events.Event) × WantsMemory W.needs_room W.may_lose fabric.new event) }
    ensures reached { Reached (W.saw line) (IsLossless W.may_lose) fabric.old (W.kept witness.old) fabric.new (W.kept witness.new) }
{
    for _count in 0..u64::MAX {
        if !once(fabric, witness, moved, line, event)? {
            return Ok(());
        }
    }
    Ok(())
}

/// Tries events in turn.
fn try_each<K: Keeper, W: Witness>(
    fabric: &mut Fabric<K>,
    witness: &mut W,
    moved: &mut bool,
    line: u64,
    attempts: &[Attempt],
) -> Result<(), AllocError>
    ensures state { OnOk result (Does (W.saw line) fabric.old (W.kept witness.old) moved.old (λ s. fold spec.attempted s attempts.now) fabric.new
        (W.kept witness.new) moved.new) }
    ensures err { OnErr result ((event : events.Event) × WantsMemory W.needs_room W.may_lose fabric.new event) }
    ensures reached { Reached (W.saw line) (IsLossless W.may_lose) fabric.old (W.kept witness.old) fabric.new (W.kept witness.new) }
{
    for attempt in attempts {
        match attempt {
            Attempt::Once(event) => {
                once(fabric, witness, moved, line, event)?;
            }
            Attempt::All(event) => all(fabric, witness, moved, line, event)?,
        }
    }
    Ok(())
}

/// The turn of a lane.
fn lane_turn<K: Keeper, W: Witness>(
    fabric: &mut Fabric<K>,
    witness: &mut W,
    moved: &mut bool,
    line: u64,
    lane: LaneName,
) -> Result<(), AllocError>
    ensures state { OnOk result (Does (W.saw line) fabric.old (W.kept witness.old) moved.old (λ s. spec.lane_turn s lane) fabric.new
        (W.kept witness.new) moved.new) }
    ensures err { OnErr result ((event : events.Event) × WantsMemory W.needs_room W.may_lose fabric.new event) }
    ensures reached { Reached (W.saw line) (IsLossless W.may_lose) fabric.old (W.kept witness.old) fabric.new (W.kept witness.new) }
{
    try_each(fabric, witness, moved, line, &lane_attempts(lane))
}

/// A round, of which `moved` tells whether it has moved something.
pub(crate) fn round<K: Keeper, W: Witness>(
    fabric: &mut Fabric<K>,
    witness: &mut W,
    moved: &mut bool,
    line: u64,
) -> Result<(), AllocError>
    ensures state { OnOk result (Does (W.saw line) fabric.old (W.kept witness.old) moved.old spec.round fabric.new (W.kept witness.new) moved.new) }
    ensures err { OnErr result ((event : events.Event) × WantsMemory W.needs_room W.may_lose fabric.new event) }
    ensures reached { Reached (W.saw line) (IsLossless W.may_lose) fabric.old (W.kept witness.old) fabric.new (W.kept witness.new) }
{
    *moved = false;
    for lane in LANES {
        lane_turn(fabric, witness, moved, line, lane)?;
    }
    try_each(fabric, witness, moved, line, &AFTER_LANES)
}
