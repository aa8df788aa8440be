//! The parts come back.
ghost use Rattle.std.specs.Prelude.{◌≡◌, ◌≢◌, ◌+◌, ◌*◌, ◌<◌, ◌≤◌, ℕ, [], ◌∷◌, ◌++◌, length, map, Some, IfOk, IfErr};
ghost use Rattle.tlp_core.specs.Limits.{most_requesters};
ghost use Rattle.std.specs.Mem.Slots.{slots_items, slots_filled, slots_len, IsFull};
ghost use Rattle.std.specs.Vec.{vec_len, vec_capacity};
ghost use Rattle.requester_core.specs.RequesterView.{RequesterView};
ghost use Rattle.lane_core.specs.Steps.{LaneEndsView};
ghost use Rattle.fabric_steps.specs.Fabric as fabrics;
ghost use Rattle.fabric_core.specs.Steps.{HasLanes};
ghost use Rattle.hall_laws.specs.Calls.{IsSized};
ghost use Rattle.hall_core.specs.Opens.{Leaves, AllRan};
ghost use Rattle.hall_laws.specs.Parts.{parts_of, part_slot, IsPartName};
ghost use Rattle.hall_laws.specs.Standing.{token_of};
ghost use Rattle.hall_core.specs.Closes.{IsEmptiedTo, PartAt, EndsAt, StationFrom, StationsAt};

use crate::first_taken;
use crate::opening::{Board, Shelves};
use atomic_table::Closed;
use fabric_core::{Config, Fabric, LaneName, Parts};
use hall_laws::laws::Place;
use hall_laws::part::{Part, PartValue};
use hall_laws::slots::each_part_has_its_slot;
use lane_core::LaneEnds;
use std::alloc::Global;

pub type Slots = Closed<Option<PartValue>, Global>;

/// The part of this slot; those of all slots before were taken.
fn next(closed: &mut Slots, at: usize) -> PartValue
    requires { IsEmptiedTo (slots_filled closed.old.slots) (slots_len closed.old.slots) at × (at < slots_len closed.old.slots) × (v : _) ×
        PartAt (slots_items closed.old.slots) at v }
    ensures value { PartAt (slots_items closed.old.slots) at result }
    ensures rest { IsEmptiedTo (slots_filled closed.new.slots) (slots_len closed.new.slots) (at + 1) ×
        (slots_items closed.new.slots ≡ slots_items closed.old.slots) × (slots_len closed.new.slots ≡ slots_len closed.old.slots) }
{
    let Some(value) = closed.take(at) else {
        unreachable!()
    };
    value
}

/// The lane whose ends are in this slot and the three after it.
fn next_lane(closed: &mut Slots, at: usize) -> LaneEnds
    requires { IsEmptiedTo (slots_filled closed.old.slots) (slots_len closed.old.slots) at × (at + 3 < slots_len closed.old.slots) × (e : LaneEndsView) ×
        EndsAt (slots_items closed.old.slots) at e }
    ensures value { EndsAt (slots_items closed.old.slots) at result }
    ensures rest { IsEmptiedTo (slots_filled closed.new.slots) (slots_len closed.new.slots) (at + 4) ×
        (slots_items closed.new.slots ≡ slots_items closed.old.slots) × (slots_len closed.new.slots ≡ slots_len closed.old.slots) }
{
    let PartValue::Sender(sender) = next(closed, at) else {
        unreachable!()
    };
    let PartValue::Forward(forward) = next(closed, at + 1) else {
        unreachable!()
    };
    let PartValue::Back(back) = next(closed, at + 2) else {
        unreachable!()
    };
    let PartValue::Receiver(receiver) = next(closed, at + 3) else {
        unreachable!()
    };
    LaneEnds {
        sender: sender.into_inner(),
        forward: forward.into_inner(),
        back: back.into_inner(),
        receiver: receiver.into_inner(),
    }
}

/// What stands at the port after those that are there.
fn next_station(closed: &mut Slots, shelves: &mut Shelves, at: usize)
    requires room { IsEmptiedTo (slots_filled closed.old.slots) (slots_len closed.old.slots) at × (at + 8 < slots_len closed.old.slots) ×
        (vec_len shelves.old.requesters < vec_capacity shelves.old.requesters) × (vec_len shelves.old.up < vec_capacity shelves.old.up) ×
        (vec_len shelves.old.down < vec_capacity shelves.old.down) }
    requires there { (q : RequesterView) × (u : LaneEndsView) × (d : LaneEndsView) × StationFrom (slots_items closed.old.slots) at q u d }
    ensures value { (q : RequesterView) × (u : LaneEndsView) × (d : LaneEndsView) × StationFrom (slots_items closed.old.slots) at q u d ×
        (shelves.new.requesters.items ≡ shelves.old.requesters.items ++ q ∷ []) × (shelves.new.up.items ≡ shelves.old.up.items ++ u ∷ []) ×
        (shelves.new.down.items ≡ shelves.old.down.items ++ d ∷ []) }
    ensures rest { IsEmptiedTo (slots_filled closed.new.slots) (slots_len closed.new.slots) (at + 9) ×
        (slots_items closed.new.slots ≡ slots_items closed.old.slots) × (slots_len closed.new.slots ≡ slots_len closed.old.slots) }
    ensures len { (vec_len shelves.new.requesters ≡ vec_len shelves.old.requesters + 1) × (vec_len shelves.new.up ≡ vec_len shelves.old.up + 1) ×
        (vec_len shelves.new.down ≡ vec_len shelves.old.down + 1) }
    ensures capacity { (vec_capacity shelves.new.requesters ≡ vec_capacity shelves.old.requesters) ×
        (vec_capacity shelves.new.up ≡ vec_capacity shelves.old.up) × (vec_capacity shelves.new.down ≡ vec_capacity shelves.old.down) }
{
    let PartValue::Requester(requester) = next(closed, at) else {
        unreachable!()
    };
    let up = next_lane(closed, at + 1);
    let down = next_lane(closed, at + 5);
    shelves.requesters.push_reserved(requester.into_inner());
    shelves.up.push_reserved(up);
    shelves.down.push_reserved(down);
}

/// What stands at the ports from 1 on.
fn next_stations(closed: &mut Slots, shelves: &mut Shelves, count: u8)
    requires room { IsEmptiedTo (slots_filled closed.old.slots) (slots_len closed.old.slots) 9 × (slots_len closed.old.slots ≡ 9 * (1 + count)) ×
        (count ≤ vec_capacity shelves.old.requesters) × (count ≤ vec_capacity shelves.old.up) × (count ≤ vec_capacity shelves.old.down) ×
        (count ≤ most_requesters) }
    requires empty { (vec_len shelves.old.requesters ≡ 0) × (vec_len shelves.old.up ≡ 0) × (vec_len shelves.old.down ≡ 0) }
    requires there { (f : fabrics.Fabric) × HasLanes f × (length f.requesters ≡ count) × (slots_items closed.old.slots ≡ map Some (parts_of f)) }
    ensures value { StationsAt (slots_items closed.old.slots) count shelves.new.requesters.items shelves.new.up.items shelves.new.down.items }
    ensures rest { IsEmptiedTo (slots_filled closed.new.slots) (slots_len closed.new.slots) (9 * (1 + count)) ×
        (slots_len closed.new.slots ≡ slots_len closed.old.slots) }
{
    each_part_has_its_slot();
    for place in 0..count {
        next_station(closed, shelves, 9 * (usize::from(place) + 1));
    }
}

/// The parts from all slots, which go into the lists whose memory was kept.
fn rebuild(mut closed: Slots, mut shelves: Shelves, config: &Config) -> Parts
    requires full { IsFull closed.slots × (slots_len closed.slots ≡ 9 * (1 + config.now.requesters)) × (config.now.requesters ≤ most_requesters) }
    requires empty { (vec_len shelves.requesters ≡ 0) × (vec_len shelves.up ≡ 0) × (vec_len shelves.down ≡ 0) }
    requires room { (config.now.requesters ≤ vec_capacity shelves.requesters) × (config.now.requesters ≤ vec_capacity shelves.up) ×
        (config.now.requesters ≤ vec_capacity shelves.down) }
    requires there { (f : fabrics.Fabric) × HasLanes f × (length f.requesters ≡ config.now.requesters) × (f.credits ≡ config.now.credits) ×
        (slots_items closed.slots ≡ map Some (parts_of f)) }
    ensures { (f : fabrics.Fabric) → HasLanes f → length f.requesters ≡ config.now.requesters → f.credits ≡ config.now.credits →
        slots_items closed.slots ≡ map Some (parts_of f) → result ≡ f }
{
    each_part_has_its_slot();
    let PartValue::Memory(memory) = next(&mut closed, 0) else {
        unreachable!()
    };
    let inward = next_lane(&mut closed, 1);
    let outward = next_lane(&mut closed, 5);
    next_stations(&mut closed, &mut shelves, config.requesters);
    closed.free();
    let Shelves {
        requesters,
        up,
        down,
    } = shelves;
    Parts {
        credits: config.credits,
        memory: memory.into_inner(),
        requesters,
        inward,
        outward,
        up,
        down,
    }
}

fn discard(mut closed: Slots)
    requires { IsFull closed.slots }
{
    let mut i = 0;
    while i < closed.slot_count() {
        drop(closed.take(i));
        i += 1;
    }
    closed.free();
}

/// The part of a slot.
fn part_of(slot: usize) -> Part
    requires { slot < 72 }
    ensures slot { part_slot result ≡ slot }
    ensures named { (requesters : ℕ) → slot < 9 * (1 + requesters) → IsPartName requesters result }
{
    let port = (slot / 9) as u8;
    let (first, second) = if port == 0 {
        (LaneName::Inward, LaneName::Outward)
    } else {
        (LaneName::Up(port), LaneName::Down(port))
    };
    match slot % 9 {
        0 if port == 0 => Part::Memory,
        0 => Part::Requester(port),
        1 => Part::SenderEnd(first),
        2 => Part::ForwardWire(first),
        3 => Part::BackWire(first),
        4 => Part::ReceiverEnd(first),
        5 => Part::SenderEnd(second),
        6 => Part::ForwardWire(second),
        7 => Part::BackWire(second),
        _ => Part::ReceiverEnd(second),
    }
}

/// A part's word wasn't 0. The fabric is spent.
#[derive(Clone, Copy, Debug, PartialEq)]
pub struct StillHeld {
    pub part: Part,
    pub word: u64,
}

/// The fabric of all parts, which the seat fits. One list of acts leads to it, and has what the seat of each token did.
pub fn close(
    board: Board,
    shelves: Shelves,
    config: &Config,
    place: Place,
) -> Result<Fabric, StillHeld>
    requires table { IsSized board.shared.table_id config.now.requesters × (place.table_id ≡ board.shared.table_id) × (0 < length place.me.0) ×
        ((token_of place.me.0).knows.config ≡ config.now) }
    requires empty { (vec_len shelves.requesters ≡ 0) × (vec_len shelves.up ≡ 0) × (vec_len shelves.down ≡ 0) }
    requires room { (config.now.requesters ≤ vec_capacity shelves.requesters) × (config.now.requesters ≤ vec_capacity shelves.up) ×
        (config.now.requesters ≤ vec_capacity shelves.down) }
    ensures closed { IfOk result (λ f. Leaves (token_of place.me.0).knows f) }
    ensures all { IfOk result (λ f. AllRan place.me.0 f) }
    ensures held { IfErr result (λ e. (e.word ≢ 0) × IsPartName config.now.requesters e.part) }
{
    let count = board.slot_count();
    let closed = board.close_with(place);
    if let Some((slot, word)) = first_taken(&closed, count) {
        discard(closed);
        return Err(StillHeld {
            part: part_of(slot),
            word,
        });
    }
    let parts = rebuild(closed, shelves, config);
    Ok(Fabric::of_parts(parts))
}
