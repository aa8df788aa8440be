//! The parts go into the slots.
ghost use Rattle.std.specs.Prelude.{◌≡◌, ◌+◌, ◌*◌, ◌<◌, ◌≤◌, [], ◌++◌, length, map, Some, IfOk, OnOk};
ghost use Rattle.tlp_core.specs.Limits.{most_requesters};
ghost use Rattle.std.specs.Vec.{vec_len, vec_capacity};
ghost use Rattle.fabric_core.specs.Steps.{HasLanes};
ghost use Rattle.hall_laws.specs.Calls.{IsSized};
ghost use Rattle.hall_core.specs.Opens.{IsUnused};
ghost use Rattle.hall_laws.specs.Parts.{ends, nine, flat, stations, parts_of};
ghost use Rattle.hall_laws.specs.Rule.{HasConfig, newcomers};

use crate::free_words;
use atomic_table::Table;
use fabric_core::{Config, Fabric, Parts};
use fabric_steps::laws::{quiet_is_all_acted, the_trace_belongs};
use hall_laws::boxed::Boxed;
use hall_laws::laws::{FabricRule, Place};
use hall_laws::part::PartValue;
use hall_laws::slots::WORDS_APART;
use hall_laws::token::{Start, Token};
use lane_core::LaneEnds;
use requester_core::Requester;
use std::alloc::{AllocError, Global};
use std::collections::LinkedList;
use std::snapshot::Snapshot;

pub type Board = Table<Option<PartValue>, LinkedList<Token>, Start, FabricRule, Global>;

/// The lists of the parts of ports from 1 on, with their memory while the parts are out.
#[derive(Drop)]
pub struct Shelves {
    pub requesters: Vec<Requester>,
    pub up: Vec<LaneEnds>,
    pub down: Vec<LaneEnds>,
}

/// A lane by its ends.
fn push_lane(
    slots: &mut Vec<Option<PartValue>>,
    lane: LaneEnds,
    alloc: Global,
) -> Result<(), AllocError>
    requires { vec_len slots.old + 4 ≤ vec_capacity slots.old }
    ensures items { OnOk result (slots.new.items ≡ slots.old.items ++ map Some (ends lane)) }
    ensures len { OnOk result (vec_len slots.new ≡ vec_len slots.old + 4) }
    ensures capacity { OnOk result (vec_capacity slots.new ≡ vec_capacity slots.old) }
{
    let LaneEnds {
        sender,
        forward,
        back,
        receiver,
    } = lane;
    let sender = Boxed::new(sender, alloc)?;
    slots.push_reserved(Some(PartValue::Sender(sender)));
    let forward = Boxed::new(forward, alloc)?;
    slots.push_reserved(Some(PartValue::Forward(forward)));
    let back = Boxed::new(back, alloc)?;
    slots.push_reserved(Some(PartValue::Back(back)));
    let receiver = Boxed::new(receiver, alloc)?;
    slots.push_reserved(Some(PartValue::Receiver(receiver)));
    Ok(())
}

/// What stands at a port.
fn push_station(
    slots: &mut Vec<Option<PartValue>>,
    node: PartValue,
    first: LaneEnds,
    second: LaneEnds,
    alloc: Global,
) -> Result<(), AllocError>
    requires { vec_len slots.old + 9 ≤ vec_capacity slots.old }
    ensures items { OnOk result (slots.new.items ≡ slots.old.items ++ map Some (nine (record { node = node; first = first; second = second }))) }
    ensures len { OnOk result (vec_len slots.new ≡ vec_len slots.old + 9) }
    ensures capacity { OnOk result (vec_capacity slots.new ≡ vec_capacity slots.old) }
{
    slots.push_reserved(Some(node));
    push_lane(slots, first, alloc)?;
    push_lane(slots, second, alloc)?;
    Ok(())
}

/// The parts of the ports from 1 on.
fn push_stations(
    slots: &mut Vec<Option<PartValue>>,
    shelves: &mut Shelves,
    count: usize,
    alloc: Global,
) -> Result<(), AllocError>
    requires { (count ≡ vec_len shelves.old.requesters) × (vec_len shelves.old.up ≡ count) × (vec_len shelves.old.down ≡ count) × (count ≤ most_requesters) ×
        (vec_len slots.old + 9 * count ≤ vec_capacity slots.old) }
    ensures items { OnOk result (slots.new.items ≡ slots.old.items ++
        map Some (flat (stations shelves.old.requesters.items shelves.old.up.items shelves.old.down.items))) }
    ensures len { OnOk result (vec_len slots.new ≡ vec_len slots.old + 9 * count) }
    ensures empty { OnOk result ((vec_len shelves.new.requesters ≡ 0) × (vec_len shelves.new.up ≡ 0) × (vec_len shelves.new.down ≡ 0)) }
    ensures capacity { OnOk result ((count ≤ vec_capacity shelves.new.requesters) × (count ≤ vec_capacity shelves.new.up) ×
        (count ≤ vec_capacity shelves.new.down)) }
{
    for _place in 0..count {
        let requester = shelves.requesters.remove(0);
        let up = shelves.up.remove(0);
        let down = shelves.down.remove(0);
        let requester = Boxed::new(requester, alloc)?;
        push_station(slots, PartValue::Requester(requester), up, down, alloc)?;
    }
    Ok(())
}

/// The slots of all parts.
fn slots_of(parts: Parts, alloc: Global) -> Result<(Vec<Option<PartValue>>, Shelves), AllocError>
    requires { HasLanes parts }
    ensures slots { IfOk result (λ t. t.0.items ≡ map Some (parts_of parts)) }
    ensures len { IfOk result (λ t. vec_len t.0 ≡ 9 * (1 + length parts.requesters)) }
    ensures empty { IfOk result (λ t. (vec_len t.1.requesters ≡ 0) × (vec_len t.1.up ≡ 0) × (vec_len t.1.down ≡ 0)) }
    ensures capacity { IfOk result (λ t. (length parts.requesters ≤ vec_capacity t.1.requesters) × (length parts.requesters ≤ vec_capacity t.1.up) ×
        (length parts.requesters ≤ vec_capacity t.1.down)) }
{
    let Parts {
        credits: _,
        memory,
        requesters,
        inward,
        outward,
        up,
        down,
    } = parts;
    let count = requesters.len();
    let mut shelves = Shelves {
        requesters,
        up,
        down,
    };
    let mut slots = Vec::with_capacity(alloc, 9 * (1 + count))?;
    let memory = Boxed::new(memory, alloc)?;
    push_station(
        &mut slots,
        PartValue::Memory(memory),
        inward,
        outward,
        alloc,
    )?;
    push_stations(&mut slots, &mut shelves, count, alloc)?;
    Ok((slots, shelves))
}

fn config_of(parts: &Parts) -> Config
    requires { HasLanes parts.now }
    ensures { HasConfig parts.now result }
{
    parts.config()
}

/// A table with all parts, and a seat with the tokens of so many seats.
pub struct Opened {
    pub board: Board,
    pub place: Place,
    pub shelves: Shelves,
    pub config: Config,
}

/// Takes the fabric apart, on whose way nothing is and to which nothing has happened. The seat has the tokens of all
/// requesters and of so many work seats.
pub fn open(fabric: Fabric, work: usize, alloc: Global) -> Result<Opened, AllocError>
    requires { IsUnused fabric × (work ≤ 64) }
    ensures config { IfOk result (λ t. HasConfig fabric t.config) }
    ensures table { IfOk result (λ t. IsSized t.board.shared.table_id t.config.requesters × (t.place.table_id ≡ t.board.shared.table_id)) }
    ensures about { IfOk result (λ t. (t.board.shared.key.opened.value ≡ fabric) × (t.board.shared.key.seats ≡ t.config.requesters + work)) }
    ensures tokens { IfOk result (λ t. t.place.me ≡
        (newcomers t.config t.board.shared.key.opened.value t.board.shared.key.seats 0 (t.config.requesters + work), [])) }
    ensures shelves { IfOk result (λ t. (vec_len t.shelves.requesters ≡ 0) × (vec_len t.shelves.up ≡ 0) × (vec_len t.shelves.down ≡ 0) ×
        (t.config.requesters ≤ vec_capacity t.shelves.requesters) × (t.config.requesters ≤ vec_capacity t.shelves.up) ×
        (t.config.requesters ≤ vec_capacity t.shelves.down)) }
{
    the_trace_belongs();
    quiet_is_all_acted();
    let opened = Snapshot::of(&fabric);
    let parts = fabric.into_parts();
    let config = config_of(&parts);
    let (slots, shelves) = slots_of(parts, alloc)?;
    let words = free_words(WORDS_APART * slots.len(), alloc)?;
    let about = Start {
        config,
        seats: u64::from(config.requesters) + work as u64,
        opened,
    };
    match Table::new(alloc, words.as_slice(), slots, &about) {
        Ok((board, place)) => Ok(Opened {
            board,
            place,
            shelves,
            config,
        }),
        Err(_) => Err(AllocError),
    }
}
