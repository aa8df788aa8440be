//! Memory that doesn't grow: the event is refused by its number, the fabric is as before, and the same event then
//! succeeds.
use crate::drive::{SMALL, Step, events_of, made, quiet, run, step, steps_so, told_of};
use crate::scripts::{LOST_ACK, NAK_AND_REPLAY, READ_BEHIND_WRITE, WRITE_PASSES_READ};
use fabric_core::{ConfigFault, Event, Fabric, Refusal};
use lane_core::LaneRefusal;
use std::alloc::Global;

/// What was refused memory, the number of the refusal, and that of the lane's refusal in it.
#[derive(Clone, Copy)]
pub struct Refused {
    pub what: &'static str,
    pub number: u8,
    pub lane: u8,
}

/// How a script goes through two fabrics: step by step, or in one run.
#[derive(Clone, Copy)]
enum Way {
    StepByStep,
    InOneRun,
}

/// A script that goes through a fabric and a twin of it.
#[derive(Clone, Copy)]
pub struct Row {
    pub name: &'static str,
    script: &'static [Step],
    way: Way,
}

/// Keeps what was refused.
pub fn keep(refused: &mut Option<Refused>, what: &'static str, number: u8, lane: u8) {
    *refused = Some(Refused { what, number, lane });
}

/// Whether there was no memory for this, which is kept.
pub fn is_memory(what: &'static str, refusal: Refusal, refused: &mut Option<Refused>) -> bool {
    match refusal {
        Refusal::Memory => keep(refused, what, refusal.number(), 0),
        Refusal::Lane(lane @ LaneRefusal::Memory) => {
            keep(refused, what, refusal.number(), lane.number());
        }
        _ => return false,
    }
    true
}

/// The events of a script, made again where there was no memory for them.
fn events_again(
    script: &[Step],
    refused: &mut Option<Refused>,
    alloc: Global,
) -> Option<Vec<Event>> {
    match events_of(script, alloc) {
        None => {
            keep(refused, "list", 0, 0);
            events_of(script, alloc)
        }
        first => first,
    }
}

/// A fabric, made again where there was no memory for it.
fn made_again(refused: &mut Option<Refused>, alloc: Global) -> Result<Fabric, ConfigFault> {
    match made(SMALL, alloc) {
        Err(fault @ ConfigFault::Memory) => {
            keep(refused, "fabric", fault.number(), 0);
            made(SMALL, alloc)
        }
        first => first,
    }
}

/// Whether there is the same to see of both.
fn same(one: &Fabric, other: &Fabric) -> bool {
    one.history() == other.history() && one.bytes() == other.bytes() && quiet(one) == quiet(other)
}

/// Whether the step goes as it should, or, where there was no memory for it and the fabric is still as `before`, goes
/// so when it is made again.
fn steps_so_again(
    fabric: &mut Fabric,
    before: &Fabric,
    row: &Step,
    refused: &mut Option<Refused>,
) -> bool {
    match step(fabric, row.0) {
        Err(refusal) if is_memory("event", refusal, refused) => {
            same(fabric, before) && steps_so(fabric, row)
        }
        first => first == told_of(row.1),
    }
}

/// Whether the step goes as it should, at once or again where there was no memory for it.
fn follows_so(twin: &mut Fabric, row: &Step, refused: &mut Option<Refused>) -> bool {
    match step(twin, row.0) {
        Err(refusal) if is_memory("event", refusal, refused) => steps_so(twin, row),
        first => first == told_of(row.1),
    }
}

/// The step on both, of which at most one is refused memory; whether it goes as it should on both, and leaves them the
/// same.
fn both_go_so(
    fabric: &mut Fabric,
    twin: &mut Fabric,
    row: &Step,
    refused: &mut Option<Refused>,
) -> bool {
    steps_so_again(fabric, twin, row, refused)
        && follows_so(twin, row, refused)
        && same(fabric, twin)
}

/// Whether that is so of each step.
fn play_both(
    fabric: &mut Fabric,
    twin: &mut Fabric,
    script: &[Step],
    refused: &mut Option<Refused>,
) -> bool {
    let mut right = true;
    for row in script {
        right &= both_go_so(fabric, twin, row, refused);
    }
    right
}

/// How many records there are of the events in turn, and the refusal that ended them, with its place.
fn records_of(
    fabric: &mut Fabric,
    events: &[Event],
    alloc: Global,
) -> (usize, Option<(usize, Refusal)>) {
    let (trace, refused) = run(fabric, events, alloc);
    (trace.records.len(), refused)
}

/// The events in turn, and again from the first for which there was no memory. How many records there are of both
/// times; none where it ends early.
fn run_again(
    fabric: &mut Fabric,
    events: &[Event],
    refused: &mut Option<Refused>,
    alloc: Global,
) -> Option<usize> {
    let (first, ended) = records_of(fabric, events, alloc);
    let Some((place, refusal)) = ended else {
        return Some(first);
    };
    if !is_memory("event", refusal, refused) {
        return None;
    }
    let (second, ended) = records_of(fabric, events.get(place..)?, alloc);
    match ended {
        None => first.checked_add(second),
        Some(_) => None,
    }
}

/// Whether the events on both, of which at most one is refused memory, have three records each and leave them the same.
fn run_both(
    fabric: &mut Fabric,
    twin: &mut Fabric,
    events: &[Event],
    refused: &mut Option<Refused>,
    alloc: Global,
) -> bool {
    run_again(fabric, events, refused, alloc) == Some(3)
        && run_again(twin, events, refused, alloc) == Some(3)
        && same(fabric, twin)
}

/// Whether the script goes through both as it should.
fn both_are_right(
    fabric: &mut Fabric,
    twin: &mut Fabric,
    row: &Row,
    refused: &mut Option<Refused>,
    alloc: Global,
) -> bool {
    match row.way {
        Way::StepByStep => play_both(fabric, twin, row.script, refused),
        Way::InOneRun => match events_again(row.script, refused, alloc) {
            Some(events) => run_both(fabric, twin, &events, refused, alloc),
            None => false,
        },
    }
}

/// Whether the script goes through a fabric and a new one as it should.
fn beside_new(
    fabric: &mut Fabric,
    row: &Row,
    refused: &mut Option<Refused>,
    alloc: Global,
) -> bool {
    match made_again(refused, alloc) {
        Ok(mut twin) => both_are_right(fabric, &mut twin, row, refused, alloc),
        Err(_) => false,
    }
}

/// Whether the script goes through two new fabrics as it should, of which at most one call is refused memory, and what
/// was refused.
pub fn goes_so(row: &Row, alloc: Global) -> (bool, Option<Refused>) {
    let mut refused = None;
    let right = match made_again(&mut refused, alloc) {
        Ok(mut fabric) => beside_new(&mut fabric, row, &mut refused, alloc),
        Err(_) => false,
    };
    (right, refused)
}

pub static ROWS: [Row; 5] = [
    Row {
        name: "lost Ack",
        script: &LOST_ACK,
        way: Way::StepByStep,
    },
    Row {
        name: "Nak and replay",
        script: &NAK_AND_REPLAY,
        way: Way::StepByStep,
    },
    Row {
        name: "write passes read",
        script: &WRITE_PASSES_READ,
        way: Way::StepByStep,
    },
    Row {
        name: "read behind write",
        script: &READ_BEHIND_WRITE,
        way: Way::StepByStep,
    },
    Row {
        name: "in one run",
        script: &WRITE_PASSES_READ,
        way: Way::InOneRun,
    },
];
