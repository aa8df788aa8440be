//! Worked routes, and a packet that is forwarded.
use crate::calls::{ONE_WRITE, deliver, enter, one_write, transmit};
use dllp_core::Class;
use lane_core::{Fate, Lane, LaneRefusal, ReceiverEnd, SenderEnd};
use std::alloc::Global;
use switch_core::{ForwardRefusal, Port, RouteFault, forward, forward_ends, route};
use tlp_core::{Tlp, TlpFault, decode};

const WRITE: [u8; 16] = [0x40, 0, 0, 1, 3, 0, 0, 15, 0, 0, 0, 0x40, 1, 2, 3, 4];

fn completion_for(requester: u16) -> Result<Tlp, TlpFault> {
    let [high, low] = requester.to_be_bytes();
    decode(&[0x0A, 0, 0, 0, 0, 0, 0x80, 4, high, low, 7, 0])
}

/// The number of the port to which a packet from a port goes; None where there is none.
fn way(tlp: &Tlp, from: Port) -> Option<u8> {
    match route(tlp, from) {
        Ok(port) => Some(port.number()),
        Err(RouteFault::NoPort) => None,
    }
}

/// Requester IDs of completions, the ports that these come from, and those that they go to.
const COMPLETIONS: [(u16, u8, Option<u8>); 4] = [
    (0x0150, 0, Some(1)),
    (0x0800, 0, None),
    (0x0000, 0, None),
    (0x0150, 1, None),
];

/// Whether such a completion goes there.
fn goes(requester: u16, from: Port, want: Option<u8>) -> bool {
    match completion_for(requester) {
        Ok(completion) => way(&completion, from) == want,
        Err(_) => false,
    }
}

fn completions_go() -> bool {
    let mut right = true;
    for (requester, from, want) in COMPLETIONS {
        right &= goes(requester, Port::new(from), want);
    }
    right
}

/// A request goes to the memory, and never comes from there.
fn requests_go() -> bool {
    match decode(&WRITE) {
        Ok(request) => {
            way(&request, Port::new(3)) == Some(0) && way(&request, Port::MEMORY).is_none()
        }
        Err(_) => false,
    }
}

#[test]
fn worked_routes(rt: HostRuntime) {
    assert!(rt; requests_go() && completions_go() && RouteFault::NoPort.number() == 1);
}

/// The packet of a place is forwarded. This says nothing of what it does, as the calls of a lane don't.
fn forwarded(from: &mut Lane, place: usize, to: &mut Lane) -> Result<(), ForwardRefusal> {
    forward(from, place, to)
}

/// Forwards the oldest over the two ends; whether it left.
fn leaves_to(from: &mut ReceiverEnd, to: &mut SenderEnd) -> bool {
    forward_ends(from, 0, to).is_ok() && from.is_empty()
}

/// Forwards the oldest over the ends, to a new sender's; whether it left.
fn leaves(from: Lane, alloc: Global) -> bool {
    let mut from = from.into_ends();
    let mut to = SenderEnd::new(ONE_WRITE, alloc);
    leaves_to(&mut from.receiver, &mut to)
}

/// Whether no accepted packet is in the lane's queue.
fn is_empty(lane: &Lane) -> bool {
    lane.queue_len() == 0
}

/// Whether the oldest accepted packet is this one, with the mark 9.
fn has(lane: &Lane, tlp: &Tlp) -> bool {
    match lane.at(0) {
        Some((oldest, mark)) => mark == 9 && oldest == tlp,
        None => false,
    }
}

/// The next packet crosses the lane; whether it is this one, with its mark.
fn arrives(lane: &mut Lane, tlp: &Tlp) -> bool {
    transmit(lane).is_ok() && deliver(lane, Fate::Good).is_ok() && has(lane, tlp)
}

/// The packet enters with the mark 9 and crosses the lane.
fn passes(lane: &mut Lane, tlp: &Tlp) -> bool {
    enter(lane, tlp, 9).is_ok() && arrives(lane, tlp)
}

/// The oldest moves on to the other lane, and no packet of the place behind it.
fn moves(from: &mut Lane, to: &mut Lane) -> bool {
    forwarded(from, 1, to) == Err(ForwardRefusal::NotTakeable)
        && forwarded(from, 0, to).is_ok()
        && is_empty(from)
        && is_empty(to)
}

/// The oldest isn't forwarded to a lane without credits for it, and stays.
fn stays(from: &mut Lane, to: &mut Lane, tlp: &Tlp) -> bool {
    let refusal = LaneRefusal::NoCredits(Class::Posted);
    forwarded(from, 0, to) == Err(ForwardRefusal::Lane(refusal)) && has(from, tlp)
}

/// A packet in the one lane moves on to the other and arrives there.
fn moves_and_arrives(from: &mut Lane, to: &mut Lane, tlp: &Tlp) -> bool {
    passes(from, tlp) && moves(from, to) && arrives(to, tlp)
}

/// The same with a new lane to move on to.
fn moves_and_arrives_new(alloc: Global, from: &mut Lane, tlp: &Tlp) -> bool {
    let mut to = one_write(alloc);
    moves_and_arrives(from, &mut to, tlp)
}

/// The same between two new lanes.
fn moves_on(alloc: Global, tlp: &Tlp) -> bool {
    let mut from = one_write(alloc);
    moves_and_arrives_new(alloc, &mut from, tlp)
}

/// A packet in each of the lanes, so that the one's can't move on.
fn pass_and_stay(from: &mut Lane, to: &mut Lane, tlp: &Tlp) -> bool {
    passes(from, tlp) && passes(to, tlp) && stays(from, to, tlp)
}

/// The same with a new lane that it can't move on to.
fn pass_and_stay_new(alloc: Global, from: &mut Lane, tlp: &Tlp) -> bool {
    let mut to = one_write(alloc);
    pass_and_stay(from, &mut to, tlp)
}

/// The packet of a new lane stays, and then leaves over the ends.
fn stays_and_leaves(alloc: Global, tlp: &Tlp) -> bool {
    let mut from = one_write(alloc);
    let stayed = pass_and_stay_new(alloc, &mut from, tlp);
    leaves(from, alloc) && stayed
}

fn a_write_moves_on(alloc: Global) -> bool {
    match decode(&WRITE) {
        Ok(write) => moves_on(alloc, &write) && stays_and_leaves(alloc, &write),
        Err(_) => false,
    }
}

#[test]
fn a_packet_moves_on(rt: HostRuntime) {
    assert!(rt; a_write_moves_on(rt.alloc()));
}

/// Refusals, their numbers and their names.
const REFUSALS: [(ForwardRefusal, u8, &str); 4] = [
    (ForwardRefusal::NotTakeable, 1, "NotTakeable"),
    (
        ForwardRefusal::Lane(LaneRefusal::NoCredits(Class::Posted)),
        2,
        "NoCredits",
    ),
    (
        ForwardRefusal::Lane(LaneRefusal::WindowFull),
        2,
        "WindowFull",
    ),
    (ForwardRefusal::Lane(LaneRefusal::Memory), 2, "Memory"),
];

fn is_named(refusal: ForwardRefusal, number: u8, name: &str, alloc: Global) -> bool {
    match format!(in alloc; "{refusal}") {
        Ok(text) => text.as_str() == name && refusal.number() == number,
        Err(_) => false,
    }
}

fn all_are_named(alloc: Global) -> bool {
    let mut right = true;
    for (refusal, number, name) in REFUSALS {
        right &= is_named(refusal, number, name, alloc);
    }
    right
}

fn fault_is_named(fault: RouteFault, alloc: Global) -> bool {
    match format!(in alloc; "{fault}") {
        Ok(text) => text.as_str() == "NoPort",
        Err(_) => false,
    }
}

#[test]
fn names(rt: HostRuntime) {
    assert!(rt; all_are_named(rt.alloc()) && fault_is_named(RouteFault::NoPort, rt.alloc()));
}
