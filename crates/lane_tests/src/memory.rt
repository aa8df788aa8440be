//! Memory that doesn't grow: the call is refused, the lane is as before, and the same call then succeeds. Runs with
//! each allocation refused in turn show it; where none is refused, each call succeeds at once.
use crate::calls::{
    deliver, delivers, enter, infinite, quiet, send, take_mark, took, transmit, write_of,
};
use dllp_core::Class;
use flow_control::need_of;
use lane_core::{DllpKind, Fate, Lane, LaneEnds, LaneRefusal};
use link_replay::Reception;
use seq12::Seq12;
use std::alloc::Global;
use std::mem;
use tlp_core::Tlp;

/// A call that takes memory.
#[derive(Clone, Copy)]
enum Growth {
    MakeRoom,
    Enter,
    Transmit,
    Deliver,
    SendDllp,
}

/// What there is to see of a lane's ends.
#[derive(Clone, Copy, PartialEq)]
struct Ends {
    next: Seq12,
    packets: usize,
    dllps: usize,
    waited_for: Seq12,
    accepted: usize,
}

fn ends_of(lane: &LaneEnds) -> Ends {
    Ends {
        next: lane.sender.next_transmit_seq(),
        packets: lane.forward.len(),
        dllps: lane.back.len(),
        waited_for: lane.receiver.next_rcv_seq(),
        accepted: lane.receiver.len(),
    }
}

/// Parts the lane, looks at its ends, and joins them again.
fn look(lane: &mut Lane, alloc: Global) -> Ends {
    let parted = mem::replace(lane, infinite(alloc)).into_ends();
    let ends = ends_of(&parted);
    *lane = Lane::of_ends(parted);
    ends
}

/// Makes the call; a packet enters with this mark. The refusal, if there is one.
fn grow(lane: &mut Lane, growth: Growth, tlp: &Tlp, mark: u32) -> Option<LaneRefusal> {
    match growth {
        Growth::MakeRoom => lane.make_room(need_of(tlp)).err(),
        Growth::Enter => enter(lane, tlp, mark).err(),
        Growth::Transmit => transmit(lane).err(),
        Growth::Deliver => deliver(lane, Fate::Good).err(),
        Growth::SendDllp => send(lane, DllpKind::Answer).err(),
    }
}

/// Makes the call, and where there is no memory for it, makes it again; whether the lane was as before.
fn grow_again(lane: &mut Lane, growth: Growth, tlp: &Tlp, alloc: Global) -> bool {
    let before = look(lane, alloc);
    let mark = u32::from(before.next.value());
    match grow(lane, growth, tlp, mark) {
        None => true,
        Some(LaneRefusal::Memory) => {
            look(lane, alloc) == before && grow(lane, growth, tlp, mark).is_none()
        }
        Some(_) => false,
    }
}

/// The calls of a round, after which one more packet is on the wire, one in the queue and one DLLP under way.
const ROUND: [Growth; 7] = [
    Growth::MakeRoom,
    Growth::Enter,
    Growth::Enter,
    Growth::Transmit,
    Growth::Transmit,
    Growth::Deliver,
    Growth::SendDllp,
];

/// A round; whether the lane was as before each call that was made again.
fn grow_round(lane: &mut Lane, tlp: &Tlp, alloc: Global) -> bool {
    let mut right = true;
    for growth in ROUND {
        right &= grow_again(lane, growth, tlp, alloc);
    }
    right
}

/// The rounds.
const ROUNDS: u32 = 20;

fn grow_all(lane: &mut Lane, tlp: &Tlp, alloc: Global) -> bool {
    let mut right = true;
    for _ in 0..ROUNDS {
        right &= grow_round(lane, tlp, alloc);
    }
    right
}

/// What is under way arrives.
fn arrive(lane: &mut Lane) -> bool {
    let mut right = true;
    for _ in 0..ROUNDS {
        right &= took(lane, Fate::Good) && delivers(lane, Fate::Good, Reception::Accept);
    }
    right
}

/// Takes what was accepted; whether the marks are all, in order.
fn take_all(lane: &mut Lane) -> bool {
    let mut right = true;
    for mark in 0..2 * ROUNDS {
        right &= take_mark(lane) == Some(mark);
    }
    right && quiet(lane)
}

fn grow_and_take(lane: &mut Lane, tlp: &Tlp, alloc: Global) -> bool {
    grow_all(lane, tlp, alloc) && arrive(lane) && take_all(lane)
}

fn grow_new(tlp: &Tlp, alloc: Global) -> bool {
    let mut lane = infinite(alloc);
    grow_and_take(&mut lane, tlp, alloc)
}

fn growth_is_safe(alloc: Global) -> bool {
    match write_of(7) {
        Ok(tlp) => grow_new(&tlp, alloc),
        Err(_) => false,
    }
}

#[test]
fn a_refused_growth_changes_nothing(rt: HostRuntime) {
    assert!(rt; growth_is_safe(rt.alloc()));
}

/// The refusals and their names.
const NAMES: [(LaneRefusal, &str); 3] = [
    (LaneRefusal::NoCredits(Class::Posted), "NoCredits"),
    (LaneRefusal::WindowFull, "WindowFull"),
    (LaneRefusal::Memory, "Memory"),
];

fn is_named(refusal: LaneRefusal, name: &str, alloc: Global) -> bool {
    match format!(in alloc; "{refusal}") {
        Ok(text) => text.as_str() == name,
        Err(_) => false,
    }
}

#[test]
fn names_of_refusals(rt: HostRuntime) {
    for (refusal, name) in NAMES {
        assert!(rt; is_named(refusal, name, rt.alloc()));
    }
}
