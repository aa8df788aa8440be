//! Windows of 2047 packets, past a wrap of the sequence numbers, a Nak, and a link that is retrained.
use crate::calls::{
    deliver, delivers, enter, fetch_add, infinite, quiet, retrained, sent, take_mark, timer, took,
    transmit, usual, write_of,
};
use lane_core::{DllpKind, Fate, Lane, LaneRefusal};
use link_replay::Reception;
use std::alloc::Global;
use tlp_core::{Tlp, TlpFault};

/// The packets of a full window.
const WINDOW: u16 = 2047;

/// What a lane is made to do, and what has to come of it.
#[derive(Clone, Copy)]
enum Step {
    /// So many packets enter, their marks going on from 0 and their numbers from this one.
    Enter(u16, u16),
    /// One packet enters, with this mark, which is its number too.
    EnterNumbered(u16),
    /// None enters, since the window is full.
    Full,
    /// So many packets are transmitted, their numbers going on from this one.
    Transmit(u16, u16),
    /// So many packets are delivered, under this fate, each with this answer.
    Deliver(u16, Fate, Reception),
    /// None is left to be delivered.
    Delivered,
    /// The Ack or Nak of these bytes is sent and takes effect.
    Answer([u8; 4]),
    /// So many packets are taken, their marks going on from 0.
    Take(u16),
    /// The replay timer expires, and a window is to be sent again.
    Timer,
    /// Every packet was taken.
    Quiet,
}

/// Whether a packet with this mark enters under this number.
fn enters(lane: &mut Lane, tlp: &Tlp, mark: u16, number: u16) -> bool {
    enter(lane, tlp, u32::from(mark)) == Ok(number)
}

fn enter_all(lane: &mut Lane, tlp: &Tlp, count: u16, first: u16) -> bool {
    let mut right = true;
    for mark in 0..count {
        right &= enters(lane, tlp, mark, first.wrapping_add(mark) % 4096);
    }
    right
}

fn is_full(lane: &mut Lane, tlp: &Tlp) -> bool {
    enter(lane, tlp, 0) == Err(LaneRefusal::WindowFull)
}

fn transmit_all(lane: &mut Lane, count: u16, first: u16) -> bool {
    let mut right = true;
    for place in 0..count {
        right &= transmit(lane) == Ok(Some(first.wrapping_add(place) % 4096));
    }
    right
}

fn deliver_all(lane: &mut Lane, count: u16, fate: Fate, answer: Reception) -> bool {
    let mut right = true;
    for _ in 0..count {
        right &= delivers(lane, fate, answer);
    }
    right
}

fn take_all(lane: &mut Lane, count: u16) -> bool {
    let mut right = true;
    for mark in 0..count {
        right &= take_mark(lane) == Some(u32::from(mark));
    }
    right
}

/// Whether the Ack or Nak has these bytes and takes effect.
fn answers(lane: &mut Lane, bytes: [u8; 4]) -> bool {
    let sent = sent(lane, DllpKind::Answer);
    took(lane, Fate::Good) && sent == Some(bytes)
}

/// Makes the lane do this; whether that came of it.
fn does(lane: &mut Lane, tlp: &Tlp, step: Step) -> bool {
    match step {
        Step::Enter(count, first) => enter_all(lane, tlp, count, first),
        Step::EnterNumbered(number) => enters(lane, tlp, number, number),
        Step::Full => is_full(lane, tlp),
        Step::Transmit(count, first) => transmit_all(lane, count, first),
        Step::Deliver(count, fate, answer) => deliver_all(lane, count, fate, answer),
        Step::Delivered => matches!(deliver(lane, Fate::Good), Ok(None)),
        Step::Answer(bytes) => answers(lane, bytes),
        Step::Take(count) => take_all(lane, count),
        Step::Timer => timer(lane) == usize::from(WINDOW),
        Step::Quiet => quiet(lane),
    }
}

/// Makes the lane do these in turn; whether that came of each.
fn does_all(lane: &mut Lane, tlp: &Tlp, steps: &[Step]) -> bool {
    let mut right = true;
    for step in steps {
        right &= does(lane, tlp, *step);
    }
    right
}

/// The same on a new lane.
fn new_does_all(alloc: Global, tlp: &Tlp, steps: &[Step]) -> bool {
    let mut lane = infinite(alloc);
    does_all(&mut lane, tlp, steps)
}

/// The same with a packet, where it is one.
fn new_does_all_with(alloc: Global, tlp: Result<Tlp, TlpFault>, steps: &[Step]) -> bool {
    match tlp {
        Ok(tlp) => new_does_all(alloc, &tlp, steps),
        Err(_) => false,
    }
}

/// Each window passes in order, is acknowledged and taken.
const THREE_WINDOWS: [Step; 19] = [
    Step::Enter(WINDOW, 0x000),
    Step::Full,
    Step::Transmit(WINDOW, 0x000),
    Step::Deliver(WINDOW, Fate::Good, Reception::Accept),
    Step::Answer([0, 0, 0x07, 0xFE]),
    Step::Take(WINDOW),
    Step::Enter(WINDOW, 0x7FF),
    Step::Full,
    Step::Transmit(WINDOW, 0x7FF),
    Step::Deliver(WINDOW, Fate::Good, Reception::Accept),
    Step::Answer([0, 0, 0x0F, 0xFD]),
    Step::Take(WINDOW),
    Step::Enter(WINDOW, 0xFFE),
    Step::Full,
    Step::Transmit(WINDOW, 0xFFE),
    Step::Deliver(WINDOW, Fate::Good, Reception::Accept),
    Step::Answer([0, 0, 0x07, 0xFC]),
    Step::Take(WINDOW),
    Step::Quiet,
];

#[test]
fn three_windows(rt: HostRuntime) {
    assert!(rt; new_does_all_with(rt.alloc(), write_of(7), &THREE_WINDOWS));
}

/// A window is transmitted twice, and then a second one. What was transmitted twice are duplicates.
const A_WINDOW_AGAIN: [Step; 14] = [
    Step::Enter(WINDOW, 0x000),
    Step::Transmit(WINDOW, 0x000),
    Step::Timer,
    Step::Transmit(WINDOW, 0x000),
    Step::Deliver(WINDOW, Fate::Good, Reception::Accept),
    Step::Answer([0, 0, 0x07, 0xFE]),
    Step::Take(WINDOW),
    Step::Enter(WINDOW, 0x7FF),
    Step::Transmit(WINDOW, 0x7FF),
    Step::Deliver(WINDOW, Fate::Good, Reception::Duplicate),
    Step::Deliver(WINDOW, Fate::Good, Reception::Accept),
    Step::Delivered,
    Step::Take(WINDOW),
    Step::Quiet,
];

#[test]
fn a_window_again(rt: HostRuntime) {
    assert!(rt; new_does_all_with(rt.alloc(), write_of(7), &A_WINDOW_AGAIN));
}

/// Three packets arrive, the second with a failed check. A Nak goes back, and the second and the third are transmitted
/// again.
const A_NAK: [Step; 16] = [
    Step::EnterNumbered(0),
    Step::Transmit(1, 0),
    Step::EnterNumbered(1),
    Step::Transmit(1, 1),
    Step::EnterNumbered(2),
    Step::Transmit(1, 2),
    Step::Deliver(1, Fate::Good, Reception::Accept),
    Step::Deliver(1, Fate::Failed, Reception::NakNow),
    Step::Deliver(1, Fate::Good, Reception::Quiet),
    Step::Answer([0x10, 0, 0, 0]),
    Step::Transmit(1, 1),
    Step::Deliver(1, Fate::Good, Reception::Accept),
    Step::Transmit(1, 2),
    Step::Deliver(1, Fate::Good, Reception::Accept),
    Step::Answer([0, 0, 0, 2]),
    Step::Take(3),
];

#[test]
fn a_nak(rt: HostRuntime) {
    assert!(rt; new_does_all_with(rt.alloc(), fetch_add(), &A_NAK));
}

/// Whether a packet that was sent four times is sent again only when the link is retrained.
fn retrains(lane: &mut Lane) -> bool {
    let mut right = match write_of(0) {
        Ok(tlp) => enter(lane, &tlp, 0) == Ok(0),
        Err(_) => false,
    };
    for _ in 0..4u8 {
        right &= transmit(lane) == Ok(Some(0));
        timer(lane);
    }
    right &= transmit(lane) == Ok(None) && retrained(lane);
    right && transmit(lane) == Ok(Some(0))
}

#[test]
fn a_fifth_time_after_retraining(rt: HostRuntime) {
    assert!(rt; retrains(&mut usual(rt.alloc())));
}
