//! A lane with credits for one write of 128 bytes.
use crate::calls::{delivers, enter, long_write, one_write, send, sent, take_mark, took, transmit};
use dllp_core::Class;
use lane_core::{DllpKind, Fate, Lane, LaneRefusal};
use link_replay::Reception;
use std::alloc::Global;
use tlp_core::Tlp;

/// The update that gives the credits of a write back.
const UPDATE: DllpKind = DllpKind::Update(Class::Posted);

/// Whether a write is refused for lack of credits.
fn waits(lane: &mut Lane, tlp: &Tlp) -> bool {
    enter(lane, tlp, 0) == Err(LaneRefusal::NoCredits(Class::Posted))
}

/// The write that entered is transmitted, accepted and acknowledged.
fn crosses(lane: &mut Lane) -> bool {
    let transmitted = transmit(lane).is_ok();
    let accepted = delivers(lane, Fate::Good, Reception::Accept);
    let answered = send(lane, DllpKind::Answer).is_ok();
    took(lane, Fate::Good) && transmitted && accepted && answered
}

/// A write enters, passes and is acknowledged, while a second waits.
fn passes(lane: &mut Lane, tlp: &Tlp) -> bool {
    let entered = enter(lane, tlp, 0).is_ok() && waits(lane, tlp);
    let crossed = crosses(lane);
    waits(lane, tlp) && entered && crossed
}

/// An update is lost.
fn loses_update(lane: &mut Lane) -> bool {
    send(lane, UPDATE).is_ok() && !took(lane, Fate::Lost)
}

/// Whether this is the update after so many items were taken, where its bytes are given.
fn is_update(item: u8, update: Option<[u8; 4]>) -> bool {
    match item {
        1 => update == Some([0x80, 0x00, 0x80, 0x10]),
        255 => update == Some([0x80, 0x00, 0x08, 0x00]),
        _ => update.is_some(),
    }
}

/// The update of this item is sent, waited for, and takes effect.
fn updates(lane: &mut Lane, tlp: &Tlp, item: u8) -> bool {
    let update = sent(lane, UPDATE);
    let waited = waits(lane, tlp);
    took(lane, Fate::Good) && waited && is_update(item, update)
}

/// The write is taken, and its credits come back, the first update lost where that is asked.
fn gives_back(lane: &mut Lane, tlp: &Tlp, item: u8, lose: bool) -> bool {
    let taken = take_mark(lane).is_some();
    let lost = !lose || loses_update(lane);
    updates(lane, tlp, item) && taken && lost
}

/// So many items pass that their count wraps, and one more enters.
fn all_pass(lane: &mut Lane, tlp: &Tlp, lose: bool) -> bool {
    let mut right = true;
    for item in 1..=255u8 {
        right &= passes(lane, tlp) && gives_back(lane, tlp, item, lose);
    }
    right && enter(lane, tlp, 0).is_ok()
}

fn all_pass_new(alloc: Global, tlp: &Tlp, lose: bool) -> bool {
    let mut lane = one_write(alloc);
    all_pass(&mut lane, tlp, lose)
}

fn credits_come_back(alloc: Global, lose: bool) -> bool {
    match long_write() {
        Ok(tlp) => all_pass_new(alloc, &tlp, lose),
        Err(_) => false,
    }
}

#[test]
fn credits_of_one_write(rt: HostRuntime) {
    for lose in [false, true] {
        assert!(rt; credits_come_back(rt.alloc(), lose));
    }
}
