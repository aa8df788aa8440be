//! Full queues.
use crate::settle::counts::{left_after, settled};
use arrayvec::ArrayVec;
use fabric_core::{ANSWER_ROOM, Config, Event, Fabric};
use lane_core::LaneCredits;
use std::alloc::Global;
use tlp_core::{Op, Width};

/// The least credits.
pub(crate) const LEAST_CREDITS: LaneCredits = LaneCredits {
    ph: 1,
    pd: 8,
    nph: 1,
    npd: 2,
    cplh: 1,
    cpld: 8,
};

/// All credits.
pub(super) const MOST: LaneCredits = LaneCredits {
    ph: 127,
    pd: 2047,
    nph: 127,
    npd: 2047,
    cplh: 127,
    cpld: 2047,
};

/// What each requester has submitted, and the rounds until one moves nothing, that one counted.
struct Row {
    requesters: u8,
    credits: LaneCredits,
    writes: u32,
    adds: u32,
    rounds: u64,
}

const ROWS: [Row; 3] = [
    // Four hops, each in a round of its own.
    Row {
        requesters: 1,
        credits: LEAST_CREDITS,
        writes: 0,
        adds: 1,
        rounds: 5,
    },
    Row {
        requesters: 7,
        credits: MOST,
        writes: 127,
        adds: 0,
        rounds: 891,
    },
    Row {
        requesters: 7,
        credits: MOST,
        writes: 0,
        adds: 127,
        rounds: 450,
    },
];

/// The fabric of so many requesters, none where memory is wanted.
pub(super) fn fabric_with(alloc: Global, requesters: u8, credits: LaneCredits) -> Option<Fabric> {
    let config = Config {
        requesters,
        base: 0,
        size: 4096,
        credits,
        block: 64,
    };
    Fabric::new(config, alloc).ok()
}

/// Writes four zeros.
fn write() -> Op {
    let mut bytes = ArrayVec::new();
    for _ in 0..4 {
        let _ = bytes.try_push(0);
    }
    Op::Write {
        address: 0,
        first: 15,
        last: 0,
        bytes,
    }
}

pub(super) fn add() -> Op {
    Op::FetchAdd {
        address: 0,
        width: Width::Four,
        operand: 1,
    }
}

/// The hops that are left after so many submissions, none where one is refused.
fn submit(fabric: &mut Fabric, count: u32, event: &Event, left: u64) -> Option<u64> {
    let mut now = left;
    let event = event.lend();
    for _ in 0..count {
        let mut room = ANSWER_ROOM;
        if fabric.step(&event, &mut room).is_err() {
            return None;
        }
        now = left_after(now, &event);
    }
    Some(now)
}

/// The hops that are left after the submissions of a row, none where one is refused.
fn submit_all(fabric: &mut Fabric, row: &Row) -> Option<u64> {
    let mut left = 0;
    for port in 1..=row.requesters {
        left = submit(fabric, row.writes, &Event::Submit(port, write()), left)?;
        left = submit(fabric, row.adds, &Event::Submit(port, add()), left)?;
    }
    Some(left)
}

/// Whether all of a row is brought to rest in its rounds, which are at most the hops that were left, and two.
fn is_right(fabric: &mut Fabric, row: &Row) -> bool {
    let Some(left) = submit_all(fabric, row) else {
        return false;
    };
    settled(fabric) == Some((row.rounds, left))
        && row.rounds.saturating_sub(2) <= left
        && fabric.quiet()
}

/// The rounds and hops of a row's fabric.
fn row_is_right(alloc: Global, row: &Row) -> bool {
    match fabric_with(alloc, row.requesters, row.credits) {
        Some(mut fabric) => is_right(&mut fabric, row),
        None => false,
    }
}

#[test]
fn full_queues_come_to_rest_in_so_many_rounds(rt: HostRuntime) {
    for row in &ROWS {
        assert!(rt; row_is_right(rt.alloc(), row), "{}", row.rounds);
    }
}
