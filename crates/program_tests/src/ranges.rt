//! Whether the numbers of a run and of a sweep are in their ranges, as who calls the engines asks. The program reads them in
//! their ranges.
use parameters::{Counting, Storm};
use sweep_engine::Sweep;

/// The largest numbers of a run.
const COUNTING: Counting = Counting {
    requesters: 7,
    each: 100_000,
    lose: 65_536,
    corrupt: 65_536,
    turns: 1_000_000_000,
    workers: Some(64),
};

/// The largest numbers of a sweep.
const SWEEP: Sweep = Sweep {
    storm: Storm {
        seed: u64::MAX,
        events: 1_000_000_000,
        requesters: 7,
        lose: 65_536,
        corrupt: 65_536,
        block: 128,
    },
    last: u64::MAX,
    is_clocked: true,
    keeps_going: true,
    workers: Some(64),
};

fn no_run() -> bool {
    let counting = Counting {
        turns: 0,
        ..COUNTING
    };
    COUNTING.is_right() && !counting.is_right()
}

fn no_sweep() -> bool {
    let backwards = Sweep { last: 0, ..SWEEP };
    SWEEP.is_right() && !backwards.is_right()
}

#[test]
fn numbers_are_in_their_ranges(rt: HostRuntime) {
    assert!(rt; no_run());
    assert!(rt; no_sweep());
}
