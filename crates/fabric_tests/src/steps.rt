//! Worked scripts, step by step; the numbers of refusals, and configurations.
use crate::settle::LEAST_CREDITS;
use crate::trials::{Trial, all_right, on_new};
use fabric_core::{Config, ConfigFault, Fabric, Refusal};
use fabric_rows::drive::{SMALL, Step, quiet, steps_so};
use fabric_rows::scripts::{
    CREDITS, LOST_ACK, NAK_AND_REPLAY, READ_BEHIND_WRITE, REFUSALS, STOPPED_LINK, WRITE_PASSES_READ,
};
use lane_core::LaneCredits;
use requester_core::SubmitRefusal;
use std::alloc::Global;
use std::test::Fail;
use tlp_core::TlpFault;

/// One requester, 4096 bytes and the least credits.
const LEAST: Config = Config {
    credits: LEAST_CREDITS,
    ..SMALL
};

/// The first steps of a script, and what they leave of a new fabric.
#[derive(Clone, Copy)]
struct Row {
    config: Config,
    script: &'static [Step],
    steps: usize,
    /// The length of the history.
    entries: usize,
    quiet: bool,
}

const ROWS: [Row; 8] = [
    Row {
        config: SMALL,
        script: &LOST_ACK,
        steps: 18,
        entries: 1,
        quiet: true,
    },
    Row {
        config: SMALL,
        script: &NAK_AND_REPLAY,
        steps: 16,
        entries: 0,
        quiet: false,
    },
    Row {
        config: SMALL,
        script: &NAK_AND_REPLAY,
        steps: 19,
        entries: 0,
        quiet: false,
    },
    Row {
        config: SMALL,
        script: &WRITE_PASSES_READ,
        steps: 20,
        entries: 2,
        quiet: true,
    },
    Row {
        config: SMALL,
        script: &READ_BEHIND_WRITE,
        steps: 8,
        entries: 0,
        quiet: false,
    },
    Row {
        config: LEAST,
        script: &CREDITS,
        steps: 8,
        entries: 0,
        quiet: false,
    },
    Row {
        config: SMALL,
        script: &STOPPED_LINK,
        steps: 17,
        entries: 0,
        quiet: false,
    },
    Row {
        config: SMALL,
        script: &REFUSALS,
        steps: 7,
        entries: 0,
        quiet: true,
    },
];

/// Whether each step goes as it should.
fn plays_so(fabric: &mut Fabric, script: &[Step]) -> bool {
    for step in script {
        if !steps_so(fabric, step) {
            return false;
        }
    }
    true
}

/// Whether the first steps of a new fabric go as they should.
fn begins_so(fabric: &mut Fabric, row: &Row) -> bool {
    match row.script.get(..row.steps) {
        Some(script) => quiet(fabric) && plays_so(fabric, script),
        None => false,
    }
}

impl Trial for Row {
    fn config(&self) -> Config {
        self.config
    }

    fn is_right(&self, fabric: &mut Fabric, _alloc: Global) -> bool {
        begins_so(fabric, self)
            && fabric.history().len() == self.entries
            && quiet(fabric) == self.quiet
    }
}

#[test]
fn scripts_step_by_step(rt: HostRuntime) -> Result<(), Fail> {
    assert!(rt; all_right(&ROWS, rt.alloc()));
    Ok(())
}

const NUMBERS: [(Refusal, u8); 4] = [
    (Refusal::NoSuchPart, 1),
    (Refusal::Idle, 2),
    (Refusal::NotTakeable, 3),
    (
        Refusal::Submit(SubmitRefusal::Profile(TlpFault::Unaligned)),
        4,
    ),
];

#[test]
fn numbers_of_refusals(rt: HostRuntime) -> Result<(), Fail> {
    for (refusal, number) in NUMBERS {
        assert!(rt; refusal.number() == number);
    }
    Ok(())
}

/// No credits for posted headers.
const WITHOUT: LaneCredits = LaneCredits {
    ph: 0,
    ..LaneCredits::DEFAULT
};

/// A configuration that has this fault.
#[derive(Clone, Copy)]
struct Faulty {
    config: Config,
    fault: ConfigFault,
    number: u8,
}

const FAULTY: [Faulty; 5] = [
    Faulty {
        config: Config {
            requesters: 8,
            base: 0x40,
            size: 100,
            block: 96,
            ..SMALL
        },
        fault: ConfigFault::Requesters,
        number: 1,
    },
    Faulty {
        config: Config {
            base: 0x40,
            size: 100,
            block: 96,
            ..SMALL
        },
        fault: ConfigFault::Size,
        number: 2,
    },
    Faulty {
        config: Config {
            base: 0x40,
            credits: WITHOUT,
            block: 96,
            ..SMALL
        },
        fault: ConfigFault::Base,
        number: 3,
    },
    Faulty {
        config: Config {
            credits: WITHOUT,
            block: 96,
            ..SMALL
        },
        fault: ConfigFault::Credits,
        number: 4,
    },
    Faulty {
        config: Config { block: 96, ..SMALL },
        fault: ConfigFault::Block,
        number: 6,
    },
];

impl Trial for Faulty {
    fn config(&self) -> Config {
        self.config
    }

    fn is_right(&self, _fabric: &mut Fabric, _alloc: Global) -> bool {
        false
    }
}

/// Whether no fabric is made, for the fault of the row.
fn is_refused(row: &Faulty, alloc: Global) -> bool {
    on_new(row, alloc) == Err(row.fault) && row.fault.number() == row.number
}

#[test]
fn configurations(rt: HostRuntime) -> Result<(), Fail> {
    for row in &FAULTY {
        assert!(rt; is_refused(row, rt.alloc()));
    }
    Ok(())
}
