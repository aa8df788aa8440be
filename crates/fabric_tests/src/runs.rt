//! Whole scripts in one call.
use crate::trials::{Trial, all_right};
use fabric_core::{Config, Event, Fabric, Refusal};
use fabric_rows::drive::{SMALL, Step, events_of, run};
use fabric_rows::scripts::{
    IDLE_COLLECT, LOST_ACK, NAK_AND_REPLAY, NO_PORT_8, READ_BEHIND_WRITE, WRITE_PASSES_READ,
};
use history_check::check;
use history_words::Trace;
use std::alloc::Global;
use std::test::Fail;

/// A script, and what its run leaves of a new fabric.
#[derive(Clone, Copy)]
struct Row {
    script: &'static [Step],
    /// The place and the reason of the refusal that ends it.
    refused: Option<(usize, Refusal)>,
    /// How many records the trace has.
    records: usize,
    /// The length of the history.
    entries: usize,
    /// The bytes from 40h on.
    bytes: [u8; 4],
}

const ROWS: [Row; 6] = [
    Row {
        script: &LOST_ACK,
        refused: None,
        records: 2,
        entries: 1,
        bytes: [7, 0, 0, 0],
    },
    Row {
        script: &NAK_AND_REPLAY,
        refused: None,
        records: 3,
        entries: 0,
        bytes: [0; 4],
    },
    Row {
        script: &WRITE_PASSES_READ,
        refused: None,
        records: 3,
        entries: 2,
        bytes: [1, 2, 3, 4],
    },
    Row {
        script: &READ_BEHIND_WRITE,
        refused: Some((6, Refusal::NotTakeable)),
        records: 2,
        entries: 0,
        bytes: [0; 4],
    },
    Row {
        script: &NO_PORT_8,
        refused: Some((1, Refusal::NoSuchPart)),
        records: 1,
        entries: 0,
        bytes: [0; 4],
    },
    Row {
        script: &IDLE_COLLECT,
        refused: Some((1, Refusal::Idle)),
        records: 1,
        entries: 0,
        bytes: [0; 4],
    },
];

/// Whether the trace is as long as it should be, and the history explains it.
fn tells_so(fabric: &Fabric, trace: &Trace, row: &Row, alloc: Global) -> bool {
    trace.records.len() == row.records && check(alloc, trace, fabric.history()).is_ok()
}

/// Whether the fabric is as it should be.
fn is_left_so(fabric: &Fabric, row: &Row) -> bool {
    fabric.history().len() == row.entries && fabric.bytes().get(0x40..0x44) == Some(&row.bytes)
}

/// Whether the run ends as it should.
fn runs_so(fabric: &mut Fabric, events: &[Event], row: &Row, alloc: Global) -> bool {
    let (trace, refused) = run(fabric, events, alloc);
    refused == row.refused && tells_so(fabric, &trace, row, alloc) && is_left_so(fabric, row)
}

impl Trial for Row {
    fn config(&self) -> Config {
        SMALL
    }

    fn is_right(&self, fabric: &mut Fabric, alloc: Global) -> bool {
        match events_of(self.script, alloc) {
            Some(events) => runs_so(fabric, &events, self, alloc),
            None => false,
        }
    }
}

#[test]
fn scripts_in_one_run(rt: HostRuntime) -> Result<(), Fail> {
    assert!(rt; all_right(&ROWS, rt.alloc()));
    Ok(())
}
