//! Worked traces of one requester, of reads and writes at 40h.
use history_check::check;
use history_words::{Flaw, Record, Trace};
use seq_memory::{Entry, Extent, Reply};
use std::alloc::{AllocError, Global};
use tlp_core::{Op, Payload, payload_of};

/// A record, by its request's number and the length of the history.
#[derive(Clone, Copy)]
enum Event {
    Read(u32, u64),
    Write(u32, u64),
    /// A read across blocks.
    WideRead(u32, u64),
    /// An answer of four times that byte.
    Data(u32, u8, u64),
    Aborted(u32, u64),
}

/// An entry, by its number.
#[derive(Clone, Copy)]
enum Act {
    Read(u32),
    Write(u32),
    WideRead(u32),
}

fn four(byte: u8) -> Payload {
    payload_of(&[byte; 4])
}

fn read() -> Op {
    Op::Read {
        address: 0x40,
        dw: 1,
        first: 15,
        last: 0,
    }
}

fn write() -> Op {
    Op::Write {
        address: 0x40,
        first: 15,
        last: 0,
        bytes: four(7),
    }
}

fn wide_read() -> Op {
    Op::Read {
        address: 0x3C,
        dw: 2,
        first: 15,
        last: 15,
    }
}

fn submission(number: u32, op: Op, n: u64) -> Record {
    Record::Sub {
        requester: 1,
        number,
        op,
        n,
    }
}

fn answer(number: u32, reply: Reply, n: u64) -> Record {
    Record::Ans {
        requester: 1,
        number,
        reply,
        n,
    }
}

fn record_of(event: Event) -> Record {
    match event {
        Event::Read(number, n) => submission(number, read(), n),
        Event::Write(number, n) => submission(number, write(), n),
        Event::WideRead(number, n) => submission(number, wide_read(), n),
        Event::Data(number, byte, n) => answer(number, Reply::Data(four(byte)), n),
        Event::Aborted(number, n) => answer(number, Reply::Aborted, n),
    }
}

fn op_of(act: Act) -> (u32, Op) {
    match act {
        Act::Read(number) => (number, read()),
        Act::Write(number) => (number, write()),
        Act::WideRead(number) => (number, wide_read()),
    }
}

fn entry_of(act: Act) -> Entry {
    let (number, op) = op_of(act);
    Entry {
        requester: 1,
        number,
        op,
    }
}

fn record_all(records: &mut Vec<Record>, events: &[Event]) -> Result<(), AllocError> {
    for event in events {
        records.push(record_of(*event))?;
    }
    Ok(())
}

fn do_all(history: &mut Vec<Entry>, acts: &[Act]) -> Result<(), AllocError> {
    for act in acts {
        history.push(entry_of(*act))?;
    }
    Ok(())
}

/// The trace of these events, on 4096 bytes from 0 on.
fn trace_of(alloc: Global, events: &[Event]) -> Result<Trace, AllocError> {
    let mut records = Vec::new(alloc);
    record_all(&mut records, events)?;
    Ok(Trace {
        extent: Extent::new(0, 4096, 64).unwrap(),
        records,
    })
}

/// The flaw of the trace and the history of these, which is filled.
fn flaw_in(
    alloc: Global,
    trace: &Trace,
    history: &mut Vec<Entry>,
    acts: &[Act],
) -> Result<Option<Flaw>, AllocError> {
    do_all(history, acts)?;
    Ok(check(alloc, trace, history).err())
}

/// The flaw of the trace and the history of these.
fn flaw_with(alloc: Global, trace: &Trace, acts: &[Act]) -> Result<Option<Flaw>, AllocError> {
    let mut history = Vec::new(alloc);
    flaw_in(alloc, trace, &mut history, acts)
}

/// The flaw of such a trace and history.
fn flaw_of(alloc: Global, events: &[Event], acts: &[Act]) -> Result<Option<Flaw>, AllocError> {
    let trace = trace_of(alloc, events)?;
    flaw_with(alloc, &trace, acts)
}

/// What happened, a history, and the number, the name and the place of the flaw.
type Flawed = (&'static [Event], &'static [Act], u8, &'static str, usize);

/// Traces with histories that don't explain them.
static FLAWS: [Flawed; 12] = [
    (&[Event::Read(1, 0)], &[], 1, "Numbering", 0),
    (&[Event::Write(0, 0)], &[Act::Read(0)], 2, "Stranger", 0),
    (
        &[Event::Read(0, 0)],
        &[Act::Read(0), Act::Read(0)],
        3,
        "Twice",
        1,
    ),
    (
        &[Event::Write(0, 0), Event::Read(1, 0)],
        &[Act::Read(1)],
        4,
        "Order",
        0,
    ),
    (&[Event::Data(0, 0, 1)], &[], 5, "Unasked", 0),
    (
        &[
            Event::Read(0, 0),
            Event::Data(0, 0, 1),
            Event::Data(0, 0, 1),
        ],
        &[Act::Read(0)],
        6,
        "Again",
        2,
    ),
    (
        &[Event::Read(0, 0), Event::Data(0, 0, 1)],
        &[],
        7,
        "Absent",
        1,
    ),
    (
        &[Event::Read(0, 1), Event::Data(0, 0, 1)],
        &[Act::Read(0)],
        8,
        "Early",
        1,
    ),
    (
        &[Event::Read(0, 0), Event::Write(1, 0), Event::Data(0, 7, 1)],
        &[Act::Write(1), Act::Read(0)],
        9,
        "Late",
        2,
    ),
    (
        &[Event::Read(0, 0), Event::Write(1, 0), Event::Data(0, 0, 2)],
        &[Act::Write(1), Act::Read(0)],
        10,
        "Reply",
        2,
    ),
    (
        &[
            Event::Read(0, 0),
            Event::Data(0, 0, 2),
            Event::Read(1, 0),
            Event::Data(1, 0, 2),
        ],
        &[Act::Read(1), Act::Read(0)],
        11,
        "Stale",
        3,
    ),
    (
        &[Event::Aborted(0, 0), Event::Read(1, 0)],
        &[Act::Read(1)],
        1,
        "Numbering",
        1,
    ),
];

/// Whether the flaw has this number and this name, at this place.
fn is_flaw(flaw: Option<Flaw>, number: u8, name: &str, place: usize) -> bool {
    match flaw {
        Some(flaw) => {
            flaw.kind.number() == number && flaw.kind.name() == name && flaw.place == place
        }
        None => false,
    }
}

/// Whether the flaw is found.
fn is_found(alloc: Global, row: &Flawed) -> Result<bool, AllocError> {
    let (events, acts, number, name, place) = *row;
    let flaw = flaw_of(alloc, events, acts)?;
    Ok(is_flaw(flaw, number, name, place))
}

/// Whether each flaw is found.
fn all_are_found(alloc: Global, rows: &[Flawed]) -> Result<bool, AllocError> {
    let mut right = true;
    for row in rows {
        right &= is_found(alloc, row)?;
    }
    Ok(right)
}

#[test]
fn flaws(rt: HostRuntime) {
    assert!(rt; matches!(all_are_found(rt.alloc(), &FLAWS), Ok(true)));
}
