//! Calls on a monitor, and the line or the fault of each.
use arrayvec::ArrayString;
use monitor_ports::{Monitor, MonitorFault, read_head, write_entry, write_head, write_record};
use std::alloc::{AllocError, Global};

/// A call on a monitor, of a requester.
enum Call {
    /// The port carries a request of these bytes.
    Request(u8, &'static [u8]),
    /// The port carries a completion of these bytes.
    Completion(u8, &'static [u8]),
    /// The tag is given up.
    GiveUp(u8, u8),
    /// The request of that number acts.
    Acted(u8, u32),
}

/// A call, and its line or the name of its fault.
struct Row(Call, &'static str);

/// Adds 7 at 40h, under tag 5.
const ADD: &[u8] = &[0x4C, 0, 0, 1, 1, 0, 5, 0, 0, 0, 0, 0x40, 7, 0, 0, 0];

/// The completion of that: 0.
const ADDED: &[u8] = &[0x4A, 0, 0, 1, 0, 0, 0, 4, 1, 0, 5, 0, 0, 0, 0, 0];

/// The same addition of another Requester ID.
const OTHER: &[u8] = &[0x4C, 0, 0, 1, 2, 0, 6, 0, 0, 0, 0, 0x40, 7, 0, 0, 0];

/// Reads the first two bytes of the DW at 40h, under tag 6.
const READ: &[u8] = &[0, 0, 0, 1, 1, 0, 6, 3, 0, 0, 0, 0x40];

/// The completion of that, with all four bytes.
const DATA: &[u8] = &[
    0x4A, 0, 0, 1, 0, 0, 0, 4, 1, 0, 6, 0, 0xAA, 0xBB, 0xCC, 0xDD,
];

/// Writes a DW at 44h.
const WRITE: &[u8] = &[0x40, 0, 0, 1, 1, 0, 5, 0xF, 0, 0, 0, 0x44, 1, 2, 3, 4];

/// Reads two DW at 40h, under tag 6.
const LONG_READ: &[u8] = &[0, 0, 0, 2, 1, 0, 6, 0xFF, 0, 0, 0, 0x40];

/// Unsupported Request, under tag 6.
const UNSUPPORTED: &[u8] = &[0xA, 0, 0, 0, 0, 0, 0x20, 4, 1, 0, 6, 0];

/// Compares the DW at 40h with 7 and puts 8 there, under tag 7.
const CAS: &[u8] = &[
    0x4E, 0, 0, 2, 1, 0, 7, 0, 0, 0, 0, 0x40, 7, 0, 0, 0, 8, 0, 0, 0,
];

/// The completion of that: 7.
const COMPARED: &[u8] = &[0x4A, 0, 0, 1, 0, 0, 0, 4, 1, 0, 7, 0, 7, 0, 0, 0];

/// The same with both operands' length.
const COMPARED_LONG: &[u8] = &[
    0x4A, 0, 0, 2, 0, 0, 0, 8, 1, 0, 7, 0, 7, 0, 0, 0, 8, 0, 0, 0,
];

/// Puts 9 into the two DW at 40h, under tag 8.
const SWAP: &[u8] = &[
    0x4D, 0, 0, 2, 1, 0, 8, 0, 0, 0, 0, 0x40, 9, 0, 0, 0, 0, 0, 0, 0,
];

/// The completion of that: 8.
const SWAPPED: &[u8] = &[
    0x4A, 0, 0, 2, 0, 0, 0, 8, 1, 0, 8, 0, 8, 0, 0, 0, 0, 0, 0, 0,
];

/// Reads the two DW at 7Ch, under tag 9.
const READ_ACROSS: &[u8] = &[0, 0, 0, 2, 1, 0, 9, 0xFF, 0, 0, 0, 0x7C];

/// Completer Abort, under tag 9.
const ABORTED: &[u8] = &[0xA, 0, 0, 0, 0, 0, 0x80, 8, 1, 0, 9, 0];

static LOG: [Row; 28] = [
    Row(Call::Request(0, ADD), "NoRequester"),
    Row(Call::Request(8, ADD), "NoRequester"),
    Row(Call::Request(1, &[0x4C]), "Short"),
    Row(Call::Completion(1, ADDED), "Unexpected"),
    Row(Call::Request(1, ADD), "sub 1 0 add 40 07000000"),
    Row(Call::Request(1, ADD), "TagInUse"),
    Row(Call::Request(2, ADD), "sub 2 0 add 40 07000000"),
    Row(Call::Request(1, OTHER), "OtherRequester"),
    Row(Call::Request(1, ADDED), "NoRequest"),
    Row(Call::Completion(1, ADD), "NoCompletion"),
    Row(Call::Acted(1, 0), "Unexpected"),
    Row(Call::Request(1, READ), "sub 1 1 read 40 1 3 0"),
    Row(Call::Request(1, WRITE), "sub 1 2 write 44 F 0 01020304"),
    Row(Call::Completion(1, DATA), "ans 1 1 data AABB0000"),
    Row(Call::Completion(1, DATA), "Unexpected"),
    Row(Call::Completion(1, ADDED), "ans 1 0 data 00000000"),
    Row(Call::Request(1, ADD), "sub 1 3 add 40 07000000"),
    Row(Call::Request(1, LONG_READ), "sub 1 4 read 40 2 F F"),
    Row(Call::Completion(1, DATA), "Mismatch"),
    Row(Call::Request(1, READ), "TagInUse"),
    Row(Call::GiveUp(0, 6), "NoRequester"),
    Row(Call::GiveUp(1, 7), "Unexpected"),
    Row(Call::GiveUp(2, 6), "Unexpected"),
    Row(Call::GiveUp(1, 6), ""),
    Row(Call::GiveUp(1, 6), "Unexpected"),
    Row(Call::Completion(1, UNSUPPORTED), "Unexpected"),
    Row(Call::Request(1, LONG_READ), "sub 1 5 read 40 2 F F"),
    Row(Call::Completion(1, UNSUPPORTED), "ans 1 5 ur"),
];

static TRACE: [Row; 9] = [
    Row(Call::Request(1, ADD), "sub 1 0 0 add 40 07000000"),
    Row(Call::Request(1, WRITE), "sub 1 1 0 write 44 F 0 01020304"),
    Row(Call::Acted(1, 1), "ent 1 1 write 44 F 0 01020304"),
    Row(Call::Acted(1, 1), "Unexpected"),
    Row(Call::Acted(0, 0), "NoRequester"),
    Row(Call::Acted(1, 0), "ent 1 0 add 40 07000000"),
    Row(Call::Completion(1, ADDED), "ans 1 0 2 data 00000000"),
    Row(Call::Request(1, READ), "sub 1 2 2 read 40 1 3 0"),
    Row(Call::Completion(1, DATA), "ans 1 2 2 data AABB0000"),
];

static KINDS: [Row; 7] = [
    Row(Call::Request(1, CAS), "sub 1 0 cas 40 07000000 08000000"),
    Row(Call::Completion(1, COMPARED_LONG), "Mismatch"),
    Row(Call::Completion(1, COMPARED), "ans 1 0 data 07000000"),
    Row(Call::Request(1, SWAP), "sub 1 1 swap 40 0900000000000000"),
    Row(
        Call::Completion(1, SWAPPED),
        "ans 1 1 data 0800000000000000",
    ),
    Row(Call::Request(1, READ_ACROSS), "sub 1 2 read 7C 2 F F"),
    Row(Call::Completion(1, ABORTED), "ans 1 2 ca"),
];

static SEVEN: [Row; 12] = [
    Row(Call::Request(1, ADD), "sub 1 0 0 add 40 07000000"),
    Row(Call::Request(2, ADD), "sub 2 0 0 add 40 07000000"),
    Row(Call::Request(3, ADD), "sub 3 0 0 add 40 07000000"),
    Row(Call::Request(4, ADD), "sub 4 0 0 add 40 07000000"),
    Row(Call::Request(5, ADD), "sub 5 0 0 add 40 07000000"),
    Row(Call::Request(6, ADD), "sub 6 0 0 add 40 07000000"),
    Row(Call::Request(7, ADD), "sub 7 0 0 add 40 07000000"),
    Row(Call::Acted(7, 0), "ent 7 0 add 40 07000000"),
    Row(Call::Completion(7, ADDED), "ans 7 0 1 data 00000000"),
    Row(Call::GiveUp(1, 5), ""),
    Row(Call::Acted(1, 0), "ent 1 0 add 40 07000000"),
    Row(Call::Completion(1, ADDED), "Unexpected"),
];

/// Writes the line of the call, or returns its fault.
fn line_of(
    monitor: &mut Monitor,
    call: &Call,
    line: &mut ArrayString<512>,
) -> Result<(), MonitorFault> {
    line.clear();
    let is_trace = monitor.is_trace();
    match call {
        Call::Request(i, packet) => write_record(is_trace, &monitor.request(*i, packet)?, line),
        Call::Completion(i, packet) => {
            write_record(is_trace, &monitor.completion(*i, packet)?, line);
        }
        Call::GiveUp(i, tag) => monitor.give_up(*i, *tag)?,
        Call::Acted(i, number) => write_entry(&monitor.acted(*i, *number)?, line),
    }
    Ok(())
}

fn is_right(monitor: &mut Monitor, row: &Row) -> bool {
    let mut line = ArrayString::new();
    match line_of(monitor, &row.0, &mut line) {
        Ok(()) => line.as_str() == row.1,
        Err(fault) => fault.name() == row.1,
    }
}

fn are_right(monitor: &mut Monitor, rows: &[Row]) -> bool {
    let mut right = true;
    for row in rows {
        right &= is_right(monitor, row);
    }
    right
}

/// Whether all rows are right, and so many requests are open then.
fn all_right(
    alloc: Global,
    is_trace: bool,
    rows: &[Row],
    count: usize,
) -> Result<bool, AllocError> {
    let mut monitor = Monitor::new(alloc, is_trace)?;
    Ok(are_right(&mut monitor, rows) && monitor.open() == count)
}

#[test]
fn a_log(rt: HostRuntime) {
    assert!(rt; all_right(rt.alloc(), false, &LOG, 2) == Ok(true));
}

#[test]
fn a_trace(rt: HostRuntime) {
    assert!(rt; all_right(rt.alloc(), true, &TRACE, 0) == Ok(true));
}

#[test]
fn kinds(rt: HostRuntime) {
    assert!(rt; all_right(rt.alloc(), false, &KINDS, 0) == Ok(true));
}

#[test]
fn seven_requesters(rt: HostRuntime) {
    assert!(rt; all_right(rt.alloc(), true, &SEVEN, 5) == Ok(true));
}

/// A line, and the head's lines that it asks for; empty if it asks for none.
struct HeadRow(&'static str, &'static str);

static HEADS: [HeadRow; 7] = [
    HeadRow("log 0 4096 block 64", "pciex-log 1\nmemory 0 4096 64"),
    HeadRow(
        "trace FF80 128 block 128",
        "pciex-trace 2\nmemory FF80 128 128",
    ),
    HeadRow("log 0 4096", ""),
    HeadRow("log 0 4096 block", ""),
    HeadRow("log 0 4096 block 64 ", ""),
    HeadRow("logs 0 4096 block 64", ""),
    HeadRow("", ""),
];

fn has_head(row: &HeadRow) -> bool {
    let mut text = ArrayString::new();
    if let Some(head) = read_head(row.0.as_bytes()) {
        write_head(&head, &mut text);
    }
    text.as_str() == row.1
}

#[test]
fn heads(rt: HostRuntime) {
    let mut right = true;
    for row in &HEADS {
        right &= has_head(row);
    }
    assert!(rt; right);
}
