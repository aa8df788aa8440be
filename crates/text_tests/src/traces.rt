//! Worked texts of traces, in both versions.
use crate::rows::{Row, all_right};
use history_check::check_claim;
use record_text::{ReadFault, ReadFaultKind};
use std::alloc::{AllocError, Global};
use trace_store::TraceStore;
use trace_text::{TraceReader, own_text_spells_trace, read_trace, write_trace};

/// The fault of the text.
fn fault_of(alloc: Global, text: &str) -> Option<ReadFault> {
    read_trace(alloc, text.as_bytes()).err()
}

/// A text, the number of its fault's line, and the name of the fault; 0 and nothing where it is read.
struct Fault(&'static str, u64, &'static str);

impl Row for Fault {
    fn is_right(&self, alloc: Global) -> bool {
        match fault_of(alloc, self.0) {
            Some(fault) => fault.line == self.1 && fault.kind.name() == self.2,
            None => self.1 == 0 && self.2.is_empty(),
        }
    }
}

static FAULTS: [Fault; 31] = [
    Fault("", 1, "Head"),
    Fault("#\n\n# x\n", 4, "Head"),
    Fault("pciex-trace 3\n", 1, "Head"),
    Fault("pciex-trace 1 \n", 1, "Head"),
    Fault("memory 0 4096\n", 1, "Head"),
    Fault("pciex-trace 1\r", 1, "Head"),
    Fault("pciex-trace 1", 2, "Line"),
    Fault("pciex-trace 1\n\n", 3, "Line"),
    Fault("pciex-trace 1\nmemory 0 4096 64\n", 2, "Line"),
    Fault("pciex-trace 2\nmemory 0 4096\n", 2, "Line"),
    Fault("pciex-trace 2\nmemory 0 4096 96\n", 2, "Line"),
    Fault("pciex-trace 1\nmemory 00 4096\n", 2, "Line"),
    Fault("pciex-trace 1\nmemory 40 4096\n", 2, "Line"),
    Fault("pciex-trace 2\nmemory 8 4096 64\n", 2, "Line"),
    Fault("pciex-trace 2\nmemory 0 2 128\n", 2, "Line"),
    Fault("pciex-trace 1\nmemory 0 100\n", 2, "Line"),
    Fault(
        "pciex-trace 1\nmemory 0 4096\nans 1 0 0 done\nsub 1 0 0 read 40 1 F 0\nend\n",
        3,
        "Line",
    ),
    Fault("pciex-trace 1\nmemory 0  4096\n", 2, "Line"),
    Fault("pciex-trace 1\nhistory\n", 2, "Section"),
    Fault("pciex-trace 1\nmemory 0 4096\n", 3, "Section"),
    Fault("pciex-trace 1\nmemory 0 4096\nhistory\n", 4, "Section"),
    Fault("pciex-trace 1\nmemory 0 4096\nend\n", 3, "Section"),
    Fault(
        "pciex-trace 1\nmemory 0 4096\npciex-trace 2\n",
        3,
        "Section",
    ),
    Fault(
        "pciex-trace 1\nmemory 0 4096\nsub 0 0 0 read 40 1 F 0\n",
        3,
        "Line",
    ),
    Fault(
        "pciex-trace 1\nmemory 0 4096\nsub 8 0 0 read 40 1 F 0\n",
        3,
        "Line",
    ),
    Fault(
        "pciex-trace 1\nmemory 0 4096\nsub 1 4294967295 0 read 40 1 F 0\n",
        3,
        "Line",
    ),
    Fault(
        "pciex-trace 1\nmemory 0 4096\nsub 1 0 18446744073709551616 read 40 1 F 0\n",
        3,
        "Line",
    ),
    Fault("pciex-trace 1\nmemory 0 4096\nans 1 0 0 done\n", 3, "Line"),
    Fault(
        "pciex-trace 1\nmemory 0 4096\nhistory\nsub 1 0 0 read 40 1 F 0\n",
        4,
        "Section",
    ),
    Fault(
        "pciex-trace 1\nmemory 0 4096\nhistory\nend\nend\n",
        5,
        "Section",
    ),
    Fault(
        "pciex-trace 1\nmemory 0 4096\nhistory\nend\r\n# x\n\n",
        0,
        "",
    ),
];

#[test]
fn faults(rt: HostRuntime) {
    assert!(rt; all_right(&FAULTS, rt.alloc()));
}

/// A fault of the third line.
const THIRD: ReadFault = ReadFault {
    kind: ReadFaultKind::Line,
    line: 3,
};

/// Takes four lines, the third of them too long.
fn take(reader: &mut TraceReader) -> Result<(), AllocError> {
    reader.line(b"pciex-trace 1")?;
    reader.line(b"# x")?;
    reader.long_line();
    reader.line(b"memory 0 4096")
}

/// Whether the lines are taken, the third being at fault.
fn takes(reader: &mut TraceReader) -> bool {
    let taken = take(reader).is_ok();
    taken && reader.fault() == Some(THIRD) && reader.out_of_memory().kind.number() == 4
}

fn has_long_line(alloc: Global) -> bool {
    let mut reader = TraceReader::new(alloc);
    let taken = takes(&mut reader);
    match reader.end() {
        Ok(_) => false,
        Err(fault) => taken && fault == THIRD,
    }
}

/// Whether the fault is told so.
fn is_told(alloc: Global, fault: ReadFault) -> bool {
    match format!(in alloc; "{fault}") {
        Ok(text) => text.as_str() == "Line in line 3",
        Err(_) => false,
    }
}

#[test]
fn long_lines(rt: HostRuntime) {
    assert!(rt; has_long_line(rt.alloc()) && is_told(rt.alloc(), THIRD));
}

/// The number of the first flaw, and its place; 0 where there is none.
fn flaw_of(alloc: Global, claim: &TraceStore) -> (u8, usize) {
    match check_claim(alloc, claim) {
        Ok(()) => (0, 0),
        Err(flaw) => (flaw.kind.number(), flaw.place),
    }
}

/// A text, the number of its first flaw, and the place of that; 0 where there is none.
struct Flawed(&'static str, u8, usize);

impl Row for Flawed {
    fn is_right(&self, alloc: Global) -> bool {
        match read_trace(alloc, self.0.as_bytes()) {
            Ok(claim) => flaw_of(alloc, &claim) == (self.1, self.2),
            Err(_) => false,
        }
    }
}

static CHECKED: [Flawed; 5] = [
    Flawed(
        "pciex-trace 1\nmemory 0 4096\nsub 1 0 0 read 40 1 F 0\nsub 1 1 0 write 40 F 0 01020304\nans 1 0 2 data 01020304\nhistory\nent 1 1 write 40 F 0 01020304\nent 1 0 read 40 1 F 0\nend\n",
        0,
        0,
    ),
    Flawed(
        "pciex-trace 2\nmemory 0 4096 64\nsub 1 0 0 read 40 1 f 0\nsub 1 1 0 write 40 F 0 01020304\nans 1 0 2 data 00000000\nhistory\nent 1 1 write 40 F 0 01020304\nent 1 0 read 40 1 F 0\nend\n",
        10,
        2,
    ),
    Flawed(
        "pciex-trace 2\nmemory 0 4096 64\nsub 1 0 0 read 40 1 f 0\nsub 1 1 0 write 40 F 0 01020304\nans 1 0 1 data 01020304\nhistory\nent 1 1 write 40 F 0 01020304\nent 1 0 read 40 1 F 0\nend\n",
        9,
        2,
    ),
    Flawed(
        "pciex-trace 2\nmemory 0 4096 128\nsub 1 0 0 read 3C 2 F F\nans 1 0 1 data 0000000000000000\nhistory\nent 1 0 read 3C 2 F F\nend\n",
        0,
        0,
    ),
    Flawed(
        "pciex-trace 2\nmemory 0 4096 64\nsub 1 0 0 read 3C 2 F F\nans 1 0 1 data 0000000000000000\nhistory\nent 1 0 read 3C 2 F F\nend\n",
        10,
        1,
    ),
];

#[test]
fn checked(rt: HostRuntime) {
    assert!(rt; all_right(&CHECKED, rt.alloc()));
}

/// A text in the first version.
const FIRST: &[u8] =
    b"pciex-trace 1\n# seen\nmemory ff80 4096\r\n\nsub 1 0 0 read 40 1 f 0\nsub 7 0 0 write 3c F a 0a0b0C0d0A0B0C0D\nans 1 0 2 ur\nhistory\nent 1 0 read 40 1 F 0\nend";

/// The same in the second, as it is written.
const SECOND: &str =
    "pciex-trace 2\nmemory FF80 4096 64\nsub 1 0 0 read 40 1 F 0\nsub 7 0 0 write 3C F A 0A0B0C0D0A0B0C0D\nans 1 0 2 ur\nhistory\nent 1 0 read 40 1 F 0\nend\n";

/// The text that is written of what is read.
fn rewritten(alloc: Global, text: &[u8]) -> Option<String> {
    write_trace(alloc, &read_trace(alloc, text).ok()?).ok()
}

/// Whether the text is read, and written as the second.
fn is_upgraded(alloc: Global, text: &[u8]) -> bool {
    match rewritten(alloc, text) {
        Some(text) => text.as_str() == SECOND,
        None => false,
    }
}

#[test]
fn upgraded(rt: HostRuntime) {
    own_text_spells_trace();
    assert!(rt; is_upgraded(rt.alloc(), FIRST) && is_upgraded(rt.alloc(), SECOND.as_bytes()));
}
