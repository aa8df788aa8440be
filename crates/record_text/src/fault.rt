//! Why a text of records can't be read.
ghost use Rattle.std.specs.Prelude.{◌≡◌, ◌≤◌, ◌+◌, ◌++◌};
ghost use Rattle.arrayvec.specs.ArrayString.{array_string_len};
ghost use Rattle.record_text.specs.Names.{number_of, name_of, fault_line};

use arrayvec::ArrayString;
use operation_text::{Expected, Misfit, write_decimal};
use std::fmt;
use thiserror::Error;

/// The faults of a trace's text, in the order of their numbers.
#[derive(Clone, Copy, Debug, PartialEq)]
pub enum ReadFaultKind {
    /// The first line is not `pciex-trace 1` or `pciex-trace 2`, or there is none.
    Head,
    /// A line after the head has no known form, more than 512 bytes or a value out of range, wherever it
    /// stands; or the text ends before the memory's line.
    Line,
    /// A line of a known form isn't due: another than the memory's after the head, or one of another
    /// section, or any after `end`; or the text ends before `history` or before `end`.
    Section,
    /// An allocation failed: nothing is known of the text from that line on.
    Memory,
}

impl fmt::Display for ReadFaultKind {
    fn fmt<W: fmt::Write>(&self, f: &mut fmt::Formatter<W>) -> fmt::Result {
        f.write_str(self.name())
    }
}

impl std::error::Error for ReadFaultKind {}

impl ReadFaultKind {
    /// The number under which the fault is told, 1 to 4.
    pub fn number(self) -> u8
        ensures { result ≡ number_of self }
    {
        match self {
            ReadFaultKind::Head => 1,
            ReadFaultKind::Line => 2,
            ReadFaultKind::Section => 3,
            ReadFaultKind::Memory => 4,
        }
    }

    /// The name under which the fault is told, as `Display` writes it.
    pub fn name(self) -> &'static str
        ensures { result.now ≡ name_of self }
    {
        match self {
            ReadFaultKind::Head => "Head",
            ReadFaultKind::Line => "Line",
            ReadFaultKind::Section => "Section",
            ReadFaultKind::Memory => "Memory",
        }
    }
}

/// The first fault, and the number of its line, from 1. What is missing is told with the number
/// behind that of the last line.
#[derive(Clone, Copy, Debug, PartialEq, Error)]
#[error("{kind} in line {line}")]
pub struct ReadFault {
    pub kind: ReadFaultKind,
    pub line: u64,
}

/// What is wrong at a fault, for people.
#[derive(Clone, Copy, PartialEq)]
pub enum Cause {
    /// This doesn't fit in the line.
    Misfit(Misfit),
    /// The line has more than 512 bytes.
    LongLine,
    /// The text ends where this is due.
    End(Expected),
}

/// The first fault of a text, and its cause, which says nothing for the kind `Memory`.
#[derive(Clone, Copy)]
pub struct Misread {
    pub fault: ReadFault,
    pub cause: Cause,
}

/// Adds `fault`, the number of the line that can't be read and the fault's name, at most 34 bytes.
pub fn write_fault(fault: ReadFault, out: &mut ArrayString<512>)
    requires { array_string_len out.old + 34 ≤ 512 }
    ensures text { out.new.bytes ≡ out.old.bytes ++ fault_line fault }
    ensures len { array_string_len out.new ≤ array_string_len out.old + 34 }
{
    out.push_str("fault ");
    write_decimal(fault.line, out);
    out.push_str(" ");
    out.push_str(fault.kind.name());
}
