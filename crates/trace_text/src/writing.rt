//! Writing the text of a trace.
ghost use Rattle.std.specs.Prelude.{◌≡◌, ◌≤◌, ◌++◌, ◌∷◌, [], length, map, string_bytes, IfOk, OnOk};
ghost use Rattle.std.specs.Fmt.{decimal};
ghost use Rattle.arrayvec.specs.ArrayString.{array_string_len};
ghost use Rattle.trace_text.specs.TraceRewriterView.{behind_of};
ghost use Rattle.trace_text.specs.Texts.{memory_line, record_line, entry_line, lines_text, records_text, trace_text};

use crate::line::Line;
use arrayvec::ArrayString;
use history_words::{AsClaim, RecordRef};
use operation_text::{write_decimal, write_hexadecimal, write_op, write_reply};
use seq_memory::{EntryRef, Extent};
use std::alloc::{AllocError, Global};

/// Writes the kind of a record, its requester and its request's number.
fn put_request(kind: &str, requester: u8, number: u32, line: &mut ArrayString<512>)
    requires empty { array_string_len line.old ≡ 0 }
    requires kind { length kind.now ≤ 4 }
    ensures text { line.new.bytes ≡ kind.now ++ (decimal requester ++ 32 ∷ decimal number) }
    ensures len { array_string_len line.new ≤ 45 }
{
    line.push_str(kind);
    write_decimal(u64::from(requester), line);
    line.push_str(" ");
    write_decimal(u64::from(number), line);
}

/// Adds a space, the number and a space.
fn put_count(count: u64, line: &mut ArrayString<512>)
    requires { array_string_len line.old ≤ 45 }
    ensures text { line.new.bytes ≡ line.old.bytes ++ (32 ∷ decimal count ++ 32 ∷ []) }
    ensures len { array_string_len line.new ≤ 67 }
{
    line.push_str(" ");
    write_decimal(count, line);
    line.push_str(" ");
}

/// Writes the line of the memory.
fn write_memory(extent: Extent, line: &mut ArrayString<512>)
    requires { array_string_len line.old ≡ 0 }
    ensures { line.new.bytes ≡ memory_line (record { base = extent.base; size = extent.size; block = extent.block; entries = [] }) ++ 10 ∷ [] }
{
    line.push_str("memory ");
    write_hexadecimal(extent.base(), line);
    line.push_str(" ");
    write_decimal(extent.size() as u64, line);
    line.push_str(" ");
    write_decimal(u64::from(extent.block()), line);
    line.push_str("\n");
}

/// Writes the line of a record.
#[inline(always)]
fn write_record(seen: RecordRef<'_>, line: &mut ArrayString<512>)
    requires { array_string_len line.old ≡ 0 }
    ensures { line.new.bytes ≡ record_line seen.entry ++ 10 ∷ [] }
{
    match seen {
        RecordRef::Sub {
            requester,
            number,
            op,
            n,
        } => {
            put_request("sub ", requester, number, line);
            put_count(n, line);
            write_op(&op, line);
        }
        RecordRef::Ans {
            requester,
            number,
            reply,
            n,
        } => {
            put_request("ans ", requester, number, line);
            put_count(n, line);
            write_reply(&reply, line);
        }
    }
    line.push_str("\n");
}

/// Writes the line of an entry.
#[inline(always)]
fn write_entry(entry: EntryRef<'_>, line: &mut ArrayString<512>)
    requires { array_string_len line.old ≡ 0 }
    ensures { line.new.bytes ≡ entry_line entry.entry ++ 10 ∷ [] }
{
    put_request("ent ", entry.requester, entry.number, line);
    line.push_str(" ");
    write_op(&entry.op, line);
    line.push_str("\n");
}

/// Writes the end of a line in the second version, from its operation or its reply on; the whole line, if it has neither.
#[inline(always)]
pub(crate) fn write_behind(said: Line<'_>, line: &mut ArrayString<512>)
    requires { array_string_len line.old ≡ 0 }
    ensures { line.new.bytes ≡ behind_of said.entry }
{
    match said {
        Line::FirstLine(_) => line.push_str("pciex-trace 2\n"),
        // (rattle has no proof of a line whose extent is taken by value)
        Line::Memory(ref extent) => write_memory(*extent, line),
        Line::Record(RecordRef::Sub { op, .. }) => {
            write_op(&op, line);
            line.push_str("\n");
        }
        Line::Record(RecordRef::Ans { reply, .. }) => {
            write_reply(&reply, line);
            line.push_str("\n");
        }
        Line::History => line.push_str("history\n"),
        Line::Entry(entry) => {
            write_op(&entry.op, line);
            line.push_str("\n");
        }
        Line::End => line.push_str("end\n"),
    }
}

/// Adds the lines of the records.
fn put_records<C: AsClaim>(claim: &C, text: &mut String) -> Result<(), AllocError>
    ensures { OnOk result (string_bytes text.new ≡ string_bytes text.old ++ lines_text (map record_line (C.claim claim.now).records)) }
{
    let mut line = ArrayString::new();
    for place in 0..claim.records() {
        if let Some(record) = claim.record(place) {
            line.clear();
            write_record(record, &mut line);
            text.push_str(line.as_str())?;
        }
    }
    Ok(())
}

/// Adds the lines of the entries.
fn put_entries<C: AsClaim>(claim: &C, text: &mut String) -> Result<(), AllocError>
    ensures { OnOk result (string_bytes text.new ≡ string_bytes text.old ++ lines_text (map entry_line (C.claim claim.now).memory.entries)) }
{
    let mut line = ArrayString::new();
    for index in 0..claim.entries() {
        if let Some(entry) = claim.entry(index) {
            line.clear();
            write_entry(entry, &mut line);
            text.push_str(line.as_str())?;
        }
    }
    Ok(())
}

/// The text up to the entries of the history.
fn write_records<C: AsClaim>(alloc: Global, claim: &C) -> Result<String, AllocError>
    ensures { IfOk result (λ text. string_bytes text ≡ records_text (C.claim claim.now)) }
{
    let mut text = String::new(alloc);
    text.push_str("pciex-trace 2\n")?;
    let mut line = ArrayString::new();
    write_memory(claim.extent(), &mut line);
    text.push_str(line.as_str())?;
    put_records(claim, &mut text)?;
    text.push_str("history\n")?;
    Ok(text)
}

/// The text of the trace and the history, in the second version. What some text spells is read back
/// from it.
pub fn write_trace<C: AsClaim>(alloc: Global, claim: &C) -> Result<String, AllocError>
    ensures { IfOk result (λ text. string_bytes text ≡ trace_text (C.claim claim.now)) }
{
    let mut text = write_records(alloc, claim)?;
    put_entries(claim, &mut text)?;
    text.push_str("end\n")?;
    Ok(text)
}
