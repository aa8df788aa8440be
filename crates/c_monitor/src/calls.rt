//! Packets at the monitor of a slot.
ghost use Rattle.std.specs.Prelude.{◌≡◌, ◌≤◌, Some, Err, IsErr, length};
ghost use Rattle.monitor_ports.specs.Monitoring as spec;
ghost use Rattle.monitor_ports.specs.Texts.{record_line};
ghost use Rattle.trace_text.specs.Texts.{entry_line};
ghost use Rattle.c_buffer.specs.declared.outcome.Failure.TheVariants.{NoMemory};
ghost use Rattle.c_buffer.specs.Buffer.{filled};
ghost use Rattle.c_monitor.specs.Calls.{request_call, completion_call, acted_call, give_up_outcome, IsTraced};

use crate::failures::failure;
use crate::slot::{Slot, close, open};
use arrayvec::ArrayString;
use c_buffer::{Failure, LINE_BUFFER, Length, tell};
use history_words::Record;
use monitor_ports::{Monitor, write_entry, write_record};
use seq_memory::Entry;

/// Puts the line of a record to the front of the buffer.
fn put_record(is_trace: bool, seen: &Record, buffer: &mut [u8]) -> Length
    requires { 512 ≤ length buffer.old }
    ensures length { result ≡ length (record_line is_trace seen.now) }
    ensures buffer { buffer.new ≡ filled buffer.old (record_line is_trace seen.now) }
{
    let mut line = ArrayString::new();
    write_record(is_trace, seen, &mut line);
    tell(line.as_bytes(), buffer)
}

/// Puts the line of an entry to the front of the buffer.
fn put_entry(entry: &Entry, buffer: &mut [u8]) -> Length
    requires { 512 ≤ length buffer.old }
    ensures length { result ≡ length (entry_line entry.now) }
    ensures buffer { buffer.new ≡ filled buffer.old (entry_line entry.now) }
{
    let mut line = ArrayString::new();
    write_entry(entry, &mut line);
    tell(line.as_bytes(), buffer)
}

fn request(
    monitor: &mut Monitor,
    requester: u8,
    packet: &[u8],
    buffer: &mut [u8],
) -> Result<Length, Failure>
    ensures outcome { ¬ (result ≡ Err NoMemory) → result ≡ (request_call monitor.old requester packet.now buffer.old).outcome }
    ensures monitor { ¬ (result ≡ Err NoMemory) → monitor.new ≡ (request_call monitor.old requester packet.now buffer.old).monitor }
    ensures buffer { ¬ (result ≡ Err NoMemory) → buffer.new ≡ (request_call monitor.old requester packet.now buffer.old).buffer }
    ensures no_memory { result ≡ Err NoMemory → IsTraced monitor.old requester packet.now buffer.old }
    ensures unchanged { IsErr result → (monitor.new ≡ monitor.old) × (buffer.new ≡ buffer.old) }
{
    if buffer.len() < LINE_BUFFER {
        return Err(Failure::SmallBuffer);
    }
    let is_trace = monitor.is_trace();
    match monitor.request(requester, packet) {
        Ok(seen) => Ok(put_record(is_trace, &seen, buffer)),
        Err(fault) => Err(failure(fault)),
    }
}

fn completion(
    monitor: &mut Monitor,
    requester: u8,
    packet: &[u8],
    buffer: &mut [u8],
) -> Result<Length, Failure>
    ensures outcome { result ≡ (completion_call monitor.old requester packet.now buffer.old).outcome }
    ensures monitor { monitor.new ≡ (completion_call monitor.old requester packet.now buffer.old).monitor }
    ensures buffer { buffer.new ≡ (completion_call monitor.old requester packet.now buffer.old).buffer }
    ensures unchanged { IsErr result → (monitor.new ≡ monitor.old) × (buffer.new ≡ buffer.old) }
{
    if buffer.len() < LINE_BUFFER {
        return Err(Failure::SmallBuffer);
    }
    let is_trace = monitor.is_trace();
    match monitor.completion(requester, packet) {
        Ok(seen) => Ok(put_record(is_trace, &seen, buffer)),
        Err(fault) => Err(failure(fault)),
    }
}

fn acted(
    monitor: &mut Monitor,
    requester: u8,
    number: u32,
    buffer: &mut [u8],
) -> Result<Length, Failure>
    ensures outcome { result ≡ (acted_call monitor.old requester number buffer.old).outcome }
    ensures monitor { monitor.new ≡ (acted_call monitor.old requester number buffer.old).monitor }
    ensures buffer { buffer.new ≡ (acted_call monitor.old requester number buffer.old).buffer }
    ensures unchanged { IsErr result → (monitor.new ≡ monitor.old) × (buffer.new ≡ buffer.old) }
{
    if buffer.len() < LINE_BUFFER {
        return Err(Failure::SmallBuffer);
    }
    match monitor.acted(requester, number) {
        Ok(entry) => Ok(put_entry(&entry, buffer)),
        Err(fault) => Err(failure(fault)),
    }
}

/// A port carried a request of the requester, 1 to 7. Ok is how many bytes its line has, at the front of
/// `buffer`: `sub 1 0 add 40 07000000`, in a trace with n behind the number. With an error nothing has
/// changed, and it is the first of these: `SmallBuffer` for fewer than 512 bytes, `NoRequester`, the
/// number of the packet's fault, `NoRequest` for a completion, fault 23 (`OtherRequester`), 20
/// (`TagInUse`), 24 (`NumbersUsed`), in a trace alone `NoMemory`. The monitor goes to `back`.
pub fn tell_request(
    slot: Slot,
    requester: u8,
    packet: &[u8],
    buffer: &mut [u8],
    back: &mut Slot,
) -> Result<Length, Failure>
    ghost monitor: { spec.Monitor }
    requires { slot.monitor ≡ Some monitor }
    ensures outcome { ¬ (result ≡ Err NoMemory) → result ≡ (request_call monitor requester packet.now buffer.old).outcome }
    ensures monitor { ¬ (result ≡ Err NoMemory) → back.new.monitor ≡ Some (request_call monitor requester packet.now buffer.old).monitor }
    ensures buffer { ¬ (result ≡ Err NoMemory) → buffer.new ≡ (request_call monitor requester packet.now buffer.old).buffer }
    ensures no_memory { result ≡ Err NoMemory → IsTraced monitor requester packet.now buffer.old }
    ensures unchanged { IsErr result → (back.new.monitor ≡ Some monitor) × (buffer.new ≡ buffer.old) }
{
    let mut held = open(slot);
    let outcome = request(&mut held, requester, packet, buffer);
    *back = close(held);
    outcome
}

/// A port carried a completion to the requester, 1 to 7. Ok is how many bytes its line has, at the front
/// of `buffer`: `ans 1 0 data 00000000`, in a trace with n behind the number; bytes of a read that were
/// not enabled are 00. With an error nothing has changed, and it is the first of these: `SmallBuffer`
/// for fewer than 512 bytes, `NoRequester`, the number of the packet's fault, `NoCompletion` for a
/// request, fault 23 (`OtherRequester`), 21 (`Unexpected`), 22 (`Mismatch`). The monitor goes to `back`.
pub fn tell_completion(
    slot: Slot,
    requester: u8,
    packet: &[u8],
    buffer: &mut [u8],
    back: &mut Slot,
) -> Result<Length, Failure>
    ghost monitor: { spec.Monitor }
    requires { slot.monitor ≡ Some monitor }
    ensures outcome { result ≡ (completion_call monitor requester packet.now buffer.old).outcome }
    ensures monitor { back.new.monitor ≡ Some (completion_call monitor requester packet.now buffer.old).monitor }
    ensures buffer { buffer.new ≡ (completion_call monitor requester packet.now buffer.old).buffer }
    ensures unchanged { IsErr result → (back.new.monitor ≡ Some monitor) × (buffer.new ≡ buffer.old) }
{
    let mut held = open(slot);
    let outcome = completion(&mut held, requester, packet, buffer);
    *back = close(held);
    outcome
}

fn give_up(monitor: &mut Monitor, requester: u8, tag: u8) -> Result<(), Failure>
    ensures outcome { result ≡ give_up_outcome monitor.old requester tag }
    ensures monitor { monitor.new ≡ (spec.given_up monitor.old requester tag).monitor }
    ensures unchanged { IsErr result → monitor.new ≡ monitor.old }
{
    match monitor.give_up(requester, tag) {
        Ok(()) => Ok(()),
        Err(fault) => Err(failure(fault)),
    }
}

/// No completion is waited for any longer under the tag of the requester, 1 to 7: the tag is free, and the
/// request that was open under it has no answer. With an error nothing has changed, and it is the first of
/// these: `NoRequester`, fault 21 (`Unexpected`) if no request is open under the tag. The monitor goes to
/// `back`.
pub fn give_up_tag(slot: Slot, requester: u8, tag: u8, back: &mut Slot) -> Result<(), Failure>
    ghost monitor: { spec.Monitor }
    requires { slot.monitor ≡ Some monitor }
    ensures outcome { result ≡ give_up_outcome monitor requester tag }
    ensures monitor { back.new.monitor ≡ Some (spec.given_up monitor requester tag).monitor }
    ensures unchanged { IsErr result → back.new.monitor ≡ Some monitor }
{
    let mut held = open(slot);
    let outcome = give_up(&mut held, requester, tag);
    *back = close(held);
    outcome
}

/// A request acted on the memory. Ok is how many bytes the line of its entry has, at the front of
/// `buffer`: `ent 1 0 add 40 07000000`. With an error nothing has changed, and it is the first of these:
/// `SmallBuffer` for fewer than 512 bytes, `NoRequester`, fault 21 (`Unexpected`) if no request of that
/// number waits to act, as in a log, 24 (`NumbersUsed`). The monitor goes to `back`.
pub fn tell_acted(
    slot: Slot,
    requester: u8,
    number: u32,
    buffer: &mut [u8],
    back: &mut Slot,
) -> Result<Length, Failure>
    ghost monitor: { spec.Monitor }
    requires { slot.monitor ≡ Some monitor }
    ensures outcome { result ≡ (acted_call monitor requester number buffer.old).outcome }
    ensures monitor { back.new.monitor ≡ Some (acted_call monitor requester number buffer.old).monitor }
    ensures buffer { buffer.new ≡ (acted_call monitor requester number buffer.old).buffer }
    ensures unchanged { IsErr result → (back.new.monitor ≡ Some monitor) × (buffer.new ≡ buffer.old) }
{
    let mut held = open(slot);
    let outcome = acted(&mut held, requester, number, buffer);
    *back = close(held);
    outcome
}

/// How many requests wait for their completions at the monitor of the slot, which goes to `back`.
pub fn count_open(slot: Slot, back: &mut Slot) -> usize
    ghost monitor: { spec.Monitor }
    requires { slot.monitor ≡ Some monitor }
    ensures value { result ≡ spec.open_requests monitor }
    ensures unchanged { back.new.monitor ≡ Some monitor }
{
    let held = open(slot);
    let count = held.open();
    *back = close(held);
    count
}
