//! Slots.
ghost use Rattle.std.specs.Prelude.{◌≡◌, ◌≤◌, Option, Some, Ok, Err, IsOk, IsErr, length};
ghost use Rattle.monitor_ports.specs.declared.head.Head as heads;
ghost use Rattle.monitor_ports.specs.Monitoring as spec;
ghost use Rattle.monitor_ports.specs.Texts.{head_lines};
ghost use Rattle.monitor_ports.specs.Heads.{memory_of};
ghost use Rattle.c_buffer.specs.declared.outcome.Failure.TheVariants.{NoMemory};
ghost use Rattle.c_buffer.specs.Buffer.{filled};
ghost use Rattle.c_device.specs.Calls.{limits};
ghost use Rattle.std.specs.Coded.{coded_option};
ghost use Rattle.c_buffer.specs.Slot.{slot_owns};
ghost use Rattle.monitor_ports.specs.contracts.monitor.Monitor.{the_row};
ghost use Rattle.c_monitor.specs.Calls.{made, making, AsksFor, IsMonitorCall};

use arrayvec::ArrayString;
use c_buffer::{Failure, LINE_BUFFER, Length, Parts, tell};
use c_device::extent_of;
use monitor_ports::{Head, Monitor, read_head, write_head};
use std::alloc::Global;
use std::marker::Model;

/// A monitor, or nothing. Where it is dropped, the monitor isn't freed.
#[repr(C)]
#[derive(Drop)]
pub struct Slot {
    at: *mut (),
    alloc: Global,
    pub ghost monitor: { Option spec.Monitor } by { coded_option the_row.coded },
}

impl Model for Slot {
    ghost also_owns = { λ s. slot_owns the_row s.alloc s.at s.monitor };
}

fn of_parts(parts: Parts<Monitor, Global>) -> Slot
    ensures { result.monitor ≡ Some parts.value }
{
    let Parts { ptr, alloc } = parts;
    Slot {
        at: ptr as *mut (),
        alloc,
    }
}

fn into_parts(slot: Slot) -> Parts<Monitor, Global>
    ghost monitor: { spec.Monitor }
    requires { slot.monitor ≡ Some monitor }
    ensures { result.value ≡ monitor }
{
    let Slot { at, alloc } = slot;
    Parts {
        ptr: at as *mut Monitor,
        alloc,
    }
}

/// Takes the monitor out of the slot.
pub(crate) fn open(slot: Slot) -> Box<Monitor, Global>
    ghost monitor: { spec.Monitor }
    requires { slot.monitor ≡ Some monitor }
    ensures { result.value ≡ monitor }
{
    into_parts(slot).into_box()
}

/// A slot that holds the monitor.
pub(crate) fn close(held: Box<Monitor, Global>) -> Slot
    ensures { result.monitor ≡ Some held.value }
{
    of_parts(Parts::of(held))
}

/// Puts the head's lines to the front of the buffer.
fn put_head(head: &Head, buffer: &mut [u8]) -> Length
    requires { 512 ≤ length buffer.old }
    ensures length { result ≡ length (head_lines head.now.is_trace (memory_of head.now)) }
    ensures buffer { buffer.new ≡ filled buffer.old (head_lines head.now.is_trace (memory_of head.now)) }
{
    let mut text = ArrayString::new();
    write_head(head, &mut text);
    tell(text.as_bytes(), buffer)
}

/// Makes the monitor that a head asks for.
fn make_in(
    alloc: Global,
    head: &Head,
    buffer: &mut [u8],
    slot: &mut Slot,
) -> Result<Length, Failure>
    requires buffer { 512 ≤ length buffer.old }
    requires limits { limits head.now.base head.now.size head.now.block ≡ Ok tt }
    ensures outcome { ¬ (result ≡ Err NoMemory) → result ≡ Ok (length (head_lines head.now.is_trace (memory_of head.now))) }
    ensures buffer { ¬ (result ≡ Err NoMemory) → buffer.new ≡ filled buffer.old (head_lines head.now.is_trace (memory_of head.now)) }
    ensures made { IsOk result → slot.new.monitor ≡ Some (spec.new head.now.is_trace) }
    ensures unchanged { IsErr result → (slot.new ≡ slot.old) × (buffer.new ≡ buffer.old) }
{
    let Ok(monitor) = Monitor::new(alloc, head.is_trace) else {
        return Err(Failure::NoMemory);
    };
    match Box::new(alloc, monitor) {
        Ok(held) => {
            *slot = close(held);
            Ok(put_head(head, buffer))
        }
        Err(_) => Err(Failure::NoMemory),
    }
}

/// Makes the monitor that the line asks for, as `log 0 4096 block 64` or `trace 0 4096 block 64`, in a
/// slot that holds nothing. Ok is how many bytes the first two lines of the log or the trace have, which
/// stand at the front of `buffer` with a line feed between them. With an error nothing has changed:
/// `SmallBuffer` for fewer than 512 bytes, `NoLine`, `WrongSize`, `WrongBase`, `WrongBlock`, `NoMemory`,
/// tested in this order.
pub fn new_monitor(
    alloc: Global,
    line: &[u8],
    buffer: &mut [u8],
    slot: &mut Slot,
) -> Result<Length, Failure>
    ensures outcome { ¬ (result ≡ Err NoMemory) → result ≡ (making line.now buffer.old).outcome }
    ensures buffer { ¬ (result ≡ Err NoMemory) → buffer.new ≡ (making line.now buffer.old).buffer }
    ensures no_memory { result ≡ Err NoMemory → IsMonitorCall line.now buffer.old }
    ensures made { IsOk result → (h : heads.Head) × AsksFor line.now h × (slot.new.monitor ≡ Some (spec.new h.is_trace)) }
    ensures unchanged { IsErr result → (slot.new ≡ slot.old) × (buffer.new ≡ buffer.old) }
{
    if buffer.len() < LINE_BUFFER {
        return Err(Failure::SmallBuffer);
    }
    let Some(head) = read_head(line) else {
        return Err(Failure::NoLine);
    };
    extent_of(head.base, head.size, head.block)?;
    make_in(alloc, &head, buffer, slot)
}

/// Frees the monitor of the slot.
pub fn free_monitor(slot: Slot)
    ghost monitor: { spec.Monitor }
    requires { slot.monitor ≡ Some monitor }
{
    drop(open(slot));
}
