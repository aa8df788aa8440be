//! What a device holds.
ghost use Rattle.std.specs.Prelude.{◌≡◌, ◌≤◌, Some, IsErr, length};
ghost use Rattle.arrayvec.specs.ArrayString.{array_string_len};
ghost use Rattle.seq_memory.specs.History.{MemoryView, bytes_of};
ghost use Rattle.c_buffer.specs.Buffer.{filled, copied};
ghost use Rattle.c_device.specs.Calls.{entry_text, entry_told};

use crate::slot::{Slot, close, open};
use arrayvec::ArrayString;
use c_buffer::{Failure, LINE_BUFFER, Length, copy, tell};
use operation_text::{write_decimal, write_op};
use seq_memory::{Entry, Memory};

/// Writes an entry.
fn write_entry(entry: &Entry, text: &mut ArrayString<512>)
    requires { array_string_len text.old ≡ 0 }
    ensures text { text.new.bytes ≡ entry_text entry.now }
    ensures len { array_string_len text.new ≤ 400 }
{
    write_decimal(u64::from(entry.requester), text);
    text.push_str(" ");
    write_decimal(u64::from(entry.number), text);
    text.push_str(" ");
    write_op(&entry.op.lend(), text);
}

/// Puts the text of an entry to the front of the buffer.
fn put_entry(entry: &Entry, buffer: &mut [u8]) -> Length
    requires { 512 ≤ length buffer.old }
    ensures length { result ≡ length (entry_text entry.now) }
    ensures buffer { buffer.new ≡ filled buffer.old (entry_text entry.now) }
{
    let mut text = ArrayString::new();
    write_entry(entry, &mut text);
    tell(text.as_bytes(), buffer)
}

fn put_entry_at(memory: &Memory, index: usize, buffer: &mut [u8]) -> Result<Length, Failure>
    ensures outcome { result ≡ (entry_told memory.now.entries index buffer.old).outcome }
    ensures buffer { buffer.new ≡ (entry_told memory.now.entries index buffer.old).buffer }
    ensures unchanged { IsErr result → buffer.new ≡ buffer.old }
{
    if buffer.len() < LINE_BUFFER {
        return Err(Failure::SmallBuffer);
    }
    match memory.entries().get(index) {
        Some(entry) => Ok(put_entry(entry, buffer)),
        None => Err(Failure::NoEntry),
    }
}

/// How many requests have acted on the device of the slot, which goes to `back`.
pub fn history_length(slot: Slot, back: &mut Slot) -> usize
    ghost memory: { MemoryView }
    requires { slot.memory ≡ Some memory }
    ensures value { result ≡ length memory.entries }
    ensures unchanged { back.new.memory ≡ Some memory }
{
    let held = open(slot);
    let count = held.entries().len();
    *back = close(held);
    count
}

/// Puts the entry of that index in the history, from 0, to the front of `buffer`: its requester, its
/// number and its operation, `1 0 add 40 07000000`. Ok is how many bytes it has. With an error
/// nothing has changed: `SmallBuffer` for fewer than 512 bytes, then `NoEntry`. The device goes to
/// `back`, as it was.
pub fn tell_entry(
    slot: Slot,
    index: usize,
    buffer: &mut [u8],
    back: &mut Slot,
) -> Result<Length, Failure>
    ghost memory: { MemoryView }
    requires { slot.memory ≡ Some memory }
    ensures outcome { result ≡ (entry_told memory.entries index buffer.old).outcome }
    ensures buffer { buffer.new ≡ (entry_told memory.entries index buffer.old).buffer }
    ensures unchanged { back.new.memory ≡ Some memory }
    ensures unchanged_buffer { IsErr result → buffer.new ≡ buffer.old }
{
    let held = open(slot);
    let outcome = put_entry_at(&held, index, buffer);
    *back = close(held);
    outcome
}

/// Puts all bytes of the device, from its base address on, to the front of `buffer`. `SmallBuffer` for
/// fewer bytes than it has, and then nothing has changed. The device goes to `back`, as it was.
pub fn copy_bytes(slot: Slot, buffer: &mut [u8], back: &mut Slot) -> Result<(), Failure>
    ghost memory: { MemoryView }
    requires { slot.memory ≡ Some memory }
    ensures outcome { result ≡ (copied buffer.old (bytes_of memory)).outcome }
    ensures buffer { buffer.new ≡ (copied buffer.old (bytes_of memory)).buffer }
    ensures unchanged { back.new.memory ≡ Some memory }
{
    let held = open(slot);
    let outcome = copy(held.bytes(), buffer);
    *back = close(held);
    outcome
}
