//! The device with a history.
ghost use Rattle.std.specs.Prelude.{◌≡◌, ◌≤◌, ◌⊎◌, Some, Ok, [], length};
ghost use Rattle.seq_memory.specs.History.{MemoryView, bytes_of};
ghost use Rattle.pciex_c.specs.declared.codes.TheConstants.{NO_MEMORY};
ghost use Rattle.c_buffer.specs.Buffer.{copied};
ghost use Rattle.c_device.specs.Calls.{limits, service, IsRequestCall, entry_told};
ghost use Rattle.pciex_c.specs.Codes.{code_of, status_of};

use crate::codes::{code, status};
use c_device::Slot;
use std::alloc::Global;

/// A device, in a slot that holds nothing.
#[unsafe(no_mangle)]
pub extern "C" fn pciex_raw_device_new(
    alloc: Global,
    base: u64,
    size: usize,
    block: u16,
    device: &mut Slot,
) -> u32
    ensures code { (result ≡ status_of (limits base size block)) ⊎ ((limits base size block ≡ Ok tt) × (result ≡ NO_MEMORY)) }
    ensures made { result ≡ 0 → device.new.memory ≡ Some (record { base = base; size = size; block = block; entries = [] }) }
    ensures unchanged { 1 ≤ result → device.new ≡ device.old }
{
    status(c_device::new_device(alloc, base, size, block, device))
}

/// One packet at the device of the slot, which goes to `back`.
#[unsafe(no_mangle)]
pub extern "C" fn pciex_raw_device_serve(
    device: Slot,
    number: u32,
    packet: &[u8],
    buffer: &mut [u8],
    back: &mut Slot,
) -> u32
    ghost memory: { MemoryView }
    requires { device.memory ≡ Some memory }
    ensures code { ¬ (result ≡ NO_MEMORY) → result ≡ code_of (service memory number packet.now buffer.old).outcome }
    ensures memory { ¬ (result ≡ NO_MEMORY) → back.new.memory ≡ Some (service memory number packet.now buffer.old).memory }
    ensures buffer { ¬ (result ≡ NO_MEMORY) → buffer.new ≡ (service memory number packet.now buffer.old).buffer }
    ensures no_memory { result ≡ NO_MEMORY → IsRequestCall packet.now buffer.old }
    ensures unchanged { 1000 ≤ result → (back.new.memory ≡ Some memory) × (buffer.new ≡ buffer.old) }
{
    code(c_device::serve_packet(device, number, packet, buffer, back))
}

/// How many requests have acted on the device of the slot, which goes to `back`.
#[unsafe(no_mangle)]
pub extern "C" fn pciex_raw_device_history_length(device: Slot, back: &mut Slot) -> usize
    ghost memory: { MemoryView }
    requires { device.memory ≡ Some memory }
    ensures value { result ≡ length memory.entries }
    ensures unchanged { back.new.memory ≡ Some memory }
{
    c_device::history_length(device, back)
}

/// The entry of that index in the history of the device of the slot, which goes to `back`.
#[unsafe(no_mangle)]
pub extern "C" fn pciex_raw_device_entry(
    device: Slot,
    index: usize,
    buffer: &mut [u8],
    back: &mut Slot,
) -> u32
    ghost memory: { MemoryView }
    requires { device.memory ≡ Some memory }
    ensures code { result ≡ code_of (entry_told memory.entries index buffer.old).outcome }
    ensures buffer { buffer.new ≡ (entry_told memory.entries index buffer.old).buffer }
    ensures unchanged { back.new.memory ≡ Some memory }
{
    code(c_device::tell_entry(device, index, buffer, back))
}

/// The bytes of the device of the slot, which goes to `back`.
#[unsafe(no_mangle)]
pub extern "C" fn pciex_raw_device_bytes(device: Slot, buffer: &mut [u8], back: &mut Slot) -> u32
    ghost memory: { MemoryView }
    requires { device.memory ≡ Some memory }
    ensures code { result ≡ status_of (copied buffer.old (bytes_of memory)).outcome }
    ensures buffer { buffer.new ≡ (copied buffer.old (bytes_of memory)).buffer }
    ensures unchanged { back.new.memory ≡ Some memory }
{
    status(c_device::copy_bytes(device, buffer, back))
}

/// Frees the device of the slot.
#[unsafe(no_mangle)]
pub extern "C" fn pciex_raw_device_free(device: Slot)
    ghost memory: { MemoryView }
    requires { device.memory ≡ Some memory }
{
    c_device::free_device(device);
}
