//! Slots.
ghost use Rattle.std.specs.Prelude.{◌≡◌, ◌⊎◌, Option, Some, Ok, Err, IsOk, IsErr, IfOk, IfErr, []};
ghost use Rattle.seq_memory.specs.History.{MemoryView};
ghost use Rattle.c_buffer.specs.declared.outcome.Failure.TheVariants.{NoMemory};
ghost use Rattle.std.specs.Coded.{coded_option};
ghost use Rattle.c_buffer.specs.Slot.{slot_owns};
ghost use Rattle.c_device.specs.Slot.{memory_row};
ghost use Rattle.c_device.specs.Calls.{limits};

use c_buffer::{Failure, Parts};
use seq_memory::{Extent, Memory, is_base, is_size};
use std::alloc::Global;
use std::marker::Model;

/// A device, or nothing. Where it is dropped, the device isn't freed.
#[repr(C)]
#[derive(Drop)]
pub struct Slot {
    at: *mut (),
    alloc: Global,
    pub ghost memory: { Option MemoryView } by { coded_option memory_row.coded },
}

impl Model for Slot {
    ghost also_owns = { λ s. slot_owns memory_row s.alloc s.at s.memory };
}

fn of_parts(parts: Parts<Memory, Global>) -> Slot
    ensures { result.memory ≡ Some parts.value }
{
    let Parts { ptr, alloc } = parts;
    Slot {
        at: ptr as *mut (),
        alloc,
    }
}

fn into_parts(slot: Slot) -> Parts<Memory, Global>
    ghost memory: { MemoryView }
    requires { slot.memory ≡ Some memory }
    ensures { result.value ≡ memory }
{
    let Slot { at, alloc } = slot;
    Parts {
        ptr: at as *mut Memory,
        alloc,
    }
}

/// Takes the device out of the slot.
pub(crate) fn open(slot: Slot) -> Box<Memory, Global>
    ghost memory: { MemoryView }
    requires { slot.memory ≡ Some memory }
    ensures { result.value ≡ memory }
{
    into_parts(slot).into_box()
}

/// A slot that holds the device.
pub(crate) fn close(held: Box<Memory, Global>) -> Slot
    ensures { result.memory ≡ Some held.value }
{
    of_parts(Parts::of(held))
}

/// The extent of these three, or the first limit that isn't kept: `WrongSize`, `WrongBase`,
/// `WrongBlock`.
pub fn extent_of(base: u64, size: usize, block: u16) -> Result<Extent, Failure>
    ensures ok { IfOk result (λ x. (x ≡ record { base = base; size = size; block = block }) × (limits base size block ≡ Ok tt)) }
    ensures err { IfErr result (λ f. limits base size block ≡ Err f) }
{
    if !is_size(size) {
        return Err(Failure::WrongSize);
    }
    if !is_base(base, size) {
        return Err(Failure::WrongBase);
    }
    match Extent::new(base, size, block) {
        Some(extent) => Ok(extent),
        None => Err(Failure::WrongBlock),
    }
}

/// Makes a memory of zeros in a slot that holds nothing.
fn make_in(alloc: Global, extent: Extent, slot: &mut Slot) -> Result<(), Failure>
    ensures memory { IsErr result → result ≡ Err NoMemory }
    ensures made { IsOk result → slot.new.memory ≡ Some (record { base = extent.base; size = extent.size; block = extent.block; entries = [] }) }
    ensures unchanged { IsErr result → slot.new ≡ slot.old }
{
    let Ok(memory) = Memory::new(alloc, extent) else {
        return Err(Failure::NoMemory);
    };
    match Box::new(alloc, memory) {
        Ok(held) => {
            *slot = close(held);
            Ok(())
        }
        Err(_) => Err(Failure::NoMemory),
    }
}

/// Makes a memory of `size` zeros at `base` with an empty history, which serves accesses by blocks of
/// `block` bytes, in a slot that holds nothing. With an error the slot stays as it was: `WrongSize`,
/// `WrongBase`, `WrongBlock`, `NoMemory`, tested in this order.
pub fn new_device(
    alloc: Global,
    base: u64,
    size: usize,
    block: u16,
    slot: &mut Slot,
) -> Result<(), Failure>
    ensures outcome { (result ≡ limits base size block) ⊎ ((limits base size block ≡ Ok tt) × (result ≡ Err NoMemory)) }
    ensures made { IsOk result → slot.new.memory ≡ Some (record { base = base; size = size; block = block; entries = [] }) }
    ensures unchanged { IsErr result → slot.new ≡ slot.old }
{
    make_in(alloc, extent_of(base, size, block)?, slot)
}

/// Frees the device of the slot.
pub fn free_device(slot: Slot)
    ghost memory: { MemoryView }
    requires { slot.memory ≡ Some memory }
{
    drop(open(slot));
}
