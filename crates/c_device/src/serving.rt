//! Packets at a device with a history.
ghost use Rattle.std.specs.Prelude.{◌≡◌, ◌≤◌, Some, Err, IsErr, false, length};
ghost use Rattle.tlp_core.specs.Operation as spec;
ghost use Rattle.seq_memory.specs.History.{MemoryView};
ghost use Rattle.c_buffer.specs.declared.outcome.Failure.TheVariants.{NoMemory};
ghost use Rattle.c_device.specs.Calls.{served, service, IsRequestCall};

use crate::slot::{Slot, close, open};
use crate::{MAX_COMPLETION, tell_completion};
use c_buffer::{Failure, Length};
use completer_core::serve;
use seq_memory::Memory;
use tlp_core::{Tlp, decode};

/// Serves a packet.
fn serve_tlp(
    memory: &mut Memory,
    number: u32,
    packet: &Tlp,
    buffer: &mut [u8],
) -> Result<Length, Failure>
    requires { 144 ≤ length buffer.old }
    ensures outcome { ¬ (result ≡ Err NoMemory) → result ≡ (served memory.old number buffer.old packet.now).outcome }
    ensures memory { ¬ (result ≡ Err NoMemory) → memory.new ≡ (served memory.old number buffer.old packet.now).memory }
    ensures buffer { ¬ (result ≡ Err NoMemory) → buffer.new ≡ (served memory.old number buffer.old packet.now).buffer }
    ensures no_memory { result ≡ Err NoMemory → spec.is_completion packet.now.kind ≡ false }
    ensures unchanged { IsErr result → (memory.new ≡ memory.old) × (buffer.new ≡ buffer.old) }
{
    if packet.kind.is_completion() {
        return Err(Failure::NoRequest);
    }
    match serve(memory, packet, number) {
        Ok(Some(completion)) => Ok(tell_completion(&completion.lend(), buffer)),
        Ok(None) => Ok(Length::new(0)),
        Err(_) => Err(Failure::NoMemory),
    }
}

/// Serves the bytes of a packet.
fn serve_bytes(
    memory: &mut Memory,
    number: u32,
    packet: &[u8],
    buffer: &mut [u8],
) -> Result<Length, Failure>
    ensures outcome { ¬ (result ≡ Err NoMemory) → result ≡ (service memory.old number packet.now buffer.old).outcome }
    ensures memory { ¬ (result ≡ Err NoMemory) → memory.new ≡ (service memory.old number packet.now buffer.old).memory }
    ensures buffer { ¬ (result ≡ Err NoMemory) → buffer.new ≡ (service memory.old number packet.now buffer.old).buffer }
    ensures no_memory { result ≡ Err NoMemory → IsRequestCall packet.now buffer.old }
    ensures unchanged { IsErr result → (memory.new ≡ memory.old) × (buffer.new ≡ buffer.old) }
{
    if buffer.len() < MAX_COMPLETION {
        return Err(Failure::SmallBuffer);
    }
    match decode(packet) {
        Ok(packet) => serve_tlp(memory, number, &packet, buffer),
        Err(fault) => Err(Failure::Fault(fault.number())),
    }
}

/// Lets a request act on the device of the slot under that number, and gives the device to `back`. Ok
/// is how many bytes the completion at the front of `buffer` has, 0 for a posted write. With an error
/// nothing has changed: `SmallBuffer` for fewer than 144 bytes, then the number of the fault if
/// `packet` is no packet, then `NoRequest` for a completion, then `NoMemory` if the history can't
/// grow.
pub fn serve_packet(
    slot: Slot,
    number: u32,
    packet: &[u8],
    buffer: &mut [u8],
    back: &mut Slot,
) -> Result<Length, Failure>
    ghost memory: { MemoryView }
    requires { slot.memory ≡ Some memory }
    ensures outcome { ¬ (result ≡ Err NoMemory) → result ≡ (service memory number packet.now buffer.old).outcome }
    ensures memory { ¬ (result ≡ Err NoMemory) → back.new.memory ≡ Some (service memory number packet.now buffer.old).memory }
    ensures buffer { ¬ (result ≡ Err NoMemory) → buffer.new ≡ (service memory number packet.now buffer.old).buffer }
    ensures no_memory { result ≡ Err NoMemory → IsRequestCall packet.now buffer.old }
    ensures unchanged { IsErr result → (back.new.memory ≡ Some memory) × (buffer.new ≡ buffer.old) }
{
    let mut held = open(slot);
    let outcome = serve_bytes(&mut held, number, packet, buffer);
    *back = close(held);
    outcome
}
