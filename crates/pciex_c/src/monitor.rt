//! The monitor of ports.
ghost use Rattle.std.specs.Prelude.{◌≡◌, ◌≤◌, ◌<◌, Some};
ghost use Rattle.monitor_ports.specs.declared.head.Head as heads;
ghost use Rattle.monitor_ports.specs.Monitoring.{Monitor, new, open_requests, given_up};
ghost use Rattle.pciex_c.specs.declared.codes.TheConstants.{NO_MEMORY};
ghost use Rattle.c_monitor.specs.Calls.{making, AsksFor, IsMonitorCall, request_call, completion_call, acted_call, give_up_outcome, IsTraced};
ghost use Rattle.pciex_c.specs.Codes.{code_of, status_of};

use crate::codes::{code, status};
use c_monitor::Slot;
use std::alloc::Global;

/// The monitor that the line asks for, in a slot that holds nothing.
#[unsafe(no_mangle)]
pub extern "C" fn pciex_raw_monitor_new(
    alloc: Global,
    line: &[u8],
    buffer: &mut [u8],
    monitor: &mut Slot,
) -> u32
    ensures code { ¬ (result ≡ NO_MEMORY) → result ≡ code_of (making line.now buffer.old).outcome }
    ensures buffer { ¬ (result ≡ NO_MEMORY) → buffer.new ≡ (making line.now buffer.old).buffer }
    ensures no_memory { result ≡ NO_MEMORY → IsMonitorCall line.now buffer.old }
    ensures made { result < 1000 → (h : heads.Head) × AsksFor line.now h × (monitor.new.monitor ≡ Some (new h.is_trace)) }
    ensures unchanged { 1000 ≤ result → (monitor.new ≡ monitor.old) × (buffer.new ≡ buffer.old) }
{
    code(c_monitor::new_monitor(alloc, line, buffer, monitor))
}

/// A request that a port carried, at the monitor of the slot, which goes to `back`.
#[unsafe(no_mangle)]
pub extern "C" fn pciex_raw_monitor_request(
    monitor: Slot,
    requester: u8,
    packet: &[u8],
    buffer: &mut [u8],
    back: &mut Slot,
) -> u32
    ghost held: { Monitor }
    requires { monitor.monitor ≡ Some held }
    ensures code { ¬ (result ≡ NO_MEMORY) → result ≡ code_of (request_call held requester packet.now buffer.old).outcome }
    ensures monitor { ¬ (result ≡ NO_MEMORY) → back.new.monitor ≡ Some (request_call held requester packet.now buffer.old).monitor }
    ensures buffer { ¬ (result ≡ NO_MEMORY) → buffer.new ≡ (request_call held requester packet.now buffer.old).buffer }
    ensures no_memory { result ≡ NO_MEMORY → IsTraced held requester packet.now buffer.old }
    ensures unchanged { 1000 ≤ result → (back.new.monitor ≡ Some held) × (buffer.new ≡ buffer.old) }
{
    code(c_monitor::tell_request(monitor, requester, packet, buffer, back))
}

/// A completion that a port carried, at the monitor of the slot, which goes to `back`.
#[unsafe(no_mangle)]
pub extern "C" fn pciex_raw_monitor_completion(
    monitor: Slot,
    requester: u8,
    packet: &[u8],
    buffer: &mut [u8],
    back: &mut Slot,
) -> u32
    ghost held: { Monitor }
    requires { monitor.monitor ≡ Some held }
    ensures code { result ≡ code_of (completion_call held requester packet.now buffer.old).outcome }
    ensures monitor { back.new.monitor ≡ Some (completion_call held requester packet.now buffer.old).monitor }
    ensures buffer { buffer.new ≡ (completion_call held requester packet.now buffer.old).buffer }
    ensures unchanged { 1000 ≤ result → (back.new.monitor ≡ Some held) × (buffer.new ≡ buffer.old) }
{
    code(c_monitor::tell_completion(monitor, requester, packet, buffer, back))
}

/// A requester's tag is given up, at the monitor of the slot, which goes to `back`.
#[unsafe(no_mangle)]
pub extern "C" fn pciex_raw_monitor_give_up(
    monitor: Slot,
    requester: u8,
    tag: u8,
    back: &mut Slot,
) -> u32
    ghost held: { Monitor }
    requires { monitor.monitor ≡ Some held }
    ensures code { result ≡ status_of (give_up_outcome held requester tag) }
    ensures monitor { back.new.monitor ≡ Some (given_up held requester tag).monitor }
    ensures unchanged { 1 ≤ result → back.new.monitor ≡ Some held }
{
    status(c_monitor::give_up_tag(monitor, requester, tag, back))
}

/// A request that acted, at the monitor of the slot, which goes to `back`.
#[unsafe(no_mangle)]
pub extern "C" fn pciex_raw_monitor_acted(
    monitor: Slot,
    requester: u8,
    number: u32,
    buffer: &mut [u8],
    back: &mut Slot,
) -> u32
    ghost held: { Monitor }
    requires { monitor.monitor ≡ Some held }
    ensures code { result ≡ code_of (acted_call held requester number buffer.old).outcome }
    ensures monitor { back.new.monitor ≡ Some (acted_call held requester number buffer.old).monitor }
    ensures buffer { buffer.new ≡ (acted_call held requester number buffer.old).buffer }
    ensures unchanged { 1000 ≤ result → (back.new.monitor ≡ Some held) × (buffer.new ≡ buffer.old) }
{
    code(c_monitor::tell_acted(monitor, requester, number, buffer, back))
}

/// How many requests are open at the monitor of the slot, which goes to `back`.
#[unsafe(no_mangle)]
pub extern "C" fn pciex_raw_monitor_open(monitor: Slot, back: &mut Slot) -> usize
    ghost held: { Monitor }
    requires { monitor.monitor ≡ Some held }
    ensures value { result ≡ open_requests held }
    ensures unchanged { back.new.monitor ≡ Some held }
{
    c_monitor::count_open(monitor, back)
}

/// Frees the monitor of the slot.
#[unsafe(no_mangle)]
pub extern "C" fn pciex_raw_monitor_free(monitor: Slot)
    ghost held: { Monitor }
    requires { monitor.monitor ≡ Some held }
{
    c_monitor::free_monitor(monitor);
}
