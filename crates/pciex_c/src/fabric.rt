//! The fabric.
ghost use Rattle.std.specs.Prelude.{◌≡◌, ◌≢◌, ◌≤◌, ◌↔◌, ◌⊎◌, ℕ, IsTrue, true, Some, length, slice_get};
ghost use Rattle.requester_core.specs.RequesterView.{RequesterView};
ghost use Rattle.seq_memory.specs.History.{bytes_of};
ghost use Rattle.history_words.specs.Trace.{Explains};
ghost use Rattle.trace_text.specs.Texts.{trace_text};
ghost use Rattle.fabric_steps.specs.Trace.{submitted_by};
ghost use Rattle.fabric_steps.specs.Whole.{open_number};
ghost use Rattle.fabric_core.specs.declared.config.Config.{Config};
ghost use Rattle.fabric_core.specs.Quiet.{IsQuiet};
ghost use Rattle.pciex_c.specs.declared.codes.TheConstants.{NO_MEMORY};
ghost use Rattle.c_buffer.specs.Buffer.{copied};
ghost use Rattle.c_fabric.specs.SessionView.{SessionView, new_session, claim, collected_lines};
ghost use Rattle.c_fabric.specs.Scripts.{script_call, IsLeftBy, IsCutShort};
ghost use Rattle.c_fabric.specs.Calls.{making, AsksFor, IsFabricCall, event_call, IsEventCall, settled, IsReached};
ghost use Rattle.pciex_c.specs.Codes.{code_of, status_of};

use crate::codes::{code, status};
use c_fabric::{Reached, Slot};
use std::alloc::Global;

/// The fabric that the line asks for, in a slot that holds nothing.
#[unsafe(no_mangle)]
pub extern "C" fn pciex_raw_fabric_new(
    alloc: Global,
    line: &[u8],
    is_traced: bool,
    buffer: &mut [u8],
    fabric: &mut Slot,
) -> u32
    ensures code { ¬ (result ≡ NO_MEMORY) → result ≡ status_of (making line.now buffer.old).outcome }
    ensures buffer { ¬ (result ≡ NO_MEMORY) → buffer.new ≡ (making line.now buffer.old).buffer }
    ensures no_memory { result ≡ NO_MEMORY → IsFabricCall line.now buffer.old }
    ensures made { result ≡ 0 → (c : Config) × AsksFor line.now c × (fabric.new.session ≡ Some (new_session c is_traced)) }
    ensures unchanged { 1 ≤ result → fabric.new ≡ fabric.old }
    ensures unchanged_buffer { 2000 ≤ result → buffer.new ≡ buffer.old }
{
    status(c_fabric::new_fabric(alloc, line, is_traced, buffer, fabric))
}

/// The event of the line happens to the fabric of the slot, which goes to `back`.
#[unsafe(no_mangle)]
pub extern "C" fn pciex_raw_fabric_event(
    fabric: Slot,
    line: &[u8],
    buffer: &mut [u8],
    back: &mut Slot,
) -> u32
    ghost session: { SessionView }
    requires { fabric.session ≡ Some session }
    ensures code { ¬ (result ≡ NO_MEMORY) → result ≡ code_of (event_call session line.now buffer.old).outcome }
    ensures session { ¬ (result ≡ NO_MEMORY) → back.new.session ≡ Some (event_call session line.now buffer.old).session }
    ensures buffer { ¬ (result ≡ NO_MEMORY) → buffer.new ≡ (event_call session line.now buffer.old).buffer }
    ensures no_memory { result ≡ NO_MEMORY → IsEventCall session line.now buffer.old }
    ensures unchanged { 1000 ≤ result → back.new.session ≡ Some session }
    ensures unchanged_buffer { 2000 ≤ result → buffer.new ≡ buffer.old }
{
    code(c_fabric::tell_event(fabric, line, buffer, back))
}

/// The events of the script's lines happen to the fabric of the slot, which goes to `back`, one after the other.
#[unsafe(no_mangle)]
pub extern "C" fn pciex_raw_fabric_script(
    fabric: Slot,
    text: &[u8],
    buffer: &mut [u8],
    done: &mut usize,
    size: &mut usize,
    back: &mut Slot,
) -> u32
    ghost session: { SessionView }
    requires { fabric.session ≡ Some session }
    ensures code { ¬ (result ≡ NO_MEMORY) → result ≡ status_of (script_call session text.now buffer.old).outcome }
    ensures left { ¬ (result ≡ NO_MEMORY) →
        (s : SessionView) × (back.new.session ≡ Some s) × IsLeftBy (script_call session text.now buffer.old) s buffer.new done.new size.new }
    ensures whole { result ≡ 0 → done.new ≡ length text.now }
    ensures no_memory { result ≡ NO_MEMORY →
        (s : SessionView) × (back.new.session ≡ Some s) × IsCutShort session text.now buffer.old s buffer.new done.new size.new }
{
    let mut reached = Reached { done: 0, size: 0 };
    let outcome = c_fabric::tell_script(fabric, text, buffer, &mut reached, back);
    *done = reached.done;
    *size = reached.size;
    status(outcome)
}

/// The fabric of the slot, which goes to `back`, is run until nothing moves.
#[unsafe(no_mangle)]
pub extern "C" fn pciex_raw_fabric_settle(alloc: Global, fabric: Slot, back: &mut Slot) -> u32
    ghost session: { SessionView }
    requires { fabric.session ≡ Some session }
    ensures code { (result ≡ 0) ⊎ (result ≡ NO_MEMORY) }
    ensures ok { result ≡ 0 → back.new.session ≡ Some (settled session) }
    ensures quiet { result ≡ 0 → IsQuiet (settled session).fabric }
    ensures answered { result ≡ 0 → (i tag k : ℕ) (q : RequesterView) → slice_get (settled session).fabric.requesters i ≡ Some q → open_number q tag ≢ Some k }
    ensures reached { (s : SessionView) × (back.new.session ≡ Some s) × IsReached session s }
{
    status(c_fabric::settle_fabric(alloc, fabric, back))
}

/// What the last settlement of the fabric of the slot, which goes to `back`, collected.
#[unsafe(no_mangle)]
pub extern "C" fn pciex_raw_fabric_settled(
    alloc: Global,
    fabric: Slot,
    buffer: &mut [u8],
    size: &mut usize,
    back: &mut Slot,
) -> u32
    ghost session: { SessionView }
    requires { fabric.session ≡ Some session }
    ensures code { ¬ (result ≡ NO_MEMORY) → result ≡ status_of (copied buffer.old (collected_lines session.collected)).outcome }
    ensures buffer { ¬ (result ≡ NO_MEMORY) → buffer.new ≡ (copied buffer.old (collected_lines session.collected)).buffer }
    ensures size { ¬ (result ≡ NO_MEMORY) → size.new ≡ length (collected_lines session.collected) }
    ensures unchanged_size { result ≡ NO_MEMORY → size.new ≡ size.old }
    ensures unchanged { back.new.session ≡ Some session }
    ensures unchanged_buffer { 1 ≤ result → buffer.new ≡ buffer.old }
{
    status(c_fabric::tell_collected(alloc, fabric, buffer, size, back))
}

/// The text of the trace and the history of the fabric of the slot, which goes to `back`.
#[unsafe(no_mangle)]
pub extern "C" fn pciex_raw_fabric_trace(
    alloc: Global,
    fabric: Slot,
    buffer: &mut [u8],
    size: &mut usize,
    back: &mut Slot,
) -> u32
    ghost session: { SessionView }
    requires { fabric.session ≡ Some session }
    ensures code { ¬ (result ≡ NO_MEMORY) → result ≡ status_of (copied buffer.old (trace_text (claim session))).outcome }
    ensures buffer { ¬ (result ≡ NO_MEMORY) → buffer.new ≡ (copied buffer.old (trace_text (claim session))).buffer }
    ensures size { ¬ (result ≡ NO_MEMORY) → size.new ≡ length (trace_text (claim session)) }
    ensures unchanged_size { result ≡ NO_MEMORY → size.new ≡ size.old }
    ensures unchanged { back.new.session ≡ Some session }
    ensures unchanged_buffer { 1 ≤ result → buffer.new ≡ buffer.old }
    ensures explained { session.is_traced ≡ true → Explains (claim session) }
{
    status(c_fabric::tell_trace(alloc, fabric, buffer, size, back))
}

/// Whether the fabric of the slot is quiet; it goes to `back`.
#[unsafe(no_mangle)]
pub extern "C" fn pciex_raw_fabric_quiet(fabric: Slot, back: &mut Slot) -> bool
    ghost session: { SessionView }
    requires { fabric.session ≡ Some session }
    ensures quiet { IsTrue result ↔ IsQuiet session.fabric }
    ensures all { IsTrue result → length session.fabric.memory.entries ≡ submitted_by session.fabric.requesters }
    ensures unchanged { back.new.session ≡ Some session }
{
    c_fabric::is_quiet(fabric, back)
}

/// How many requests have acted on the memory of the fabric of the slot, which goes to `back`.
#[unsafe(no_mangle)]
pub extern "C" fn pciex_raw_fabric_history_length(fabric: Slot, back: &mut Slot) -> usize
    ghost session: { SessionView }
    requires { fabric.session ≡ Some session }
    ensures value { result ≡ length session.fabric.memory.entries }
    ensures unchanged { back.new.session ≡ Some session }
{
    c_fabric::history_length(fabric, back)
}

/// The bytes of the memory of the fabric of the slot, which goes to `back`.
#[unsafe(no_mangle)]
pub extern "C" fn pciex_raw_fabric_bytes(fabric: Slot, buffer: &mut [u8], back: &mut Slot) -> u32
    ghost session: { SessionView }
    requires { fabric.session ≡ Some session }
    ensures code { result ≡ status_of (copied buffer.old (bytes_of session.fabric.memory)).outcome }
    ensures buffer { buffer.new ≡ (copied buffer.old (bytes_of session.fabric.memory)).buffer }
    ensures unchanged { back.new.session ≡ Some session }
{
    status(c_fabric::copy_bytes(fabric, buffer, back))
}

/// Frees the fabric of the slot.
#[unsafe(no_mangle)]
pub extern "C" fn pciex_raw_fabric_free(fabric: Slot)
    ghost session: { SessionView }
    requires { fabric.session ≡ Some session }
{
    c_fabric::free_fabric(fabric);
}
