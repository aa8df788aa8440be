//! The endpoint that a root complex brings up.
ghost use Rattle.std.specs.Prelude.{◌≡◌, ◌≤◌, ◌⊎◌, Some, Ok, length};
ghost use Rattle.endpoint_core.specs.declared.endpoint.Handled.TheVariants.{Waits};
ghost use Rattle.endpoint_core.specs.Steps as steps;
ghost use Rattle.pciex_c.specs.declared.codes.TheConstants.{NO_MEMORY};
ghost use Rattle.c_buffer.specs.Buffer.{copied};
ghost use Rattle.c_endpoint.specs.Calls.{limit, next_call};
ghost use Rattle.endpoint_log.specs.Recordings.{came, acted};
ghost use Rattle.c_endpoint.specs.Texts.{text};
ghost use Rattle.c_endpoint.specs.SessionView.{SessionView, Holds, new_session, after_reset};
ghost use Rattle.endpoint_log.specs.declared.recording.Recording.TheVariants.{Lost};
ghost use Rattle.pciex_c.specs.Codes.{code_of, status_of, handled_code};

use crate::codes::{code, status, taken};
use c_endpoint::{Slot, Wanted};
use std::alloc::Global;

/// An endpoint, in a slot that holds nothing.
#[unsafe(no_mangle)]
pub extern "C" fn pciex_raw_endpoint_new(
    alloc: Global,
    size: usize,
    vendor: u16,
    device: u16,
    is_traced: bool,
    endpoint: &mut Slot,
) -> u32
    ensures code { (result ≡ status_of (limit size)) ⊎ ((limit size ≡ Ok tt) × (result ≡ NO_MEMORY)) }
    ensures made { result ≡ 0 → endpoint.new.session ≡ Some (new_session (record { size = size; vendor = vendor; device = device }) is_traced) }
    ensures unchanged { 1 ≤ result → endpoint.new ≡ endpoint.old }
{
    let wanted = Wanted {
        size,
        vendor,
        device,
        is_traced,
    };
    status(c_endpoint::new_endpoint(alloc, wanted, endpoint))
}

/// A TLP that comes to the endpoint of the slot, which goes to `back`.
#[unsafe(no_mangle)]
pub extern "C" fn pciex_raw_endpoint_tlp(endpoint: Slot, tlp: &[u8], back: &mut Slot) -> u32
    ghost session: { SessionView }
    requires { endpoint.session ≡ Some session }
    ensures code { ¬ (result ≡ NO_MEMORY) → result ≡ handled_code (steps.handled session.endpoint tlp.now) }
    ensures session { ¬ (result ≡ NO_MEMORY) → Holds back.new.session (steps.taken session.endpoint tlp.now) (came session.endpoint tlp.now session.recording) }
    ensures no_memory { result ≡ NO_MEMORY → steps.handled session.endpoint tlp.now ≡ Waits }
    ensures unchanged { 1000 ≤ result → back.new.session ≡ Some session }
{
    taken(c_endpoint::take_tlp(endpoint, tlp, back))
}

/// The next completion of the endpoint of the slot, which goes to `back`.
#[unsafe(no_mangle)]
pub extern "C" fn pciex_raw_endpoint_next(endpoint: Slot, buffer: &mut [u8], back: &mut Slot) -> u32
    ghost session: { SessionView }
    requires { endpoint.session ≡ Some session }
    ensures code { result ≡ code_of (next_call session.endpoint buffer.old).outcome }
    ensures session { 144 ≤ length buffer.old → Holds back.new.session (steps.acted session.endpoint) (acted session.endpoint session.recording) }
    ensures buffer { buffer.new ≡ (next_call session.endpoint buffer.old).buffer }
    ensures unchanged { 1000 ≤ result → (back.new.session ≡ Some session) × (buffer.new ≡ buffer.old) }
{
    code(c_endpoint::tell_next(endpoint, buffer, back))
}

/// A reset of the endpoint of the slot, which goes to `back`.
#[unsafe(no_mangle)]
pub extern "C" fn pciex_raw_endpoint_reset(endpoint: Slot, back: &mut Slot)
    ghost session: { SessionView }
    requires { endpoint.session ≡ Some session }
    ensures { back.new.session ≡ Some (after_reset session) }
{
    c_endpoint::reset_endpoint(endpoint, back);
}

/// The bytes of the memory of the endpoint of the slot, which goes to `back`.
#[unsafe(no_mangle)]
pub extern "C" fn pciex_raw_endpoint_bytes(
    endpoint: Slot,
    buffer: &mut [u8],
    back: &mut Slot,
) -> u32
    ghost session: { SessionView }
    requires { endpoint.session ≡ Some session }
    ensures code { result ≡ status_of (copied buffer.old session.endpoint.device.bytes).outcome }
    ensures buffer { buffer.new ≡ (copied buffer.old session.endpoint.device.bytes).buffer }
    ensures unchanged { back.new.session ≡ Some session }
{
    status(c_endpoint::copy_bytes(endpoint, buffer, back))
}

/// The text of what was recorded of the endpoint of the slot, which goes to `back`.
#[unsafe(no_mangle)]
pub extern "C" fn pciex_raw_endpoint_trace(
    alloc: Global,
    endpoint: Slot,
    buffer: &mut [u8],
    size: &mut usize,
    back: &mut Slot,
) -> u32
    ghost session: { SessionView }
    requires { endpoint.session ≡ Some session }
    ensures code { ¬ (result ≡ NO_MEMORY) → result ≡ status_of (copied buffer.old (text session.recording)).outcome }
    ensures buffer { ¬ (result ≡ NO_MEMORY) → buffer.new ≡ (copied buffer.old (text session.recording)).buffer }
    ensures size { ¬ (result ≡ NO_MEMORY) → size.new ≡ length (text session.recording) }
    ensures lost { session.recording ≡ Lost → result ≡ NO_MEMORY }
    ensures unchanged_size { result ≡ NO_MEMORY → size.new ≡ size.old }
    ensures unchanged { back.new.session ≡ Some session }
    ensures unchanged_buffer { 1 ≤ result → buffer.new ≡ buffer.old }
{
    status(c_endpoint::tell_trace(alloc, endpoint, buffer, size, back))
}

/// Frees the endpoint of the slot.
#[unsafe(no_mangle)]
pub extern "C" fn pciex_raw_endpoint_free(endpoint: Slot)
    ghost session: { SessionView }
    requires { endpoint.session ≡ Some session }
{
    c_endpoint::free_endpoint(endpoint);
}
