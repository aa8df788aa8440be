//! The endpoint behind its end of a link.
ghost use Rattle.std.specs.Prelude.{◌≡◌, ◌≤◌, ◌⊎◌, ◌∷◌, [], true, Some, Result, Ok, length};
ghost use Rattle.link_crc.specs.Checks.{check_if};
ghost use Rattle.port_core.specs.Port.{received, dllp_answer};
ghost use Rattle.port_core.specs.declared.port.DllpReceived.{DllpReceived};
ghost use Rattle.port_core.specs.declared.fault.DllpRefusal.{DllpRefusal};
ghost use Rattle.linked_endpoint.specs.declared.linked.Arrived.{Arrived};
ghost use Rattle.c_buffer.specs.declared.outcome.Failure.{Failure};
ghost use Rattle.linked_endpoint.specs.Linked.{is_taken, arrived};
ghost use Rattle.linked_endpoint.specs.Runs.{after_call, Up, Down, Receive, ReceiveDllp, Refresh, Replay, Retrained};
ghost use Rattle.pciex_c.specs.declared.codes.TheConstants.{NO_MEMORY};
ghost use Rattle.c_buffer.specs.Buffer.{copied};
ghost use Rattle.c_linked.specs.Making.{limit, setup_with, session_of};
ghost use Rattle.c_linked.specs.SessionView.{SessionView, IsDone, with_linked, with_reset};
ghost use Rattle.c_linked.specs.Calls.{IsAfter, next_call, condition_of};
ghost use Rattle.c_endpoint.specs.Texts.{text};
ghost use Rattle.endpoint_log.specs.declared.recording.Recording.TheVariants.{Lost};
ghost use Rattle.pciex_c.specs.Codes.{status_of};
ghost use Rattle.pciex_c.specs.LinkCodes.{made_code, arrived_code, arrived_of, dllp_code, sent_code, flag_after, condition_code};

use crate::codes::status;
use crate::link_codes::{arrived, condition, dllp_status, made, sent};
use c_linked::{FiniteCredits, LinkedSetup, Slot};
use link_crc::Check;
use std::alloc::Global;

/// An endpoint behind its link, which is down, in a slot that holds nothing.
#[unsafe(no_mangle)]
pub extern "C" fn pciex_raw_linked_new(
    alloc: Global,
    size: usize,
    vendor: u16,
    device: u16,
    credits: &FiniteCredits,
    is_traced: bool,
    linked: &mut Slot,
) -> u32
    ensures code { (result ≡ made_code (limit (setup_with size vendor device credits.now is_traced))) ⊎
        ((limit (setup_with size vendor device credits.now is_traced) ≡ Ok tt) × (result ≡ NO_MEMORY)) }
    ensures made { result ≡ 0 → linked.new.session ≡ Some (session_of (setup_with size vendor device credits.now is_traced)) }
    ensures unchanged { 1 ≤ result → linked.new ≡ linked.old }
{
    let setup = LinkedSetup {
        size,
        vendor,
        device,
        credits: *credits,
        is_traced,
    };
    made(c_linked::new_linked(alloc, setup, linked))
}

/// A packet that arrives at the endpoint of the slot, which goes to `back`.
#[unsafe(no_mangle)]
pub extern "C" fn pciex_raw_linked_packet(
    linked: Slot,
    packet: &[u8],
    good: bool,
    back: &mut Slot,
) -> u32
    ghost session: { SessionView }
    requires { linked.session ≡ Some session }
    ensures code { ¬ (result ≡ NO_MEMORY) → result ≡ arrived_code (arrived session.linked packet.now (check_if good)) }
    ensures session { (outcome : Result Arrived Failure) × (result ≡ arrived_of outcome) × (s : SessionView) × (back.new.session ≡ Some s) ×
        IsAfter outcome session (Receive packet.now (check_if good)) s }
    ensures no_memory { result ≡ NO_MEMORY → is_taken (received session.linked.port packet.now (check_if good)) ≡ true }
    ensures unchanged { 1000 ≤ result → back.new.session ≡ Some session }
{
    arrived(c_linked::take_packet(linked, packet, Check::of(good), back))
}

/// A DLLP that arrives at the endpoint of the slot, which goes to `back`.
#[unsafe(no_mangle)]
pub extern "C" fn pciex_raw_linked_dllp(
    linked: Slot,
    dllp: &[u8],
    good: bool,
    back: &mut Slot,
) -> u32
    ghost session: { SessionView }
    requires { linked.session ≡ Some session }
    ensures code { result ≡ dllp_code (dllp_answer session.linked.port dllp.now (check_if good)) }
    ensures session { (outcome : Result DllpReceived DllpRefusal) × (result ≡ dllp_code outcome) × (s : SessionView) × (back.new.session ≡ Some s) ×
        IsAfter outcome session (ReceiveDllp dllp.now (check_if good)) s }
    ensures unchanged { 1000 ≤ result → back.new.session ≡ Some session }
{
    dllp_status(c_linked::take_dllp(linked, dllp, Check::of(good), back))
}

/// What the endpoint of the slot, which goes to `back`, sends next.
#[unsafe(no_mangle)]
pub extern "C" fn pciex_raw_linked_next(
    linked: Slot,
    buffer: &mut [u8],
    is_dllp: &mut bool,
    back: &mut Slot,
) -> u32
    ghost session: { SessionView }
    requires { linked.session ≡ Some session }
    ensures code { result ≡ sent_code (next_call session.linked buffer.old).outcome }
    ensures dllp { is_dllp.new ≡ flag_after is_dllp.old (next_call session.linked buffer.old).outcome }
    ensures session { back.new.session ≡ Some (with_linked session (next_call session.linked buffer.old).linked) }
    ensures buffer { buffer.new ≡ (next_call session.linked buffer.old).buffer }
    ensures unchanged { 1000 ≤ result → (back.new.session ≡ Some session) × (buffer.new ≡ buffer.old) × (is_dllp.new ≡ is_dllp.old) }
{
    sent(c_linked::tell_next(linked, buffer, back), is_dllp)
}

/// The state of the link of the slot, whose endpoint goes to `back`.
#[unsafe(no_mangle)]
pub extern "C" fn pciex_raw_linked_status(linked: Slot, back: &mut Slot) -> u32
    ghost session: { SessionView }
    requires { linked.session ≡ Some session }
    ensures code { result ≡ condition_code (condition_of session.linked) }
    ensures unchanged { back.new.session ≡ Some session }
{
    condition(c_linked::link_status(linked, back))
}

/// The link of the endpoint of the slot, which goes to `back`, is up.
#[unsafe(no_mangle)]
pub extern "C" fn pciex_raw_linked_up(alloc: Global, linked: Slot, back: &mut Slot)
    ghost session: { SessionView }
    requires { linked.session ≡ Some session }
    ensures { back.new.session ≡ Some (with_reset session (after_call session.linked Up)) }
{
    c_linked::link_up(alloc, linked, back);
}

/// The link of the endpoint of the slot, which goes to `back`, is down.
#[unsafe(no_mangle)]
pub extern "C" fn pciex_raw_linked_down(alloc: Global, linked: Slot, back: &mut Slot)
    ghost session: { SessionView }
    requires { linked.session ≡ Some session }
    ensures { back.new.session ≡ Some (with_reset session (after_call session.linked Down)) }
{
    c_linked::link_down(alloc, linked, back);
}

/// A timer for InitFCs, Acks and UpdateFCs of the endpoint of the slot, which goes to `back`, expired.
#[unsafe(no_mangle)]
pub extern "C" fn pciex_raw_linked_refresh(linked: Slot, back: &mut Slot)
    ghost session: { SessionView }
    requires { linked.session ≡ Some session }
    ensures { (s : SessionView) × (back.new.session ≡ Some s) × IsDone session (Refresh ∷ []) s }
{
    c_linked::refresh_link(linked, back);
}

/// REPLAY_TIMER of the endpoint of the slot, which goes to `back`, expired.
#[unsafe(no_mangle)]
pub extern "C" fn pciex_raw_linked_replay(linked: Slot, back: &mut Slot)
    ghost session: { SessionView }
    requires { linked.session ≡ Some session }
    ensures { back.new.session ≡ Some (with_linked session (after_call session.linked Replay)) }
{
    c_linked::replay_link(linked, back);
}

/// The link of the endpoint of the slot, which goes to `back`, was retrained.
#[unsafe(no_mangle)]
pub extern "C" fn pciex_raw_linked_retrained(linked: Slot, back: &mut Slot)
    ghost session: { SessionView }
    requires { linked.session ≡ Some session }
    ensures { back.new.session ≡ Some (with_linked session (after_call session.linked Retrained)) }
{
    c_linked::retrain_link(linked, back);
}

/// The bytes of the memory of the endpoint of the slot, which goes to `back`.
#[unsafe(no_mangle)]
pub extern "C" fn pciex_raw_linked_bytes(linked: Slot, buffer: &mut [u8], back: &mut Slot) -> u32
    ghost session: { SessionView }
    requires { linked.session ≡ Some session }
    ensures code { result ≡ status_of (copied buffer.old session.linked.endpoint.device.bytes).outcome }
    ensures buffer { buffer.new ≡ (copied buffer.old session.linked.endpoint.device.bytes).buffer }
    ensures unchanged { back.new.session ≡ Some session }
{
    status(c_linked::copy_bytes(linked, buffer, back))
}

/// The text of what was recorded of the endpoint of the slot, which goes to `back`.
#[unsafe(no_mangle)]
pub extern "C" fn pciex_raw_linked_trace(
    alloc: Global,
    linked: Slot,
    buffer: &mut [u8],
    size: &mut usize,
    back: &mut Slot,
) -> u32
    ghost session: { SessionView }
    requires { linked.session ≡ Some session }
    ensures code { ¬ (result ≡ NO_MEMORY) → result ≡ status_of (copied buffer.old (text session.recording)).outcome }
    ensures buffer { ¬ (result ≡ NO_MEMORY) → buffer.new ≡ (copied buffer.old (text session.recording)).buffer }
    ensures size { ¬ (result ≡ NO_MEMORY) → size.new ≡ length (text session.recording) }
    ensures lost { session.recording ≡ Lost → result ≡ NO_MEMORY }
    ensures unchanged_size { result ≡ NO_MEMORY → size.new ≡ size.old }
    ensures unchanged { back.new.session ≡ Some session }
    ensures unchanged_buffer { 1 ≤ result → buffer.new ≡ buffer.old }
{
    status(c_linked::tell_trace(alloc, linked, buffer, size, back))
}

/// Frees the endpoint of the slot.
#[unsafe(no_mangle)]
pub extern "C" fn pciex_raw_linked_free(linked: Slot)
    ghost session: { SessionView }
    requires { linked.session ≡ Some session }
{
    c_linked::free_linked(linked);
}
