//! Packets and DLLPs at the endpoint of a slot, and what it sends.
ghost use Rattle.std.specs.Prelude.{◌≡◌, true, Some, Ok, Err, IsErr};
ghost use Rattle.port_core.specs.Port.{received, dllp_answer};
ghost use Rattle.linked_endpoint.specs.Linked.{is_taken, arrived};
ghost use Rattle.linked_endpoint.specs.Runs.{Receive, ReceiveDllp};
ghost use Rattle.c_buffer.specs.declared.outcome.Failure.TheVariants.{NoMemory};
ghost use Rattle.c_buffer.specs.Buffer.{copied};
ghost use Rattle.c_linked.specs.SessionView.{SessionView, with_linked};
ghost use Rattle.c_linked.specs.Calls.{IsAfter, next_call};

use crate::session::Session;
use crate::settling::settle;
use crate::slot::{Slot, close, open};
use arrayvec::ArrayVec;
use c_buffer::{Failure, Length, copy, tell};
use endpoint_core::Room;
use link_crc::Check;
use linked_endpoint::{Arrived, LinkedEndpoint};
use port_core::{
    DllpReceived, DllpRefusal, Outgoing, PACKET_BYTES, a_refused_call_changes_nothing,
};

/// The bytes of buffer that [`tell_next`] asks for, whatever is sent.
pub const MAX_PACKET: usize = PACKET_BYTES;

/// What is sent.
#[derive(Clone, Copy)]
pub struct Sent {
    /// How many bytes it has, 0 if nothing is to be sent.
    pub length: Length,
    /// Whether it is a DLLP.
    pub is_dllp: bool,
}

#[tactic(auto, using(crate::proofs::Turns::then_done))]
fn receive(session: &mut Session, packet: &[u8], check: Check) -> Result<Arrived, Failure>
    ensures outcome { ¬ (result ≡ Err NoMemory) → result ≡ Ok (arrived session.old.linked packet.now check) }
    ensures session { IsAfter result session.old (Receive packet.now check) session.new }
    ensures no_memory { result ≡ Err NoMemory → is_taken (received session.old.linked.port packet.now check) ≡ true }
    ensures unchanged { IsErr result → session.new ≡ session.old }
{
    let mut room = Room::new();
    match session
        .linked
        .receive(packet, check, &mut room, &mut session.recording)
    {
        Ok(arrived) => {
            settle(session, &mut room);
            Ok(arrived)
        }
        Err(_) => Err(Failure::NoMemory),
    }
}

fn receive_dllp(
    session: &mut Session,
    dllp: &[u8],
    check: Check,
) -> Result<DllpReceived, DllpRefusal>
    ensures outcome { result ≡ dllp_answer session.old.linked.port dllp.now check }
    ensures session { IsAfter result session.old (ReceiveDllp dllp.now check) session.new }
    ensures unchanged { IsErr result → session.new ≡ session.old }
{
    a_refused_call_changes_nothing();
    match session.linked.receive_dllp(dllp, check) {
        Ok(received) => {
            settle(session, &mut Room::new());
            Ok(received)
        }
        Err(refusal) => Err(refusal),
    }
}

fn next(linked: &mut LinkedEndpoint, buffer: &mut [u8]) -> Result<Sent, Failure>
    ensures outcome { result ≡ (next_call linked.old buffer.old).outcome }
    ensures linked { linked.new ≡ (next_call linked.old buffer.old).linked }
    ensures buffer { buffer.new ≡ (next_call linked.old buffer.old).buffer }
    ensures unchanged { IsErr result → (linked.new ≡ linked.old) × (buffer.new ≡ buffer.old) }
{
    if buffer.len() < MAX_PACKET {
        return Err(Failure::SmallBuffer);
    }
    let mut out = ArrayVec::new();
    let outgoing = linked.next(&mut out);
    Ok(Sent {
        length: tell(out.as_slice(), buffer),
        is_dllp: match outgoing {
            Outgoing::Dllp(_) => true,
            Outgoing::Nothing | Outgoing::Packet(_) => false,
        },
    })
}

/// A packet arrives at the endpoint of the slot, which goes to `back`: its sequence number's two bytes and a TLP, with a good
/// check or a failed one. Then requests act, and their completions enter the replay buffer. The only error is
/// `NoMemory`, for a packet that would be accepted within its credits, and then nothing has changed: the packet is as if it
/// was lost. A completion for which no memory can be allocated waits. What is recorded is lost where memory for it runs out.
pub fn take_packet(
    slot: Slot,
    packet: &[u8],
    check: Check,
    back: &mut Slot,
) -> Result<Arrived, Failure>
    ghost session: { SessionView }
    requires { slot.session ≡ Some session }
    ensures outcome { ¬ (result ≡ Err NoMemory) → result ≡ Ok (arrived session.linked packet.now check) }
    ensures session { (s : SessionView) × (back.new.session ≡ Some s) × IsAfter result session (Receive packet.now check) s }
    ensures no_memory { result ≡ Err NoMemory → is_taken (received session.linked.port packet.now check) ≡ true }
    ensures unchanged { IsErr result → back.new.session ≡ Some session }
{
    let mut held = open(slot);
    let outcome = receive(&mut held, packet, check);
    *back = close(held);
    outcome
}

/// A DLLP arrives at the endpoint of the slot, which goes to `back`: four bytes, with a good check or a failed one. Then
/// requests act, and their completions enter the replay buffer. A refused DLLP changes nothing. What is recorded is lost where
/// memory for it runs out.
pub fn take_dllp(
    slot: Slot,
    dllp: &[u8],
    check: Check,
    back: &mut Slot,
) -> Result<DllpReceived, DllpRefusal>
    ghost session: { SessionView }
    requires { slot.session ≡ Some session }
    ensures outcome { result ≡ dllp_answer session.linked.port dllp.now check }
    ensures session { (s : SessionView) × (back.new.session ≡ Some s) × IsAfter result session (ReceiveDllp dllp.now check) s }
    ensures unchanged { IsErr result → back.new.session ≡ Some session }
{
    let mut held = open(slot);
    let outcome = receive_dllp(&mut held, dllp, check);
    *back = close(held);
    outcome
}

/// What the endpoint of the slot, which goes to `back`, sends next stands at the front of `buffer`. The only error is
/// `SmallBuffer`, for fewer than 146 bytes, and then nothing has changed.
pub fn tell_next(slot: Slot, buffer: &mut [u8], back: &mut Slot) -> Result<Sent, Failure>
    ghost session: { SessionView }
    requires { slot.session ≡ Some session }
    ensures outcome { result ≡ (next_call session.linked buffer.old).outcome }
    ensures session { back.new.session ≡ Some (with_linked session (next_call session.linked buffer.old).linked) }
    ensures buffer { buffer.new ≡ (next_call session.linked buffer.old).buffer }
    ensures unchanged { IsErr result → (back.new.session ≡ Some session) × (buffer.new ≡ buffer.old) }
{
    let mut held = open(slot);
    let outcome = next(&mut held.linked, buffer);
    *back = close(held);
    outcome
}

/// Puts all bytes of the endpoint's memory to the front of `buffer`. `SmallBuffer` for fewer bytes than it has, and then
/// nothing has changed. The endpoint goes to `back`, as it was.
pub fn copy_bytes(slot: Slot, buffer: &mut [u8], back: &mut Slot) -> Result<(), Failure>
    ghost session: { SessionView }
    requires { slot.session ≡ Some session }
    ensures outcome { result ≡ (copied buffer.old session.linked.endpoint.device.bytes).outcome }
    ensures buffer { buffer.new ≡ (copied buffer.old session.linked.endpoint.device.bytes).buffer }
    ensures unchanged { back.new.session ≡ Some session }
{
    let held = open(slot);
    let outcome = copy(held.linked.endpoint().bytes(), buffer);
    *back = close(held);
    outcome
}
