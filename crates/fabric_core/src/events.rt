//! Each event over the parts that it uses. A refused event leaves them as they were.
ghost use Rattle.std.specs.Prelude.{◌≡◌, ◌↔◌, ◌<◌, ℕ, [], true, false, length, option_map, Some, Ok, Err, IfOk, IfErr, OnOk, OnErr};
ghost use Rattle.dllp_core.specs.Layout.{FitsDataFC};
ghost use Rattle.tlp_core.specs.Layout.{Spells, canonical};
ghost use Rattle.tlp_core.specs.TlpView.{TlpView};
ghost use Rattle.tlp_core.specs.Operation.{op_of};
ghost use Rattle.requester_core.specs.Request.{request_for};
ghost use Rattle.requester_core.specs.RequesterView.{prepared};
ghost use Rattle.requester_core.specs.declared.fault.SubmitRefusal.{SubmitRefusal};
ghost use Rattle.dllp_core.specs.declared.packet.Dllp.{Dllp};
ghost use Rattle.flow_control.specs.Needs.{need_of, takes, units_of};
ghost use Rattle.completer_core.specs.Serving.{completion_to, after_serving};
ghost use Rattle.lane_core.specs.Steps.{may_enter, with_room, after_timer, after_retraining, transmitted, after_transmission, wire_after_transmit, all_but_first, delivered, after_deliver, dllp_of, after_send, wire_after_send, dllp_seen, sender_after};
ghost use Rattle.lane_core.specs.Refusals.{LacksRoom};
ghost use Rattle.switch_core.specs.Forwarding.{Forwards};
ghost use Rattle.fabric_core.specs.Answers.{Refuses, lane_grows, arrival_grows, serving_grows, enter_on, transmit_on, deliver_on, send_dllp_on, deliver_dllp_on, timer_on, retrained_on, submit_on, destination_on, forward_on, act_on, serve_on, collect_on, link_on, link_grows, SubmitFits, ForwardFits, ServeFits, ActFits};

use completer_core::{need_for, serve_op};
use dllp_core::{Class, Dllp};
use fabric_steps::{LinkEvent, Refusal, SeenRef};
use flow_control::Need;
use lane_core::{
    Arrival, BackWire, DllpKind, DllpSeen, Fate, ForwardWire, LaneEnds, LaneRefusal, ReceiverEnd,
    SenderEnd,
};
use requester_core::{Answer, Requester};
use seq_memory::{Keeper, Memory};
use seq12::Seq12;
use switch_core::{ForwardRefusal, Port, forward_ends, route};
use tlp_core::{Op, OpRef, Tlp, op_of};

/// A packet enters a lane with its mark.
fn enter(sender: &mut SenderEnd, tlp: &Tlp, mark: u32) -> Result<(), LaneRefusal>
    ensures answers { OnOk result (enter_on sender.old tlp.now mark ≡ Ok sender.new) }
    ensures refuses { IfErr result (λ r. Refuses lane_grows (enter_on sender.old tlp.now mark) (Refusal.Lane r)) }
    ensures spelled { OnOk result (Spells (canonical tlp.now) tlp.now) }
    ensures err { OnErr result (sender.new ≡ sender.old) }
{
    sender.enter(tlp, mark)?;
    Ok(())
}

/// What a packet of a class takes whose payload has so many bytes.
fn need_for_bytes(class: Class, bytes: u16) -> Need
    ensures { result ≡ takes class (units_of bytes) }
{
    let data = Need::completion(bytes);
    Need {
        class,
        header: 1,
        units: data.units,
    }
}

/// What the request for an operation takes of the credits.
fn need_asked(op: &OpRef<'_>) -> Need
    ensures { (port tag : ℕ) → need_of (request_for port tag op.now) ≡ result }
{
    match op {
        OpRef::Read { .. } => need_for_bytes(Class::NonPosted, 0),
        OpRef::Write { bytes, .. } => {
            need_for_bytes(Class::Posted, bytes.as_slice().len() as u16)
        }
        OpRef::FetchAdd { width, .. } | OpRef::Swap { width, .. } => {
            need_for_bytes(Class::NonPosted, u16::from(width.size()))
        }
        OpRef::Cas { width, .. } => {
            need_for_bytes(Class::NonPosted, 2 * u16::from(width.size()))
        }
    }
}

/// Why an operation is refused that the sender has no credits for: `Submit` where no request is prepared, then `Lane`.
fn refused_for(requester: &Requester, op: &OpRef<'_>, class: Class) -> Refusal
    ensures prepared { (number : ℕ) (request : TlpView) → prepared requester.now op.now ≡ Ok (number, request) → result ≡ Refusal.Lane (LaneRefusal.NoCredits class) }
    ensures refused { (r : SubmitRefusal) → prepared requester.now op.now ≡ Err r → result ≡ Refusal.Submit r }
{
    match requester.next_tag(op) {
        Ok(_) => Refusal::Lane(LaneRefusal::NoCredits(class)),
        Err(refusal) => Refusal::Submit(refusal),
    }
}

/// The requester submits an operation: its request enters the lane, and its number is spent. Gives the number. `Submit`
/// where no request is prepared, then `Lane`.
pub fn submit(
    requester: &mut Requester,
    sender: &mut SenderEnd,
    op: &OpRef<'_>,
) -> Result<u32, Refusal>
    ensures answers { IfOk result (λ number. submit_on requester.old sender.old op.now ≡ Ok (number, requester.new, sender.new)) }
    ensures refuses { IfErr result (λ r. Refuses lane_grows (submit_on requester.old sender.old op.now) r) }
    ensures fits { OnOk result (SubmitFits requester.old op.now) }
    ensures err_requester { OnErr result (requester.new ≡ requester.old) }
    ensures err_sender { OnErr result (sender.new ≡ sender.old) }
{
    let need = need_asked(op);
    if !sender.gate().fits(need) {
        return Err(refused_for(requester, op, need.class));
    }
    let (number, request) = match requester.prepare(op) {
        Ok(prepared) => prepared,
        Err(refusal) => return Err(Refusal::Submit(refusal)),
    };
    if let Err(refusal) = enter(sender, &request, number) {
        return Err(Refusal::Lane(refusal));
    }
    requester.opened(&request);
    Ok(number)
}

/// The sender's next packet goes onto the wire. Gives its sequence number. `Idle` where there is none to send, or while
/// the sender is stopped; then `Lane` for being out of memory.
pub fn transmit(sender: &mut SenderEnd, wire: &mut ForwardWire) -> Result<Seq12, Refusal>
    ensures answers { IfOk result (λ number. transmit_on sender.old wire.old ≡ Ok (number, sender.new, wire.new)) }
    ensures refuses { IfErr result (λ r. Refuses lane_grows (transmit_on sender.old wire.old) r) }
    ensures err_sender { OnErr result (sender.new ≡ sender.old) }
    ensures err_wire { OnErr result (wire.new ≡ wire.old) }
{
    if !sender.can_transmit() {
        return Err(Refusal::Idle);
    }
    match sender.transmit(wire) {
        Ok(Some(number)) => Ok(number),
        Ok(None) => Err(Refusal::Idle),
        Err(refusal) => Err(Refusal::Lane(refusal)),
    }
}

/// The oldest packet of the wire reaches the receiver, or doesn't. Gives what became of it. `Idle` where the wire is
/// empty; then `Lane` for being out of memory.
pub fn deliver(
    wire: &mut ForwardWire,
    receiver: &mut ReceiverEnd,
    fate: Fate,
) -> Result<Arrival, Refusal>
    ensures answers { IfOk result (λ arrival. deliver_on wire.old receiver.old fate ≡ Ok (arrival, wire.new, receiver.new)) }
    ensures refuses { IfErr result (λ r. Refuses (λ x. arrival_grows x.0) (deliver_on wire.old receiver.old fate) r) }
    ensures err_receiver { OnErr result (receiver.new ≡ receiver.old) }
    ensures err_wire { OnErr result (wire.new ≡ wire.old) }
{
    if wire.is_empty() {
        return Err(Refusal::Idle);
    }
    match receiver.deliver(wire, fate) {
        Ok(Some(arrival)) => Ok(arrival),
        Ok(None) => Err(Refusal::Idle),
        Err(refusal) => Err(Refusal::Lane(refusal)),
    }
}

/// The receiver puts a DLLP on the back wire, and gives it. `Lane` for being out of memory.
pub fn send_dllp(
    receiver: &mut ReceiverEnd,
    wire: &mut BackWire,
    kind: DllpKind,
) -> Result<Dllp, Refusal>
    ensures answers { IfOk result (λ dllp. send_dllp_on receiver.old wire.old kind ≡ Ok (dllp, receiver.new, wire.new)) }
    ensures refuses { IfErr result (λ r. Refuses lane_grows (send_dllp_on receiver.old wire.old kind) r) }
    ensures in_range { IfOk result (λ dllp. FitsDataFC dllp) }
    ensures err_receiver { OnErr result (receiver.new ≡ receiver.old) }
    ensures err_wire { OnErr result (wire.new ≡ wire.old) }
{
    match receiver.send_dllp(wire, kind) {
        Ok(dllp) => Ok(dllp),
        Err(refusal) => Err(Refusal::Lane(refusal)),
    }
}

/// The oldest DLLP of the back wire reaches the sender, or doesn't. Gives what became of it. `Idle` where the wire is
/// empty, `Protocol` where a good Ack or Nak names no packet.
pub fn deliver_dllp(
    wire: &mut BackWire,
    sender: &mut SenderEnd,
    fate: Fate,
) -> Result<DllpSeen, Refusal>
    ensures answers { IfOk result (λ seen. deliver_dllp_on wire.old sender.old fate ≡ Ok (seen, wire.new, sender.new)) }
    ensures refuses { IfErr result (λ r. deliver_dllp_on wire.old sender.old fate ≡ Err r) }
    ensures in_range { (dllp : Dllp) → result ≡ Ok (DllpSeen.Took dllp) → FitsDataFC dllp }
    ensures err_sender { OnErr result (sender.new ≡ sender.old) }
    ensures err_wire { OnErr result (wire.new ≡ wire.old) }
{
    match sender.deliver_dllp(wire, fate) {
        Ok(Some(seen)) => Ok(seen),
        Ok(None) => Err(Refusal::Idle),
        Err(fault) => Err(Refusal::Protocol(fault)),
    }
}

/// The replay timer expires. Gives by how many places the sender moved back. `Idle` where there is no place to move
/// back.
pub fn timer(sender: &mut SenderEnd) -> Result<usize, Refusal>
    ensures answers { IfOk result (λ moved. timer_on sender.old ≡ Ok (moved, sender.new)) }
    ensures refuses { IfErr result (λ r. timer_on sender.old ≡ Err r) }
    ensures err { OnErr result (sender.new ≡ sender.old) }
{
    let moved = sender.timer();
    if moved == 0 {
        return Err(Refusal::Idle);
    }
    Ok(moved)
}

/// The link was retrained. `Idle` where the sender isn't stopped.
pub fn retrained(sender: &mut SenderEnd) -> Result<(), Refusal>
    ensures answers { OnOk result (retrained_on sender.old ≡ Ok sender.new) }
    ensures refuses { IfErr result (λ r. retrained_on sender.old ≡ Err r) }
    ensures err { OnErr result (sender.new ≡ sender.old) }
{
    if !sender.retrained() {
        return Err(Refusal::Idle);
    }
    Ok(())
}

/// A call of the link, and what is seen of it.
pub(crate) fn link(lane: &mut LaneEnds, event: LinkEvent) -> Result<SeenRef<'static>, Refusal>
    ensures answers { IfOk result (λ what. link_on lane.old event ≡ Ok (what, lane.new)) }
    ensures refuses { IfErr result (λ r. Refuses (λ x. link_grows x.0) (link_on lane.old event) r) }
    ensures err { OnErr result (lane.new ≡ lane.old) }
{
    match event {
        LinkEvent::Transmit => Ok(SeenRef::Sent(transmit(&mut lane.sender, &mut lane.forward)?)),
        LinkEvent::Deliver(fate) => {
            Ok(SeenRef::Delivered(deliver(&mut lane.forward, &mut lane.receiver, fate)?))
        }
        LinkEvent::SendDllp(kind) => {
            Ok(SeenRef::SentDllp(send_dllp(&mut lane.receiver, &mut lane.back, kind)?))
        }
        LinkEvent::DeliverDllp(fate) => {
            Ok(SeenRef::SeenDllp(deliver_dllp(&mut lane.back, &mut lane.sender, fate)?))
        }
        LinkEvent::Timer => Ok(SeenRef::Back(timer(&mut lane.sender)?)),
        LinkEvent::Retrained => {
            retrained(&mut lane.sender)?;
            Ok(SeenRef::Retrained)
        }
    }
}

/// The port to which the packet at this place goes that came in from another. `NotTakeable` where there is none or it
/// may not pass an earlier one, then `Route`.
pub fn destination(receiver: &ReceiverEnd, place: usize, from: Port) -> Result<Port, Refusal>
    ensures answers { IfOk result (λ port. destination_on receiver.now place from ≡ Ok port) }
    ensures refuses { IfErr result (λ r. destination_on receiver.now place from ≡ Err r) }
{
    let Some((packet, _)) = receiver.peek(place) else {
        return Err(Refusal::NotTakeable);
    };
    match route(packet, from) {
        Ok(port) => Ok(port),
        Err(fault) => Err(Refusal::Route(fault)),
    }
}

/// The packet at this place goes into the next lane, with its mark. `NotTakeable` where there is none or it may not
/// pass an earlier one, then `Lane`.
pub fn forward(
    receiver: &mut ReceiverEnd,
    place: usize,
    sender: &mut SenderEnd,
) -> Result<(), Refusal>
    ensures answers { OnOk result (forward_on receiver.old place sender.old ≡ Ok (receiver.new, sender.new)) }
    ensures refuses { IfErr result (λ r. Refuses lane_grows (forward_on receiver.old place sender.old) r) }
    ensures fits { OnOk result (ForwardFits receiver.old place) }
    ensures err_receiver { OnErr result (receiver.new ≡ receiver.old) }
    ensures err_sender { OnErr result (sender.new ≡ sender.old) }
{
    match forward_ends(receiver, place, sender) {
        Ok(()) => Ok(()),
        Err(ForwardRefusal::NotTakeable) => Err(Refusal::NotTakeable),
        Err(ForwardRefusal::Lane(refusal)) => Err(Refusal::Lane(refusal)),
    }
}

/// The requester takes its oldest completion. Gives the number of the request and the reply. `Idle` where none has
/// arrived, `Strange` where the requester doesn't expect it.
pub fn collect(receiver: &mut ReceiverEnd, requester: &mut Requester) -> Result<Answer, Refusal>
    ensures answers { IfOk result (λ a. collect_on receiver.old requester.old ≡ Ok (a, receiver.new, requester.new)) }
    ensures refuses { IfErr result (λ r. collect_on receiver.old requester.old ≡ Err r) }
    ensures err_receiver { OnErr result (receiver.new ≡ receiver.old) }
    ensures err_requester { OnErr result (requester.new ≡ requester.old) }
{
    let Some((packet, _)) = receiver.peek(0) else {
        return Err(Refusal::Idle);
    };
    match requester.finish(packet) {
        Ok(answer) => {
            let (_, _) = receiver.take(0);
            Ok(answer)
        }
        Err(fault) => Err(Refusal::Strange(fault)),
    }
}

/// A posted write acts on the memory.
fn act_alone<K: Keeper>(
    memory: &mut Memory<K>,
    request: &Tlp,
    op: Op,
    mark: u32,
) -> Result<usize, Refusal>
    requires { op_of request.now ≡ Some op }
    ensures place { IfOk result (λ place. place ≡ length memory.old.entries) }
    ensures ok { OnOk result (memory.new ≡ after_serving memory.old request.now mark) }
    ensures errors { IfErr result (λ r. r ≡ Refusal.Memory) }
    ensures err { OnErr result (memory.new ≡ memory.old) }
{
    let place = memory.count();
    match serve_op(memory, request, op, mark) {
        Ok(_) => Ok(place),
        Err(_) => Err(Refusal::Memory),
    }
}

/// The request acts on the memory, and its completion, which has this need, enters the lane.
fn act_and_answer<K: Keeper>(
    memory: &mut Memory<K>,
    request: &Tlp,
    op: Op,
    mark: u32,
    sender: &mut SenderEnd,
    need: Need,
) -> Result<usize, Refusal>
    requires asks { op_of request.now ≡ Some op }
    requires need { option_map need_of (completion_to memory.old request.now) ≡ Some need }
    ensures answers { IfOk result (λ place. act_on memory.old request.now mark sender.old ≡ Ok (place, memory.new, sender.new)) }
    ensures refuses { IfErr result (λ r. Refuses (λ x. serving_grows sender.old x.2) (act_on memory.old request.now mark sender.old) r) }
    ensures fits { OnOk result (ActFits memory.old request.now) }
    ensures err_memory { OnErr result (memory.new ≡ memory.old) }
    ensures err_sender { OnErr result (sender.new ≡ sender.old) }
{
    let place = memory.count();
    let had_room = sender.has_room();
    if let Err(refusal) = sender.make_room(need) {
        return Err(Refusal::Lane(refusal));
    }
    match serve_op(memory, request, op, mark) {
        Ok(Some(completion)) => {
            let _ = sender.enter(&completion, mark);
            Ok(place)
        }
        Ok(None) => Ok(place),
        Err(_) => {
            if !had_room {
                sender.release();
            }
            Err(Refusal::Memory)
        }
    }
}

/// The request acts on the memory, and its completion, if it has one, enters the lane.
fn act<K: Keeper>(
    memory: &mut Memory<K>,
    request: &Tlp,
    mark: u32,
    sender: &mut SenderEnd,
) -> Result<usize, Refusal>
    ensures answers { IfOk result (λ place. act_on memory.old request.now mark sender.old ≡ Ok (place, memory.new, sender.new)) }
    ensures refuses { IfErr result (λ r. Refuses (λ x. serving_grows sender.old x.2) (act_on memory.old request.now mark sender.old) r) }
    ensures fits { OnOk result (ActFits memory.old request.now) }
    ensures err_memory { OnErr result (memory.new ≡ memory.old) }
    ensures err_sender { OnErr result (sender.new ≡ sender.old) }
{
    let Some(op) = op_of(request) else {
        // A completion asks for nothing.
        return Ok(memory.count());
    };
    match need_for(memory, request, &op) {
        Some(need) => act_and_answer(memory, request, op, mark, sender, need),
        None => act_alone(memory, request, op, mark),
    }
}

/// The request at this place acts on the memory, and its completion, if it has one, enters the lane. Gives the place in
/// the history. `NotTakeable` where there is no packet or it may not pass an earlier one, then `Lane` where there is no
/// room for the completion, then `Memory` where the history can't grow.
pub fn serve<K: Keeper>(
    receiver: &mut ReceiverEnd,
    place: usize,
    memory: &mut Memory<K>,
    sender: &mut SenderEnd,
) -> Result<usize, Refusal>
    ensures answers { IfOk result (λ at. serve_on receiver.old place memory.old sender.old ≡ Ok (at, receiver.new, memory.new, sender.new)) }
    ensures refuses { IfErr result (λ r. Refuses (λ x. serving_grows sender.old x.3) (serve_on receiver.old place memory.old sender.old) r) }
    ensures fits { OnOk result (ServeFits receiver.old place memory.old) }
    ensures err_receiver { OnErr result (receiver.new ≡ receiver.old) }
    ensures err_memory { OnErr result (memory.new ≡ memory.old) }
    ensures err_sender { OnErr result (sender.new ≡ sender.old) }
{
    let Some((request, mark)) = receiver.peek(place) else {
        return Err(Refusal::NotTakeable);
    };
    let at = act(memory, request, mark, sender)?;
    let (_, _) = receiver.take(place);
    Ok(at)
}
