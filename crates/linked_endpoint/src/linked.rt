//! A device and its port.
ghost use Rattle.std.specs.Prelude.{◌≡◌, ◌<◌, ◌++◌, ◌∷◌, [], if◌then◌else◌, true, false, is_some, None, IfOk, IfErr, OnOk, OnErr};
ghost use Rattle.std.specs.VecDeque.{deque_len, deque_capacity};
ghost use Rattle.flow_control.specs.Limits.{IsInLimits};
ghost use Rattle.port_core.specs.Outgoing.{Refuses};
ghost use Rattle.port_core.specs.Port as link;
ghost use Rattle.port_core.specs.Incoming as packets;
ghost use Rattle.endpoint_core.specs.Steps as device;
ghost use Rattle.linked_endpoint.specs.Linked as spec;
ghost use Rattle.linked_endpoint.specs.Runs.{Receive, Act, Enter, after_call};
ghost use Rattle.linked_endpoint.specs.Settling.{logged, logged_all, turned, settling, settled, IsOnWay};
ghost use Rattle.endpoint_log.specs.Recordings as recordings;
ghost use Rattle.endpoint_log.specs.Recordings.{noted, IsOrLost};

use arrayvec::ArrayVec;
use config_core::Setup;
use endpoint_core::{Endpoint, Handled, Room};
use endpoint_log::Recording;
use flow_control::{LaneCredits, Need};
use link_crc::Check;
use port_core::{
    DllpReceived, DllpRefusal, EnterRefusal, Judged, LinkPort, Outgoing, PACKET_BYTES, Received,
};
use std::alloc::{AllocError, Global};
use std::collections::VecDeque;
use std::marker::Model;
use tlp_core::{Tlp, TlpRef};

/// What became of a packet that arrived.
#[derive(Clone, Copy, PartialEq)]
pub enum Arrived {
    /// The link isn't up: it is discarded.
    Dropped,
    /// It was accepted before, and is discarded; an Ack is due.
    Duplicate,
    /// It is discarded, and a Nak is due.
    NakNow,
    /// It is discarded, and nothing is sent: a Nak was scheduled before.
    Quiet,
    /// It is accepted and discarded, since its TLP needs more than was advertised: Receiver Overflow.
    Overflow,
    /// It is accepted, and this became of its TLP.
    Accepted(Handled),
}

/// A memory device and its end of a link.
#[derive(Drop)]
pub struct LinkedEndpoint {
    port: LinkPort,
    endpoint: Endpoint,
    /// What the requests that wait take of the credits, oldest first.
    needs: VecDeque<Option<Need>>,
    /// The completion of what acted last, until it enters the replay buffer.
    held: Option<Tlp>,
}

impl Model for LinkedEndpoint {
    ghost use Rattle.linked_endpoint.specs.LinkedView.{LinkedView};

    ghost Value = { LinkedView };

    ghost view = { λ l. record { port = l.port; endpoint = l.endpoint; needs = l.needs.items; held = l.held } };
}

/// The TLP of a packet, behind its sequence number.
pub fn tlp_in(packet: &[u8]) -> &[u8]
    ensures { result.now ≡ packets.tlp_in packet.now }
{
    if packet.len() < 2 {
        return &[];
    }
    &packet[2..]
}

/// Whether the TLP is a request that waits.
fn is_waiting(handled: Handled) -> bool
    ensures { result ≡ spec.is_waiting handled }
{
    match handled {
        Handled::Waits => true,
        _ => false,
    }
}

/// What a packet takes of the credits, if it is accepted.
fn need_in(received: Received) -> Option<Need>
    ensures { result ≡ spec.need_in received }
{
    match received {
        Received::Accepted { need, .. } => need,
        _ => None,
    }
}

/// Keeps what a request takes, if it waits.
fn keep_if(needs: &mut VecDeque<Option<Need>>, waits: bool, need: Option<Need>)
    requires { deque_len needs.old < deque_capacity needs.old }
    ensures { needs.new.items ≡ (if waits then needs.old.items ++ need ∷ [] else needs.old.items) }
{
    if waits {
        let _kept = needs.push_back(need);
    }
}

/// The credits of what doesn't wait go back.
fn free_unless(port: &mut LinkPort, waits: bool, need: Option<Need>)
    ensures { port.new ≡ (if waits then port.old else spec.freed port.old need) }
{
    if waits {
        return;
    }
    if let Some(need) = need {
        port.free(need);
    }
}

/// The answer to a packet whose TLP isn't taken.
fn discarded(received: Received) -> Arrived
    ensures { result ≡ spec.discarded received }
{
    match received {
        Received::Dropped => Arrived::Dropped,
        Received::Duplicate => Arrived::Duplicate,
        Received::NakNow => Arrived::NakNow,
        Received::Quiet => Arrived::Quiet,
        Received::Accepted { .. } => Arrived::Overflow,
    }
}

impl LinkedEndpoint {
    /// A device after a reset, whose memory holds zeros, and a port that advertises these credits, in DL_Inactive. Fails if
    /// memory can't be allocated.
    pub fn new(alloc: Global, setup: Setup, ours: LaneCredits) -> Result<LinkedEndpoint, AllocError>
        requires { IsInLimits ours }
        ensures { IfOk result (λ l. l ≡ spec.new_linked setup ours) }
    {
        let endpoint = Endpoint::new(alloc, setup)?;
        Ok(LinkedEndpoint {
            port: LinkPort::new(ours, alloc),
            endpoint,
            needs: VecDeque::new(alloc),
            held: None,
        })
    }

    /// The device is reset, and nothing waits.
    fn clear(&mut self)
        ensures { self.new ≡ spec.cleared self.old }
    {
        self.endpoint.reset();
        self.needs.clear();
        self.held = None;
    }

    /// The physical layer reports that the link is down: all that the link had is lost, and the device is reset. Its
    /// memory's bytes stay.
    pub fn down(&mut self, alloc: Global)
        ensures { self.new ≡ spec.after_down self.old }
    {
        self.port.down(alloc);
        self.clear();
    }

    /// The physical layer reports that the link is up: initialization begins, with new counters, and the device is reset.
    pub fn up(&mut self, alloc: Global)
        ensures { self.new ≡ spec.after_up self.old }
    {
        self.port.up(alloc);
        self.clear();
    }

    /// The end of the link.
    pub fn port(&self) -> &LinkPort
        ensures { result.now ≡ self.now.port }
    {
        &self.port
    }

    /// The device.
    pub fn endpoint(&self) -> &Endpoint
        ensures { result.now ≡ self.now.endpoint }
    {
        &self.endpoint
    }

    /// A packet that was accepted within its credits, whose TLP goes to the device and is recorded.
    fn accept(
        &mut self,
        packet: &[u8],
        judged: &Judged,
        room: &mut Room,
        recording: &mut Recording,
    ) -> Result<Arrived, AllocError>
        ensures ok { OnOk result (self.new ≡ spec.taken self.old (link.noted self.old.port judged.now) (spec.need_in judged.now.received) (packets.tlp_in packet.now)) }
        ensures answer { IfOk result (λ a. a ≡ Arrived.Accepted (device.handled self.old.endpoint (packets.tlp_in packet.now))) }
        ensures recorded { OnOk result (IsOrLost recording.new (recordings.came self.old.endpoint (packets.tlp_in packet.now) recording.old)) }
        ensures err { OnErr result (self.new ≡ self.old) }
        ensures unrecorded { OnErr result (recording.new ≡ recording.old) }
    {
        self.needs.reserve(1)?;
        let handled = recording.take(&mut self.endpoint, tlp_in(packet), room)?;
        self.port.note(judged);
        let need = need_in(judged.received);
        let waits = is_waiting(handled);
        keep_if(&mut self.needs, waits, need);
        free_unless(&mut self.port, waits, need);
        Ok(Arrived::Accepted(handled))
    }

    /// A packet arrives, with a good check or a failed one. The TLP of one that is accepted within its credits goes to the
    /// device, and what it does is recorded. Fails only for such a one, if memory can't be allocated, and then the packet is as
    /// if it was lost.
    #[tactic(auto, using(crate::proofs::Accepting::takes, crate::proofs::Turns::taken_logged, crate::proofs::Turns::not_logged))]
    pub fn receive(
        &mut self,
        packet: &[u8],
        check: Check,
        room: &mut Room,
        recording: &mut Recording,
    ) -> Result<Arrived, AllocError>
        ensures ok { OnOk result (self.new ≡ spec.after_receive self.old packet.now check) }
        ensures answer { IfOk result (λ a. a ≡ spec.arrived self.old packet.now check) }
        ensures recorded { OnOk result (IsOrLost recording.new (noted (logged self.old (Receive packet.now check)) recording.old)) }
        ensures grows { OnErr result (spec.is_taken (link.received self.old.port packet.now check) ≡ true) }
        ensures err { OnErr result (self.new ≡ self.old) }
        ensures unrecorded { OnErr result (recording.new ≡ recording.old) }
    {
        let judged = self.port.judge(packet, check);
        if let Received::Accepted {
            overflows: false,
            ..
        } = judged.received
        {
            return self.accept(packet, &judged, room, recording);
        }
        let received = self.port.note(&judged);
        Ok(discarded(received))
    }

    /// A DLLP arrives, with a good check or a failed one. A refused one changes nothing.
    pub fn receive_dllp(&mut self, bytes: &[u8], check: Check) -> Result<DllpReceived, DllpRefusal>
        ensures answer { result ≡ link.dllp_answer self.old.port bytes.now check }
        ensures state { self.new ≡ spec.with_port self.old (link.after_dllp_received self.old.port bytes.now check) }
    {
        self.port.receive_dllp(bytes, check)
    }

    /// Whether a request waits whose next completion may enter the replay buffer, and no other completion is held.
    pub fn may_act(&self) -> bool
        ensures { result ≡ spec.may_act self.now }
    {
        if self.held.is_some() {
            return false;
        }
        match self.endpoint.next_need() {
            Some(need) => self.port.refusal(need).is_none(),
            None => false,
        }
    }

    /// The credits of the oldest request that waits go back.
    fn give_back(&mut self)
        ensures { self.new ≡ spec.given_back self.old }
    {
        if let Some(Some(need)) = self.needs.pop_front() {
            self.port.free(need);
        }
    }

    /// The completion that is held enters the replay buffer. Returns whether there was one. A refusal changes nothing.
    fn enter(&mut self) -> Result<bool, EnterRefusal>
        ensures refused { IfErr result (λ r. Refuses (spec.refusal_of self.old) r) }
        ensures held { OnErr result (is_some self.old.held ≡ true) }
        ensures may { OnOk result (spec.refusal_of self.old ≡ None) }
        ensures answer { IfOk result (λ b. b ≡ is_some self.old.held) }
        ensures ok { OnOk result (self.new ≡ spec.entered self.old) }
        ensures err { OnErr result (self.new ≡ self.old) }
    {
        let Some(completion) = &self.held else {
            return Ok(false);
        };
        self.port.enter(&completion.lend())?;
        self.held = None;
        Ok(true)
    }

    /// The completion enters the replay buffer. If it is refused, it is held.
    fn enter_or_hold(&mut self, completion: &Option<TlpRef<'_>>)
        ensures { spec.IsHeldOrEntered (spec.with_held self.old completion.now) self.new }
    {
        self.held = None;
        let Some(completion) = completion else {
            return;
        };
        if self.port.enter(completion).is_err() {
            self.held = Some(completion.to_owned());
        }
    }

    /// The oldest request that waits acts, a read by one block, and its completion enters the replay buffer at once. It is held
    /// only if there is no memory for it. With its last completion the request's credits go back.
    fn complete(&mut self, room: &mut Room, recording: &mut Recording)
        requires { spec.may_act self.old ≡ true }
        ensures state { spec.IsHeldOrEntered (spec.acted self.old) self.new }
        ensures recorded { IsOrLost recording.new (recordings.acted self.old.endpoint recording.old) }
    {
        let waited = self.endpoint.waiting();
        let completion = recording.act(&mut self.endpoint, room);
        if self.endpoint.waiting() < waited {
            self.give_back();
        }
        self.enter_or_hold(&completion);
    }

    /// The completion that is held enters the replay buffer, unless that is refused. Fails if memory can't be allocated for it.
    #[tactic(auto, using(crate::proofs::Settling::memory_enters))]
    fn enter_unless_refused(&mut self) -> Result<(), AllocError>
        ensures ok { OnOk result (self.new ≡ after_call self.old Enter) }
        ensures memory { OnErr result (spec.may_enter self.old ≡ true) }
        ensures err { OnErr result (self.new ≡ self.old) }
    {
        match self.enter() {
            Ok(_) => Ok(()),
            Err(EnterRefusal::Memory) => Err(AllocError),
            Err(_) => Ok(()),
        }
    }

    /// A request acts and is recorded, and its completion enters the replay buffer.
    #[tactic(auto, using(crate::proofs::Turns::entered_at_last, crate::proofs::Turns::still_held))]
    fn turn(&mut self, room: &mut Room, recording: &mut Recording) -> Result<(), AllocError>
        requires { spec.may_act self.old ≡ true }
        ensures ok { OnOk result (self.new ≡ turned self.old) }
        ensures recorded { IsOrLost recording.new (recordings.acted self.old.endpoint recording.old) }
        ensures memory { OnErr result (spec.may_enter self.new ≡ true) }
        ensures err { OnErr result (self.new ≡ after_call self.old Act) }
    {
        self.complete(room, recording);
        self.enter_unless_refused()?;
        Ok(())
    }

    /// The completion that is held enters the replay buffer, and requests act, are recorded, and their completions enter it,
    /// until none that waits may act, and no completion that is held may enter: as far as the peer's credits and the window of
    /// 2047 packets go. Fails if memory can't be allocated for a completion: it is held, and nothing more acts.
    #[tactic(auto, using(crate::proofs::Turns::fewer, crate::proofs::Turns::enters_rests))]
    pub fn settle(&mut self, room: &mut Room, recording: &mut Recording) -> Result<(), AllocError>
        ensures way { IsOnWay self.old recording.old self.new recording.new }
        ensures linked { OnOk result (self.new ≡ settled self.old) }
        ensures recorded { OnOk result (IsOrLost recording.new (noted (logged_all self.old (settling self.old)) recording.old)) }
        ensures done { spec.may_act self.new ≡ false }
        ensures entered { OnOk result (spec.may_enter self.new ≡ false) }
        ensures err { OnErr result (spec.may_enter self.new ≡ true) }
    {
        self.enter_unless_refused()?;
        while self.may_act() {
            self.turn(room, recording)?;
        }
        Ok(())
    }

    /// Fills `out` with what is sent next, if anything is, in the order of [`LinkPort::next`].
    pub fn next(&mut self, out: &mut ArrayVec<u8, PACKET_BYTES>) -> Outgoing
        ensures answer { result ≡ link.outgoing_of self.old.port }
        ensures bytes { out.new.items ≡ link.outgoing_bytes self.old.port }
        ensures state { self.new ≡ spec.with_port self.old (link.after_next self.old.port) }
    {
        self.port.next(out)
    }

    /// A timer for InitFCs, or for Acks and UpdateFCs, expired.
    pub fn refresh(&mut self)
        ensures { self.new ≡ spec.with_port self.old (link.refreshed self.old.port) }
    {
        self.port.refresh();
    }

    /// REPLAY_TIMER expired: the next packet to send is the oldest. Returns by how many packets that moved back.
    pub fn replay(&mut self) -> usize
        ensures moved { result ≡ self.old.port.sender.sending.place }
        ensures state { self.new ≡ spec.with_port self.old (link.after_replay self.old.port) }
    {
        self.port.replay()
    }

    /// The link was retrained: the sender is no longer stopped. Returns whether it was.
    pub fn retrained(&mut self) -> bool
        ensures answer { result ≡ self.old.port.sender.sending.stopped }
        ensures state { self.new ≡ spec.with_port self.old (link.after_retrained self.old.port) }
    {
        self.port.retrained()
    }
}
