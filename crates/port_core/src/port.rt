//! A port: its state, its two ends, and what is due.
ghost use Rattle.std.specs.Prelude.{◌≡◌, ◌<◌, OnOk, OnErr, IfOk, IfErr, None};
ghost use Rattle.dllp_core.specs.Layout.{FitsDataFC};
ghost use Rattle.port_core.specs.Dllps.{HasFields};
ghost use Rattle.port_core.specs.Outgoing.{Refuses};
ghost use Rattle.port_core.specs.Port as spec;

use crate::dllp::{InitStage, LinkDllp, decode, encode};
use crate::due::{ClassFlags, Due};
use crate::fault::{DllpRefusal, EnterRefusal};
use crate::incoming::{IncomingEnd, Received};
use crate::init::{Advertised, FirstCredits, LinkState};
use crate::outgoing::{OutgoingEnd, PACKET_BYTES};
use arrayvec::ArrayVec;
use dllp_core::{Class, Dllp, DllpFault};
use flow_control::{LaneCredits, Need};
use link_crc::Check;
use seq12::Seq12;
use std::alloc::Global;
use std::marker::Model;
use tlp_core::TlpRef;

/// What becomes of a DLLP that arrived.
#[derive(Clone, Copy, Debug, PartialEq)]
pub enum DllpReceived {
    /// It took effect.
    Took,
    /// It is discarded, and nothing changes: its check failed, it is of a type that isn't read, or it says nothing in this state.
    Gone,
}

/// What becomes of a packet, if it arrives, and of the port by it.
#[derive(Clone, Copy)]
pub struct Judged {
    pub received: Received,
    pub(crate) incoming: IncomingEnd,
    pub(crate) state: LinkState,
}

/// What a port sends.
#[derive(Clone, Copy, PartialEq)]
pub enum Outgoing {
    /// Nothing is to be sent.
    Nothing,
    Dllp(LinkDllp),
    /// A packet of this number.
    Packet(Seq12),
}

/// What is sent next.
#[derive(Clone, Copy)]
pub(crate) enum Choice {
    Nothing,
    /// The Nak that is due, or else the Ack.
    Answer,
    /// The InitFC of a class.
    Init(Class),
    /// The UpdateFC of a class.
    Update(Class),
    Packet,
}

/// The answer to bytes that aren't read: a DLLP of another type is dropped silently.
fn unread(fault: DllpFault) -> Result<DllpReceived, DllpRefusal>
    ensures { result ≡ spec.unread_answer fault }
{
    match fault {
        DllpFault::Short => Err(DllpRefusal::Bytes(DllpFault::Short)),
        DllpFault::Kind => Ok(DllpReceived::Gone),
        DllpFault::Scaled => Err(DllpRefusal::Bytes(DllpFault::Scaled)),
    }
}

/// One end of a link.
#[derive(Drop)]
pub struct LinkPort {
    ours: LaneCredits,
    state: LinkState,
    peer: Advertised,
    sender: OutgoingEnd,
    /// How many of the unacknowledged packets were given out at least once, the oldest ones.
    given: usize,
    incoming: IncomingEnd,
    due: Due,
}

impl Model for LinkPort {
    ghost use Rattle.std.specs.Prelude.{◌≤◌, length};
    ghost use Rattle.flow_control.specs.Limits.{IsInLimits};
    ghost use Rattle.port_core.specs.Port.{PortView};

    ghost Value = { PortView };

    ghost view = { λ p. record { ours = p.ours; state = p.state; peer = p.peer; sender = p.sender; given = p.given; incoming = p.incoming; due = p.due } };

    ghost invariant = { λ p. IsInLimits p.ours × (p.given ≤ length p.sender.sending.kept) };
}

impl LinkPort {
    ghost use Rattle.flow_control.specs.Limits.{IsInLimits};
    ghost use Rattle.flow_control.specs.Needs.{need_of};
    ghost use Rattle.link_replay.specs.SenderView.{next_number};

    /// A port that advertises these credits, in DL_Inactive. It allocates nothing.
    pub fn new(ours: LaneCredits, alloc: Global) -> LinkPort
        requires { IsInLimits ours }
        ensures { result ≡ spec.new_port ours }
    {
        LinkPort {
            ours,
            state: LinkState::Inactive,
            peer: Advertised::nothing(),
            sender: OutgoingEnd::new(alloc),
            given: 0,
            incoming: IncomingEnd::new(ours),
            due: Due::nothing(),
        }
    }

    /// The physical layer reports that the link is down: all that the link had is lost.
    pub fn down(&mut self, alloc: Global)
        ensures { self.new ≡ spec.new_port self.old.ours }
    {
        *self = LinkPort::new(self.ours, alloc);
    }

    /// The physical layer reports that the link is up: initialization begins, with new counters.
    pub fn up(&mut self, alloc: Global)
        ensures { self.new ≡ spec.risen self.old.ours }
    {
        self.down(alloc);
        self.state = LinkState::Init1;
        self.due.init = ClassFlags::all(true);
    }

    /// The port's state.
    pub fn state(&self) -> LinkState
        ensures { result ≡ self.now.state }
    {
        self.state
    }

    /// The receiving end.
    pub fn incoming(&self) -> &IncomingEnd
        ensures { result.now ≡ self.now.incoming }
    {
        &self.incoming
    }

    /// The sending end.
    pub fn sender(&self) -> &OutgoingEnd
        ensures { result.now ≡ self.now.sender }
    {
        &self.sender
    }

    /// A packet arrives, with a good check or a failed one. While the link is down or in FC_INIT1 it is discarded, and no
    /// Ack is due. A good one ends FC_INIT2.
    pub fn receive(&mut self, packet: &[u8], check: Check) -> Received
        ensures answer { result ≡ spec.received self.old packet.now check }
        ensures state { self.new ≡ spec.after_receive self.old packet.now check }
    {
        let judged = self.judge(packet, check);
        self.note(&judged)
    }

    /// What [`receive`](Self::receive) would do with a packet, which [`note`](Self::note) then does.
    pub fn judge(&self, packet: &[u8], check: Check) -> Judged
        ensures received { result.received ≡ spec.received self.now packet.now check }
        ensures noted { spec.noted self.now result ≡ spec.after_receive self.now packet.now check }
    {
        let mut incoming = self.incoming;
        if !self.state.is_up() {
            return Judged {
                received: Received::Dropped,
                incoming,
                state: self.state,
            };
        }
        let received = incoming.receive(packet, check);
        let mut state = self.state;
        if check.passed() && packet.len() >= 2 {
            state = state.activated();
        }
        Judged {
            received,
            incoming,
            state,
        }
    }

    /// The packet arrives that was judged last. Returns what becomes of it.
    pub fn note(&mut self, judged: &Judged) -> Received
        ensures answer { result ≡ judged.now.received }
        ensures state { self.new ≡ spec.noted self.old judged.now }
    {
        self.state = judged.state;
        self.incoming = judged.incoming;
        self.due.note_received(self.ours, judged.received);
        judged.received
    }

    /// The owner gives the credits of an accepted TLP back.
    pub fn free(&mut self, need: Need)
        ensures { self.new ≡ spec.after_free self.old need }
    {
        self.incoming.free(need);
        self.due.note_freed(self.ours, need.class);
    }

    /// An InitFC1 arrives in FC_INIT1, or an InitFC2 does.
    fn record(&mut self, class: Class, first: FirstCredits)
        ensures { self.new ≡ spec.recorded self.old class first }
    {
        self.peer.record(class, first);
        if self.peer.fi1() {
            self.state = LinkState::Init2;
            self.sender.begin(self.peer.credits());
            self.due.init = ClassFlags::all(true);
        }
    }

    /// An InitFC arrives.
    fn initialize(
        &mut self,
        stage: InitStage,
        class: Class,
        first: FirstCredits,
    ) -> Result<DllpReceived, DllpRefusal>
        ensures answer { result ≡ spec.init_answer self.old.state stage first }
        ensures state { self.new ≡ spec.after_init self.old stage class first }
    {
        match self.state {
            LinkState::Init1 => {
                if !first.is_allowed() {
                    return Err(DllpRefusal::CreditLimit);
                }
                self.record(class, first);
                Ok(DllpReceived::Took)
            }
            LinkState::Init2 => match stage {
                InitStage::First => Ok(DllpReceived::Gone),
                InitStage::Second => {
                    self.state = LinkState::Active;
                    Ok(DllpReceived::Took)
                }
            },
            LinkState::Inactive | LinkState::Active => Ok(DllpReceived::Gone),
        }
    }

    /// An Ack or Nak arrives, in DL_Up.
    fn acknowledge(&mut self, number: Seq12, is_nak: bool) -> Result<DllpReceived, DllpRefusal>
        ensures answer { result ≡ spec.ack_answer self.old number }
        ensures state { self.new ≡ spec.after_ack self.old number is_nak }
    {
        let count = usize::from(number.distance(self.sender.sending().ackd_seq()));
        if count > self.given {
            return Err(DllpRefusal::NotOutstanding);
        }
        let _expected = self.sender.acknowledge(number, is_nak);
        self.given -= count;
        Ok(DllpReceived::Took)
    }

    /// An UpdateFC arrives, in DL_Up.
    fn learn(&mut self, class: Class, header: u8, units: u16) -> Result<DllpReceived, DllpRefusal>
        requires { units < 4096 }
        ensures answer { result ≡ spec.update_answer self.old class header units }
        ensures state { self.new ≡ spec.after_update self.old class header units }
    {
        if !self.sender.learn(class, header, units) {
            return Err(DllpRefusal::CreditLimit);
        }
        self.state = self.state.activated();
        Ok(DllpReceived::Took)
    }

    /// A DLLP arrives, with a good check or a failed one. In FC_INIT1 only InitFCs count. A refused one changes nothing.
    pub fn receive_dllp(&mut self, bytes: &[u8], check: Check) -> Result<DllpReceived, DllpRefusal>
        ensures answer { result ≡ spec.dllp_answer self.old bytes.now check }
        ensures state { self.new ≡ spec.after_dllp_received self.old bytes.now check }
    {
        if !check.passed() || self.state == LinkState::Inactive {
            return Ok(DllpReceived::Gone);
        }
        let dllp = match decode(bytes) {
            Ok(dllp) => dllp,
            Err(fault) => return unread(fault),
        };
        match dllp {
            LinkDllp::Init(stage, class, first) => self.initialize(stage, class, first),
            LinkDllp::Other(other) => self.take_effect(other),
        }
    }

    /// An Ack, a Nak or an UpdateFC arrives.
    fn take_effect(&mut self, dllp: Dllp) -> Result<DllpReceived, DllpRefusal>
        requires { FitsDataFC dllp }
        ensures answer { result ≡ spec.other_answer self.old dllp }
        ensures state { self.new ≡ spec.after_other self.old dllp }
    {
        if !self.state.is_up() {
            return Ok(DllpReceived::Gone);
        }
        match dllp {
            Dllp::Ack(number) => self.acknowledge(number, false),
            Dllp::Nak(number) => self.acknowledge(number, true),
            Dllp::Update(class, header, units) => self.learn(class, header, units),
        }
    }

    /// Why a packet of this need can't be entered, unless for want of memory.
    pub fn refusal(&self, need: Need) -> Option<EnterRefusal>
        ensures { result ≡ spec.refusal_of self.now need }
    {
        if self.state != LinkState::Active {
            return Some(EnterRefusal::NotActive);
        }
        self.sender.refusal(need)
    }

    /// Takes a packet to be sent as the last, under NEXT_TRANSMIT_SEQ. A refusal changes nothing.
    pub fn enter(&mut self, tlp: &TlpRef<'_>) -> Result<Seq12, EnterRefusal>
        ensures refused { IfErr result (λ r. Refuses (spec.refusal_of self.old (need_of tlp.now)) r) }
        ensures may { OnOk result (spec.refusal_of self.old (need_of tlp.now) ≡ None) }
        ensures number { IfOk result (λ number. number ≡ next_number self.old.sender.sending) }
        ensures ok { OnOk result (self.new ≡ spec.after_enter self.old tlp.now) }
        ensures err { OnErr result (self.new ≡ self.old) }
    {
        if self.state != LinkState::Active {
            return Err(EnterRefusal::NotActive);
        }
        self.sender.enter(tlp)
    }

    /// An InitFC is next, or else this.
    fn init_or(&self, other: Choice) -> Choice
        ensures { result ≡ spec.init_or self.now other }
    {
        match self.due.init.first() {
            Some(class) => Choice::Init(class),
            None => other,
        }
    }

    /// A Nak or an Ack is next, or else this.
    fn answer_or(&self, other: Choice) -> Choice
        ensures { result ≡ spec.answer_or self.now other }
    {
        if self.due.ack || self.incoming.nak_is_due() {
            Choice::Answer
        } else {
            other
        }
    }

    /// An UpdateFC is next, or else this.
    fn update_or(&self, other: Choice) -> Choice
        ensures { result ≡ spec.update_or self.now other }
    {
        match self.due.update.first() {
            Some(class) => Choice::Update(class),
            None => other,
        }
    }

    /// A packet is next, or nothing.
    fn packet_or_nothing(&self) -> Choice
        ensures { result ≡ spec.packet_or_nothing self.now }
    {
        if self.sender.can_transmit() {
            Choice::Packet
        } else {
            Choice::Nothing
        }
    }

    /// What is sent next.
    fn choice(&self) -> Choice
        ensures { result ≡ spec.choice_of self.now }
    {
        match self.state {
            LinkState::Inactive => Choice::Nothing,
            LinkState::Init1 => self.init_or(Choice::Nothing),
            LinkState::Init2 => self.answer_or(self.init_or(Choice::Nothing)),
            LinkState::Active => {
                self.answer_or(self.init_or(self.update_or(self.packet_or_nothing())))
            }
        }
    }

    /// The Nak or Ack that is due.
    fn send_answer(&mut self) -> Dllp
        ensures answer { result ≡ spec.answer_of self.old }
        ensures in_range { FitsDataFC result }
        ensures state { self.new ≡ spec.after_answer self.old }
    {
        self.due.ack = false;
        self.incoming.acknowledge()
    }

    /// The InitFC of a class.
    fn send_init(&mut self, class: Class) -> LinkDllp
        ensures answer { result ≡ spec.init_dllp self.old class }
        ensures in_range { HasFields result }
        ensures state { self.new ≡ spec.after_init_sent self.old class }
    {
        let stage = match self.state {
            LinkState::Inactive | LinkState::Init1 => InitStage::First,
            LinkState::Init2 | LinkState::Active => InitStage::Second,
        };
        self.due.init.set(class, false);
        LinkDllp::Init(stage, class, FirstCredits::of(self.ours, class))
    }

    /// The UpdateFC of a class.
    fn send_update(&mut self, class: Class) -> Dllp
        ensures answer { result ≡ spec.update_dllp self.old class }
        ensures in_range { FitsDataFC result }
        ensures state { self.new ≡ spec.after_update_sent self.old class }
    {
        self.due.update.set(class, false);
        self.incoming.update(class)
    }

    /// The next packet.
    fn send_packet(&mut self, out: &mut ArrayVec<u8, PACKET_BYTES>) -> Outgoing
        ensures answer { result ≡ spec.packet_outgoing self.old }
        ensures bytes { out.new.items ≡ spec.packet_bytes self.old }
        ensures state { self.new ≡ spec.after_packet_sent self.old }
    {
        let sent = self.sender.transmit(out);
        let place = self.sender.sending().sent();
        if self.given <= place {
            self.given = place;
        }
        match sent {
            Some(number) => Outgoing::Packet(number),
            None => Outgoing::Nothing,
        }
    }

    /// Fills `out` with what is sent next, if anything is, in this order: the Nak that is due, the Ack,
    /// InitFCs, UpdateFCs (each posted, non-posted, completion), and a packet from the replay buffer. Before the link is
    /// initialized there are InitFCs alone, and a Nak in FC_INIT2.
    pub fn next(&mut self, out: &mut ArrayVec<u8, PACKET_BYTES>) -> Outgoing
        ensures answer { result ≡ spec.outgoing_of self.old }
        ensures bytes { out.new.items ≡ spec.outgoing_bytes self.old }
        ensures state { self.new ≡ spec.after_next self.old }
    {
        out.clear();
        let dllp = match self.choice() {
            Choice::Nothing => return Outgoing::Nothing,
            Choice::Packet => return self.send_packet(out),
            Choice::Answer => LinkDllp::Other(self.send_answer()),
            Choice::Init(class) => self.send_init(class),
            Choice::Update(class) => LinkDllp::Other(self.send_update(class)),
        };
        let _fits = out.try_extend_from_slice(&encode(&dllp));
        Outgoing::Dllp(dllp)
    }

    /// A timer for InitFCs, or for Acks and UpdateFCs, expired. During initialization all InitFCs are due again, then an
    /// Ack and each finite UpdateFC.
    pub fn refresh(&mut self)
        ensures { self.new ≡ spec.refreshed self.old }
    {
        match self.state {
            LinkState::Inactive => {}
            LinkState::Init1 | LinkState::Init2 => self.due.init = ClassFlags::all(true),
            LinkState::Active => {
                self.due.ack = true;
                self.due.note_freed(self.ours, Class::Posted);
                self.due.note_freed(self.ours, Class::NonPosted);
                self.due.note_freed(self.ours, Class::Completion);
            }
        }
    }

    /// REPLAY_TIMER expired: the next packet to send is the oldest. Returns by how many packets that moved back. The fourth
    /// replay without progress stops the sender until the link is [`retrained`](Self::retrained).
    pub fn replay(&mut self) -> usize
        ensures moved { result ≡ self.old.sender.sending.place }
        ensures state { self.new ≡ spec.after_replay self.old }
    {
        self.sender.timer()
    }

    /// The link was retrained: the sender is no longer stopped. Returns whether it was.
    pub fn retrained(&mut self) -> bool
        ensures answer { result ≡ self.old.sender.sending.stopped }
        ensures state { self.new ≡ spec.after_retrained self.old }
    {
        self.sender.retrained()
    }
}
