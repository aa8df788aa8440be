//! The sender: numbers, replay buffer, sending place and replay counter.
ghost use Rattle.std.specs.Prelude.{◌≡◌, false, ◌+◌, ◌-◌, ◌<◌, ◌≤◌, ◌↔◌, [], length, drop, is_some, IsTrue, IsOk, IfOk, OnOk, OnErr};
ghost use Rattle.std.specs.VecDeque.{deque_len, deque_capacity};
ghost use Rattle.std.specs.Option.{option_map};

use crate::cargo::Cargo;
use crate::fault::{AckFault, SendRefusal};
use seq12::Seq12;
use std::alloc::Global;
use std::collections::VecDeque;
use std::marker::Model;

/// The most packets that may be unacknowledged: half the sequence numbers, less one.
pub const WINDOW: usize = 2047;

/// The greatest value of REPLAY_NUM, a counter of 2 bits.
const LAST_REPLAY: u8 = 3;

/// The transmitter's side of a link: packets that aren't acknowledged, and which of them is sent next.
#[derive(Drop)]
pub struct Sender {
    acked: Seq12,
    kept: VecDeque<Cargo>,
    place: usize,
    replays: u8,
    stopped: bool,
    // while it is set, `kept` has room for one more
    reserved: bool,
}

impl Model for Sender {
    ghost use Rattle.std.specs.Prelude.{◌≡◌, ◌<◌, ◌≤◌, length, true};
    ghost use Rattle.std.specs.VecDeque.{deque_len, deque_capacity};
    ghost use Rattle.link_replay.specs.SenderView.{SenderView};

    ghost Value = { SenderView };

    ghost view = { λ s. record { acked = s.acked; kept = s.kept.items; place = s.place; replays = s.replays; stopped = s.stopped; reserved = s.reserved } };

    ghost invariant = { λ s. (length s.kept.items ≤ 2047) × (s.place ≤ length s.kept.items) × (s.replays ≤ 3)
        × (s.reserved ≡ true → deque_len s.kept < deque_capacity s.kept) };
}

/// Drops the oldest packets.
fn drop_front(items: &mut VecDeque<Cargo>, count: usize)
    requires { count ≤ length items.old.items }
    ensures items { items.new.items ≡ drop count items.old.items }
    ensures capacity { deque_capacity items.new ≡ deque_capacity items.old }
{
    for k in 0..count {
        let _ = items.pop_front();
    }
}

impl Sender {
    ghost use Rattle.link_replay.specs.SenderView.{fresh, next_number, with_accepted, with_reserved, released, next_item, sent_from, after_transmit, ack_answer, after_ack, after_nak, from_oldest, trained};

    /// NEXT_TRANSMIT_SEQ is 000h, ACKD_SEQ is FFFh. It allocates nothing.
    pub fn new(alloc: Global) -> Sender
        ensures { result ≡ fresh }
    {
        Sender {
            acked: Seq12::new(4095),
            kept: VecDeque::new(alloc),
            place: 0,
            replays: 0,
            stopped: false,
            reserved: false,
        }
    }

    /// ACKD_SEQ, the number that was acknowledged last.
    pub fn ackd_seq(&self) -> Seq12
        ensures { result ≡ self.now.acked }
    {
        self.acked
    }

    /// NEXT_TRANSMIT_SEQ, the number of the packet that is accepted next.
    pub fn next_transmit_seq(&self) -> Seq12
        ensures { result ≡ next_number self.now }
    {
        self.acked.plus(self.kept.len() as u16 + 1)
    }

    /// How many packets are unacknowledged, 0 to 2047.
    pub fn len(&self) -> usize
        ensures value { result ≡ length self.now.kept }
        ensures in_window { result ≤ 2047 }
    {
        self.kept.len()
    }

    pub fn is_empty(&self) -> bool
        ensures { IsTrue result ↔ (self.now.kept ≡ []) }
    {
        self.kept.is_empty()
    }

    /// How many of the unacknowledged packets were sent since the last replay, 0 to 2047.
    pub fn sent(&self) -> usize
        ensures value { result ≡ self.now.place }
        ensures in_window { result ≤ length self.now.kept }
    {
        self.place
    }

    /// Whether the sender takes no packet until an Ack comes.
    pub fn is_full(&self) -> bool
        ensures { IsTrue result ↔ (2047 ≤ length self.now.kept) }
    {
        self.len() >= WINDOW
    }

    /// Keeps room for one packet: after Ok, the next `accept` takes no memory.
    pub fn reserve(&mut self) -> Result<(), SendRefusal>
        ensures full { (result ≡ Err SendRefusal.WindowFull) ↔ (2047 ≤ length self.old.kept) }
        ensures was_reserved { IsTrue self.old.reserved → length self.old.kept < 2047 → IsOk result }
        ensures ok { OnOk result (self.new ≡ with_reserved self.old) }
        ensures err { OnErr result (self.new ≡ self.old) }
    {
        if self.is_full() {
            return Err(SendRefusal::WindowFull);
        }
        if self.kept.reserve(1).is_err() {
            return Err(SendRefusal::Memory);
        }
        self.reserved = true;
        Ok(())
    }

    /// Whether room is kept for one packet.
    pub fn has_room(&self) -> bool
        ensures { result ≡ self.now.reserved }
    {
        self.reserved
    }

    /// Room is no longer kept for a packet. It frees no memory.
    pub fn release(&mut self)
        ensures { self.new ≡ released self.old }
    {
        self.reserved = false;
    }

    /// Takes a packet as the last, under NEXT_TRANSMIT_SEQ.
    #[inline(always)]
    pub fn accept(&mut self, cargo: Cargo) -> Result<Seq12, SendRefusal>
        ensures full { (result ≡ Err SendRefusal.WindowFull) ↔ (2047 ≤ length self.old.kept) }
        ensures was_reserved { IsTrue self.old.reserved → length self.old.kept < 2047 → IsOk result }
        ensures number { IfOk result (λ number. number ≡ next_number self.old) }
        ensures ok { OnOk result (self.new ≡ with_accepted self.old cargo) }
        ensures err { OnErr result (self.new ≡ self.old) }
    {
        if self.is_full() {
            return Err(SendRefusal::WindowFull);
        }
        let number = self.next_transmit_seq();
        if self.kept.push_back(cargo).is_err() {
            return Err(SendRefusal::Memory);
        }
        self.reserved = false;
        Ok(number)
    }

    /// Whether the next `transmit` gives a packet.
    pub fn can_transmit(&self) -> bool
        ensures { result ≡ is_some (next_item self.now) }
    {
        !self.stopped && self.place < self.kept.len()
    }

    /// The packet at the place, under its number. None where all were sent, and while the sender is stopped.
    pub fn next_packet(&self) -> Option<(Seq12, &Cargo)>
        ensures packet { option_map (λ sent. (sent.0, sent.1.now)) result ≡ sent_from self.now }
        ensures some { is_some result ≡ is_some (next_item self.now) }
    {
        if !self.can_transmit() {
            return None;
        }
        let number = self.acked.plus(self.place as u16 + 1);
        Some((number, &self.kept[self.place]))
    }

    /// The place moves on: the packet that [`next_packet`](Self::next_packet) gives was sent.
    pub fn advance(&mut self)
        requires { IsTrue (is_some (next_item self.old)) }
        ensures { self.new ≡ after_transmit self.old }
    {
        self.place += 1;
    }

    /// A copy of the packet at the place, under its number, and the place moves on. None where all were sent, and
    /// while the sender is stopped. It takes no memory.
    pub fn transmit(&mut self) -> Option<(Seq12, Cargo)>
        ensures packet { result ≡ sent_from self.old }
        ensures state { self.new ≡ after_transmit self.old }
    {
        let Some((number, cargo)) = self.next_packet() else {
            return None;
        };
        let cargo = cargo.copied();
        self.advance();
        Some((number, cargo))
    }

    /// An Ack: all packets through its number are dropped. Gives how many; takes time in their number, and no memory.
    pub fn ack(&mut self, number: Seq12) -> Result<usize, AckFault>
        ensures answer { result ≡ ack_answer self.old number }
        ensures state { self.new ≡ after_ack self.old number }
    {
        let count = usize::from(number.distance(self.acked));
        if count > self.kept.len() {
            return Err(AckFault::NotOutstanding);
        }
        drop_front(&mut self.kept, count);
        self.acked = number;
        self.place = self.place.saturating_sub(count);
        if count > 0 {
            self.replays = 0;
        }
        Ok(count)
    }

    /// A Nak: an Ack, and a replay of all packets that are left.
    pub fn nak(&mut self, number: Seq12) -> Result<usize, AckFault>
        ensures answer { result ≡ ack_answer self.old number }
        ensures state { self.new ≡ after_nak self.old number }
    {
        let count = self.ack(number)?;
        self.timer();
        Ok(count)
    }

    /// The replay timer expired: the place moves back to the oldest packet. Gives by how many places; a move by at
    /// least one is a replay, and the fourth replay with no packet acknowledged between them stops the sender.
    pub fn timer(&mut self) -> usize
        ensures moved { result ≡ self.old.place }
        ensures state { self.new ≡ from_oldest self.old }
    {
        let moved = self.place;
        if moved > 0 {
            if self.replays == LAST_REPLAY {
                self.replays = 0;
                self.stopped = true;
            } else {
                self.replays += 1;
            }
        }
        self.place = 0;
        moved
    }

    /// Whether the sender waits for the link to be retrained, and transmits nothing.
    pub fn stopped(&self) -> bool
        ensures { result ≡ self.now.stopped }
    {
        self.stopped
    }

    /// The link was retrained: the sender is no longer stopped. Answers whether it was.
    pub fn retrained(&mut self) -> bool
        ensures answer { result ≡ self.old.stopped }
        ensures state { self.new ≡ trained self.old }
    {
        let was_stopped = self.stopped;
        self.stopped = false;
        was_stopped
    }
}
