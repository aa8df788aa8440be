//! What is on a lane, as far as its events tell.
ghost use Rattle.std.specs.Prelude.{◌≡◌, drop, remove, slice_get, IfOk, OnOk};

use crate::limits::{Limit, Limits, is_known, limit_of, with_limit};
use chart_rows::{Carried, DllpSent, PacketSent, Replay};
use dllp_core::Dllp;
use lane_core::DllpSeen;
use seq12::Seq12;
use std::alloc::{AllocError, Global};
use std::collections::VecDeque;
use std::marker::Model;

/// The greatest value of REPLAY_NUM.
const LAST_REPLAY: u8 = 3;

/// A lane.
#[derive(Drop)]
pub(crate) struct Course {
    acked: Seq12,
    kept: VecDeque<Option<Carried>>,
    place: usize,
    replays: u8,
    wire: VecDeque<PacketSent>,
    back: VecDeque<DllpSent>,
    queue: VecDeque<Option<Carried>>,
    has_taken: bool,
    limits: Limits,
}

impl Model for Course {
    ghost use Rattle.std.specs.Prelude.{◌≤◌};
    ghost use Rattle.chart_links.specs.CourseView.{CourseView};

    ghost Value = { CourseView };

    ghost view = { λ c. record {
      acked = c.acked;
      kept = c.kept.items;
      place = c.place;
      replays = c.replays;
      wire = c.wire.items;
      back = c.back.items;
      queue = c.queue.items;
      has_taken = c.has_taken;
      limits = c.limits;
    } };

    ghost invariant = { λ c. c.replays ≤ 3 };
}

/// Drops the oldest.
fn drop_front(items: &mut VecDeque<Option<Carried>>, count: usize)
    ensures { items.new.items ≡ drop count items.old.items }
{
    for k in 0..count {
        let _ = items.pop_front();
    }
}

/// Takes the item at a place of a queue, and the others close up.
fn take_item(queue: &mut VecDeque<Option<Carried>>, place: usize) -> Option<Option<Carried>>
    ensures item { result ≡ slice_get queue.old.items place }
    ensures rest { queue.new.items ≡ remove queue.old.items place }
{
    queue.remove(place)
}

impl Course {
    ghost use Rattle.chart_links.specs.CourseView as spec;
    ghost use Rattle.chart_links.specs.News as news;

    /// A lane on which nothing has happened. It allocates nothing.
    pub(crate) fn new(alloc: Global) -> Course
        ensures { result ≡ spec.quiet }
    {
        Course {
            acked: Seq12::new(4095),
            kept: VecDeque::new(alloc),
            place: 0,
            replays: 0,
            wire: VecDeque::new(alloc),
            back: VecDeque::new(alloc),
            queue: VecDeque::new(alloc),
            has_taken: false,
            limits: Limits::NONE,
        }
    }

    /// The packets on the wire, oldest first.
    pub(crate) fn wire(&self) -> &VecDeque<PacketSent>
        ensures { result.now.items ≡ self.now.wire }
    {
        &self.wire
    }

    /// The DLLPs on the wire back, oldest first.
    pub(crate) fn back(&self) -> &VecDeque<DllpSent>
        ensures { result.now.items ≡ self.now.back }
    {
        &self.back
    }

    /// A packet enters the replay buffer.
    pub(crate) fn enter(&mut self, carried: Option<Carried>) -> Result<(), AllocError>
        ensures { OnOk result (self.new ≡ spec.entered carried self.old) }
    {
        self.kept.push_back(carried)?;
        Ok(())
    }

    /// What the packet carries that is sent next.
    fn next_carried(&self) -> Option<Carried>
        ensures { result ≡ spec.next_carried self.now }
    {
        match self.kept.get(self.place) {
            Some(carried) => *carried,
            None => None,
        }
    }

    /// The next packet goes onto the wire with that number, in a row that is perhaps shown. Gives what it carries.
    pub(crate) fn send(
        &mut self,
        number: Seq12,
        row: Option<u16>,
    ) -> Result<Option<Carried>, AllocError>
        ensures state { OnOk result (self.new ≡ spec.sent number row self.old) }
        ensures carried { IfOk result (λ c. c ≡ spec.next_carried self.old) }
    {
        let carried = self.next_carried();
        self.wire.push_back(PacketSent {
            number,
            carried,
            row,
        })?;
        if self.place < self.kept.len() {
            self.place += 1;
        }
        Ok(carried)
    }

    /// The oldest packet leaves the wire, and is accepted or not.
    pub(crate) fn arrive(&mut self, is_accepted: bool) -> Result<Option<PacketSent>, AllocError>
        ensures state { OnOk result (self.new ≡ spec.arrived is_accepted self.old) }
        ensures packet { IfOk result (λ packet. packet ≡ spec.oldest self.old) }
    {
        let Some(sent) = self.wire.pop_front() else {
            return Ok(None);
        };
        if is_accepted {
            self.queue.push_back(sent.carried)?;
        }
        Ok(Some(sent))
    }

    /// Takes the packet at this place of the queue. Gives what it carries.
    pub(crate) fn take(&mut self, place: usize) -> Option<Carried>
        ensures state { self.new ≡ spec.without place self.old }
        ensures carried { result ≡ spec.taken place self.old }
    {
        self.has_taken = true;
        match take_item(&mut self.queue, place) {
            Some(carried) => carried,
            None => None,
        }
    }

    /// A DLLP goes onto the wire back, in a row that is perhaps shown.
    pub(crate) fn send_dllp(&mut self, dllp: Dllp, row: Option<u16>) -> Result<(), AllocError>
        ensures { OnOk result (self.new ≡ spec.sent_back dllp row self.old) }
    {
        self.back.push_back(DllpSent { dllp, row })?;
        Ok(())
    }

    /// The oldest DLLP leaves the wire back.
    pub(crate) fn arrive_dllp(&mut self) -> Option<DllpSent>
        ensures state { self.new ≡ spec.without_back self.old }
        ensures dllp { result ≡ spec.oldest_back self.old }
    {
        self.back.pop_front()
    }

    /// The packets through this number are acknowledged.
    fn acknowledge(&mut self, number: Seq12)
        ensures { self.new ≡ spec.acknowledged number self.old }
    {
        let count = usize::from(number.distance(self.acked));
        drop_front(&mut self.kept, count);
        self.acked = number;
        self.place = self.place.saturating_sub(count);
        if count > 0 {
            self.replays = 0;
        }
    }

    /// All that was sent and isn't acknowledged goes once more.
    pub(crate) fn replay(&mut self) -> Replay
        ensures state { self.new ≡ spec.replayed self.old }
        ensures replay { result ≡ spec.replay_of self.old }
    {
        let places = self.place;
        self.place = 0;
        if places == 0 {
            return Replay::Nothing;
        }
        if self.replays == LAST_REPLAY {
            self.replays = 0;
            return Replay::Stopped(places as u64);
        }
        self.replays += 1;
        Replay::Again(places as u64)
    }

    /// What a DLLP does to the sender.
    fn take_dllp(&mut self, dllp: Dllp) -> Replay
        ensures state { self.new ≡ spec.after_dllp dllp self.old }
        ensures replay { result ≡ spec.dllp_replay dllp self.old }
    {
        match dllp {
            Dllp::Ack(number) => {
                self.acknowledge(number);
                Replay::Nothing
            }
            Dllp::Nak(number) => {
                self.acknowledge(number);
                self.replay()
            }
            Dllp::Update(class, headers, units) => {
                let limit = Limit { headers, units };
                self.limits = with_limit(self.limits, class, limit);
                Replay::Nothing
            }
        }
    }

    /// What became of a DLLP, and what the sender does then.
    pub(crate) fn told(&mut self, seen: DllpSeen) -> Replay
        ensures state { self.new ≡ spec.told seen self.old }
        ensures replay { result ≡ spec.told_replay seen self.old }
    {
        match seen {
            DllpSeen::Took(dllp) => self.take_dllp(dllp),
            DllpSeen::Gone => Replay::Nothing,
        }
    }

    /// Whether a DLLP tells the sender nothing new.
    pub(crate) fn is_old(&self, dllp: Dllp) -> bool
        ensures { result ≡ news.is_old dllp self.now }
    {
        match dllp {
            Dllp::Ack(number) => number == self.acked,
            Dllp::Nak(_) => false,
            Dllp::Update(class, headers, units) => {
                let limit = Limit { headers, units };
                is_known(limit_of(self.limits, class), self.has_taken, limit)
            }
        }
    }

    /// Whether the sending of the oldest DLLP is shown.
    fn is_begun(&self) -> bool
        ensures { result ≡ news.is_begun (spec.oldest_back self.now) }
    {
        match self.back.get(0) {
            Some(sent) => sent.row.is_some(),
            None => false,
        }
    }

    /// Whether the oldest DLLP, which arrives, tells the sender nothing new, and isn't shown where it was sent.
    pub(crate) fn is_old_arrival(&self, dllp: Dllp) -> bool
        ensures { result ≡ news.is_old_arrival dllp self.now }
    {
        !self.is_begun() && self.is_old(dllp)
    }
}
