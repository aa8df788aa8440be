//! The parts of a fabric, and the events by their ports and lanes.
ghost use Rattle.std.specs.Prelude.{◌≡◌, ◌↔◌, ◌<◌, ◌≤◌, ℕ, suc, length, Some, slice_get, IsTrue, IfOk, IfErr, OnOk, OnErr, Ok, Err, option_map};
ghost use Rattle.tlp_core.specs.Limits.{most_requesters};
ghost use Rattle.std.specs.Result.{result_ok};

use crate::config::Config;
use crate::events;
use fabric_steps::{EventRef, LaneName, LinkEvent, Refusal, SeenRef};
use flow_control::LaneCredits;
use lane_core::LaneEnds;
use requester_core::{Answer, Requester};
use seq_memory::{Keeper, Kept, Memory};
use std::marker::Model;
use switch_core::{Port, RouteFault};
use tlp_core::OpRef;

/// The parts of a fabric by name; in each list that of port 1 is the first.
#[derive(Drop)]
pub struct Parts<K: Keeper = Kept> {
    /// The credits that the lanes advertised when they were new, but that `down` lanes have infinite completion
    /// credits.
    pub credits: LaneCredits,
    pub memory: Memory<K>,
    pub requesters: Vec<Requester>,
    /// From the switch to the memory.
    pub inward: LaneEnds,
    /// From the memory to the switch.
    pub outward: LaneEnds,
    /// From each requester to the switch.
    pub up: Vec<LaneEnds>,
    /// From the switch to each requester.
    pub down: Vec<LaneEnds>,
}

impl<K: Keeper> Model for Parts<K> {
    ghost use Rattle.fabric_steps.specs.Fabric.{Fabric};

    ghost Value = { Fabric };

    ghost view = { λ p. record {
      credits = p.credits;
      memory = p.memory;
      requesters = p.requesters.items;
      inward = p.inward;
      outward = p.outward;
      up = p.up.items;
      down = p.down.items;
    } };
}

ghost use Rattle.requester_core.specs.RequesterView.{RequesterView};
ghost use Rattle.lane_core.specs.Steps.{LaneEndsView, IsShort};
ghost use Rattle.fabric_steps.specs.declared.event.EventOf.TheVariants as Event;
ghost use Rattle.fabric_steps.specs.declared.event.SeenOf.TheVariants as Seen;
ghost use Rattle.fabric_core.specs.Answers.{Refuses, link_grows, part_at, lane_at, link_at, submit_at, forward_at, serve_at, collect_at, SubmitFits, ForwardFits, ServeFits, Happens, Refused};
ghost use Rattle.fabric_core.specs.Steps.{IsNoPort, HasLanes};
ghost use Rattle.fabric_core.specs.Config.{config_of};
ghost use Rattle.fabric_core.specs.Quiet.{AreStill, IsStillFabric, AreShort, HaveTags};

/// The place of a port in lists of so many parts.
fn place_of(port: u8, count: usize) -> Result<usize, Refusal>
    ensures ok { IfOk result (λ place. (port ≡ suc place) × (place < count)) }
    ensures refused { IfErr result (λ r. (r ≡ Refusal.NoSuchPart) × IsNoPort port count) }
{
    if port == 0 || usize::from(port) > count {
        return Err(Refusal::NoSuchPart);
    }
    Ok(usize::from(port) - 1)
}

/// Whether each of these lanes is still.
fn are_still(lanes: &[LaneEnds]) -> bool
    ensures { IsTrue result ↔ AreStill lanes.now }
{
    for lane in lanes {
        if !lane.quiet() {
            return false;
        }
    }
    true
}

/// The wires of each of these lanes are short.
fn are_short(lanes: &[LaneEnds])
    ensures { (i : ℕ) (e : LaneEndsView) → slice_get lanes.now i ≡ Some e → IsShort e }
{
    for lane in lanes {
        lane.short();
    }
}

/// Each of these requesters has 256 tags.
fn have_tags(requesters: &[Requester])
    ensures { (i : ℕ) (q : RequesterView) → slice_get requesters.now i ≡ Some q → length q.open_tags ≡ 256 }
{
    for requester in requesters {
        let _port = requester.port();
    }
}

impl<K: Keeper> Parts<K> {
    /// What a fabric of these parts is made of, read off them.
    pub fn config(&self) -> Config
        requires { HasLanes self.now }
        ensures { result ≡ config_of self.now }
    {
        Config {
            requesters: self.requesters.len() as u8,
            base: self.memory.base(),
            size: self.memory.bytes().len(),
            credits: self.credits,
            block: self.memory.block(),
        }
    }

    /// The lane of that name, if there is one.
    pub(crate) fn lane(&self, name: LaneName) -> Option<&LaneEnds>
        ensures { option_map (λ lane. lane.now) result ≡ result_ok (lane_at self.now name) }
    {
        match name {
            LaneName::Up(port) => self.up.get(place_of(port, self.up.len()).ok()?),
            LaneName::Down(port) => self.down.get(place_of(port, self.down.len()).ok()?),
            LaneName::Inward => Some(&self.inward),
            LaneName::Outward => Some(&self.outward),
        }
    }

    /// Whether every lane is still.
    pub(crate) fn is_still(&self) -> bool
        ensures { IsTrue result ↔ IsStillFabric self.now }
    {
        if !self.inward.quiet() || !self.outward.quiet() {
            return false;
        }
        if !are_still(&self.up) {
            return false;
        }
        are_still(&self.down)
    }

    /// The wires of each lane are short.
    pub(crate) fn short(&self)
        ensures { AreShort self.now }
    {
        self.inward.short();
        self.outward.short();
        are_short(&self.up);
        are_short(&self.down);
    }

    /// Each requester has 256 tags.
    pub(crate) fn tags(&self)
        ensures { HaveTags self.now }
    {
        have_tags(&self.requesters);
    }

    /// A call of the link of a lane.
    fn link(&mut self, name: LaneName, event: LinkEvent) -> Result<SeenRef<'static>, Refusal>
        ensures answers { IfOk result (λ what. link_at self.old name event ≡ Ok (what, self.new)) }
        ensures refuses { IfErr result (λ r. Refuses (λ x. link_grows x.0) (link_at self.old name event) r) }
        ensures err { OnErr result (self.new ≡ self.old) }
    {
        match name {
            LaneName::Up(port) => {
                let place = place_of(port, self.up.len())?;
                events::link(&mut self.up[place], event)
            }
            LaneName::Down(port) => {
                let place = place_of(port, self.down.len())?;
                events::link(&mut self.down[place], event)
            }
            LaneName::Inward => events::link(&mut self.inward, event),
            LaneName::Outward => events::link(&mut self.outward, event),
        }
    }

    fn submit(&mut self, port: u8, op: &OpRef<'_>) -> Result<u32, Refusal>
        requires { length self.old.up ≡ length self.old.requesters }
        ensures answers { IfOk result (λ number. submit_at self.old port op.now ≡ Ok (Seen.Submitted number, self.new)) }
        ensures refuses { IfErr result (λ r. Refused self.old (Event.Submit port op.now) r) }
        ensures fits { OnOk result ((q : RequesterView) → part_at self.old.requesters port ≡ Ok q → SubmitFits q op.now) }
        ensures err { OnErr result (self.new ≡ self.old) }
    {
        let place = place_of(port, self.requesters.len())?;
        let requester = &mut self.requesters[place];
        let lane = &mut self.up[place];
        events::submit(requester, &mut lane.sender, op)
    }

    /// From the `up` lane of a port.
    fn forward_up(&mut self, port: u8, place: usize) -> Result<u8, Refusal>
        requires { length self.old.up ≤ most_requesters }
        ensures answers { IfOk result (λ to. forward_at self.old (LaneName.Up port) place ≡ Ok (Seen.To to, self.new)) }
        ensures refuses { IfErr result (λ r. Refused self.old (Event.Forward (LaneName.Up port) place) r) }
        ensures fits { OnOk result ((e : LaneEndsView) → lane_at self.old (LaneName.Up port) ≡ Ok e → ForwardFits e.receiver place) }
        ensures err { OnErr result (self.new ≡ self.old) }
    {
        let at = place_of(port, self.up.len())?;
        let lane = &mut self.up[at];
        let to = events::destination(&lane.receiver, place, Port::new(port))?;
        let inward = &mut self.inward;
        if let Err(refusal) = events::forward(&mut lane.receiver, place, &mut inward.sender) {
            return Err(refusal);
        }
        Ok(to.number())
    }

    /// From `out`.
    fn forward_out(&mut self, place: usize) -> Result<u8, Refusal>
        ensures answers { IfOk result (λ to. forward_at self.old LaneName.Outward place ≡ Ok (Seen.To to, self.new)) }
        ensures refuses { IfErr result (λ r. Refused self.old (Event.Forward LaneName.Outward place) r) }
        ensures fits { OnOk result (ForwardFits self.old.outward.receiver place) }
        ensures err { OnErr result (self.new ≡ self.old) }
    {
        let outward = &mut self.outward;
        let to = events::destination(&outward.receiver, place, Port::MEMORY)?;
        let Ok(at) = place_of(to.number(), self.down.len()) else {
            return Err(Refusal::Route(RouteFault::NoPort));
        };
        let lane = &mut self.down[at];
        if let Err(refusal) = events::forward(&mut outward.receiver, place, &mut lane.sender) {
            return Err(refusal);
        }
        Ok(to.number())
    }

    fn serve(&mut self, place: usize) -> Result<usize, Refusal>
        ensures answers { IfOk result (λ at. serve_at self.old place ≡ Ok (Seen.At at, self.new)) }
        ensures refuses { IfErr result (λ r. Refused self.old (Event.Serve place) r) }
        ensures fits { OnOk result (ServeFits self.old.inward.receiver place self.old.memory) }
        ensures err { OnErr result (self.new ≡ self.old) }
    {
        let inward = &mut self.inward;
        let outward = &mut self.outward;
        events::serve(
            &mut inward.receiver,
            place,
            &mut self.memory,
            &mut outward.sender,
        )
    }

    fn collect(&mut self, port: u8) -> Result<Answer, Refusal>
        requires { length self.old.down ≡ length self.old.requesters }
        ensures answers { IfOk result (λ a. collect_at self.old port ≡ Ok (Seen.Collected a, self.new)) }
        ensures refuses { IfErr result (λ r. collect_at self.old port ≡ Err r) }
        ensures err { OnErr result (self.new ≡ self.old) }
    {
        let place = place_of(port, self.requesters.len())?;
        let requester = &mut self.requesters[place];
        let lane = &mut self.down[place];
        events::collect(&mut lane.receiver, requester)
    }

    /// The oldest completion's answer is put into the room.
    fn collect_into<'a>(&mut self, port: u8, room: &'a mut Answer) -> Result<SeenRef<'a>, Refusal>
        requires { length self.old.down ≡ length self.old.requesters }
        ensures answers { IfOk result (λ what. collect_at self.old port ≡ Ok (what, self.new)) }
        ensures refuses { IfErr result (λ r. collect_at self.old port ≡ Err r) }
        ensures err { OnErr result (self.new ≡ self.old) }
    {
        *room = self.collect(port)?;
        Ok(SeenRef::Collected(room.lend()))
    }

    fn forward(&mut self, name: LaneName, place: usize) -> Result<u8, Refusal>
        requires { length self.old.up ≤ most_requesters }
        ensures answers { IfOk result (λ to. forward_at self.old name place ≡ Ok (Seen.To to, self.new)) }
        ensures refuses { IfErr result (λ r. Refused self.old (Event.Forward name place) r) }
        ensures fits { OnOk result ((e : LaneEndsView) → lane_at self.old name ≡ Ok e → ForwardFits e.receiver place) }
        ensures err { OnErr result (self.new ≡ self.old) }
    {
        match name {
            LaneName::Up(port) => self.forward_up(port, place),
            LaneName::Outward => self.forward_out(place),
            LaneName::Inward | LaneName::Down(_) => Err(Refusal::NoSuchPart),
        }
    }

    /// An event, and what is seen of it. An answer is put into the room. After a refusal all is as it was.
    pub(crate) fn step<'a>(
        &mut self,
        event: &EventRef<'_>,
        room: &'a mut Answer,
    ) -> Result<SeenRef<'a>, Refusal>
        requires { HasLanes self.old }
        ensures ok { IfOk result (λ what. Happens self.old event.now what self.new) }
        ensures refused { IfErr result (λ r. Refused self.old event.now r) }
        ensures err { OnErr result (self.new ≡ self.old) }
    {
        match event {
            EventRef::Submit(port, op) => Ok(SeenRef::Submitted(self.submit(*port, op)?)),
            EventRef::Transmit(lane) => self.link(*lane, LinkEvent::Transmit),
            EventRef::Deliver(lane, fate) => self.link(*lane, LinkEvent::Deliver(*fate)),
            EventRef::SendDllp(lane, kind) => self.link(*lane, LinkEvent::SendDllp(*kind)),
            EventRef::DeliverDllp(lane, fate) => self.link(*lane, LinkEvent::DeliverDllp(*fate)),
            EventRef::Timer(lane) => self.link(*lane, LinkEvent::Timer),
            EventRef::Retrained(lane) => self.link(*lane, LinkEvent::Retrained),
            EventRef::Forward(lane, place) => Ok(SeenRef::To(self.forward(*lane, *place)?)),
            EventRef::Serve(place) => Ok(SeenRef::At(self.serve(*place)?)),
            EventRef::Collect(port) => self.collect_into(*port, room),
        }
    }
}
