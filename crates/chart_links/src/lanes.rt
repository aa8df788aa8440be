//! What each event does on the lanes, and what is drawn of it.
ghost use Rattle.std.specs.Prelude.{◌≡◌, None, OnOk, IfOk};
ghost use Rattle.chart_rows.specs.declared.row.Replay.TheVariants as replays;
ghost use Rattle.chart_links.specs.CourseView as course;
ghost use Rattle.chart_links.specs.Lanes as spec;

use crate::course::Course;
use chart_rows::{Carried, Deed, DllpSent, Kind, PacketSent, Replay, kind_of};
use dllp_core::Dllp;
use fabric_core::{Event, LaneName, Seen};
use lane_core::{Arrival, DllpSeen, Fate};
use link_replay::Reception;
use seq12::Seq12;
use std::alloc::AllocError;
use tlp_core::Op;

/// The place of a lane in the list of all.
pub(crate) fn place_of(lane: LaneName) -> usize
    ensures { result ≡ spec.place_of lane }
{
    match lane {
        LaneName::Inward => 0,
        LaneName::Up(port) => usize::from(port % 8),
        LaneName::Outward => 8,
        LaneName::Down(port) => 8 + usize::from(port % 8),
    }
}

/// The lane at a place of the list.
pub(crate) fn lane_at(place: usize) -> LaneName
    ensures { result ≡ spec.lane_at place }
{
    if place == 0 {
        LaneName::Inward
    } else if place < 8 {
        LaneName::Up(place as u8)
    } else if place == 8 {
        LaneName::Outward
    } else {
        LaneName::Down((place % 8) as u8)
    }
}

/// A packet enters the replay buffer of a lane.
fn enter_on(
    courses: &mut Vec<Course>,
    lane: LaneName,
    carried: Option<Carried>,
) -> Result<(), AllocError>
    ensures { OnOk result (courses.new.items ≡ spec.changed (course.entered carried) courses.old.items lane) }
{
    match courses.get_mut(place_of(lane)) {
        Some(course) => course.enter(carried),
        None => Ok(()),
    }
}

/// The next packet of a lane goes onto its wire.
fn send_on(
    courses: &mut Vec<Course>,
    lane: LaneName,
    number: Seq12,
    row: Option<u16>,
) -> Result<Option<Carried>, AllocError>
    ensures courses { OnOk result (courses.new.items ≡ spec.changed (course.sent number row) courses.old.items lane) }
    ensures carried { IfOk result (λ c. c ≡ spec.asked course.next_carried None courses.old.items lane) }
{
    match courses.get_mut(place_of(lane)) {
        Some(course) => course.send(number, row),
        None => Ok(None),
    }
}

/// The oldest packet leaves the wire of a lane.
fn arrive_on(
    courses: &mut Vec<Course>,
    lane: LaneName,
    is_accepted: bool,
) -> Result<Option<PacketSent>, AllocError>
    ensures courses { OnOk result (courses.new.items ≡ spec.changed (course.arrived is_accepted) courses.old.items lane) }
    ensures packet { IfOk result (λ packet. packet ≡ spec.asked course.oldest None courses.old.items lane) }
{
    match courses.get_mut(place_of(lane)) {
        Some(course) => course.arrive(is_accepted),
        None => Ok(None),
    }
}

/// Takes the packet at this place of a lane's queue.
fn take_on(courses: &mut Vec<Course>, lane: LaneName, place: usize) -> Option<Carried>
    ensures courses { courses.new.items ≡ spec.changed (course.without place) courses.old.items lane }
    ensures carried { result ≡ spec.asked (course.taken place) None courses.old.items lane }
{
    match courses.get_mut(place_of(lane)) {
        Some(course) => course.take(place),
        None => None,
    }
}

/// A DLLP goes onto the wire back of a lane.
fn send_dllp_on(
    courses: &mut Vec<Course>,
    lane: LaneName,
    dllp: Dllp,
    row: Option<u16>,
) -> Result<(), AllocError>
    ensures { OnOk result (courses.new.items ≡ spec.changed (course.sent_back dllp row) courses.old.items lane) }
{
    match courses.get_mut(place_of(lane)) {
        Some(course) => course.send_dllp(dllp, row),
        None => Ok(()),
    }
}

/// The oldest DLLP leaves the wire back of a lane, and the sender does this.
fn told_on(courses: &mut Vec<Course>, lane: LaneName, seen: DllpSeen) -> (Option<DllpSent>, Replay)
    ensures courses { courses.new.items ≡ spec.changed (λ c. course.told seen (course.without_back c)) courses.old.items lane }
    ensures dllp { result.0 ≡ spec.asked course.oldest_back None courses.old.items lane }
    ensures replay { result.1 ≡ spec.asked (λ c. course.told_replay seen (course.without_back c)) replays.Nothing courses.old.items lane }
{
    match courses.get_mut(place_of(lane)) {
        Some(course) => {
            let sent = course.arrive_dllp();
            let replay = course.told(seen);
            (sent, replay)
        }
        None => (None, Replay::Nothing),
    }
}

/// All that a lane's sender has sent and that isn't acknowledged goes once more.
fn replay_on(courses: &mut Vec<Course>, lane: LaneName) -> Replay
    ensures courses { courses.new.items ≡ spec.changed course.replayed courses.old.items lane }
    ensures replay { result ≡ spec.asked course.replay_of replays.Nothing courses.old.items lane }
{
    match courses.get_mut(place_of(lane)) {
        Some(course) => course.replay(),
        None => Replay::Nothing,
    }
}

fn submitted(courses: &mut Vec<Course>, port: u8, op: &Op, seen: &Seen) -> Result<Deed, AllocError>
    ensures { IfOk result (λ deed. spec.moved courses.new.items deed ≡ spec.submitted courses.old.items port op.now seen.now) }
{
    let Seen::Submitted(number) = seen else {
        return Ok(Deed::Nothing);
    };
    let carried = Carried {
        requester: port,
        number: *number,
        kind: kind_of(op),
        is_completion: false,
    };
    enter_on(courses, LaneName::Up(port), Some(carried))?;
    Ok(Deed::Submitted(port, carried))
}

fn transmitted(
    courses: &mut Vec<Course>,
    row: Option<u16>,
    lane: LaneName,
    seen: &Seen,
) -> Result<Deed, AllocError>
    ensures { IfOk result (λ deed. spec.moved courses.new.items deed ≡ spec.transmitted courses.old.items row lane seen.now) }
{
    let Seen::Sent(number) = seen else {
        return Ok(Deed::Nothing);
    };
    let carried = send_on(courses, lane, *number, row)?;
    Ok(Deed::Sent(lane, *number, carried))
}

fn is_accepted(arrival: Arrival) -> bool
    ensures { result ≡ spec.is_accepted arrival }
{
    match arrival {
        Arrival::Answered(Reception::Accept) => true,
        _ => false,
    }
}

fn delivered(
    courses: &mut Vec<Course>,
    lane: LaneName,
    fate: Fate,
    seen: &Seen,
) -> Result<Deed, AllocError>
    ensures { IfOk result (λ deed. spec.moved courses.new.items deed ≡ spec.delivered courses.old.items lane fate seen.now) }
{
    let Seen::Delivered(arrival) = seen else {
        return Ok(Deed::Nothing);
    };
    let sent = arrive_on(courses, lane, is_accepted(*arrival))?;
    Ok(Deed::Arrived(lane, fate, *arrival, sent))
}

fn dllp_sent(
    courses: &mut Vec<Course>,
    row: Option<u16>,
    lane: LaneName,
    seen: &Seen,
) -> Result<Deed, AllocError>
    ensures { IfOk result (λ deed. spec.moved courses.new.items deed ≡ spec.dllp_sent courses.old.items row lane seen.now) }
{
    let Seen::SentDllp(dllp) = seen else {
        return Ok(Deed::Nothing);
    };
    send_dllp_on(courses, lane, *dllp, row)?;
    Ok(Deed::SentDllp(lane, *dllp))
}

fn dllp_delivered(courses: &mut Vec<Course>, lane: LaneName, fate: Fate, seen: &Seen) -> Deed
    ensures { spec.moved courses.new.items result ≡ spec.dllp_delivered courses.old.items lane fate seen.now }
{
    let Seen::SeenDllp(what) = seen else {
        return Deed::Nothing;
    };
    let (sent, replay) = told_on(courses, lane, *what);
    Deed::ArrivedDllp(lane, fate, sent, replay)
}

fn expired(courses: &mut Vec<Course>, lane: LaneName) -> Deed
    ensures { spec.moved courses.new.items result ≡ spec.expired courses.old.items lane }
{
    let replay = replay_on(courses, lane);
    Deed::Expired(lane, replay)
}

/// Where the switch passes a packet on to.
fn lane_to(port: u8) -> LaneName
    ensures { result ≡ spec.lane_to port }
{
    if port == 0 {
        LaneName::Inward
    } else {
        LaneName::Down(port)
    }
}

fn forwarded(
    courses: &mut Vec<Course>,
    lane: LaneName,
    place: usize,
    seen: &Seen,
) -> Result<Deed, AllocError>
    ensures { IfOk result (λ deed. spec.moved courses.new.items deed ≡ spec.forwarded courses.old.items lane place seen.now) }
{
    let Seen::To(port) = seen else {
        return Ok(Deed::Nothing);
    };
    let carried = take_on(courses, lane, place);
    enter_on(courses, lane_to(*port), carried)?;
    Ok(Deed::Forwarded(carried))
}

/// The completion of a request, of which a posted one has none.
fn completion_of(carried: Option<Carried>) -> Option<Carried>
    ensures { result ≡ spec.completion_of carried }
{
    let request = carried?;
    match request.kind {
        Kind::Write => None,
        _ => Some(Carried {
            is_completion: true,
            ..request
        }),
    }
}

/// The completion enters the memory's lane, if there is one.
fn complete(courses: &mut Vec<Course>, completion: Option<Carried>) -> Result<(), AllocError>
    ensures { OnOk result (courses.new.items ≡ spec.with_completion courses.old.items completion) }
{
    match completion {
        None => Ok(()),
        Some(completion) => enter_on(courses, LaneName::Outward, Some(completion)),
    }
}

fn served(courses: &mut Vec<Course>, place: usize, seen: &Seen) -> Result<Deed, AllocError>
    ensures { IfOk result (λ deed. spec.moved courses.new.items deed ≡ spec.served courses.old.items place seen.now) }
{
    let Seen::At(index) = seen else {
        return Ok(Deed::Nothing);
    };
    let carried = take_on(courses, LaneName::Inward, place);
    complete(courses, completion_of(carried))?;
    Ok(Deed::Served(carried, *index))
}

fn collected(courses: &mut Vec<Course>, port: u8) -> Deed
    ensures { spec.moved courses.new.items result ≡ spec.collected courses.old.items port }
{
    let carried = take_on(courses, LaneName::Down(port), 0);
    Deed::Collected(port, carried)
}

/// Follows an event that happens, in a row that is perhaps shown. Gives what is drawn of it.
pub(crate) fn follow(
    courses: &mut Vec<Course>,
    row: Option<u16>,
    event: &Event,
    seen: &Seen,
) -> Result<Deed, AllocError>
    ensures { IfOk result (λ deed. spec.moved courses.new.items deed ≡ spec.followed courses.old.items row event.now seen.now) }
{
    match event {
        Event::Submit(port, op) => submitted(courses, *port, op, seen),
        Event::Transmit(lane) => transmitted(courses, row, *lane, seen),
        Event::Deliver(lane, fate) => delivered(courses, *lane, *fate, seen),
        Event::SendDllp(lane, _) => dllp_sent(courses, row, *lane, seen),
        Event::DeliverDllp(lane, fate) => Ok(dllp_delivered(courses, *lane, *fate, seen)),
        Event::Timer(lane) => Ok(expired(courses, *lane)),
        Event::Retrained(lane) => Ok(Deed::Retrained(*lane)),
        Event::Forward(lane, place) => forwarded(courses, *lane, *place, seen),
        Event::Serve(place) => served(courses, *place, seen),
        Event::Collect(port) => Ok(collected(courses, *port)),
    }
}
