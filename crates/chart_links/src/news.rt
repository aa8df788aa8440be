//! What tells nothing new.
ghost use Rattle.std.specs.Prelude.{◌≡◌, false};
ghost use Rattle.chart_links.specs.Lanes.{asked};
ghost use Rattle.chart_links.specs.News as spec;

use crate::course::Course;
use crate::lanes::place_of;
use dllp_core::Dllp;
use fabric_core::{Event, LaneName, Seen};
use lane_core::DllpSeen;

/// Whether a DLLP that is sent on a lane tells nothing new.
fn is_old(courses: &Vec<Course>, lane: LaneName, dllp: Dllp) -> bool
    ensures { result ≡ asked (spec.is_old dllp) false courses.now.items lane }
{
    match courses.get(place_of(lane)) {
        Some(course) => course.is_old(dllp),
        None => false,
    }
}

/// Whether a DLLP that arrives on a lane tells nothing new.
fn is_old_arrival(courses: &Vec<Course>, lane: LaneName, dllp: Dllp) -> bool
    ensures { result ≡ asked (spec.is_old_arrival dllp) false courses.now.items lane }
{
    match courses.get(place_of(lane)) {
        Some(course) => course.is_old_arrival(dllp),
        None => false,
    }
}

/// Whether the sending of a DLLP tells nothing new.
fn is_old_sending(courses: &Vec<Course>, lane: LaneName, seen: &Seen) -> bool
    ensures { result ≡ spec.is_old_sending courses.now.items lane seen.now }
{
    let Seen::SentDllp(dllp) = seen else {
        return false;
    };
    is_old(courses, lane, *dllp)
}

/// Whether what became of a DLLP tells nothing new.
fn is_old_end(courses: &Vec<Course>, lane: LaneName, what: DllpSeen) -> bool
    ensures { result ≡ spec.is_old_end courses.now.items lane what }
{
    match what {
        DllpSeen::Took(dllp) => is_old_arrival(courses, lane, dllp),
        DllpSeen::Gone => false,
    }
}

/// Whether the delivery of a DLLP tells nothing new.
fn is_old_delivery(courses: &Vec<Course>, lane: LaneName, seen: &Seen) -> bool
    ensures { result ≡ spec.is_old_delivery courses.now.items lane seen.now }
{
    let Seen::SeenDllp(what) = seen else {
        return false;
    };
    is_old_end(courses, lane, *what)
}

/// Whether an event tells nothing new.
pub(crate) fn tells_nothing(courses: &Vec<Course>, event: &Event, seen: &Seen) -> bool
    ensures { result ≡ spec.tells_nothing courses.now.items event.now seen.now }
{
    match event {
        Event::SendDllp(lane, _) => is_old_sending(courses, *lane, seen),
        Event::DeliverDllp(lane, _) => is_old_delivery(courses, *lane, seen),
        _ => false,
    }
}
