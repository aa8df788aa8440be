//! What may happen next: events that are drawn, whether or not the fabric takes them.
ghost use Rattle.std.specs.Prelude.{◌≡◌, ◌≤◌, ◌<◌};
ghost use Rattle.tlp_core.specs.Limits.{most_requesters};
ghost use Rattle.script_text.specs.Spelled.{IsSpelledLane};
ghost use Rattle.generate_engine.specs.Arrivals.{ArrivalsView};
ghost use Rattle.generate_engine.specs.Candidates.{IsSpelledCandidate, HasCandidateFate, with_operation};

use crate::arrivals::Arrivals;
use crate::draws::Draws;
use dllp_core::Class;
use fabric_core::{EventOf, EventRef, LaneName};
use lane_core::DllpKind;
use script_text::laws::an_operation_in_range_is_spelled;
use tlp_core::Op;

/// What may happen next. The operation of a submission is still to be drawn, so that a candidate is small: most are
/// refused.
pub(crate) type Candidate = EventOf<()>;

/// The event of a candidate, which lends the operation if it submits one.
#[inline(always)]
pub(crate) fn with_operation<'a>(candidate: &Candidate, operation: &'a Op) -> EventRef<'a>
    ensures { result ≡ with_operation operation.now candidate.now }
{
    match candidate {
        Candidate::Submit(port, ()) => EventRef::Submit(*port, operation.lend()),
        Candidate::Transmit(lane) => EventRef::Transmit(*lane),
        Candidate::Deliver(lane, fate) => EventRef::Deliver(*lane, *fate),
        Candidate::SendDllp(lane, kind) => EventRef::SendDllp(*lane, *kind),
        Candidate::DeliverDllp(lane, fate) => EventRef::DeliverDllp(*lane, *fate),
        Candidate::Timer(lane) => EventRef::Timer(*lane),
        Candidate::Retrained(lane) => EventRef::Retrained(*lane),
        Candidate::Forward(lane, place) => EventRef::Forward(*lane, *place),
        Candidate::Serve(place) => EventRef::Serve(*place),
        Candidate::Collect(port) => EventRef::Collect(*port),
    }
}

/// The port of one of so many requesters.
fn port(draws: &mut Draws, requesters: u8) -> u8
    requires { (1 ≤ requesters) × (requesters ≤ most_requesters) }
    ensures { (1 ≤ result) × (result ≤ most_requesters) }
{
    draws.below(u32::from(requesters)) as u8 + 1
}

/// A lane: those of the memory as often as all of the requesters' of one direction.
fn lane(draws: &mut Draws, requesters: u8) -> LaneName
    requires { (1 ≤ requesters) × (requesters ≤ most_requesters) }
    ensures { IsSpelledLane result }
{
    match draws.below(4) {
        0 => LaneName::Up(port(draws, requesters)),
        1 => LaneName::Down(port(draws, requesters)),
        2 => LaneName::Inward,
        _ => LaneName::Outward,
    }
}

/// A place in a queue: the first as often as all together.
fn place(draws: &mut Draws) -> usize
    ensures { result < 48 }
{
    if draws.chance(2) {
        return 0;
    }
    let most = draws.below(48) + 1;
    draws.below(most) as usize
}

/// A DLLP of a lane: an Ack as often as all updates together, and updates mostly of its packets' classes.
fn kind(draws: &mut Draws, lane: LaneName) -> DllpKind {
    if draws.chance(2) {
        return DllpKind::Answer;
    }
    if draws.chance(4) {
        return DllpKind::Update(Class::Posted);
    }
    match lane {
        LaneName::Up(_) | LaneName::Inward => DllpKind::Update(Class::NonPosted),
        LaneName::Down(_) | LaneName::Outward => DllpKind::Update(Class::Completion),
    }
}

fn forward(draws: &mut Draws, requesters: u8) -> Candidate
    requires { (1 ≤ requesters) × (requesters ≤ most_requesters) }
    ensures spelled { IsSpelledCandidate result }
    ensures fate { (a : ArrivalsView) → HasCandidateFate a result }
{
    let lane = if draws.chance(2) {
        LaneName::Outward
    } else {
        LaneName::Up(port(draws, requesters))
    };
    Candidate::Forward(lane, place(draws))
}

fn dllp(draws: &mut Draws, requesters: u8) -> Candidate
    requires { (1 ≤ requesters) × (requesters ≤ most_requesters) }
    ensures spelled { IsSpelledCandidate result }
    ensures fate { (a : ArrivalsView) → HasCandidateFate a result }
{
    let lane = lane(draws, requesters);
    Candidate::SendDllp(lane, kind(draws, lane))
}

/// A replay timer expires, which is seldom, or a link is retrained.
fn repair(draws: &mut Draws, requesters: u8) -> Candidate
    requires { (1 ≤ requesters) × (requesters ≤ most_requesters) }
    ensures spelled { IsSpelledCandidate result }
    ensures fate { (a : ArrivalsView) → HasCandidateFate a result }
{
    let lane = lane(draws, requesters);
    if draws.chance(8) {
        Candidate::Timer(lane)
    } else {
        Candidate::Retrained(lane)
    }
}

/// A candidate that isn't an arrival: the plan of faults says nothing of it.
fn plain(draws: &mut Draws, requesters: u8) -> Candidate
    requires { (1 ≤ requesters) × (requesters ≤ most_requesters) }
    ensures spelled { IsSpelledCandidate result }
    ensures fate { (a : ArrivalsView) → HasCandidateFate a result }
{
    an_operation_in_range_is_spelled();
    match draws.below(40) {
        0..=5 => Candidate::Submit(port(draws, requesters), ()),
        6..=14 => Candidate::Transmit(lane(draws, requesters)),
        15..=20 => dllp(draws, requesters),
        21..=29 => forward(draws, requesters),
        30..=34 => Candidate::Serve(place(draws)),
        35..=38 => Candidate::Collect(port(draws, requesters)),
        _ => repair(draws, requesters),
    }
}

/// What may happen next.
pub(crate) fn candidate(draws: &mut Draws, requesters: u8, arrivals: &Arrivals) -> Candidate
    requires { (1 ≤ requesters) × (requesters ≤ most_requesters) }
    ensures spelled { IsSpelledCandidate result }
    ensures fate { HasCandidateFate arrivals.now result }
{
    match draws.below(5) {
        0 => {
            let lane = lane(draws, requesters);
            Candidate::Deliver(lane, arrivals.packet_fate(lane))
        }
        1 => {
            let lane = lane(draws, requesters);
            Candidate::DeliverDllp(lane, arrivals.dllp_fate(lane))
        }
        _ => plain(draws, requesters),
    }
}
