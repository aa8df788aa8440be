//! What a round tries, in order.
ghost use Rattle.std.specs.Prelude.{◌≡◌};
ghost use Rattle.fabric_settle.specs.Rounds as spec;

use crate::Attempt;
use dllp_core::Class;
use fabric_core::{Event, LaneName};
use lane_core::{DllpKind, Fate};

/// The lanes of a fabric with seven requesters.
pub(crate) const LANES: [LaneName; 16] = [
    LaneName::Up(1),
    LaneName::Up(2),
    LaneName::Up(3),
    LaneName::Up(4),
    LaneName::Up(5),
    LaneName::Up(6),
    LaneName::Up(7),
    LaneName::Inward,
    LaneName::Outward,
    LaneName::Down(1),
    LaneName::Down(2),
    LaneName::Down(3),
    LaneName::Down(4),
    LaneName::Down(5),
    LaneName::Down(6),
    LaneName::Down(7),
];

/// After the turns of the lanes the switch forwards, the memory acts, and the requesters collect.
pub(crate) const AFTER_LANES: [Attempt; 25] = [
    Attempt::Once(Event::Forward(LaneName::Up(1), 0)),
    Attempt::Once(Event::Forward(LaneName::Up(1), 1)),
    Attempt::Once(Event::Forward(LaneName::Up(2), 0)),
    Attempt::Once(Event::Forward(LaneName::Up(2), 1)),
    Attempt::Once(Event::Forward(LaneName::Up(3), 0)),
    Attempt::Once(Event::Forward(LaneName::Up(3), 1)),
    Attempt::Once(Event::Forward(LaneName::Up(4), 0)),
    Attempt::Once(Event::Forward(LaneName::Up(4), 1)),
    Attempt::Once(Event::Forward(LaneName::Up(5), 0)),
    Attempt::Once(Event::Forward(LaneName::Up(5), 1)),
    Attempt::Once(Event::Forward(LaneName::Up(6), 0)),
    Attempt::Once(Event::Forward(LaneName::Up(6), 1)),
    Attempt::Once(Event::Forward(LaneName::Up(7), 0)),
    Attempt::Once(Event::Forward(LaneName::Up(7), 1)),
    Attempt::Once(Event::Forward(LaneName::Outward, 0)),
    Attempt::Once(Event::Forward(LaneName::Outward, 1)),
    Attempt::Once(Event::Serve(0)),
    Attempt::Once(Event::Serve(1)),
    Attempt::All(Event::Collect(1)),
    Attempt::All(Event::Collect(2)),
    Attempt::All(Event::Collect(3)),
    Attempt::All(Event::Collect(4)),
    Attempt::All(Event::Collect(5)),
    Attempt::All(Event::Collect(6)),
    Attempt::All(Event::Collect(7)),
];

/// Whether a round in which the event happens has moved something.
pub(crate) fn is_move(event: &Event) -> bool
    ensures { result ≡ spec.is_move event.now }
{
    match event {
        Event::SendDllp(_, _) | Event::DeliverDllp(_, _) | Event::Retrained(_) => false,
        _ => true,
    }
}

/// What a round tries of a lane: the replay timer expires, so that all packets that are kept go again, the link is
/// retrained where its sender is stopped, the packets go and arrive, and then the DLLPs.
pub(crate) fn lane_attempts(lane: LaneName) -> [Attempt; 9]
    ensures { result ≡ spec.lane_attempts lane }
{
    [
        Attempt::Once(Event::Timer(lane)),
        Attempt::Once(Event::Retrained(lane)),
        Attempt::All(Event::Transmit(lane)),
        Attempt::All(Event::Deliver(lane, Fate::Good)),
        Attempt::Once(Event::SendDllp(lane, DllpKind::Answer)),
        Attempt::Once(Event::SendDllp(lane, DllpKind::Update(Class::Posted))),
        Attempt::Once(Event::SendDllp(lane, DllpKind::Update(Class::NonPosted))),
        Attempt::Once(Event::SendDllp(lane, DllpKind::Update(Class::Completion))),
        Attempt::All(Event::DeliverDllp(lane, Fate::Good)),
    ]
}
