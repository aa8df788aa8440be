//! The state of the link, and what the caller's physical layer and timers report.
ghost use Rattle.std.specs.Prelude.{◌≡◌, [], ◌∷◌, Some};
ghost use Rattle.linked_endpoint.specs.Runs.{after_call};
ghost use Rattle.linked_endpoint.specs.Runs.{Up, Down, Refresh, Replay, Retrained};
ghost use Rattle.c_linked.specs.SessionView.{SessionView, IsDone, with_linked, with_reset};
ghost use Rattle.c_linked.specs.Calls.{condition_of};

use crate::session::Session;
use crate::settling::settle;
use crate::slot::{Slot, close, open};
use endpoint_core::Room;
use linked_endpoint::LinkedEndpoint;
use port_core::LinkState;
use std::alloc::Global;

/// The state of a link.
#[derive(Clone, Copy)]
pub enum LinkStatus {
    /// The physical layer reports that the link is down.
    Inactive,
    /// DL_Init in FC_INIT1: the peer's credits are not all known.
    Init1,
    /// DL_Init in FC_INIT2: they are known, and the peer may not know ours.
    Init2,
    /// DL_Active: packets are sent and received.
    Active,
    /// DL_Active, after four replays without progress: no packet is sent until the link is retrained.
    Stopped,
}

fn status(linked: &LinkedEndpoint) -> LinkStatus
    ensures { result ≡ condition_of linked.now }
{
    match linked.port().state() {
        LinkState::Inactive => LinkStatus::Inactive,
        LinkState::Init1 => LinkStatus::Init1,
        LinkState::Init2 => LinkStatus::Init2,
        LinkState::Active if linked.port().sender().sending().stopped() => LinkStatus::Stopped,
        LinkState::Active => LinkStatus::Active,
    }
}

#[tactic(auto, using(crate::proofs::Turns::then_done))]
fn refresh(session: &mut Session)
    ensures { IsDone session.old (Refresh ∷ []) session.new }
{
    session.linked.refresh();
    settle(session, &mut Room::new());
}

/// The state of the link of the slot, whose endpoint goes to `back`, as it was.
pub fn link_status(slot: Slot, back: &mut Slot) -> LinkStatus
    ghost session: { SessionView }
    requires { slot.session ≡ Some session }
    ensures status { result ≡ condition_of session.linked }
    ensures unchanged { back.new.session ≡ Some session }
{
    let held = open(slot);
    let outcome = status(&held.linked);
    *back = close(held);
    outcome
}

/// The physical layer reports that the link is up: initialization begins, with new counters, and the endpoint, which goes to
/// `back`, is reset. Its memory's bytes stay.
pub fn link_up(alloc: Global, slot: Slot, back: &mut Slot)
    ghost session: { SessionView }
    requires { slot.session ≡ Some session }
    ensures { back.new.session ≡ Some (with_reset session (after_call session.linked Up)) }
{
    let mut held = open(slot);
    held.linked.up(alloc);
    held.recording.reset();
    *back = close(held);
}

/// The physical layer reports that the link is down: all that it had is lost, and the endpoint, which goes to `back`, is reset.
/// Its memory's bytes stay.
pub fn link_down(alloc: Global, slot: Slot, back: &mut Slot)
    ghost session: { SessionView }
    requires { slot.session ≡ Some session }
    ensures { back.new.session ≡ Some (with_reset session (after_call session.linked Down)) }
{
    let mut held = open(slot);
    held.linked.down(alloc);
    held.recording.reset();
    *back = close(held);
}

/// A timer for InitFCs, or for Acks and UpdateFCs, expired: they are due again. Then requests of the slot's endpoint, which
/// goes to `back`, act, and their completions enter the replay buffer: also those for which there was no memory. What is recorded is lost where memory for it runs out.
pub fn refresh_link(slot: Slot, back: &mut Slot)
    ghost session: { SessionView }
    requires { slot.session ≡ Some session }
    ensures { (s : SessionView) × (back.new.session ≡ Some s) × IsDone session (Refresh ∷ []) s }
{
    let mut held = open(slot);
    refresh(&mut held);
    *back = close(held);
}

/// REPLAY_TIMER of the slot's endpoint, which goes to `back`, expired: the unacknowledged packets are sent again, the oldest
/// first. The fourth replay without progress stops the sender.
pub fn replay_link(slot: Slot, back: &mut Slot)
    ghost session: { SessionView }
    requires { slot.session ≡ Some session }
    ensures { back.new.session ≡ Some (with_linked session (after_call session.linked Replay)) }
{
    let mut held = open(slot);
    held.linked.replay();
    *back = close(held);
}

/// The link of the slot's endpoint, which goes to `back`, was retrained: its sender is no longer stopped.
pub fn retrain_link(slot: Slot, back: &mut Slot)
    ghost session: { SessionView }
    requires { slot.session ≡ Some session }
    ensures { back.new.session ≡ Some (with_linked session (after_call session.linked Retrained)) }
{
    let mut held = open(slot);
    held.linked.retrained();
    *back = close(held);
}
