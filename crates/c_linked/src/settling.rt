//! Requests act, with what is recorded.
ghost use Rattle.std.specs.Prelude.{[]};
ghost use Rattle.c_linked.specs.SessionView.{IsDone};

use crate::session::Session;
use endpoint_core::Room;

/// Requests act and their completions enter the replay buffer, until none that waits may act: as far as the peer's credits,
/// the window of 2047 packets and memory go.
#[tactic(auto, using(crate::proofs::Turns::settles))]
pub(crate) fn settle(session: &mut Session, room: &mut Room)
    ensures { IsDone session.old [] session.new }
{
    let _ = session.linked.settle(room, &mut session.recording);
}
