//! The rounds and the hops of a settling.
use fabric_core::{EventRef, Fabric, LaneName, SeenRef};
use fabric_settle::{Witness, settle};
use lane_core::DllpKind;
use seq_memory::Keeper;
use std::alloc::AllocError;
use tlp_core::OpRef;

/// Counts the rounds, each of which sends one Ack or Nak on `up1`, and the hops.
#[derive(Drop)]
pub(super) struct Counts {
    pub(super) rounds: u64,
    pub(super) hops: u64,
}

impl Witness for Counts {
    ghost use Rattle.fabric_settle.specs.Keeping.{Never};

    ghost Kept = { Unit {0} };

    ghost kept = { λ counts. tt };

    ghost saw = { λ line kept happened. tt };

    ghost has_room = { λ event counts. Unit {0} };

    ghost needs_room = { Never };

    ghost may_lose = { Never };

    fn make_room(&mut self, _event: &EventRef<'_>) -> Result<(), AllocError> {
        Ok(())
    }

    fn saw<K: Keeper>(
        &mut self,
        _line: u64,
        event: &EventRef<'_>,
        _seen: &SeenRef<'_>,
        _fabric: &Fabric<K>,
    ) -> Result<(), AllocError> {
        match event {
            EventRef::SendDllp(LaneName::Up(1), DllpKind::Answer) => {
                self.rounds = self.rounds.wrapping_add(1);
            }
            EventRef::Forward(_, _) | EventRef::Serve(_) | EventRef::Collect(_) => {
                self.hops = self.hops.wrapping_add(1);
            }
            _ => {}
        }
        Ok(())
    }
}

/// How many hops are left after an event.
pub(super) fn left_after(left: u64, event: &EventRef<'_>) -> u64 {
    match event {
        EventRef::Submit(_, OpRef::Write { .. }) => left.wrapping_add(2),
        EventRef::Submit(_, _) => left.wrapping_add(4),
        EventRef::Forward(_, _) | EventRef::Serve(_) | EventRef::Collect(_) => left.wrapping_sub(1),
        _ => left,
    }
}

/// How many rounds bring the fabric to rest, the last one counted, and how many hops; none where memory is wanted.
pub(super) fn settled(fabric: &mut Fabric) -> Option<(u64, u64)> {
    let mut counts = Counts { rounds: 0, hops: 0 };
    match settle(fabric, &mut counts, 0) {
        Ok(()) => Some((counts.rounds, counts.hops)),
        Err(_) => None,
    }
}
