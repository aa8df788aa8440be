//! A part in the hands of another seat: the hall isn't closed, and seats don't meet.
ghost use Rattle.std.specs.Prelude.{◌≡◌};
ghost use Rattle.hall_core.specs.Views.{IsSeatOf};

use fabric_core::LaneName;
use fabric_rows::seats::{one_and_a_worker, small, two_and_a_worker};
use hall_core::laws::{put_back, take};
use hall_core::{Hall, HallRefusal, Part, ReqSeat, StillHeld, WorkSeat};
use std::alloc::Global;
use std::test::Fail;

/// What is told where the hall is closed while the holder has the part; none where the part wasn't free, or the hall is
/// closed all the same.
fn told_at_close(hall: Hall, seat: ReqSeat, holder: WorkSeat, part: Part) -> Option<StillHeld>
    requires { IsSeatOf hall seat × IsSeatOf hall holder × (hall.config.requesters ≡ 1) }
{
    let slot = part.slot();
    let number = holder.number();
    let mut place = holder.into_place();
    if slot >= 18 || take(hall.steps(), &mut place, slot, number as u64).is_err() {
        return None;
    }
    hall.close(seat).err()
}

/// The same of a new hall.
fn left_with(part: Part, alloc: Global) -> Option<StillHeld> {
    match one_and_a_worker(small(1), alloc) {
        Ok((hall, seat, holder)) => told_at_close(hall, seat, holder, part),
        Err(_) => None,
    }
}

#[test]
fn a_part_is_still_held(rt: HostRuntime) -> Result<(), Fail> {
    let part = Part::SenderEnd(LaneName::Up(1));
    let held = StillHeld { part, word: 2 };
    assert_eq!(rt; left_with(part, rt.alloc()), Some(held));
    Ok(())
}

/// Whether the seats don't meet while the holder has the memory, and meet then.
fn meet_after(hall: &Hall, one: ReqSeat, two: ReqSeat, holder: WorkSeat) -> bool
    requires { IsSeatOf hall.now one × IsSeatOf hall.now two × IsSeatOf hall.now holder }
{
    let number = holder.number();
    let mut place = holder.into_place();
    let Ok(memory) = take(hall.steps(), &mut place, 0, number as u64) else {
        return false;
    };
    let busy = HallRefusal::Busy {
        part: Part::Memory,
        word: 3,
    };
    match hall.meet(one, two) {
        Ok(_) => false,
        Err((refusal, one, two)) => {
            put_back(hall.steps(), &mut place, 0, memory);
            refusal == busy && hall.meet(one, two).is_ok()
        }
    }
}

fn meeting(alloc: Global) -> bool {
    match two_and_a_worker(small(2), alloc) {
        Ok((hall, one, two, holder)) => meet_after(&hall, one, two, holder),
        Err(_) => false,
    }
}

#[test]
fn a_meeting_is_busy_with_the_memory(rt: HostRuntime) -> Result<(), Fail> {
    assert!(rt; meeting(rt.alloc()));
    Ok(())
}
