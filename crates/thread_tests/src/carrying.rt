//! A work seat carries what one seat was answered to another's.
ghost use Rattle.std.specs.Prelude.{◌≤◌, IfSome};
ghost use Rattle.hall_core.specs.Views.{IsSeatOf};

use fabric_rows::seats::{back, out_and_served, small, two_and_a_worker};
use hall_core::laws::what_was_carried_acts_first;
use hall_core::{Hall, ReqSeat, WorkEvent, WorkSeat};
use std::alloc::Global;
use std::test::Fail;
use tlp_core::{Op, Width};

/// Adds 1 to the first word.
fn addition() -> Op {
    Op::FetchAdd {
        address: 0,
        width: Width::Four,
        operand: 1,
    }
}

/// Whether each of these events happens.
fn all_happen(hall: &Hall, worker: &mut WorkSeat, events: &[WorkEvent]) -> bool
    requires { IsSeatOf hall.now worker.old }
    ensures { IsSeatOf hall.now worker.new }
{
    let mut right = true;
    for event in events {
        right &= hall.pump(worker, *event).is_ok();
    }
    right
}

/// Whether the addition of the first port is on its way back.
fn adds(hall: &Hall, seat: &mut ReqSeat, worker: &mut WorkSeat) -> bool
    requires { IsSeatOf hall.now seat.old × IsSeatOf hall.now worker.old }
    ensures { IsSeatOf hall.now seat.new × IsSeatOf hall.now worker.new }
{
    hall.submit(seat, addition()).is_ok()
        && all_happen(hall, worker, &out_and_served(1))
        && all_happen(hall, worker, &back(1))
}

/// The count of what the one is answered, and that of what the other submits when a work seat has met the one and then
/// it. The seats never meet.
fn in_turn(hall: &Hall, mut one: ReqSeat, two: ReqSeat, carrier: WorkSeat) -> Option<(u64, u64)>
    requires { IsSeatOf hall.now one × IsSeatOf hall.now two × IsSeatOf hall.now carrier }
    ensures { IfSome result (λ t. t.0 ≤ t.1) }
{
    what_was_carried_acts_first();
    let Ok(Some(answered)) = hall.collect(&mut one) else {
        return None;
    };
    let Ok((_, carrier, _)) = hall.meet_work(one, carrier) else {
        return None;
    };
    let Ok((mut two, _, _)) = hall.meet_work(two, carrier) else {
        return None;
    };
    let Ok(submitted) = hall.submit(&mut two, addition()) else {
        return None;
    };
    Some((answered.n, submitted.n))
}

/// The counts of an addition's answer and of another's submission behind it.
fn counts(alloc: Global) -> Option<(u64, u64)> {
    match two_and_a_worker(small(2), alloc) {
        Ok((hall, mut one, two, mut worker)) => {
            if adds(&hall, &mut one, &mut worker) {
                in_turn(&hall, one, two, worker)
            } else {
                None
            }
        }
        Err(_) => None,
    }
}

#[test]
fn a_work_seat_carries_what_was_seen(rt: HostRuntime) -> Result<(), Fail> {
    assert_eq!(rt; counts(rt.alloc()), Some((1, 1)));
    Ok(())
}
