//! A write and a read of it in a hall, which a seat or all seats close.
ghost use Rattle.std.specs.Prelude.{◌≡◌};
ghost use Rattle.hall_core.specs.Views.{IsSeatOf};

use fabric_core::{Config, Fabric};
use fabric_rows::halls::{is_left, leaves, writes_and_reads};
use fabric_rows::seats::{one_and_a_worker, small};
use hall_core::{Hall, ReqSeat, WorkSeat};
use std::alloc::Global;
use std::test::Fail;

/// Whether a hall with blocks of this size goes so, and has both requests in its history.
fn one_requester(block: u16, alloc: Global) -> bool {
    match one_and_a_worker(Config { block, ..small(1) }, alloc) {
        Ok((hall, mut seat, mut worker)) => {
            let right = writes_and_reads(&hall, &mut seat, &mut worker, &mut None);
            leaves(hall, seat, [1, 2, 3, 4]) && right
        }
        Err(_) => false,
    }
}

#[test]
fn a_write_is_read(rt: HostRuntime) -> Result<(), Fail> {
    for block in [64, 128] {
        assert!(rt; one_requester(block, rt.alloc()), "blocks of {block}");
    }
    Ok(())
}

/// [`Hall::close_all`] of a hall with two seats.
fn closed_by_both(hall: Hall, seat: ReqSeat, worker: WorkSeat, alloc: Global) -> Option<Fabric>
    requires seats { IsSeatOf hall seat × IsSeatOf hall worker }
    requires count { hall.seats ≡ 2 }
{
    let requesters = vec![in alloc; seat].ok()?;
    let work = vec![in alloc; worker].ok()?;
    hall.close_all(requesters, work).ok()
}

/// Whether a hall that its two seats close is left so.
fn both_leave(hall: Hall, seat: ReqSeat, worker: WorkSeat, alloc: Global) -> bool
    requires seats { IsSeatOf hall seat × IsSeatOf hall worker }
    requires count { hall.seats ≡ 2 }
{
    match closed_by_both(hall, seat, worker, alloc) {
        Some(fabric) => is_left(&fabric, [1, 2, 3, 4]),
        None => false,
    }
}

/// Whether a hall that both its seats close has both requests in its history.
fn closed_by_all(alloc: Global) -> bool {
    match one_and_a_worker(small(1), alloc) {
        Ok((hall, mut seat, mut worker)) => {
            let right = writes_and_reads(&hall, &mut seat, &mut worker, &mut None);
            both_leave(hall, seat, worker, alloc) && right
        }
        Err(_) => false,
    }
}

#[test]
fn all_seats_close_a_hall(rt: HostRuntime) -> Result<(), Fail> {
    assert!(rt; closed_by_all(rt.alloc()));
    Ok(())
}
