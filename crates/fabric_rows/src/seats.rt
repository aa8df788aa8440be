//! A hall with its seats, and how packets go through it.
ghost use Rattle.std.specs.Prelude.{◌≡◌, ◌+◌, IfOk, IfSome};
ghost use Rattle.hall_core.specs.Views.{IsSeatOf, AreSeatsOf};

use fabric_core::{Config, ConfigFault, Fabric, LaneName};
use hall_core::{Hall, HallFault, ReqSeat, WorkEvent, WorkSeat};
use lane_core::{Fate, LaneCredits};
use std::alloc::Global;

/// Why no hall was opened.
#[derive(Clone, Copy)]
pub enum OpenFault {
    /// No fabric was made.
    Fabric(ConfigFault),
    /// No hall was made.
    Hall(HallFault),
    /// A seat is missing.
    Seats,
}

/// So many requesters and 4096 bytes.
pub fn small(requesters: u8) -> Config
    ensures { result.requesters ≡ requesters }
{
    Config {
        requesters,
        base: 0,
        size: 4096,
        credits: LaneCredits::DEFAULT,
        block: 64,
    }
}

/// A hall of a new fabric, with its seats.
pub fn opened(
    config: Config,
    work: usize,
    alloc: Global,
) -> Result<(Hall, Vec<ReqSeat>, Vec<WorkSeat>), OpenFault>
    ensures seats { IfOk result (λ t. AreSeatsOf t.0 t.1.items × AreSeatsOf t.0 t.2.items) }
    ensures config { IfOk result (λ t. t.0.config.requesters ≡ config.requesters) }
    ensures count { IfOk result (λ t. t.0.seats ≡ config.requesters + work) }
{
    let fabric = match Fabric::new(config, alloc) {
        Ok(fabric) => fabric,
        Err(fault) => return Err(OpenFault::Fabric(fault)),
    };
    match Hall::new(fabric, work, alloc) {
        Ok(made) => Ok(made),
        Err(fault) => Err(OpenFault::Hall(fault)),
    }
}

/// The last of these seats.
#[tactic(auto, using(crate::proofs::SeatLists::last_fits))]
fn last_seat(hall: &Hall, seats: &mut Vec<ReqSeat>) -> Option<ReqSeat>
    requires { AreSeatsOf hall.now seats.old.items }
    ensures rest { AreSeatsOf hall.now seats.new.items }
    ensures seat { IfSome result (λ s. IsSeatOf hall.now s) }
{
    seats.pop()
}

/// The last of these seats.
#[tactic(auto, using(crate::proofs::SeatLists::last_fits))]
fn last_worker(hall: &Hall, seats: &mut Vec<WorkSeat>) -> Option<WorkSeat>
    requires { AreSeatsOf hall.now seats.old.items }
    ensures rest { AreSeatsOf hall.now seats.new.items }
    ensures seat { IfSome result (λ s. IsSeatOf hall.now s) }
{
    seats.pop()
}

/// A hall of a new fabric, with the seat of its last requester and one work seat.
pub fn one_and_a_worker(
    config: Config,
    alloc: Global,
) -> Result<(Hall, ReqSeat, WorkSeat), OpenFault>
    ensures seats { IfOk result (λ t. IsSeatOf t.0 t.1 × IsSeatOf t.0 t.2) }
    ensures config { IfOk result (λ t. t.0.config.requesters ≡ config.requesters) }
    ensures count { IfOk result (λ t. t.0.seats ≡ config.requesters + 1) }
{
    let (hall, mut seats, mut workers) = opened(config, 1, alloc)?;
    match (
        last_seat(&hall, &mut seats),
        last_worker(&hall, &mut workers),
    ) {
        (Some(seat), Some(worker)) => Ok((hall, seat, worker)),
        _ => Err(OpenFault::Seats),
    }
}

/// A hall of a new fabric, with the seats of its last two requesters, the first of them first, and one work seat.
pub fn two_and_a_worker(
    config: Config,
    alloc: Global,
) -> Result<(Hall, ReqSeat, ReqSeat, WorkSeat), OpenFault>
    ensures { IfOk result (λ t. IsSeatOf t.0 t.1 × IsSeatOf t.0 t.2 × IsSeatOf t.0 t.3) }
{
    let (hall, mut seats, mut workers) = opened(config, 1, alloc)?;
    match (
        last_seat(&hall, &mut seats),
        last_seat(&hall, &mut seats),
        last_worker(&hall, &mut workers),
    ) {
        (Some(two), Some(one), Some(worker)) => Ok((hall, one, two, worker)),
        _ => Err(OpenFault::Seats),
    }
}

/// From a requester's lane through Serve.
pub fn out_and_served(port: u8) -> [WorkEvent; 6] {
    let up = LaneName::Up(port);
    [
        WorkEvent::Transmit(up),
        WorkEvent::Deliver(up, Fate::Good),
        WorkEvent::Forward(up, 0),
        WorkEvent::Transmit(LaneName::Inward),
        WorkEvent::Deliver(LaneName::Inward, Fate::Good),
        WorkEvent::Serve(0),
    ]
}

/// From Serve to the requester.
pub fn back(port: u8) -> [WorkEvent; 5] {
    let down = LaneName::Down(port);
    [
        WorkEvent::Transmit(LaneName::Outward),
        WorkEvent::Deliver(LaneName::Outward, Fate::Good),
        WorkEvent::Forward(LaneName::Outward, 0),
        WorkEvent::Transmit(down),
        WorkEvent::Deliver(down, Fate::Good),
    ]
}
