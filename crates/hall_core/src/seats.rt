//! The seats of a hall.
ghost use Rattle.std.specs.Prelude.{◌≡◌, ◌+◌, ◌-◌, ◌<◌, ◌≤◌, ◌^◌, ℕ, List, [], ◌∷◌, ◌++◌, length, IfOk, IfErr};
ghost use Rattle.tlp_core.specs.Limits.{most_requesters};
ghost use Rattle.hall_laws.specs.Calls.{IsIdle};
ghost use Rattle.hall_laws.specs.Rule.{newcomers};
ghost use Rattle.hall_laws.specs.Standing.{token_of};
ghost use Rattle.hall_core.specs.Views.{AreNewSeats};
ghost use Rattle.hall_core.specs.Joins.{AreAt, tokens_of};

use fabric_core::Config;
use hall_laws::laws::{Place, Steps, join, split};
use std::alloc::{AllocError, Global};
use std::marker::Model;

/// The seat of a requester, for its submissions and collections. It is `Send`, and can be dropped; its requester then
/// submits and collects no more. It is used with the hall that it came from.
#[derive(Drop)]
pub struct ReqSeat {
    pub(crate) place: Place,
    pub(crate) number: u8,
}

impl Model for ReqSeat {
    ghost use Rattle.std.specs.Prelude.{◌≡◌, ◌<◌, ◌≤◌};
    ghost use Rattle.tlp_core.specs.Limits.{most_requesters};
    ghost use Rattle.hall_core.specs.Views.{SeatView};

    ghost Value = { SeatView };

    ghost use Rattle.hall_laws.specs.Standing.{token_of};
    ghost use Rattle.hall_laws.specs.Calls.{IsIdle};

    ghost view = { λ s. record { table_id = s.place.table_id; knows = (token_of s.place.me.0).knows } };

    ghost invariant = { λ s. IsIdle s.place.me × ((token_of s.place.me.0).knows.number ≡ s.number) ×
        (s.number < (token_of s.place.me.0).knows.config.requesters) × ((token_of s.place.me.0).knows.config.requesters ≤ most_requesters) };
}

/// A seat for the other events. It is `Send`, and can be dropped. It is used with the hall that it came from.
#[derive(Drop)]
pub struct WorkSeat {
    pub(crate) place: Place,
    pub(crate) number: usize,
}

impl Model for WorkSeat {
    ghost use Rattle.std.specs.Prelude.{◌≡◌, ◌<◌, ◌≤◌, ◌^◌};
    ghost use Rattle.hall_core.specs.Views.{SeatView};

    ghost Value = { SeatView };

    ghost use Rattle.hall_laws.specs.Standing.{token_of};
    ghost use Rattle.hall_laws.specs.Calls.{IsIdle};

    ghost view = { λ s. record { table_id = s.place.table_id; knows = (token_of s.place.me.0).knows } };

    ghost invariant = { λ s. IsIdle s.place.me × ((token_of s.place.me.0).knows.number ≡ s.number) × (s.number < 2 ^ 32) };
}

impl ReqSeat {
    ghost use Rattle.hall_laws.specs.Calls.{knowing};

    /// The place of the seat at its table.
    pub(crate) fn into_place(self) -> Place
        ensures { (result.table_id ≡ self.table_id) × (result.me ≡ knowing self.knows) }
    {
        self.place
    }
}

impl WorkSeat {
    ghost use Rattle.hall_laws.specs.Calls.{knowing};

    /// The number of the seat. The words that name it are 1 more.
    pub fn number(&self) -> usize
        ensures number { result ≡ self.now.knows.number }
        ensures small { result < 2 ^ 32 }
    {
        self.number
    }

    /// The place of the seat at its table, for the steps of [`laws`](crate::laws).
    pub fn into_place(self) -> Place
        ensures { (result.table_id ≡ self.table_id) × (result.me ≡ knowing self.knows) }
    {
        self.place
    }
}

/// The seat of a requester at this place.
pub(crate) fn seat(place: Place, number: u8) -> ReqSeat
    requires { IsIdle place.me × ((token_of place.me.0).knows.number ≡ number) × (number < (token_of place.me.0).knows.config.requesters) ×
        ((token_of place.me.0).knows.config.requesters ≤ most_requesters) }
    ensures { (result.table_id ≡ place.table_id) × (result.knows ≡ (token_of place.me.0).knows) }
{
    ReqSeat { place, number }
}

/// The work seat at this place.
pub(crate) fn work_seat(place: Place, number: usize) -> WorkSeat
    requires { IsIdle place.me × ((token_of place.me.0).knows.number ≡ number) × (number < 2 ^ 32) }
    ensures { (result.table_id ≡ place.table_id) × (result.knows ≡ (token_of place.me.0).knows) }
{
    WorkSeat { place, number }
}

/// A seat for each requester, in their order. The rest of the tokens stays.
pub fn req_seats(
    steps: &Steps,
    place: &mut Place,
    config: &Config,
    work: usize,
    alloc: Global,
) -> Result<Vec<ReqSeat>, AllocError>
    requires table { (place.old.table_id ≡ steps.now.table_id) × (0 < steps.now.table_id.words) × (config.now.requesters ≤ most_requesters) }
    requires tokens { place.old.me ≡ (newcomers config.now steps.now.key.opened.value steps.now.key.seats 0 (config.now.requesters + work), []) }
    ensures seats { IfOk result (λ v. AreNewSeats
        (record { table_id = steps.now.table_id; config = config.now; opened = steps.now.key.opened.value; seats = steps.now.key.seats })
        0 config.now.requesters v.items) }
    ensures rest { IfOk result (λ _. (place.new.table_id ≡ place.old.table_id) ×
        (place.new.me ≡ (newcomers config.now steps.now.key.opened.value steps.now.key.seats config.now.requesters work, []))) }
{
    let mut seats = Vec::with_capacity(alloc, usize::from(config.requesters))?;
    for number in 0..config.requesters {
        let given = split(steps, place);
        seats.push_reserved(ReqSeat {
            place: given,
            number,
        });
    }
    Ok(seats)
}

/// The tokens of the seats go to this place, behind those that it has.
fn join_req_seats(steps: &Steps, place: &mut Place, mut seats: Vec<ReqSeat>)
    requires table { (place.old.table_id ≡ steps.now.table_id) × (0 < steps.now.table_id.words) }
    requires seats { AreAt steps.now.table_id seats.items }
    ensures table { place.new.table_id ≡ place.old.table_id }
    ensures tokens { (place.new.me.0 ≡ place.old.me.0 ++ tokens_of seats.items) × (place.new.me.1 ≡ place.old.me.1) }
{
    let count = seats.len();
    for _seat in 0..count {
        let other = seats.remove(0);
        join(steps, place, other.into_place());
    }
}

/// So many work seats, with the numbers from that of the first token on.
pub fn work_seats(
    steps: &Steps,
    place: &mut Place,
    config: &Config,
    work: usize,
    alloc: Global,
) -> Result<Vec<WorkSeat>, AllocError>
    requires table { (place.old.table_id ≡ steps.now.table_id) × (0 < steps.now.table_id.words) × (work ≤ 64) }
    requires tokens { place.old.me ≡ (newcomers config.now steps.now.key.opened.value steps.now.key.seats config.now.requesters work, []) }
    ensures seats { IfOk result (λ v. AreNewSeats
        (record { table_id = steps.now.table_id; config = config.now; opened = steps.now.key.opened.value; seats = steps.now.key.seats })
        config.now.requesters work v.items) }
{
    let mut seats = Vec::with_capacity(alloc, work)?;
    for index in 0..work {
        let given = split(steps, place);
        seats.push_reserved(WorkSeat {
            place: given,
            number: usize::from(config.requesters) + index,
        });
    }
    Ok(seats)
}

/// The tokens of the seats go to this place, behind those that it has.
fn join_work_seats(steps: &Steps, place: &mut Place, mut seats: Vec<WorkSeat>)
    requires table { (place.old.table_id ≡ steps.now.table_id) × (0 < steps.now.table_id.words) }
    requires seats { AreAt steps.now.table_id seats.items }
    ensures table { place.new.table_id ≡ place.old.table_id }
    ensures tokens { (place.new.me.0 ≡ place.old.me.0 ++ tokens_of seats.items) × (place.new.me.1 ≡ place.old.me.1) }
{
    let count = seats.len();
    for _seat in 0..count {
        let other = seats.remove(0);
        join(steps, place, other.into_place());
    }
}

/// The place that has the tokens of all these seats, in their order.
pub fn all_at_once(steps: &Steps, mut requesters: Vec<ReqSeat>, work: Vec<WorkSeat>) -> Place
    requires table { 0 < steps.now.table_id.words }
    requires some { 0 < length requesters.items }
    requires seats { AreAt steps.now.table_id requesters.items × AreAt steps.now.table_id work.items }
    ensures table { result.table_id ≡ steps.now.table_id }
    ensures tokens { result.me.0 ≡ tokens_of (requesters.items ++ work.items) }
{
    let first = requesters.remove(0);
    let mut place = first.into_place();
    join_req_seats(steps, &mut place, requesters);
    join_work_seats(steps, &mut place, work);
    place
}
