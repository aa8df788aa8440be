//! The hall and its calls.
ghost use Rattle.std.specs.Prelude.{◌≡◌, ◌≢◌, ◌+◌, ◌<◌, ◌≤◌, ◌++◌, List, length, IfOk, IfErr, MatchOption};
ghost use Rattle.seq_memory.specs.Entries.{Entry};
ghost use Rattle.fabric_steps.specs.Lists.{Each};
ghost use Rattle.fabric_steps.specs.declared.event.EventOf.TheVariants.{Submit, Collect};
ghost use Rattle.hall_laws.specs.declared.part.Part.TheVariants.{Memory};
ghost use Rattle.hall_laws.specs.Shows.{Shows};
ghost use Rattle.hall_laws.specs.Calls.{IsSized};
ghost use Rattle.hall_laws.specs.Parts.{IsPartName};
ghost use Rattle.hall_laws.specs.Rule.{HasConfig};
ghost use Rattle.hall_laws.specs.Tells.{SubmitTells, CollectTells, SeesTells, Met};
ghost use Rattle.hall_core.specs.Opens.{IsUnused, Leaves};
ghost use Rattle.hall_events.specs.Refusals.{IsRefused, IsWithAnother, IsPossibleInHall, IsBusy};
ghost use Rattle.hall_events.specs.Works.{Pumped, event_of};
ghost use Rattle.hall_core.specs.Faults.{IsSeatCount, HasHallFault};
ghost use Rattle.hall_core.specs.Views.{SeatView, AreNewSeats, IsSeatOf, AreSeatsOf, RanBy};

use crate::closing::{StillHeld, close};
use crate::fault::HallFault;
use crate::opening::{Board, Opened, Shelves, open};
use crate::seats::{ReqSeat, WorkSeat, all_at_once, req_seats, seat, work_seat, work_seats};
use crate::told::{Answered, Submitted};
use fabric_core::{Config, Fabric, Seen};
use hall_events::desk::Desk;
use hall_events::meeting::meet_as;
use hall_events::refusal::{HallRefusal, each_refusal_is_possible};
use hall_events::work::WorkEvent;
use hall_laws::laws::Steps;
use std::alloc::Global;
use std::marker::Model;
use tlp_core::Op;

/// A fabric that many threads drive at once, each part of which lies in a slot of one table.
///
/// A hall is `Sync`: threads share it by `&`, and each has seats of its own. It can be dropped, and the parts at home
/// with it.
#[derive(Drop)]
pub struct Hall {
    pub(crate) board: Board,
    pub(crate) shelves: Shelves,
    pub(crate) config: Config,
}

impl Model for Hall {
    ghost use Rattle.std.specs.Prelude.{◌≡◌, ◌≤◌};
    ghost use Rattle.std.specs.Vec.{vec_len, vec_capacity};
    ghost use Rattle.hall_core.specs.Views.{HallView};

    ghost Value = { HallView };

    ghost use Rattle.hall_laws.specs.Calls.{IsSized};

    ghost view = { λ h. record {
      table_id = h.board.shared.table_id;
      config = h.config;
      opened = h.board.shared.key.opened.value;
      seats = h.board.shared.key.seats;
    } };

    ghost invariant = { λ h. IsSized h.board.shared.table_id h.config.requesters × (vec_len h.shelves.requesters ≡ 0) × (vec_len h.shelves.up ≡ 0) ×
        (vec_len h.shelves.down ≡ 0) × (h.config.requesters ≤ vec_capacity h.shelves.requesters) × (h.config.requesters ≤ vec_capacity h.shelves.up) ×
        (h.config.requesters ≤ vec_capacity h.shelves.down) };
}

impl Hall {
    /// A hall of a fabric, with a seat for each requester, in their order, and `work` work seats, 1 to 64. The caller
    /// owes a fabric that is quiet, with an empty history, as a new one is. With R requesters the seat of requester i
    /// has the number i - 1, and the work seats have R, R + 1 and so on.
    ///
    /// The faults are `Seats` where `work` isn't 1 to 64, then `Memory`; either way the fabric is spent.
    pub fn new(
        fabric: Fabric,
        work: usize,
        alloc: Global,
    ) -> Result<(Hall, Vec<ReqSeat>, Vec<WorkSeat>), HallFault>
        requires { IsUnused fabric }
        ensures config { IfOk result (λ t. HasConfig fabric t.0.config) }
        ensures opened { IfOk result (λ t. t.0.opened ≡ fabric) }
        ensures seats { IfOk result (λ t. t.0.seats ≡ t.0.config.requesters + work) }
        ensures requesters { IfOk result (λ t. AreNewSeats t.0 0 t.0.config.requesters t.1.items) }
        ensures work { IfOk result (λ t. AreNewSeats t.0 t.0.config.requesters work t.2.items) }
        ensures count { IfOk result (λ _. IsSeatCount work) }
        ensures fault { IfErr result (λ fault. HasHallFault work fault) }
    {
        if work == 0 || work > 64 {
            return Err(HallFault::Seats);
        }
        let Ok(
            Opened {
                board,
                mut place,
                shelves,
                config,
            },
        ) = open(fabric, work, alloc)
        else {
            return Err(HallFault::Memory);
        };
        let Ok(first) = req_seats(&board.shared, &mut place, &config, work, alloc) else {
            return Err(HallFault::Memory);
        };
        let Ok(second) = work_seats(&board.shared, &mut place, &config, work, alloc) else {
            return Err(HallFault::Memory);
        };
        let hall = Hall {
            board,
            shelves,
            config,
        };
        Ok((hall, first, second))
    }

    /// The table of this hall, for the steps of [`laws`](crate::laws).
    pub fn steps(&self) -> &Steps
        ensures table { result.now.table_id ≡ self.now.table_id }
        ensures sized { IsSized result.now.table_id self.now.config.requesters }
    {
        &self.board.shared
    }

    /// The requester of the seat submits an operation: its request enters the lane to the switch. Gives the number of
    /// the request, and the length of the history, which the seat then has seen.
    ///
    /// `Busy` where another seat has the memory, the requester or the sender's end of its lane, in this order; then the
    /// refusal of the fabric.
    pub fn submit(&self, seat: &mut ReqSeat, op: Op) -> Result<Submitted, HallRefusal>
        requires { IsSeatOf self.now seat.old }
        ensures seat { IsSeatOf self.now seat.new }
        ensures submitted { IfOk result (λ s. SubmitTells seat.old.knows s.number op s.n seat.new.knows) }
        ensures refused { IfErr result (λ _. seat.new ≡ seat.old) }
        ensures why { IfErr result (λ r. IsRefused seat.old.knows (Submit (seat.old.knows.number + 1) op) r) }
        ensures possible { IfErr result (λ r. IsPossibleInHall r) }
    {
        each_refusal_is_possible();
        let number = usize::from(seat.number);
        let mut desk = Desk::new(
            &self.board.shared,
            &mut seat.place,
            number,
            self.config.requesters,
        );
        match desk.submit(&op) {
            Ok((number, n)) => Ok(Submitted { number, n }),
            Err(refusal) => Err(refusal),
        }
    }

    /// The requester of the seat takes its oldest completion. Gives the number of the request, the reply, and the
    /// length of the history, which the seat then has seen. None where no completion had arrived; the seat then has
    /// seen the history, too.
    ///
    /// `Busy` where another seat has the memory, the requester or the receiver's end of its lane, in this order: the only
    /// refusal.
    pub fn collect(&self, seat: &mut ReqSeat) -> Result<Option<Answered>, HallRefusal>
        requires { IsSeatOf self.now seat.old }
        ensures seat { IsSeatOf self.now seat.new }
        ensures collected { IfOk result (λ o. MatchOption o (SeesTells seat.old.knows seat.new.knows)
            (λ a. CollectTells seat.old.knows a.number a.reply a.n seat.new.knows)) }
        ensures refused { IfErr result (λ _. seat.new ≡ seat.old) }
        ensures why { IfErr result (λ r. IsWithAnother seat.old.knows (Collect (seat.old.knows.number + 1)) r) }
        ensures possible { IfErr result (λ r. IsPossibleInHall r) }
    {
        each_refusal_is_possible();
        let number = usize::from(seat.number);
        let mut desk = Desk::new(
            &self.board.shared,
            &mut seat.place,
            number,
            self.config.requesters,
        );
        match desk.collect() {
            Ok(Some((answer, n))) => Ok(Some(Answered {
                number: answer.number,
                reply: answer.reply,
                n,
            })),
            Ok(None) => Ok(None),
            Err(refusal) => Err(refusal),
        }
    }

    /// The seats meet: both have seen one history then, of the length that is given, in which every answered request of
    /// both stands. The seats come back in their order, knowing else what they knew.
    ///
    /// `Busy` where another seat has the memory.
    pub fn meet(
        &self,
        first: ReqSeat,
        second: ReqSeat,
    ) -> Result<(ReqSeat, ReqSeat, u64), (HallRefusal, ReqSeat, ReqSeat)>
        requires first { IsSeatOf self.now first }
        requires second { IsSeatOf self.now second }
        ensures seats { IfOk result (λ r. IsSeatOf self.now r.0 × IsSeatOf self.now r.1) }
        ensures met { IfOk result (λ r. (h : List Entry) × (r.2 ≡ length h) × Met first.knows h r.0.knows × Met second.knows h r.1.knows) }
        ensures refused { IfErr result (λ r. IsBusy first.knows Memory r.0 × (r.1 ≡ first) × (r.2 ≡ second)) }
    {
        let (one, two) = (first.number, second.number);
        let steps = &self.board.shared;
        let requesters = self.config.requesters;
        match meet_as(
            steps,
            first.place,
            second.place,
            usize::from(one),
            requesters,
        ) {
            Ok((a, b, n)) => Ok((seat(a, one), seat(b, two), n)),
            Err((refusal, a, b)) => Err((refusal, seat(a, one), seat(b, two))),
        }
    }

    /// The same of a requester's seat and a work seat. So a work seat carries what the one has seen to a seat of another
    /// thread, which it meets later: what is submitted there then acts after all that the first was answered
    /// ([`what_was_carried_acts_first`](crate::laws::what_was_carried_acts_first)).
    ///
    /// `Busy` where another seat has the memory.
    pub fn meet_work(
        &self,
        first: ReqSeat,
        second: WorkSeat,
    ) -> Result<(ReqSeat, WorkSeat, u64), (HallRefusal, ReqSeat, WorkSeat)>
        requires first { IsSeatOf self.now first }
        requires second { IsSeatOf self.now second }
        ensures seats { IfOk result (λ r. IsSeatOf self.now r.0 × IsSeatOf self.now r.1) }
        ensures met { IfOk result (λ r. (h : List Entry) × (r.2 ≡ length h) × Met first.knows h r.0.knows × Met second.knows h r.1.knows) }
        ensures refused { IfErr result (λ r. IsBusy first.knows Memory r.0 × (r.1 ≡ first) × (r.2 ≡ second)) }
    {
        let (number, work) = (first.number, second.number);
        let steps = &self.board.shared;
        let requesters = self.config.requesters;
        match meet_as(
            steps,
            first.place,
            second.place,
            usize::from(number),
            requesters,
        ) {
            Ok((a, b, n)) => Ok((seat(a, number), work_seat(b, work), n)),
            Err((refusal, a, b)) => Err((refusal, seat(a, number), work_seat(b, work))),
        }
    }

    /// An event, and what is seen of it. `Serve` gives the place in the history that it filled, which no other serving
    /// gives.
    ///
    /// `Busy` where another seat has a part that the event uses, in the order of their taking; then the refusal of the
    /// fabric. Where the first part shows that there is nothing to do, no further part is taken. It is never
    /// `Protocol`, `Strange` or `Route`.
    pub fn pump(&self, seat: &mut WorkSeat, event: WorkEvent) -> Result<Seen, HallRefusal>
        requires { IsSeatOf self.now seat.old }
        ensures seat { IsSeatOf self.now seat.new }
        ensures pumped { IfOk result (λ what. Pumped event what seat.old.knows seat.new.knows) }
        ensures shows { IfOk result (λ what. Shows seat.old.knows (event_of event) what) }
        ensures refused { IfErr result (λ _. seat.new ≡ seat.old) }
        ensures why { IfErr result (λ r. IsRefused seat.old.knows (event_of event) r) }
        ensures possible { IfErr result (λ r. IsPossibleInHall r) }
    {
        each_refusal_is_possible();
        let number = seat.number;
        let mut desk = Desk::new(
            &self.board.shared,
            &mut seat.place,
            number,
            self.config.requesters,
        );
        desk.pump(event)
    }

    /// The fabric of all parts, whose history begins with all that the seat has seen. One list of events leads to it from
    /// the fabric that the hall was made of, and what the seat did stands in it, in its order. Where a part's word isn't
    /// 0, that part is told, and the hall and the seat are spent.
    pub fn close(self, seat: ReqSeat) -> Result<Fabric, StillHeld>
        requires { IsSeatOf self seat }
        ensures closed { IfOk result (λ f. Leaves seat.knows f) }
        ensures held { IfErr result (λ e. (e.word ≢ 0) × IsPartName self.config.requesters e.part) }
    {
        let Hall {
            board,
            shelves,
            config,
        } = self;
        let ReqSeat { place, number: _ } = seat;
        close(board, shelves, &config, place)
    }

    /// The same with all seats of the hall: what their calls made happen, each seat's in its order, and nothing else leads
    /// to the fabric from that which the hall was made of, and its history begins with all that each of them has seen.
    /// Where a part's word isn't 0, that part is told, and the hall and the seats are spent.
    pub fn close_all(
        self,
        requesters: Vec<ReqSeat>,
        work: Vec<WorkSeat>,
    ) -> Result<Fabric, StillHeld>
        requires some { 0 < length requesters.items }
        requires seats { AreSeatsOf self requesters.items × AreSeatsOf self work.items }
        requires all { length requesters.items + length work.items ≡ self.seats }
        ensures closed { IfOk result (λ f. Each (λ (s : SeatView). Leaves s.knows f) (requesters.items ++ work.items)) }
        ensures ran { IfOk result (λ f. RanBy self (requesters.items ++ work.items) f) }
        ensures held { IfErr result (λ e. (e.word ≢ 0) × IsPartName self.config.requesters e.part) }
    {
        let Hall {
            board,
            shelves,
            config,
        } = self;
        let place = all_at_once(&board.shared, requesters, work);
        close(board, shelves, &config, place)
    }
}
