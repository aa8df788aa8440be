//! Two worked rows of a hall: a write and a read of it, and two additions whose requesters meet.
ghost use Rattle.std.specs.Prelude.{IfOk, IfSome};
ghost use Rattle.hall_core.specs.Views.{IsSeatOf};

use crate::drive::{Asked, operation_of};
use crate::memory::{Refused, is_memory, keep};
use crate::seats::{OpenFault, back, one_and_a_worker, out_and_served, small, two_and_a_worker};
use fabric_core::{ConfigFault, Fabric};
use hall_core::{Answered, Hall, HallFault, HallRefusal, ReqSeat, Submitted, WorkEvent, WorkSeat};
use seq_memory::Reply;
use std::alloc::Global;

/// Whether there was no memory for a hall, which is kept.
fn is_hall_memory(fault: OpenFault, refused: &mut Option<Refused>) -> bool {
    match fault {
        OpenFault::Fabric(fault @ ConfigFault::Memory) => {
            keep(refused, "fabric", fault.number(), 0);
        }
        OpenFault::Hall(fault @ HallFault::Memory) => keep(refused, "hall", fault.number(), 0),
        _ => return false,
    }
    true
}

/// Whether there was no memory for a call, which is kept.
fn is_call_memory(refusal: HallRefusal, refused: &mut Option<Refused>) -> bool {
    match refusal {
        HallRefusal::Core(refusal) => is_memory("call", refusal, refused),
        HallRefusal::Busy { .. } => false,
    }
}

/// [`Hall::submit`], again where there was no memory for it.
fn submit(
    hall: &Hall,
    seat: &mut ReqSeat,
    asked: Asked,
    refused: &mut Option<Refused>,
) -> Result<Submitted, HallRefusal>
    requires { IsSeatOf hall.now seat.old }
    ensures { IsSeatOf hall.now seat.new }
{
    match hall.submit(seat, operation_of(asked)) {
        Err(refusal) if is_call_memory(refusal, refused) => hall.submit(seat, operation_of(asked)),
        first => first,
    }
}

/// Whether the operation is submitted under this number at this length of the history.
fn is_submitted(
    hall: &Hall,
    seat: &mut ReqSeat,
    asked: Asked,
    told: Submitted,
    refused: &mut Option<Refused>,
) -> bool
    requires { IsSeatOf hall.now seat.old }
    ensures { IsSeatOf hall.now seat.new }
{
    submit(hall, seat, asked, refused) == Ok(told)
}

/// [`Hall::pump`], again where there was no memory for it: whether the event happens.
fn happens(
    hall: &Hall,
    seat: &mut WorkSeat,
    event: WorkEvent,
    refused: &mut Option<Refused>,
) -> bool
    requires { IsSeatOf hall.now seat.old }
    ensures { IsSeatOf hall.now seat.new }
{
    match hall.pump(seat, event) {
        Err(refusal) if is_call_memory(refusal, refused) => hall.pump(seat, event).is_ok(),
        first => first.is_ok(),
    }
}

/// Whether each of these events happens.
fn all_happen(
    hall: &Hall,
    seat: &mut WorkSeat,
    events: &[WorkEvent],
    refused: &mut Option<Refused>,
) -> bool
    requires { IsSeatOf hall.now seat.old }
    ensures { IsSeatOf hall.now seat.new }
{
    let mut right = true;
    for event in events {
        right &= happens(hall, seat, *event, refused);
    }
    right
}

/// [`Hall::collect`], again where there was no memory for it.
fn collect(
    hall: &Hall,
    seat: &mut ReqSeat,
    refused: &mut Option<Refused>,
) -> Result<Option<Answered>, HallRefusal>
    requires { IsSeatOf hall.now seat.old }
    ensures { IsSeatOf hall.now seat.new }
{
    match hall.collect(seat) {
        Err(refusal) if is_call_memory(refusal, refused) => hall.collect(seat),
        first => first,
    }
}

/// Whether the reply is these bytes.
fn is_data(reply: &Reply, bytes: &[u8]) -> bool {
    match reply {
        Reply::Data(data) => data.as_slice() == bytes,
        _ => false,
    }
}

/// Whether the request with this number was answered with these bytes, at a history of two entries.
fn is_answer(got: &Result<Option<Answered>, HallRefusal>, number: u32, bytes: &[u8]) -> bool {
    match got {
        Ok(Some(a)) => a.number == number && a.n == 2 && is_data(&a.reply, bytes),
        _ => false,
    }
}

/// Whether the seat's request with this number is answered so.
fn is_answered(
    hall: &Hall,
    seat: &mut ReqSeat,
    number: u32,
    bytes: &[u8],
    refused: &mut Option<Refused>,
) -> bool
    requires { IsSeatOf hall.now seat.old }
    ensures { IsSeatOf hall.now seat.new }
{
    is_answer(&collect(hall, seat, refused), number, bytes)
}

/// Whether no answer is there yet.
fn is_unanswered(hall: &Hall, seat: &mut ReqSeat, refused: &mut Option<Refused>) -> bool
    requires { IsSeatOf hall.now seat.old }
    ensures { IsSeatOf hall.now seat.new }
{
    matches!(collect(hall, seat, refused), Ok(None))
}

/// Whether a write goes through Serve, then a read of it, and the read is answered.
pub fn writes_and_reads(
    hall: &Hall,
    seat: &mut ReqSeat,
    worker: &mut WorkSeat,
    refused: &mut Option<Refused>,
) -> bool
    requires { IsSeatOf hall.now seat.old × IsSeatOf hall.now worker.old }
    ensures { IsSeatOf hall.now seat.new × IsSeatOf hall.now worker.new }
{
    is_submitted(
        hall,
        seat,
        Asked::Write,
        Submitted { number: 0, n: 0 },
        refused,
    ) && all_happen(hall, worker, &out_and_served(1), refused)
        && is_submitted(
            hall,
            seat,
            Asked::Read,
            Submitted { number: 1, n: 1 },
            refused,
        )
        && is_unanswered(hall, seat, refused)
        && all_happen(hall, worker, &out_and_served(1), refused)
        && all_happen(hall, worker, &back(1), refused)
        && is_answered(hall, seat, 1, &[1, 2, 3, 4], refused)
}

/// Whether all is quiet, the history has two entries, and these are the bytes from 40h on.
pub fn is_left(fabric: &Fabric, bytes: [u8; 4]) -> bool {
    fabric.quiet() && fabric.history().len() == 2 && fabric.bytes().get(0x40..0x44) == Some(&bytes)
}

/// [`Hall::close`]: whether the fabric is left so.
pub fn leaves(hall: Hall, seat: ReqSeat, bytes: [u8; 4]) -> bool
    requires { IsSeatOf hall seat }
{
    match hall.close(seat) {
        Ok(fabric) => is_left(&fabric, bytes),
        Err(_) => false,
    }
}

/// A hall with one requester, made again where there was no memory for it.
fn one_again(
    refused: &mut Option<Refused>,
    alloc: Global,
) -> Result<(Hall, ReqSeat, WorkSeat), OpenFault>
    ensures { IfOk result (λ t. IsSeatOf t.0 t.1 × IsSeatOf t.0 t.2) }
{
    match one_and_a_worker(small(1), alloc) {
        Err(fault) if is_hall_memory(fault, refused) => one_and_a_worker(small(1), alloc),
        first => first,
    }
}

/// Whether a hall goes so in which a write is read, of whose calls at most one is refused memory, and what was refused.
pub fn write_then_read(alloc: Global) -> (bool, Option<Refused>) {
    let mut refused = None;
    let right = match one_again(&mut refused, alloc) {
        Ok((hall, mut seat, mut worker)) => {
            writes_and_reads(&hall, &mut seat, &mut worker, &mut refused)
                && leaves(hall, seat, [1, 2, 3, 4])
        }
        Err(_) => false,
    };
    (right, refused)
}

/// Whether the addition of the first acts, and the second submits one.
fn both_add(
    hall: &Hall,
    one: &mut ReqSeat,
    two: &mut ReqSeat,
    worker: &mut WorkSeat,
    refused: &mut Option<Refused>,
) -> bool
    requires { IsSeatOf hall.now one.old × IsSeatOf hall.now two.old × IsSeatOf hall.now worker.old }
    ensures { IsSeatOf hall.now one.new × IsSeatOf hall.now two.new × IsSeatOf hall.now worker.new }
{
    is_submitted(
        hall,
        one,
        Asked::Add(1),
        Submitted { number: 0, n: 0 },
        refused,
    ) && all_happen(hall, worker, &out_and_served(1), refused)
        && is_submitted(
            hall,
            two,
            Asked::Add(1),
            Submitted { number: 0, n: 1 },
            refused,
        )
}

/// Whether both completions come back, and are taken.
fn both_are_answered(
    hall: &Hall,
    one: &mut ReqSeat,
    two: &mut ReqSeat,
    worker: &mut WorkSeat,
    refused: &mut Option<Refused>,
) -> bool
    requires { IsSeatOf hall.now one.old × IsSeatOf hall.now two.old × IsSeatOf hall.now worker.old }
    ensures { IsSeatOf hall.now one.new }
{
    all_happen(hall, worker, &back(1), refused)
        && all_happen(hall, worker, &back(2), refused)
        && is_answered(hall, one, 0, &[0, 0, 0, 0], refused)
        && is_answered(hall, two, 0, &[1, 0, 0, 0], refused)
}

/// Both seats, if they meet at this length of the history.
fn met(hall: &Hall, one: ReqSeat, two: ReqSeat, n: u64) -> Option<(ReqSeat, ReqSeat)>
    requires { IsSeatOf hall.now one × IsSeatOf hall.now two }
    ensures { IfSome result (λ t. IsSeatOf hall.now t.0 × IsSeatOf hall.now t.1) }
{
    let Ok((one, two, known)) = hall.meet(one, two) else {
        return None;
    };
    if known == n { Some((one, two)) } else { None }
}

/// The first seat, after two additions between and after which both seats meet.
fn adds_and_meets(
    hall: &Hall,
    mut one: ReqSeat,
    mut two: ReqSeat,
    worker: &mut WorkSeat,
    refused: &mut Option<Refused>,
) -> Option<ReqSeat>
    requires { IsSeatOf hall.now one × IsSeatOf hall.now two × IsSeatOf hall.now worker.old }
    ensures { IfSome result (λ s. IsSeatOf hall.now s) }
{
    if !both_add(hall, &mut one, &mut two, worker, refused) {
        return None;
    }
    let (one, two) = met(hall, one, two, 1)?;
    if !all_happen(hall, worker, &out_and_served(2), refused) {
        return None;
    }
    let (mut one, mut two) = met(hall, one, two, 2)?;
    if both_are_answered(hall, &mut one, &mut two, worker, refused) {
        Some(one)
    } else {
        None
    }
}

/// Whether two requesters of the hall add and meet.
fn two_add(
    hall: Hall,
    one: ReqSeat,
    two: ReqSeat,
    mut worker: WorkSeat,
    refused: &mut Option<Refused>,
) -> bool
    requires { IsSeatOf hall one × IsSeatOf hall two × IsSeatOf hall worker }
{
    match adds_and_meets(&hall, one, two, &mut worker, refused) {
        Some(one) => leaves(hall, one, [2, 0, 0, 0]),
        None => false,
    }
}

/// A hall with two requesters, made again where there was no memory for it.
fn two_again(
    refused: &mut Option<Refused>,
    alloc: Global,
) -> Result<(Hall, ReqSeat, ReqSeat, WorkSeat), OpenFault>
    ensures { IfOk result (λ t. IsSeatOf t.0 t.1 × IsSeatOf t.0 t.2 × IsSeatOf t.0 t.3) }
{
    match two_and_a_worker(small(2), alloc) {
        Err(fault) if is_hall_memory(fault, refused) => two_and_a_worker(small(2), alloc),
        first => first,
    }
}

/// Whether a hall goes so in which two requesters add and meet, of whose calls at most one is refused memory, and what
/// was refused.
pub fn add_and_meet(alloc: Global) -> (bool, Option<Refused>) {
    let mut refused = None;
    let right = match two_again(&mut refused, alloc) {
        Ok((hall, one, two, worker)) => two_add(hall, one, two, worker, &mut refused),
        Err(_) => false,
    };
    (right, refused)
}
