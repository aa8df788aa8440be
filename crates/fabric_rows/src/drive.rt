//! Steps of scripts as rows of tables, and the calls of a fabric, one in each function.
use arrayvec::ArrayVec;
use dllp_core::{Class, Dllp};
use fabric_core::{ANSWER_ROOM, Config, ConfigFault, Event, Fabric, LaneName, Refusal, Seen};
use history_words::Trace;
use lane_core::{Arrival, DllpKind, DllpSeen, Fate, LaneCredits};
use link_replay::Reception;
use requester_core::Answer;
use seq_memory::Reply;
use seq12::Seq12;
use std::alloc::Global;
use tlp_core::{Op, Width};

/// One requester and 4096 bytes.
pub const SMALL: Config = Config {
    requesters: 1,
    base: 0,
    size: 4096,
    credits: LaneCredits::DEFAULT,
    block: 64,
};

/// An operation of requester 1.
#[derive(Clone, Copy)]
pub enum Asked {
    /// Adds this to the word at 40h.
    Add(u8),
    /// Adds 1 to the word at 42h.
    AddUnaligned,
    /// Reads the DW at 40h.
    Read,
    /// Writes 01 02 03 04 at 40h.
    Write,
}

/// An event.
#[derive(Clone, Copy)]
pub enum Act {
    Submit(Asked),
    Transmit(LaneName),
    Deliver(LaneName, Fate),
    SendDllp(LaneName, DllpKind),
    DeliverDllp(LaneName, Fate),
    Timer(LaneName),
    Retrained(LaneName),
    Forward(LaneName, usize),
    Serve(usize),
    Collect(u8),
}

/// A DLLP.
#[derive(Clone, Copy)]
pub enum Sign {
    Ack(u8),
    Nak(u8),
    Update(Class, u8, u16),
}

/// What is told of an event.
#[derive(Clone, Copy)]
pub enum Told {
    Submitted(u32),
    Sent(u8),
    Answered(Reception),
    /// The packet was lost.
    Gone,
    SentDllp(Sign),
    Took(Sign),
    /// The DLLP was lost.
    DllpGone,
    Back(usize),
    Retrained,
    To(u8),
    At(usize),
    /// The number of the request, and the data.
    Collected(u32, [u8; 4]),
    Refused(Refusal),
}

/// An event, and what has to be told of it.
pub type Step = (Act, Told);

fn bytes_of(items: &[u8]) -> ArrayVec<u8, 128> {
    let mut bytes = ArrayVec::new();
    let _ = bytes.try_extend_from_slice(items);
    bytes
}

fn add(address: u64, operand: u8) -> Op {
    Op::FetchAdd {
        address,
        width: Width::Four,
        operand: u128::from(operand),
    }
}

pub fn operation_of(asked: Asked) -> Op {
    match asked {
        Asked::Add(operand) => add(0x40, operand),
        Asked::AddUnaligned => add(0x42, 1),
        Asked::Read => Op::Read {
            address: 0x40,
            dw: 1,
            first: 15,
            last: 0,
        },
        Asked::Write => Op::Write {
            address: 0x40,
            first: 15,
            last: 0,
            bytes: bytes_of(&[1, 2, 3, 4]),
        },
    }
}

pub fn event_of(act: Act) -> Event {
    match act {
        Act::Submit(asked) => Event::Submit(1, operation_of(asked)),
        Act::Transmit(lane) => Event::Transmit(lane),
        Act::Deliver(lane, fate) => Event::Deliver(lane, fate),
        Act::SendDllp(lane, kind) => Event::SendDllp(lane, kind),
        Act::DeliverDllp(lane, fate) => Event::DeliverDllp(lane, fate),
        Act::Timer(lane) => Event::Timer(lane),
        Act::Retrained(lane) => Event::Retrained(lane),
        Act::Forward(lane, place) => Event::Forward(lane, place),
        Act::Serve(place) => Event::Serve(place),
        Act::Collect(port) => Event::Collect(port),
    }
}

fn number_of(number: u8) -> Seq12 {
    Seq12::new(u16::from(number))
}

fn dllp_of(sign: Sign) -> Dllp {
    match sign {
        Sign::Ack(number) => Dllp::Ack(number_of(number)),
        Sign::Nak(number) => Dllp::Nak(number_of(number)),
        Sign::Update(class, headers, data) => Dllp::Update(class, headers, data),
    }
}

fn answer(number: u32, bytes: &[u8]) -> Seen {
    let reply = Reply::Data(bytes_of(bytes));
    Seen::Collected(Answer { number, reply })
}

pub fn told_of(told: Told) -> Result<Seen, Refusal> {
    match told {
        Told::Submitted(number) => Ok(Seen::Submitted(number)),
        Told::Sent(number) => Ok(Seen::Sent(number_of(number))),
        Told::Answered(reception) => Ok(Seen::Delivered(Arrival::Answered(reception))),
        Told::Gone => Ok(Seen::Delivered(Arrival::Gone)),
        Told::SentDllp(sign) => Ok(Seen::SentDllp(dllp_of(sign))),
        Told::Took(sign) => Ok(Seen::SeenDllp(DllpSeen::Took(dllp_of(sign)))),
        Told::DllpGone => Ok(Seen::SeenDllp(DllpSeen::Gone)),
        Told::Back(places) => Ok(Seen::Back(places)),
        Told::Retrained => Ok(Seen::Retrained),
        Told::To(port) => Ok(Seen::To(port)),
        Told::At(place) => Ok(Seen::At(place)),
        Told::Collected(number, bytes) => Ok(answer(number, &bytes)),
        Told::Refused(refusal) => Err(refusal),
    }
}

/// The events of a script; none where there is no memory for them.
pub fn events_of(script: &[Step], alloc: Global) -> Option<Vec<Event>> {
    let mut events = Vec::new(alloc);
    for (act, _) in script {
        if events.push(event_of(*act)).is_err() {
            return None;
        }
    }
    Some(events)
}

/// [`Fabric::new`], taken apart and joined again.
pub fn made(config: Config, alloc: Global) -> Result<Fabric, ConfigFault> {
    match Fabric::new(config, alloc) {
        Ok(fabric) => Ok(Fabric::of_parts(fabric.into_parts())),
        Err(fault) => Err(fault),
    }
}

/// [`Fabric::step`].
pub fn step(fabric: &mut Fabric, act: Act) -> Result<Seen, Refusal> {
    let mut room = ANSWER_ROOM;
    match fabric.step(&event_of(act).lend(), &mut room) {
        Ok(seen) => Ok(seen.to_owned()),
        Err(refusal) => Err(refusal),
    }
}

/// [`Fabric::run`]: the trace, and where and why it ended early.
pub fn run(
    fabric: &mut Fabric,
    events: &[Event],
    alloc: Global,
) -> (Trace, Option<(usize, Refusal)>) {
    match fabric.run(events, alloc) {
        Ok(trace) => (trace, None),
        Err(fault) => (fault.trace, Some((fault.place, fault.refusal))),
    }
}

/// [`Fabric::quiet`].
pub fn quiet(fabric: &Fabric) -> bool {
    fabric.quiet()
}

/// Whether the step goes as it should.
pub fn steps_so(fabric: &mut Fabric, row: &Step) -> bool {
    step(fabric, row.0) == told_of(row.1)
}
