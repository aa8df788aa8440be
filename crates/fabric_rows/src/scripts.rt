//! Worked scripts.
use crate::drive::{Act, Asked, Sign, Step, Told};
use dllp_core::Class;
use fabric_core::{LaneName, Refusal};
use lane_core::{DllpKind, Fate, LaneRefusal};
use link_replay::Reception;
use requester_core::SubmitRefusal;
use tlp_core::TlpFault;

const UP: LaneName = LaneName::Up(1);

const DOWN: LaneName = LaneName::Down(1);

const IN: LaneName = LaneName::Inward;

const OUT: LaneName = LaneName::Outward;

const ADD: Act = Act::Submit(Asked::Add(1));

const READ: Act = Act::Submit(Asked::Read);

const WRITE: Act = Act::Submit(Asked::Write);

/// An Ack is lost, the packet is sent again, and the sum is answered.
pub const LOST_ACK: [Step; 18] = [
    (Act::Submit(Asked::Add(7)), Told::Submitted(0)),
    (Act::Transmit(UP), Told::Sent(0)),
    (
        Act::Deliver(UP, Fate::Good),
        Told::Answered(Reception::Accept),
    ),
    (
        Act::SendDllp(UP, DllpKind::Answer),
        Told::SentDllp(Sign::Ack(0)),
    ),
    (Act::DeliverDllp(UP, Fate::Lost), Told::DllpGone),
    (Act::Timer(UP), Told::Back(1)),
    (Act::Transmit(UP), Told::Sent(0)),
    (
        Act::Deliver(UP, Fate::Good),
        Told::Answered(Reception::Duplicate),
    ),
    (Act::Forward(UP, 0), Told::To(0)),
    (Act::Transmit(IN), Told::Sent(0)),
    (
        Act::Deliver(IN, Fate::Good),
        Told::Answered(Reception::Accept),
    ),
    (Act::Serve(0), Told::At(0)),
    (Act::Transmit(OUT), Told::Sent(0)),
    (
        Act::Deliver(OUT, Fate::Good),
        Told::Answered(Reception::Accept),
    ),
    (Act::Forward(OUT, 0), Told::To(1)),
    (Act::Transmit(DOWN), Told::Sent(0)),
    (
        Act::Deliver(DOWN, Fate::Good),
        Told::Answered(Reception::Accept),
    ),
    (Act::Collect(1), Told::Collected(0, [0, 0, 0, 0])),
];

/// The second of three packets fails; it and the third are sent again, and all three go on.
pub const NAK_AND_REPLAY: [Step; 19] = [
    (ADD, Told::Submitted(0)),
    (ADD, Told::Submitted(1)),
    (ADD, Told::Submitted(2)),
    (Act::Transmit(UP), Told::Sent(0)),
    (Act::Transmit(UP), Told::Sent(1)),
    (Act::Transmit(UP), Told::Sent(2)),
    (
        Act::Deliver(UP, Fate::Good),
        Told::Answered(Reception::Accept),
    ),
    (
        Act::Deliver(UP, Fate::Failed),
        Told::Answered(Reception::NakNow),
    ),
    (
        Act::Deliver(UP, Fate::Good),
        Told::Answered(Reception::Quiet),
    ),
    (
        Act::SendDllp(UP, DllpKind::Answer),
        Told::SentDllp(Sign::Nak(0)),
    ),
    (Act::DeliverDllp(UP, Fate::Good), Told::Took(Sign::Nak(0))),
    (Act::Transmit(UP), Told::Sent(1)),
    (
        Act::Deliver(UP, Fate::Good),
        Told::Answered(Reception::Accept),
    ),
    (Act::Transmit(UP), Told::Sent(2)),
    (
        Act::Deliver(UP, Fate::Good),
        Told::Answered(Reception::Accept),
    ),
    (
        Act::SendDllp(UP, DllpKind::Answer),
        Told::SentDllp(Sign::Ack(2)),
    ),
    (Act::Forward(UP, 0), Told::To(0)),
    (Act::Forward(UP, 0), Told::To(0)),
    (Act::Forward(UP, 0), Told::To(0)),
];

/// A write acts before the read that was submitted before it, which answers what it wrote.
pub const WRITE_PASSES_READ: [Step; 20] = [
    (READ, Told::Submitted(0)),
    (WRITE, Told::Submitted(1)),
    (Act::Transmit(UP), Told::Sent(0)),
    (Act::Transmit(UP), Told::Sent(1)),
    (
        Act::Deliver(UP, Fate::Good),
        Told::Answered(Reception::Accept),
    ),
    (
        Act::Deliver(UP, Fate::Good),
        Told::Answered(Reception::Accept),
    ),
    (Act::Forward(UP, 1), Told::To(0)),
    (Act::Forward(UP, 0), Told::To(0)),
    (Act::Transmit(IN), Told::Sent(0)),
    (Act::Transmit(IN), Told::Sent(1)),
    (
        Act::Deliver(IN, Fate::Good),
        Told::Answered(Reception::Accept),
    ),
    (
        Act::Deliver(IN, Fate::Good),
        Told::Answered(Reception::Accept),
    ),
    (Act::Serve(0), Told::At(0)),
    (Act::Serve(0), Told::At(1)),
    (Act::Transmit(OUT), Told::Sent(0)),
    (
        Act::Deliver(OUT, Fate::Good),
        Told::Answered(Reception::Accept),
    ),
    (Act::Forward(OUT, 0), Told::To(1)),
    (Act::Transmit(DOWN), Told::Sent(0)),
    (
        Act::Deliver(DOWN, Fate::Good),
        Told::Answered(Reception::Accept),
    ),
    (Act::Collect(1), Told::Collected(0, [1, 2, 3, 4])),
];

/// A read arrives at the switch behind a write, and may not pass it.
pub const READ_BEHIND_WRITE: [Step; 8] = [
    (WRITE, Told::Submitted(0)),
    (READ, Told::Submitted(1)),
    (Act::Transmit(UP), Told::Sent(0)),
    (Act::Transmit(UP), Told::Sent(1)),
    (
        Act::Deliver(UP, Fate::Good),
        Told::Answered(Reception::Accept),
    ),
    (
        Act::Deliver(UP, Fate::Good),
        Told::Answered(Reception::Accept),
    ),
    (Act::Forward(UP, 1), Told::Refused(Refusal::NotTakeable)),
    (Act::Forward(UP, 0), Told::To(0)),
];

/// Under the least credits: they run out, and come back.
pub const CREDITS: [Step; 8] = [
    (ADD, Told::Submitted(0)),
    (
        ADD,
        Told::Refused(Refusal::Lane(LaneRefusal::NoCredits(Class::NonPosted))),
    ),
    (Act::Transmit(UP), Told::Sent(0)),
    (
        Act::Deliver(UP, Fate::Good),
        Told::Answered(Reception::Accept),
    ),
    (Act::Forward(UP, 0), Told::To(0)),
    (
        Act::SendDllp(UP, DllpKind::Update(Class::NonPosted)),
        Told::SentDllp(Sign::Update(Class::NonPosted, 2, 3)),
    ),
    (
        Act::DeliverDllp(UP, Fate::Good),
        Told::Took(Sign::Update(Class::NonPosted, 2, 3)),
    ),
    (ADD, Told::Submitted(1)),
];

/// A link stops when a packet is lost four times, and is retrained.
pub const STOPPED_LINK: [Step; 17] = [
    (ADD, Told::Submitted(0)),
    (Act::Retrained(UP), Told::Refused(Refusal::Idle)),
    (Act::Transmit(UP), Told::Sent(0)),
    (Act::Deliver(UP, Fate::Lost), Told::Gone),
    (Act::Timer(UP), Told::Back(1)),
    (Act::Transmit(UP), Told::Sent(0)),
    (Act::Deliver(UP, Fate::Lost), Told::Gone),
    (Act::Timer(UP), Told::Back(1)),
    (Act::Transmit(UP), Told::Sent(0)),
    (Act::Deliver(UP, Fate::Lost), Told::Gone),
    (Act::Timer(UP), Told::Back(1)),
    (Act::Transmit(UP), Told::Sent(0)),
    (Act::Deliver(UP, Fate::Lost), Told::Gone),
    (Act::Timer(UP), Told::Back(1)),
    (Act::Transmit(UP), Told::Refused(Refusal::Idle)),
    (Act::Retrained(UP), Told::Retrained),
    (Act::Transmit(UP), Told::Sent(0)),
];

/// There is no requester at port 8.
pub const NO_PORT_8: [Step; 2] = [
    (ADD, Told::Submitted(0)),
    (Act::Collect(8), Told::Refused(Refusal::NoSuchPart)),
];

/// No completion has arrived.
pub const IDLE_COLLECT: [Step; 2] = [
    (ADD, Told::Submitted(0)),
    (Act::Collect(1), Told::Refused(Refusal::Idle)),
];

/// What is refused by a new fabric.
pub const REFUSALS: [Step; 7] = [
    (
        Act::Submit(Asked::AddUnaligned),
        Told::Refused(Refusal::Submit(SubmitRefusal::Profile(TlpFault::Unaligned))),
    ),
    (Act::Collect(2), Told::Refused(Refusal::NoSuchPart)),
    (Act::Forward(IN, 0), Told::Refused(Refusal::NoSuchPart)),
    (Act::Timer(UP), Told::Refused(Refusal::Idle)),
    (Act::Collect(1), Told::Refused(Refusal::Idle)),
    (Act::Forward(UP, 0), Told::Refused(Refusal::NotTakeable)),
    (Act::Serve(0), Told::Refused(Refusal::NotTakeable)),
];
