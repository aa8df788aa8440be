//! Worked lines of scripts, and lines of no known form.
use crate::rows::{Row, all_right};
use arrayvec::{ArrayString, ArrayVec};
use dllp_core::{Class, Dllp};
use fabric_core::{ConfigFault, Event, Refusal, Seen};
use lane_core::{Arrival, DllpSeen, LaneRefusal};
use link_replay::{AckFault, Reception};
use requester_core::{Answer, CompletionFault, SubmitRefusal};
use script_text::{Line, read_line, write_config_fault, write_refusal, write_seen};
use seq_memory::Reply;
use seq12::Seq12;
use std::alloc::Global;
use switch_core::RouteFault;
use tlp_core::{MAX_PAYLOAD, TlpFault};

/// The event that the line tells.
fn told_by(line: &str) -> Option<Event> {
    match read_line(line.as_bytes(), &mut [0; MAX_PAYLOAD]) {
        Ok(Line::Event(event)) => Some(event.to_owned()),
        _ => None,
    }
}

/// What is seen of an event.
#[derive(Clone, Copy)]
enum Sight {
    Submitted(u32),
    Sent(u16),
    Delivered(Arrival),
    SentAck(u16),
    SentNak(u16),
    Took(Class, u8, u16),
    /// The DLLP was lost.
    DllpGone,
    Back(usize),
    Retrained,
    To(u8),
    At(usize),
    /// The number of the request, and four bytes of zeros.
    Collected(u32),
}

fn number_of(number: u16) -> Seq12 {
    Seq12::new(number % 4096)
}

fn zeros() -> ArrayVec<u8, 128> {
    let mut bytes = ArrayVec::new();
    let _ = bytes.try_extend_from_slice(&[0; 4]);
    bytes
}

fn collected(number: u32) -> Seen {
    let reply = Reply::Data(zeros());
    Seen::Collected(Answer { number, reply })
}

fn took(dllp: Dllp) -> Seen {
    Seen::SeenDllp(DllpSeen::Took(dllp))
}

fn seen_of(sight: Sight) -> Seen {
    match sight {
        Sight::Submitted(number) => Seen::Submitted(number),
        Sight::Sent(number) => Seen::Sent(number_of(number)),
        Sight::Delivered(arrival) => Seen::Delivered(arrival),
        Sight::SentAck(number) => Seen::SentDllp(Dllp::Ack(number_of(number))),
        Sight::SentNak(number) => Seen::SentDllp(Dllp::Nak(number_of(number))),
        Sight::Took(class, headers, data) => took(Dllp::Update(class, headers, data)),
        Sight::DllpGone => Seen::SeenDllp(DllpSeen::Gone),
        Sight::Back(places) => Seen::Back(places),
        Sight::Retrained => Seen::Retrained,
        Sight::To(port) => Seen::To(port),
        Sight::At(place) => Seen::At(place),
        Sight::Collected(number) => collected(number),
    }
}

/// Whether this is written of the event.
fn is_written(event: &Event, sight: Sight, text: &str) -> bool {
    let mut line = ArrayString::new();
    write_seen(&event.lend(), &seen_of(sight).lend(), &mut line);
    line.as_str() == text
}

/// An event's line, what is seen of it, and what is written of that.
struct Tells(&'static str, Sight, &'static str);

impl Row for Tells {
    fn is_right(&self, _: Global) -> bool {
        match told_by(self.0) {
            Some(event) => is_written(&event, self.1, self.2),
            None => false,
        }
    }
}

static SEEN: [Tells; 17] = [
    Tells("submit 1 add 40 07000000", Sight::Submitted(0), "sub 1 0"),
    Tells("transmit up1", Sight::Sent(0), "sent 000"),
    Tells("transmit up1", Sight::Sent(0xFA9), "sent FA9"),
    Tells(
        "deliver up1 good",
        Sight::Delivered(Arrival::Answered(Reception::Accept)),
        "accept",
    ),
    Tells(
        "deliver up1 good",
        Sight::Delivered(Arrival::Answered(Reception::Duplicate)),
        "duplicate",
    ),
    Tells(
        "deliver up1 failed",
        Sight::Delivered(Arrival::Answered(Reception::NakNow)),
        "nak",
    ),
    Tells(
        "deliver up1 good",
        Sight::Delivered(Arrival::Answered(Reception::Quiet)),
        "quiet",
    ),
    Tells("deliver up1 lost", Sight::Delivered(Arrival::Gone), "gone"),
    Tells("dllp up1 ack", Sight::SentAck(0), "00000000"),
    Tells("dllp up1 ack", Sight::SentNak(0xFFF), "10000FFF"),
    Tells(
        "deliver-dllp up1 good",
        Sight::Took(Class::NonPosted, 2, 3),
        "took 90008003",
    ),
    Tells("deliver-dllp up1 lost", Sight::DllpGone, "gone"),
    Tells("timer up1", Sight::Back(1), "replay 1"),
    Tells("retrained up1", Sight::Retrained, "retrained"),
    Tells("forward out 0", Sight::To(1), "to 1"),
    Tells("serve 0", Sight::At(17), "at 17"),
    Tells(
        "collect 7",
        Sight::Collected(4_294_967_295),
        "ans 7 4294967295 data 00000000",
    ),
];

#[test]
fn seen(rt: HostRuntime) {
    assert!(rt; all_right(&SEEN, rt.alloc()));
}

/// A refusal, and its name.
struct Refused(Refusal, &'static str);

impl Row for Refused {
    fn is_right(&self, _: Global) -> bool {
        let mut line = ArrayString::new();
        write_refusal(&self.0, &mut line);
        line.as_str() == self.1
    }
}

static REFUSALS: [Refused; 15] = [
    Refused(Refusal::NoSuchPart, "NoSuchPart"),
    Refused(Refusal::Idle, "Idle"),
    Refused(Refusal::NotTakeable, "NotTakeable"),
    Refused(
        Refusal::Submit(SubmitRefusal::Profile(TlpFault::Unaligned)),
        "Profile Unaligned",
    ),
    Refused(Refusal::Submit(SubmitRefusal::TagsUsed), "TagsUsed"),
    Refused(Refusal::Submit(SubmitRefusal::NumbersUsed), "NumbersUsed"),
    Refused(
        Refusal::Lane(LaneRefusal::NoCredits(Class::Posted)),
        "NoCredits P",
    ),
    Refused(
        Refusal::Lane(LaneRefusal::NoCredits(Class::NonPosted)),
        "NoCredits NP",
    ),
    Refused(
        Refusal::Lane(LaneRefusal::NoCredits(Class::Completion)),
        "NoCredits Cpl",
    ),
    Refused(Refusal::Lane(LaneRefusal::WindowFull), "WindowFull"),
    Refused(Refusal::Lane(LaneRefusal::Memory), "Memory"),
    Refused(Refusal::Memory, "Memory"),
    Refused(Refusal::Protocol(AckFault::NotOutstanding), "Protocol"),
    Refused(Refusal::Strange(CompletionFault::Mismatch), "Strange"),
    Refused(Refusal::Route(RouteFault::NoPort), "Route"),
];

#[test]
fn refusals(rt: HostRuntime) {
    assert!(rt; all_right(&REFUSALS, rt.alloc()));
}

/// A fault of a configuration, and its name.
struct Fault(ConfigFault, &'static str);

impl Row for Fault {
    fn is_right(&self, _: Global) -> bool {
        let mut line = ArrayString::new();
        write_config_fault(&self.0, &mut line);
        line.as_str() == self.1
    }
}

static FAULTS: [Fault; 6] = [
    Fault(ConfigFault::Requesters, "Requesters"),
    Fault(ConfigFault::Size, "Size"),
    Fault(ConfigFault::Base, "Base"),
    Fault(ConfigFault::Credits, "Credits"),
    Fault(ConfigFault::Block, "Block"),
    Fault(ConfigFault::Memory, "Memory"),
];

#[test]
fn faults(rt: HostRuntime) {
    assert!(rt; all_right(&FAULTS, rt.alloc()));
}
