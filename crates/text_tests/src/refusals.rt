//! How refusals and faults are told as text.
use crate::rows::{Row, all_right};
use dllp_core::Class;
use fabric_core::{ConfigFault, Refusal};
use lane_core::LaneRefusal;
use link_replay::AckFault;
use requester_core::{CompletionFault, SubmitRefusal};
use std::alloc::Global;
use std::fmt::Display;
use switch_core::RouteFault;
use tlp_core::TlpFault;

/// Whether the value is told so.
fn is_told<T: Display>(alloc: Global, value: &T, want: &str) -> bool {
    match format!(in alloc; "{value}") {
        Ok(text) => text.as_str() == want,
        Err(_) => false,
    }
}

/// A refusal or a fault.
#[derive(Clone, Copy)]
enum Cause {
    Submit(SubmitRefusal),
    Completion(CompletionFault),
    Event(Refusal),
    Config(ConfigFault),
}

/// A cause, and its text.
struct Telling(Cause, &'static str);

impl Row for Telling {
    fn is_right(&self, alloc: Global) -> bool {
        match self.0 {
            Cause::Submit(refusal) => is_told(alloc, &refusal, self.1),
            Cause::Completion(fault) => is_told(alloc, &fault, self.1),
            Cause::Event(refusal) => is_told(alloc, &refusal, self.1),
            Cause::Config(fault) => is_told(alloc, &fault, self.1),
        }
    }
}

const UNALIGNED: SubmitRefusal = SubmitRefusal::Profile(TlpFault::Unaligned);

static TOLD: [Telling; 23] = [
    Telling(Cause::Submit(UNALIGNED), "Profile Unaligned"),
    Telling(Cause::Submit(SubmitRefusal::TagsUsed), "TagsUsed"),
    Telling(Cause::Submit(SubmitRefusal::NumbersUsed), "NumbersUsed"),
    Telling(Cause::Completion(CompletionFault::Unexpected), "Unexpected"),
    Telling(Cause::Completion(CompletionFault::Mismatch), "Mismatch"),
    Telling(Cause::Event(Refusal::NoSuchPart), "NoSuchPart"),
    Telling(Cause::Event(Refusal::Idle), "Idle"),
    Telling(Cause::Event(Refusal::NotTakeable), "NotTakeable"),
    Telling(
        Cause::Event(Refusal::Submit(UNALIGNED)),
        "Profile Unaligned",
    ),
    Telling(
        Cause::Event(Refusal::Submit(SubmitRefusal::TagsUsed)),
        "TagsUsed",
    ),
    Telling(
        Cause::Event(Refusal::Lane(LaneRefusal::NoCredits(Class::NonPosted))),
        "NoCredits",
    ),
    Telling(
        Cause::Event(Refusal::Lane(LaneRefusal::WindowFull)),
        "WindowFull",
    ),
    Telling(Cause::Event(Refusal::Lane(LaneRefusal::Memory)), "Memory"),
    Telling(Cause::Event(Refusal::Memory), "Memory"),
    Telling(
        Cause::Event(Refusal::Protocol(AckFault::NotOutstanding)),
        "Protocol NotOutstanding",
    ),
    Telling(
        Cause::Event(Refusal::Strange(CompletionFault::Mismatch)),
        "Strange Mismatch",
    ),
    Telling(
        Cause::Event(Refusal::Route(RouteFault::NoPort)),
        "Route NoPort",
    ),
    Telling(Cause::Config(ConfigFault::Requesters), "Requesters"),
    Telling(Cause::Config(ConfigFault::Size), "Size"),
    Telling(Cause::Config(ConfigFault::Base), "Base"),
    Telling(Cause::Config(ConfigFault::Credits), "Credits"),
    Telling(Cause::Config(ConfigFault::Block), "Block"),
    Telling(Cause::Config(ConfigFault::Memory), "Memory"),
];

#[test]
fn told(rt: HostRuntime) {
    assert!(rt; all_right(&TOLD, rt.alloc()));
}
