//! What a monitor knows of one requester.
ghost use Rattle.std.specs.Prelude.{◌≡◌, ◌≤◌, ◌<◌, ◌%◌, IfNone, is_some, length};
ghost use Rattle.tlp_core.specs.Limits.{max_payload};
ghost use Rattle.requester_core.specs.RequesterView as requesting;
ghost use Rattle.monitor_ports.specs.Watched as spec;

use crate::fault::MonitorFault;
use requester_core::NUMBERS;
use seq_memory::{Reply, enabled_bytes};
use tlp_core::{Body, Kind, Payload, Status, TlpRef, payload_of};

/// The number of tags of 8 bits.
const TAGS: usize = 256;

/// A request that waits for its completion.
#[derive(Clone, Copy)]
pub struct OpenRequest {
    /// Its number among the requests of its requester.
    pub number: u32,
    /// The bytes of data of its completion, if it is served: 4 to 4096.
    pub size: u16,
    /// First DW BE and Last DW BE of a read, none of an AtomicOp.
    pub enables: Option<(u8, u8)>,
}

/// What a monitor knows of one requester.
#[derive(Clone, Copy)]
pub struct Watched {
    /// The Requester ID of its first request, none before that.
    pub id: Option<u16>,
    /// The number of its next request.
    pub next: u32,
    /// The request that is open under each tag.
    pub open_tags: [Option<OpenRequest>; TAGS],
}

/// The bytes of data of a request's completion, if it is served.
fn size_for(kind: Kind, dw: u16) -> u16
    requires { dw ≤ 1024 }
    ensures { result ≡ requesting.size_for kind dw }
{
    match kind {
        Kind::Cas => 2 * dw,
        _ => 4 * dw,
    }
}

/// First DW BE and Last DW BE of a read.
fn enables_of(packet: &TlpRef<'_>) -> Option<(u8, u8)>
    ensures { result ≡ spec.enables_of packet.now.kind packet.now.body }
{
    match (packet.header.kind, packet.header.body) {
        (Kind::MemoryRead, Body::Request { first, last, .. }) => Some((first, last)),
        _ => None,
    }
}

/// The data as the requester sees it.
fn seen(enables: Option<(u8, u8)>, bytes: &[u8]) -> Payload
    requires some { 4 ≤ length bytes.now }
    requires few { length bytes.now ≤ max_payload }
    requires whole { length bytes.now % 4 ≡ 0 }
    ensures { result.items ≡ spec.seen enables bytes.now }
{
    match enables {
        Some((first, last)) => enabled_bytes(bytes, first, last),
        None => payload_of(bytes),
    }
}

/// The data of a completion, if it has the size that the request needs.
fn data_for(request: &OpenRequest, completion: &TlpRef<'_>) -> Option<Reply>
    requires { completion.now.kind ≡ Kind.CompletionData }
    ensures { result ≡ spec.data_for request.now completion.now.payload }
{
    let bytes = completion.payload;
    if bytes.len() != usize::from(request.size) {
        return None;
    }
    Some(Reply::Data(seen(request.enables, bytes)))
}

/// The reply that a completion carries to a request, if it fits.
fn reply_to(request: &OpenRequest, completion: &TlpRef<'_>) -> Option<Reply>
    ensures { result ≡ spec.reply_to request.now completion.now }
{
    let Body::Completion { status, .. } = completion.header.body else {
        return None;
    };
    match (completion.header.kind, status) {
        (Kind::CompletionData, Status::Success) => data_for(request, completion),
        (Kind::Completion, Status::Unsupported) => Some(Reply::Unsupported),
        (Kind::Completion, Status::Aborted) => Some(Reply::Aborted),
        _ => None,
    }
}

impl Watched {
    /// A requester that has sent nothing.
    pub(crate) fn new() -> Watched
        ensures { result ≡ spec.fresh }
    {
        Watched {
            id: None,
            next: 0,
            open_tags: [None; TAGS],
        }
    }

    /// Whether the Requester ID is not that of the first request.
    fn is_other(&self, id: u16) -> bool
        ensures { result ≡ spec.is_other self.now.id id }
    {
        match self.id {
            Some(own) => own != id,
            None => false,
        }
    }

    /// Whether a request is open under the tag.
    pub(crate) fn is_open(&self, tag: u8) -> bool
        ensures { result ≡ is_some (spec.open_at self.now tag) }
    {
        self.open_tags[usize::from(tag)].is_some()
    }

    /// Whether the request needs a tag that is open.
    fn needs_open_tag(&self, request: &TlpRef<'_>) -> bool
        ensures { result ≡ spec.needs_open_tag self.now request.now }
    {
        match request.header.kind {
            Kind::MemoryWrite => false,
            _ => self.is_open(request.header.tag),
        }
    }

    /// Why the next request can't be this one.
    pub(crate) fn request_fault(&self, request: &TlpRef<'_>) -> Option<MonitorFault>
        ensures value { result ≡ spec.request_fault self.now request.now }
        ensures room { IfNone result (self.now.next < 4294967295) }
    {
        if self.is_other(request.header.requester) {
            return Some(MonitorFault::OtherRequester);
        }
        if self.needs_open_tag(request) {
            return Some(MonitorFault::TagInUse);
        }
        if self.next == NUMBERS {
            return Some(MonitorFault::NumbersUsed);
        }
        None
    }

    /// The next request is this one.
    pub(crate) fn ask(&mut self, request: &TlpRef<'_>)
        requires { self.old.next < 4294967295 }
        ensures { self.new ≡ spec.after_request self.old request.now }
    {
        let opened = OpenRequest {
            number: self.next,
            size: size_for(request.header.kind, request.header.length),
            enables: enables_of(request),
        };
        self.id = Some(request.header.requester);
        self.next += 1;
        match request.header.kind {
            Kind::MemoryWrite => {}
            _ => self.open_tags[usize::from(request.header.tag)] = Some(opened),
        }
    }

    /// The number of the request that the completion answers, and the reply, or why it answers none.
    pub(crate) fn answered(&self, completion: &TlpRef<'_>) -> Result<(u32, Reply), MonitorFault>
        ensures { result ≡ spec.answered self.now completion.now }
    {
        if self.is_other(completion.header.requester) {
            return Err(MonitorFault::OtherRequester);
        }
        let Some(asked) = self.open_tags[usize::from(completion.header.tag)] else {
            return Err(MonitorFault::Unexpected);
        };
        match reply_to(&asked, completion) {
            Some(reply) => Ok((asked.number, reply)),
            None => Err(MonitorFault::Mismatch),
        }
    }

    /// The tag is free.
    pub(crate) fn close(&mut self, tag: u8)
        ensures { self.new ≡ spec.closed self.old tag }
    {
        self.open_tags[usize::from(tag)] = None;
    }

    /// How many requests are open.
    pub(crate) fn open_count(&self) -> usize
        ensures value { result ≡ spec.open_count self.now }
        ensures range { result ≤ 256 }
    {
        let mut count = 0;
        for tag in &self.open_tags {
            if tag.is_some() {
                count += 1;
            }
        }
        count
    }
}
