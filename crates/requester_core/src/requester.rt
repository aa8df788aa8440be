//! Numbers and tags.
ghost use Rattle.std.specs.Prelude.{◌≡◌, ◌+◌, ◌*◌, ◌<◌, ◌≤◌, ◌==◌, if◌then◌else◌, Some, None, length};
ghost use Rattle.tlp_core.specs.Limits.{most_requesters};
ghost use Rattle.seq_memory.specs.declared.reply.ReplyOf.TheVariants as Reply;

use crate::answer::Answer;
use crate::fault::{CompletionFault, SubmitRefusal};
use crate::request::request_for;
use seq_memory::Reply;
use std::marker::Model;
use tlp_core::{Body, Kind, OpRef, Payload, Status, Tlp, payload_of};

/// How many tags a requester has: those of 8 bits.
pub const TAGS: usize = 256;

/// How many requests a requester can ask for: their numbers are 0 to `NUMBERS - 1`.
pub const NUMBERS: u32 = 4_294_967_295;

/// A request that waits for its completion.
#[derive(Clone, Copy)]
pub struct OpenRequest {
    /// Its number.
    pub number: u32,
    /// How many bytes of data its completion has, where it is served: 4 to 4096.
    pub size: u16,
}

/// A requester: its port, the next number, and what is open under each tag.
#[derive(Drop)]
pub struct Requester {
    port: u8,
    next: u32,
    open_tags: [Option<OpenRequest>; TAGS],
    /// The lowest free tag, [`TAGS`] where all are open.
    lowest: usize,
}

impl Model for Requester {
    ghost use Rattle.std.specs.Prelude.{◌≡◌};
    ghost use Rattle.requester_core.specs.RequesterView.{RequesterView, IsSound, lowest_free};

    ghost Value = { RequesterView };

    ghost view = { λ r. record { port = r.port; next = r.next; open_tags = r.open_tags } };

    ghost invariant = { λ r. IsSound (record { port = r.port; next = r.next; open_tags = r.open_tags }) × (r.lowest ≡ lowest_free r.open_tags) };
}

impl Requester {
    ghost use Rattle.std.specs.Prelude.{IfOk, IfErr, OnOk, slice_set};
    ghost use Rattle.tlp_core.specs.Operation.{op_of, op_fault};
    ghost use Rattle.requester_core.specs.Request.{request_for};
    ghost use Rattle.requester_core.specs.RequesterView.{fresh, prepared, after_opened, finished, after_finish, completed, IsSound, IsPrepared};

    /// The requester of a port, 1 to 7, that has asked for nothing.
    pub fn new(port: u8) -> Requester
        requires some { 1 ≤ port }
        requires few { port ≤ most_requesters }
        ensures { result ≡ fresh port }
    {
        Requester {
            port,
            next: 0,
            open_tags: no_tags(),
            lowest: 0,
        }
    }

    /// The port, 1 to 7. The Requester ID is 256 times that.
    pub fn port(&self) -> u8
        ensures value { result ≡ self.now.port }
        ensures sound { IsSound self.now }
    {
        self.port
    }

    /// The number and the request for an operation, with TC 0 and attributes 0: a non-posted one
    /// has the lowest free tag, a posted one tag 0. Changes nothing: [`opened`](Self::opened)
    /// follows when the lane took the request. Takes no memory.
    pub fn prepare(&self, op: &OpRef<'_>) -> Result<(u32, Tlp), SubmitRefusal>
        ensures value { result ≡ prepared self.now op.now }
        ensures asks { IfOk result (λ p. op_of p.1 ≡ Some op.now) }
        ensures sound { OnOk result (IsSound self.now) }
    {
        let tag = self.next_tag(op)?;
        Ok((self.next, request_for(self.port, tag, op)))
    }

    /// The tag of the request that [`prepare`](Self::prepare) would give, or what it would refuse.
    pub fn next_tag(&self, op: &OpRef<'_>) -> Result<u8, SubmitRefusal>
        ensures tag { IfOk result (λ tag. prepared self.now op.now ≡ Ok (self.now.next, request_for self.now.port tag op.now)) }
        ensures refused { IfErr result (λ refusal. prepared self.now op.now ≡ Err refusal) }
        ensures faultless { OnOk result (op_fault op.now ≡ None) }
    {
        if let Some(fault) = op.fault() {
            return Err(SubmitRefusal::Profile(fault));
        }
        let posted = op.is_posted();
        let tag = if posted { 0 } else { self.lowest };
        if tag == TAGS {
            return Err(SubmitRefusal::TagsUsed);
        }
        if self.next == NUMBERS {
            return Err(SubmitRefusal::NumbersUsed);
        }
        Ok(tag as u8)
    }

    /// The lane took the request that was prepared last: its number is spent, and where it is
    /// non-posted its tag is open. Takes no memory.
    pub fn opened(&mut self, request: &Tlp)
        requires { IsPrepared self.old request.now }
        ensures { self.new ≡ after_opened self.old request.now }
    {
        let open = OpenRequest {
            number: self.next,
            size: size_for(request.kind, request.length),
        };
        match request.kind {
            Kind::MemoryWrite => self.next += 1,
            _ => self.open_tag(request.tag, open),
        }
    }

    /// The request of the next number is open under the lowest free tag.
    fn open_tag(&mut self, tag: u8, request: OpenRequest)
        requires lowest { tag ≡ lowest_free self.old.open_tags }
        requires number { request.number ≡ self.old.next }
        requires few { self.old.next < 4294967295 }
        ensures { self.new ≡ record { port = self.old.port; next = self.old.next + 1; open_tags = slice_set self.old.open_tags tag (Some request) } }
    {
        let tag = usize::from(tag);
        self.open_tags[tag] = Some(request);
        self.next += 1;
        self.lowest = free_from(&self.open_tags, tag);
    }

    /// The tag is free.
    fn close_tag(&mut self, tag: u8)
        ensures { self.new ≡ record { port = self.old.port; next = self.old.next; open_tags = slice_set self.old.open_tags tag None } }
    {
        let tag = usize::from(tag);
        self.open_tags[tag] = None;
        self.lowest = self.lowest.min(tag);
    }

    /// The request that the packet completes.
    fn completed(&self, packet: &Tlp) -> Option<OpenRequest>
        ensures { result ≡ completed self.now packet.now }
    {
        let ours = packet.requester == u16::from(self.port) * 256;
        if !packet.kind.is_completion() || !ours {
            return None;
        }
        self.open_tags[usize::from(packet.tag)]
    }

    /// The number and the reply of the request that the completion answers, whose tag is then
    /// free: `Unexpected` for no completion, one for another Requester ID or one with a tag that
    /// is not open; `Mismatch` for status SC without data, data with another status or data of
    /// another length. TC, attributes, Byte Count and Lower Address are not looked at. Takes no
    /// memory.
    pub fn finish(&mut self, completion: &Tlp) -> Result<Answer, CompletionFault>
        ensures answer { result ≡ finished self.old completion.now }
        ensures state { self.new ≡ after_finish self.old completion.now }
    {
        let Some(open) = self.completed(completion) else {
            return Err(CompletionFault::Unexpected);
        };
        let Some(reply) = reply_carried(open.size, completion) else {
            return Err(CompletionFault::Mismatch);
        };
        self.close_tag(completion.tag);
        Ok(Answer {
            number: open.number,
            reply,
        })
    }
}

ghost use Rattle.std.specs.Prelude.{replicate};
ghost use Rattle.requester_core.specs.RequesterView.{lowest_free, size_for, reply_carried};

/// How many bytes of data the completion of a request has, where it is served.
fn size_for(kind: Kind, dw: u16) -> u16
    requires { dw ≤ 1024 }
    ensures { result ≡ size_for kind dw }
{
    match kind {
        Kind::Cas => 2 * dw,
        _ => 4 * dw,
    }
}

/// The reply that a completion of a request of that size carries.
fn reply_carried(size: u16, completion: &Tlp) -> Option<Reply>
    ensures { result ≡ reply_carried size completion.now.kind completion.now.body completion.now.payload }
{
    let Body::Completion { status, .. } = completion.body else {
        return None;
    };
    match (completion.kind, status) {
        (Kind::CompletionData, Status::Success) => data_of(size, &completion.payload),
        (Kind::Completion, Status::Unsupported) => Some(Reply::Unsupported),
        (Kind::Completion, Status::Aborted) => Some(Reply::Aborted),
        _ => None,
    }
}

/// The payload as a reply, if it has that size.
fn data_of(size: u16, payload: &Payload) -> Option<Reply>
    ensures { result ≡ (if length payload.now.items == size then Some (Reply.Data payload.now) else None) }
{
    if payload.len() != usize::from(size) {
        return None;
    }
    Some(Reply::Data(payload_of(payload)))
}

fn no_tags() -> [Option<OpenRequest>; TAGS]
    ensures { result ≡ replicate 256 None }
{
    [None; TAGS]
}

/// The lowest free tag, where none below `from` is free.
fn free_from(tags: &[Option<OpenRequest>], from: usize) -> usize
    requires { from ≤ lowest_free tags.now }
    ensures { result ≡ lowest_free tags.now }
{
    let mut place = from;
    while place < tags.len() && tags[place].is_some() {
        place += 1;
    }
    place
}
