//! Which steps may be taken.
ghost use Rattle.std.specs.Prelude.{◌≡◌, ◌<◌, ◌≤◌, ◌↔◌, ℕ, IsTrue, slice_get, not};
ghost use Rattle.std.specs.List.{list_any};
ghost use Rattle.search_effects.specs.Effects.{told_of};
ghost use Rattle.history_words.specs.Flaws.{same_reply};
ghost use Rattle.log_runs.specs.Runs.{MayPass, MayAct, reply_of};
ghost use Rattle.search_places.specs.Pending.{blocks};
ghost use Rattle.search_places.specs.Pending as pending;
ghost use Rattle.search_places.specs.Places.{IsPlace};
ghost use Rattle.search_places.specs.Ready.{is_told};
ghost use Rattle.search_places.specs.Ready as ready;

use crate::bytes::reply_to;
use crate::place::Place;
use log_runs::{Event, EventHeader, Log};
use search_effects::waits;
use seq_memory::{ReplyData, ReplyRef};
use tlp_core::OpRef;

/// The event is a posted write of the requester.
fn is_post_of(log: &Log, requester: u8, c: usize) -> bool
    ensures { result ≡ pending.is_post_of requester (slice_get log.now.events c) }
{
    match log.header(c) {
        Some(
            EventHeader::Sub {
                requester: who,
                is_posted,
                ..
            },
        ) => requester == who && is_posted,
        _ => false,
    }
}

/// Request `c` is a posted write that the requester submitted before request `b`.
fn does_block(log: &Log, requester: u8, b: usize, c: usize) -> bool
    ensures { result ≡ blocks log.now requester b c }
{
    c < b && is_post_of(log, requester, c)
}

/// None of the posted writes that are pending was submitted by the requester before request `b`.
fn is_free(posts: &[usize], log: &Log, requester: u8, b: usize) -> bool
    ensures { result ≡ not (list_any (blocks log.now requester b) posts.now) }
{
    for c in posts {
        if does_block(log, requester, b, *c) {
            return false;
        }
    }
    true
}

/// The memory answers the operation so. The first byte that it needs and doesn't find decides.
fn answers(log: &Log, bytes: &[u8], op: &OpRef<'_>, reply: &ReplyRef<'_>) -> bool
    ensures { result ≡ same_reply reply.now (reply_of log.now.extent bytes.now op.now) }
{
    if waits(log.extent().base(), bytes, op, Some(reply), op) {
        return false;
    }
    let mut room = ReplyData::new();
    *reply == reply_to(log, bytes, op, &mut room)
}

/// The memory answers the operation so, or the request wasn't answered.
fn agrees(log: &Log, bytes: &[u8], op: &OpRef<'_>, told: Option<&ReplyRef<'_>>) -> bool
    ensures { result ≡ is_told (told_of told.entry) (reply_of log.now.extent bytes.now op.now) }
{
    match told {
        Some(reply) => answers(log, bytes, op, reply),
        None => true,
    }
}

impl Place {
    /// The event at that index submits a request that may act.
    fn is_ready(&self, log: &Log, b: usize) -> bool
        ensures { result ≡ ready.is_ready log.now self.now.state self.now.posts b (slice_get log.now.events b) }
    {
        match log.event(b) {
            Some(
                Event::Sub {
                    requester,
                    op,
                    reply,
                },
            ) => {
                b < self.event
                    && !self.has_acted(b)
                    && agrees(log, self.bytes.as_slice(), &op, reply.as_ref())
                    && is_free(self.posts.as_slice(), log, requester, b)
            }
            _ => false,
        }
    }

    /// The next event may be passed.
    pub fn may_pass(&self, log: &Log) -> bool
        ensures { IsTrue result ↔ MayPass self.now.state (slice_get log.now.events self.now.state.event) }
    {
        match log.header(self.event) {
            Some(EventHeader::Sub { .. } | EventHeader::Free) => true,
            Some(EventHeader::Due { request }) => self.has_acted(request),
            None => false,
        }
    }

    /// The request may act.
    pub fn may_act(&self, log: &Log, b: usize) -> bool
        requires { IsPlace log.now self.now }
        ensures { IsTrue result ↔ MayAct log.now self.now.state b }
    {
        self.is_ready(log, b)
    }

    /// Request `c` is a posted write of request `b`'s requester, was submitted before it, and hasn't acted.
    pub fn waits_for(&self, log: &Log, b: usize, c: usize) -> bool
        ensures value { result ≡ ready.waits_for log.now self.now.state b c (slice_get log.now.events b) }
        ensures shut { IsTrue result → MayAct log.now self.now.state b → ⊥ }
    {
        match log.header(b) {
            Some(EventHeader::Sub { requester, .. }) => {
                does_block(log, requester, b, c) && !self.has_acted(c)
            }
            _ => false,
        }
    }

    /// The memory answers what the request was answered, if it was.
    pub fn suits(&self, log: &Log, q: usize) -> bool
        ensures { result ≡ ready.suits log.now self.now.state.bytes (slice_get log.now.events q) }
    {
        match log.event(q) {
            Some(Event::Sub { op, reply, .. }) => agrees(
                log,
                self.bytes.as_slice(),
                &op,
                reply.as_ref(),
            ),
            _ => true,
        }
    }
}
