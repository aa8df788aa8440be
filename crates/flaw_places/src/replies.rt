//! Where a request stands in the history, and what the memory replies there.
ghost use Rattle.std.specs.Prelude.{◌≡◌, ◌≤◌, length, replicate, IfOk};
ghost use Rattle.seq_memory.specs.History.{contents_at, extent_of, reply_at as made_at};
ghost use Rattle.history_words.specs.Flaws.{at_place, place_of};
ghost use Rattle.history_words.specs.Trace.{is_request};
ghost use Rattle.flaw_places.specs.Places as spec;

use crate::flawed_request;
use history_words::{AsClaim, Flaw, FlawKind};
use seq_memory::{Reply, ReplyData, perform};
use std::alloc::{AllocError, Global};

/// The entry at that index is the request.
fn is_at<C: AsClaim>(claim: &C, index: usize, request: (u8, u32)) -> bool
    ensures { result ≡ at_place (is_request request.0 request.1) (C.claim claim.now).memory.entries index }
{
    match claim.request(index) {
        Some((requester, number)) => request.0 == requester && request.1 == number,
        None => false,
    }
}

/// The index of the request in the history, where it stands first.
pub fn point_of<C: AsClaim>(claim: &C, request: (u8, u32)) -> Option<usize>
    ensures { result ≡ place_of (C.claim claim.now).memory.entries request.0 request.1 }
{
    for index in 0..claim.entries() {
        if is_at(claim, index, request) {
            return Some(index);
        }
    }
    None
}

fn zeros(alloc: Global, size: usize) -> Result<Vec<u8>, AllocError>
    ensures { IfOk result (λ v. v.items ≡ replicate size 0) }
{
    vec![in alloc; 0u8; size]
}

/// The memory's bytes before the entry at that index.
fn bytes_before<C: AsClaim>(alloc: Global, claim: &C, index: usize) -> Result<Vec<u8>, AllocError>
    requires { index ≤ length (C.claim claim.now).memory.entries }
    ensures { IfOk result (λ v. v.items ≡ contents_at (extent_of (C.claim claim.now).memory) (C.claim claim.now).memory.entries index) }
{
    let mut bytes = zeros(alloc, claim.extent().size())?;
    let mut room = ReplyData::new();
    for p in 0..index {
        claim.replays(p, None, &mut bytes, &mut room);
    }
    Ok(bytes)
}

/// What the memory replies to the entry at that index, if there is one.
fn reply_at<C: AsClaim>(alloc: Global, claim: &C, index: usize) -> Result<Option<Reply>, AllocError>
    ensures { IfOk result (λ o. o ≡ made_at (extent_of (C.claim claim.now).memory) (C.claim claim.now).memory.entries index) }
{
    let Some(entry) = claim.entry(index) else {
        return Ok(None);
    };
    let extent = claim.extent();
    let mut bytes = bytes_before(alloc, claim, index)?;
    let made = perform(
        extent.base(),
        extent.block(),
        &mut bytes,
        &entry.op.to_owned(),
    );
    Ok(Some(made))
}

/// The reply that is expected in place of the one that a flaw of a reply names; none of another flaw. Takes the bytes
/// of the memory, and fails where they are refused.
pub fn expected_reply<C: AsClaim>(
    alloc: Global,
    claim: &C,
    flaw: Flaw,
) -> Result<Option<Reply>, AllocError>
    ensures { IfOk result (λ o. o ≡ spec.expected_reply (C.claim claim.now) flaw) }
{
    if flaw.kind != FlawKind::Reply {
        return Ok(None);
    }
    let Some(request) = flawed_request(claim, Some(flaw)) else {
        return Ok(None);
    };
    match point_of(claim, request) {
        Some(index) => reply_at(alloc, claim, index),
        None => Ok(None),
    }
}
