//! The sequential memory's replies, each compared with the first answer to its request.
ghost use Rattle.std.specs.Prelude.{ℕ, ◌≡◌, IfOk, slice_get, replicate, option_and_then};
ghost use Rattle.history_words.specs.Headers.{first_in};
ghost use Rattle.history_words.specs.Lookup.{IsIndex, AreFirsts, right_in};

use crate::acting::point;
use crate::index::Index;
use crate::points::{NONE, Points};
use history_words::{AsClaim, RecordHeader};
use seq_memory::ReplyData;
use std::alloc::{AllocError, Global};

/// By the place of each submission, where the first answer to it stands.
pub(crate) fn first_answers<C: AsClaim>(
    alloc: Global,
    index: &Index,
    claim: &C,
) -> Result<Points, AllocError>
    requires { IsIndex index.now (C.claim claim.now).records }
    ensures { IfOk result (λ firsts. AreFirsts firsts (C.claim claim.now).records (C.claim claim.now).records) }
{
    let count = claim.records();
    if count > NONE as usize {
        return Err(AllocError);
    }
    let mut firsts = Points::none(alloc, count)?;
    for a in 0..count {
        match claim.header(a) {
            Some(
                RecordHeader::Ans {
                    requester,
                    number,
                    ..
                },
            ) => {
                if let Some(b) = index.place(requester, number) {
                    firsts.set(b, firsts.get(b).or(Some(a)));
                }
            }
            Some(RecordHeader::Sub { .. }) => {}
            None => {}
        }
    }
    Ok(firsts)
}

/// Where the first answer stands to the request at the index of the history.
fn first_answer<C: AsClaim>(index: &Index, claim: &C, firsts: &Points, p: usize) -> Option<usize>
    ensures { result ≡ option_and_then (first_in index.now firsts.now) (slice_get (C.claim claim.now).memory.entries p) }
{
    let (requester, number) = claim.request(p)?;
    point(index, firsts, requester, number)
}

fn zero_bytes(alloc: Global, size: usize) -> Result<Vec<u8>, AllocError>
    ensures { IfOk result (λ v. v.items ≡ replicate size 0) }
{
    vec![in alloc; 0u8; size]
}

/// By index of the history, whether the first answer to that request has the memory's reply.
pub(crate) fn right_replies<C: AsClaim>(
    alloc: Global,
    index: &Index,
    claim: &C,
    firsts: &Points,
) -> Result<Vec<bool>, AllocError>
    ensures { IfOk result (λ v. (p : ℕ) → slice_get v.items p ≡ right_in index.now firsts.now (C.claim claim.now) p) }
{
    let mut bytes = zero_bytes(alloc, claim.extent().size())?;
    let mut room = ReplyData::new();
    let mut right = Vec::with_capacity(alloc, claim.entries())?;
    for p in 0..claim.entries() {
        let place = first_answer(index, claim, firsts, p);
        right.push(claim.replays(p, place, &mut bytes, &mut room))?;
    }
    Ok(right)
}
