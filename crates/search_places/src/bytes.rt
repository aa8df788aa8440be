//! The bytes of the memory, as requests act on them.
ghost use Rattle.std.specs.Prelude.{◌≡◌, ℕ, List, [], IfOk, Some, slice_get, replicate};
ghost use Rattle.log_runs.specs.Runs.{reply_of, bytes_after, acted_on};
ghost use Rattle.search_places.specs.Undo.{old_at};

use log_runs::{Event, Log};
use search_effects::{overwrite, put_back, reply};
use seq_memory::{ReplyData, ReplyRef};
use std::alloc::{AllocError, Global};
use tlp_core::{OpRef, Payload};

pub(crate) fn zeros(alloc: Global, size: usize) -> Result<Vec<u8>, AllocError>
    ensures { IfOk result (λ v. v.items ≡ replicate size 0) }
{
    vec![in alloc; 0u8; size]
}

/// What the memory would answer. The reply's data is put into the room.
#[tactic(auto, unfolding(log_runs::specs::Runs::reply_of))]
pub(crate) fn reply_to<'r>(
    log: &Log,
    bytes: &[u8],
    op: &OpRef<'_>,
    room: &'r mut ReplyData,
) -> ReplyRef<'r>
    ensures { result ≡ reply_of log.now.extent bytes.now op.now }
{
    let extent = log.extent();
    reply(extent.base(), extent.block(), bytes, op, room)
}

/// The request acts on the bytes. Those that it overwrites.
#[tactic(auto, unfolding(log_runs::specs::Runs::acted_on, log_runs::specs::Runs::bytes_after))]
pub(crate) fn act_on(log: &Log, bytes: &mut [u8], b: usize) -> Payload
    ensures bytes { bytes.new ≡ acted_on log.now.extent bytes.old (slice_get log.now.events b) }
    ensures old { result.items ≡ old_at log.now.extent bytes.old (slice_get log.now.events b) }
{
    match log.event(b) {
        Some(Event::Sub { op, .. }) => {
            let extent = log.extent();
            overwrite(extent.base(), extent.block(), bytes, &op)
        }
        _ => Payload::new(),
    }
}

/// Makes the bytes what they were before the request acted.
#[tactic(auto, unfolding(log_runs::specs::Runs::acted_on, log_runs::specs::Runs::bytes_after))]
pub(crate) fn restore(log: &Log, bytes: &mut [u8], b: usize, old: &[u8])
    ensures { (m : List ℕ) → bytes.old ≡ acted_on log.now.extent m (slice_get log.now.events b) →
        old.now ≡ old_at log.now.extent m (slice_get log.now.events b) → bytes.new ≡ m }
{
    if let Some(Event::Sub { op, .. }) = log.event(b) {
        let extent = log.extent();
        put_back(extent.base(), extent.block(), bytes, &op, old);
    }
}
