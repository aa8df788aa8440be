//! What AtomicOps were answered. Nothing rests on what these functions say.
use log_runs::{Event, EventHeader, Log};
use seq_memory::ReplyRef;
use std::alloc::{AllocError, Global};
use tlp_core::OpRef;

/// An AtomicOp that was answered: its address, the number that the first bytes of its data are, the place of the answer,
/// and its own.
pub(crate) type Taken = (u64, u64, usize, usize);

/// The number that the first 8 bytes are.
fn number_of(data: &[u8]) -> u64 {
    let mut number = 0u64;
    for at in 0..data.len().min(8) {
        number = number << 8 | u64::from(data[at]);
    }
    number
}

/// What was answered to request `b` at that place, if it is an AtomicOp.
fn taken_by(log: &Log, b: usize, place: usize) -> Option<Taken> {
    let Some(Event::Sub { op, reply, .. }) = log.event(b) else {
        return None;
    };
    if matches!(op, OpRef::Read { .. } | OpRef::Write { .. }) {
        return None;
    }
    let ReplyRef::Data(data) = reply? else {
        return None;
    };
    Some((op.address(), number_of(data.as_slice()), place, b))
}

/// What AtomicOps were answered, the same beside each other, and that in the order of the answers.
pub(crate) fn all_taken(alloc: Global, log: &Log) -> Result<Vec<Taken>, AllocError> {
    let mut all = Vec::new(alloc);
    for place in 0..log.len() {
        if let Some(EventHeader::Due { request }) = log.header(place)
            && let Some(taken) = taken_by(log, request, place)
        {
            all.push(taken)?;
        }
    }
    all.sort()?;
    Ok(all)
}

/// By request, the place of its answer.
pub(crate) fn answers_of(alloc: Global, log: &Log) -> Result<Vec<usize>, AllocError> {
    let mut places = vec![in alloc; usize::MAX; log.len()]?;
    for place in 0..log.len() {
        if let Some(EventHeader::Due { request }) = log.header(place)
            && request < places.len()
        {
            places[request] = place;
        }
    }
    Ok(places)
}
