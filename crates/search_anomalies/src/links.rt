//! A cycle of requests, by the places of their records.
use crate::cycles::cycle_by;
use crate::words::Word;
use log_events::{Prefix, Requests};
use std::alloc::{AllocError, Global};

/// Why a request acts before the next one.
#[derive(Clone, Copy)]
pub enum Edge {
    /// Its answer shows this, which the next one overwrote. Where the request was
    /// submitted that put it there, if it wasn't there at the start.
    Overwritten(Word, Option<usize>),
    /// It put this, which the next one's answer shows.
    Shown(Word),
    /// It is a posted write, and the next one is one of its requester behind it.
    Posted,
    /// It was answered before the next one was submitted.
    Answered,
}

/// A request, by the places of its records, and why it acts before another one.
#[derive(Clone, Copy)]
pub struct Link {
    pub submission: usize,
    pub answer: Option<usize>,
    pub edge: Edge,
}

/// A cycle of requests through the one that was answered at the place, which is the first one: each acts before the next
/// one, and the last one before the first. None if it isn't found.
pub fn cycle_through(
    alloc: Global,
    prefix: Prefix<'_>,
    answer: usize,
) -> Result<Vec<Link>, AllocError> {
    let requests = Requests::of(alloc, prefix)?;
    let hops = cycle_by(alloc, &requests, answer)?;
    let mut links = Vec::with_capacity(alloc, hops.len())?;
    for hop in hops.as_slice() {
        if let Some(request) = requests.all.get(hop.request) {
            links.push(Link {
                submission: request.submission,
                answer: request.answer,
                edge: hop.edge,
            })?;
        }
    }
    Ok(links)
}
