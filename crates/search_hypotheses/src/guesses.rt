//! Which faults are tried, and in which order. Nothing rests on it.
//!
//! First come the reads that the answers show: each is the requester's only one that didn't wait for its earlier writes, or it
//! was submitted earlier. Then come the requests that have bytes of the last answer, the last one first; and, if none of these
//! does, all others.
use log_events::{LogRequest, Prefix, Requests};
use log_faults::{Fault, FaultKind, free_requester};
use seq_memory::{Extent, refusal_lent};
use std::alloc::{AllocError, Global};
use tlp_core::{OpRef, Width};

/// How many requests are looked at, at most, and how many reads that the answers show.
const REQUESTS: usize = 40;

const READS: usize = 4;

/// A fault that is tried, or the latest of several.
#[derive(Clone, Copy)]
pub(crate) enum Guess {
    One(Fault),
    /// The request at the place is this requester's own, where it stands or else before some earlier record.
    Own(usize, u8),
}

/// Guesses, as many as there are.
#[derive(Drop)]
struct Guesses {
    all: Vec<Guess>,
    /// A requester that the log hasn't.
    by: Option<u8>,
}

impl Guesses {
    fn push(&mut self, place: usize, kind: FaultKind) -> Result<(), AllocError> {
        self.all.push(Guess::One(Fault { place, kind }))?;
        Ok(())
    }

    /// The request is another requester's own.
    fn push_apart(&mut self, place: usize) -> Result<(), AllocError> {
        match self.by {
            Some(by) => self.push(place, FaultKind::Apart(by)),
            None => Ok(()),
        }
    }

    /// The request is carried out, though it isn't served.
    fn push_refused(&mut self, place: usize) -> Result<(), AllocError> {
        match self.by {
            Some(by) => self.push(place, FaultKind::Refused(by)),
            None => Ok(()),
        }
    }

    /// The request is done twice.
    fn push_twice(&mut self, place: usize) -> Result<(), AllocError> {
        match self.by {
            Some(by) => self.push(place, FaultKind::Twice(by)),
            None => Ok(()),
        }
    }

    /// A write with these enables has others.
    fn push_enables(
        &mut self,
        place: usize,
        first: u8,
        last: u8,
        size: usize,
    ) -> Result<(), AllocError> {
        if first != 15 {
            self.push(place, FaultKind::First)?;
        }
        if size > 4 && last != 15 {
            self.push(place, FaultKind::Last)?;
        }
        Ok(())
    }

    /// The faults of the request.
    fn push_of(&mut self, place: usize, op: &OpRef<'_>) -> Result<(), AllocError> {
        match op {
            OpRef::Read { .. } => Ok(()),
            OpRef::Write {
                first,
                last,
                bytes,
                ..
            } => {
                self.push(place, FaultKind::Lost)?;
                self.push_enables(place, *first, *last, bytes.as_slice().len())?;
                self.push_apart(place)
            }
            OpRef::FetchAdd { .. } => {
                self.push(place, FaultKind::Lost)?;
                self.push_twice(place)
            }
            OpRef::Swap { .. } => self.push(place, FaultKind::Lost),
            OpRef::Cas { width, .. } => {
                self.push(place, FaultKind::Lost)?;
                if *width != Width::Sixteen {
                    self.push(place, FaultKind::Swapped)?;
                }
                Ok(())
            }
        }
    }

    /// The read there is another requester's own, or was submitted earlier.
    fn push_read(&mut self, place: usize) -> Result<(), AllocError> {
        if let Some(by) = self.by {
            self.all.push(Guess::Own(place, by))?;
        }
        Ok(())
    }
}

/// A memory that lies there serves the operation.
fn is_served(extent: Extent, op: &OpRef<'_>) -> bool {
    refusal_lent(extent.base(), extent.block(), extent.size(), op).is_none()
}

/// The two have a byte in common.
fn meet(one: &OpRef<'_>, other: &OpRef<'_>) -> bool {
    let (a, b) = (one.address(), other.address());
    a < b.saturating_add(u64::from(other.size())) && b < a.saturating_add(u64::from(one.size()))
}

/// The reads that the answers show.
fn push_reads(
    guesses: &mut Guesses,
    requests: &Requests<'_>,
    answers: &[usize],
) -> Result<(), AllocError> {
    let mut reads = 0usize;
    for answer in answers {
        if let Some(request) = requests.at(*answer)
            && let Some(OpRef::Read { .. }) = requests.op(&request)
            && reads < READS
        {
            guesses.push_read(request.submission)?;
            reads += 1;
        }
    }
    Ok(())
}

/// The faults of the request. Of one that isn't served there is one, if it is a write.
fn push_request(
    guesses: &mut Guesses,
    extent: Extent,
    place: usize,
    op: &OpRef<'_>,
) -> Result<(), AllocError> {
    if is_served(extent, op) {
        return guesses.push_of(place, op);
    }
    if op.is_posted() {
        return guesses.push_refused(place);
    }
    Ok(())
}

/// Which requests are looked at.
#[derive(Clone, Copy, PartialEq)]
enum Part {
    /// Those that have bytes of the last one that was answered.
    Near,
    Far,
}

/// The requests of that part, the last one first.
fn push_requests(
    guesses: &mut Guesses,
    requests: &Requests<'_>,
    last: &LogRequest,
    part: Part,
) -> Result<(), AllocError> {
    let Some(asked) = requests.op(last) else {
        return Ok(());
    };
    let mut count = 0usize;
    for request in requests.all.as_slice() {
        if let Some(op) = requests.op(request)
            && count < REQUESTS
            && !matches!(op, OpRef::Read { .. })
            && meet(&op, &asked) == (part == Part::Near)
        {
            push_request(guesses, requests.extent, request.submission, &op)?;
            count += 1;
        }
    }
    Ok(())
}

/// What is tried, in order.
#[derive(Drop)]
pub(crate) struct InOrder {
    pub(crate) all: Vec<Guess>,
    /// So many are tried in any case, the others if none of them is right.
    pub(crate) near: usize,
}

/// What is tried of a prefix that has no history, where these answers of it are told, the last one first.
pub(crate) fn guesses_of(
    alloc: Global,
    prefix: Prefix<'_>,
    answers: &[usize],
) -> Result<InOrder, AllocError> {
    let requests = Requests::of(alloc, prefix)?;
    let mut guesses = Guesses {
        all: Vec::new(alloc),
        by: free_requester(&prefix.seen.records()),
    };
    push_reads(&mut guesses, &requests, answers)?;
    let mut near = guesses.all.len();
    if let Some(last) = answers.first()
        && let Some(request) = requests.at(*last)
    {
        push_requests(&mut guesses, &requests, &request, Part::Near)?;
        near = guesses.all.len();
        push_requests(&mut guesses, &requests, &request, Part::Far)?;
    }
    Ok(InOrder {
        all: guesses.all,
        near,
    })
}
