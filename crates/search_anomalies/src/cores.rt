//! A log of few answers, with the requests that have to do with them.
//!
//! Requests are left out that change nothing which an answer shows: reads that aren't answered there, and what is on other
//! DW. What an AtomicOp leaves depends on all that it reads, so its DW count, too. Nothing rests on this choice.
use log_events::{LogRequest, Prefix, Requests};
use std::alloc::{AllocError, Global};
use tlp_core::OpRef;

/// How often the DW of AtomicOps are added, at most.
const ROUNDS: usize = 16;

/// A record of a log that is kept in a shorter one, by its place, and the number that its request has there.
#[derive(Clone, Copy)]
pub struct Kept {
    pub place: usize,
    pub number: u32,
}

/// The address of a DW that the operation names.
fn word_of(op: &OpRef<'_>, dw: u32) -> u64 {
    (op.address() / 4 + u64::from(dw)).saturating_mul(4)
}

/// Answers of a log, and the DW that count for them.
#[derive(Drop)]
struct Core<'a> {
    requests: Requests<'a>,
    answers: &'a [usize],
    /// How many records there are up to the last of the answers.
    end: usize,
    /// The addresses of the DW.
    words: Vec<u64>,
}

impl<'a> Core<'a> {
    fn of(alloc: Global, prefix: Prefix<'a>, answers: &'a [usize]) -> Result<Core<'a>, AllocError> {
        let mut end = 0usize;
        for answer in answers {
            end = end.max(answer.saturating_add(1));
        }
        Ok(Core {
            requests: Requests::of(alloc, prefix)?,
            answers,
            end,
            words: Vec::new(alloc),
        })
    }

    /// The request's answer is kept.
    fn is_answered(&self, request: &LogRequest) -> bool {
        match request.answer {
            Some(answer) => self.answers.contains(&answer),
            None => false,
        }
    }

    /// A DW of the operation counts.
    fn counts(&self, op: &OpRef<'_>) -> bool {
        for dw in 0..op.size() / 4 {
            if self.words.contains(&word_of(op, dw)) {
                return true;
            }
        }
        false
    }

    /// The DW of the operation count; whether one didn't.
    fn add(&mut self, op: &OpRef<'_>) -> Result<bool, AllocError> {
        let mut is_new = false;
        for dw in 0..op.size() / 4 {
            let word = word_of(op, dw);
            if !self.words.contains(&word) {
                self.words.push(word)?;
                is_new = true;
            }
        }
        Ok(is_new)
    }

    /// The request is kept.
    fn keeps(&self, request: &LogRequest) -> bool {
        if self.is_answered(request) {
            return true;
        }
        let Some(op) = self.requests.op(request) else {
            return false;
        };
        request.submission < self.end && !matches!(op, OpRef::Read { .. }) && self.counts(&op)
    }

    /// The DW of a request count that is answered or an AtomicOp, if it is kept; whether one didn't.
    fn follow(&mut self, request: &LogRequest) -> Result<bool, AllocError> {
        let Some(op) = self.requests.op(request) else {
            return Ok(false);
        };
        if self.is_answered(request) || !op.is_posted() && self.keeps(request) {
            return self.add(&op);
        }
        Ok(false)
    }

    /// The DW of all requests count that are answered or AtomicOps, if they are kept.
    fn close(&mut self) -> Result<(), AllocError> {
        for _round in 0..ROUNDS {
            let mut is_new = false;
            for at in 0..self.requests.all.len() {
                let Some(request) = self.requests.all.get(at).copied() else {
                    return Ok(());
                };
                is_new |= self.follow(&request)?;
            }
            if !is_new {
                return Ok(());
            }
        }
        Ok(())
    }
}

/// How many requests each requester has, so far.
#[derive(Drop)]
struct Counts {
    counts: [u32; 256],
}

impl Counts {
    /// The number of the requester's next request.
    fn next(&mut self, requester: u8) -> u32 {
        let number = self.counts[usize::from(requester)];
        self.counts[usize::from(requester)] = number.saturating_add(1);
        number
    }
}

/// The records of few answers of a log's first ones, and of the requests that have to do with them, as a log of their own:
/// the requests of each requester have new numbers.
pub fn core_of<'a>(
    alloc: Global,
    prefix: Prefix<'a>,
    answers: &'a [usize],
) -> Result<Vec<Kept>, AllocError> {
    let mut core = Core::of(alloc, prefix, answers)?;
    core.close()?;
    let mut counts = Counts { counts: [0; 256] };
    let mut kept = Vec::new(alloc);
    for request in core.requests.all.as_slice().iter().rev() {
        if let Some(requester) = core.requests.requester(request)
            && core.keeps(request)
        {
            let number = counts.next(requester);
            kept.push(Kept {
                place: request.submission,
                number,
            })?;
            if let Some(answer) = request.answer
                && core.is_answered(request)
            {
                kept.push(Kept {
                    place: answer,
                    number,
                })?;
            }
        }
    }
    kept.sort_by_key(|record| record.place)?;
    Ok(kept)
}
