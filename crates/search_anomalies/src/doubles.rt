//! A word that two AtomicOps of a whole log were answered, and that was there once.
use crate::causes::WordCause;
use crate::tallies::Question;
use crate::words::Word;
use log_events::{LogRequest, Requests};
use seq_memory::ReplyRef;
use std::alloc::{AllocError, Global};
use tlp_core::OpRef;

/// How many pairs of answers are looked at, at most.
const PAIRS: usize = 32;

/// How many requests are looked at for all of them, about.
pub(crate) const LOOKS: usize = 4_000_000;

/// The first DW of an AtomicOp that was answered, what it was answered there, and the place of the answer.
type Taken = (u64, u32, usize);

/// The number that the bytes are, the first one last.
fn number_of(bytes: &[u8; 4]) -> u32 {
    u32::from_be_bytes(*bytes)
}

/// What the request was answered, if it is an AtomicOp.
fn taken_by(requests: &Requests<'_>, request: &LogRequest) -> Option<Taken> {
    let op = requests.op(request)?;
    if matches!(op, OpRef::Read { .. } | OpRef::Write { .. }) {
        return None;
    }
    let ReplyRef::Data(data) = requests.reply(request)? else {
        return None;
    };
    let word = Word::shown_by(&op, data.as_slice(), 0);
    Some((word.address, number_of(&word.shown()), request.answer?))
}

/// What AtomicOps were answered, what is the same beside each other, and that in the order of the answers.
fn all_taken(alloc: Global, requests: &Requests<'_>) -> Result<Vec<Taken>, AllocError> {
    let mut all = Vec::new(alloc);
    for request in requests.all.as_slice() {
        if let Some(taken) = taken_by(requests, request) {
            all.push(taken)?;
        }
    }
    all.sort()?;
    Ok(all)
}

/// Whether what the answer shows was taken twice.
fn twice(requests: &Requests<'_>, answer: usize) -> Option<WordCause> {
    let question = Question::new(requests, answer)?;
    let ReplyRef::Data(data) = &question.reply else {
        return None;
    };
    let data = data.as_slice();
    for dw in 0..data.len() / 4 {
        let word = Word::shown_by(&question.op, data, 4 * dw);
        if let Some((first, second)) = question.tally(word).taken_twice() {
            return Some(WordCause::Twice(word, first, second));
        }
    }
    None
}

/// Looks for a word that was there once, though two AtomicOps that change it were answered it.
pub(crate) fn taken_twice(alloc: Global, requests: &Requests<'_>) -> Result<WordCause, AllocError> {
    let all = all_taken(alloc, requests)?;
    let mut left = PAIRS.min(LOOKS / (requests.all.len().saturating_add(1)));
    for at in 1..all.len() {
        if left == 0 {
            break;
        }
        let (before, here) = (all[at - 1], all[at]);
        if before.0 == here.0 && before.1 == here.1 {
            left = left.saturating_sub(1);
            if let Some(cause) = twice(requests, here.2) {
                return Ok(cause);
            }
        }
    }
    Ok(WordCause::NoOrder)
}
