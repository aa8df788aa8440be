//! Why answers have no history, if that can be said in a few words.
use crate::doubles::{LOOKS, taken_twice};
use crate::sums::{Sum, wrong_sum};
use crate::tallies::Question;
use crate::words::Word;
use log_events::{Prefix, Requests};
use seq_memory::ReplyRef;
use std::alloc::{AllocError, Global};

/// Why a word isn't there where a request acts that was answered it.
#[derive(Clone, Copy, PartialEq)]
pub enum WordCause {
    /// No request that was submitted before the record puts this there.
    NothingPuts(Word, usize),
    /// This was there once, and two AtomicOps that change it were answered it, by these records.
    Twice(Word, usize, usize),
    /// This was overwritten by the request of the second record before that of the first could act.
    Overwritten(Word, usize, usize),
    /// This isn't what the additions make of the zeros at the start.
    Sum(Sum),
    /// Nothing shorter is known.
    NoOrder,
}

impl WordCause {
    /// Which of several causes is told: the one with the least rank.
    fn rank(self) -> u8 {
        match self {
            WordCause::NothingPuts(..) => 0,
            WordCause::Twice(..) => 1,
            WordCause::Overwritten(..) => 2,
            WordCause::Sum(_) => 3,
            WordCause::NoOrder => 4,
        }
    }

    /// The one of the two that is told, this one where both are of one kind.
    fn or(self, other: WordCause) -> WordCause {
        if other.rank() < self.rank() {
            other
        } else {
            self
        }
    }
}

/// Why the word isn't there where the request acts, if that is known.
fn word_cause(question: &Question<'_>, word: Word) -> WordCause {
    let tally = question.tally(word);
    if tally.is_known && tally.puts == 0 {
        return WordCause::NothingPuts(word, question.place());
    }
    if let Some((first, second)) = tally.taken_twice() {
        return WordCause::Twice(word, first, second);
    }
    match tally.last_overwriter() {
        Some(by) => WordCause::Overwritten(word, question.asked.submission, by),
        None => WordCause::NoOrder,
    }
}

/// Why the request isn't answered so, by the words that its reply shows.
fn answer_cause(question: &Question<'_>) -> WordCause {
    let mut cause = WordCause::NoOrder;
    let ReplyRef::Data(data) = &question.reply else {
        return cause;
    };
    let data = data.as_slice();
    for dw in 0..data.len() / 4 {
        let word = Word::shown_by(&question.op, data, 4 * dw);
        if word.is_some() {
            cause = cause.or(word_cause(question, word));
        }
    }
    cause.or(sum_cause(question))
}

/// Why the request isn't answered so, by the sums of the additions to what it shows.
fn sum_cause(question: &Question<'_>) -> WordCause {
    match wrong_sum(question) {
        Some(sum) => WordCause::Sum(sum),
        None => WordCause::NoOrder,
    }
}

/// The cause that is told of those of the answers at these places.
fn cause_among(requests: &Requests<'_>, answers: &[usize]) -> WordCause {
    let mut cause = WordCause::NoOrder;
    for answer in answers {
        if let Some(question) = Question::new(&*requests, *answer) {
            cause = cause.or(answer_cause(&question));
        }
    }
    cause
}

/// How many answers more are looked at, at most.
const MORE: usize = 32;

/// The last answers, some of them.
fn last_answers(alloc: Global, requests: &Requests<'_>) -> Result<Vec<usize>, AllocError> {
    let count = MORE.min(LOOKS / requests.all.len().saturating_add(1));
    let mut answers = Vec::new(alloc);
    for request in requests.all.as_slice() {
        if let Some(answer) = request.answer
            && answers.len() < count
        {
            answers.push(answer)?;
        }
    }
    Ok(answers)
}

/// Why the answers at these places have no history, by the words that their replies show; or else why the log has none, by
/// those of other answers.
pub fn words_cause(
    alloc: Global,
    prefix: Prefix<'_>,
    answers: &[usize],
) -> Result<WordCause, AllocError> {
    let requests = Requests::of(alloc, prefix)?;
    let cause = cause_among(&requests, answers);
    if cause != WordCause::NoOrder {
        return Ok(cause);
    }
    let twice = taken_twice(alloc, &requests)?;
    if twice != WordCause::NoOrder {
        return Ok(twice);
    }
    let more = last_answers(alloc, &requests)?;
    Ok(cause_among(&requests, &more))
}
