//! What a log has to say of a word that an answer shows.
use crate::effects::{Effect, effect_by, shows};
use crate::words::{Sight, Word};
use log_events::{LogRequest, Requests};
use seq_memory::ReplyRef;
use tlp_core::OpRef;

/// What a log has to say of a word that an answer shows.
#[derive(Clone, Copy)]
pub(crate) struct Tally {
    /// How often it may have come to be there.
    pub(crate) puts: u64,
    /// Whether that is all that can have put it there.
    pub(crate) is_known: bool,
    /// The first and the last answer with it to an AtomicOp that changes it.
    first_taken: Option<usize>,
    last_taken: Option<usize>,
    /// The last due of what put it there, if each is due.
    last_due: Option<usize>,
    is_due: bool,
    /// The last submission of what overwrote it before the request could act.
    overwriter: Option<usize>,
}

impl Tally {
    /// What can be said before any request acts.
    fn new(word: &Word) -> Tally {
        Tally {
            puts: u64::from(word.is_zero()),
            is_known: true,
            first_taken: None,
            last_taken: None,
            last_due: None,
            is_due: true,
            overwriter: None,
        }
    }

    fn put(&mut self, due: Option<usize>) {
        self.puts = self.puts.saturating_add(1);
        match due {
            Some(due) => self.last_due = Some(self.last_due.unwrap_or(0).max(due)),
            None => self.is_due = false,
        }
    }

    fn take(&mut self, answer: usize) {
        self.first_taken = Some(self.first_taken.unwrap_or(answer).min(answer));
        self.last_taken = Some(self.last_taken.unwrap_or(answer).max(answer));
    }

    /// The answers of two AtomicOps that change it and were answered it, if it came to be there once.
    pub(crate) fn taken_twice(&self) -> Option<(usize, usize)> {
        let (first, last) = (self.first_taken?, self.last_taken?);
        if self.is_known && self.puts == 1 && first < last {
            Some((first, last))
        } else {
            None
        }
    }

    fn overwrite(&mut self, submission: usize) {
        self.overwriter = Some(self.overwriter.unwrap_or(0).max(submission));
    }

    /// The submission of what overwrote all that put it there.
    pub(crate) fn last_overwriter(&self) -> Option<usize> {
        let submission = self.overwriter?;
        let is_behind = match self.last_due {
            Some(due) => due < submission,
            None => true,
        };
        if self.is_known && self.is_due && is_behind {
            Some(submission)
        } else {
            None
        }
    }
}

/// An answer of a log, and what is known of its request.
#[derive(Drop)]
pub(crate) struct Question<'a> {
    pub(crate) requests: &'a Requests<'a>,
    pub(crate) asked: LogRequest,
    pub(crate) op: OpRef<'a>,
    pub(crate) reply: ReplyRef<'a>,
}

impl<'a> Question<'a> {
    /// The question of the answer at that place.
    pub(crate) fn new(requests: &'a Requests<'a>, answer: usize) -> Option<Question<'a>> {
        let asked = requests.at(answer)?;
        Some(Question {
            requests,
            asked,
            op: requests.op(&asked)?,
            reply: requests.reply(&asked)?,
        })
    }

    /// The place of the answer.
    pub(crate) fn place(&self) -> usize {
        self.asked.answer.unwrap_or(self.asked.submission)
    }

    /// The request acted before the one that is asked for, as all requests do that were due before it was
    /// submitted, and all posted writes of its requester before it.
    pub(crate) fn is_before(&self, request: &LogRequest, is_posted: bool) -> bool {
        let was_due = request.due.is_some_and(|due| due < self.asked.submission);
        let is_own = self.requests.requester(request) == self.requests.requester(&self.asked);
        was_due || is_posted && is_own && request.submission < self.asked.submission
    }

    /// The request was submitted before the answer that is asked for.
    pub(crate) fn is_submitted(&self, request: &LogRequest) -> bool {
        self.asked
            .answer
            .is_some_and(|answer| request.submission < answer)
    }

    /// The request's answer, if it isn't behind the one that is asked for.
    fn answer_of(&self, request: &LogRequest) -> Option<usize> {
        let answer = request.answer?;
        if answer <= self.asked.answer? {
            Some(answer)
        } else {
            None
        }
    }

    /// Takes a request into account.
    fn count(&self, sight: &Sight, request: &LogRequest, tally: &mut Tally) {
        let Some(op) = self.requests.op(request) else {
            return;
        };
        let reply = self.requests.reply(request);
        match effect_by(self.requests.extent, sight, &op, reply.as_ref()) {
            Effect::Keeps => {}
            Effect::Unknown => tally.is_known = false,
            Effect::Puts => tally.put(request.due),
            Effect::Overwrites => {
                if let Some(answer) = self.answer_of(request)
                    && shows(sight, &op, reply.as_ref())
                {
                    tally.take(answer);
                }
                if self.is_before(request, op.is_posted()) {
                    tally.overwrite(request.submission);
                }
            }
        }
    }

    /// What all requests before the answer have to say of the word.
    pub(crate) fn tally(&self, word: Word) -> Tally {
        let sight = Sight::of(word);
        let mut tally = Tally::new(&word);
        for request in self.requests.all.as_slice() {
            if self.is_submitted(request) {
                self.count(&sight, request, &mut tally);
            }
        }
        tally
    }
}
