//! Which records belong together.
ghost use Rattle.std.specs.Prelude.{◌≡◌, IfOk, length, set};
ghost use Rattle.log_events.specs.Joined.{partner};

use std::alloc::{AllocError, Global};
use std::marker::Model;

/// For each record the place of the answer to its submission, or of the submission that it answers.
/// These are guesses: whoever uses one tests it.
#[derive(Drop)]
pub struct Partners {
    /// A record that belongs together with none has its own place.
    places: Vec<usize>,
}

impl Model for Partners {
    ghost use Rattle.std.specs.Prelude.{ℕ, List};

    ghost Value = { List ℕ };

    ghost view = { λ m. m.places.items };
}

impl Partners {
    /// Of that many records no two belong together.
    pub(crate) fn none(alloc: Global, count: usize) -> Result<Self, AllocError>
        ensures { IfOk result (λ p. length p ≡ count) }
    {
        let mut places = Vec::with_capacity(alloc, count)?;
        for at in 0..count {
            places.push(at)?;
        }
        Ok(Partners { places })
    }

    /// The place of the record that belongs together with the one there, as far as it is known.
    pub fn of(&self, at: usize) -> Option<usize>
        ensures { result ≡ partner self.now at }
    {
        let place = *self.places.get(at)?;
        if place == at {
            return None;
        }
        Some(place)
    }

    fn set(&mut self, at: usize, partner: usize)
        ensures { self.new ≡ set self.old at partner }
    {
        if let Some(place) = self.places.get_mut(at) {
            *place = partner;
        }
    }

    /// The records at the two places belong together.
    pub(crate) fn join(&mut self, submission: usize, answer: usize)
        ensures { self.new ≡ set (set self.old submission answer) answer submission }
    {
        self.set(submission, answer);
        self.set(answer, submission);
    }

    /// The partners of these answers alone, and of their submissions.
    pub fn keeping(&self, alloc: Global, answers: &[usize]) -> Result<Self, AllocError> {
        let mut few = Partners::none(alloc, self.places.len())?;
        for answer in answers {
            if let Some(submission) = self.of(*answer) {
                few.join(submission, *answer);
            }
        }
        Ok(few)
    }
}
