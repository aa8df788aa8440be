//! A cycle of requests, each of which acts before the next one.
//!
//! It is looked for from a request that was answered what another one overwrote, and leads back to it. That each acts before
//! the next one follows from the log. Nothing promises that a cycle is found, or that it is the shortest one.
use crate::doubles::LOOKS;
use crate::effects::{Effect, effect_by, shows};
use crate::links::Edge;
use crate::words::{Sight, Word};
use log_events::{LogRequest, Requests};
use search_effects::{is_needed, left};
use seq_memory::ReplyRef;
use std::alloc::{AllocError, Global};
use tlp_core::OpRef;

/// How many of the requests that are behind a posted write are looked at.
const BEHIND: usize = 32;

/// A request, by its place among all, and why it acts before another one.
#[derive(Clone, Copy)]
pub(crate) struct Hop {
    pub(crate) request: usize,
    pub(crate) edge: Edge,
}

/// What put a word there.
#[derive(Clone, Copy, PartialEq)]
enum Origin {
    /// It was there at the start.
    Start,
    /// This request did, and no other one.
    Request(usize),
    /// That isn't known.
    Unknown,
}

/// The operation's reply has all bytes of the word that are looked at.
fn has_all(op: &OpRef<'_>, word: &Word) -> bool {
    let from = word.address.saturating_sub(op.address()) as usize;
    for place in 0..4usize {
        if word.bytes[place].is_some() && !is_needed(op, from.saturating_add(place)) {
            return false;
        }
    }
    true
}

/// The requests that were reached from one.
#[derive(Drop)]
struct Reach<'a> {
    requests: &'a Requests<'a>,
    /// The request that it began with.
    first: usize,
    /// For each request that was reached, from which one.
    from: Vec<Option<Hop>>,
    /// Those that were reached, in their order.
    queue: Vec<usize>,
    /// The first request was reached from another one.
    back: Option<Hop>,
    /// How many requests may still be looked at.
    looks: usize,
}

impl<'a> Reach<'a> {
    fn new(
        alloc: Global,
        requests: &'a Requests<'a>,
        first: usize,
    ) -> Result<Reach<'a>, AllocError> {
        let mut queue = Vec::new(alloc);
        queue.push(first)?;
        Ok(Reach {
            requests,
            first,
            from: vec![in alloc; None; requests.all.len()]?,
            queue,
            back: None,
            looks: LOOKS,
        })
    }

    /// The request at that place among all.
    fn at(&self, place: usize) -> Option<LogRequest> {
        self.requests.all.get(place).copied()
    }

    /// The place where the request is submitted.
    fn submission(&self, place: usize) -> Option<usize> {
        let request = self.at(place)?;
        Some(request.submission)
    }

    /// All requests are looked at once.
    fn look(&mut self) {
        self.looks = self.looks.saturating_sub(self.requests.all.len());
    }

    /// Notes that the hop leads to a request.
    fn add(&mut self, place: usize, hop: Hop) -> Result<(), AllocError> {
        if place == self.first {
            if self.back.is_none() && hop.request != self.first {
                self.back = Some(hop);
            }
            return Ok(());
        }
        if let Some(from) = self.from.get_mut(place)
            && from.is_none()
        {
            *from = Some(hop);
            self.queue.push(place)?;
        }
        Ok(())
    }

    /// What becomes of the word by a request.
    fn effect(&self, sight: &Sight, request: &LogRequest) -> Effect {
        let extent = self.requests.extent;
        match self.requests.op(request) {
            Some(op) => effect_by(extent, sight, &op, self.requests.reply(request).as_ref()),
            None => Effect::Unknown,
        }
    }

    /// What put the word there.
    fn origin(&mut self, word: &Word) -> Origin {
        self.look();
        let sight = Sight::of(*word);
        let mut origin = if word.is_zero() {
            Some(Origin::Start)
        } else {
            None
        };
        for place in 0..self.requests.all.len() {
            let Some(request) = self.at(place) else {
                return Origin::Unknown;
            };
            match self.effect(&sight, &request) {
                Effect::Unknown => return Origin::Unknown,
                Effect::Puts if origin.is_some() => return Origin::Unknown,
                Effect::Puts => origin = Some(Origin::Request(place)),
                Effect::Keeps | Effect::Overwrites => {}
            }
        }
        origin.unwrap_or(Origin::Unknown)
    }

    /// What put the word there acted before the request.
    fn is_behind(&self, origin: Origin, request: &LogRequest) -> bool {
        match origin {
            Origin::Start => true,
            Origin::Unknown => false,
            Origin::Request(place) => match self.at(place) {
                Some(put) => self.is_ordered(&put, request),
                None => false,
            },
        }
    }

    /// The first request acted before the second: it was due before that was submitted, or is a posted write of its
    /// requester before it.
    fn is_ordered(&self, one: &LogRequest, other: &LogRequest) -> bool {
        let was_due = one.due.is_some_and(|due| due < other.submission);
        was_due || self.is_posted_before(one, other)
    }

    /// The first request is a posted write of the second one's requester, and submitted before it.
    fn is_posted_before(&self, one: &LogRequest, other: &LogRequest) -> bool {
        let Some(op) = self.requests.op(one) else {
            return false;
        };
        let is_own = self.requests.requester(one) == self.requests.requester(other);
        op.is_posted() && is_own && one.submission < other.submission
    }

    /// Goes to those that overwrote the word, which the request's answer shows.
    fn follow_overwritten(&mut self, place: usize, word: Word) -> Result<(), AllocError> {
        let origin = self.origin(&word);
        let by = match origin {
            Origin::Start => None,
            Origin::Request(by) if by != place => self.submission(by),
            _ => return Ok(()),
        };
        self.look();
        let sight = Sight::of(word);
        let edge = Edge::Overwritten(word, by);
        for other in (0..self.requests.all.len()).rev() {
            if let Some(request) = self.at(other)
                && other != place
                && self.effect(&sight, &request) == Effect::Overwrites
                && self.is_behind(origin, &request)
            {
                self.add(
                    other,
                    Hop {
                        request: place,
                        edge,
                    },
                )?;
            }
        }
        Ok(())
    }

    /// Goes to those whose answers show the word, which the request put there.
    fn follow_shown(&mut self, place: usize, word: Word) -> Result<(), AllocError> {
        if self.origin(&word) != Origin::Request(place) {
            return Ok(());
        }
        self.look();
        let sight = Sight::of(word);
        let edge = Edge::Shown(word);
        for other in (0..self.requests.all.len()).rev() {
            if let Some(request) = self.at(other)
                && other != place
                && let Some(op) = self.requests.op(&request)
                && has_all(&op, &word)
                && shows(&sight, &op, self.requests.reply(&request).as_ref())
            {
                self.add(
                    other,
                    Hop {
                        request: place,
                        edge,
                    },
                )?;
            }
        }
        Ok(())
    }

    /// Goes on by each DW that the request's answer shows.
    fn follow_answer(&mut self, place: usize, request: &LogRequest) -> Result<(), AllocError> {
        let requests = self.requests;
        let Some(op) = requests.op(request) else {
            return Ok(());
        };
        let Some(ReplyRef::Data(data)) = requests.reply(request) else {
            return Ok(());
        };
        let data = data.as_slice();
        for dw in 0..data.len() / 4 {
            let word = Word::shown_by(&op, data, 4 * dw);
            if word.is_some() && self.looks > 0 {
                self.follow_overwritten(place, word)?;
            }
        }
        Ok(())
    }

    /// Goes on by each DW that the request puts.
    fn follow_puts(&mut self, place: usize, request: &LogRequest) -> Result<(), AllocError> {
        let requests = self.requests;
        let Some(op) = requests.op(request) else {
            return Ok(());
        };
        let new = left(
            requests.extent.block(),
            &op,
            requests.reply(request).as_ref(),
        );
        for dw in 0..new.len() / 4 {
            let word = Word::put_by(&op, new.as_slice(), 4 * dw);
            if word.is_some() && self.looks > 0 {
                self.follow_shown(place, word)?;
            }
        }
        Ok(())
    }

    /// Goes on to the requests of its requester behind a posted write.
    fn follow_posted(&mut self, place: usize, request: &LogRequest) -> Result<(), AllocError> {
        let mut left = BEHIND;
        for other in (0..place).rev() {
            if left == 0 {
                return Ok(());
            }
            if let Some(next) = self.at(other)
                && self.is_posted_before(request, &next)
            {
                left -= 1;
                self.add(
                    other,
                    Hop {
                        request: place,
                        edge: Edge::Posted,
                    },
                )?;
            }
        }
        Ok(())
    }

    /// Goes back to the first request, if that was submitted after the request's answer.
    fn follow_time(&mut self, place: usize, request: &LogRequest) -> Result<(), AllocError> {
        let Some(first) = self.at(self.first) else {
            return Ok(());
        };
        match request.answer {
            Some(answer) if answer < first.submission => self.add(
                self.first,
                Hop {
                    request: place,
                    edge: Edge::Answered,
                },
            ),
            _ => Ok(()),
        }
    }

    /// Goes on from a request.
    fn follow(&mut self, place: usize) -> Result<(), AllocError> {
        let Some(request) = self.at(place) else {
            return Ok(());
        };
        self.follow_time(place, &request)?;
        self.follow_posted(place, &request)?;
        self.follow_puts(place, &request)?;
        self.follow_answer(place, &request)
    }

    /// The hops that lead to the first request again, the last one first.
    fn hops(&self, alloc: Global) -> Result<Vec<Hop>, AllocError> {
        let mut hops = Vec::new(alloc);
        let mut next = self.back;
        for _hop in 0..self.queue.len() {
            let Some(hop) = next else {
                break;
            };
            hops.push(hop)?;
            next = self.from.get(hop.request).copied().flatten();
        }
        Ok(hops)
    }
}

/// A cycle of requests through the one that was answered at the place, which is the first one; none if it isn't found.
pub(crate) fn cycle_by(
    alloc: Global,
    requests: &Requests<'_>,
    answer: usize,
) -> Result<Vec<Hop>, AllocError> {
    let all = requests.all.as_slice();
    let Some(first) = all
        .iter()
        .position(|request| request.answer == Some(answer))
    else {
        return Ok(Vec::new(alloc));
    };
    let mut reach = Reach::new(alloc, requests, first)?;
    for turn in 0..all.len() {
        let Some(place) = reach.queue.get(turn).copied() else {
            break;
        };
        if reach.back.is_some() || reach.looks == 0 {
            break;
        }
        reach.follow(place)?;
    }
    let mut hops = reach.hops(alloc)?;
    hops.reverse();
    Ok(hops)
}
