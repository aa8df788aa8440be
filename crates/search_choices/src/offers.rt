//! The steps that may be taken from a place, the most promising one first.
//!
//! The search goes for the request whose answer is due, or for the first posted write that has to act
//! before it.
ghost use Rattle.std.specs.Prelude.{◌≡◌, ◌↔◌, ◌++◌, ◌∷◌, [], ℕ, List, IfOk, OnOk, IfSome, IsTrue, false, length};
ghost use Rattle.std.specs.List.{All};
ghost use Rattle.log_runs.specs.Runs.{Allowed, Covers, IsForced, MayAct};
ghost use Rattle.search_places.specs.Places.{IsPlace};
ghost use Rattle.search_others.specs.Known.{AreOthers};
ghost use Rattle.search_choices.specs.Offered.{Offers, IsOnly, NeedNotAct};

use crate::alike::is_preceded;
use crate::guesses::{Turn, guess, write_before};
use crate::links::Links;
use log_runs::{Event, Log, Step};
use search_others::{Others, is_idle};
use search_places::Place;
use search_places::laws::who_is_left_is_pending;
use search_rules::laws::{idle_requests_may_wait, the_first_of_alike_requests_acts_first};
use search_rules::never_brings;
use std::alloc::{AllocError, Global};
use tlp_core::OpRef;

/// What says which steps are tried first, and which requests may be alike.
#[derive(Clone, Copy)]
pub struct Hints<'a> {
    /// When requests act in runs through parts of the log.
    pub turns: &'a [Turn],
    pub links: &'a Links,
}

/// A place of a log, and what is known of the log's requests.
#[derive(Clone, Copy)]
struct Scene<'s, 'l, 'o, 'p> {
    log: &'s Log<'l>,
    others: &'o Others,
    place: &'p Place,
}

/// How much a request has to do with the one that the search goes for. The first are tried first.
#[derive(Clone, Copy)]
enum Rank {
    /// It is the guess.
    Guess,
    /// It is the one that the search goes for.
    Target,
    /// It may bring what that one needs.
    Helps,
    /// They have bytes in common.
    Near,
    /// So they have, and it is a posted write, which may wait.
    Write,
    Far,
    /// It wasn't answered and isn't posted, so it need not act at all.
    Open,
}

impl Rank {
    fn number(self) -> u64 {
        match self {
            Rank::Guess => 0,
            Rank::Target => 1,
            Rank::Helps => 2,
            Rank::Near => 3,
            Rank::Write => 4,
            Rank::Far => 5,
            Rank::Open => 6,
        }
    }
}

/// What the search goes for.
#[derive(Clone, Copy)]
struct Aim {
    /// The request that it goes for.
    target: Option<usize>,
    /// The request that is tried first.
    guess: Option<usize>,
}

/// The operations have a byte in common.
fn meet(one: &OpRef<'_>, other: &OpRef<'_>) -> bool {
    let (a, b) = (one.address(), other.address());
    if a <= b {
        b - a < u64::from(one.size())
    } else {
        a - b < u64::from(other.size())
    }
}

/// The rank of request `b`, which isn't the guess, where the search goes for `target`.
fn rank_beside(log: &Log, target: usize, b: usize) -> Rank {
    let (
        Some(
            Event::Sub {
                op: one,
                reply: wanted,
                ..
            },
        ),
        Some(Event::Sub { op, reply, .. }),
    ) = (log.event(target), log.event(b))
    else {
        return Rank::Far;
    };
    if wanted.is_some() && !never_brings(log, b, target) {
        return Rank::Helps;
    }
    if reply.is_none() && !op.is_posted() {
        return Rank::Open;
    }
    if !meet(&one, &op) {
        return Rank::Far;
    }
    if op.is_posted() {
        Rank::Write
    } else {
        Rank::Near
    }
}

fn rank_of(log: &Log, aim: Aim, b: usize) -> Rank {
    if aim.guess == Some(b) {
        return Rank::Guess;
    }
    match aim.target {
        Some(target) => if b == target {
            Rank::Target
        } else {
            rank_beside(log, target, b)
        },
        None => Rank::Far,
    }
}

/// A number for the step: those with the least are tried first. Of one rank the request that must act
/// first is first.
fn number_of(log: &Log, others: &Others, aim: Aim, step: Step) -> u64 {
    const MOST: u64 = (1 << 56) - 1;
    let Step::Act(b) = step else {
        return 0;
    };
    let due = match others.held_until(log, b) {
        Some((at, _)) => MOST.min(at as u64),
        None => MOST,
    };
    (rank_of(log, aim, b).number() << 56) + due
}

/// Of each requester the first posted write, as far as they were looked at.
#[derive(Clone, Copy)]
struct Writes {
    first: [usize; 8],
}

/// No place.
const NOWHERE: usize = usize::MAX;

impl Writes {
    /// None was looked at.
    fn none() -> Writes {
        Writes {
            first: [NOWHERE; 8],
        }
    }

    /// The first posted write before request `b`, which is looked at now, if there is one.
    fn before(&mut self, log: &Log, b: usize) -> usize {
        let Some(Event::Sub { requester, op, .. }) = log.event(b) else {
            return NOWHERE;
        };
        let who = usize::from(requester % 8);
        let first = self.first[who];
        if first == NOWHERE && op.is_posted() {
            self.first[who] = b;
        }
        first
    }
}

/// The request whose answer is due, or the first posted write that has to act before it.
fn target(place: &Place, log: &Log) -> Option<usize> {
    match log.event(place.event()) {
        Some(Event::Due { request }) => match write_before(place, log, request) {
            Some(write) => Some(write),
            None => Some(request),
        },
        _ => None,
    }
}

/// The next event, if it may be passed.
fn passing(alloc: Global, log: &Log, place: &Place) -> Result<Vec<Step>, AllocError>
    ensures { IfOk result (λ v. (due : List ℕ) → Offers log.now place.now.state due v.items []) }
{
    let mut steps = Vec::new(alloc);
    if !place.may_pass(log) {
        return Ok(steps);
    }
    steps.push(Step::Pass)?;
    Ok(steps)
}

/// Request `b`, if it may act. It may be that it waits for the posted write `c`.
fn look(
    steps: &mut Vec<Step>,
    log: &Log,
    place: &Place,
    b: usize,
    c: usize,
) -> Result<(), AllocError>
    requires { IsPlace log.now place.now }
    ensures { OnOk result ((due : List ℕ) (p : List ℕ) → Offers log.now place.now.state due steps.old.items p →
        Offers log.now place.now.state due steps.new.items (p ++ b ∷ [])) }
{
    if place.waits_for(log, b, c) {
        return Ok(());
    }
    if !place.may_act(log, b) {
        return Ok(());
    }
    steps.push(Step::Act(b))?;
    Ok(())
}

/// [`look`], unless another request precedes it, or it is idle.
fn offer(
    steps: &mut Vec<Step>,
    scene: Scene<'_, '_, '_, '_>,
    links: &Links,
    b: usize,
    c: usize,
) -> Result<(), AllocError>
    requires place { IsPlace scene.log.now scene.place.now }
    requires others { AreOthers scene.log.now scene.others.now }
    ensures { OnOk result ((p : List ℕ) → Offers scene.entry.log.now scene.entry.place.now.state scene.entry.others.now.due steps.old.items p →
        Offers scene.entry.log.now scene.entry.place.now.state scene.entry.others.now.due steps.new.items (p ++ b ∷ [])) }
{
    let Scene { log, others, place } = scene;
    place.note_looks(1);
    if is_preceded(place, log, others, links, b) {
        return Ok(());
    }
    if is_idle(place, log, others, b) {
        return Ok(());
    }
    look(steps, log, place, b, c)?;
    Ok(())
}

/// The steps that are enough, in no order: all that may be taken, but for those of requests that others precede, or that are
/// idle.
fn allowed(
    alloc: Global,
    scene: Scene<'_, '_, '_, '_>,
    links: &Links,
) -> Result<Vec<Step>, AllocError>
    requires place { IsPlace scene.log.now scene.place.now }
    requires others { AreOthers scene.log.now scene.others.now }
    ensures { IfOk result (λ v. Offers scene.entry.log.now scene.entry.place.now.state scene.entry.others.now.due v.items scene.entry.place.now.pending) }
{
    let Scene { log, place, .. } = scene;
    let mut steps = passing(alloc, log, place)?;
    let mut writes = Writes::none();
    for b in place.pending() {
        offer(&mut steps, scene, links, *b, writes.before(log, *b))?;
    }
    Ok(steps)
}

/// Request `b` may act. It may be that it waits for that posted write.
fn may_act(log: &Log, place: &Place, b: usize, write: usize) -> bool
    requires { IsPlace log.now place.now }
    ensures { IsTrue result ↔ MayAct log.now place.now.state b }
{
    if place.waits_for(log, b, write) {
        return false;
    }
    place.may_act(log, b)
}

/// Request `b` may act, and as far as is known no other precedes it and it isn't idle. It may be that it waits for that posted
/// write.
fn is_open(scene: Scene<'_, '_, '_, '_>, links: &Links, b: usize, write: usize) -> bool
    requires place { IsPlace scene.log.now scene.place.now }
    requires others { AreOthers scene.log.now scene.others.now }
    ensures yes { IsTrue result → MayAct scene.entry.log.now scene.entry.place.now.state b }
    ensures no { result ≡ false → MayAct scene.entry.log.now scene.entry.place.now.state b →
        NeedNotAct scene.entry.log.now scene.entry.place.now.state scene.entry.others.now.due b }
{
    let Scene { log, others, place } = scene;
    if !may_act(log, place, b, write) {
        return false;
    }
    if is_preceded(place, log, others, links, b) {
        return false;
    }
    !is_idle(place, log, others, b)
}

/// The only pending request that may act, if there is just one, but for those that others precede, or that are idle.
fn only_act(scene: Scene<'_, '_, '_, '_>, links: &Links) -> Option<usize>
    requires place { IsPlace scene.log.now scene.place.now }
    requires others { AreOthers scene.log.now scene.others.now }
    ensures { IfSome result (IsOnly scene.entry.log.now scene.entry.place.now.state scene.entry.others.now.due scene.entry.place.now.pending) }
{
    let Scene { log, place, .. } = scene;
    let mut only = None;
    let mut writes = Writes::none();
    for b in place.pending() {
        if is_open(scene, links, *b, writes.before(log, *b)) {
            if only.is_some() {
                return None;
            }
            only = Some(*b);
        }
    }
    only
}

/// The only step that is enough, if there is just one, and it isn't that the next event is passed: a request acts, and each
/// other that may act is preceded or idle.
pub fn only_step(log: &Log, others: &Others, links: &Links, place: &Place) -> Option<Step>
    requires place { IsPlace log.now place.now }
    requires others { AreOthers log.now others.now }
    requires more { place.now.state.event ≡ length log.now.events → ⊥ }
    ensures { IfSome result (IsForced log.now place.now.state) }
{
    who_is_left_is_pending();
    the_first_of_alike_requests_acts_first();
    idle_requests_may_wait();
    if place.may_pass(log) {
        return None;
    }
    let scene = Scene { log, others, place };
    let only = only_act(scene, links)?;
    Some(Step::Act(only))
}

/// The steps that are enough, if one leads on: all that may be taken, but for those of requests that another one, which is
/// alike, precedes, or that were never answered while nobody needs what they leave. `hints` and what is known of the log's
/// requests say which are tried first.
pub fn choices(
    alloc: Global,
    log: &Log,
    others: &Others,
    hints: Hints<'_>,
    place: &Place,
) -> Result<Vec<Step>, AllocError>
    requires place { IsPlace log.now place.now }
    requires others { AreOthers log.now others.now }
    requires more { place.now.state.event ≡ length log.now.events → ⊥ }
    ensures allowed { IfOk result (λ v. All (Allowed log.now place.now.state) v.items) }
    ensures covers { IfOk result (λ v. Covers log.now place.now.state v.items) }
{
    who_is_left_is_pending();
    the_first_of_alike_requests_acts_first();
    idle_requests_may_wait();
    let target = target(place, log);
    let guess = guess(place, log, hints.turns, target);
    let aim = Aim { target, guess };
    let scene = Scene { log, others, place };
    let mut steps = allowed(alloc, scene, hints.links)?;
    place.note_looks(steps.len() as u64);
    steps.sort_by_cached_key(|step| number_of(log, others, aim, *step))?;
    Ok(steps)
}
