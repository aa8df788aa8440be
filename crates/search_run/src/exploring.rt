//! Whether a run leads through a log to its end.
ghost use Rattle.std.specs.Prelude.{◌≡◌, ◌<◌, ◌≤◌, ◌↔◌, ◌-◌, ◌*◌, IfOk, OnOk, IsTrue, length};
ghost use Rattle.log_runs.specs.LogView.{LogView};
ghost use Rattle.search_forced.specs.Catalogs.{IsCatalog};
ghost use Rattle.search_run.specs.Frames.{IsAt};
ghost use Rattle.search_run.specs.Ends.{Ends};
ghost use Rattle.search_run.specs.Outcomes.{IsRight};
ghost use Rattle.search_run.specs.Watched.{Is, Saw};

use crate::walk::{Walk, advance, begin, settle};
use crate::watching::{Spot, Unwatched, Watch};
use log_runs::{Log, Step};
use search_forced::{Catalog, Way, catalog_of};
use std::alloc::{AllocError, Global};

/// Which bound ended a search.
#[derive(Clone, Copy, PartialEq)]
pub enum Bound {
    /// It looked at as many choices as it may.
    Choices,
    /// It did as much work as it may.
    Work,
}

/// What a search for a run says.
#[derive(Drop)]
pub enum Outcome {
    /// These steps lead from the start to the end.
    Run(Vec<Step>),
    /// No steps do.
    Dead,
    /// It wasn't found out within this bound.
    Limit(Bound),
}

/// What a search found out.
#[derive(Drop)]
pub struct Exploration {
    pub outcome: Outcome,
    /// How many choices were looked at.
    pub states: u64,
    /// No answer behind this place of the log was needed to see that there is no run.
    pub reach: usize,
    /// How much work is left.
    pub work: u64,
}

/// How much a search may do.
#[derive(Clone, Copy)]
pub struct Bounds {
    /// How many choices it looks at.
    pub choices: u64,
    /// How much work it does: about as many steps, or requests that are looked at for one. `u64::MAX` is as much as it takes.
    pub work: u64,
}

/// How the search of a walk ended.
#[derive(Clone, Copy)]
pub(crate) enum End {
    /// The walk led from the start of the log to its end.
    Run,
    /// No steps do.
    Dead,
    /// It wasn't found out within this bound.
    Limit(Bound),
}

/// Takes the steps that may be taken at once. Whether they lead to the end.
fn finishes(
    walk: &mut Walk,
    alloc: Global,
    log: &Log,
    catalog: &Catalog,
) -> Result<bool, AllocError>
    requires at { IsAt log.now walk.old }
    requires catalog { IsCatalog log.now catalog.now }
    ensures at { OnOk result (IsAt log.now walk.new) }
    ensures over { IfOk result (λ over. IsTrue over ↔ walk.new.here.state.event ≡ length log.now.events) }
    ensures work { OnOk result (walk.new.work ≤ walk.old.work) }
{
    settle(walk, alloc, log, catalog)?;
    Ok(walk.here.event() == log.len())
}

/// Where a run is looked for, and within which bounds.
#[derive(Clone, Copy)]
struct Course<'a> {
    log: &'a Log<'a>,
    catalog: &'a Catalog<'a>,
    bounds: Bounds,
}

/// How far the search is.
fn spot_of(walk: &Walk) -> Spot {
    Spot {
        event: walk.here.event(),
        open: walk.here.pending().len(),
        range: None,
        work: walk.work,
    }
}

/// Goes on from the start of the log, within the bounds. How it ended, and how many choices were looked at.
fn choose<W: Watch>(
    walk: &mut Walk,
    alloc: Global,
    course: Course<'_>,
    watch: &mut W,
) -> Result<(End, u64), AllocError>
    requires at { IsAt course.log.now walk.old }
    requires catalog { IsCatalog course.log.now course.catalog.now }
    ensures right { IfOk result (λ r. Ends course.entry.log.now walk.new r.0) }
    ensures states { IfOk result (λ r. r.1 ≤ course.entry.bounds.choices) }
    ensures limit { IfOk result (λ r. r.0 ≡ End.Limit Bound.Choices → r.1 ≡ course.entry.bounds.choices) }
    ensures work { IfOk result (λ r. r.0 ≡ End.Limit Bound.Work → course.entry.bounds.work < 18446744073709551615) }
    ensures less { IfOk result (λ r. r.0 ≡ End.Limit Bound.Work → r.1 < course.entry.bounds.choices) }
    ensures spent { IfOk result (λ r. r.0 ≡ End.Limit Bound.Work → walk.new.work ≡ 0) }
    ensures cost { IfOk result (λ r. walk.new.work ≤ walk.old.work - 256 * r.1) }
    ensures saw { IfOk result (λ r. Saw W.sees (Is course.entry.log.now) r.1 watch.old watch.new) }
{
    let Course {
        log,
        catalog,
        bounds,
    } = course;
    let limit = bounds.choices;
    for states in 0..limit {
        if finishes(walk, alloc, log, catalog)? {
            return Ok((End::Run, states));
        }
        if walk.work == 0 && bounds.work < u64::MAX {
            return Ok((End::Limit(Bound::Work), states));
        }
        watch.choice(spot_of(walk), log, &walk.here);
        if !advance(walk, alloc, log, catalog)? {
            return Ok((End::Dead, states + 1));
        }
    }
    if finishes(walk, alloc, log, catalog)? {
        return Ok((End::Run, limit));
    }
    Ok((End::Limit(Bound::Choices), limit))
}

/// A search that is asked for.
#[derive(Clone, Copy)]
struct Quest<'a> {
    log: &'a Log<'a>,
    way: Way<'a>,
    bounds: Bounds,
}

/// Goes from the start of the log, within the bounds. How it ended, and how many choices were looked at. What it knew of the
/// log's requests is free again.
fn ended<W: Watch>(
    walk: &mut Walk,
    alloc: Global,
    quest: Quest<'_>,
    watch: &mut W,
) -> Result<(End, u64), AllocError>
    requires { IsAt quest.log.now walk.old }
    ensures right { IfOk result (λ r. Ends quest.entry.log.now walk.new r.0) }
    ensures states { IfOk result (λ r. r.1 ≤ quest.entry.bounds.choices) }
    ensures limit { IfOk result (λ r. r.0 ≡ End.Limit Bound.Choices → r.1 ≡ quest.entry.bounds.choices) }
    ensures work { IfOk result (λ r. r.0 ≡ End.Limit Bound.Work → quest.entry.bounds.work < 18446744073709551615) }
    ensures less { IfOk result (λ r. r.0 ≡ End.Limit Bound.Work → r.1 < quest.entry.bounds.choices) }
    ensures spent { IfOk result (λ r. r.0 ≡ End.Limit Bound.Work → walk.new.work ≡ 0) }
    ensures cost { IfOk result (λ r. walk.new.work ≤ walk.old.work - 256 * r.1) }
    ensures saw { IfOk result (λ r. Saw W.sees (Is quest.entry.log.now) r.1 watch.old watch.new) }
{
    let Quest { log, way, bounds } = quest;
    let mut catalog = catalog_of(alloc, log, way)?;
    if finishes(walk, alloc, log, &catalog)? {
        return Ok((End::Run, 0));
    }
    catalog.note_calm(log);
    catalog.note_alike(alloc, log)?;
    let course = Course {
        log,
        catalog: &catalog,
        bounds,
    };
    let found = choose(walk, alloc, course, watch)?;
    Ok(found)
}

/// What the search of the walk says that ended so.
fn outcome_of(alloc: Global, walk: &Walk, end: End) -> Result<Outcome, AllocError>
    ensures right { IfOk result (λ outcome. (log : LogView) → Ends log walk.now end → IsRight log outcome) }
    ensures limit { IfOk result (λ outcome. (bound : Bound) → outcome ≡ Outcome.Limit bound → end ≡ End.Limit bound) }
{
    match end {
        End::Run => {
            let steps = walk.stack.steps(alloc)?;
            Ok(Outcome::Run(steps))
        }
        End::Dead => Ok(Outcome::Dead),
        End::Limit(bound) => Ok(Outcome::Limit(bound)),
    }
}

/// Looks for steps that lead from the start of the log to its end, within the bounds. `watch` sees each choice that is
/// looked at: it is at a state to which steps lead from the start, and not at the end. Each costs 256 of the work, and more.
/// Where the work ended the search, none is left.
pub fn explore_watched<W: Watch>(
    alloc: Global,
    log: &Log,
    way: Way,
    bounds: Bounds,
    watch: &mut W,
) -> Result<Exploration, AllocError>
    ensures right { IfOk result (λ r. IsRight log.now r.outcome) }
    ensures states { IfOk result (λ r. r.states ≤ bounds.choices) }
    ensures limit { IfOk result (λ r. r.outcome ≡ Outcome.Limit Bound.Choices → r.states ≡ bounds.choices) }
    ensures work { IfOk result (λ r. r.outcome ≡ Outcome.Limit Bound.Work → bounds.work < 18446744073709551615) }
    ensures less { IfOk result (λ r. r.outcome ≡ Outcome.Limit Bound.Work → r.states < bounds.choices) }
    ensures spent { IfOk result (λ r. r.outcome ≡ Outcome.Limit Bound.Work → r.work ≡ 0) }
    ensures cost { IfOk result (λ r. r.work ≤ bounds.work - 256 * r.states) }
    ensures saw { IfOk result (λ r. Saw W.sees (Is log.now) r.states watch.old watch.new) }
{
    let mut walk = begin(alloc, log, bounds.work)?;
    let (end, states) = ended(&mut walk, alloc, Quest { log, way, bounds }, watch)?;
    let outcome = outcome_of(alloc, &walk, end)?;
    Ok(Exploration {
        outcome,
        states,
        reach: walk.reach,
        work: walk.work,
    })
}

/// [`explore_watched`], which nobody sees.
pub fn explore(
    alloc: Global,
    log: &Log,
    way: Way,
    bounds: Bounds,
) -> Result<Exploration, AllocError>
    ensures right { IfOk result (λ r. IsRight log.now r.outcome) }
    ensures states { IfOk result (λ r. r.states ≤ bounds.choices) }
    ensures limit { IfOk result (λ r. r.outcome ≡ Outcome.Limit Bound.Choices → r.states ≡ bounds.choices) }
    ensures work { IfOk result (λ r. r.outcome ≡ Outcome.Limit Bound.Work → bounds.work < 18446744073709551615) }
    ensures less { IfOk result (λ r. r.outcome ≡ Outcome.Limit Bound.Work → r.states < bounds.choices) }
    ensures spent { IfOk result (λ r. r.outcome ≡ Outcome.Limit Bound.Work → r.work ≡ 0) }
    ensures cost { IfOk result (λ r. r.work ≤ bounds.work - 256 * r.states) }
{
    explore_watched(alloc, log, way, bounds, &mut Unwatched)
}
