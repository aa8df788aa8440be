//! Each cell of the memory alone.
ghost use Rattle.std.specs.Prelude.{◌≡◌, ◌≤◌, IfOk, IsSome};
ghost use Rattle.log_runs.specs.Runs.{Dead, start};
ghost use Rattle.log_cells.specs.Places.{ArePlaces};
ghost use Rattle.search_run.specs.Watched.{Saw, Spends};
ghost use Rattle.search_history.specs.Looks.{IsOn, IsPartOf, IsUnder};

use crate::within::{Within, explore_within};
use log_cells::{Cells, part};
use log_runs::{Log, Step};
use search_choices::{NO_PART, Turn};
use search_run::{Bound, Bounds, Exploration, Outcome, Watch};
use std::alloc::{AllocError, Global};

/// A log, and the cells that it may be cut by.
#[derive(Clone, Copy)]
pub(crate) struct Field<'a> {
    pub(crate) log: &'a Log<'a>,
    pub(crate) cells: &'a Cells,
}

/// What was found out of the part of a log on a range of bytes.
#[derive(Drop)]
pub(crate) struct Explored {
    /// How far it reached is told by a place of the whole log.
    pub(crate) found: Exploration,
    /// The places in the log of the part's events.
    pub(crate) names: Vec<usize>,
}

/// Looks for a run through the part of the log on the bytes from `range.0` up to `range.1`, within the
/// bounds.
pub(crate) fn explored_on<W: Watch>(
    alloc: Global,
    field: Field<'_>,
    range: (u64, u64),
    bounds: Bounds,
    watch: &mut W,
) -> Result<Explored, AllocError>
    requires places { ArePlaces field.log.now.events field.cells.now.places }
    ensures dead { IfOk result (λ r. r.found.outcome ≡ Outcome.Dead → Dead field.entry.log.now (start field.entry.log.now)) }
    ensures states { IfOk result (λ r. r.found.states ≤ bounds.choices) }
    ensures saw { IfOk result (λ r. Saw W.sees (IsOn field.entry.log.now) r.found.states watch.old watch.new) }
{
    let Field { log, cells } = field;
    let Some(part) = part(alloc, log, cells, range.0, range.1)? else {
        let found = Exploration {
            outcome: Outcome::Limit(Bound::Choices),
            states: 0,
            reach: 0,
            work: bounds.work,
        };
        return Ok(Explored {
            found,
            names: Vec::new(alloc),
        });
    };
    let mut within = Within {
        watch,
        names: &part.names,
        range: Some(range),
    };
    let found = explore_within(alloc, log, &part.log, bounds, &mut within)?;
    Ok(Explored {
        found,
        names: part.names,
    })
}

/// A range of cells on which there is no run.
#[derive(Clone, Copy)]
pub(crate) struct DeadRange {
    /// The addresses where it begins and ends.
    pub(crate) range: (u64, u64),
    /// No answer behind this place of the log was needed to see that.
    pub(crate) reach: usize,
}

/// What was found out of the parts of a log.
#[derive(Drop)]
pub(crate) struct Parts {
    pub(crate) dead: Option<DeadRange>,
    /// When requests act in the runs that were found, by their places in the log.
    pub(crate) turns: Vec<Turn>,
    /// How many choices were looked at.
    pub(crate) states: u64,
    /// How much work is left.
    pub(crate) work: u64,
}

/// The request isn't in a run.
const NO_TURN: Turn = Turn {
    part: NO_PART,
    before: 0,
    since: 0,
};

/// The place in the log, if the name is one in a list of such places, or in the log itself.
fn named(places: Option<&[usize]>, name: usize) -> Option<usize> {
    match places {
        Some(places) => places.get(name).copied(),
        None => Some(name),
    }
}

/// Notes when the requests act in a run through a part, whose events have these names.
fn note(
    turns: &mut Vec<Turn>,
    part: u32,
    places: Option<&[usize]>,
    names: &[usize],
    steps: &[Step],
) {
    let mut before = 0u32;
    let mut since = 0u32;
    for step in steps {
        if let Step::Act(b) = step
            && let Some(name) = names.get(*b)
            && let Some(name) = named(places, *name)
            && name < turns.len()
        {
            turns[name] = Turn {
                part,
                before,
                since,
            };
            before = before.saturating_add(1);
            since = since.max(u32::try_from(name.saturating_add(1)).unwrap_or(u32::MAX));
        }
    }
}

/// Ranges of cells of a log, from one on and before another.
#[derive(Clone, Copy)]
struct Ranges<'a> {
    cells: &'a Cells,
    first: usize,
    end: usize,
}

impl Ranges<'_> {
    /// The addresses where they begin and end.
    fn whole(self) -> Option<(u64, u64)> {
        let last = self.end.checked_sub(1)?;
        Some((self.cells.range(self.first)?.0, self.cells.range(last)?.1))
    }
}

/// Ranges of cells of a log that are looked at in it, or in a part of it.
#[derive(Clone, Copy)]
struct Task<'a> {
    /// The log, of which the field's may be a part.
    whole: &'a Log<'a>,
    field: Field<'a>,
    ranges: Ranges<'a>,
    /// If it is a part, the places in the log of its events.
    places: Option<&'a [usize]>,
}

/// What was found out of ranges, and the choices and the work that are left.
#[derive(Drop)]
struct Tried {
    dead: Option<DeadRange>,
    left: Bounds,
}

impl<'a> Field<'a> {
    /// Ranges of its own cells, from one on and before another.
    fn task(self, first: usize, end: usize) -> Task<'a>
        ensures log { result.field.log.now ≡ self.entry.log.now }
        ensures cells { result.field.cells.now ≡ self.entry.cells.now }
        ensures whole { result.whole.now ≡ self.entry.log.now }
    {
        Task {
            whole: self.log,
            field: self,
            ranges: Ranges {
                cells: self.cells,
                first,
                end,
            },
            places: None,
        }
    }
}

fn so_far(dead: Option<DeadRange>, choices: u64, work: u64) -> Tried
    ensures dead { result.dead ≡ dead }
    ensures choices { result.left.choices ≡ choices }
{
    Tried {
        dead,
        left: Bounds { choices, work },
    }
}

/// Looks for one of the ranges on which the log's part has no run, so that the log has none. Looks at each
/// range within the bounds, at no more than a quarter of what is left of the choices.
fn each_of<W: Watch>(
    alloc: Global,
    task: Task<'_>,
    turns: &mut Vec<Turn>,
    bounds: Bounds,
    watch: &mut W,
) -> Result<Tried, AllocError>
    requires places { ArePlaces task.field.log.now.events task.field.cells.now.places }
    requires of { IsUnder task.whole.now task.field.log.now }
    ensures dead { IfOk result (λ r. IsSome r.dead → Dead task.entry.field.log.now (start task.entry.field.log.now)) }
    ensures states { IfOk result (λ r. r.left.choices ≤ bounds.choices) }
    ensures saw { IfOk result (λ r. Spends W.sees (IsPartOf task.entry.whole.now) bounds.choices r.left.choices watch.old watch.new) }
{
    let Task {
        field,
        ranges,
        places,
        ..
    } = task;
    let mut left = bounds.choices;
    let mut work = bounds.work;
    for number in ranges.first..ranges.end {
        let Some(range) = ranges.cells.range(number) else {
            break;
        };
        let part = u32::try_from(number).unwrap_or(NO_PART);
        let each = Bounds {
            choices: left / 4,
            work,
        };
        let Explored { found, names } = explored_on(alloc, field, range, each, watch)?;
        left -= found.states;
        work = found.work;
        match found.outcome {
            Outcome::Run(steps) => note(turns, part, places, &names, &steps),
            Outcome::Dead => {
                let reach = named(places, found.reach).unwrap_or(usize::MAX);
                return Ok(so_far(Some(DeadRange { range, reach }), left, work));
            }
            Outcome::Limit(_) => {}
        }
    }
    Ok(so_far(None, left, work))
}

/// [`each_of`], seen within a part of the log.
fn each_seen_within<W: Watch>(
    alloc: Global,
    task: Task<'_>,
    turns: &mut Vec<Turn>,
    bounds: Bounds,
    within: &mut Within<'_, '_, W>,
) -> Result<Tried, AllocError>
    requires places { ArePlaces task.field.log.now.events task.field.cells.now.places }
    requires of { IsUnder task.whole.now task.field.log.now }
    ensures dead { IfOk result (λ r. IsSome r.dead → Dead task.entry.field.log.now (start task.entry.field.log.now)) }
    ensures states { IfOk result (λ r. r.left.choices ≤ bounds.choices) }
    ensures same { IfOk result (λ r. within.new.watch.ghost_name ≡ within.old.watch.ghost_name) }
    ensures saw { IfOk result (λ r. Spends W.sees (IsPartOf task.entry.whole.now) bounds.choices r.left.choices within.old.watch.now within.new.watch.now) }
{
    let tried = each_of(alloc, task, turns, bounds, within)?;
    Ok(tried)
}

/// [`each_of`], in the part of the log on all of the ranges.
fn each_within<W: Watch>(
    alloc: Global,
    task: Task<'_>,
    turns: &mut Vec<Turn>,
    bounds: Bounds,
    watch: &mut W,
) -> Result<Tried, AllocError>
    requires places { ArePlaces task.field.log.now.events task.field.cells.now.places }
    ensures dead { IfOk result (λ r. IsSome r.dead → Dead task.entry.field.log.now (start task.entry.field.log.now)) }
    ensures states { IfOk result (λ r. r.left.choices ≤ bounds.choices) }
    ensures saw { IfOk result (λ r. Spends W.sees (IsPartOf task.entry.field.log.now) bounds.choices r.left.choices watch.old watch.new) }
{
    let Field { log, cells } = task.field;
    let Some((low, high)) = task.ranges.whole() else {
        return Ok(so_far(None, bounds.choices, bounds.work));
    };
    let Some(group) = part(alloc, log, cells, low, high)? else {
        return Ok(so_far(None, bounds.choices, bounds.work));
    };
    let inner = Cells::of(alloc, &group.log)?;
    let within = Task {
        whole: log,
        field: Field {
            log: &group.log,
            cells: &inner,
        },
        ranges: task.ranges,
        places: Some(&group.names),
    };
    let mut seen = Within {
        watch,
        names: &group.names,
        range: None,
    };
    each_seen_within(alloc, within, turns, bounds, &mut seen)
}

/// How many ranges a part of a log has at least that is found by way of a part on several.
const MANY: usize = 16;

/// How many of them such a part has: about the root of their number.
fn group_of(count: usize) -> usize {
    (1..MANY)
        .find(|root| root.saturating_mul(root.saturating_mul(16)) >= count)
        .unwrap_or(MANY)
        .saturating_mul(4)
}

/// [`each_of`], all ranges of the log. If they are many, they are looked for by groups.
fn each_part<W: Watch>(
    alloc: Global,
    field: Field<'_>,
    turns: &mut Vec<Turn>,
    bounds: Bounds,
    watch: &mut W,
) -> Result<Tried, AllocError>
    requires places { ArePlaces field.log.now.events field.cells.now.places }
    ensures dead { IfOk result (λ r. IsSome r.dead → Dead field.entry.log.now (start field.entry.log.now)) }
    ensures states { IfOk result (λ r. r.left.choices ≤ bounds.choices) }
    ensures saw { IfOk result (λ r. Spends W.sees (IsPartOf field.entry.log.now) bounds.choices r.left.choices watch.old watch.new) }
{
    let count = field.cells.count();
    if count < MANY {
        let all = field.task(0, count);
        return each_of(alloc, all, turns, bounds, watch);
    }
    let size = group_of(count);
    let mut left = bounds;
    for group in 0..count {
        let first = group.saturating_mul(size);
        if first >= count {
            break;
        }
        let task = field.task(first, first.saturating_add(size).min(count));
        let found = each_within(alloc, task, turns, left, watch)?;
        left = found.left;
        if found.dead.is_some() {
            return Ok(found);
        }
    }
    Ok(so_far(None, left.choices, left.work))
}

/// Looks for a range of cells on which the log's part has no run, so that the log has none, within the bounds.
pub(crate) fn parts_of<W: Watch>(
    alloc: Global,
    log: &Log<'_>,
    bounds: Bounds,
    watch: &mut W,
) -> Result<Parts, AllocError>
    ensures dead { IfOk result (λ r. IsSome r.dead → Dead log.now (start log.now)) }
    ensures states { IfOk result (λ r. r.states ≤ bounds.choices) }
    ensures saw { IfOk result (λ r. Saw W.sees (IsPartOf log.now) r.states watch.old watch.new) }
{
    let cells = Cells::of(alloc, log)?;
    if cells.count() <= 1 {
        return Ok(Parts {
            dead: None,
            turns: Vec::new(alloc),
            states: 0,
            work: bounds.work,
        });
    }
    let mut turns = vec![in alloc; NO_TURN; log.len()]?;
    let field = Field { log, cells: &cells };
    let Tried { dead, left } = each_part(alloc, field, &mut turns, bounds, watch)?;
    Ok(Parts {
        dead,
        turns,
        states: bounds.choices - left.choices,
        work: left.work,
    })
}
