//! The frames of the search, and what is tried there.
ghost use Rattle.std.specs.Prelude.{◌≡◌, ◌≤◌, ◌-◌, ◌∷◌, [], false, length, IsTrue, IfOk, OnOk, IfSome};
ghost use Rattle.std.specs.List.{All, Contains};
ghost use Rattle.log_runs.specs.LogView.{LogView};
ghost use Rattle.log_runs.specs.Runs.{State, Allowed, Dead, next, start};
ghost use Rattle.search_places.specs.Places.{IsPlace};
ghost use Rattle.search_places.specs.Undo.{LeadsBy};
ghost use Rattle.search_forced.specs.Catalogs.{IsCatalog};
ghost use Rattle.search_run.specs.Frames as frames;

use crate::stack::Stack;
use log_runs::{Log, Step};
use search_choices::choices;
use search_forced::{Catalog, Look, Losses, at_once, forced, work_for};
use search_others::due_is_lost;
use search_places::{Memo, Place};
use std::alloc::{AllocError, Global};

/// Of so many events to come it is looked whether their requests are lost.
const SOON: usize = 128;

/// How much work a choice is.
const CHOICE: u64 = 256;

/// A step that is lost at once stays noted only while no more than so many steps are. So the frames keep no more
/// steps than these and the choices that were looked at.
const MOST_NOTED: usize = 1 << 18;

#[derive(Drop)]
pub(crate) struct Walk {
    pub(crate) stack: Stack,
    pub(crate) here: Place,
    pub(crate) memo: Memo,
    /// What the steps since the last frame overwrote.
    losses: Losses,
    /// Which requests may act at once, and couldn't at the last frame.
    look: Look,
    /// No answer behind this place of the log was needed to see that a state is dead.
    pub(crate) reach: usize,
    /// How much work is left.
    pub(crate) work: u64,
}

pub(crate) fn begin(alloc: Global, log: &Log, work: u64) -> Result<Walk, AllocError>
    ensures at { IfOk result (frames.IsAt log.now) }
    ensures work { IfOk result (λ w. w.work ≡ work) }
{
    Ok(Walk {
        stack: Stack::new(alloc),
        here: Place::first(alloc, log)?,
        memo: Memo::new(alloc),
        losses: Losses::new(alloc),
        look: Look::all(),
        reach: 0,
        work,
    })
}

/// Takes the steps that may be taken at once, as long as there is work left.
pub(crate) fn settle(
    walk: &mut Walk,
    alloc: Global,
    log: &Log,
    catalog: &Catalog,
) -> Result<(), AllocError>
    requires at { frames.IsAt log.now walk.old }
    requires catalog { IsCatalog log.now catalog.now }
    ensures at { OnOk result (frames.IsAt log.now walk.new) }
    ensures work { OnOk result (walk.new.work ≤ walk.old.work) }
{
    let mut look = walk.look;
    for _step in 0..u64::MAX {
        if walk.work == 0 {
            return Ok(());
        }
        let seen = forced(&walk.here, log, catalog, look);
        let cost = work_for(&walk.here, look, seen).saturating_add(walk.here.take_looks());
        walk.work = walk.work.saturating_sub(cost);
        let Some(step) = at_once(&mut walk.here, alloc, log, catalog, seen)? else {
            return Ok(());
        };
        let done = walk.here.take(log, step)?;
        look = look.after(log, catalog, &walk.here, step);
        walk.losses.push(log, &walk.here, &done)?;
        walk.stack.push(&done)?;
    }
    Ok(())
}

/// The place becomes a frame.
fn keep(walk: &mut Walk) -> Result<(), AllocError>
    ensures ready { OnOk result ((log : LogView) → frames.IsAt log walk.old → (walk.old.here.state.event ≡ length log.events → ⊥) → frames.IsReady log walk.new) }
    ensures work { OnOk result (walk.new.work ≡ walk.old.work) }
{
    walk.stack.close()?;
    Ok(())
}

/// Goes back to the last frame.
fn rewind(walk: &mut Walk, log: &Log) -> Result<(), AllocError>
    requires { frames.IsBack log.now walk.old }
    ensures ready { OnOk result (frames.IsReady log.now walk.new) }
    ensures frames { OnOk result (walk.new.stack.frames ≡ walk.old.stack.frames) }
    ensures state { OnOk result ((s : State) → LeadsBy log.now s walk.old.stack.done walk.old.here.state → s ≡ walk.new.here.state) }
    ensures work { OnOk result (walk.new.work ≡ walk.old.work) }
{
    while let Some(done) = walk.stack.pop() {
        walk.here.take_back(log, &done)?;
    }
    Ok(())
}

/// Takes a step of the last frame, which is noted there.
fn go_on(walk: &mut Walk, log: &Log, catalog: &Catalog, step: Step) -> Result<(), AllocError>
    requires step { frames.MayTake log.now walk.old step }
    requires catalog { IsCatalog log.now catalog.now }
    ensures at { OnOk result (frames.IsAt log.now walk.new) }
    ensures frames { OnOk result (walk.new.stack.frames ≡ walk.old.stack.frames) }
    ensures led { OnOk result (LeadsBy log.now walk.old.here.state walk.new.stack.done walk.new.here.state) }
    ensures next { OnOk result (next log.now walk.old.here.state step ≡ walk.new.here.state) }
    ensures work { OnOk result (walk.new.work ≡ walk.old.work) }
{
    let done = walk.here.take(log, step)?;
    walk.look = Look::none().after(log, catalog, &walk.here, step);
    walk.losses.clear();
    walk.losses.push(log, &walk.here, &done)?;
    walk.stack.push(&done)?;
    Ok(())
}

/// Where a request is due that is lost here: at once, or of those before place `to`.
fn lost_at(walk: &Walk, log: &Log, catalog: &Catalog, to: usize) -> Option<usize>
    requires place { IsPlace log.now walk.now.here }
    requires catalog { IsCatalog log.now catalog.now }
    ensures { IfSome result (λ at. Dead log.now walk.now.here.state) }
{
    if due_is_lost(&walk.here, log, catalog.others()) {
        return Some(walk.here.event());
    }
    walk.losses.missed(&walk.here, log, catalog.others(), to)
}

/// Notes the step at the last frame and takes it; false if it is seen at once that it leads nowhere, and is taken
/// back.
fn try_step(walk: &mut Walk, log: &Log, catalog: &Catalog, step: Step) -> Result<bool, AllocError>
    requires at { frames.IsOpen log.now walk.old }
    requires allowed { Allowed log.now walk.old.here.state step }
    requires catalog { IsCatalog log.now catalog.now }
    ensures at { IfOk result (λ more. IsTrue more → frames.IsAt log.now walk.new) }
    ensures lost { IfOk result (λ more. more ≡ false → frames.AreLost log.now walk.old walk.new (step ∷ [])) }
    ensures work { OnOk result (walk.new.work ≡ walk.old.work) }
{
    walk.stack.note(step)?;
    go_on(walk, log, catalog, step)?;
    let event = walk.here.event();
    let Some(at) = lost_at(walk, log, catalog, event) else {
        return Ok(true);
    };
    walk.reach = walk.reach.max(at);
    rewind(walk, log)?;
    Ok(false)
}

/// The list has the step.
fn has_step(steps: &[Step], step: Step) -> bool
    ensures { IsTrue result → Contains steps.now step }
{
    steps.contains(&step)
}

/// The step is noted at the last frame, not before that one of those that are.
fn was_tried(walk: &Walk, from: usize, step: Step) -> bool
    ensures { IsTrue result → (log : LogView) → frames.IsOpen log walk.now → frames.LeadsNowhere log walk.now.here.state step }
{
    let noted = walk.stack.noted();
    if from >= noted.len() {
        return false;
    }
    has_step(&noted[from..], step)
}

/// The place behind the step among those that are noted at the last frame, if it is the one at that place; or else that
/// place.
fn behind(walk: &Walk, from: usize, step: Step) -> usize {
    match walk.stack.noted().get(from) {
        Some(noted) => if *noted == step {
            from.saturating_add(1)
        } else {
            from
        },
        None => from,
    }
}

/// More steps are noted than those may be that are lost at once.
fn is_full(walk: &Walk) -> bool {
    walk.stack.count() > MOST_NOTED
}

/// Forgets the step that was noted last, if many are.
fn spare(walk: &mut Walk)
    ensures lost { (log : LogView) → frames.IsOpen log walk.old → frames.AreLost log walk.old walk.new [] }
    ensures work { walk.new.work ≡ walk.old.work }
{
    if !is_full(walk) {
        return;
    }
    walk.stack.forget();
}

/// [`try_step`], unless the step was tried, from that one on of those that are noted.
fn try_next(
    walk: &mut Walk,
    log: &Log,
    catalog: &Catalog,
    from: usize,
    step: Step,
) -> Result<bool, AllocError>
    requires at { frames.IsOpen log.now walk.old }
    requires allowed { Allowed log.now walk.old.here.state step }
    requires catalog { IsCatalog log.now catalog.now }
    ensures at { IfOk result (λ more. IsTrue more → frames.IsAt log.now walk.new) }
    ensures lost { IfOk result (λ more. more ≡ false → frames.AreLost log.now walk.old walk.new (step ∷ [])) }
    ensures work { OnOk result (walk.new.work ≡ walk.old.work) }
{
    if was_tried(walk, from, step) {
        return Ok(false);
    }
    if try_step(walk, log, catalog, step)? {
        return Ok(true);
    }
    spare(walk);
    Ok(false)
}

/// Tries each step of the list that wasn't tried at the last frame; false if each leads nowhere.
fn try_each(
    walk: &mut Walk,
    log: &Log,
    catalog: &Catalog,
    steps: &[Step],
) -> Result<bool, AllocError>
    requires at { frames.IsOpen log.now walk.old }
    requires allowed { All (Allowed log.now walk.old.here.state) steps.now }
    requires catalog { IsCatalog log.now catalog.now }
    ensures at { IfOk result (λ more. IsTrue more → frames.IsAt log.now walk.new) }
    ensures lost { IfOk result (λ more. more ≡ false → frames.AreLost log.now walk.old walk.new steps.now) }
    ensures work { OnOk result (walk.new.work ≡ walk.old.work) }
{
    let mut from = 0usize;
    for step in steps {
        if try_next(walk, log, catalog, from, *step)? {
            return Ok(true);
        }
        from = behind(walk, from, *step);
    }
    Ok(false)
}

/// Tries what wasn't tried at the last frame; false if nothing leads to the end from there.
fn try_here(
    walk: &mut Walk,
    alloc: Global,
    log: &Log,
    catalog: &Catalog,
) -> Result<bool, AllocError>
    requires at { frames.IsOpen log.now walk.old }
    requires catalog { IsCatalog log.now catalog.now }
    ensures at { IfOk result (λ more. IsTrue more → frames.IsAt log.now walk.new) }
    ensures spent { IfOk result (λ more. more ≡ false → frames.IsSpent log.now walk.old walk.new) }
    ensures work { OnOk result (walk.new.work ≡ walk.old.work) }
{
    let steps = choices(alloc, log, catalog.others(), catalog.hints(), &walk.here)?;
    let goes_on = try_each(walk, log, catalog, steps.as_slice())?;
    Ok(goes_on)
}

/// Goes on at the last frame that has a step that wasn't tried and isn't lost at once; false if none has.
fn back(walk: &mut Walk, alloc: Global, log: &Log, catalog: &Catalog) -> Result<bool, AllocError>
    requires ready { frames.IsReady log.now walk.old }
    requires catalog { IsCatalog log.now catalog.now }
    ensures at { IfOk result (λ more. IsTrue more → frames.IsAt log.now walk.new) }
    ensures none { IfOk result (λ more. more ≡ false → Dead log.now (start log.now)) }
    ensures work { OnOk result (walk.new.work ≡ walk.old.work) }
{
    loop {
        if walk.stack.is_empty() {
            return Ok(false);
        }
        if try_here(walk, alloc, log, catalog)? {
            return Ok(true);
        }
        walk.stack.reopen();
        walk.reach = walk.reach.max(walk.here.event());
        walk.memo.note(alloc, &walk.here);
        rewind(walk, log)?;
    }
}

/// The place of an answer by which it is seen that no run leads from here to the end, or the next event's where
/// that is known.
fn dead_at(walk: &Walk, alloc: Global, log: &Log, catalog: &Catalog) -> Option<usize>
    requires at { frames.IsAt log.now walk.now }
    requires catalog { IsCatalog log.now catalog.now }
    ensures { IfSome result (λ at. Dead log.now walk.now.here.state) }
{
    let event = walk.here.event();
    if let Some(at) = lost_at(walk, log, catalog, event.saturating_add(SOON)) {
        return Some(at);
    }
    if walk.memo.is_known(alloc, &walk.here) {
        return Some(event);
    }
    None
}

/// Goes on from here; false if no run leads to the end.
pub(crate) fn advance(
    walk: &mut Walk,
    alloc: Global,
    log: &Log,
    catalog: &Catalog,
) -> Result<bool, AllocError>
    requires at { frames.IsAt log.now walk.old }
    requires catalog { IsCatalog log.now catalog.now }
    requires more { walk.old.here.state.event ≡ length log.now.events → ⊥ }
    ensures at { IfOk result (λ more. IsTrue more → frames.IsAt log.now walk.new) }
    ensures none { IfOk result (λ more. more ≡ false → Dead log.now (start log.now)) }
    ensures work { OnOk result (walk.new.work ≤ walk.old.work - 256) }
{
    walk.work = walk.work.saturating_sub(CHOICE);
    if let Some(at) = dead_at(walk, alloc, log, catalog) {
        walk.reach = walk.reach.max(at);
        rewind(walk, log)?;
    } else {
        keep(walk)?;
    }
    back(walk, alloc, log, catalog)
}
