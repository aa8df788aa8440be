//! The frames of the search and the steps that it took, in little room.
ghost use Rattle.std.specs.Prelude.{◌≡◌, ◌+◌, ◌-◌, ◌<◌, ◌≤◌, ◌++◌, ◌∷◌, ◌↔◌, [], List, false, length, drop, IfOk, OnOk, IfNone, IsTrue, option_to_list};
ghost use Rattle.log_runs.specs.declared.Step.TheVariants as kinds;
ghost use Rattle.search_run.specs.Trails.{steps_by};
ghost use Rattle.search_run.specs.Marks as marks;
ghost use Rattle.search_run.specs.Stacked as stacked;
ghost use Rattle.search_run.specs.StackView.{FrameView};

use crate::trail::Trail;
use log_runs::Step;
use search_places::Done;
use std::alloc::{AllocError, Global};
use std::marker::Model;

/// A place from which several steps may be taken.
#[derive(Clone, Copy)]
pub(crate) struct Mark {
    /// How many steps lead there from the frame before.
    done: usize,
    /// How many steps are noted there.
    noted: usize,
}

/// Frames, and the steps since the last one. All steps that were taken stand in one list, and all that
/// are noted at frames in another, so that a frame takes 16 bytes.
#[derive(Drop)]
pub(crate) struct Stack {
    /// All steps that were taken.
    trail: Trail,
    /// The steps that are noted at the frames.
    notes: Vec<Step>,
    frames: Vec<Mark>,
    /// How many of the steps that were taken lead to frames.
    closed: usize,
}

impl Model for Stack {
    ghost use Rattle.std.specs.Prelude.{drop};
    ghost use Rattle.search_run.specs.StackView.{StackView};
    ghost use Rattle.search_run.specs.Marks.{frames_in, IsCut};

    ghost Value = { StackView };

    ghost view = { λ s. record { frames = frames_in s.frames.items s.trail s.notes.items; done = drop s.closed s.trail } };

    ghost invariant = { λ s. IsCut s.frames.items s.closed s.trail s.notes.items };
}

/// At the last frame one step less is noted; false if none is.
fn lower(frames: &mut Vec<Mark>) -> bool
    ensures some { IsTrue result → marks.Lowers frames.old.items frames.new.items }
    ensures none { result ≡ false → frames.new.items ≡ frames.old.items }
    ensures lowest { result ≡ false → marks.IsLowest frames.old.items }
{
    if frames.is_empty() {
        return false;
    }
    let last = frames.len() - 1;
    let mark = frames[last];
    if mark.noted == 0 {
        return false;
    }
    frames[last] = Mark {
        done: mark.done,
        noted: mark.noted - 1,
    };
    true
}

/// Where one step more is noted, and fewer than so many were.
fn raised(mark: Mark, many: usize) -> Mark
    requires { mark.noted < many }
    ensures { result ≡ record { done = mark.done; noted = mark.noted + 1 } }
{
    Mark {
        done: mark.done,
        noted: mark.noted + 1,
    }
}

/// The last steps.
fn last_of(steps: &[Step], count: usize) -> &[Step]
    requires { count ≤ length steps.now }
    ensures { result.now ≡ drop (length steps.now - count) steps.now }
{
    &steps[steps.len() - count..]
}

/// Adds the steps.
fn add_steps(steps: &mut Vec<Step>, trail: &Trail) -> Result<(), AllocError>
    ensures { OnOk result (steps.new.items ≡ steps.old.items ++ steps_by trail.now) }
{
    let mut rest = trail.steps();
    while let Some((step, _)) = rest.next() {
        steps.push(step)?;
    }
    Ok(())
}

impl Stack {
    /// No frames, and no steps.
    pub(crate) fn new(alloc: Global) -> Stack
        ensures frames { result.frames ≡ [] }
        ensures done { result.done ≡ [] }
    {
        Stack {
            trail: Trail::new(alloc),
            notes: Vec::new(alloc),
            frames: Vec::new(alloc),
            closed: 0,
        }
    }

    /// One step more. A pass overwrote nothing.
    pub(crate) fn push(&mut self, done: &Done) -> Result<(), AllocError>
        requires { done.now.step ≡ kinds.Pass → done.now.old.items ≡ [] }
        ensures frames { OnOk result (self.new.frames ≡ self.old.frames) }
        ensures done { OnOk result (self.new.done ≡ self.old.done ++ done.now ∷ []) }
    {
        self.trail.push(done)?;
        Ok(())
    }

    /// Takes off the last step since the last frame, if there is one.
    pub(crate) fn pop(&mut self) -> Option<Done>
        ensures frames { self.new.frames ≡ self.old.frames }
        ensures done { self.old.done ≡ self.new.done ++ option_to_list result }
        ensures none { IfNone result (self.old.done ≡ []) }
    {
        if self.trail.len() == self.closed {
            return None;
        }
        self.trail.pop()
    }

    /// Makes the steps since the last frame a frame, where no step is noted.
    pub(crate) fn close(&mut self) -> Result<(), AllocError>
        ensures { OnOk result (self.new ≡ stacked.close self.old) }
    {
        let len = self.trail.len();
        let mark = Mark {
            done: len - self.closed,
            noted: 0,
        };
        self.frames.push(mark)?;
        self.closed = len;
        Ok(())
    }

    /// No place is a frame.
    pub(crate) fn is_empty(&self) -> bool
        ensures { IsTrue result ↔ self.now.frames ≡ [] }
    {
        self.frames.is_empty()
    }

    /// Notes the step at the last frame.
    pub(crate) fn note(&mut self, step: Step) -> Result<(), AllocError>
        requires { self.old.frames ≡ [] → ⊥ }
        ensures { OnOk result (stacked.Notes self.old self.new step) }
    {
        self.notes.push(step)?;
        let many = self.notes.len();
        let last = self.frames.len() - 1;
        let mark = self.frames[last];
        self.frames[last] = raised(mark, many);
        Ok(())
    }

    /// Forgets the step that was noted last at the last frame. False if none is noted there.
    pub(crate) fn forget(&mut self) -> bool
        ensures some { IsTrue result → stacked.Forgets self.old self.new }
        ensures none { result ≡ false → self.new ≡ self.old }
        ensures empty { result ≡ false → stacked.HasNone self.old }
    {
        if !lower(&mut self.frames) {
            return false;
        }
        self.notes.pop();
        true
    }

    /// The steps that are noted at the last frame, in their order.
    pub(crate) fn noted(&self) -> &[Step]
        ensures { (fs : List FrameView) (f : FrameView) → self.now.frames ≡ fs ++ f ∷ [] → result.now ≡ f.noted }
    {
        let count = self.frames.len();
        if count == 0 {
            return &[];
        }
        let mark = self.frames[count - 1];
        last_of(self.notes.as_slice(), mark.noted)
    }

    /// How many steps are noted at all frames.
    pub(crate) fn count(&self) -> usize
        ensures { result ≡ stacked.noted_at self.now.frames }
    {
        self.notes.len()
    }

    /// Drops the last frame: its steps are among those since the frame before. False if there is none.
    pub(crate) fn reopen(&mut self) -> bool
        ensures some { IsTrue result → stacked.Reopens self.old self.new }
        ensures none { result ≡ false → self.old.frames ≡ [] }
        ensures same { result ≡ false → self.new ≡ self.old }
    {
        let Some(mark) = self.frames.pop() else {
            return false;
        };
        self.closed -= mark.done;
        self.notes.truncate(self.notes.len() - mark.noted);
        true
    }

    /// All steps that were taken, in their order.
    pub(crate) fn steps(&self, alloc: Global) -> Result<Vec<Step>, AllocError>
        ensures { IfOk result (λ v. v.items ≡ stacked.steps_of self.now.frames ++ steps_by self.now.done) }
    {
        let mut steps = Vec::with_capacity(alloc, self.trail.len())?;
        add_steps(&mut steps, &self.trail)?;
        Ok(steps)
    }
}
