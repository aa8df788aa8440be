//! A level of a lane through the rows of a chart.
ghost use Rattle.std.specs.Prelude.{◌≡◌, ◌++◌, ◌≤◌, [], map, max, IfOk, OnOk};
ghost use Rattle.chart_levels.specs.Levels as spec;

use crate::level::{Level, level_of};
use dllp_core::Class;
use fabric_core::{Fabric, LaneName};
use seq_memory::Keeper;
use std::alloc::{AllocError, Global};
use std::marker::Model;

/// From this row on the level has this value; None of credits that are infinite.
#[derive(Clone, Copy)]
pub struct Step {
    pub row: u16,
    pub value: Option<u64>,
}

/// A level of a lane through the rows of a chart.
#[derive(Drop)]
pub struct StepLine {
    lane: LaneName,
    level: Level,
    greatest: u64,
    steps: Vec<Step>,
}

impl Model for StepLine {
    ghost use Rattle.chart_levels.specs.StepLineView.{StepLineView};

    ghost Value = { StepLineView };

    ghost view = { λ l. record { lane = l.lane; level = l.level; greatest = l.greatest; steps = l.steps.items } };
}

/// Whether two values are the same.
fn is_same(one: Option<u64>, other: Option<u64>) -> bool
    ensures { result ≡ spec.is_same one other }
{
    match (one, other) {
        (Some(one), Some(other)) => one == other,
        (None, None) => true,
        _ => false,
    }
}

/// Whether the last of the steps is to this value.
fn is_at(steps: &[Step], value: Option<u64>) -> bool
    ensures { result ≡ spec.is_at (spec.last_of steps.now) value }
{
    match steps.last() {
        Some(step) => is_same(step.value, value),
        None => false,
    }
}

/// The value, or 0 where there is none.
fn or_zero(value: Option<u64>) -> u64
    ensures { result ≡ spec.or_zero value }
{
    match value {
        Some(value) => value,
        None => 0,
    }
}

/// Adds a step, if it is to another value.
fn add_step(step: Step, steps: &mut Vec<Step>) -> Result<(), AllocError>
    ensures { OnOk result (steps.new.items ≡ spec.stepped steps.old.items step.row step.value) }
{
    if is_at(steps, step.value) {
        return Ok(());
    }
    steps.push(step)?;
    Ok(())
}

impl StepLine {
    /// The step line of a lane's level, before the first row. It allocates nothing.
    fn new(alloc: Global, lane: LaneName, level: Level) -> StepLine
        ensures { result ≡ spec.new_line lane level }
    {
        StepLine {
            lane,
            level,
            greatest: 1,
            steps: Vec::new(alloc),
        }
    }

    /// Shows the step line the fabric after the event of a row.
    fn show<K: Keeper>(&mut self, row: u16, fabric: &Fabric<K>) -> Result<(), AllocError>
        ensures { OnOk result (self.new ≡ spec.shown row fabric.now self.old) }
    {
        let value = level_of(fabric, self.lane, self.level);
        self.greatest = self.greatest.max(or_zero(value));
        add_step(Step { row, value }, &mut self.steps)
    }

    /// The lane.
    pub(crate) fn lane(&self) -> LaneName
        ensures { result ≡ self.now.lane }
    {
        self.lane
    }

    /// Its level.
    pub(crate) fn level(&self) -> Level
        ensures { result ≡ self.now.level }
    {
        self.level
    }

    /// The greatest value so far, or 1 if that is greater.
    pub(crate) fn greatest(&self) -> u64
        ensures { result ≡ self.now.greatest }
    {
        self.greatest
    }

    /// The rows in which the value is another than in the row before.
    pub(crate) fn steps(&self) -> &[Step]
        ensures { result.now ≡ self.now.steps }
    {
        self.steps.as_slice()
    }
}

/// Adds the step line of a lane's level.
fn add_level(
    alloc: Global,
    lane: LaneName,
    level: Level,
    lines: &mut Vec<StepLine>,
) -> Result<(), AllocError>
    ensures { OnOk result (lines.new.items ≡ lines.old.items ++ spec.one_line lane level) }
{
    lines.push(StepLine::new(alloc, lane, level))?;
    Ok(())
}

/// Adds the step lines of the credits of a class.
fn add_credits(
    alloc: Global,
    lane: LaneName,
    class: Class,
    lines: &mut Vec<StepLine>,
) -> Result<(), AllocError>
    ensures { OnOk result (lines.new.items ≡ lines.old.items ++ spec.credit_lines lane class) }
{
    add_level(alloc, lane, Level::Headers(class), lines)?;
    add_level(alloc, lane, Level::Data(class), lines)
}

/// Adds the step lines of the credits of the classes that a lane carries, but the infinite ones of a `down` lane.
fn add_classes(alloc: Global, lane: LaneName, lines: &mut Vec<StepLine>) -> Result<(), AllocError>
    ensures { OnOk result (lines.new.items ≡ lines.old.items ++ spec.class_lines lane) }
{
    match lane {
        LaneName::Up(_) | LaneName::Inward => {
            add_credits(alloc, lane, Class::Posted, lines)?;
            add_credits(alloc, lane, Class::NonPosted, lines)
        }
        LaneName::Down(_) => Ok(()),
        LaneName::Outward => add_credits(alloc, lane, Class::Completion, lines),
    }
}

/// Adds the step lines of a lane, before the first row.
pub fn add_lane(alloc: Global, lane: LaneName, lines: &mut Vec<StepLine>) -> Result<(), AllocError>
    ensures { OnOk result (lines.new.items ≡ lines.old.items ++ spec.lane_lines lane) }
{
    add_level(alloc, lane, Level::Queue, lines)?;
    add_level(alloc, lane, Level::ReplayBuffer, lines)?;
    add_classes(alloc, lane, lines)
}

/// Shows each step line the fabric after the event of a row. The only error is being out of memory; after it some of them
/// may lack the row.
pub fn show_all<K: Keeper>(
    row: u16,
    fabric: &Fabric<K>,
    lines: &mut [StepLine],
) -> Result<(), AllocError>
    ensures { OnOk result (lines.new ≡ map (spec.shown row fabric.now) lines.old) }
{
    for line in lines.iter_mut() {
        line.show(row, fabric)?;
    }
    Ok(())
}
