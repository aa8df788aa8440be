//! The step lines of the lanes that are shown.
ghost use Rattle.std.specs.Prelude.{◌≡◌, ◌++◌, [], IfOk, OnOk};
ghost use Rattle.chart_levels.specs.Levels.{lane_lines};
ghost use Rattle.chart_links.specs.Levels as spec;

use crate::window::{ChartWindow, has_lane};
use chart_levels::{StepLine, add_lane};
use fabric_core::LaneName;
use std::alloc::{AllocError, Global};

/// Adds the step lines of the lanes from and to the requesters.
fn add_ports(alloc: Global, requesters: u8, lines: &mut Vec<StepLine>) -> Result<(), AllocError>
    ensures { OnOk result (lines.new.items ≡ lines.old.items ++ spec.port_lines requesters) }
{
    for place in 0..requesters {
        add_lane(alloc, LaneName::Up(place + 1), lines)?;
        add_lane(alloc, LaneName::Down(place + 1), lines)?;
    }
    Ok(())
}

/// Adds the step lines of all lanes of a fabric with so many requesters.
fn add_all(alloc: Global, requesters: u8, lines: &mut Vec<StepLine>) -> Result<(), AllocError>
    ensures { OnOk result (lines.new.items ≡ lines.old.items ++ spec.all_lines requesters) }
{
    add_ports(alloc, requesters, lines)?;
    add_lane(alloc, LaneName::Inward, lines)?;
    add_lane(alloc, LaneName::Outward, lines)
}

/// Adds the step lines of a lane, if a fabric with so many requesters has it.
fn add_chosen(
    alloc: Global,
    requesters: u8,
    lane: LaneName,
    lines: &mut Vec<StepLine>,
) -> Result<(), AllocError>
    ensures { OnOk result (lines.new.items ≡ lines.old.items ++ spec.chosen_lines requesters lane) }
{
    if !has_lane(requesters, lane) {
        return Ok(());
    }
    add_lane(alloc, lane, lines)
}

/// The step lines that a window shows of a fabric with so many requesters, before the first row. The only error is being
/// out of memory.
pub fn new_lines(
    alloc: Global,
    window: ChartWindow,
    requesters: u8,
) -> Result<Vec<StepLine>, AllocError>
    ensures { IfOk result (λ lines. lines.items ≡ spec.new_lines window requesters) }
{
    let mut lines = Vec::new(alloc);
    if !window.has_levels {
        return Ok(lines);
    }
    match window.lane {
        None => add_all(alloc, requesters, &mut lines)?,
        Some(lane) => add_chosen(alloc, requesters, lane, &mut lines)?,
    }
    Ok(lines)
}
