//! The page of a chart with step lines.
ghost use Rattle.std.specs.Prelude.{◌≡◌, ◌≤◌, ◌+◌, ◌/◌, ◌++◌, List, drop, length, OnOk, OnErr};
ghost use Rattle.chart_rows.specs.Sizes.{AreRows, IsOnPage};
ghost use Rattle.svg_text.specs.Shapes.{Shape, shapes_text};
ghost use Rattle.chart_levels.specs.Pages as spec;

use crate::drawing::{Strip, put_head, put_steps, put_stripes};
use crate::step_line::StepLine;
use chart_rows::{Page, levels_left, top_of, width_of};
use std::alloc::{AllocError, Global};
use svg_text::put_page;

/// How far right so many step lines reach.
fn reach_of(count: usize) -> u64
    ensures value { result ≡ spec.reach_of count }
    ensures range { result ≤ 32000 }
{
    64 * count.min(500) as u64
}

/// Where a step line stands that is drawn beside so many rows.
fn strip_of(line: &StepLine, left: u64, rows: u16) -> Strip
    ensures { result ≡ spec.strip_of line.now left rows }
{
    Strip {
        lane: line.lane(),
        level: line.level(),
        left,
        greatest: line.greatest(),
        bottom: top_of(rows),
    }
}

/// Adds a step line beside so many rows.
fn put_line(line: &StepLine, left: u64, rows: u16, out: &mut Vec<u8>) -> Result<(), AllocError>
    requires left { IsOnPage left }
    requires rows { AreRows rows }
    ensures { OnOk result (out.new.items ≡ out.old.items ++ shapes_text (spec.line_shapes left rows line.now)) }
{
    let strip = strip_of(line, left, rows);
    put_head(strip, out)?;
    put_steps(strip, line.steps(), out)?;
    put_stripes(strip, rows / 40, out)?;
    Ok(())
}

/// Adds step lines beside so many rows, the first of them here.
fn put_all(lines: &[StepLine], left: u64, rows: u16, out: &mut Vec<u8>) -> Result<(), AllocError>
    requires left { left ≤ 1000000 }
    requires rows { AreRows rows }
    ensures { OnOk result (out.new.items ≡ out.old.items ++ shapes_text (spec.beside left rows 0 lines.now)) }
{
    for place in 0..lines.len() {
        put_line(&lines[place], left + reach_of(place), rows, out)?;
    }
    Ok(())
}

/// Adds the page of a chart in SVG, given the text of the chart's shapes, with step lines behind its results. It has 1,000
/// rows at most. After an `Err`, which is out of memory, nothing is added.
pub fn put_levelled_page(
    alloc: Global,
    page: &Page,
    lines: &[StepLine],
    mut shapes: Vec<u8>,
    out: &mut Vec<u8>,
) -> Result<(), AllocError>
    requires { AreRows (length page.now.rows) }
    ensures ok { OnOk result ((ss : List Shape) → shapes.items ≡ shapes_text ss → out.new.items ≡ out.old.items ++ spec.levelled_page page.now lines.now ss) }
    ensures err { OnErr result (out.new.items ≡ out.old.items) }
{
    let rows = page.rows.as_slice().len() as u16;
    put_all(lines, levels_left(page.letters), rows, &mut shapes)?;
    let width = width_of(page.frame);
    let height = top_of(rows) + 30;
    put_page(alloc, width, height, shapes, out)
}
