//! Bars, dots and sub-rows.
ghost use Rattle.std.specs.Prelude.{◌≡◌, ◌≤◌, IfSome, OnOk};
ghost use Rattle.history_bars.specs.Layout as layout;

use crate::scale::{Scale, x_at};
use std::alloc::AllocError;

/// From where to where a bar reaches, in points from the first that is shown.
#[derive(Clone, Copy)]
pub struct Bar {
    pub start: u64,
    pub end: u64,
    pub is_open: bool,
}

/// How far a bar reaches, none where what it reaches to never came.
fn reach(is_posted: bool, answered: Option<u64>, acted: Option<u64>) -> Option<u64>
    ensures { result ≡ layout.reach is_posted answered acted }
{
    if is_posted { acted } else { answered }
}

fn is_shown(scale: Scale, n: u64, reach: Option<u64>) -> bool
    ensures { result ≡ layout.is_shown scale n reach }
{
    if n.saturating_sub(scale.from) > u64::from(scale.span) {
        return false;
    }
    match reach {
        None => true,
        Some(end) => scale.from < end || scale.from <= n,
    }
}

fn end_of(scale: Scale, start: u64, reach: Option<u64>) -> u64
    requires { start ≤ scale.span }
    ensures end { result ≡ layout.end_of scale start reach }
    ensures range { result ≤ 4294967296 }
{
    let edge = u64::from(scale.span) + 1;
    match reach {
        None => edge,
        Some(end) => end.saturating_sub(scale.from).min(edge).max(start + 1),
    }
}

/// The bar of a request that was submitted at `n`, if any of it is shown.
pub fn bar_of(
    scale: Scale,
    is_posted: bool,
    n: u64,
    answered: Option<u64>,
    acted: Option<u64>,
) -> Option<Bar>
    ensures bar { result ≡ layout.bar_of scale is_posted n answered acted }
    ensures start { IfSome result (λ bar. bar.start ≤ 4294967295) }
    ensures end { IfSome result (λ bar. bar.end ≤ 4294967296) }
{
    let reach = reach(is_posted, answered, acted);
    if !is_shown(scale, n, reach) {
        return None;
    }
    let start = n.saturating_sub(scale.from);
    Some(Bar {
        start,
        end: end_of(scale, start, reach),
        is_open: is_posted || answered.is_none(),
    })
}

/// There is room in the bar for texts of so many characters.
fn fits(bar: Bar, count: u64) -> bool
    requires start { bar.start ≤ 4294967295 }
    requires end { bar.end ≤ 4294967296 }
    requires count { count ≤ 80 }
    ensures { result ≡ layout.fits bar count }
{
    x_at(bar.start) + 8 + 8 * count <= x_at(bar.end)
}

/// Where the texts of a bar stand: in it, if there is room, and else behind it.
pub fn text_x(bar: Bar, count: u64) -> u64
    requires start { bar.start ≤ 4294967295 }
    requires end { bar.end ≤ 4294967296 }
    requires count { count ≤ 80 }
    ensures at { result ≡ layout.text_x bar count }
    ensures least { 125 ≤ result }
    ensures most { result ≤ 500000000000 }
{
    if fits(bar, count) {
        x_at(bar.start) + 5
    } else {
        x_at(bar.end) + 5
    }
}

/// Where the white begins that is behind the texts of a bar: in the bar it is behind a reply alone that isn't the expected
/// one, if there is one.
pub fn white_from(bar: Bar, count: u64, is_wrong: bool) -> Option<u64>
    requires start { bar.start ≤ 4294967295 }
    requires end { bar.end ≤ 4294967296 }
    requires count { count ≤ 80 }
    ensures from { result ≡ layout.white_from bar count is_wrong }
    ensures range { IfSome result (λ y. y ≤ 18) }
{
    if !fits(bar, count) {
        Some(2)
    } else if is_wrong {
        Some(18)
    } else {
        None
    }
}

/// The point where the bar and its texts have ended.
pub fn taken(bar: Bar, count: u64) -> u64
    requires start { bar.start ≤ 4294967295 }
    requires end { bar.end ≤ 4294967296 }
    requires count { count ≤ 80 }
    ensures { result ≡ layout.taken bar count }
{
    if fits(bar, count) {
        bar.end
    } else {
        bar.end + 1 + count / 12
    }
}

/// Where the dot stands of a request that had acted at that length, if it is shown.
pub fn dot_at(scale: Scale, acted: Option<u64>) -> Option<u64>
    ensures dot { result ≡ layout.dot_at scale acted }
    ensures range { IfSome result (λ offset. offset ≤ 4294967295) }
{
    let acted = acted?;
    let offset = acted.saturating_sub(scale.from);
    if scale.from < acted && offset <= u64::from(scale.span) {
        Some(offset)
    } else {
        None
    }
}

/// The first sub-row in which the last bar and its texts have ended.
fn free_row(ends: &[u64], start: u64) -> usize
    ensures { result ≡ layout.free_row ends.now start }
{
    let mut row = 0;
    while row < ends.len() && ends[row] > start {
        row += 1;
    }
    row
}

/// The sub-row of a bar that begins there.
pub fn row_for(ends: &[u64], start: u64) -> usize
    ensures row { result ≡ layout.row_for ends.now start }
    ensures range { result ≤ 255 }
{
    free_row(ends, start).min(255)
}

/// Puts a bar into a sub-row.
pub fn put_end(ends: &mut Vec<u64>, row: usize, end: u64) -> Result<(), AllocError>
    ensures { OnOk result (ends.new.items ≡ layout.with_bar ends.old.items row end) }
{
    if row < ends.len() {
        ends[row] = end;
    } else {
        ends.push(end)?;
    }
    Ok(())
}
