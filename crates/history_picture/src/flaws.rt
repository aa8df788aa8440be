//! The mark of the first flaw.
ghost use Rattle.std.specs.Prelude.{◌≡◌, ◌≤◌, ◌++◌, OnOk};
ghost use Rattle.svg_text.specs.Shapes.{shapes_text};
ghost use Rattle.history_picture.specs.Picture as spec;
ghost use Rattle.history_picture.specs.Points as points;

use flaw_places::is_of_entry;
use history_bars::marks::centred_label;
use history_bars::scale::{Scale, x_at};
use history_bars::words::moment_of;
use history_words::{Flaw, Record};
use std::alloc::AllocError;
use svg_text::{Colour, Rule, put_label, put_lines};

fn entry_mark(scale: Scale, place: u64) -> Option<u64>
    ensures mark { result ≡ spec.entry_mark scale place }
{
    let offset = place.saturating_sub(scale.from);
    if scale.from <= place && offset < u64::from(scale.span) {
        Some(x_at(offset) + 48)
    } else {
        None
    }
}

fn record_mark(scale: Scale, n: Option<u64>) -> Option<u64>
    ensures mark { result ≡ spec.record_mark scale n }
{
    let n = n?;
    let offset = n.saturating_sub(scale.from);
    if scale.from <= n && offset <= u64::from(scale.span) {
        Some(x_at(offset))
    } else {
        None
    }
}

/// Where a flaw is marked, in pixels from the left.
fn mark_of(scale: Scale, records: &[Record], flaw: Flaw) -> Option<u64>
    ensures mark { result ≡ spec.mark_of scale records.now flaw }
{
    if is_of_entry(flaw.kind) {
        entry_mark(scale, flaw.place as u64)
    } else {
        record_mark(scale, moment_of(records.get(flaw.place)))
    }
}

/// The first flaw of a trace, and the line of its text on which it lies.
#[derive(Clone, Copy)]
pub struct Finding {
    pub flaw: Flaw,
    pub line: u64,
}

/// The flaw, if there is one.
pub(crate) fn flaw_of(finding: Option<Finding>) -> Option<Flaw>
    ensures { result ≡ spec.flaw_of finding }
{
    Some(finding?.flaw)
}

/// Where a flaw is: at the point before the entry, or at the length that the history had at the record.
fn point_of(records: &[Record], flaw: Flaw) -> u64
    ensures { result ≡ points.point_of records.now flaw }
{
    if is_of_entry(flaw.kind) {
        flaw.place as u64
    } else {
        moment_of(records.get(flaw.place)).unwrap_or(0)
    }
}

/// The point of the first flaw, or else the first one.
pub(crate) fn flaw_point(records: &[Record], flaw: Option<Flaw>) -> u64
    ensures { result ≡ points.flaw_point records.now flaw }
{
    match flaw {
        None => 0,
        Some(flaw) => point_of(records, flaw),
    }
}

/// Adds a red line at a place, and the name below it.
#[tactic(auto, unfolding(svg_text::specs::Shapes::shapes_text))]
fn put_mark_at(
    mark: Option<u64>,
    name: &str,
    bottom: u64,
    out: &mut Vec<u8>,
) -> Result<(), AllocError>
    requires { bottom ≤ 1000000 }
    ensures { OnOk result (out.new.items ≡ out.old.items ++ shapes_text (spec.mark_at mark name.now bottom)) }
{
    let Some(x) = mark else {
        return Ok(());
    };
    let line = Rule {
        left: x,
        top: 92,
        right: x,
        bottom: bottom + 4,
        colour: Colour::Red,
        thickness: 2,
        dash: 0,
    };
    put_lines(&[line], name.as_bytes(), out)?;
    let place = centred_label(x, bottom + 18, Colour::Red);
    put_label(&place, name.as_bytes(), out)
}

/// Adds the mark of the first flaw, if there is one.
#[tactic(auto, unfolding(svg_text::specs::Shapes::shapes_text))]
pub(crate) fn put_mark(
    scale: Scale,
    records: &[Record],
    flaw: Option<Flaw>,
    bottom: u64,
    out: &mut Vec<u8>,
) -> Result<(), AllocError>
    requires { bottom ≤ 1000000 }
    ensures { OnOk result (out.new.items ≡ out.old.items ++ shapes_text (spec.mark_shapes scale records.now flaw bottom)) }
{
    match flaw {
        None => Ok(()),
        Some(flaw) => put_mark_at(mark_of(scale, records, flaw), flaw.kind.name(), bottom, out),
    }
}
