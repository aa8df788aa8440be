//! The rows of requesters.
ghost use Rattle.std.specs.Prelude.{◌≡◌, ◌≤◌, ◌+◌, ◌*◌, ◌++◌, length, OnOk, IfOk};
ghost use Rattle.tlp_core.specs.Limits.{most_requesters};
ghost use Rattle.svg_text.specs.Shapes.{shapes_text};
ghost use Rattle.history_bars.specs.Bars as spec;
ghost use Rattle.history_bars.specs.Signs.{signs_of, joined};

use crate::lookup::{acted_by, answers_by};
use crate::marks::{View, plain_label};
use crate::requests::{Drawing, Row};
use crate::words::put_requester_words;
use arrayvec::ArrayString;
use history_words::Record;
use seq_memory::Entry;
use std::alloc::{AllocError, Global};
use svg_text::{Colour, Rule, put_label, put_lines};

/// What the rows are drawn of.
#[derive(Clone, Copy)]
pub struct Shown<'a> {
    pub view: &'a View,
    /// Of the page, in pixels.
    pub width: u64,
    pub records: &'a [Record],
    pub history: &'a [Entry],
}

/// Adds a requester's name, and the line below its bars.
#[tactic(auto, unfolding(svg_text::specs::Shapes::shapes_text))]
fn put_frame(
    width: u64,
    requester: u8,
    top: u64,
    height: u64,
    out: &mut Vec<u8>,
) -> Result<(), AllocError>
    requires top { top ≤ 1000000 }
    requires height { height ≤ 1000000 }
    ensures { OnOk result (out.new.items ≡ out.old.items ++ shapes_text (spec.frame width requester top height)) }
{
    let mut name = ArrayString::new();
    put_requester_words(requester, &mut name);
    put_label(&plain_label(10, top + 18), name.as_bytes(), out)?;
    let line = Rule {
        left: 0,
        top: top + height.saturating_sub(6),
        right: width,
        bottom: top + height.saturating_sub(6),
        colour: Colour::Grey,
        thickness: 1,
        dash: 0,
    };
    put_lines(&[line], name.as_bytes(), out)
}

/// How high the sub-rows are that have these ends.
fn height_of(ends: &[u64]) -> u64
    ensures height { result ≡ spec.height_of ends.now }
    ensures range { result ≤ 10250 }
{
    if ends.is_empty() {
        return 0;
    }
    40 * (ends.len().min(256) as u64) + 10
}

/// Adds a requester's name and the line below its bars, if there are any.
#[tactic(auto, unfolding(svg_text::specs::Shapes::shapes_text))]
fn put_frame_of(
    width: u64,
    requester: u8,
    top: u64,
    ends: &[u64],
    out: &mut Vec<u8>,
) -> Result<(), AllocError>
    requires { top ≤ 900000 }
    ensures { OnOk result (out.new.items ≡ out.old.items ++ shapes_text (spec.frame_of width requester top ends.now)) }
{
    if ends.is_empty() {
        return Ok(());
    }
    put_frame(width, requester, top, height_of(ends), out)?;
    Ok(())
}

/// Adds the row of a requester, and gives its height.
fn put_row(
    alloc: Global,
    shown: &Shown<'_>,
    requester: u8,
    top: u64,
    drawing: &mut Drawing,
) -> Result<u64, AllocError>
    requires { top ≤ 900000 }
    ensures shapes { OnOk result (drawing.new.out.items ≡ drawing.old.out.items ++
        shapes_text (spec.row shown.now.view.now shown.now.width shown.now.records.now shown.now.history.now requester top)) }
    ensures signs { OnOk result (drawing.new.signs ≡ joined drawing.old.signs
        (signs_of (spec.row shown.now.view.now shown.now.width shown.now.records.now shown.now.history.now requester top))) }
    ensures height { IfOk result (λ height. height ≡ spec.row_height shown.now.view.now shown.now.records.now shown.now.history.now requester) }
    ensures range { IfOk result (λ height. height ≤ 10250) }
{
    let acted = acted_by(alloc, shown.history, requester)?;
    let answers = answers_by(alloc, shown.records, requester)?;
    drawing.ends.clear();
    let row = Row {
        view: shown.view,
        records: shown.records,
        acted: &acted,
        answers: &answers,
        requester,
        top,
    };
    drawing.put_bars(row)?;
    put_frame_of(
        shown.width,
        requester,
        top,
        drawing.ends.as_slice(),
        &mut drawing.out,
    )?;
    Ok(height_of(drawing.ends.as_slice()))
}

/// Adds the rows of these requesters, and gives where the last one ends.
fn put_rows_of(
    alloc: Global,
    shown: &Shown<'_>,
    requesters: &[u8],
    drawing: &mut Drawing,
) -> Result<u64, AllocError>
    requires { length requesters.now ≤ most_requesters }
    ensures shapes { OnOk result (drawing.new.out.items ≡ drawing.old.out.items ++
        shapes_text (spec.rows shown.now.view.now shown.now.width shown.now.records.now shown.now.history.now 130 requesters.now)) }
    ensures signs { OnOk result (drawing.new.signs ≡ joined drawing.old.signs
        (signs_of (spec.rows shown.now.view.now shown.now.width shown.now.records.now shown.now.history.now 130 requesters.now))) }
    ensures bottom { IfOk result (λ bottom. bottom
        ≡ spec.rows_bottom shown.now.view.now shown.now.records.now shown.now.history.now 130 requesters.now) }
    ensures range { IfOk result (λ bottom. bottom ≤ 100000) }
{
    let mut top = 130;
    for requester in requesters {
        let height = put_row(alloc, shown, *requester, top, drawing)?;
        top += height;
    }
    Ok(top)
}

/// Adds the rows of all requesters, and gives where the last one ends.
pub fn put_rows(alloc: Global, shown: &Shown<'_>, drawing: &mut Drawing) -> Result<u64, AllocError>
    ensures shapes { OnOk result (drawing.new.out.items ≡ drawing.old.out.items ++
        shapes_text (spec.rows shown.now.view.now shown.now.width shown.now.records.now shown.now.history.now 130 spec.requesters)) }
    ensures bottom { IfOk result (λ bottom. bottom ≡ spec.bottom_of shown.now.view.now shown.now.records.now shown.now.history.now) }
    ensures signs { OnOk result (drawing.new.signs ≡ joined drawing.old.signs
        (signs_of (spec.rows shown.now.view.now shown.now.width shown.now.records.now shown.now.history.now 130 spec.requesters))) }
    ensures range { IfOk result (λ bottom. bottom ≤ 100000) }
{
    put_rows_of(alloc, shown, &[1, 2, 3, 4, 5, 6, 7], drawing)
}
