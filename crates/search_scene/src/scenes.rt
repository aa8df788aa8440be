//! Whole scenes.
ghost use Rattle.std.specs.Prelude.{◌≡◌, ◌≤◌, ◌-◌, IfOk, IfSome, length};
ghost use Rattle.search_history.specs.Expected.{IsExpected};
ghost use Rattle.search_reasons.specs.Lines.{lines_in};
ghost use Rattle.search_scene.specs.Scenes.{IsHistoryOf, Shows, places_of, title_of};

use crate::arrows::arrows_of;
use crate::bars::bars_of;
use crate::choosing::{Chosen, chosen_of};
use crate::columns::columns_of;
use crate::known::known_of;
use crate::notes::notes_of;
use crate::page::Page;
use arrayvec::ArrayString;
use log_events::Requests;
use operation_text::write_decimal;
use search_history::Budget;
use search_picture::Scene;
use search_reasons::{
    Case, Link, Reasons, Why, lines_of, named_by, reason_lines, reasons_with_faults,
};
use std::alloc::{AllocError, Global};
use trace_diagnostics::TraceLines;

/// The title: what the search answers.
fn title_at(alloc: Global, place: usize) -> Result<Vec<u8>, AllocError>
    ensures { IfOk result (λ v. v.items ≡ title_of place) }
{
    let mut text = ArrayString::new();
    text.push_str("none ");
    write_decimal(place as u64, &mut text);
    let mut title = Vec::new(alloc);
    title.extend_from_slice(text.as_bytes())?;
    Ok(title)
}

/// What the places in a history of the records before the last one are.
fn places_at(alloc: Global, lines: &TraceLines, last: usize) -> Result<Vec<u8>, AllocError>
    ensures { IfOk result (λ v. v.items ≡ places_of lines.now last) }
{
    let mut text = ArrayString::new();
    text.push_str("its place in a history of lines ");
    write_decimal(lines.of_record(0), &mut text);
    text.push_str(" to ");
    write_decimal(lines.of_record(last.saturating_sub(1)), &mut text);
    let mut places = Vec::new(alloc);
    places.extend_from_slice(text.as_bytes())?;
    Ok(places)
}

/// The cycle that the reasons tell of.
fn cycle_of(reasons: &Reasons) -> &[Link] {
    match &reasons.why {
        Why::Answers { cycle, .. } => cycle.as_slice(),
        Why::Form => &[],
    }
}

/// The requests that are shown for these reasons.
fn chosen_for(alloc: Global, case: Case<'_>, reasons: &Reasons) -> Result<Vec<Chosen>, AllocError>
    ensures { IfOk result (λ v. length v.items ≤ 20) }
{
    let named = named_by(alloc, case, reasons)?;
    let requests = Requests::of(alloc, case.read)?;
    chosen_of(alloc, &requests, &named)
}

/// The scene of a log for these reasons.
fn scene_for(
    alloc: Global,
    text: &[u8],
    case: Case<'_>,
    reasons: &Reasons,
    budget: &mut Budget,
) -> Result<Scene, AllocError>
    ensures { IfOk result (Shows case.entry.read.seen.now (case.entry.read.count - 1) (lines_in text.now)) }
{
    let told = reason_lines(alloc, text, case, reasons)?;
    let notes = notes_of(alloc, &told)?;
    let last = case.read.count.saturating_sub(1);
    let title = title_at(alloc, last)?;
    let lines = lines_of(alloc, text)?;
    let places = places_at(alloc, &lines, last)?;
    let chosen = chosen_for(alloc, case, reasons)?;
    let columns = columns_of(alloc, &lines, &chosen)?;
    let known = known_of(alloc, case, budget)?;
    let page = Page {
        seen: case.read.seen,
        lines: &lines,
        last,
        columns: &columns,
        history: &known.history,
    };
    let bars = bars_of(alloc, &page, &known.before, &chosen)?;
    let arrows = arrows_of(alloc, case, cycle_of(reasons), &bars.submissions)?;
    Ok(Scene {
        title,
        note: notes.first,
        places,
        columns,
        requests: bars.all,
        arrows,
        lines: notes.others,
    })
}

/// The scene of a log of which a prefix has no history, by the lines of its text: why it has none, and the requests that have
/// to do with that. Two more things are looked for: the reply that is expected in place of the last record's, and a history of
/// the records before; all within the budget, of which the reasons get a half.
/// Fails where memory can't be allocated.
pub fn scene_of(
    alloc: Global,
    text: &[u8],
    case: Case<'_>,
    budget: &mut Budget,
) -> Result<Scene, AllocError>
    ensures { IfOk result (Shows case.entry.read.seen.now (case.entry.read.count - 1) (lines_in text.now)) }
{
    let mut own = budget.half(u64::MAX);
    let reasons = reasons_with_faults(alloc, case, &mut own)?;
    budget.end_half(own);
    scene_for(alloc, text, case, &reasons, budget)
}
