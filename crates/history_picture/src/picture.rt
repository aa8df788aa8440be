//! Whole pictures.
ghost use Rattle.std.specs.Prelude.{◌≡◌, ◌≤◌, ◌+◌, ◌++◌, length, OnOk, OnErr, IfOk};
ghost use Rattle.svg_text.specs.Shapes.{shapes_text};
ghost use Rattle.history_bars.specs.Bars.{bottom_of};
ghost use Rattle.history_bars.specs.Signs.{signs_of};
ghost use Rattle.history_picture.specs.Picture as spec;

use crate::entries::{put_entries, shown_entries};
use crate::flaws::{Finding, flaw_of, flaw_point, put_mark};
use crate::heading::{put_captions, title_label};
use crate::legend::put_legend;
use crate::notes::put_note;
use crate::scale::{Window, is_cut, scale_of};
use flaw_places::{expected_reply, flawed_request};
use history_bars::marks::View;
use history_bars::requests::Drawing;
use history_bars::rows::{Shown, put_rows};
use history_bars::scale::x_at;
use history_bars::signs::Signs;
use history_words::{Claim, Flaw, Record};
use seq_memory::Entry;
use std::alloc::{AllocError, Global};
use svg_text::{put_label, put_page};

/// How wide the page is: texts may stand behind the last bar.
fn width_of(view: &View) -> u64
    ensures { result ≡ spec.width_of view.now }
{
    let room = if view.expected.is_some() { 660 } else { 404 };
    (x_at(u64::from(view.scale.span) + 1) + room).max(840)
}

/// What is drawn.
#[derive(Clone, Copy)]
struct Drawn<'a> {
    view: &'a View,
    records: &'a [Record],
    history: &'a [Entry],
    finding: Option<Finding>,
}

/// What is known of shapes: where the rows end, and what occurs.
#[derive(Clone, Copy)]
struct Extent {
    bottom: u64,
    signs: Signs,
}

/// Adds the shapes below the heading.
fn put_body(alloc: Global, drawn: &Drawn<'_>, out: &mut Vec<u8>) -> Result<Extent, AllocError>
    requires { drawn.now.view.now.scale.from + drawn.now.view.now.scale.span ≤ length drawn.now.history.now }
    ensures shapes { OnOk result (out.new.items ≡ out.old.items ++
        shapes_text (spec.body drawn.now.view.now drawn.now.records.now drawn.now.history.now drawn.now.finding)) }
    ensures bottom { IfOk result (λ e. e.bottom ≡ bottom_of drawn.now.view.now drawn.now.records.now drawn.now.history.now) }
    ensures range { IfOk result (λ e. e.bottom ≤ 100000) }
    ensures signs { IfOk result (λ e. e.signs
        ≡ signs_of (spec.body drawn.now.view.now drawn.now.records.now drawn.now.history.now drawn.now.finding)) }
{
    let (view, history) = (drawn.view, drawn.history);
    let shown = Shown {
        view,
        width: width_of(view),
        records: drawn.records,
        history,
    };
    let mut rows = Drawing::new(alloc);
    let bottom = put_rows(alloc, &shown, &mut rows)?;
    let signs = put_entries(view, bottom, shown_entries(view.scale, history), out)?;
    out.extend_from_slice(rows.out.as_slice())?;
    let flaw = flaw_of(drawn.finding);
    put_mark(view.scale, drawn.records, flaw, bottom, out)?;
    Ok(Extent {
        bottom,
        signs: signs.joined(rows.signs),
    })
}

/// Adds what stands above the picture: of the legend what occurs.
fn put_heading(
    alloc: Global,
    drawn: &Drawn<'_>,
    signs: Signs,
    out: &mut Vec<u8>,
) -> Result<(), AllocError>
    requires { drawn.now.view.now.scale.from + drawn.now.view.now.scale.span ≤ length drawn.now.history.now }
    ensures { OnOk result (out.new.items ≡ out.old.items ++
        shapes_text (spec.heading drawn.now.view.now drawn.now.records.now drawn.now.history.now drawn.now.finding signs)) }
{
    let count = drawn.history.len() as u64;
    put_captions(drawn.view, count, drawn.finding, out)?;
    put_note(alloc, drawn.view, drawn.records, drawn.finding, out)?;
    put_legend(signs, out)?;
    Ok(())
}

/// Adds all shapes, and gives where the rows end.
fn put_drawn(alloc: Global, drawn: &Drawn<'_>, out: &mut Vec<u8>) -> Result<u64, AllocError>
    requires { drawn.now.view.now.scale.from + drawn.now.view.now.scale.span ≤ length drawn.now.history.now }
    ensures shapes { OnOk result (out.new.items ≡ out.old.items ++
        shapes_text (spec.drawn drawn.now.view.now drawn.now.records.now drawn.now.history.now drawn.now.finding)) }
    ensures bottom { IfOk result (λ bottom. bottom ≡ bottom_of drawn.now.view.now drawn.now.records.now drawn.now.history.now) }
    ensures range { IfOk result (λ bottom. bottom ≤ 100000) }
{
    let mut body = Vec::new(alloc);
    let Extent { bottom, signs } = put_body(alloc, drawn, &mut body)?;
    put_heading(alloc, drawn, signs, out)?;
    out.extend_from_slice(body.as_slice())?;
    Ok(bottom)
}

/// Adds the text of a view.
fn put_whole(alloc: Global, drawn: &Drawn<'_>, out: &mut Vec<u8>) -> Result<(), AllocError>
    requires { drawn.now.view.now.scale.from + drawn.now.view.now.scale.span ≤ length drawn.now.history.now }
    ensures ok { OnOk result (out.new.items ≡ out.old.items ++ spec.view_text drawn.now.view.now drawn.now.records.now drawn.now.history.now drawn.now.finding) }
    ensures err { OnErr result (out.new.items ≡ out.old.items) }
{
    let mut shapes = Vec::new(alloc);
    let bottom = put_drawn(alloc, drawn, &mut shapes)?;
    put_page(alloc, width_of(drawn.view), bottom + 30, shapes, out)?;
    Ok(())
}

/// What is shown of a trace and its history.
fn view_of(
    alloc: Global,
    window: Window,
    claim: &Claim<'_>,
    flaw: Option<Flaw>,
) -> Result<View, AllocError>
    ensures view { IfOk result (λ view. view ≡ spec.view_of window claim.now flaw) }
    ensures within { IfOk result (λ view. view.scale.from + view.scale.span ≤ length claim.now.memory.entries) }
{
    let expected = match flaw {
        Some(flaw) => expected_reply(alloc, claim, flaw)?,
        None => None,
    };
    let trace = claim.trace;
    let point = flaw_point(trace.records.as_slice(), flaw);
    Ok(View {
        scale: scale_of(window, point, claim.history.len()),
        is_cut: is_cut(window, claim.history.len()),
        flawed: flawed_request(claim, flaw),
        expected,
    })
}

/// Adds the picture of a trace and its history in SVG, of which `finding` has the first flaw. The window says
/// which points of the history are shown, 4,294,967,295 of them at most after the first, or 60 where nothing is chosen.
/// The rows are those of requesters 1 to 7. After an `Err`, which is out of memory, nothing is added.
pub fn put_picture(
    alloc: Global,
    claim: &Claim<'_>,
    finding: Option<Finding>,
    window: Window,
    out: &mut Vec<u8>,
) -> Result<(), AllocError>
    ensures ok { OnOk result (out.new.items ≡ out.old.items ++ spec.picture_text window claim.now finding) }
    ensures err { OnErr result (out.new.items ≡ out.old.items) }
{
    let view = view_of(alloc, window, claim, flaw_of(finding))?;
    let trace = claim.trace;
    let drawn = Drawn {
        view: &view,
        records: trace.records.as_slice(),
        history: claim.history,
        finding,
    };
    put_whole(alloc, &drawn, out)?;
    Ok(())
}

/// Adds words in red.
#[tactic(auto, unfolding(svg_text::specs::Shapes::shapes_text))]
fn put_title(words: &[u8], out: &mut Vec<u8>) -> Result<(), AllocError>
    ensures { OnOk result (out.new.items ≡ out.old.items ++ shapes_text (spec.title words.now)) }
{
    put_label(&title_label(true), words, out)
}

/// Adds a picture in SVG that has these words alone. After an `Err`, which is out of memory, nothing is added.
pub fn put_line_picture(alloc: Global, words: &[u8], out: &mut Vec<u8>) -> Result<(), AllocError>
    ensures ok { OnOk result (out.new.items ≡ out.old.items ++ spec.line_text words.now) }
    ensures err { OnErr result (out.new.items ≡ out.old.items) }
{
    let mut shapes = Vec::new(alloc);
    put_title(words, &mut shapes)?;
    put_page(alloc, 640, 40, shapes, out)?;
    Ok(())
}
