//! The whole page.
ghost use Rattle.std.specs.Prelude.{◌≡◌, ◌+◌, ◌++◌, None, length, OnOk, OnErr};
ghost use Rattle.chart_rows.specs.Sizes.{AreRows, IsRowTop};
ghost use Rattle.svg_text.specs.Shapes.{shape_text, shapes_text};
ghost use Rattle.chart_page.specs.Look as look;
ghost use Rattle.chart_page.specs.Shapes as spec;

use crate::heading::{put_columns, put_stripes, title_label};
use crate::legend::put_legend;
use arrayvec::ArrayString;
use chart_marks::{label_at, put_note, put_open, put_strokes};
use chart_rows::{
    Deed, Frame, Open, Page, Point, RESULTS_LEFT, Row, shown_of, text_line, top_of, width_of,
    write_event_words, write_omitted, write_result_words, write_row_words, write_shown,
};
use operation_text::write_decimal;
use std::alloc::{AllocError, Global};
use svg_text::{Block, Colour, put_block, put_label, put_page};

/// What is refused is told in red.
fn row_colour(deed: Deed) -> Colour
    ensures { result ≡ look.row_colour deed }
{
    match deed {
        Deed::Nothing => Colour::Red,
        _ => Colour::Black,
    }
}

/// White below a row.
fn band_block(frame: Frame, row: u16) -> Block
    ensures { result ≡ look.band_block frame row }
{
    Block {
        left: 0,
        top: top_of(row),
        right: width_of(frame),
        bottom: top_of(row) + 20,
        fill: Colour::White,
        edge: Colour::White,
        thickness: 0,
        is_open: false,
    }
}

/// A row, and whether it is below its `settle`.
#[derive(Clone, Copy)]
pub(crate) struct Band {
    frame: Frame,
    row: u16,
    is_under: bool,
}

/// Adds white below a row, and what is shown where one points at it.
fn put_white(alloc: Global, band: Band, of: &Row, out: &mut Vec<u8>) -> Result<(), AllocError>
    ensures { OnOk result (out.new.items ≡ out.old.items ++ shape_text (spec.white band of.now)) }
{
    let mut words = Vec::new(alloc);
    write_row_words(of, &mut words)?;
    put_block(&band_block(band.frame, band.row), words.as_slice(), out)
}

/// Adds the number of a row's line, which stands once.
#[tactic(auto, unfolding(svg_text::specs::Shapes::shapes_text))]
fn put_number(band: Band, line: u64, out: &mut Vec<u8>) -> Result<(), AllocError>
    ensures { OnOk result (out.new.items ≡ out.old.items ++ shapes_text (spec.number band line)) }
{
    if band.is_under {
        return Ok(());
    }
    let mut text = ArrayString::new();
    write_decimal(line, &mut text);
    let label = label_at(10, text_line(band.row), Colour::Grey);
    put_label(&label, text.as_bytes(), out)
}

/// Where a row's event stands: further right below its `settle`.
fn event_left(is_under: bool) -> u64
    ensures { result ≡ spec.event_left is_under }
{
    if is_under { 58 } else { 44 }
}

/// Adds a row's event.
fn put_said(alloc: Global, band: Band, of: &Row, out: &mut Vec<u8>) -> Result<(), AllocError>
    ensures { OnOk result (out.new.items ≡ out.old.items ++ shape_text (spec.event_said band of.now)) }
{
    let mut words = Vec::new(alloc);
    write_event_words(&of.said, &mut words)?;
    let x = event_left(band.is_under);
    let label = label_at(x, text_line(band.row), row_colour(of.deed));
    put_label(&label, words.as_slice(), out)
}

/// Adds what was seen of a row's event, or why it was refused.
fn put_seen(alloc: Global, band: Band, of: &Row, out: &mut Vec<u8>) -> Result<(), AllocError>
    ensures { OnOk result (out.new.items ≡ out.old.items ++ shape_text (spec.result_said band of.now)) }
{
    let mut words = Vec::new(alloc);
    write_result_words(&of.said, &mut words)?;
    let label = label_at(RESULTS_LEFT, text_line(band.row), row_colour(of.deed));
    put_label(&label, words.as_slice(), out)
}

/// Adds the texts at the left of a row.
#[tactic(auto, unfolding(svg_text::specs::Shapes::shapes_text))]
fn put_texts(alloc: Global, band: Band, of: &Row, out: &mut Vec<u8>) -> Result<(), AllocError>
    ensures { OnOk result (out.new.items ≡ out.old.items ++ shapes_text (spec.texts band of.now)) }
{
    put_said(alloc, band, of, out)?;
    put_seen(alloc, band, of, out)?;
    put_number(band, of.line, out)
}

/// Adds white and the texts at the left of a row.
#[tactic(auto, unfolding(svg_text::specs::Shapes::shapes_text))]
fn put_band(alloc: Global, band: Band, of: &Row, out: &mut Vec<u8>) -> Result<(), AllocError>
    ensures { OnOk result (out.new.items ≡ out.old.items ++ shapes_text (spec.band band of.now)) }
{
    put_white(alloc, band, of, out)?;
    put_texts(alloc, band, of, out)
}

/// Whether a row is of the line that the row above it has: then that line is a `settle`.
fn is_under(above: Option<u64>, line: u64) -> bool
    ensures { result ≡ spec.is_under above line }
{
    match above {
        None => false,
        Some(above) => above == line,
    }
}

/// Adds what stands below the arrows of each row.
fn put_bands(alloc: Global, frame: Frame, rows: &[Row], out: &mut Vec<u8>) -> Result<(), AllocError>
    requires { AreRows (length rows.now) }
    ensures { OnOk result (out.new.items ≡ out.old.items ++ shapes_text (spec.bands frame None 0 rows.now)) }
{
    let mut row = 0;
    let mut above = None;
    for of in rows {
        let is_under = is_under(above, of.line);
        let band = Band {
            frame,
            row,
            is_under,
        };
        put_band(alloc, band, of, out)?;
        above = Some(of.line);
        row += 1;
    }
    Ok(())
}

/// Adds the arrows that end in each row.
fn put_all_strokes(frame: Frame, rows: &[Row], out: &mut Vec<u8>) -> Result<(), AllocError>
    requires { AreRows (length rows.now) }
    ensures { OnOk result (out.new.items ≡ out.old.items ++ shapes_text (spec.each (spec.row_strokes frame) 0 rows.now)) }
{
    let mut row = 0;
    for of in rows {
        put_strokes(frame, row, of.deed, out)?;
        row += 1;
    }
    Ok(())
}

/// Adds the marks and texts of each row.
fn put_notes(frame: Frame, rows: &[Row], out: &mut Vec<u8>) -> Result<(), AllocError>
    requires { AreRows (length rows.now) }
    ensures { OnOk result (out.new.items ≡ out.old.items ++ shapes_text (spec.each (spec.row_note frame) 0 rows.now)) }
{
    let mut row = 0;
    for of in rows {
        put_note(frame, row, of, out)?;
        row += 1;
    }
    Ok(())
}

/// Adds the beginnings of the ways of what isn't seen to arrive.
fn put_all_open(frame: Frame, opens: &[Open], out: &mut Vec<u8>) -> Result<(), AllocError>
    ensures { OnOk result (out.new.items ≡ out.old.items ++ shapes_text (spec.open_strokes frame opens.now)) }
{
    for of in opens {
        put_open(frame, of, out)?;
    }
    Ok(())
}

/// Adds a text in grey.
#[tactic(auto, unfolding(svg_text::specs::Shapes::shapes_text))]
fn put_remark(x: u64, y: u64, words: &[u8], out: &mut Vec<u8>) -> Result<(), AllocError>
    ensures { OnOk result (out.new.items ≡ out.old.items ++ shapes_text (look.grey_text x y words.now)) }
{
    put_label(&label_at(x, y, Colour::Grey), words, out)
}

/// Where it stands how many events are left out: beside a short legend, and below a long one.
fn omitted_place(end: u64) -> Point
    ensures { result ≡ spec.omitted_place end }
{
    if end <= 560 {
        Point { x: end, y: 40 }
    } else {
        Point { x: 10, y: 56 }
    }
}

/// Adds how many events are left out, as they tell nothing new, if there are any.
#[tactic(auto, unfolding(svg_text::specs::Shapes::shapes_text))]
fn put_omitted(at: Point, count: u64, out: &mut Vec<u8>) -> Result<(), AllocError>
    ensures { OnOk result (out.new.items ≡ out.old.items ++ shapes_text (spec.omitted_said at count)) }
{
    if count == 0 {
        return Ok(());
    }
    let mut text = ArrayString::new();
    write_omitted(count, &mut text);
    put_remark(at.x, at.y, text.as_bytes(), out)
}

/// Where it stands which rows are shown: below the legend, and beside what else stands there.
fn shown_left(end: u64, omitted: u64) -> u64
    ensures { result ≡ spec.shown_left end omitted }
{
    if end <= 560 || omitted == 0 { 10 } else { 630 }
}

/// Adds which rows of how many are shown, if these aren't all.
#[tactic(auto, unfolding(svg_text::specs::Shapes::shapes_text))]
fn put_shown(
    x: u64,
    before: u64,
    rows: u64,
    after: u64,
    out: &mut Vec<u8>,
) -> Result<(), AllocError>
    ensures { OnOk result (out.new.items ≡ out.old.items ++ shapes_text (spec.rows_said x before rows after)) }
{
    if before == 0 && after == 0 {
        return Ok(());
    }
    let mut text = ArrayString::new();
    write_shown(shown_of(before, rows, after), &mut text);
    put_remark(x, 56, text.as_bytes(), out)
}

/// Where the rows end.
fn bottom_of(rows: &[Row]) -> u64
    requires { AreRows (length rows.now) }
    ensures value { result ≡ spec.bottom_of rows.now }
    ensures range { IsRowTop result }
{
    top_of(rows.len() as u16)
}

/// Adds the rows and what lies between them.
fn put_body(
    alloc: Global,
    frame: Frame,
    rows: &[Row],
    opens: &[Open],
    out: &mut Vec<u8>,
) -> Result<(), AllocError>
    requires { AreRows (length rows.now) }
    ensures { OnOk result (out.new.items ≡ out.old.items ++ shapes_text (spec.body frame rows.now opens.now)) }
{
    let bottom = bottom_of(rows);
    put_bands(alloc, frame, rows, out)?;
    put_columns(frame, bottom + 6, out)?;
    put_stripes(frame, (rows.len() / 40) as u16, out)?;
    put_all_strokes(frame, rows, out)?;
    put_all_open(frame, opens, out)?;
    put_notes(frame, rows, out)?;
    Ok(())
}

/// Adds the line alone.
#[tactic(auto, unfolding(svg_text::specs::Shapes::shapes_text))]
fn put_title(is_red: bool, title: &[u8], out: &mut Vec<u8>) -> Result<(), AllocError>
    ensures { OnOk result (out.new.items ≡ out.old.items ++ shapes_text (spec.title is_red title.now)) }
{
    put_label(&title_label(is_red), title, out)
}

/// Adds the legend, and what is said of the rows that aren't shown.
fn put_heading(page: &Page, out: &mut Vec<u8>) -> Result<(), AllocError>
    requires { AreRows (length page.now.rows) }
    ensures { OnOk result (out.new.items ≡ out.old.items ++ shapes_text (spec.heading page.now)) }
{
    let rows = page.rows.as_slice();
    let end = put_legend(rows, page.opens.as_slice(), out)?;
    put_omitted(omitted_place(end), page.omitted, out)?;
    let left = shown_left(end, page.omitted);
    put_shown(left, page.before, rows.len() as u64, page.after, out)?;
    Ok(())
}

/// Adds the shapes of a chart below a line, which is red where it tells a fault or a refusal. It has 1,000 rows at most.
/// After an `Err`, which is out of memory, some of them may be added.
pub fn put_chart_shapes(
    alloc: Global,
    page: &Page,
    is_red: bool,
    title: &[u8],
    out: &mut Vec<u8>,
) -> Result<(), AllocError>
    requires { AreRows (length page.now.rows) }
    ensures { OnOk result (out.new.items ≡ out.old.items ++ shapes_text (spec.shapes page.now is_red title.now)) }
{
    put_title(is_red, title, out)?;
    put_heading(page, out)?;
    let (rows, opens) = (page.rows.as_slice(), page.opens.as_slice());
    put_body(alloc, page.frame, rows, opens, out)?;
    Ok(())
}

/// Adds a chart in SVG that has the line alone. After an `Err`, which is out of memory, nothing is added.
pub fn put_title_chart(
    alloc: Global,
    is_red: bool,
    title: &[u8],
    out: &mut Vec<u8>,
) -> Result<(), AllocError>
    ensures ok { OnOk result (out.new.items ≡ out.old.items ++ spec.title_text is_red title.now) }
    ensures err { OnErr result (out.new.items ≡ out.old.items) }
{
    let mut shapes = Vec::new(alloc);
    put_title(is_red, title, &mut shapes)?;
    put_page(alloc, 640, 40, shapes, out)?;
    Ok(())
}
