//! The chart, event by event.
ghost use Rattle.std.specs.Prelude.{◌≡◌, ◌≤◌, ◌<◌, ◌+◌, ◌++◌, length, replicate, IsSome, OnOk, OnErr, IfOk};
ghost use Rattle.chart_rows.specs.Sizes.{AreRows};
ghost use Rattle.chart_links.specs.Levels.{levelled_text};
ghost use Rattle.chart_links.specs.CourseView.{quiet};
ghost use Rattle.chart_links.specs.Window.{absent_words};
ghost use Rattle.chart_links.specs.ChartView as spec;

use crate::course::Course;
use crate::lanes::follow;
use crate::left::{add_dllp, add_left, add_packet};
use crate::news::tells_nothing;
use crate::window::{ChartWindow, Place, parts_of, write_if_absent};
use arrayvec::ArrayString;
use chart_levels::{StepLine, put_levelled_page};
use chart_page::put_chart_shapes;
use chart_rows::{Deed, Frame, Open, Page, Row, Said, first_line, letters_of};
use fabric_core::{Event, LaneName, Refusal, Seen};
use std::alloc::{AllocError, Global};
use std::marker::Model;

/// How many lanes a fabric has, at most.
const LANES: usize = 16;

/// What happened on the links of a fabric so far.
///
/// A chart has at most 1,000 rows, one for each event and one for each `settle`, and counts those that it doesn't show. What it keeps grows by a few hundred
/// bytes for each row, and by what is in the replay buffers, on the wires and in the queues.
#[derive(Drop)]
pub struct Chart {
    alloc: Global,
    window: ChartWindow,
    requesters: u8,
    courses: Vec<Course>,
    page: Page,
}

impl Model for Chart {
    ghost use Rattle.std.specs.Prelude.{◌≤◌, length};
    ghost use Rattle.chart_links.specs.ChartView.{ChartView};

    ghost Value = { ChartView };

    ghost view = { λ c. record { window = c.window; requesters = c.requesters; courses = c.courses.items; page = c.page } };

    ghost invariant = { λ c. length c.page.rows ≤ 1000 };
}

/// The lanes of a fabric to which nothing has happened.
fn new_courses(alloc: Global) -> Result<Vec<Course>, AllocError>
    ensures { IfOk result (λ courses. courses.items ≡ replicate 16 quiet) }
{
    let mut courses = Vec::new(alloc);
    for lane in 0..LANES {
        courses.push(Course::new(alloc))?;
    }
    Ok(courses)
}

/// Adds what was sent in a row that is shown, and arrives in one that isn't.
fn add_open(deed: Deed, opens: &mut Vec<Open>) -> Result<(), AllocError>
    ensures { OnOk result (opens.new.items ≡ opens.old.items ++ spec.opened deed) }
{
    match deed {
        Deed::Arrived(lane, _, _, Some(sent)) => add_packet(lane, &sent, opens),
        Deed::ArrivedDllp(lane, _, Some(sent), _) => add_dllp(lane, &sent, opens),
        _ => Ok(()),
    }
}

/// One row more that isn't shown, before the rows, after them, or as it tells nothing new.
fn count(place: Place, page: &mut Page)
    ensures page { page.new ≡ spec.counted place page.old }
    ensures rows { page.new.rows ≡ page.old.rows }
{
    match place {
        Place::Before => page.before = page.before.saturating_add(1),
        Place::After => page.after = page.after.saturating_add(1),
        Place::Omitted => page.omitted = page.omitted.saturating_add(1),
        _ => {}
    }
}

/// The row of an event, if it is shown.
fn row_at(place: Place, rows: usize) -> Option<u16>
    requires { place ≡ Place.Shown → rows < 1000 }
    ensures row { result ≡ spec.row_at place rows }
    ensures shown { IsSome result → rows < 1000 }
{
    match place {
        Place::Shown => Some(rows as u16),
        _ => None,
    }
}

/// A row is added, and its result has its place.
fn add_row(of: Row, page: &mut Page) -> Result<(), AllocError>
    ensures page { OnOk result (page.new ≡ spec.with_row of page.old) }
    ensures rows { length page.new.rows ≤ length page.old.rows + 1 }
{
    page.letters = page.letters.max(letters_of(&of.said));
    page.rows.push(of)?;
    Ok(())
}

/// An event gets a row, or it ends what was sent in one.
fn draw(row: Option<u16>, of: Row, page: &mut Page) -> Result<(), AllocError>
    requires few { AreRows (length page.old.rows) }
    requires room { IsSome row → length page.old.rows < 1000 }
    ensures page { OnOk result (page.new ≡ spec.drawn row of page.old) }
    ensures few { AreRows (length page.new.rows) }
{
    match row {
        Some(_) => add_row(of, page),
        None => add_open(of.deed, &mut page.opens),
    }
}

/// Adds what is still on the wires, and finds where the first line stands behind so many step lines.
fn add_rest(courses: &[Course], levels: usize, page: &mut Page) -> Result<(), AllocError>
    requires { AreRows (length page.old.rows) }
    ensures page { OnOk result (page.new ≡ spec.with_left courses.now levels page.old) }
    ensures few { OnOk result (AreRows (length page.new.rows)) }
{
    page.frame.left = first_line(page.letters, levels);
    add_left(courses, &mut page.opens)
}

/// The line above a chart, with what follows it.
fn lengthened(
    alloc: Global,
    title: &[u8],
    lane: Option<LaneName>,
    requesters: u8,
) -> Result<Vec<u8>, AllocError>
    ensures { IfOk result (λ line. line.items ≡ title.now ++ absent_words lane requesters) }
{
    let mut words = ArrayString::new();
    write_if_absent(lane, requesters, &mut words);
    let mut line = Vec::new(alloc);
    line.extend_from_slice(title)?;
    line.extend_from_slice(words.as_bytes())?;
    Ok(line)
}

impl Chart {
    /// A chart of a fabric with so many requesters, to which nothing has happened. The only error is being out of memory.
    pub fn new(alloc: Global, window: ChartWindow, requesters: u8) -> Result<Chart, AllocError>
        ensures { IfOk result (λ chart. chart ≡ spec.new_chart window requesters) }
    {
        let courses = new_courses(alloc)?;
        Ok(Chart {
            alloc,
            window,
            requesters,
            courses,
            page: Page {
                frame: Frame {
                    parts: parts_of(window.lane, requesters),
                    left: 0,
                },
                letters: 16,
                rows: Vec::new(alloc),
                opens: Vec::new(alloc),
                before: 0,
                after: 0,
                omitted: 0,
            },
        })
    }

    /// An event of that line of the script happened, and this was seen of it. Gives its row, if it is shown. The only error
    /// is being out of memory; after it the chart may lack the event.
    pub fn event(&mut self, line: u64, event: Event, seen: Seen) -> Result<Option<u16>, AllocError>
        ensures chart { OnOk result (self.new ≡ spec.charted self.old line event seen) }
        ensures row { IfOk result (λ row. row ≡ spec.row_for self.old line event seen) }
    {
        let rows = self.page.rows.len();
        let is_old = tells_nothing(&self.courses, &event, &seen);
        let chosen = self.window.place_of(rows, line, &event);
        let place = self.window.unless_old(is_old, chosen);
        let row = row_at(place, rows);
        let deed = follow(&mut self.courses, row, &event, &seen)?;
        count(place, &mut self.page);
        let of = Row {
            line,
            said: Said::Event(event, Ok(seen)),
            deed,
        };
        draw(row, of, &mut self.page)?;
        Ok(row)
    }

    /// That line of the script is a `settle`, and its events follow. Gives its row, if it is shown. The only error is being
    /// out of memory; after it the chart may lack the row.
    pub fn settle(&mut self, line: u64) -> Result<Option<u16>, AllocError>
        ensures chart { OnOk result (self.new ≡ spec.headed self.old line) }
        ensures row { IfOk result (λ row. row ≡ spec.head_row self.old line) }
    {
        let rows = self.page.rows.len();
        let place = self.window.place_in(rows, line);
        let row = row_at(place, rows);
        count(place, &mut self.page);
        let of = Row {
            line,
            said: Said::Settle,
            deed: Deed::Settles,
        };
        draw(row, of, &mut self.page)?;
        Ok(row)
    }

    /// An event of that line of the script was refused. Gives its row, if it is shown. The only error is being out of
    /// memory; after it the chart may lack the event.
    pub fn refused(
        &mut self,
        line: u64,
        event: Event,
        refusal: Refusal,
    ) -> Result<Option<u16>, AllocError>
        ensures chart { OnOk result (self.new ≡ spec.refused self.old line event refusal) }
        ensures row { IfOk result (λ row. row ≡ spec.refused_row self.old line event) }
    {
        let rows = self.page.rows.len();
        let place = self.window.place_of(rows, line, &event);
        let row = row_at(place, rows);
        count(place, &mut self.page);
        let of = Row {
            line,
            said: Said::Event(event, Err(refusal)),
            deed: Deed::Nothing,
        };
        draw(row, of, &mut self.page)?;
        Ok(row)
    }

    /// Adds the chart in SVG below a line, which is red where it tells a fault or a refusal, with step lines behind its results.
    /// If the fabric lacks the lane of the window, that follows in the line. After an `Err`, which is out of memory,
    /// nothing is added.
    pub fn put(
        self,
        lines: &[StepLine],
        is_red: bool,
        title: &[u8],
        out: &mut Vec<u8>,
    ) -> Result<(), AllocError>
        ensures ok { OnOk result (out.new.items ≡ out.old.items ++ levelled_text (spec.page_of self (length lines.now)) lines.now is_red (spec.titled self title.now)) }
        ensures err { OnErr result (out.new.items ≡ out.old.items) }
    {
        let alloc = self.alloc;
        let courses = self.courses;
        let mut page = self.page;
        let line = lengthened(alloc, title, self.window.lane, self.requesters)?;
        add_rest(courses.as_slice(), lines.len(), &mut page)?;
        let mut shapes = Vec::new(alloc);
        put_chart_shapes(alloc, &page, is_red, line.as_slice(), &mut shapes)?;
        put_levelled_page(alloc, &page, lines, shapes, out)
    }
}
