//! What is shown.
ghost use Rattle.std.specs.Prelude.{◌≡◌, ◌<◌, []};
ghost use Rattle.chart_links.specs.Window as spec;

use arrayvec::ArrayString;
use chart_rows::{Parts, write_absent};
use fabric_core::{Event, LaneName};

/// What is shown.
#[derive(Clone, Copy)]
pub struct ChartWindow {
    /// The lane whose events and ends alone are shown; None shows all.
    pub lane: Option<LaneName>,
    /// The first line of the script whose events are shown, from 1 on.
    pub from: u64,
    /// The last one.
    pub to: u64,
    /// Whether events that tell nothing new are left out.
    pub is_brief: bool,
    /// Whether the levels of the lanes stand beside their rows.
    pub has_levels: bool,
}

/// The lane that an event is of.
fn lane_of(event: &Event) -> Option<LaneName>
    ensures { result ≡ spec.lane_of event.now }
{
    match event {
        Event::Transmit(lane) => Some(*lane),
        Event::Deliver(lane, _) => Some(*lane),
        Event::SendDllp(lane, _) => Some(*lane),
        Event::DeliverDllp(lane, _) => Some(*lane),
        Event::Timer(lane) => Some(*lane),
        Event::Retrained(lane) => Some(*lane),
        Event::Forward(lane, _) => Some(*lane),
        Event::Submit(_, _) | Event::Serve(_) | Event::Collect(_) => None,
    }
}

/// Whether two are the same lane.
fn is_same(one: LaneName, other: LaneName) -> bool
    ensures { result ≡ spec.is_same one other }
{
    match (one, other) {
        (LaneName::Up(port), LaneName::Up(same)) => port == same,
        (LaneName::Down(port), LaneName::Down(same)) => port == same,
        (LaneName::Inward, LaneName::Inward) => true,
        (LaneName::Outward, LaneName::Outward) => true,
        _ => false,
    }
}

/// Whether the event is of a lane that is shown.
pub(crate) fn is_chosen(lane: Option<LaneName>, event: &Event) -> bool
    ensures { result ≡ spec.is_chosen lane event.now }
{
    let Some(lane) = lane else {
        return true;
    };
    match lane_of(event) {
        None => false,
        Some(of) => is_same(lane, of),
    }
}

/// Whether a fabric with so many requesters has the lane.
pub(crate) fn has_lane(requesters: u8, lane: LaneName) -> bool
    ensures { result ≡ spec.has_lane requesters lane }
{
    match lane {
        LaneName::Up(port) => 1 <= port && port <= requesters,
        LaneName::Down(port) => 1 <= port && port <= requesters,
        LaneName::Inward | LaneName::Outward => true,
    }
}

/// Writes what is said of a lane that a fabric with so many requesters doesn't have.
pub(crate) fn write_if_absent(lane: Option<LaneName>, requesters: u8, text: &mut ArrayString<512>)
    requires { text.old.bytes ≡ [] }
    ensures { text.new.bytes ≡ spec.absent_words lane requesters }
{
    let Some(lane) = lane else {
        return;
    };
    if !has_lane(requesters, lane) {
        write_absent(lane, text);
    }
}

/// The parts at the two ends of a lane.
fn ends_of(lane: LaneName) -> Parts
    ensures { result ≡ spec.ends_of lane }
{
    match lane {
        LaneName::Up(port) => Parts::Requester(port),
        LaneName::Down(port) => Parts::Requester(port),
        LaneName::Inward | LaneName::Outward => Parts::Memory,
    }
}

/// The parts that have a line: all, or those of the chosen lane if the fabric has it.
pub(crate) fn parts_of(lane: Option<LaneName>, requesters: u8) -> Parts
    ensures { result ≡ spec.parts_of lane requesters }
{
    let Some(lane) = lane else {
        return Parts::All(requesters);
    };
    if has_lane(requesters, lane) {
        ends_of(lane)
    } else {
        Parts::All(requesters)
    }
}

/// Where an event goes.
#[derive(Clone, Copy)]
pub(crate) enum Place {
    /// It is of no lane that is shown, or it would be left out of the rows before or after.
    Hidden,
    /// It isn't shown, and comes before the rows.
    Before,
    /// It is the next row.
    Shown,
    /// It isn't shown, and comes after the rows.
    After,
    /// It is left out, as it tells nothing new.
    Omitted,
}

/// Where an event goes that is left out: it is counted if it would be shown.
fn omitted(place: Place) -> Place
    ensures place { result ≡ spec.omitted place }
    ensures shown { result ≡ Place.Shown → ⊥ }
{
    match place {
        Place::Hidden | Place::Before | Place::After => Place::Hidden,
        Place::Shown | Place::Omitted => Place::Omitted,
    }
}

/// The most rows of a chart.
const MOST_ROWS: usize = 1_000;

impl ChartWindow {
    /// Where a row of a line goes, after so many rows.
    pub(crate) fn place_in(&self, rows: usize, line: u64) -> Place
        ensures place { result ≡ spec.place_in self.now rows line }
        ensures shown { result ≡ Place.Shown → rows < 1000 }
    {
        if line < self.from {
            Place::Before
        } else if self.to < line {
            Place::After
        } else if rows < MOST_ROWS {
            Place::Shown
        } else {
            Place::After
        }
    }

    /// Where an event goes.
    pub(crate) fn place_of(&self, rows: usize, line: u64, event: &Event) -> Place
        ensures place { result ≡ spec.place_of self.now rows line event.now }
        ensures shown { result ≡ Place.Shown → rows < 1000 }
    {
        if is_chosen(self.lane, event) {
            self.place_in(rows, line)
        } else {
            Place::Hidden
        }
    }

    /// Where an event goes that goes to this place, unless it is left out.
    pub(crate) fn unless_old(&self, is_old: bool, place: Place) -> Place
        ensures place { result ≡ spec.unless_omitted (spec.is_omitted self.now is_old) place }
        ensures shown { result ≡ Place.Shown → place ≡ Place.Shown }
    {
        if self.is_brief && is_old {
            omitted(place)
        } else {
            place
        }
    }
}
