//! Where the parts of a fabric and the rows of a chart stand, in pixels from the left and from the top.
ghost use Rattle.std.specs.Prelude.{◌≡◌, ◌≤◌};
ghost use Rattle.chart_rows.specs.Sizes.{IsAcross, IsColumn, IsDown, IsOnPage, IsRowTop};
ghost use Rattle.chart_rows.specs.Layout as layout;

use fabric_core::LaneName;

/// Where the column of results begins.
pub const RESULTS_LEFT: u64 = 236;

/// The most letters of a result.
pub const MOST_LETTERS: usize = 44;

/// A point.
#[derive(Clone, Copy)]
pub struct Point {
    pub x: u64,
    pub y: u64,
}

/// The way from one line to another.
#[derive(Clone, Copy)]
pub struct Way {
    pub from: u64,
    pub to: u64,
    pub is_right: bool,
}

/// The parts of a fabric that have a line.
#[derive(Clone, Copy)]
pub enum Parts {
    /// So many requesters, the switch and the memory.
    All(u8),
    /// The requester at this port and the switch.
    Requester(u8),
    /// The switch and the memory.
    Memory,
}

/// The parts that have a line, and where the first line stands.
#[derive(Clone, Copy)]
pub struct Frame {
    pub parts: Parts,
    pub left: u16,
}

/// How wide a text of so many letters of 12 pixels is.
pub fn text_width(letters: usize) -> u64
    requires { letters ≤ 512 }
    ensures value { result ≡ layout.text_width letters }
    ensures range { result ≤ 4000 }
{
    letters as u64 * 29 / 4
}

/// Where the step lines stand, behind a column of results in so many letters, 44 at most.
pub fn levels_left(letters: usize) -> u64
    ensures value { result ≡ layout.levels_left letters }
    ensures range { result ≤ 4300 }
{
    RESULTS_LEFT + text_width(letters.min(MOST_LETTERS)) + 16
}

/// How far so many step lines reach, with white behind them.
fn levels_width(count: usize) -> u64
    ensures value { result ≡ layout.levels_width count }
    ensures range { result ≤ 32064 }
{
    64 * (count.min(500) + count.min(1)) as u64
}

/// Where the first line stands behind a column of results in so many letters, and so many step lines.
pub fn first_line(letters: usize, levels: usize) -> u16
    ensures { result ≡ layout.first_line letters levels }
{
    (levels_left(letters) + levels_width(levels) + 84) as u16
}

/// Where the line of the requester at a port stands.
pub fn requester_x(frame: Frame, port: u8) -> u64
    ensures value { result ≡ layout.requester_x frame port }
    ensures range { IsColumn result }
{
    let left = u64::from(frame.left);
    match frame.parts {
        Parts::All(_) => left + 170 * u64::from(port).saturating_sub(1),
        Parts::Requester(_) | Parts::Memory => left,
    }
}

/// Where the line of the switch stands.
pub fn switch_x(frame: Frame) -> u64
    ensures value { result ≡ layout.switch_x frame }
    ensures range { result ≤ 109000 }
{
    let left = u64::from(frame.left);
    match frame.parts {
        Parts::All(requesters) => left + 170 * u64::from(requesters),
        Parts::Requester(_) => left + 170,
        Parts::Memory => left,
    }
}

/// Where the line of the memory stands.
pub fn memory_x(frame: Frame) -> u64
    ensures value { result ≡ layout.memory_x frame }
    ensures range { IsColumn result }
{
    switch_x(frame) + 170
}

/// The line at the right.
fn last_x(frame: Frame) -> u64
    ensures value { result ≡ layout.last_x frame }
    ensures range { IsColumn result }
{
    match frame.parts {
        Parts::All(_) | Parts::Memory => memory_x(frame),
        Parts::Requester(_) => switch_x(frame),
    }
}

/// How wide a chart is: a legend has its place in 1,200 pixels.
pub fn width_of(frame: Frame) -> u64
    ensures value { result ≡ layout.width_of frame }
    ensures range { result ≤ 111000 }
{
    (last_x(frame) + 240).max(1200)
}

/// Where a row begins. Below each 40 rows there is a stripe with the names of the lines.
pub fn top_of(row: u16) -> u64
    ensures value { result ≡ layout.top_of row }
    ensures range { IsRowTop result }
{
    let row = u64::from(row);
    96 + 20 * (row + row / 40)
}

/// The base line of a row's texts.
pub fn text_line(row: u16) -> u64
    ensures value { result ≡ layout.text_line row }
    ensures range { IsDown result }
{
    top_of(row) + 14
}

/// Where in its row an arrow begins.
pub fn departure(row: u16) -> u64
    ensures value { result ≡ layout.departure row }
    ensures range { IsDown result }
{
    top_of(row) + 18
}

/// Where in its row an arrow ends, and a mark stands.
pub fn middle(row: u16) -> u64
    ensures value { result ≡ layout.middle row }
    ensures range { IsDown result }
{
    top_of(row) + 10
}

/// The way of packets on a lane.
fn packet_way(frame: Frame, lane: LaneName) -> Way
    ensures value { result ≡ layout.packet_way frame lane }
    ensures from { IsColumn result.from }
    ensures to { IsColumn result.to }
{
    match lane {
        LaneName::Up(port) => Way {
            from: requester_x(frame, port),
            to: switch_x(frame),
            is_right: true,
        },
        LaneName::Down(port) => Way {
            from: switch_x(frame),
            to: requester_x(frame, port),
            is_right: false,
        },
        LaneName::Inward => Way {
            from: switch_x(frame),
            to: memory_x(frame),
            is_right: true,
        },
        LaneName::Outward => Way {
            from: memory_x(frame),
            to: switch_x(frame),
            is_right: false,
        },
    }
}

/// The other direction.
pub fn other(is_right: bool) -> bool
    ensures { result ≡ layout.other is_right }
{
    !is_right
}

/// The way of DLLPs on a lane, or of packets.
pub fn way_of(frame: Frame, lane: LaneName, is_dllp: bool) -> Way
    ensures value { result ≡ layout.way_of frame lane is_dllp }
    ensures from { IsColumn result.from }
    ensures to { IsColumn result.to }
{
    let way = packet_way(frame, lane);
    if !is_dllp {
        return way;
    }
    Way {
        from: way.to,
        to: way.from,
        is_right: other(way.is_right),
    }
}

/// A place that lies so far behind x for one who goes that way.
pub fn behind(is_right: bool, x: u64, distance: u64) -> u64
    requires x { IsOnPage x }
    requires distance { IsOnPage distance }
    ensures { result ≡ layout.behind is_right x distance }
{
    if is_right {
        x.saturating_sub(distance)
    } else {
        x + distance
    }
}

/// The place so many thirds of the way from its beginning.
pub fn thirds(way: Way, count: u64) -> u64
    requires from { IsColumn way.from }
    requires to { IsColumn way.to }
    requires count { count ≤ 3 }
    ensures value { result ≡ layout.thirds way count }
    ensures range { IsAcross result }
{
    if way.is_right {
        way.from + way.to.saturating_sub(way.from) / 3 * count
    } else {
        way.from
            .saturating_sub(way.from.saturating_sub(way.to) / 3 * count)
    }
}

/// Where an arrow begins that ends in a row.
pub fn start_of(way: Way, sent: Option<u16>, row: u16) -> Point
    requires from { IsColumn way.from }
    requires to { IsColumn way.to }
    ensures value { result ≡ layout.start_of way sent row }
    ensures x { IsAcross result.x }
    ensures y { IsDown result.y }
{
    match sent {
        Some(sent) => Point {
            x: way.from,
            y: departure(sent),
        },
        None => Point {
            x: thirds(way, 1),
            y: middle(row),
        },
    }
}

/// Where an arrow ends.
pub fn finish_of(way: Way, is_lost: bool, row: u16) -> Point
    requires from { IsColumn way.from }
    requires to { IsColumn way.to }
    ensures value { result ≡ layout.finish_of way is_lost row }
    ensures x { IsAcross result.x }
    ensures y { IsDown result.y }
{
    Point {
        x: if is_lost {
            behind(way.is_right, way.to, 80)
        } else {
            way.to
        },
        y: middle(row),
    }
}
