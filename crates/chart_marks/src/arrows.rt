//! Arrows.
ghost use Rattle.std.specs.Prelude.{◌≡◌, ◌≤◌, ◌+◌, ◌*◌, ◌++◌, ◌∷◌, [], OnOk};
ghost use Rattle.chart_rows.specs.Sizes.{IsAcross, IsColumn, IsDown};
ghost use Rattle.svg_text.specs.Shapes.{Shape, shape_text, shapes_text};
ghost use Rattle.chart_marks.specs.Look as look;
ghost use Rattle.chart_marks.specs.Marks as spec;

use crate::shapes::{Pen, put_square, rule};
use arrayvec::ArrayString;
use chart_rows::{
    Deed, DllpSent, Flying, Frame, Open, PacketSent, Point, Way, behind, departure, finish_of,
    start_of, thirds, way_of, write_dllp_title, write_open_title, write_packet_title,
};
use lane_core::{Arrival, Fate};
use link_replay::Reception;
use std::alloc::AllocError;
use svg_text::{Colour, Rule, put_lines};

/// An arrow that ends in a row.
#[derive(Clone, Copy)]
pub(crate) struct Arrow {
    way: Way,
    pen: Pen,
    fate: Fate,
    /// The row in which it begins, if that is shown.
    sent: Option<u16>,
    row: u16,
}

/// A pen.
pub fn pen(colour: Colour, thickness: u64, dash: u64) -> Pen
    ensures { result ≡ look.pen colour thickness dash }
{
    Pen {
        colour,
        thickness,
        dash,
    }
}

/// What the line of an arrow is.
#[derive(Clone, Copy)]
pub enum Stroke {
    /// That of a packet.
    Packet,
    /// That of a packet that has come before.
    Duplicate,
    /// That of a packet that arrives, and isn't accepted.
    NotAccepted,
    /// That of a DLLP.
    Dllp,
}

/// The line of a packet that arrived so.
fn packet_stroke(arrival: Arrival) -> Stroke
    ensures { result ≡ look.packet_stroke arrival }
{
    match arrival {
        Arrival::Answered(Reception::Accept) => Stroke::Packet,
        Arrival::Answered(Reception::Duplicate) => Stroke::Duplicate,
        Arrival::Answered(Reception::NakNow) => Stroke::NotAccepted,
        Arrival::Answered(Reception::Quiet) => Stroke::NotAccepted,
        Arrival::Gone => Stroke::Packet,
    }
}

/// What the line of the arrow is that ends in a row of this deed, if there is one.
pub fn stroke_of(deed: Deed) -> Option<Stroke>
    ensures { result ≡ spec.stroke_of deed }
{
    match deed {
        Deed::Arrived(_, _, arrival, _) => Some(packet_stroke(arrival)),
        Deed::ArrivedDllp(_, _, _, _) => Some(Stroke::Dllp),
        _ => None,
    }
}

/// How the arrow ends that ends in a row of this deed, if there is one.
pub fn end_of(deed: Deed) -> Option<Fate>
    ensures { result ≡ spec.end_of deed }
{
    match deed {
        Deed::Arrived(_, fate, _, _) => Some(fate),
        Deed::ArrivedDllp(_, fate, _, _) => Some(fate),
        _ => None,
    }
}

/// The pen of such a line.
pub fn pen_of(stroke: Stroke) -> Pen
    ensures { result ≡ look.pen_of stroke }
{
    match stroke {
        Stroke::Packet => pen(Colour::Black, 2, 0),
        Stroke::Duplicate => pen(Colour::Black, 2, 6),
        Stroke::NotAccepted => pen(Colour::Red, 2, 0),
        Stroke::Dllp => pen(Colour::Grey, 1, 0),
    }
}

/// The pen of what isn't seen to arrive.
pub fn open_pen() -> Pen
    ensures { result ≡ look.open_pen }
{
    pen(Colour::Grey, 1, 3)
}

/// The same pen without dashes.
fn whole(pen: Pen) -> Pen
    ensures { result ≡ look.whole pen }
{
    Pen { dash: 0, ..pen }
}

/// The tip of an arrow that is rather flat.
fn flat_tip(pen: Pen, is_right: bool, to: Point) -> (Rule, Rule)
    requires x { IsAcross to.x }
    requires y { IsDown to.y }
    ensures { result ≡ look.flat_tip pen is_right to }
{
    let x = behind(is_right, to.x, 9);
    let high = Point {
        x,
        y: to.y.saturating_sub(5),
    };
    let low = Point { x, y: to.y + 5 };
    (rule(pen, high, to), rule(pen, low, to))
}

/// The tip of an arrow that is neither flat nor steep.
fn slanted_tip(pen: Pen, is_right: bool, to: Point) -> (Rule, Rule)
    requires x { IsAcross to.x }
    requires y { IsDown to.y }
    ensures { result ≡ look.slanted_tip pen is_right to }
{
    let low = Point {
        x: behind(is_right, to.x, 10),
        y: to.y.saturating_sub(3),
    };
    let high = Point {
        x: behind(is_right, to.x, 3),
        y: to.y.saturating_sub(10),
    };
    (rule(pen, low, to), rule(pen, high, to))
}

/// The tip of an arrow that is rather steep.
fn steep_tip(pen: Pen, to: Point) -> (Rule, Rule)
    requires x { IsAcross to.x }
    requires y { IsDown to.y }
    ensures { result ≡ look.steep_tip pen to }
{
    let y = to.y.saturating_sub(9);
    let left = Point {
        x: to.x.saturating_sub(5),
        y,
    };
    let right = Point { x: to.x + 5, y };
    (rule(pen, left, to), rule(pen, right, to))
}

/// How far it is from one point to the other, from left to right.
fn across(from: Point, to: Point) -> u64
    requires from { IsAcross from.x }
    requires to { IsAcross to.x }
    ensures value { result ≡ look.across from to }
    ensures range { result ≤ 600000 }
{
    to.x.saturating_sub(from.x) + from.x.saturating_sub(to.x)
}

/// The tip of an arrow.
fn tip(pen: Pen, is_right: bool, from: Point, to: Point) -> (Rule, Rule)
    requires from { IsAcross from.x }
    requires x { IsAcross to.x }
    requires y { IsDown to.y }
    ensures { result ≡ look.tip pen is_right from to }
{
    let across = across(from, to);
    let down = to.y.saturating_sub(from.y);
    if 2 * down < across {
        flat_tip(pen, is_right, to)
    } else if 2 * across < down {
        steep_tip(pen, to)
    } else {
        slanted_tip(pen, is_right, to)
    }
}

/// A cross.
pub fn cross(at: Point) -> (Rule, Rule)
    requires x { IsAcross at.x }
    requires y { IsDown at.y }
    ensures { result ≡ look.cross at }
{
    let red = pen(Colour::Red, 2, 0);
    let (left, right) = (at.x.saturating_sub(6), at.x + 6);
    let (top, bottom) = (at.y.saturating_sub(6), at.y + 6);
    let falling = rule(
        red,
        Point { x: left, y: top },
        Point {
            x: right,
            y: bottom,
        },
    );
    let rising = rule(
        red,
        Point { x: left, y: bottom },
        Point { x: right, y: top },
    );
    (falling, rising)
}

/// Adds a red square where something failed its check.
fn put_failed(at: Point, out: &mut Vec<u8>) -> Result<(), AllocError>
    requires x { IsAcross at.x }
    requires y { IsDown at.y }
    ensures { OnOk result (out.new.items ≡ out.old.items ++ shape_text (look.failed at)) }
{
    put_square(at, Colour::Red, b"failed", out)
}

/// Adds a line and the two lines at its end.
#[tactic(auto, unfolding(svg_text::specs::Shapes::shapes_text))]
fn put_three(
    shaft: Rule,
    ends: (Rule, Rule),
    title: &[u8],
    out: &mut Vec<u8>,
) -> Result<(), AllocError>
    ensures { OnOk result (out.new.items ≡ out.old.items ++ shapes_text (look.three shaft ends title.now ∷ [])) }
{
    put_lines(&[shaft, ends.0, ends.1], title, out)
}

/// Adds a line that ends in a red square.
#[tactic(auto, unfolding(svg_text::specs::Shapes::shapes_text))]
fn put_failing(shaft: Rule, to: Point, title: &[u8], out: &mut Vec<u8>) -> Result<(), AllocError>
    requires x { IsAcross to.x }
    requires y { IsDown to.y }
    ensures { OnOk result (out.new.items ≡ out.old.items ++ shapes_text (Shape.Lined (shaft ∷ []) title.now ∷ look.failed to ∷ [])) }
{
    put_lines(&[shaft], title, out)?;
    put_failed(to, out)
}

pub fn is_lost(fate: Fate) -> bool
    ensures { result ≡ look.is_lost fate }
{
    match fate {
        Fate::Lost => true,
        Fate::Good | Fate::Failed => false,
    }
}

/// Adds an arrow with its title.
fn put_arrow(arrow: Arrow, title: &[u8], out: &mut Vec<u8>) -> Result<(), AllocError>
    requires from { IsColumn arrow.way.from }
    requires to { IsColumn arrow.way.to }
    ensures { OnOk result (out.new.items ≡ out.old.items ++ shapes_text (spec.arrow arrow title.now)) }
{
    let from = start_of(arrow.way, arrow.sent, arrow.row);
    let to = finish_of(arrow.way, is_lost(arrow.fate), arrow.row);
    let shaft = rule(arrow.pen, from, to);
    match arrow.fate {
        Fate::Good => {
            let ends = tip(whole(arrow.pen), arrow.way.is_right, from, to);
            put_three(shaft, ends, title, out)
        }
        Fate::Failed => put_failing(shaft, to, title, out),
        Fate::Lost => put_three(shaft, cross(to), title, out),
    }
}

/// The row in which a packet was sent, if it is shown.
fn packet_row(sent: &Option<PacketSent>) -> Option<u16>
    ensures { result ≡ spec.packet_row sent.now }
{
    match sent {
        Some(sent) => sent.row,
        None => None,
    }
}

/// The row in which a DLLP was sent, if it is shown.
fn dllp_row(sent: &Option<DllpSent>) -> Option<u16>
    ensures { result ≡ spec.dllp_row sent.now }
{
    match sent {
        Some(sent) => sent.row,
        None => None,
    }
}

/// The arrow that ends in a row, of what was sent in another one if that is shown.
fn arrow_on(way: Way, stroke: Stroke, fate: Fate, sent: Option<u16>, row: u16) -> Arrow
    ensures { result ≡ spec.arrow_on way (look.pen_of stroke) fate sent row }
{
    Arrow {
        way,
        pen: pen_of(stroke),
        fate,
        sent,
        row,
    }
}

/// Adds the arrow that ends in a row of this deed, if there is one.
#[tactic(auto, unfolding(svg_text::specs::Shapes::shapes_text))]
pub fn put_strokes(frame: Frame, row: u16, deed: Deed, out: &mut Vec<u8>) -> Result<(), AllocError>
    ensures { OnOk result (out.new.items ≡ out.old.items ++ shapes_text (spec.strokes frame row deed)) }
{
    let mut title = ArrayString::new();
    match deed {
        Deed::Arrived(lane, fate, arrival, sent) => {
            let way = way_of(frame, lane, false);
            write_packet_title(lane, sent, fate, arrival, &mut title);
            let arrow = arrow_on(way, packet_stroke(arrival), fate, packet_row(&sent), row);
            put_arrow(arrow, title.as_bytes(), out)
        }
        Deed::ArrivedDllp(lane, fate, sent, replay) => {
            let way = way_of(frame, lane, true);
            write_dllp_title(lane, sent, fate, replay, &mut title);
            let arrow = arrow_on(way, Stroke::Dllp, fate, dllp_row(&sent), row);
            put_arrow(arrow, title.as_bytes(), out)
        }
        _ => Ok(()),
    }
}

fn is_dllp(what: Flying) -> bool
    ensures { result ≡ spec.is_dllp what }
{
    match what {
        Flying::Packet(_, _) => false,
        Flying::Dllp(_) => true,
    }
}

/// Adds the first third of a way.
fn put_open_line(way: Way, row: u16, title: &[u8], out: &mut Vec<u8>) -> Result<(), AllocError>
    requires from { IsColumn way.from }
    requires to { IsColumn way.to }
    ensures { OnOk result (out.new.items ≡ out.old.items ++ shape_text (look.open_line way row title.now)) }
{
    let y = departure(row);
    let from = Point { x: way.from, y };
    let to = Point {
        x: thirds(way, 1),
        y: y + 5,
    };
    put_lines(&[rule(open_pen(), from, to)], title, out)
}

/// Adds the first third of the way of what isn't seen to arrive.
pub fn put_open(frame: Frame, of: &Open, out: &mut Vec<u8>) -> Result<(), AllocError>
    ensures { OnOk result (out.new.items ≡ out.old.items ++ shape_text (spec.open_stroke frame of.now)) }
{
    let mut title = ArrayString::new();
    write_open_title(of, &mut title);
    let way = way_of(frame, of.lane, is_dllp(of.what));
    put_open_line(way, of.row, title.as_bytes(), out)
}
