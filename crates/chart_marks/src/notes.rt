//! What is said of an event at the line of a part.
ghost use Rattle.std.specs.Prelude.{◌≡◌, ◌≤◌, ◌++◌, [], length, Some, None, OnOk};
ghost use Rattle.chart_rows.specs.Sizes.{IsColumn};
ghost use Rattle.svg_text.specs.Shapes.{shapes_text};
ghost use Rattle.chart_rows.specs.Layout as layout;
ghost use Rattle.chart_rows.specs.Words as texts;
ghost use Rattle.chart_marks.specs.Look as look;
ghost use Rattle.chart_marks.specs.Marks as spec;

use crate::arrows::is_lost;
use crate::shapes::{Tag, kind_in, put_square, put_tag};
use arrayvec::ArrayString;
use chart_rows::{
    Carried, Deed, Frame, Kind, PacketSent, Point, Replay, Row, Said, Way, arrival_words, memory_x,
    middle, other, requester_x, switch_x, way_of, write_collected, write_dllp, write_dllp_arrival,
    write_expired, write_forwarded, write_sent, write_served, write_submitted,
};
use dllp_core::Dllp;
use lane_core::{Arrival, Fate};
use link_replay::Reception;
use seq12::Seq12;
use std::alloc::AllocError;
use svg_text::{Colour, Dot, put_dot};

/// Adds a dot on a line, and a text at its right.
#[tactic(auto, unfolding(svg_text::specs::Shapes::shapes_text))]
fn put_mark(
    x: u64,
    row: u16,
    kind: Option<Kind>,
    words: &[u8],
    out: &mut Vec<u8>,
) -> Result<(), AllocError>
    requires x { IsColumn x }
    requires words { length words.now ≤ 512 }
    ensures { OnOk result (out.new.items ≡ out.old.items ++ shapes_text (look.mark x row kind words.now)) }
{
    let y = middle(row);
    put_dot(&Dot { x, y }, words, out)?;
    let tag = Tag {
        x,
        is_right: true,
        row,
        kind,
        colour: Colour::Black,
    };
    put_tag(tag, words, out)
}

/// Adds a text at the beginning of a way.
fn put_departing(
    way: Way,
    row: u16,
    kind: Option<Kind>,
    words: &[u8],
    out: &mut Vec<u8>,
) -> Result<(), AllocError>
    requires way { IsColumn way.from }
    requires words { length words.now ≤ 512 }
    ensures { OnOk result (out.new.items ≡ out.old.items ++ shapes_text (look.departing way row kind words.now)) }
{
    let tag = Tag {
        x: way.from,
        is_right: way.is_right,
        row,
        kind,
        colour: Colour::Black,
    };
    put_tag(tag, words, out)
}

/// Adds a grey square at the beginning of a way, and a text on that side.
#[tactic(auto, unfolding(svg_text::specs::Shapes::shapes_text))]
fn put_notice(way: Way, row: u16, words: &[u8], out: &mut Vec<u8>) -> Result<(), AllocError>
    requires way { IsColumn way.from }
    requires words { length words.now ≤ 512 }
    ensures { OnOk result (out.new.items ≡ out.old.items ++ shapes_text (look.notice way row words.now)) }
{
    let at = Point {
        x: way.from,
        y: middle(row),
    };
    put_square(at, Colour::Grey, words, out)?;
    put_departing(way, row, None, words, out)
}

/// Whether a text at the end of a way stands at the right: beyond the line, and before it where something was lost.
fn remark_side(way: Way, fate: Fate) -> bool
    ensures { result ≡ look.remark_side way fate }
{
    if is_lost(fate) {
        other(way.is_right)
    } else {
        way.is_right
    }
}

/// Where a text stands at the end of a way.
fn remark_tag(way: Way, row: u16, fate: Fate, colour: Colour) -> Tag
    ensures { result ≡ look.remark_tag way row fate colour }
{
    Tag {
        x: way.to,
        is_right: remark_side(way, fate),
        row,
        kind: None,
        colour,
    }
}

/// Adds a text, if there is something to say.
#[tactic(auto, unfolding(svg_text::specs::Shapes::shapes_text))]
fn put_remark(tag: Tag, words: &[u8], out: &mut Vec<u8>) -> Result<(), AllocError>
    requires x { IsColumn tag.x }
    requires words { length words.now ≤ 512 }
    ensures { OnOk result (out.new.items ≡ out.old.items ++ shapes_text (look.remark tag words.now)) }
{
    if words.is_empty() {
        return Ok(());
    }
    put_tag(tag, words, out)
}

/// What goes well is told in black.
fn remark_colour(fate: Fate) -> Colour
    ensures { result ≡ look.remark_colour fate }
{
    match fate {
        Fate::Good => Colour::Black,
        Fate::Failed | Fate::Lost => Colour::Red,
    }
}

fn put_submitted_note(
    frame: Frame,
    row: u16,
    port: u8,
    carried: Carried,
    out: &mut Vec<u8>,
) -> Result<(), AllocError>
    ensures { OnOk result (out.new.items ≡ out.old.items ++
        shapes_text (look.mark (layout.requester_x frame port) row (Some carried.kind) (texts.submitted_words carried))) }
{
    let mut text = ArrayString::new();
    write_submitted(carried, &mut text);
    let kind = Some(carried.kind);
    put_mark(requester_x(frame, port), row, kind, text.as_bytes(), out)
}

fn put_sent_note(
    way: Way,
    row: u16,
    number: Seq12,
    carried: Option<Carried>,
    out: &mut Vec<u8>,
) -> Result<(), AllocError>
    requires { IsColumn way.from }
    ensures { OnOk result (out.new.items ≡ out.old.items ++ shapes_text (look.departing way row (look.kind_in carried) (texts.sent_words number carried))) }
{
    let mut text = ArrayString::new();
    write_sent(number, carried, &mut text);
    put_departing(way, row, kind_in(carried), text.as_bytes(), out)
}

/// What is wrong with a packet is told in red.
fn arrival_colour(fate: Fate, arrival: Arrival) -> Colour
    ensures { result ≡ look.arrival_colour fate arrival }
{
    match (fate, arrival) {
        (Fate::Good, Arrival::Answered(Reception::NakNow)) => Colour::Red,
        (Fate::Good, Arrival::Answered(Reception::Quiet)) => Colour::Red,
        (Fate::Good, _) => Colour::Black,
        (Fate::Failed, _) => Colour::Red,
        (Fate::Lost, _) => Colour::Red,
    }
}

/// Whether something arrives more than twelve rows below its sending.
fn is_far(sent: Option<u16>, row: u16) -> bool
    ensures { result ≡ look.is_far sent row }
{
    match sent {
        None => false,
        Some(sent) => u32::from(sent) + 12 < u32::from(row),
    }
}

/// Writes the number of a packet that comes from far.
fn write_far(sent: Option<PacketSent>, row: u16, text: &mut ArrayString<512>)
    requires { text.old.bytes ≡ [] }
    ensures { text.new.bytes ≡ look.far_words sent row }
{
    if let Some(packet) = sent {
        if is_far(packet.row, row) {
            write_sent(packet.number, None, text);
        }
    }
}

/// Writes what is said of a packet's arrival: if nothing else is, the number of one that comes from far.
fn write_arrived(
    fate: Fate,
    arrival: Arrival,
    sent: Option<PacketSent>,
    row: u16,
    text: &mut ArrayString<512>,
)
    requires { text.old.bytes ≡ [] }
    ensures { text.new.bytes ≡ look.arrived_words fate arrival sent row }
{
    let words = arrival_words(fate, arrival);
    if words.is_empty() {
        write_far(sent, row, text);
    } else {
        text.push_str(words);
    }
}

/// Adds what is said of a packet's arrival.
fn put_arrived(
    way: Way,
    row: u16,
    end: (Fate, Arrival),
    sent: Option<PacketSent>,
    out: &mut Vec<u8>,
) -> Result<(), AllocError>
    requires { IsColumn way.to }
    ensures { OnOk result (out.new.items ≡ out.old.items ++ shapes_text (look.arrived way row end.0 end.1 sent)) }
{
    let (fate, arrival) = end;
    let mut text = ArrayString::new();
    write_arrived(fate, arrival, sent, row, &mut text);
    let tag = remark_tag(way, row, fate, arrival_colour(fate, arrival));
    put_remark(tag, text.as_bytes(), out)
}

fn put_dllp_note(way: Way, row: u16, dllp: Dllp, out: &mut Vec<u8>) -> Result<(), AllocError>
    requires { IsColumn way.from }
    ensures { OnOk result (out.new.items ≡ out.old.items ++ shapes_text (look.departing way row None (texts.dllp_words dllp))) }
{
    let mut text = ArrayString::new();
    write_dllp(dllp, &mut text);
    put_departing(way, row, None, text.as_bytes(), out)
}

fn put_dllp_arrival_note(
    way: Way,
    row: u16,
    fate: Fate,
    replay: Replay,
    out: &mut Vec<u8>,
) -> Result<(), AllocError>
    requires { IsColumn way.to }
    ensures { OnOk result (out.new.items ≡ out.old.items ++
        shapes_text (look.remark (look.remark_tag way row fate (look.remark_colour fate)) (texts.dllp_arrival_words fate replay))) }
{
    let mut text = ArrayString::new();
    write_dllp_arrival(fate, replay, &mut text);
    let tag = remark_tag(way, row, fate, remark_colour(fate));
    put_remark(tag, text.as_bytes(), out)
}

fn put_expired_note(way: Way, row: u16, replay: Replay, out: &mut Vec<u8>) -> Result<(), AllocError>
    requires { IsColumn way.from }
    ensures { OnOk result (out.new.items ≡ out.old.items ++ shapes_text (look.notice way row (texts.expired_words replay))) }
{
    let mut text = ArrayString::new();
    write_expired(replay, &mut text);
    put_notice(way, row, text.as_bytes(), out)
}

fn put_forwarded_note(
    frame: Frame,
    row: u16,
    carried: Option<Carried>,
    out: &mut Vec<u8>,
) -> Result<(), AllocError>
    ensures { OnOk result (out.new.items ≡ out.old.items ++
        shapes_text (look.mark (layout.switch_x frame) row (look.kind_in carried) (texts.forwarded_words carried))) }
{
    let mut text = ArrayString::new();
    write_forwarded(carried, &mut text);
    let kind = kind_in(carried);
    put_mark(switch_x(frame), row, kind, text.as_bytes(), out)
}

fn put_served_note(
    frame: Frame,
    row: u16,
    carried: Option<Carried>,
    index: usize,
    out: &mut Vec<u8>,
) -> Result<(), AllocError>
    ensures { OnOk result (out.new.items ≡ out.old.items ++
        shapes_text (look.mark (layout.memory_x frame) row (look.kind_in carried) (texts.served_words carried index))) }
{
    let mut text = ArrayString::new();
    write_served(carried, index, &mut text);
    let kind = kind_in(carried);
    put_mark(memory_x(frame), row, kind, text.as_bytes(), out)
}

fn put_collected_note(
    x: u64,
    row: u16,
    carried: Option<Carried>,
    said: &Said,
    out: &mut Vec<u8>,
) -> Result<(), AllocError>
    requires { IsColumn x }
    ensures { OnOk result (out.new.items ≡ out.old.items ++
        shapes_text (look.mark x row (look.kind_in carried) (texts.collected_words carried said.now))) }
{
    let mut text = ArrayString::new();
    write_collected(carried, said, &mut text);
    let kind = kind_in(carried);
    put_mark(x, row, kind, text.as_bytes(), out)
}

/// The kind whose colour stands in a row of this deed.
pub fn kind_shown(deed: Deed) -> Option<Kind>
    ensures { result ≡ spec.kind_shown deed }
{
    match deed {
        Deed::Submitted(_, carried) => Some(carried.kind),
        Deed::Sent(_, _, carried) => kind_in(carried),
        Deed::Forwarded(carried) => kind_in(carried),
        Deed::Served(carried, _) => kind_in(carried),
        Deed::Collected(_, carried) => kind_in(carried),
        _ => None,
    }
}

/// Adds the dot, the square and the text of a row.
#[tactic(auto, unfolding(svg_text::specs::Shapes::shapes_text))]
pub fn put_note(frame: Frame, row: u16, of: &Row, out: &mut Vec<u8>) -> Result<(), AllocError>
    ensures { OnOk result (out.new.items ≡ out.old.items ++ shapes_text (spec.note frame row of.now.said of.now.deed)) }
{
    match of.deed {
        Deed::Nothing | Deed::Settles => Ok(()),
        Deed::Submitted(port, carried) => put_submitted_note(frame, row, port, carried, out),
        Deed::Sent(lane, number, carried) => {
            put_sent_note(way_of(frame, lane, false), row, number, carried, out)
        }
        Deed::Arrived(lane, fate, arrival, sent) => {
            let way = way_of(frame, lane, false);
            put_arrived(way, row, (fate, arrival), sent, out)
        }
        Deed::SentDllp(lane, dllp) => { put_dllp_note(way_of(frame, lane, true), row, dllp, out) }
        Deed::ArrivedDllp(lane, fate, _, replay) => {
            put_dllp_arrival_note(way_of(frame, lane, true), row, fate, replay, out)
        }
        Deed::Expired(lane, replay) => {
            put_expired_note(way_of(frame, lane, false), row, replay, out)
        }
        Deed::Retrained(lane) => {
            put_notice(way_of(frame, lane, false), row, b"link retrained", out)
        }
        Deed::Forwarded(carried) => put_forwarded_note(frame, row, carried, out),
        Deed::Served(carried, index) => put_served_note(frame, row, carried, index, out),
        Deed::Collected(port, carried) => {
            put_collected_note(requester_x(frame, port), row, carried, &of.said, out)
        }
    }
}
