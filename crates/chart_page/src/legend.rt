//! The legend: what the colours, the lines and the ends of the arrows that are shown mean.
ghost use Rattle.std.specs.Prelude.{◌≡◌, ◌≤◌, ◌+◌, ◌*◌, ◌++◌, length, IfOk, OnOk};
ghost use Rattle.svg_text.specs.Shapes.{shape_text, shapes_text};
ghost use Rattle.chart_page.specs.Legend as look;

use chart_marks::{
    Pen, Stroke, cross, end_of, kind_colour, kind_shown, label_at, open_pen, pen_of, put_square,
    rule, stroke_of,
};
use chart_rows::{Deed, Kind, Open, Point, Row, kind_name, text_width};
use lane_core::Fate;
use std::alloc::AllocError;
use svg_text::{Colour, put_label, put_lines};

/// What an entry of the legend is for.
#[derive(Clone, Copy)]
pub(crate) enum Sign {
    /// The colour of a kind of operations.
    Kind(Kind),
    /// The line of an arrow.
    Stroke(Stroke),
    /// The line of what isn't seen to arrive.
    Open,
    /// The end of an arrow of what was lost.
    Lost,
    /// The end of an arrow of what failed its check.
    Failed,
}

/// The signs, in the order of the entries.
const SIGNS: [Sign; 12] = [
    Sign::Kind(Kind::Read),
    Sign::Kind(Kind::Write),
    Sign::Kind(Kind::Add),
    Sign::Kind(Kind::Swap),
    Sign::Kind(Kind::Cas),
    Sign::Stroke(Stroke::Packet),
    Sign::Stroke(Stroke::Duplicate),
    Sign::Stroke(Stroke::NotAccepted),
    Sign::Stroke(Stroke::Dllp),
    Sign::Open,
    Sign::Lost,
    Sign::Failed,
];

/// Whether it is this kind.
fn is_kind(one: Kind, other: Option<Kind>) -> bool
    ensures { result ≡ look.is_kind one other }
{
    match (one, other) {
        (Kind::Read, Some(Kind::Read)) => true,
        (Kind::Write, Some(Kind::Write)) => true,
        (Kind::Add, Some(Kind::Add)) => true,
        (Kind::Swap, Some(Kind::Swap)) => true,
        (Kind::Cas, Some(Kind::Cas)) => true,
        _ => false,
    }
}

/// Whether it is this line.
fn is_stroke(one: Stroke, other: Option<Stroke>) -> bool
    ensures { result ≡ look.is_stroke one other }
{
    match (one, other) {
        (Stroke::Packet, Some(Stroke::Packet)) => true,
        (Stroke::Duplicate, Some(Stroke::Duplicate)) => true,
        (Stroke::NotAccepted, Some(Stroke::NotAccepted)) => true,
        (Stroke::Dllp, Some(Stroke::Dllp)) => true,
        _ => false,
    }
}

/// Whether it was lost.
fn is_lost(end: Option<Fate>) -> bool
    ensures { result ≡ look.is_lost end }
{
    match end {
        Some(Fate::Lost) => true,
        _ => false,
    }
}

/// Whether it failed its check.
fn is_failed(end: Option<Fate>) -> bool
    ensures { result ≡ look.is_failed end }
{
    match end {
        Some(Fate::Failed) => true,
        _ => false,
    }
}

/// Whether a row of this deed shows what the entry is for.
fn shows(sign: Sign, deed: Deed) -> bool
    ensures { result ≡ look.shows sign deed }
{
    match sign {
        Sign::Kind(kind) => is_kind(kind, kind_shown(deed)),
        Sign::Stroke(stroke) => is_stroke(stroke, stroke_of(deed)),
        Sign::Open => false,
        Sign::Lost => is_lost(end_of(deed)),
        Sign::Failed => is_failed(end_of(deed)),
    }
}

/// Whether one of the rows shows it.
fn is_in_rows(sign: Sign, rows: &[Row]) -> bool
    ensures { result ≡ look.is_in_rows sign rows.now }
{
    match rows {
        [] => false,
        [first, rest @ ..] => shows(sign, first.deed) || is_in_rows(sign, rest),
    }
}

/// Whether it is the sign of what isn't seen to arrive, of which there is something.
fn is_open(sign: Sign, opens: &[Open]) -> bool
    ensures { result ≡ look.is_open sign opens.now }
{
    match sign {
        Sign::Open => !opens.is_empty(),
        _ => false,
    }
}

/// Whether the page shows what the entry is for.
fn is_there(sign: Sign, rows: &[Row], opens: &[Open]) -> bool
    ensures { result ≡ look.is_there sign rows.now opens.now }
{
    is_open(sign, opens) || is_in_rows(sign, rows)
}

/// What an entry says.
fn name_of(sign: Sign) -> &'static str
    ensures name { result.now ≡ look.name_of sign }
    ensures length { length result.now ≤ 20 }
{
    match sign {
        Sign::Kind(kind) => kind_name(kind),
        Sign::Stroke(Stroke::Packet) => "packet",
        Sign::Stroke(Stroke::Duplicate) => "duplicate",
        Sign::Stroke(Stroke::NotAccepted) => "not accepted",
        Sign::Stroke(Stroke::Dllp) => "DLLP",
        Sign::Open => "not seen to arrive",
        Sign::Lost => "lost",
        Sign::Failed => "failed its check",
    }
}

/// How far right of its beginning an entry has its name.
fn name_left(sign: Sign) -> u64
    ensures value { result ≡ look.name_left sign }
    ensures range { result ≤ 36 }
{
    match sign {
        Sign::Kind(_) | Sign::Lost | Sign::Failed => 16,
        Sign::Stroke(_) | Sign::Open => 36,
    }
}

/// How wide an entry is.
fn width_of(sign: Sign) -> u64
    ensures value { result ≡ look.width_of sign }
    ensures range { result ≤ 201 }
{
    name_left(sign) + text_width(name_of(sign).len()) + 20
}

/// Adds the colour of a kind of operations.
fn put_colour(x: u64, kind: Kind, out: &mut Vec<u8>) -> Result<(), AllocError>
    requires { x ≤ 9000 }
    ensures { OnOk result (out.new.items ≡ out.old.items ++ shape_text (look.colour x kind)) }
{
    let at = Point { x: x + 5, y: 36 };
    put_square(at, kind_colour(kind), kind_name(kind).as_bytes(), out)
}

/// Adds a line.
fn put_line(x: u64, pen: Pen, name: &str, out: &mut Vec<u8>) -> Result<(), AllocError>
    requires { x ≤ 9000 }
    ensures { OnOk result (out.new.items ≡ out.old.items ++ shape_text (look.line x pen name.now)) }
{
    let line = rule(pen, Point { x, y: 36 }, Point { x: x + 30, y: 36 });
    put_lines(&[line], name.as_bytes(), out)
}

/// Adds a cross.
fn put_cross(x: u64, out: &mut Vec<u8>) -> Result<(), AllocError>
    requires { x ≤ 9000 }
    ensures { OnOk result (out.new.items ≡ out.old.items ++ shape_text (look.lost x)) }
{
    let lines = cross(Point { x: x + 6, y: 36 });
    put_lines(&[lines.0, lines.1], b"lost", out)
}

/// Adds what an entry is for.
fn put_shape(x: u64, sign: Sign, out: &mut Vec<u8>) -> Result<(), AllocError>
    requires { x ≤ 9000 }
    ensures { OnOk result (out.new.items ≡ out.old.items ++ shape_text (look.shape x sign)) }
{
    match sign {
        Sign::Kind(kind) => put_colour(x, kind, out),
        Sign::Stroke(stroke) => put_line(x, pen_of(stroke), name_of(sign), out),
        Sign::Open => put_line(x, open_pen(), name_of(sign), out),
        Sign::Lost => put_cross(x, out),
        Sign::Failed => put_square(Point { x: x + 5, y: 36 }, Colour::Red, b"failed", out),
    }
}

/// Adds an entry.
#[tactic(auto, unfolding(svg_text::specs::Shapes::shapes_text))]
fn put_sign(x: u64, sign: Sign, out: &mut Vec<u8>) -> Result<(), AllocError>
    requires { x ≤ 9000 }
    ensures { OnOk result (out.new.items ≡ out.old.items ++ shapes_text (look.entry x sign)) }
{
    put_shape(x, sign, out)?;
    let label = label_at(x + name_left(sign), 40, Colour::Black);
    put_label(&label, name_of(sign).as_bytes(), out)
}

/// Adds an entry, if the page shows what it is for. Gives where the next one begins.
#[tactic(auto, unfolding(svg_text::specs::Shapes::shapes_text))]
fn put_if_there(
    x: u64,
    sign: Sign,
    rows: &[Row],
    opens: &[Open],
    out: &mut Vec<u8>,
) -> Result<u64, AllocError>
    requires { x ≤ 9000 }
    ensures shapes { OnOk result (out.new.items ≡ out.old.items ++ shapes_text (look.entry_if x sign rows.now opens.now)) }
    ensures next { IfOk result (λ next. next ≡ look.next_to x sign rows.now opens.now) }
    ensures range { IfOk result (λ next. next ≤ x + 300) }
{
    if !is_there(sign, rows, opens) {
        return Ok(x);
    }
    put_sign(x, sign, out)?;
    Ok(x + width_of(sign))
}

/// Adds these entries, each of them if the page shows what it is for. Gives where they end.
#[tactic(auto, unfolding(svg_text::specs::Shapes::shapes_text))]
fn put_signs(
    x: u64,
    signs: &[Sign],
    rows: &[Row],
    opens: &[Open],
    out: &mut Vec<u8>,
) -> Result<u64, AllocError>
    requires { x + 300 * length signs.now ≤ 9000 }
    ensures shapes { OnOk result (out.new.items ≡ out.old.items ++ shapes_text (look.entries x signs.now rows.now opens.now)) }
    ensures end { IfOk result (λ end. end ≡ look.end_of x signs.now rows.now opens.now) }
{
    match signs {
        [] => Ok(x),
        [first, rest @ ..] => {
            let next = put_if_there(x, *first, rows, opens, out)?;
            put_signs(next, rest, rows, opens, out)
        }
    }
}

/// Adds the legend. Gives where it ends.
pub(crate) fn put_legend(rows: &[Row], opens: &[Open], out: &mut Vec<u8>) -> Result<u64, AllocError>
    ensures shapes { OnOk result (out.new.items ≡ out.old.items ++ shapes_text (look.legend rows.now opens.now)) }
    ensures end { IfOk result (λ end. end ≡ look.legend_end rows.now opens.now) }
{
    put_signs(10, &SIGNS, rows, opens, out)
}
