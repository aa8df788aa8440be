//! Arrows from requests to those that act after them.
ghost use Rattle.std.specs.Prelude.{◌≡◌, ◌≤◌, ◌<◌, ◌++◌, OnOk, length};
ghost use Rattle.svg_text.specs.Shapes.{shapes_text};
ghost use Rattle.search_picture.specs.Picture as spec;

use crate::parts::{backing, label_at, shown, top_of, x_at};
use crate::scene::{Arrow, PictureRequest};
use std::alloc::AllocError;
use svg_text::{Colour, Rule, put_block, put_label, put_lines};

/// A red line.
fn leg(from: (u64, u64), to: (u64, u64)) -> Rule
    ensures { result ≡ spec.leg from to }
{
    Rule {
        left: from.0,
        top: from.1,
        right: to.0,
        bottom: to.1,
        colour: Colour::Red,
        thickness: 2,
        dash: 0,
    }
}

/// A bar that an arrow begins or ends at: its left edge, and where its row begins.
#[derive(Clone, Copy)]
pub(crate) struct End {
    pub(crate) x: u64,
    pub(crate) top: u64,
}

/// Adds an arrow down, from a row to one below it. It goes across just above that row, where no text stands.
#[tactic(auto, unfolding(svg_text::specs::Shapes::shapes_text))]
fn put_down(from: End, to: End, why: &[u8], out: &mut Vec<u8>) -> Result<(), AllocError>
    requires from { (from.x ≤ 400000000000) }
    requires to { (to.x ≤ 400000000000) }
    requires above { from.top ≤ 6500 }
    requires below { to.top ≤ 6500 }
    requires least { 100 ≤ to.top }
    ensures { OnOk result (out.new.items ≡ out.old.items ++ shapes_text (spec.down from to why.now)) }
{
    let (x, y) = (from.x + 20, from.top + 52);
    let (tip, end) = (to.x + 8, to.top + 16);
    let lane = to.top - 7;
    let legs = [
        leg((x, y), (x, lane)),
        leg((x, lane), (tip, lane)),
        leg((tip, lane), (tip, end)),
        leg((tip - 4, end - 8), (tip, end)),
        leg((tip + 4, end - 8), (tip, end)),
    ];
    put_lines(&legs, why, out)
}

/// Adds an arrow up, from a row to one above it. It goes across just above the first row.
#[tactic(auto, unfolding(svg_text::specs::Shapes::shapes_text))]
fn put_up(from: End, to: End, why: &[u8], out: &mut Vec<u8>) -> Result<(), AllocError>
    requires from { (from.x ≤ 400000000000) }
    requires to { (to.x ≤ 400000000000) }
    requires below { from.top ≤ 6500 }
    requires above { to.top ≤ 6500 }
    requires least { 100 ≤ from.top }
    ensures { OnOk result (out.new.items ≡ out.old.items ++ shapes_text (spec.up from to why.now)) }
{
    let (x, y) = (from.x + 20, from.top + 16);
    let (tip, end) = (to.x + 8, to.top + 52);
    let lane = from.top - 2;
    let legs = [
        leg((x, y), (x, lane)),
        leg((x, lane), (tip, lane)),
        leg((tip, lane), (tip, end)),
        leg((tip - 4, end + 8), (tip, end)),
        leg((tip + 4, end + 8), (tip, end)),
    ];
    put_lines(&legs, why, out)
}

/// The end of an arrow at the request of a row.
fn end_at(row: usize, request: &PictureRequest) -> End
    requires { row < 20 }
    ensures end { result ≡ spec.end_at row request.now }
    ensures x { result.x ≤ 400000000000 }
    ensures top { result.top ≤ 6500 }
    ensures least { 100 ≤ result.top }
{
    End {
        x: x_at(request.from),
        top: top_of(row as u64),
    }
}

/// Adds an arrow, if both of its requests are shown.
#[tactic(auto, unfolding(svg_text::specs::Shapes::shapes_text))]
fn put_arrow(
    requests: &[PictureRequest],
    arrow: &Arrow,
    out: &mut Vec<u8>,
) -> Result<(), AllocError>
    requires { length requests.now ≤ 20 }
    ensures { OnOk result (out.new.items ≡ out.old.items ++ shapes_text (spec.arrow_shapes requests.now arrow.now)) }
{
    match (requests.get(arrow.from), requests.get(arrow.to)) {
        (Some(first), Some(second)) => {
            let (from, to) = (end_at(arrow.from, first), end_at(arrow.to, second));
            if arrow.from < arrow.to {
                put_down(from, to, arrow.why.as_slice(), out)
            } else {
                put_up(from, to, arrow.why.as_slice(), out)
            }
        }
        _ => Ok(()),
    }
}

/// Adds arrows.
pub(crate) fn put_arrows(
    requests: &[PictureRequest],
    arrows: &[Arrow],
    out: &mut Vec<u8>,
) -> Result<(), AllocError>
    requires { length requests.now ≤ 20 }
    ensures { OnOk result (out.new.items ≡ out.old.items ++ shapes_text (spec.arrows requests.now arrows.now)) }
{
    for arrow in arrows {
        put_arrow(requests, arrow, out)?;
    }
    Ok(())
}

/// Adds why an arrow is there, above the bar that it leads to, if that is shown.
#[tactic(auto, unfolding(svg_text::specs::Shapes::shapes_text))]
fn put_why(requests: &[PictureRequest], arrow: &Arrow, out: &mut Vec<u8>) -> Result<(), AllocError>
    requires { length requests.now ≤ 20 }
    ensures { OnOk result (out.new.items ≡ out.old.items ++ shapes_text (spec.why_shapes requests.now arrow.now)) }
{
    let Some(request) = requests.get(arrow.to) else {
        return Ok(());
    };
    let End { x, top } = end_at(arrow.to, request);
    let why = shown(44, arrow.why.as_slice());
    put_block(&backing(x + 30, top + 1, top + 15, why.len()), b"", out)?;
    put_label(&label_at(x + 30, top + 12, Colour::Red), why, out)
}

/// Adds why arrows are there.
pub(crate) fn put_whys(
    requests: &[PictureRequest],
    arrows: &[Arrow],
    out: &mut Vec<u8>,
) -> Result<(), AllocError>
    requires { length requests.now ≤ 20 }
    ensures { OnOk result (out.new.items ≡ out.old.items ++ shapes_text (spec.whys requests.now arrows.now)) }
{
    for arrow in arrows {
        put_why(requests, arrow, out)?;
    }
    Ok(())
}
