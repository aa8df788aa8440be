//! Whole pictures.
ghost use Rattle.std.specs.Prelude.{◌≡◌, ◌≤◌, ◌+◌, ◌++◌, OnErr, OnOk, length, take};
ghost use Rattle.svg_text.specs.Shapes.{shapes_text};
ghost use Rattle.search_picture.specs.Picture as spec;

use crate::arrows::{put_arrows, put_whys};
use crate::axis::{put_columns, put_frames};
use crate::heading::put_titles;
use crate::parts::{label_at, shown, top_of, x_at};
use crate::requests::put_requests;
use crate::scene::{Arrow, Line, PictureRequest, Scene};
use crate::signs::{Marks, marks_of, put_signs};
use std::alloc::{AllocError, Global};
use svg_text::{Colour, put_label, put_page};

/// What is shown of a scene.
#[derive(Clone, Copy)]
pub(crate) struct Shown<'a> {
    pub(crate) columns: &'a [u64],
    pub(crate) requests: &'a [PictureRequest],
    pub(crate) arrows: &'a [Arrow],
    pub(crate) lines: &'a [Line],
}

/// What is shown of the scene: of requests the first 20, of arrows, too, of columns and lines the first 40.
fn shown_of(scene: &Scene) -> Shown<'_>
    ensures columns { result.columns.now ≡ spec.columns_of scene.now }
    ensures requests { result.requests.now ≡ spec.requests_of scene.now }
    ensures arrows { result.arrows.now ≡ spec.arrows_of scene.now }
    ensures lines { result.lines.now ≡ spec.lines_of scene.now }
    ensures wide { length result.columns.now ≤ 40 }
    ensures few { length result.requests.now ≤ 20 }
    ensures short { length result.lines.now ≤ 40 }
{
    Shown {
        columns: shown(40, scene.columns.as_slice()),
        requests: shown(20, scene.requests.as_slice()),
        arrows: shown(20, scene.arrows.as_slice()),
        lines: shown(40, scene.lines.as_slice()),
    }
}

/// How wide the rows are of a picture of these columns.
fn width_of(columns: &[u64]) -> u64
    requires { length columns.now ≤ 40 }
    ensures { result ≡ spec.width_of columns.now }
{
    (x_at(columns.len() as u32) + 400).max(840)
}

/// How wide the page is: as wide as the signs, at least.
fn page_width(columns: &[u64], marks: &Marks, places: &[u8]) -> u64
    requires { length columns.now ≤ 40 }
    ensures { result ≡ spec.page_width columns.now marks.now (length (take 80 places.now)) }
{
    let count = shown(80, places).len() as u64;
    width_of(columns).max(marks.end(count))
}

/// Where the rows of requests end.
fn bottom_of(requests: &[PictureRequest]) -> u64
    requires { length requests.now ≤ 20 }
    ensures bottom { result ≡ spec.bottom_of requests.now }
    ensures range { result ≤ 6500 }
{
    top_of(requests.len() as u64)
}

/// Adds a line below the rows.
#[tactic(auto, unfolding(svg_text::specs::Shapes::shapes_text))]
fn put_line(y: u64, line: &Line, out: &mut Vec<u8>) -> Result<(), AllocError>
    ensures { OnOk result (out.new.items ≡ out.old.items ++ shapes_text (spec.line_shapes y line.now)) }
{
    let text = shown(110, line.text.as_slice());
    put_label(&label_at(10, y, Colour::Black), text, out)
}

/// Adds the lines below the rows.
fn put_told(bottom: u64, lines: &[Line], out: &mut Vec<u8>) -> Result<(), AllocError>
    requires bottom { bottom ≤ 6500 }
    requires lines { length lines.now ≤ 40 }
    ensures { OnOk result (out.new.items ≡ out.old.items ++ shapes_text (spec.told (bottom + 24) lines.now)) }
{
    let mut y = bottom + 24;
    for line in lines {
        put_line(y, line, out)?;
        y += 16;
    }
    Ok(())
}

/// Adds what lies below the bars.
fn put_ground(what: &Shown<'_>, out: &mut Vec<u8>) -> Result<(), AllocError>
    requires wide { length what.now.columns.now ≤ 40 }
    requires few { length what.now.requests.now ≤ 20 }
    ensures { OnOk result (out.new.items ≡ out.old.items ++ shapes_text (spec.ground what.now.columns.now what.now.requests.now what.now.arrows.now)) }
{
    put_columns(what.columns, bottom_of(what.requests), out)?;
    put_frames(width_of(what.columns), what.requests, out)?;
    put_arrows(what.requests, what.arrows, out)?;
    Ok(())
}

/// Adds the bars, and what stands beside and below them.
fn put_bars(what: &Shown<'_>, out: &mut Vec<u8>) -> Result<(), AllocError>
    requires few { length what.now.requests.now ≤ 20 }
    requires short { length what.now.lines.now ≤ 40 }
    ensures { OnOk result (out.new.items ≡ out.old.items ++ shapes_text (spec.bars what.now.requests.now what.now.arrows.now what.now.lines.now)) }
{
    put_requests(what.requests, out)?;
    put_whys(what.requests, what.arrows, out)?;
    put_told(bottom_of(what.requests), what.lines, out)?;
    Ok(())
}

/// Adds all shapes.
fn put_shapes(
    scene: &Scene,
    what: &Shown<'_>,
    marks: &Marks,
    out: &mut Vec<u8>,
) -> Result<(), AllocError>
    requires wide { length what.now.columns.now ≤ 40 }
    requires few { length what.now.requests.now ≤ 20 }
    requires short { length what.now.lines.now ≤ 40 }
    requires marks { marks.now ≡ spec.marks_of what.now.requests.now what.now.arrows.now }
    ensures { OnOk result (out.new.items ≡ out.old.items
        ++ shapes_text (spec.shapes_of scene.now.title.items scene.now.note.items scene.now.places.items what.now.columns.now what.now.requests.now
        what.now.arrows.now what.now.lines.now)) }
{
    put_titles(scene.title.as_slice(), scene.note.as_slice(), out)?;
    put_signs(marks, scene.places.as_slice(), out)?;
    put_ground(what, out)?;
    put_bars(what, out)?;
    Ok(())
}

/// How high the picture is.
fn height_of(requests: &[PictureRequest], lines: &[Line]) -> u64
    requires few { length requests.now ≤ 20 }
    requires short { length lines.now ≤ 40 }
    ensures { result ≡ spec.height_of requests.now lines.now }
{
    bottom_of(requests) + 16 * lines.len() as u64 + 30
}

/// Adds the picture of a scene in SVG. After an `Err`, which is out of memory, nothing is added.
pub fn put_scene(alloc: Global, scene: &Scene, out: &mut Vec<u8>) -> Result<(), AllocError>
    ensures ok { OnOk result (out.new.items ≡ out.old.items ++ spec.scene_text scene.now) }
    ensures err { OnErr result (out.new.items ≡ out.old.items) }
{
    let what = shown_of(scene);
    let marks = marks_of(what.requests, what.arrows);
    let mut shapes = Vec::new(alloc);
    put_shapes(scene, &what, &marks, &mut shapes)?;
    let width = page_width(what.columns, &marks, scene.places.as_slice());
    let height = height_of(what.requests, what.lines);
    put_page(alloc, width, height, shapes, out)?;
    Ok(())
}
