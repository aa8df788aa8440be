//! The bars of requests.
ghost use Rattle.std.specs.Prelude.{◌≡◌, ◌≤◌, ◌++◌, OnOk, length};
ghost use Rattle.svg_text.specs.Shapes.{shapes_text};
ghost use Rattle.search_picture.specs.Picture as spec;

use crate::parts::{backing, label_at, middle_at, shown, top_of, x_at};
use crate::scene::{PictureRequest, Role};
use arrayvec::ArrayString;
use operation_text::write_decimal;
use std::alloc::AllocError;
use svg_text::{Block, Colour, put_block, put_label};

pub(crate) fn fill_of(role: Role) -> Colour
    ensures { result ≡ spec.fill_of role }
{
    match role {
        Role::Against => Colour::SkyBlue,
        Role::Named => Colour::Yellow,
        Role::Last | Role::Other => Colour::White,
    }
}

pub(crate) fn edge_of(role: Role) -> Colour
    ensures { result ≡ spec.edge_of role }
{
    match role {
        Role::Last => Colour::Red,
        Role::Against | Role::Named | Role::Other => Colour::Black,
    }
}

pub(crate) fn thickness_of(role: Role) -> u64
    ensures { result ≡ spec.thickness_of role }
{
    match role {
        Role::Last => 3,
        Role::Against | Role::Named | Role::Other => 1,
    }
}

/// The block of a bar in the row that begins so many pixels from the top.
fn bar_block(top: u64, request: &PictureRequest) -> Block
    requires { top ≤ 6500 }
    ensures { result ≡ spec.bar_block top request.now }
{
    Block {
        left: x_at(request.from) + 1,
        top: top + 16,
        right: x_at(request.to).saturating_sub(1),
        bottom: top + 52,
        fill: fill_of(request.role),
        edge: edge_of(request.role),
        thickness: thickness_of(request.role),
        is_open: request.is_open,
    }
}

/// How many characters the longer one of a request's texts has, as far as it is shown.
fn count_of(request: &PictureRequest) -> usize
    ensures count { result ≡ spec.count_of request.now }
    ensures range { result ≤ 48 }
{
    let asked = shown(48, request.asked.as_slice());
    let answered = shown(48, request.answered.as_slice());
    asked.len().max(answered.len())
}

/// Where the texts of a bar stand: in it, if there is room for them, and else to its right.
fn text_x(request: &PictureRequest) -> u64
    ensures at { result ≡ spec.text_x request.now }
    ensures range { result ≤ 500000000000 }
{
    let (left, right) = (x_at(request.from), x_at(request.to));
    if left + 36 + 8 * count_of(request) as u64 <= right {
        left + 32
    } else {
        right + 8
    }
}

/// Adds a bar, above white where its texts stand.
#[tactic(auto, unfolding(svg_text::specs::Shapes::shapes_text))]
fn put_bar(top: u64, request: &PictureRequest, out: &mut Vec<u8>) -> Result<(), AllocError>
    requires { top ≤ 6500 }
    ensures { OnOk result (out.new.items ≡ out.old.items ++ shapes_text (spec.bar_shapes top request.now)) }
{
    let white = backing(text_x(request), top + 16, top + 52, count_of(request));
    put_block(&white, b"", out)?;
    put_block(&bar_block(top, request), request.title.as_slice(), out)
}

/// Adds what was asked and answered.
#[tactic(auto, unfolding(svg_text::specs::Shapes::shapes_text))]
fn put_texts(top: u64, request: &PictureRequest, out: &mut Vec<u8>) -> Result<(), AllocError>
    requires { top ≤ 6500 }
    ensures { OnOk result (out.new.items ≡ out.old.items ++ shapes_text (spec.text_shapes top request.now)) }
{
    let x = text_x(request);
    let asked = shown(48, request.asked.as_slice());
    put_label(&label_at(x, top + 31, Colour::Black), asked, out)?;
    let answered = shown(48, request.answered.as_slice());
    put_label(&label_at(x, top + 46, edge_of(request.role)), answered, out)
}

/// The block behind a place in the history.
fn place_block(x: u64, top: u64) -> Block
    requires x { x ≤ 400000000000 }
    requires top { top ≤ 6500 }
    ensures { result ≡ spec.place_block x top }
{
    Block {
        left: x + 5,
        top: top + 22,
        right: x + 27,
        bottom: top + 46,
        fill: Colour::White,
        edge: Colour::Black,
        thickness: 1,
        is_open: false,
    }
}

/// Adds a place in the history, if there is one.
#[tactic(auto, unfolding(svg_text::specs::Shapes::shapes_text))]
fn put_place(place: Option<u32>, x: u64, top: u64, out: &mut Vec<u8>) -> Result<(), AllocError>
    requires x { x ≤ 400000000000 }
    requires top { top ≤ 6500 }
    ensures { OnOk result (out.new.items ≡ out.old.items ++ shapes_text (spec.place_shapes place x top)) }
{
    let Some(place) = place else {
        return Ok(());
    };
    let mut text = ArrayString::new();
    write_decimal(u64::from(place), &mut text);
    put_block(&place_block(x, top), text.as_bytes(), out)?;
    put_label(
        &middle_at(x + 16, top + 38, Colour::Black),
        text.as_bytes(),
        out,
    )
}

/// Adds a request.
fn put_request(row: u64, request: &PictureRequest, out: &mut Vec<u8>) -> Result<(), AllocError>
    requires { row ≤ 100 }
    ensures { OnOk result (out.new.items ≡ out.old.items ++ shapes_text (spec.request_shapes row request.now)) }
{
    let top = top_of(row);
    put_bar(top, request, out)?;
    put_texts(top, request, out)?;
    put_place(request.place, x_at(request.from), top, out)?;
    Ok(())
}

/// Adds requests, each in a row.
pub(crate) fn put_requests(requests: &[PictureRequest], out: &mut Vec<u8>) -> Result<(), AllocError>
    requires { length requests.now ≤ 20 }
    ensures { OnOk result (out.new.items ≡ out.old.items ++ shapes_text (spec.rows 0 requests.now)) }
{
    let mut row = 0u64;
    for request in requests {
        put_request(row, request, out)?;
        row += 1;
    }
    Ok(())
}
