//! The lines of the log, from left to right, and the names of requesters.
ghost use Rattle.std.specs.Prelude.{◌≡◌, ◌≤◌, ◌++◌, [], None, OnOk, length};
ghost use Rattle.svg_text.specs.Shapes.{shapes_text};
ghost use Rattle.search_picture.specs.Picture as spec;

use crate::parts::{grey_line, label_at, middle_at, top_of, x_at};
use crate::scene::PictureRequest;
use arrayvec::ArrayString;
use operation_text::write_decimal;
use std::alloc::AllocError;
use svg_text::{Colour, put_label, put_lines};

/// Adds the line of the log that a column is, and a line down from it.
#[tactic(auto, unfolding(svg_text::specs::Shapes::shapes_text))]
fn put_column(column: u32, line: u64, bottom: u64, out: &mut Vec<u8>) -> Result<(), AllocError>
    ensures { OnOk result (out.new.items ≡ out.old.items ++ shapes_text (spec.column_shapes column line bottom)) }
{
    let mut text = ArrayString::new();
    write_decimal(line, &mut text);
    let x = x_at(column);
    put_label(&middle_at(x, 92, Colour::Grey), text.as_bytes(), out)?;
    put_lines(&[grey_line((x, 98), (x, bottom), 2)], text.as_bytes(), out)
}

/// Adds the columns.
pub(crate) fn put_columns(lines: &[u64], bottom: u64, out: &mut Vec<u8>) -> Result<(), AllocError>
    requires { length lines.now ≤ 40 }
    ensures { OnOk result (out.new.items ≡ out.old.items ++ shapes_text (spec.columns bottom 0 lines.now)) }
{
    let mut column = 0u32;
    for line in lines {
        put_column(column, *line, bottom, out)?;
        column += 1;
    }
    Ok(())
}

fn put_requester_words(requester: u8, text: &mut ArrayString<512>)
    requires { text.old.bytes ≡ [] }
    ensures { text.new.bytes ≡ spec.requester_words requester }
{
    text.push_str("requester ");
    write_decimal(u64::from(requester), text);
}

/// Adds the name of a requester, and a line above its rows.
#[tactic(auto, unfolding(svg_text::specs::Shapes::shapes_text))]
fn put_frame(width: u64, row: u64, requester: u8, out: &mut Vec<u8>) -> Result<(), AllocError>
    requires { row ≤ 100 }
    ensures { OnOk result (out.new.items ≡ out.old.items ++ shapes_text (spec.frame width row requester)) }
{
    let mut name = ArrayString::new();
    put_requester_words(requester, &mut name);
    let top = top_of(row);
    put_lines(
        &[grey_line((0, top), (width, top), 0)],
        name.as_bytes(),
        out,
    )?;
    put_label(&label_at(10, top + 30, Colour::Black), name.as_bytes(), out)
}

/// The row before is of the same requester.
fn is_same(before: Option<u8>, requester: u8) -> bool
    ensures { result ≡ spec.is_same before requester }
{
    match before {
        None => false,
        Some(other) => other == requester,
    }
}

/// Adds the name of a requester, if the row before has another one.
#[tactic(auto, unfolding(svg_text::specs::Shapes::shapes_text))]
fn put_frame_behind(
    width: u64,
    before: Option<u8>,
    row: u64,
    requester: u8,
    out: &mut Vec<u8>,
) -> Result<(), AllocError>
    requires { row ≤ 100 }
    ensures { OnOk result (out.new.items ≡ out.old.items ++ shapes_text (spec.frame_behind width before row requester)) }
{
    if is_same(before, requester) {
        return Ok(());
    }
    put_frame(width, row, requester, out)
}

/// Adds the names of the requesters.
pub(crate) fn put_frames(
    width: u64,
    requests: &[PictureRequest],
    out: &mut Vec<u8>,
) -> Result<(), AllocError>
    requires { length requests.now ≤ 20 }
    ensures { OnOk result (out.new.items ≡ out.old.items ++ shapes_text (spec.frames width None 0 requests.now)) }
{
    let mut before = None;
    let mut row = 0u64;
    for request in requests {
        put_frame_behind(width, before, row, request.requester, out)?;
        before = Some(request.requester);
        row += 1;
    }
    Ok(())
}
