//! What stands above the rows, and again between them: the line, and the parts with their names.
ghost use Rattle.std.specs.Prelude.{◌≡◌, ◌<◌, ◌≤◌, ◌+◌, ◌*◌, ◌++◌, codes, OnOk};
ghost use Rattle.chart_rows.specs.Sizes.{IsColumn, IsRowTop};
ghost use Rattle.svg_text.specs.Shapes.{shapes_text};
ghost use Rattle.chart_rows.specs.Layout as layout;
ghost use Rattle.chart_page.specs.Look as look;

use arrayvec::ArrayString;
use chart_marks::{pen, rule};
use chart_rows::{Frame, Parts, Point, memory_x, requester_x, switch_x, top_of, write_requester};
use std::alloc::AllocError;
use svg_text::{Block, Colour, Label, put_block, put_label, put_lines};

/// Where the first line stands, in red where it tells a fault or a refusal.
pub(crate) fn title_label(is_red: bool) -> Label
    ensures { result ≡ look.title_label is_red }
{
    Label {
        x: 10,
        y: 22,
        size: 16,
        colour: if is_red { Colour::Red } else { Colour::Black },
        is_centred: false,
    }
}

/// Adds the line of a part and its name.
#[tactic(auto, unfolding(svg_text::specs::Shapes::shapes_text))]
fn put_column(x: u64, bottom: u64, name: &[u8], out: &mut Vec<u8>) -> Result<(), AllocError>
    ensures { OnOk result (out.new.items ≡ out.old.items ++ shapes_text (look.column x bottom name.now)) }
{
    let label = Label {
        x,
        y: 87,
        size: 12,
        colour: Colour::Black,
        is_centred: true,
    };
    put_label(&label, name, out)?;
    let top = Point { x, y: 92 };
    let line = rule(pen(Colour::Grey, 1, 0), top, Point { x, y: bottom });
    put_lines(&[line], name, out)
}

/// Adds the line of the requester at a port.
fn put_requester_column(
    frame: Frame,
    port: u8,
    bottom: u64,
    out: &mut Vec<u8>,
) -> Result<(), AllocError>
    ensures { OnOk result (out.new.items ≡ out.old.items ++ shapes_text (look.requester_column frame port bottom)) }
{
    let mut name = ArrayString::new();
    write_requester(port, &mut name);
    put_column(requester_x(frame, port), bottom, name.as_bytes(), out)
}

/// Adds the line of the switch.
fn put_switch_column(frame: Frame, bottom: u64, out: &mut Vec<u8>) -> Result<(), AllocError>
    ensures { OnOk result (out.new.items ≡ out.old.items ++ shapes_text (look.switch_column frame bottom)) }
{
    put_column(switch_x(frame), bottom, b"switch", out)
}

/// Adds the line of the memory.
fn put_memory_column(frame: Frame, bottom: u64, out: &mut Vec<u8>) -> Result<(), AllocError>
    ensures { OnOk result (out.new.items ≡ out.old.items ++ shapes_text (look.memory_column frame bottom)) }
{
    put_column(memory_x(frame), bottom, b"memory", out)
}

/// Adds the lines of the requesters.
fn put_requester_columns(
    frame: Frame,
    requesters: u8,
    bottom: u64,
    out: &mut Vec<u8>,
) -> Result<(), AllocError>
    ensures { OnOk result (out.new.items ≡ out.old.items ++ shapes_text (look.requester_columns frame requesters bottom)) }
{
    for place in 0..requesters {
        put_requester_column(frame, place + 1, bottom, out)?;
    }
    Ok(())
}

/// Adds the lines of the requesters that have one.
#[tactic(auto, unfolding(svg_text::specs::Shapes::shapes_text))]
fn put_left_columns(frame: Frame, bottom: u64, out: &mut Vec<u8>) -> Result<(), AllocError>
    ensures { OnOk result (out.new.items ≡ out.old.items ++ shapes_text (look.left_columns frame bottom)) }
{
    match frame.parts {
        Parts::All(requesters) => put_requester_columns(frame, requesters, bottom, out),
        Parts::Requester(port) => put_requester_column(frame, port, bottom, out),
        Parts::Memory => Ok(()),
    }
}

/// Adds the line of the memory, if it has one.
#[tactic(auto, unfolding(svg_text::specs::Shapes::shapes_text))]
fn put_right_column(frame: Frame, bottom: u64, out: &mut Vec<u8>) -> Result<(), AllocError>
    ensures { OnOk result (out.new.items ≡ out.old.items ++ shapes_text (look.right_column frame bottom)) }
{
    match frame.parts {
        Parts::All(_) | Parts::Memory => put_memory_column(frame, bottom, out),
        Parts::Requester(_) => Ok(()),
    }
}

/// Adds the lines of the parts.
pub(crate) fn put_columns(frame: Frame, bottom: u64, out: &mut Vec<u8>) -> Result<(), AllocError>
    ensures { OnOk result (out.new.items ≡ out.old.items ++ shapes_text (look.columns frame bottom)) }
{
    put_left_columns(frame, bottom, out)?;
    put_switch_column(frame, bottom, out)?;
    put_right_column(frame, bottom, out)?;
    Ok(())
}

/// Adds a name, on white, in the stripe that ends at y.
#[tactic(auto, unfolding(svg_text::specs::Shapes::shapes_text))]
fn put_name(x: u64, y: u64, words: &[u8], out: &mut Vec<u8>) -> Result<(), AllocError>
    requires x { IsColumn x }
    requires y { IsRowTop y }
    ensures { OnOk result (out.new.items ≡ out.old.items ++ shapes_text (look.name x y words.now)) }
{
    let block = Block {
        left: x.saturating_sub(44),
        top: y.saturating_sub(19),
        right: x + 44,
        bottom: y.saturating_sub(2),
        fill: Colour::White,
        edge: Colour::White,
        thickness: 0,
        is_open: false,
    };
    put_block(&block, words, out)?;
    let label = Label {
        x,
        y: y.saturating_sub(6),
        size: 12,
        colour: Colour::Grey,
        is_centred: true,
    };
    put_label(&label, words, out)
}

/// Adds the name of the requester at a port.
fn put_requester_name(frame: Frame, port: u8, y: u64, out: &mut Vec<u8>) -> Result<(), AllocError>
    requires { IsRowTop y }
    ensures { OnOk result (out.new.items ≡ out.old.items ++ shapes_text (look.requester_name frame port y)) }
{
    let mut name = ArrayString::new();
    write_requester(port, &mut name);
    put_name(requester_x(frame, port), y, name.as_bytes(), out)
}

/// Adds the names of the requesters.
fn put_requester_names(
    frame: Frame,
    requesters: u8,
    y: u64,
    out: &mut Vec<u8>,
) -> Result<(), AllocError>
    requires { IsRowTop y }
    ensures { OnOk result (out.new.items ≡ out.old.items ++ shapes_text (look.requester_names frame requesters y)) }
{
    for place in 0..requesters {
        put_requester_name(frame, place + 1, y, out)?;
    }
    Ok(())
}

/// Adds the names of the requesters that have a line.
#[tactic(auto, unfolding(svg_text::specs::Shapes::shapes_text))]
fn put_left_names(frame: Frame, y: u64, out: &mut Vec<u8>) -> Result<(), AllocError>
    requires { IsRowTop y }
    ensures { OnOk result (out.new.items ≡ out.old.items ++ shapes_text (look.left_names frame y)) }
{
    match frame.parts {
        Parts::All(requesters) => put_requester_names(frame, requesters, y, out),
        Parts::Requester(port) => put_requester_name(frame, port, y, out),
        Parts::Memory => Ok(()),
    }
}

/// Adds the name of the switch.
fn put_switch_name(frame: Frame, y: u64, out: &mut Vec<u8>) -> Result<(), AllocError>
    requires { IsRowTop y }
    ensures { OnOk result (out.new.items ≡ out.old.items ++ shapes_text (look.name (layout.switch_x frame) y (codes "switch"))) }
{
    put_name(switch_x(frame), y, b"switch", out)
}

/// Adds the name of the memory.
fn put_memory_name(frame: Frame, y: u64, out: &mut Vec<u8>) -> Result<(), AllocError>
    requires { IsRowTop y }
    ensures { OnOk result (out.new.items ≡ out.old.items ++ shapes_text (look.name (layout.memory_x frame) y (codes "memory"))) }
{
    put_name(memory_x(frame), y, b"memory", out)
}

/// Adds the name of the memory, if it has a line.
#[tactic(auto, unfolding(svg_text::specs::Shapes::shapes_text))]
fn put_right_name(frame: Frame, y: u64, out: &mut Vec<u8>) -> Result<(), AllocError>
    requires { IsRowTop y }
    ensures { OnOk result (out.new.items ≡ out.old.items ++ shapes_text (look.right_name frame y)) }
{
    match frame.parts {
        Parts::All(_) | Parts::Memory => put_memory_name(frame, y, out),
        Parts::Requester(_) => Ok(()),
    }
}

/// Adds the names of the lines in the stripe that ends at y.
fn put_names(frame: Frame, y: u64, out: &mut Vec<u8>) -> Result<(), AllocError>
    requires { IsRowTop y }
    ensures { OnOk result (out.new.items ≡ out.old.items ++ shapes_text (look.names frame y)) }
{
    put_left_names(frame, y, out)?;
    put_switch_name(frame, y, out)?;
    put_right_name(frame, y, out)?;
    Ok(())
}

/// Adds the names in the stripe of this number, from 0.
fn put_stripe(frame: Frame, stripe: u16, out: &mut Vec<u8>) -> Result<(), AllocError>
    requires { stripe < 25 }
    ensures { OnOk result (out.new.items ≡ out.old.items ++ shapes_text (look.names frame (layout.top_of (40 * (stripe + 1))))) }
{
    put_names(frame, top_of(40 * (stripe + 1)), out)
}

/// Adds the names again in so many stripes, at most 25.
pub(crate) fn put_stripes(frame: Frame, count: u16, out: &mut Vec<u8>) -> Result<(), AllocError>
    requires { count ≤ 25 }
    ensures { OnOk result (out.new.items ≡ out.old.items ++ shapes_text (look.stripes frame count)) }
{
    for stripe in 0..count {
        put_stripe(frame, stripe, out)?;
    }
    Ok(())
}
