//! What the colours, the dots and the open bars mean.
ghost use Rattle.std.specs.Prelude.{◌≡◌, ◌≤◌, ◌+◌, ◌++◌, OnOk};
ghost use Rattle.svg_text.specs.Shapes.{shapes_text};
ghost use Rattle.history_picture.specs.Legend as spec;

use history_bars::marks::plain_label;
use history_bars::signs::Signs;
use std::alloc::AllocError;
use svg_text::{Block, Colour, Dot, put_block, put_dot, put_label};

fn swatch_block(left: u64, right: u64, colour: Colour, is_open: bool) -> Block
    ensures { result ≡ spec.swatch_block left right colour is_open }
{
    Block {
        left,
        top: 52,
        right,
        bottom: 66,
        fill: colour,
        edge: Colour::Black,
        thickness: 1,
        is_open,
    }
}

/// Adds a small bar and what it means.
#[tactic(auto, unfolding(svg_text::specs::Shapes::shapes_text))]
fn put_swatch(block: &Block, name: &str, out: &mut Vec<u8>) -> Result<(), AllocError>
    requires { block.now.right ≤ 1000 }
    ensures { OnOk result (out.new.items ≡ out.old.items ++ shapes_text (spec.swatch block.now name.now)) }
{
    put_block(block, name.as_bytes(), out)?;
    put_label(&plain_label(block.right + 6, 64), name.as_bytes(), out)
}

/// Adds the colour of a kind of operations, if it occurs.
#[tactic(auto, unfolding(svg_text::specs::Shapes::shapes_text))]
fn put_kind(
    there: bool,
    left: u64,
    colour: Colour,
    name: &str,
    out: &mut Vec<u8>,
) -> Result<(), AllocError>
    requires { left ≤ 900 }
    ensures { OnOk result (out.new.items ≡ out.old.items ++ shapes_text (spec.kind_sign there left colour name.now)) }
{
    if !there {
        return Ok(());
    }
    put_swatch(&swatch_block(left, left + 14, colour, false), name, out)
}

/// Adds a dot, and what it means.
#[tactic(auto, unfolding(svg_text::specs::Shapes::shapes_text))]
fn put_dot_sign(left: u64, out: &mut Vec<u8>) -> Result<(), AllocError>
    requires { left ≤ 900 }
    ensures { OnOk result (out.new.items ≡ out.old.items ++ shapes_text (spec.dot_sign left)) }
{
    let dot = Dot { x: left + 4, y: 59 };
    put_dot(&dot, b"acted", out)?;
    put_label(&plain_label(left + 14, 64), b"acted", out)
}

/// Adds a dot, and what it means, if there is one.
#[tactic(auto, unfolding(svg_text::specs::Shapes::shapes_text))]
fn put_dots(there: bool, left: u64, out: &mut Vec<u8>) -> Result<(), AllocError>
    requires { left ≤ 900 }
    ensures { OnOk result (out.new.items ≡ out.old.items ++ shapes_text (spec.dots_sign there left)) }
{
    if !there {
        return Ok(());
    }
    put_dot_sign(left, out)
}

/// Adds an open bar, and what it means, if there is one.
#[tactic(auto, unfolding(svg_text::specs::Shapes::shapes_text))]
fn put_opens(there: bool, left: u64, out: &mut Vec<u8>) -> Result<(), AllocError>
    requires { left ≤ 900 }
    ensures { OnOk result (out.new.items ≡ out.old.items ++ shapes_text (spec.opens_sign there left)) }
{
    if !there {
        return Ok(());
    }
    let block = swatch_block(left, left + 30, Colour::White, true);
    put_swatch(&block, "posted, or no answer", out)
}

/// Where the next sign stands, behind one of that width that may be there.
fn behind(there: bool, width: u64, left: u64) -> u64
    requires width { width ≤ 100 }
    requires left { left ≤ 800 }
    ensures at { result ≡ spec.behind there width left }
    ensures range { result ≤ left + width }
{
    if there { left + width } else { left }
}

/// Where the sign of writes stands.
fn second(signs: Signs) -> u64
    ensures at { result ≡ spec.second signs }
    ensures range { result ≤ 80 }
{
    behind(signs.reads, 70, 10)
}

/// Where that of additions stands.
fn third(signs: Signs) -> u64
    ensures at { result ≡ spec.third signs }
    ensures range { result ≤ 156 }
{
    behind(signs.writes, 76, second(signs))
}

/// Where that of swaps stands.
fn fourth(signs: Signs) -> u64
    ensures at { result ≡ spec.fourth signs }
    ensures range { result ≤ 216 }
{
    behind(signs.adds, 60, third(signs))
}

/// Where that of comparing swaps stands.
fn fifth(signs: Signs) -> u64
    ensures at { result ≡ spec.fifth signs }
    ensures range { result ≤ 286 }
{
    behind(signs.swaps, 70, fourth(signs))
}

/// Where that of dots stands.
fn sixth(signs: Signs) -> u64
    ensures at { result ≡ spec.sixth signs }
    ensures range { result ≤ 350 }
{
    behind(signs.cas, 64, fifth(signs))
}

/// Where that of open bars stands.
fn seventh(signs: Signs) -> u64
    ensures at { result ≡ spec.seventh signs }
    ensures range { result ≤ 426 }
{
    behind(signs.dots, 76, sixth(signs))
}

/// Adds the colours of the kinds of operations that occur.
fn put_kinds(signs: Signs, out: &mut Vec<u8>) -> Result<(), AllocError>
    ensures { OnOk result (out.new.items ≡ out.old.items ++ shapes_text (spec.kinds signs)) }
{
    put_kind(signs.reads, 10, Colour::SkyBlue, "read", out)?;
    put_kind(signs.writes, second(signs), Colour::Orange, "write", out)?;
    put_kind(signs.adds, third(signs), Colour::Green, "add", out)?;
    put_kind(signs.swaps, fourth(signs), Colour::Yellow, "swap", out)?;
    put_kind(signs.cas, fifth(signs), Colour::Purple, "cas", out)?;
    Ok(())
}

/// Adds what occurs of the kinds of operations, dots and open bars, and what it means.
pub(crate) fn put_legend(signs: Signs, out: &mut Vec<u8>) -> Result<(), AllocError>
    ensures { OnOk result (out.new.items ≡ out.old.items ++ shapes_text (spec.legend signs)) }
{
    put_kinds(signs, out)?;
    put_dots(signs.dots, sixth(signs), out)?;
    put_opens(signs.opens, seventh(signs), out)?;
    Ok(())
}
