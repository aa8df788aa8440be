//! Adding shapes, and the page around them.
ghost use Rattle.std.specs.Prelude.{◌≡◌, ◌≤◌, ◌+◌, ◌++◌, ◌∷◌, [], List, true, false, length, codes, OnOk, OnErr};
ghost use Rattle.std.specs.Fmt.{decimal};
ghost use Rattle.arrayvec.specs.ArrayString.{array_string_len};
ghost use Rattle.svg_text.specs.Shapes.{Shape, painted, rectangle, corners, three_edges, circle, line, lines, anchor, placed, titled, block_before, view, page_attributes, page_background, shape_text, shapes_text, page_text};
ghost use Rattle.svg_text.specs.Xml.{Content, attribute_text, attributes_text, opening, entity, escaped, text_of};

use crate::colour::Colour;
use crate::pieces::{put_decimal, put_number, put_words};
use crate::shapes::{Block, Dot, Label, Rule};
use arrayvec::ArrayString;
use std::alloc::{AllocError, Global};

/// Adds a block's colour and its edge.
fn put_painted(block: &Block, piece: &mut ArrayString<512>)
    requires { array_string_len piece.old ≤ 300 }
    ensures text { piece.new.bytes ≡ piece.old.bytes ++ attributes_text (painted block.now) }
    ensures len { array_string_len piece.new ≤ array_string_len piece.old + 70 }
{
    put_words("fill", block.fill.code(), piece);
    put_words("stroke", block.edge.code(), piece);
    put_number("stroke-width", block.thickness, piece);
}

/// Opens a rectangle.
fn open_rectangle(block: &Block, piece: &mut ArrayString<512>)
    requires { piece.old.bytes ≡ [] }
    ensures { piece.new.bytes ≡ opening (codes "rect") (rectangle block.now) }
{
    piece.push_str("<rect");
    put_number("x", block.left, piece);
    put_number("y", block.top, piece);
    put_number("width", block.right.saturating_sub(block.left), piece);
    put_number("height", block.bottom.saturating_sub(block.top), piece);
    put_painted(block, piece);
    piece.push_str(">");
}

/// Adds a space and the number.
fn put_next(value: u64, piece: &mut ArrayString<512>)
    requires { array_string_len piece.old ≤ 400 }
    ensures text { piece.new.bytes ≡ piece.old.bytes ++ (32 ∷ decimal value) }
    ensures len { array_string_len piece.new ≤ array_string_len piece.old + 21 }
{
    piece.push_str(" ");
    put_decimal(value, piece);
}

/// Adds the corners of a block, from its upper right one to its lower right one.
#[tactic(auto, unfolding(crate::specs::Xml::attribute_text))]
fn put_corners(block: &Block, piece: &mut ArrayString<512>)
    requires { array_string_len piece.old ≤ 100 }
    ensures text { piece.new.bytes ≡ piece.old.bytes ++ attribute_text (corners block.now) }
    ensures len { array_string_len piece.new ≤ array_string_len piece.old + 180 }
{
    piece.push_str(" points=\"");
    put_decimal(block.right, piece);
    put_next(block.top, piece);
    put_next(block.left, piece);
    put_next(block.top, piece);
    put_next(block.left, piece);
    put_next(block.bottom, piece);
    put_next(block.right, piece);
    put_next(block.bottom, piece);
    piece.push_str("\"");
}

/// Opens a line along three edges.
fn open_three_edges(block: &Block, piece: &mut ArrayString<512>)
    requires { piece.old.bytes ≡ [] }
    ensures { piece.new.bytes ≡ opening (codes "polyline") (three_edges block.now) }
{
    piece.push_str("<polyline");
    put_corners(block, piece);
    put_painted(block, piece);
    piece.push_str(">");
}

/// Adds a text, with entities for what marks tags, values and entities.
fn put_escaped(text: &[u8], out: &mut Vec<u8>) -> Result<(), AllocError>
    ensures { OnOk result (out.new.items ≡ out.old.items ++ escaped text.now) }
{
    for byte in text {
        put_character(*byte, out)?;
    }
    Ok(())
}

/// Adds a character.
fn put_character(byte: u8, out: &mut Vec<u8>) -> Result<(), AllocError>
    ensures { OnOk result (out.new.items ≡ out.old.items ++ entity byte) }
{
    match byte {
        b'&' => out.extend_from_slice(b"&amp;"),
        b'<' => out.extend_from_slice(b"&lt;"),
        b'>' => out.extend_from_slice(b"&gt;"),
        b'"' => out.extend_from_slice(b"&quot;"),
        32..=126 => out.extend_from_slice(&[byte]),
        _ => out.extend_from_slice(b"?"),
    }
}

/// Opens a disc.
fn open_circle(dot: &Dot, piece: &mut ArrayString<512>)
    requires { piece.old.bytes ≡ [] }
    ensures { piece.new.bytes ≡ opening (codes "circle") (circle dot.now) }
{
    piece.push_str("<circle");
    put_number("cx", dot.x, piece);
    put_number("cy", dot.y, piece);
    put_number("r", 4, piece);
    put_words("stroke", "#FFFFFF", piece);
    piece.push_str(">");
}

/// Opens a line.
fn open_line(rule: &Rule, piece: &mut ArrayString<512>)
    requires { piece.old.bytes ≡ [] }
    ensures { piece.new.bytes ≡ opening (codes "line") (line rule.now) }
{
    piece.push_str("<line");
    put_number("x1", rule.left, piece);
    put_number("y1", rule.top, piece);
    put_number("x2", rule.right, piece);
    put_number("y2", rule.bottom, piece);
    put_words("stroke", rule.colour.code(), piece);
    put_number("stroke-width", rule.thickness, piece);
    put_number("stroke-dasharray", rule.dash, piece);
    piece.push_str(">");
}

/// How a text stands to its point.
fn anchor_of(is_centred: bool) -> &'static str
    ensures anchor { result.now ≡ anchor is_centred }
    ensures plain { escaped result.now ≡ result.now }
    ensures length { length result.now ≤ 6 }
{
    if is_centred { "middle" } else { "start" }
}

/// Opens a text.
fn open_text(label: &Label, piece: &mut ArrayString<512>)
    requires { piece.old.bytes ≡ [] }
    ensures { piece.new.bytes ≡ opening (codes "text") (placed label.now) }
{
    piece.push_str("<text");
    put_number("x", label.x, piece);
    put_number("y", label.y, piece);
    put_number("font-size", label.size, piece);
    put_words("fill", label.colour.code(), piece);
    put_words("text-anchor", anchor_of(label.is_centred), piece);
    put_words("pointer-events", "none", piece);
    piece.push_str(">");
}

/// Adds the title of an element.
fn put_title(text: &[u8], out: &mut Vec<u8>) -> Result<(), AllocError>
    ensures { OnOk result (out.new.items ≡ out.old.items ++ text_of (titled text.now Content.Nothing)) }
{
    out.extend_from_slice(b"<title>")?;
    put_escaped(text, out)?;
    out.extend_from_slice(b"</title>")
}

/// Adds a block with four edges.
fn put_rectangle(block: &Block, text: &[u8], out: &mut Vec<u8>) -> Result<(), AllocError>
    ensures { OnOk result (out.new.items ≡ out.old.items ++ text_of (block_before false block.now text.now Content.Nothing)) }
{
    let mut piece = ArrayString::new();
    open_rectangle(block, &mut piece);
    out.extend_from_slice(piece.as_bytes())?;
    put_title(text, out)?;
    out.extend_from_slice(b"</rect>")
}

/// Adds a block with three edges.
fn put_three_edges(block: &Block, text: &[u8], out: &mut Vec<u8>) -> Result<(), AllocError>
    ensures { OnOk result (out.new.items ≡ out.old.items ++ text_of (block_before true block.now text.now Content.Nothing)) }
{
    let mut piece = ArrayString::new();
    open_three_edges(block, &mut piece);
    out.extend_from_slice(piece.as_bytes())?;
    put_title(text, out)?;
    out.extend_from_slice(b"</polyline>")
}

/// Adds a block with its title. After an `Err`, which is out of memory, some of it may be added.
#[tactic(auto, unfolding(crate::specs::Shapes::shape_text))]
pub fn put_block(block: &Block, text: &[u8], out: &mut Vec<u8>) -> Result<(), AllocError>
    ensures { OnOk result (out.new.items ≡ out.old.items ++ shape_text (Shape.Filled block.now text.now)) }
{
    if block.is_open {
        put_three_edges(block, text, out)
    } else {
        put_rectangle(block, text, out)
    }
}

/// Adds a dot with its title. After an `Err` some of it may be added.
#[tactic(auto, unfolding(crate::specs::Shapes::shape_text))]
pub fn put_dot(dot: &Dot, text: &[u8], out: &mut Vec<u8>) -> Result<(), AllocError>
    ensures { OnOk result (out.new.items ≡ out.old.items ++ shape_text (Shape.Dotted dot.now text.now)) }
{
    let mut piece = ArrayString::new();
    open_circle(dot, &mut piece);
    out.extend_from_slice(piece.as_bytes())?;
    put_title(text, out)?;
    out.extend_from_slice(b"</circle>")
}

/// Adds a line.
fn put_line(rule: &Rule, out: &mut Vec<u8>) -> Result<(), AllocError>
    ensures { OnOk result (out.new.items ≡ out.old.items ++ text_of (lines (rule.now ∷ []))) }
{
    let mut piece = ArrayString::new();
    open_line(rule, &mut piece);
    out.extend_from_slice(piece.as_bytes())?;
    out.extend_from_slice(b"</line>")
}

/// Adds lines, one after the other.
fn put_each_line(rules: &[Rule], out: &mut Vec<u8>) -> Result<(), AllocError>
    ensures { OnOk result (out.new.items ≡ out.old.items ++ text_of (lines rules.now)) }
{
    for rule in rules {
        put_line(rule, out)?;
    }
    Ok(())
}

/// Adds lines, which have one title together: an arrow, say. After an `Err` some of them may be added.
pub fn put_lines(rules: &[Rule], text: &[u8], out: &mut Vec<u8>) -> Result<(), AllocError>
    ensures { OnOk result (out.new.items ≡ out.old.items ++ shape_text (Shape.Lined rules.now text.now)) }
{
    out.extend_from_slice(b"<g>")?;
    put_title(text, out)?;
    put_each_line(rules, out)?;
    out.extend_from_slice(b"</g>")?;
    Ok(())
}

/// Adds a text. After an `Err` some of it may be added.
#[tactic(auto, unfolding(crate::specs::Shapes::shape_text))]
pub fn put_label(label: &Label, text: &[u8], out: &mut Vec<u8>) -> Result<(), AllocError>
    ensures { OnOk result (out.new.items ≡ out.old.items ++ shape_text (Shape.Written label.now text.now)) }
{
    let mut piece = ArrayString::new();
    open_text(label, &mut piece);
    out.extend_from_slice(piece.as_bytes())?;
    put_escaped(text, out)?;
    out.extend_from_slice(b"</text>")
}

/// Adds what part of the plane is shown.
#[tactic(auto, unfolding(crate::specs::Xml::attribute_text))]
fn put_view(width: u64, height: u64, piece: &mut ArrayString<512>)
    requires { array_string_len piece.old ≤ 200 }
    ensures text { piece.new.bytes ≡ piece.old.bytes ++ attribute_text (view width height) }
    ensures len { array_string_len piece.new ≤ array_string_len piece.old + 100 }
{
    piece.push_str(" viewBox=\"");
    put_decimal(0, piece);
    put_next(0, piece);
    put_next(width, piece);
    put_next(height, piece);
    piece.push_str("\"");
}

/// Opens a page.
fn open_page(width: u64, height: u64, piece: &mut ArrayString<512>)
    requires { piece.old.bytes ≡ [] }
    ensures { piece.new.bytes ≡ opening (codes "svg") (page_attributes width height) }
{
    piece.push_str("<svg");
    put_words("xmlns", "http://www.w3.org/2000/svg", piece);
    put_number("width", width, piece);
    put_number("height", height, piece);
    put_view(width, height, piece);
    put_words("font-family", "monospace", piece);
    piece.push_str(">");
}

/// Adds the tag that opens a page.
fn put_opening(width: u64, height: u64, out: &mut Vec<u8>) -> Result<(), AllocError>
    ensures { OnOk result (out.new.items ≡ out.old.items ++ opening (codes "svg") (page_attributes width height)) }
{
    let mut piece = ArrayString::new();
    open_page(width, height, &mut piece);
    out.extend_from_slice(piece.as_bytes())
}

/// Adds a white page.
fn put_background(width: u64, height: u64, out: &mut Vec<u8>) -> Result<(), AllocError>
    ensures { OnOk result (out.new.items ≡ out.old.items ++ shape_text (Shape.Filled (page_background width height) [])) }
{
    let background = Block {
        left: 0,
        top: 0,
        right: width,
        bottom: height,
        fill: Colour::White,
        edge: Colour::White,
        thickness: 0,
        is_open: false,
    };
    put_block(&background, b"", out)
}

/// Adds two texts, or nothing where there is no room for both.
fn put_both(first: &[u8], second: &[u8], out: &mut Vec<u8>) -> Result<(), AllocError>
    ensures ok { OnOk result (out.new.items ≡ (out.old.items ++ first.now) ++ second.now) }
    ensures err { OnErr result (out.new.items ≡ out.old.items) }
{
    let before = out.len();
    out.extend_from_slice(first)?;
    match out.extend_from_slice(second) {
        Ok(()) => Ok(()),
        Err(fault) => {
            out.truncate(before);
            Err(fault)
        }
    }
}

/// Adds the document of a page of that width and height in pixels, given the text of its shapes. After an `Err`
/// nothing is added.
pub fn put_page(
    alloc: Global,
    width: u64,
    height: u64,
    mut shapes: Vec<u8>,
    out: &mut Vec<u8>,
) -> Result<(), AllocError>
    ensures ok { OnOk result ((ss : List Shape) → shapes.items ≡ shapes_text ss → out.new.items ≡ out.old.items ++ page_text width height ss) }
    ensures err { OnErr result (out.new.items ≡ out.old.items) }
{
    let mut head = Vec::new(alloc);
    put_opening(width, height, &mut head)?;
    put_background(width, height, &mut head)?;
    shapes.extend_from_slice(b"</svg>\n")?;
    put_both(head.as_slice(), shapes.as_slice(), out)?;
    Ok(())
}
