//! Lines, squares and texts in their places.
ghost use Rattle.std.specs.Prelude.{◌≡◌, ◌≤◌, ◌+◌, ◌++◌, length, OnOk};
ghost use Rattle.chart_rows.specs.Sizes.{IsOnPage};
ghost use Rattle.svg_text.specs.Shapes.{shape_text, shapes_text};
ghost use Rattle.chart_marks.specs.Look as look;

use chart_rows::{Carried, Kind, Point, kind_name, middle, text_line, text_width, top_of};
use std::alloc::AllocError;
use svg_text::{Block, Colour, Label, Rule, put_block, put_label};

/// What a line looks like.
#[derive(Clone, Copy)]
pub struct Pen {
    pub colour: Colour,
    /// In pixels.
    pub thickness: u64,
    /// The length of its dashes in pixels, 0 where it has none.
    pub dash: u64,
}

/// Where a text stands: beside a line, in a row.
#[derive(Clone, Copy)]
pub struct Tag {
    pub x: u64,
    pub is_right: bool,
    pub row: u16,
    /// The kind whose colour stands before the text.
    pub kind: Option<Kind>,
    pub colour: Colour,
}

/// A line from one point to another.
pub fn rule(pen: Pen, from: Point, to: Point) -> Rule
    ensures { result ≡ look.rule pen from to }
{
    Rule {
        left: from.x,
        top: from.y,
        right: to.x,
        bottom: to.y,
        colour: pen.colour,
        thickness: pen.thickness,
        dash: pen.dash,
    }
}

fn square_block(at: Point, fill: Colour) -> Block
    requires x { IsOnPage at.x }
    requires y { IsOnPage at.y }
    ensures { result ≡ look.square_block at fill }
{
    Block {
        left: at.x.saturating_sub(5),
        top: at.y.saturating_sub(5),
        right: at.x + 5,
        bottom: at.y + 5,
        fill,
        edge: Colour::Black,
        thickness: 1,
        is_open: false,
    }
}

/// Adds a square round a point, with its title.
pub fn put_square(
    at: Point,
    fill: Colour,
    words: &[u8],
    out: &mut Vec<u8>,
) -> Result<(), AllocError>
    requires x { IsOnPage at.x }
    requires y { IsOnPage at.y }
    ensures { OnOk result (out.new.items ≡ out.old.items ++ shape_text (look.square at fill words.now)) }
{
    put_block(&square_block(at, fill), words, out)
}

/// A text in letters of 12 pixels.
pub fn label_at(x: u64, y: u64, colour: Colour) -> Label
    ensures { result ≡ look.label_at x y colour }
{
    Label {
        x,
        y,
        size: 12,
        colour,
        is_centred: false,
    }
}

fn indent(kind: Option<Kind>) -> u64
    ensures value { result ≡ look.indent kind }
    ensures range { result ≤ 28 }
{
    match kind {
        None => 12,
        Some(_) => 28,
    }
}

/// Where a text begins.
fn text_left(tag: Tag, words: &[u8]) -> u64
    requires x { IsOnPage tag.x }
    requires words { length words.now ≤ 512 }
    ensures value { result ≡ look.text_left tag words.now }
    ensures range { result ≤ 3000100 }
{
    if tag.is_right {
        tag.x + indent(tag.kind)
    } else {
        tag.x
            .saturating_sub(text_width(words.len()))
            .saturating_sub(indent(tag.kind))
    }
}

/// White below a text.
fn plate(tag: Tag, words: &[u8]) -> Block
    requires x { IsOnPage tag.x }
    requires words { length words.now ≤ 512 }
    ensures { result ≡ look.plate tag words.now }
{
    Block {
        left: text_left(tag, words).saturating_sub(2),
        top: top_of(tag.row) + 3,
        right: text_left(tag, words) + text_width(words.len()) + 2,
        bottom: top_of(tag.row) + 17,
        fill: Colour::White,
        edge: Colour::White,
        thickness: 0,
        is_open: false,
    }
}

fn kind_x(tag: Tag) -> u64
    requires { tag.x ≤ 2999000 }
    ensures value { result ≡ look.kind_x tag }
    ensures range { IsOnPage result }
{
    if tag.is_right {
        tag.x + 18
    } else {
        tag.x.saturating_sub(18)
    }
}

/// The colour of a kind.
pub fn kind_colour(kind: Kind) -> Colour
    ensures { result ≡ look.kind_colour kind }
{
    match kind {
        Kind::Read => Colour::SkyBlue,
        Kind::Write => Colour::Orange,
        Kind::Add => Colour::Green,
        Kind::Swap => Colour::Yellow,
        Kind::Cas => Colour::Purple,
    }
}

/// Adds the colour of a tag's kind, if it has one.
#[tactic(auto, unfolding(svg_text::specs::Shapes::shapes_text))]
fn put_kind(tag: Tag, out: &mut Vec<u8>) -> Result<(), AllocError>
    requires { tag.x ≤ 2999000 }
    ensures { OnOk result (out.new.items ≡ out.old.items ++ shapes_text (look.kind_square tag tag.kind)) }
{
    let Some(kind) = tag.kind else {
        return Ok(());
    };
    let at = Point {
        x: kind_x(tag),
        y: middle(tag.row),
    };
    put_square(at, kind_colour(kind), kind_name(kind).as_bytes(), out)
}

/// Adds a text beside a line.
#[tactic(auto, unfolding(svg_text::specs::Shapes::shapes_text))]
pub fn put_tag(tag: Tag, words: &[u8], out: &mut Vec<u8>) -> Result<(), AllocError>
    requires x { tag.x ≤ 2999000 }
    requires words { length words.now ≤ 512 }
    ensures { OnOk result (out.new.items ≡ out.old.items ++ shapes_text (look.tag_shapes tag words.now)) }
{
    put_block(&plate(tag, words), words, out)?;
    let label = label_at(text_left(tag, words), text_line(tag.row), tag.colour);
    put_label(&label, words, out)?;
    put_kind(tag, out)
}

/// The kind of what is carried, if that is known.
pub fn kind_in(carried: Option<Carried>) -> Option<Kind>
    ensures { result ≡ look.kind_in carried }
{
    match carried {
        None => None,
        Some(carried) => Some(carried.kind),
    }
}
