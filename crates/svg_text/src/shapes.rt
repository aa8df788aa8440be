//! The shapes of a picture. Places are in pixels, from the left and from the top.
use crate::colour::Colour;

/// A coloured rectangle with an edge. An open one has no edge at its right.
#[derive(Clone, Copy)]
pub struct Block {
    pub left: u64,
    pub top: u64,
    pub right: u64,
    pub bottom: u64,
    pub fill: Colour,
    pub edge: Colour,
    /// The width of the edge, in pixels.
    pub thickness: u64,
    pub is_open: bool,
}

/// A black disc round a point.
#[derive(Clone, Copy)]
pub struct Dot {
    pub x: u64,
    pub y: u64,
}

/// A straight line from one point to another.
#[derive(Clone, Copy)]
pub struct Rule {
    pub left: u64,
    pub top: u64,
    pub right: u64,
    pub bottom: u64,
    pub colour: Colour,
    /// The width of the line, in pixels.
    pub thickness: u64,
    /// The length of its dashes in pixels, 0 where it has none.
    pub dash: u64,
}

/// Where a text stands: it begins at the point, or has it at the middle, and `y` is that of its
/// base line.
#[derive(Clone, Copy)]
pub struct Label {
    pub x: u64,
    pub y: u64,
    /// The height of its letters, in pixels.
    pub size: u64,
    pub colour: Colour,
    pub is_centred: bool,
}
