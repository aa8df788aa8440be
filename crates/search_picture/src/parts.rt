//! Where parts of a picture stand, and how they look.
ghost use Rattle.std.specs.Prelude.{◌≡◌, ◌≤◌, ◌+◌, length, take};
ghost use Rattle.search_picture.specs.Picture as spec;

use svg_text::{Block, Colour, Label, Rule};

/// Where a column stands, in pixels from the left.
pub(crate) fn x_at(column: u32) -> u64
    ensures at { result ≡ spec.x_at column }
    ensures range { result ≤ 400000000000 }
{
    120 + 72 * u64::from(column)
}

/// Where a row begins, in pixels from the top.
pub(crate) fn top_of(row: u64) -> u64
    requires { row ≤ 100 }
    ensures at { result ≡ spec.top_of row }
    ensures range { result ≤ 6500 }
    ensures least { 100 ≤ result }
{
    100 + 64 * row
}

/// What is shown of items: so many.
pub(crate) fn shown<T>(room: usize, items: &[T]) -> &[T]
    ensures shown { result.now ≡ take room items.now }
    ensures room { length result.now ≤ room }
{
    let end = items.len().min(room);
    &items[..end]
}

/// Where a text stands.
pub(crate) fn label_at(x: u64, y: u64, colour: Colour) -> Label
    ensures { result ≡ spec.label_at x y colour }
{
    Label {
        x,
        y,
        size: 12,
        colour,
        is_centred: false,
    }
}

/// Where a text has its middle.
pub(crate) fn middle_at(x: u64, y: u64, colour: Colour) -> Label
    ensures { result ≡ spec.middle_at x y colour }
{
    Label {
        x,
        y,
        size: 12,
        colour,
        is_centred: true,
    }
}

/// A white block behind a text of so many characters.
pub(crate) fn backing(left: u64, top: u64, bottom: u64, count: usize) -> Block
    requires left { left ≤ 1000000000000 }
    requires count { count ≤ 1000 }
    ensures { result ≡ spec.backing left top bottom count }
{
    Block {
        left,
        top,
        right: left + 8 * count as u64,
        bottom,
        fill: Colour::White,
        edge: Colour::White,
        thickness: 0,
        is_open: false,
    }
}

/// A grey line, of dashes if they have a length.
pub(crate) fn grey_line(from: (u64, u64), to: (u64, u64), dash: u64) -> Rule
    ensures { result ≡ spec.grey_line from to dash }
{
    Rule {
        left: from.0,
        top: from.1,
        right: to.0,
        bottom: to.1,
        colour: Colour::Grey,
        thickness: 1,
        dash,
    }
}
