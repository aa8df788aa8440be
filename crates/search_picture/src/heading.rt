//! What stands above the rows.
ghost use Rattle.std.specs.Prelude.{◌≡◌, ◌++◌, OnOk};
ghost use Rattle.svg_text.specs.Shapes.{shapes_text};
ghost use Rattle.search_picture.specs.Picture as spec;

use crate::parts::{label_at, shown};
use std::alloc::AllocError;
use svg_text::{Colour, Label, put_label};

/// Adds the title, and what stands below it.
#[tactic(auto, unfolding(svg_text::specs::Shapes::shapes_text))]
pub(crate) fn put_titles(title: &[u8], note: &[u8], out: &mut Vec<u8>) -> Result<(), AllocError>
    ensures { OnOk result (out.new.items ≡ out.old.items ++ shapes_text (spec.titles title.now note.now)) }
{
    let place = Label {
        x: 10,
        y: 22,
        size: 16,
        colour: Colour::Red,
        is_centred: false,
    };
    put_label(&place, shown(80, title), out)?;
    put_label(&label_at(10, 42, Colour::Black), shown(110, note), out)?;
    put_label(&label_at(10, 92, Colour::Black), b"line", out)
}
