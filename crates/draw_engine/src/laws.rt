//! What holds of the pictures of `draw`.
ghost use Rattle.std.specs.Prelude.{List, ℕ};
ghost use Rattle.history_picture.specs.declared.scale.Window.{Window};
ghost use Rattle.svg_text.specs.Xml.{IsDocument};
ghost use Rattle.trace_engine.specs.Check.{out_check};
ghost use Rattle.draw_engine.specs.Draw.{SaysTheSame, out_draw};

use svg_text::pages_are_well_formed;

/// What `draw` writes is a well-formed document of XML, whatever the input is.
pub fn pictures_are_well_formed()
    ensures { (window : Window) (input : List ℕ) → IsDocument (out_draw window input).text }
{
    pages_are_well_formed();
}

/// The line above a picture is the one that `check` writes, and the exit status is the same.
pub fn draw_says_what_check_says()
    ensures { (window : Window) (input : List ℕ) → SaysTheSame (out_draw window input) (out_check input) }
{}
