//! Laws of the texts: what holds of the definitions that the contracts cite.
ghost use Rattle.std.specs.Prelude.{ℕ, List};
ghost use Rattle.svg_text.specs.Shapes.{Shape, IsReadOut, before, page_text, words_of};
ghost use Rattle.svg_text.specs.Xml.{Content, IsDocument, IsPlain, escaped};

/// The text of a page is a document of XML, whatever its shapes are and whatever their texts say.
pub fn pages_are_well_formed()
    ensures { (width height : ℕ) (shapes : List Shape) → IsDocument (page_text width height shapes) }
{}

/// A text that stands between tags or in a value is printed in ASCII, has no mark of a tag or a value, and each `&` in
/// it begins an entity.
pub fn escaped_texts_are_plain()
    ensures { (text : List ℕ) → IsPlain (escaped text) }
{}

/// Each shape is read out: it has a title, or it is a text.
pub fn shapes_are_read_out()
    ensures { (shape : Shape) (rest : Content) → IsReadOut (words_of shape) (before shape rest) }
{}
