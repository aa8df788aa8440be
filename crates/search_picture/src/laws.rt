//! What holds of all pictures of scenes.
ghost use Rattle.svg_text.specs.Xml.{IsDocument};
ghost use Rattle.search_picture.specs.declared.scene.Scene.{Scene};
ghost use Rattle.search_picture.specs.Laws.{EachRequestHasItsBar, RowsAreApart, FewAreShown};
ghost use Rattle.search_picture.specs.Picture.{scene_text};

use svg_text::pages_are_well_formed;

/// The picture of a scene is a document of XML, whatever its texts say.
pub fn scenes_are_well_formed()
    ensures { (scene : Scene) → IsDocument (scene_text scene) }
{
    pages_are_well_formed();
}

/// Each of the first 20 requests has its bar, its texts and its place, in a row of its own that overlaps no other, and no
/// more than 20 are shown.
pub fn requests_are_drawn()
    ensures each { EachRequestHasItsBar }
    ensures apart { RowsAreApart }
    ensures few { FewAreShown }
{}
