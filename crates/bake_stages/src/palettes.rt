ghost use Rattle.std.specs.Prelude.{◌≡◌, List, Float};
ghost use Rattle.model.specs.Lists.{is_some};
ghost use Rattle.checks.specs.Drawn.{lent_as};
ghost use Rattle.bake_stages.specs.Skinned.{palette_from};

use tables::{Lent, Reference};

// Whether a node names no skin, or one whose palette can be made.
pub(crate) fn can_have_palette(lent: Lent, skin: Reference, places: &[u32]) -> bool
    ensures { (own mesh slots : List Float) → result
        ≡ is_some (palette_from (lent_as lent.entry.words.now lent.entry.floats.now own mesh lent.entry.header) skin
        places.now slots) }
{
    if !tables::is_marked(skin.mark) {
        return true;
    }
    skin::palette_count(lent, skin.id, places).is_some()
}
