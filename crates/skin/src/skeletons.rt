ghost use Rattle.skin.specs.Skeletons.{BoundTo};

use tables::{Header, SkeletonRow};

// The skeleton of a skin, if both ids name something.
pub(crate) fn skeleton_of(words: &[u32], h: Header, skin: u32) -> Option<SkeletonRow>
    ensures { BoundTo words.now h skin result }
{
    let skins = h.skins;
    let k = skin as usize;
    if skins.skins.count <= k {
        return None;
    }
    let row = tables::skin_row(words, skins.skins, k);
    let b = row.skeleton as usize;
    if skins.skeletons.count <= b {
        return None;
    }
    Some(tables::skeleton_row(words, skins.skeletons, b))
}
