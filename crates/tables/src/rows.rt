ghost use Rattle.std.specs.Prelude.{◌≡◌, ◌+◌, ◌*◌, ◌<◌, ℕ, length, take, drop};
ghost use Rattle.tables.specs.Records.{alone, word_of, part_of, slot_of, reference_of, node_row, channel_row, mesh_row};
ghost use Rattle.tables.specs.Records.{primitive_row, target_row, in_between_row, skin_row, skeleton_row};
ghost use Rattle.tables.specs.Records.{node_words, channel_words, mesh_words, primitive_words, target_words};
ghost use Rattle.tables.specs.Records.{in_between_words, skin_words, skeleton_words};
ghost use Rattle.tables.specs.Alone.{Row, Reads};
ghost use Rattle.tables.specs.Alone.{node_laws, channel_laws, mesh_laws, primitive_laws, target_laws};
ghost use Rattle.tables.specs.Alone.{in_between_laws, skin_laws, skeleton_laws};

use crate::places::{Place, whole};
use crate::{
    ChannelRow, InBetweenRow, MeshRow, NodeRow, PrimitiveRow, SkeletonRow, SkinRow, TargetRow,
};
use tracks::Part;

// A record of so many words, the same from its own words alone as from its table.
trait Record: Sized {
    ghost WORDS: { ℕ };

    ghost said: { Row Self };

    ghost laws: { Reads WORDS said };

    const WORDS: usize;

    fn read(words: &[u32], t: Part, i: usize) -> Self
        ensures { result ≡ said words.now t i };
}

// Record i of a table.
fn row<T: Record>(words: &[u32], t: Part, i: usize) -> T
    ensures { result ≡ T.said words.now t i }
{
    let n = T::WORDS;
    let own = whole(words, t, n, i);
    if own.len() == n {
        return T::read(own, alone(), 0);
    }
    T::read(words, t, i)
}

// The table of a record that stands alone.
pub fn alone() -> Part
    ensures { result ≡ alone }
{
    Part { at: 0, count: 1 }
}

impl Record for NodeRow {
    ghost WORDS = { node_words };

    ghost said = { node_row };

    ghost laws = { node_laws };

    const WORDS: usize = 16;

    fn read(words: &[u32], t: Part, i: usize) -> NodeRow {
        let at = Place {
            words,
            t,
            stride: 16,
            i,
        };
        NodeRow {
            form: at.word(0),
            base: at.word(1) as usize,
            children: at.part(2),
            mesh: at.reference(4),
            skin: at.reference(6),
            weights: at.slot(8),
        }
    }
}

impl Record for ChannelRow {
    ghost WORDS = { channel_words };

    ghost said = { channel_row };

    ghost laws = { channel_laws };

    const WORDS: usize = 8;

    fn read(words: &[u32], t: Part, i: usize) -> ChannelRow {
        let at = Place {
            words,
            t,
            stride: 8,
            i,
        };
        ChannelRow {
            target: at.word(0),
            property: at.word(1),
            kind: at.word(2),
            interpolation: at.word(3),
            keys: at.part(4),
            values: at.part(6),
        }
    }
}

impl Record for MeshRow {
    ghost WORDS = { mesh_words };

    ghost said = { mesh_row };

    ghost laws = { mesh_laws };

    const WORDS: usize = 4;

    fn read(words: &[u32], t: Part, i: usize) -> MeshRow {
        let at = Place {
            words,
            t,
            stride: 4,
            i,
        };
        MeshRow {
            primitives: at.part(0),
            weights: at.part(2),
        }
    }
}

impl Record for PrimitiveRow {
    ghost WORDS = { primitive_words };

    ghost said = { primitive_row };

    ghost laws = { primitive_laws };

    const WORDS: usize = 16;

    fn read(words: &[u32], t: Part, i: usize) -> PrimitiveRow {
        let at = Place {
            words,
            t,
            stride: 16,
            i,
        };
        PrimitiveRow {
            positions: at.part(0),
            normals: at.slot(2),
            tangents: at.slot(5),
            joints: at.slot(8),
            weights: at.slot(11),
            targets: at.part(14),
        }
    }
}

impl Record for TargetRow {
    ghost WORDS = { target_words };

    ghost said = { target_row };

    ghost laws = { target_laws };

    const WORDS: usize = 12;

    fn read(words: &[u32], t: Part, i: usize) -> TargetRow {
        let at = Place {
            words,
            t,
            stride: 12,
            i,
        };
        TargetRow {
            positions: at.slot(0),
            normals: at.slot(3),
            tangents: at.slot(6),
            in_betweens: at.part(9),
        }
    }
}

impl Record for InBetweenRow {
    ghost WORDS = { in_between_words };

    ghost said = { in_between_row };

    ghost laws = { in_between_laws };

    const WORDS: usize = 8;

    fn read(words: &[u32], t: Part, i: usize) -> InBetweenRow {
        let at = Place {
            words,
            t,
            stride: 8,
            i,
        };
        InBetweenRow {
            weight: at.word(0) as usize,
            positions: at.slot(1),
            normals: at.slot(4),
        }
    }
}

impl Record for SkinRow {
    ghost WORDS = { skin_words };

    ghost said = { skin_row };

    ghost laws = { skin_laws };

    const WORDS: usize = 4;

    fn read(words: &[u32], t: Part, i: usize) -> SkinRow {
        let at = Place {
            words,
            t,
            stride: 4,
            i,
        };
        SkinRow {
            skeleton: at.word(0),
            root: at.reference(1),
        }
    }
}

impl Record for SkeletonRow {
    ghost WORDS = { skeleton_words };

    ghost said = { skeleton_row };

    ghost laws = { skeleton_laws };

    const WORDS: usize = 4;

    fn read(words: &[u32], t: Part, i: usize) -> SkeletonRow {
        let at = Place {
            words,
            t,
            stride: 4,
            i,
        };
        SkeletonRow {
            joints: at.part(0),
            inverse_binds: at.part(2),
        }
    }
}

// Record i of the nodes.
pub fn node_row(words: &[u32], t: Part, i: usize) -> NodeRow
    ensures { result ≡ node_row words.now t i }
{
    row(words, t, i)
}

// Record i of the channels.
pub fn channel_row(words: &[u32], t: Part, i: usize) -> ChannelRow
    ensures { result ≡ channel_row words.now t i }
{
    row(words, t, i)
}

// Record i of the meshes.
pub fn mesh_row(words: &[u32], t: Part, i: usize) -> MeshRow
    ensures { result ≡ mesh_row words.now t i }
{
    row(words, t, i)
}

// Record i of the primitives.
pub fn primitive_row(words: &[u32], t: Part, i: usize) -> PrimitiveRow
    ensures { result ≡ primitive_row words.now t i }
{
    row(words, t, i)
}

// Record i of the morph targets.
pub fn target_row(words: &[u32], t: Part, i: usize) -> TargetRow
    ensures { result ≡ target_row words.now t i }
{
    row(words, t, i)
}

// Record i of the in-betweens.
pub fn in_between_row(words: &[u32], t: Part, i: usize) -> InBetweenRow
    ensures { result ≡ in_between_row words.now t i }
{
    row(words, t, i)
}

// Record i of the skins.
pub fn skin_row(words: &[u32], t: Part, i: usize) -> SkinRow
    ensures { result ≡ skin_row words.now t i }
{
    row(words, t, i)
}

// Record i of the skeletons.
pub fn skeleton_row(words: &[u32], t: Part, i: usize) -> SkeletonRow
    ensures { result ≡ skeleton_row words.now t i }
{
    row(words, t, i)
}
