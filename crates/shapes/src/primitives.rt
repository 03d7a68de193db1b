ghost use Rattle.borrowed.specs.Attributes.{positions_in, normals_in, tangents_in, SameSlices};
ghost use Rattle.borrowed.specs.InPlace.{InPlace};
ghost use Rattle.model.specs.Morph.{with_targets};
ghost use Rattle.model.specs.Attributes.{shape_of};
ghost use Rattle.model.specs.Bake.{placed_shape};
ghost use Rattle.tables.specs.Decoded.{slot_in};
ghost use Rattle.mesh.specs.Lent.{targets_in};
ghost use Rattle.shapes.specs.Rest.{attributes_at, Sized, ShapedAs, palette_in, baked_as};

use crate::parts::copy_rest;
use borrowed::Vertices;
use scene::Mat4;
use tables::{Lent, PrimitiveRow};
use vertex_rows::Influences;

// With a palette, and joints and weights present: skinned; otherwise transformed.
fn place_shape(
    words: &[u32],
    floats: &[f32],
    row: PrimitiveRow,
    world: Mat4,
    palette: Option<&[f32]>,
    out: &mut Vertices<'_>,
)
    ensures moved { InPlace (placed_shape world.m (palette_in palette.entry)
        (slot_in words.now row.joints 4) (slot_in floats.now row.weights 4))
        (positions_in out) (normals_in out) (tangents_in out) }
    ensures same_slices { SameSlices out.old out.new }
{
    let joints = row.joints;
    let weights = row.weights;
    let is_influenced = tables::is_marked(joints.mark) & tables::is_marked(weights.mark);
    match palette {
        Some(palette) if is_influenced => {
            let by = Influences {
                palette,
                joints: tables::words_in(words, joints.part, 4),
                weights: tables::floats_in(floats, weights.part, 4),
            };
            skinning::skinned(by, out);
        }
        _ => transform::transformed(world, out),
    }
}

// The vertices of a primitive, blended with its morph targets.
fn blend_primitive(lent: Lent, row: PrimitiveRow, weights: &[f32], out: &mut Vertices<'_>)
    requires { Sized lent.floats.now row out.old.positions.now out.old.normals.now out.old.tangents.now }
    ensures shaped { ShapedAs (shape_of (with_targets
        (targets_in lent.entry.words.now lent.entry.floats.now lent.entry.header row.targets) weights.now
        (attributes_at lent.entry.floats.now row)))
        lent.entry.floats.now row (positions_in out) (normals_in out) (tangents_in out) }
    ensures same_slices { SameSlices out.old out.new }
{
    copy_rest(lent.floats, row, out);
    mesh::morphed(lent, row.targets, weights, out);
}

// The vertices of a primitive, blended and placed.
// Three slices; tried as a `Vertices`: of parts of slices lent in a struct, Rattle does not tell what is left.
pub(crate) fn bake_primitive(
    lent: Lent,
    row: PrimitiveRow,
    weights: &[f32],
    world: Mat4,
    palette: Option<&[f32]>,
    positions: &mut [f32],
    normals: &mut [f32],
    tangents: &mut [f32],
)
    requires { Sized lent.floats.now row positions.old normals.old tangents.old }
    ensures { ShapedAs (baked_as lent.entry row weights world.m palette.entry)
        lent.entry.floats.now row positions normals tangents }
{
    let mut out = Vertices {
        positions,
        normals,
        tangents,
    };
    blend_primitive(lent, row, weights, &mut out);
    place_shape(lent.words, lent.floats, row, world, palette, &mut out);
}
