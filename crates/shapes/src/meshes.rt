ghost use Rattle.std.specs.Prelude.{◌≡◌, length};
ghost use Rattle.borrowed.specs.Attributes.{positions_in, normals_in, tangents_in, SameSlices};
ghost use Rattle.shapes.specs.Rest.{baked_as, baked_mesh, row_lengths, plus_lengths, lengths_below, AtMost};
ghost use Rattle.shapes.specs.Rest.{RowFits, Drawable, PutsAt, PutsOut};

use crate::Lengths;
use crate::counting::{none, plus, primitive_at, row_lengths};
use crate::primitives::bake_primitive;
use borrowed::Vertices;
use scene::Mat4;
use tables::{Lent, PrimitiveRow};
use tracks::Part;

// Puts out a primitive of so many floats, from the given places on.
// Three slices; tried as a `Vertices`: Rattle does not cover parts of two of its fields that are lent at once.
fn put_primitive(
    lent: Lent,
    row: PrimitiveRow,
    weights: &[f32],
    world: Mat4,
    palette: Option<&[f32]>,
    at: Lengths,
    n: Lengths,
    positions: &mut [f32],
    normals: &mut [f32],
    tangents: &mut [f32],
)
    requires { (n ≡ row_lengths row) × RowFits lent.floats.now row
        × AtMost (plus_lengths at n) (length positions.old) (length normals.old) (length tangents.old)
        × AtMost (plus_lengths at n) 8589934592 8589934592 8589934592 }
    ensures { PutsAt (baked_as lent.entry row weights world.m palette.entry) at n
        positions normals tangents }
{
    let a = at.positions;
    let b = at.normals;
    let c = at.tangents;
    let d = a + n.positions;
    let e = b + n.normals;
    let f = c + n.tangents;
    bake_primitive(
        lent,
        row,
        weights,
        world,
        palette,
        &mut positions[a..d],
        &mut normals[b..e],
        &mut tangents[c..f],
    );
}

// Puts out the primitives of a mesh, a part of their table, one after the other, blended and placed: a stage, for
// tables that draw no number and outputs that are long enough.
pub fn write_mesh(
    lent: Lent,
    part: Part,
    weights: &[f32],
    world: Mat4,
    palette: Option<&[f32]>,
    out: &mut Vertices<'_>,
)
    requires { Drawable lent.words.now lent.floats.now lent.header.meshes.primitives part
        × AtMost (lengths_below lent.words.now lent.header.meshes.primitives part part.count)
        (length out.old.positions.now) (length out.old.normals.now) (length out.old.tangents.now) }
    ensures put { PutsOut (baked_mesh lent.entry part weights world.m palette.entry)
        (positions_in out) (normals_in out) (tangents_in out) }
    ensures same_slices { SameSlices out.old out.new }
{
    let table = lent.header.meshes.primitives;
    let mut at = none();
    for k in 0..part.count {
        let row = primitive_at(lent.words, table, part, k);
        let n = row_lengths(row);
        put_primitive(
            lent,
            row,
            weights,
            world,
            palette,
            at,
            n,
            out.positions,
            out.normals,
            out.tangents,
        );
        at = plus(at, n);
    }
}
