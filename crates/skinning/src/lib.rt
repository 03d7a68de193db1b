// Vertices in lent flat slices, moved by the joints of a skin, in place: the port of skinning.rs's
// `Primitive::skinned`. Three floats a position or a normal, four a tangent; floats past the last whole row stay as
// they are.
#![tactic(auto)]

ghost use Rattle.std.specs.Prelude.{◌≡◌, false, ◌+◌, ◌/◌, ◌≤◌, ◌<◌, length};
ghost use Rattle.borrowed.specs.Attributes.{positions_in, normals_in, tangents_in, SameSlices};
ghost use Rattle.borrowed.specs.InPlace.{InPlace};
ghost use Rattle.model.specs.Lists.{rows_in};
ghost use Rattle.model.specs.Vertices.{skinned};
ghost use Rattle.skinning.specs.Moved.{MovesFrom, MovesBlocks};

use crate::holding::skin_block;
use borrowed::Vertices;
use vertex_rows::{Influences, joint_matrix, skin_vertex};

mod holding;

// n vertices from vertex k on, one by one.
fn skin_each(by: Influences, out: &mut Vertices<'_>, k: usize, n: usize)
    requires { k + n ≤ length out.old.positions.now / 3 }
    ensures moved { MovesFrom by.entry k n out }
    ensures same_slices { SameSlices out.old out.new }
{
    for i in 0..n {
        let joint = joint_matrix(by, k + i);
        skin_vertex(joint, out, k + i);
    }
}

// Whether the last of the rows lies among rows k to k + 14.
fn is_split(rows: usize, k: usize) -> bool
    ensures { result ≡ false → rows < k + 16 → rows ≤ k }
{
    if k < rows {
        return rows - k < 16;
    }
    false
}

// Vertices k to k + 15: one by one where an attribute ends among them.
fn skin_sixteen(by: Influences, out: &mut Vertices<'_>, k: usize)
    requires { k + 16 ≤ length out.old.positions.now / 3 }
    ensures moved { MovesFrom by.entry k 16 out }
    ensures same_slices { SameSlices out.old out.new }
{
    if is_split(out.normals.len() / 3, k) | is_split(out.tangents.len() / 4, k) {
        skin_each(by, out, k, 16);
        return;
    }
    skin_block(by, out, k);
}

// All whole blocks.
fn skin_blocks(by: Influences, out: &mut Vertices<'_>)
    ensures moved { MovesBlocks by.entry out }
    ensures same_slices { SameSlices out.old out.new }
{
    let n = out.positions.len() / 3 / 16;
    for b in 0..n {
        skin_sixteen(by, out, b * 16);
    }
}

// Moves each vertex by the matrices of its joints. A vertex with no influence that counts stays as it is. An attribute
// that is absent has an empty slice.
pub fn skinned(by: Influences, out: &mut Vertices<'_>)
    ensures moved { InPlace (skinned (rows_in 16 by.entry.palette.now) (rows_in 4 by.entry.joints.now)
        (rows_in 4 by.entry.weights.now)) (positions_in out) (normals_in out) (tangents_in out) }
    ensures same_slices { SameSlices out.old out.new }
{
    skin_blocks(by, out);
    let n = out.positions.len() / 3;
    let k = n / 16 * 16;
    skin_each(by, out, k, n - k);
}
