// Sixteen vertices by the matrices of their joints, with the directions held back: their lengths are taken together
// once all are there.
ghost use Rattle.std.specs.Prelude.{◌≡◌, true, ◌+◌, ◌*◌, ◌/◌, ◌≤◌, ◌<◌, length};
ghost use Rattle.std.proofs.Math.Seq.{paste};
ghost use Rattle.borrowed.specs.Attributes.{SameSlices};
ghost use Rattle.model.specs.Lists.{pick, part, row};
ghost use Rattle.model.specs.Matrix.{linear, turned, inverse_transpose};
ghost use Rattle.scene.specs.Values.{vec3, linear_of, matrix_of};
ghost use Rattle.vertex_rows.specs.Rows.{flipped, row_changed};
ghost use Rattle.transform.specs.Blocks.{unit_over, rows_from};
ghost use Rattle.skinning.specs.Moved.{MovesFrom};
ghost use Rattle.skinning.specs.Holding.{zeros, direction_by, Room, HoldsOne};
ghost use Rattle.skinning.specs.Holding.{HoldsVertex, HoldsBlock};

use borrowed::Vertices;
use scene::{Mat3, Mat4, Vec3};
use transform::put_units;
use vertex_rows::{Influences, flip_tangent, joint_matrix, load3, move_position, store3};

// Whether a block has all its normals, and all its tangents. Where it has not, it has none.
#[derive(Clone, Copy)]
struct Whole {
    normals: bool,
    tangents: bool,
}

// The directions of sixteen normals and of sixteen tangents.
#[derive(Clone, Copy)]
struct Waiting {
    normals: [f32; 48],
    tangents: [f32; 48],
}

// l times v, and zeros where there is no l: a direction with no length.
fn direction(l: Option<Mat3>, v: Vec3) -> Vec3
    ensures { vec3 result ≡ direction_by (linear_of l) (vec3 v) }
{
    match l {
        Some(m) => scene::mul3(m, v),
        None => Vec3 {
            x: 0.0,
            y: 0.0,
            z: 0.0,
        },
    }
}

// Puts the direction of normal v at i.
fn hold_normal(m: Mat4, whole: bool, of: &Vertices<'_>, v: usize, held: &mut [f32], i: usize)
    requires { (i * 3 + 3 ≤ length held.old) × (whole ≡ true → v < length of.now.normals.now / 3) }
    ensures { HoldsOne whole i (direction_by (inverse_transpose m.m) (row 3 of.entry.now.normals.now v)) held }
{
    if whole {
        let n = load3(of.normals, v * 3);
        store3(
            held,
            i * 3,
            direction(inverse::linear_inverse_transpose(m), n),
        );
    }
}

// Puts the direction of tangent v at i.
fn hold_tangent(m: Mat4, whole: bool, of: &Vertices<'_>, v: usize, held: &mut [f32], i: usize)
    requires { (i * 3 + 3 ≤ length held.old) × (whole ≡ true → v < length of.now.tangents.now / 4) }
    ensures { HoldsOne whole i (turned (linear m.m) (part of.entry.now.tangents.now (v * 4) 3)) held }
{
    if whole {
        let t = load3(of.tangents, v * 4);
        store3(held, i * 3, scene::mul3(scene::linear_part(m), t));
    }
}

// Flips the handedness of tangent v under a mirror.
fn hand(mirror: bool, tangents: &mut [f32], v: usize)
    ensures { tangents.new ≡ row_changed 4 (λ x. pick mirror (flipped x) x) v tangents.old }
{
    if mirror {
        flip_tangent(tangents, v);
    }
}

// Puts zeros at i.
fn hold_zeros(n: &mut [f32], t: &mut [f32], i: usize)
    requires { (i * 3 + 3 ≤ length n.old) × (i * 3 + 3 ≤ length t.old) }
    ensures { (n.new ≡ paste n.old (i * 3) zeros 3)
        × (t.new ≡ paste t.old (i * 3) zeros 3) }
{
    let z = Vec3 {
        x: 0.0,
        y: 0.0,
        z: 0.0,
    };
    store3(n, i * 3, z);
    store3(t, i * 3, z);
}

// Vertex v by its joint matrix: its position moved, the directions of normal and tangent put at i, and the tangent
// flipped under a mirror.
fn hold_vertex(
    joint: Option<Mat4>,
    whole: Whole,
    out: &mut Vertices<'_>,
    v: usize,
    n: &mut [f32],
    t: &mut [f32],
    i: usize,
)
    requires { Room whole v i out.old.normals.now out.old.tangents.now n.old t.old }
    ensures held { HoldsVertex whole (matrix_of joint) v i out n t }
    ensures normals { out.new.normals.now ≡ out.old.normals.now }
    ensures same_slices { SameSlices out.old out.new }
{
    if let Some(m) = joint {
        move_position(m, out.positions, v);
        // Asked before the directions are put: after them it costs more.
        let mirror = scene::linear_det(m) < 0.0;
        hold_normal(m, whole.normals, out, v, n, i);
        hold_tangent(m, whole.tangents, out, v, t, i);
        hand(mirror, out.tangents, v);
        return;
    }
    hold_zeros(n, t, i);
}

// Vertices k to k + 15, with their directions held back.
fn hold_block(by: Influences, whole: Whole, out: &mut Vertices<'_>, k: usize) -> Waiting
    requires { (k + 16 ≤ length out.old.positions.now / 3)
        × (whole.normals ≡ true → k + 16 ≤ length out.old.normals.now / 3)
        × (whole.tangents ≡ true → k + 16 ≤ length out.old.tangents.now / 4) }
    ensures held { HoldsBlock by.entry whole k out result }
    ensures normals { out.new.normals.now ≡ out.old.normals.now }
    ensures same_slices { SameSlices out.old out.new }
{
    let mut n = [0.0f32; 48];
    let mut t = [0.0f32; 48];
    for i in 0..16 {
        let joint = joint_matrix(by, k + i);
        hold_vertex(joint, whole, out, k + i, &mut n, &mut t, i);
    }
    Waiting {
        normals: n,
        tangents: t,
    }
}

// Puts the directions that were held back in rows k to k + 15, divided by their lengths.
fn put_held(whole: bool, d: &mut [f32; 48], w: usize, s: &mut [f32], k: usize)
    requires { (3 ≤ w) × (whole ≡ true → (k + 16) * w ≤ length s.old) }
    ensures { s.new ≡ pick whole (rows_from w (λ i. unit_over (row 3 d.old i)) k
        s.old 16) s.old }
{
    if whole {
        put_units(d, w, s, k);
    }
}

// Vertices k to k + 15, where no attribute ends among them.
pub(crate) fn skin_block(by: Influences, out: &mut Vertices<'_>, k: usize)
    requires { (k + 16 ≤ length out.old.positions.now / 3)
        × (length out.old.normals.now / 3 < k + 16 → length out.old.normals.now / 3 ≤ k)
        × (length out.old.tangents.now / 4 < k + 16 → length out.old.tangents.now / 4 ≤ k) }
    ensures moved { MovesFrom by.entry k 16 out }
    ensures same_slices { SameSlices out.old out.new }
{
    let whole = Whole {
        normals: k + 16 <= out.normals.len() / 3,
        tangents: k + 16 <= out.tangents.len() / 4,
    };
    let held = hold_block(by, whole, out, k);
    let mut n = held.normals;
    let mut t = held.tangents;
    put_held(whole.normals, &mut n, 3, out.normals, k);
    put_held(whole.tangents, &mut t, 4, out.tangents, k);
}
