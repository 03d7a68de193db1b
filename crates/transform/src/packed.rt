// Sixteen directions, copied out of their rows: three floats each, one after the other. Short loops over packed floats
// run in vector lanes.
ghost use Rattle.std.specs.Prelude.{◌≡◌, ◌+◌, ◌*◌, ◌≤◌, length, get_or};
ghost use Rattle.std.specs.Float.{nan};
ghost use Rattle.model.specs.Lists.{part, row};
ghost use Rattle.model.specs.Vector.{dot, over};
ghost use Rattle.model.specs.Matrix.{turned};
ghost use Rattle.scene.specs.Values.{vec3, mat3};
ghost use Rattle.transform.specs.Blocks.{Packed, squares_of};

use scene::{Mat3, Vec3};
use square_root::{Block, Roots};
use vertex_rows::{load3, store3};

// Copies the first three floats of rows k to k + 15.
pub(crate) fn gather(w: usize, s: &[f32], k: usize, d: &mut [f32; 48])
    requires { (3 ≤ w) × ((k + 16) * w ≤ length s.now) }
    ensures { Packed 16 (λ i. part s.now ((k + i) * w) 3) d.new }
{
    for i in 0..16 {
        let v = load3(s, (k + i) * w);
        store3(d, i * 3, v);
    }
}

fn square(v: Vec3) -> f32
    ensures { result ≡ dot (vec3 v) (vec3 v) }
{
    v.x * v.x + v.y * v.y + v.z * v.z
}

// l times each, in place, and the squares of their lengths.
pub(crate) fn turn(l: Mat3, d: &mut [f32; 48]) -> Block
    ensures { Packed 16 (λ i. turned (mat3 l) (row 3 d.old i)) d.new
        × (result.of ≡ squares_of d.new) }
{
    let mut out = [0.0f32; 16];
    for i in 0..16 {
        let v = scene::mul3(l, load3(d, i * 3));
        store3(d, i * 3, v);
        out[i] = square(v);
    }
    Block { of: out }
}

// l times the first three floats of rows k to k + 15, and the squares of their lengths.
pub(crate) fn gather_turned(l: Mat3, w: usize, s: &[f32], k: usize, d: &mut [f32; 48]) -> Block
    requires { (3 ≤ w) × ((k + 16) * w ≤ length s.now) }
    ensures { Packed 16 (λ i. turned (mat3 l) (part s.now ((k + i) * w) 3)) d.new
        × (result.of ≡ squares_of d.new) }
{
    let mut out = [0.0f32; 16];
    for i in 0..16 {
        let v = scene::mul3(l, load3(s, (k + i) * w));
        store3(d, i * 3, v);
        out[i] = square(v);
    }
    Block { of: out }
}

// The squares of their lengths.
pub(crate) fn squares(d: &[f32; 48]) -> Block
    ensures { result.of ≡ squares_of d.now }
{
    let mut out = [0.0f32; 16];
    for i in 0..16 {
        out[i] = square(load3(d, i * 3));
    }
    Block { of: out }
}

pub(crate) fn divided(v: Vec3, n: f32) -> Vec3
    ensures { vec3 result ≡ over (vec3 v) n }
{
    Vec3 {
        x: v.x / n,
        y: v.y / n,
        z: v.z / n,
    }
}

// Each divided by its length, in place.
pub(crate) fn units(d: &mut [f32; 48], r: Roots)
    ensures { Packed 16 (λ i. over (row 3 d.old i) (get_or r.of i nan)) d.new }
{
    let n = r.of;
    for i in 0..16 {
        let v = load3(d, i * 3);
        store3(d, i * 3, divided(v, n[i]));
    }
}
