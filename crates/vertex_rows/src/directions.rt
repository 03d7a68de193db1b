ghost use Rattle.std.specs.Prelude.{◌≡◌, map};
ghost use Rattle.model.specs.Lists.{rows_in};
ghost use Rattle.model.specs.Vertices.{turned_unit, turned_normal};
ghost use Rattle.model.specs.Attributes.{over_rows};
ghost use Rattle.scene.specs.Values.{vec3, mat3, linear_of};
ghost use Rattle.vertex_rows.specs.Rows.{tangent, tangent_by, flipped, row_changed};

use crate::rows::{Tangent, load3, load4, store3, store4};
use scene::{Mat3, Vec3};

// l times v, of length 1; v where that has no length.
fn turned_unit(l: Mat3, v: Vec3) -> Vec3
    ensures { vec3 result ≡ turned_unit (mat3 l) (vec3 v) }
{
    scene::normalize3(scene::mul3(l, v)).unwrap_or(v)
}

// The tangent t by a linear part; the handedness flips under a mirror.
fn turned_tangent(l: Mat3, mirror: bool, t: Tangent) -> Tangent
    ensures { tangent result ≡ tangent_by (mat3 l) mirror (tangent t) }
{
    let direction = turned_unit(l, t.direction);
    if mirror {
        return Tangent {
            direction,
            handedness: -t.handedness,
        };
    }
    Tangent {
        direction,
        handedness: t.handedness,
    }
}

// Turns normal k by l, if there is one.
fn turn_unit(l: Mat3, normals: &mut [f32], k: usize)
    ensures { normals.new ≡ row_changed 3 (turned_unit (mat3 l)) k normals.old }
{
    if k < normals.len() / 3 {
        let v = load3(normals, k * 3);
        store3(normals, k * 3, turned_unit(l, v));
    }
}

// Turns normal k by the normal matrix, if there are both.
pub(crate) fn turn_normal(n: Option<Mat3>, normals: &mut [f32], k: usize)
    ensures { normals.new ≡ row_changed 3 (turned_normal (linear_of n)) k normals.old }
{
    if let Some(l) = n {
        turn_unit(l, normals, k);
    }
}

// Turns tangent k, if there is one.
pub(crate) fn turn_tangent(l: Mat3, mirror: bool, tangents: &mut [f32], k: usize)
    ensures { tangents.new ≡ row_changed 4 (tangent_by (mat3 l) mirror) k tangents.old }
{
    if k < tangents.len() / 4 {
        let t = load4(tangents, k * 4);
        store4(tangents, k * 4, turned_tangent(l, mirror, t));
    }
}

fn flip(t: Tangent) -> Tangent
    ensures { tangent result ≡ flipped (tangent t) }
{
    let direction = t.direction;
    Tangent {
        direction,
        handedness: -t.handedness,
    }
}

// Flips the handedness of tangent k, if there is one.
pub fn flip_tangent(tangents: &mut [f32], k: usize)
    ensures { tangents.new ≡ row_changed 4 flipped k tangents.old }
{
    if k < tangents.len() / 4 {
        let t = load4(tangents, k * 4);
        store4(tangents, k * 4, flip(t));
    }
}

// Flips the handedness of every tangent.
pub fn flip_tangents(tangents: &mut [f32])
    ensures { tangents.new ≡ over_rows 4 (map flipped (rows_in 4 tangents.old))
        tangents.old }
{
    let n = tangents.len() / 4;
    for k in 0..n {
        flip_tangent(tangents, k);
    }
}
