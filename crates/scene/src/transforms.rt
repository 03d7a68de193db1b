ghost use Rattle.std.specs.Prelude.{◌≡◌, ◌<◌, take};
ghost use Rattle.model.specs.Matrix.{column};
ghost use Rattle.model.specs.Vector.{◌⊙◌, norm};
ghost use Rattle.model.specs.Transform.{from_trs, to_matrix, length_factor, from_w, from_x, from_y, from_z, twice_root};
ghost use Rattle.model.specs.Transform.{quaternion, direction, split};
ghost use Rattle.scene.specs.Values.{vec3, quat, trs, transform_of};

use crate::vectors::vec3_len;
use crate::{Mat4, Quat, Transform, Trs, Vec3};

// The matrix of a translation, a rotation and a scale.
pub fn trs_to_matrix(p: Trs) -> Mat4
    ensures { result.m ≡ from_trs (trs p) }
{
    let x = p.rotation.x;
    let y = p.rotation.y;
    let z = p.rotation.z;
    let w = p.rotation.w;
    let xx = x * x;
    let yy = y * y;
    let zz = z * z;
    let xy = x * y;
    let xz = x * z;
    let yz = y * z;
    let wx = w * x;
    let wy = w * y;
    let wz = w * z;
    let sx = p.scale.x;
    let sy = p.scale.y;
    let sz = p.scale.z;
    Mat4 {
        m: [
            (1.0 - 2.0 * (yy + zz)) * sx,
            2.0 * (xy - wz) * sy,
            2.0 * (xz + wy) * sz,
            p.translation.x,
            2.0 * (xy + wz) * sx,
            (1.0 - 2.0 * (xx + zz)) * sy,
            2.0 * (yz - wx) * sz,
            p.translation.y,
            2.0 * (xz - wy) * sx,
            2.0 * (yz + wx) * sy,
            (1.0 - 2.0 * (xx + yy)) * sz,
            p.translation.z,
            0.0,
            0.0,
            0.0,
            1.0,
        ],
    }
}

// The matrix of a transform.
pub fn to_matrix(t: Transform) -> Mat4
    ensures { result.m ≡ to_matrix (transform_of t) }
{
    match t {
        Transform::Trs(p) => trs_to_matrix(p),
        Transform::Matrix(m) => m,
    }
}

// 1 / s, or 1 where s is not above EPSILON.
fn length_factor(s: f32) -> f32
    ensures { result ≡ length_factor s }
{
    if s > 0.00000011920928955078125 {
        return 1.0 / s;
    }
    1.0
}

// The first three numbers of column j.
fn column(m: Mat4, j: usize) -> Vec3
    requires { j < 4 }
    ensures { vec3 result ≡ take 3 (column m.m j) }
{
    Vec3 {
        x: m.m[j],
        y: m.m[4 + j],
        z: m.m[8 + j],
    }
}

fn scaled(f: f32, v: Vec3) -> Vec3
    ensures { vec3 result ≡ f ⊙ vec3 v }
{
    Vec3 {
        x: f * v.x,
        y: f * v.y,
        z: f * v.z,
    }
}

// The quaternion of a rotation by its columns a, b and c, from s, four times its w, x, y or z.
fn from_w(a: Vec3, b: Vec3, c: Vec3, s: f32) -> Quat
    ensures { quat result ≡ from_w (vec3 a) (vec3 b) (vec3 c) s }
{
    Quat {
        x: (b.z - c.y) / s,
        y: (c.x - a.z) / s,
        z: (a.y - b.x) / s,
        w: 0.25 * s,
    }
}

fn from_x(a: Vec3, b: Vec3, c: Vec3, s: f32) -> Quat
    ensures { quat result ≡ from_x (vec3 a) (vec3 b) (vec3 c) s }
{
    Quat {
        x: 0.25 * s,
        y: (b.x + a.y) / s,
        z: (c.x + a.z) / s,
        w: (b.z - c.y) / s,
    }
}

fn from_y(a: Vec3, b: Vec3, c: Vec3, s: f32) -> Quat
    ensures { quat result ≡ from_y (vec3 a) (vec3 b) (vec3 c) s }
{
    Quat {
        x: (b.x + a.y) / s,
        y: 0.25 * s,
        z: (c.y + b.z) / s,
        w: (c.x - a.z) / s,
    }
}

fn from_z(a: Vec3, b: Vec3, c: Vec3, s: f32) -> Quat
    ensures { quat result ≡ from_z (vec3 a) (vec3 b) (vec3 c) s }
{
    Quat {
        x: (c.x + a.z) / s,
        y: (c.y + b.z) / s,
        z: 0.25 * s,
        w: (a.y - b.x) / s,
    }
}

fn twice_root(x: f32) -> f32
    ensures { result ≡ twice_root x }
{
    square_root::sqrt(x) * 2.0
}

// The quaternion of a rotation by its columns: by the trace where that is above 0, else by the largest number on the
// diagonal.
pub fn rot_matrix_to_quat(a: Vec3, b: Vec3, c: Vec3) -> Quat
    ensures { quat result ≡ quaternion (vec3 a) (vec3 b) (vec3 c) }
{
    let x = a.x;
    let y = b.y;
    let z = c.z;
    if x + y + z > 0.0 {
        return from_w(a, b, c, twice_root(x + y + z + 1.0));
    }
    if x > y {
        if x > z {
            return from_x(a, b, c, twice_root(1.0 + x - y - z));
        }
    }
    if y > z {
        return from_y(a, b, c, twice_root(1.0 + y - x - z));
    }
    from_z(a, b, c, twice_root(1.0 + z - x - y))
}

// A column of a matrix: its length, and it with that taken out.
#[derive(Clone, Copy)]
struct Axis {
    length: f32,
    direction: Vec3,
}

fn axis_of(m: Mat4, j: usize) -> Axis
    requires { j < 4 }
    ensures { (result.length ≡ norm (take 3 (column m.m j)))
        × (vec3 result.direction ≡ direction (take 3 (column m.m j))) }
{
    let c = column(m, j);
    let length = vec3_len(c);
    let direction = scaled(length_factor(length), c);
    Axis { length, direction }
}

// A matrix split into translation, rotation and scale. The scale is the three lengths of the columns, which are never
// negative.
pub fn from_matrix(m: Mat4) -> Trs
    ensures { trs result ≡ split m.m }
{
    let a = axis_of(m, 0);
    let b = axis_of(m, 1);
    let c = axis_of(m, 2);
    let rotation = rot_matrix_to_quat(a.direction, b.direction, c.direction);
    let translation = column(m, 3);
    let scale = Vec3 {
        x: a.length,
        y: b.length,
        z: c.length,
    };
    Trs {
        translation,
        rotation,
        scale,
    }
}
