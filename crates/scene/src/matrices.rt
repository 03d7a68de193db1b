ghost use Rattle.std.specs.Prelude.{◌≡◌, ◌+◌, ◌*◌, ◌≤◌, ◌<◌, length};
ghost use Rattle.std.proofs.Math.Seq.{paste};
ghost use Rattle.model.specs.Lists.{part, tabulate};
ghost use Rattle.model.specs.Vector.{◌⊙◌, ◌⊞◌, dot};
ghost use Rattle.model.specs.Matrix.{column, identity, mul, linear, moved, determinant};
ghost use Rattle.model.specs.Vertices.{affine_point, divided, transformed_point};
ghost use Rattle.scene.specs.Values.{vec3, mat3, in_row, by_rows};
ghost use Rattle.scene.specs.Slots.{matrix_in, Stored};

use crate::{Mat3, Mat4, Vec3};

pub fn identity() -> Mat4
    ensures { result.m ≡ identity }
{
    Mat4 {
        m: [
            1.0, 0.0, 0.0, 0.0, 0.0, 1.0, 0.0, 0.0, 0.0, 0.0, 1.0, 0.0, 0.0, 0.0, 0.0, 1.0,
        ],
    }
}

// Four numbers of a matrix, from left to right.
#[derive(Clone, Copy)]
struct Row {
    x: f32,
    y: f32,
    z: f32,
    w: f32,
}

#[derive(Clone, Copy)]
struct Rows {
    a: Row,
    b: Row,
    c: Row,
    d: Row,
}

fn rows_of(m: Mat4) -> Rows
    ensures { by_rows result ≡ m.m }
{
    Rows {
        a: Row {
            x: m.m[0],
            y: m.m[1],
            z: m.m[2],
            w: m.m[3],
        },
        b: Row {
            x: m.m[4],
            y: m.m[5],
            z: m.m[6],
            w: m.m[7],
        },
        c: Row {
            x: m.m[8],
            y: m.m[9],
            z: m.m[10],
            w: m.m[11],
        },
        d: Row {
            x: m.m[12],
            y: m.m[13],
            z: m.m[14],
            w: m.m[15],
        },
    }
}

// A row of a product: r times each column of m.
fn mul_row(r: Row, m: Rows) -> Row
    ensures { in_row result ≡ tabulate 4 (λ j. dot (in_row r) (column (by_rows m) j)) }
{
    Row {
        x: r.x * m.a.x + r.y * m.b.x + r.z * m.c.x + r.w * m.d.x,
        y: r.x * m.a.y + r.y * m.b.y + r.z * m.c.y + r.w * m.d.y,
        z: r.x * m.a.z + r.y * m.b.z + r.z * m.c.z + r.w * m.d.z,
        w: r.x * m.a.w + r.y * m.b.w + r.z * m.c.w + r.w * m.d.w,
    }
}

fn matrix_of(m: Rows) -> Mat4
    ensures { result.m ≡ by_rows m }
{
    Mat4 {
        m: [
            m.a.x, m.a.y, m.a.z, m.a.w, m.b.x, m.b.y, m.b.z, m.b.w, m.c.x, m.c.y, m.c.z, m.c.w, m
                .d
                .x, m.d.y, m.d.z, m.d.w,
        ],
    }
}

// a times b.
pub fn mat4_mul(a: Mat4, b: Mat4) -> Mat4
    ensures { result.m ≡ mul a.m b.m }
{
    let left = rows_of(a);
    let right = rows_of(b);
    matrix_of(Rows {
        a: mul_row(left.a, right),
        b: mul_row(left.b, right),
        c: mul_row(left.c, right),
        d: mul_row(left.d, right),
    })
}

// m plus w times n, entry by entry.
pub fn mat4_madd(m: Mat4, w: f32, n: Mat4) -> Mat4
    ensures { result.m ≡ m.m ⊞ w ⊙ n.m }
{
    let a = m.m;
    let b = n.m;
    let mut out = [0.0f32; 16];
    for k in 0..16 {
        out[k] = a[k] + w * b[k];
    }
    Mat4 { m: out }
}

// The first three rows and columns.
pub fn linear_part(m: Mat4) -> Mat3
    ensures { mat3 result ≡ linear m.m }
{
    Mat3 {
        m00: m.m[0],
        m01: m.m[1],
        m02: m.m[2],
        m10: m.m[4],
        m11: m.m[5],
        m12: m.m[6],
        m20: m.m[8],
        m21: m.m[9],
        m22: m.m[10],
    }
}

// The determinant of the linear part, from the left.
pub fn linear_det(m: Mat4) -> f32
    ensures { result ≡ determinant m.m }
{
    let a = m.m[0];
    let b = m.m[1];
    let c = m.m[2];
    let d = m.m[4];
    let e = m.m[5];
    let f = m.m[6];
    let g = m.m[8];
    let h = m.m[9];
    let i = m.m[10];
    a * (e * i - f * h) - b * (d * i - f * g) + c * (d * h - e * g)
}

// The first three rows of m times p.
pub fn affine_point(m: Mat4, p: Vec3) -> Vec3
    ensures { vec3 result ≡ affine_point m.m (vec3 p) }
{
    Vec3 {
        x: m.m[0] * p.x + m.m[1] * p.y + m.m[2] * p.z + m.m[3],
        y: m.m[4] * p.x + m.m[5] * p.y + m.m[6] * p.z + m.m[7],
        z: m.m[8] * p.x + m.m[9] * p.y + m.m[10] * p.z + m.m[11],
    }
}

// The bottom row of m times p.
fn bottom(m: Mat4, p: Vec3) -> f32
    ensures { result ≡ moved m.m 3 (vec3 p) }
{
    m.m[12] * p.x + m.m[13] * p.y + m.m[14] * p.z + m.m[15]
}

// v divided by w, where that is finite and neither 0 nor 1.
fn divide(w: f32, v: Vec3) -> Vec3
    ensures { vec3 result ≡ divided w (vec3 v) }
{
    if w != 0.0 {
        if w != 1.0 {
            if float::is_finite(w) {
                return Vec3 {
                    x: v.x / w,
                    y: v.y / w,
                    z: v.z / w,
                };
            }
        }
    }
    v
}

// m times p, with the perspective division.
pub fn transform_point(m: Mat4, p: Vec3) -> Vec3
    ensures { vec3 result ≡ transformed_point m.m (vec3 p) }
{
    divide(bottom(m, p), affine_point(m, p))
}

// The sixteen numbers from s[at] on, which are all there.
pub fn matrix_at(s: &[f32], at: usize) -> Mat4
    requires { at + 16 ≤ length s.now }
    ensures { result.m ≡ part s.now at 16 }
{
    let m = *s[at..].first_chunk().unwrap();
    Mat4 { m }
}

// The sixteen numbers from s[at] on, or zeros where there are fewer.
pub fn load(s: &[f32], at: usize) -> Mat4
    ensures { result.m ≡ matrix_in s.now at }
{
    if 16 <= s.len() {
        if at <= s.len() - 16 {
            return matrix_at(s, at);
        }
    }
    Mat4 { m: [0.0f32; 16] }
}

fn put(s: &mut [f32], at: usize, m: Mat4)
    requires { at + 16 ≤ length s.old }
    ensures { s.new ≡ paste s.old at m.m 16 }
{
    s[at..at + 16].copy_from_slice(&m.m);
}

// Puts m at s[at] and on, and answers whether it fits; where it does not, s is as lent.
pub fn store(s: &mut [f32], at: usize, m: Mat4) -> bool
    ensures { Stored s.old at m.m s.new result }
{
    if 16 <= s.len() {
        if at <= s.len() - 16 {
            put(s, at, m);
            return true;
        }
    }
    false
}
