// The inverse of a matrix and the two normal matrices: `mat4_affine_inverse` of scene.rs, `linear_inverse_transpose` of
// skinning.rs, and the normal matrix of transform.rs.
#![tactic(auto)]

ghost use Rattle.std.specs.Prelude.{◌≡◌, [], ◌∷◌, map};
ghost use Rattle.std.specs.Float.Ieee.Scale.{finite};
ghost use Rattle.float.specs.Narrow.{narrow_of};
ghost use Rattle.model.specs.Lists.{every};
ghost use Rattle.model.specs.Matrix.{invertible, cofactors, inverse_transpose};
ghost use Rattle.model.specs.Inverse.{apart, affine, cofactors64, determinant64, inverse_row, inverse_from};
ghost use Rattle.model.specs.Inverse.{translation_of, affine_inverse, normal_matrix};
ghost use Rattle.scene.specs.Values.{quat, mat3, linear_of, matrix_of};

use scene::{Mat3, Mat4, Quat, linear_det, linear_part};

// Whether all numbers of s are finite.
fn are_finite(s: &[f32]) -> bool
    ensures { result ≡ every finite s.now }
{
    s.iter().all(|x| float::is_finite(*x))
}

// ---- the normal matrix of skinned vertices, in f32

// The cofactors of the linear part times r.
fn scaled_cofactors(m: Mat4, r: f32) -> Mat3
    ensures { mat3 result ≡ cofactors m.m r }
{
    let a = m.m[0];
    let b = m.m[1];
    let c = m.m[2];
    let d = m.m[4];
    let e = m.m[5];
    let f = m.m[6];
    let g = m.m[8];
    let h = m.m[9];
    let i = m.m[10];
    Mat3 {
        m00: (e * i - f * h) * r,
        m01: (f * g - d * i) * r,
        m02: (d * h - e * g) * r,
        m10: (c * h - b * i) * r,
        m11: (a * i - c * g) * r,
        m12: (b * g - a * h) * r,
        m20: (b * f - c * e) * r,
        m21: (c * d - a * f) * r,
        m22: (a * e - b * d) * r,
    }
}

fn mat3_is_finite(l: Mat3) -> bool
    ensures { result ≡ every finite (mat3 l) }
{
    let a = [
        l.m00, l.m01, l.m02, l.m10, l.m11, l.m12, l.m20, l.m21, l.m22,
    ];
    are_finite(&a)
}

fn is_invertible(det: f32) -> bool
    ensures { result ≡ invertible det }
{
    float::is_finite(det) & (det != 0.0)
}

// The inverse transpose of the linear part, by 1 / determinant; none where there is no such matrix of finite numbers.
pub fn linear_inverse_transpose(m: Mat4) -> Option<Mat3>
    ensures { linear_of result ≡ inverse_transpose m.m }
{
    let det = linear_det(m);
    let n = scaled_cofactors(m, 1.0 / det);
    if is_invertible(det) & mat3_is_finite(n) {
        return Some(n);
    }
    None
}

// ---- the inverse of an affine matrix, in f64

// More than 1e-6 from 0.
fn is_apart(x: f32) -> bool
    ensures { result ≡ apart x }
{
    (x > 0.000001) | (x < -0.000001)
}

// All entries are finite, and the bottom row is (0, 0, 0, 1) to within 1e-6.
fn is_affine(m: Mat4) -> bool
    ensures { result ≡ affine m.m }
{
    let a = m.m;
    are_finite(&a) & !(is_apart(a[12]) | is_apart(a[13]) | is_apart(a[14]) | is_apart(a[15] - 1.0))
}

// l in f64, which loses nothing: nine numbers, row by row.
fn widen3(l: Mat3) -> [f64; 9]
    ensures { result ≡ mat3 l }
{
    [
        float::widen(l.m00),
        float::widen(l.m01),
        float::widen(l.m02),
        float::widen(l.m10),
        float::widen(l.m11),
        float::widen(l.m12),
        float::widen(l.m20),
        float::widen(l.m21),
        float::widen(l.m22),
    ]
}

fn translation_of(m: Mat4) -> [f64; 3]
    ensures { result ≡ translation_of m.m }
{
    [
        float::widen(m.m[3]),
        float::widen(m.m[7]),
        float::widen(m.m[11]),
    ]
}

// The cofactors of l.
fn cofactors64(l: [f64; 9]) -> [f64; 9]
    ensures { result ≡ cofactors64 l }
{
    let [a, b, c, d, e, f, g, h, i] = l;
    [
        e * i - f * h,
        -(d * i - f * g),
        d * h - e * g,
        -(b * i - c * h),
        a * i - c * g,
        -(a * h - b * g),
        b * f - c * e,
        -(a * f - c * d),
        a * e - b * d,
    ]
}

// The determinant of l, by its first row and its cofactors c.
fn determinant64(l: [f64; 9], c: [f64; 9]) -> f64
    ensures { result ≡ determinant64 l c }
{
    l[0] * c[0] + l[1] * c[1] + l[2] * c[2]
}

fn is_invertible_f64(det: f64) -> bool
    ensures { result ≡ invertible det }
{
    float::is_finite_f64(det) & (det != 0.0)
}

// A row of the inverse from a column of the cofactors, r = 1 / determinant and the translation t, narrowed.
fn inverse_row(a: f64, b: f64, c: f64, r: f64, t: [f64; 3]) -> Quat
    ensures { quat result ≡ map narrow_of (inverse_row (a ∷ b ∷ c ∷ []) r t) }
{
    let x = a * r;
    let y = b * r;
    let z = c * r;
    let w = -(x * t[0] + y * t[1] + z * t[2]);
    Quat {
        x: float::narrow(x),
        y: float::narrow(y),
        z: float::narrow(z),
        w: float::narrow(w),
    }
}

// The inverse from the cofactors c, r = 1 / determinant and the translation t, narrowed.
fn inverse_from(c: [f64; 9], r: f64, t: [f64; 3]) -> Mat4
    ensures { result.m ≡ inverse_from c r t }
{
    let x = inverse_row(c[0], c[3], c[6], r, t);
    let y = inverse_row(c[1], c[4], c[7], r, t);
    let z = inverse_row(c[2], c[5], c[8], r, t);
    Mat4 {
        m: [
            x.x, x.y, x.z, x.w, y.x, y.y, y.z, y.w, z.x, z.y, z.z, z.w, 0.0, 0.0, 0.0, 1.0,
        ],
    }
}

fn mat4_is_finite(m: Mat4) -> bool
    ensures { result ≡ every finite m.m }
{
    let a = m.m;
    are_finite(&a)
}

// The inverse, if m is affine, its determinant is finite and not 0, and every entry is finite once narrowed.
pub fn mat4_affine_inverse(m: Mat4) -> Option<Mat4>
    ensures { matrix_of result ≡ affine_inverse m.m }
{
    let l = widen3(linear_part(m));
    let c = cofactors64(l);
    let det = determinant64(l, c);
    let n = inverse_from(c, 1.0 / det, translation_of(m));
    if is_affine(m) & is_invertible_f64(det) & mat4_is_finite(n) {
        return Some(n);
    }
    None
}

// The normal matrix of vertices that are transformed: the linear part of the inverse, transposed, if there is one.
pub fn normal_matrix(m: Mat4) -> Option<Mat3>
    ensures { linear_of result ≡ normal_matrix m.m }
{
    let n = mat4_affine_inverse(m)?;
    Some(Mat3 {
        m00: n.m[0],
        m01: n.m[4],
        m02: n.m[8],
        m10: n.m[1],
        m11: n.m[5],
        m12: n.m[9],
        m20: n.m[2],
        m21: n.m[6],
        m22: n.m[10],
    })
}
