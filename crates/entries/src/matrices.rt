// The functions of `scene` over arrays of fixed length: matrices and linear parts row by row, quaternions as x, y, z,
// w.
ghost use Rattle.std.specs.Prelude.{◌≡◌};
ghost use Rattle.model.specs.Vector.{◌⊙◌, ◌⊞◌, norm, normalized};
ghost use Rattle.model.specs.Matrix.{identity, mul, linear, turned, determinant};
ghost use Rattle.model.specs.Transform.{from_trs, to_matrix, quaternion, split};
ghost use Rattle.model.specs.Vertices.{affine_point, transformed_point};
ghost use Rattle.scene.specs.Values.{vec3, quat, mat3, trs, transform_of};
ghost use Rattle.entries.specs.Handed.{trs_of, chosen};
ghost use Rattle.borrowed.specs.Written.{Answers};

use scene::{Mat3, Mat4, Quat, Transform, Trs, Vec3};

fn vector_of(v: [f32; 3]) -> Vec3
    ensures { vec3 result ≡ v }
{
    Vec3 {
        x: v[0],
        y: v[1],
        z: v[2],
    }
}

fn quat_of(q: [f32; 4]) -> Quat
    ensures { quat result ≡ q }
{
    Quat {
        x: q[0],
        y: q[1],
        z: q[2],
        w: q[3],
    }
}

fn linear_of(l: [f32; 9]) -> Mat3
    ensures { mat3 result ≡ l }
{
    Mat3 {
        m00: l[0],
        m01: l[1],
        m02: l[2],
        m10: l[3],
        m11: l[4],
        m12: l[5],
        m20: l[6],
        m21: l[7],
        m22: l[8],
    }
}

fn trs_of(translation: [f32; 3], rotation: [f32; 4], scale: [f32; 3]) -> Trs
    ensures { trs result ≡ trs_of translation rotation scale }
{
    let translation = vector_of(translation);
    let rotation = quat_of(rotation);
    let scale = vector_of(scale);
    Trs {
        translation,
        rotation,
        scale,
    }
}

// The length of v.
#[unsafe(no_mangle)]
pub extern "C" fn mesh3d_vec3_len(v: &[f32; 3]) -> f32
    ensures { result ≡ norm v.now }
{
    let v = *v;
    scene::vec3_len(vector_of(v))
}

// v divided by its length, and 1; where there is no such direction, 0.
#[unsafe(no_mangle)]
pub extern "C" fn mesh3d_normalize3(v: &[f32; 3], out: &mut [f32; 3]) -> u32
    ensures { Answers (normalized v.now) out result }
{
    let v = *v;
    match scene::normalize3(vector_of(v)) {
        Some(u) => {
            *out = [u.x, u.y, u.z];
            1
        }
        None => 0,
    }
}

// l times v.
#[unsafe(no_mangle)]
pub extern "C" fn mesh3d_mul3(l: &[f32; 9], v: &[f32; 3], out: &mut [f32; 3])
    ensures { out.new ≡ turned l.now v.now }
{
    let l = *l;
    let v = *v;
    let r = scene::mul3(linear_of(l), vector_of(v));
    *out = [r.x, r.y, r.z];
}

#[unsafe(no_mangle)]
pub extern "C" fn mesh3d_identity(out: &mut [f32; 16])
    ensures { out.new ≡ identity }
{
    let r = scene::identity();
    let m = r.m;
    *out = m;
}

// a times b.
#[unsafe(no_mangle)]
pub extern "C" fn mesh3d_mat4_mul(a: &[f32; 16], b: &[f32; 16], out: &mut [f32; 16])
    ensures { out.new ≡ mul a.now b.now }
{
    let a = *a;
    let b = *b;
    let r = scene::mat4_mul(Mat4 { m: a }, Mat4 { m: b });
    let m = r.m;
    *out = m;
}

// m plus w times n.
#[unsafe(no_mangle)]
pub extern "C" fn mesh3d_mat4_madd(m: &[f32; 16], w: f32, n: &[f32; 16], out: &mut [f32; 16])
    ensures { out.new ≡ m.now ⊞ w ⊙ n.now }
{
    let m = *m;
    let n = *n;
    let r = scene::mat4_madd(Mat4 { m }, w, Mat4 { m: n });
    let sum = r.m;
    *out = sum;
}

// The first three rows and columns.
#[unsafe(no_mangle)]
pub extern "C" fn mesh3d_linear_part(m: &[f32; 16], out: &mut [f32; 9])
    ensures { out.new ≡ linear m.now }
{
    let m = *m;
    let r = scene::linear_part(Mat4 { m });
    *out = [
        r.m00, r.m01, r.m02, r.m10, r.m11, r.m12, r.m20, r.m21, r.m22,
    ];
}

// The determinant of the linear part.
#[unsafe(no_mangle)]
pub extern "C" fn mesh3d_linear_det(m: &[f32; 16]) -> f32
    ensures { result ≡ determinant m.now }
{
    let m = *m;
    scene::linear_det(Mat4 { m })
}

// The first three rows of m times p.
#[unsafe(no_mangle)]
pub extern "C" fn mesh3d_affine_point(m: &[f32; 16], p: &[f32; 3], out: &mut [f32; 3])
    ensures { out.new ≡ affine_point m.now p.now }
{
    let m = *m;
    let p = *p;
    let r = scene::affine_point(Mat4 { m }, vector_of(p));
    *out = [r.x, r.y, r.z];
}

// m times p, with the perspective division.
#[unsafe(no_mangle)]
pub extern "C" fn mesh3d_transform_point(m: &[f32; 16], p: &[f32; 3], out: &mut [f32; 3])
    ensures { out.new ≡ transformed_point m.now p.now }
{
    let m = *m;
    let p = *p;
    let r = scene::transform_point(Mat4 { m }, vector_of(p));
    *out = [r.x, r.y, r.z];
}

// The matrix of a translation, a rotation and a scale.
#[unsafe(no_mangle)]
pub extern "C" fn mesh3d_trs_to_matrix(
    translation: &[f32; 3],
    rotation: &[f32; 4],
    scale: &[f32; 3],
    out: &mut [f32; 16],
)
    ensures { out.new ≡ from_trs (trs_of translation.now rotation.now
        scale.now) }
{
    let translation = *translation;
    let rotation = *rotation;
    let scale = *scale;
    let r = scene::trs_to_matrix(trs_of(translation, rotation, scale));
    let m = r.m;
    *out = m;
}

fn transform_of(
    mark: u32,
    translation: [f32; 3],
    rotation: [f32; 4],
    scale: [f32; 3],
    m: [f32; 16],
) -> Transform
    ensures { transform_of result ≡ chosen mark (trs_of translation rotation scale) m }
{
    if mark == 0 {
        return Transform::Trs(trs_of(translation, rotation, scale));
    }
    Transform::Matrix(Mat4 { m })
}

// The matrix of a transform: of the parts where the mark is 0, else m.
#[unsafe(no_mangle)]
pub extern "C" fn mesh3d_to_matrix(
    mark: u32,
    translation: &[f32; 3],
    rotation: &[f32; 4],
    scale: &[f32; 3],
    m: &[f32; 16],
    out: &mut [f32; 16],
)
    ensures { out.new ≡ to_matrix (chosen mark
        (trs_of translation.now rotation.now scale.now) m.now) }
{
    let translation = *translation;
    let rotation = *rotation;
    let scale = *scale;
    let m = *m;
    let r = scene::to_matrix(transform_of(mark, translation, rotation, scale, m));
    let m = r.m;
    *out = m;
}

// The quaternion of a rotation by its columns.
#[unsafe(no_mangle)]
pub extern "C" fn mesh3d_rot_matrix_to_quat(
    a: &[f32; 3],
    b: &[f32; 3],
    c: &[f32; 3],
    out: &mut [f32; 4],
)
    ensures { out.new ≡ quaternion a.now b.now c.now }
{
    let a = *a;
    let b = *b;
    let c = *c;
    let r = scene::rot_matrix_to_quat(vector_of(a), vector_of(b), vector_of(c));
    *out = [r.x, r.y, r.z, r.w];
}

// A matrix split into translation, rotation and scale.
#[unsafe(no_mangle)]
pub extern "C" fn mesh3d_from_matrix(
    m: &[f32; 16],
    translation: &mut [f32; 3],
    rotation: &mut [f32; 4],
    scale: &mut [f32; 3],
)
    ensures { trs_of translation.new rotation.new scale.new
        ≡ split m.now }
{
    let m = *m;
    let r = scene::from_matrix(Mat4 { m });
    *translation = [r.translation.x, r.translation.y, r.translation.z];
    *rotation = [r.rotation.x, r.rotation.y, r.rotation.z, r.rotation.w];
    *scale = [r.scale.x, r.scale.y, r.scale.z];
}
