ghost use Rattle.std.specs.Prelude.{◌≡◌};
ghost use Rattle.model.specs.Matrix.{turned};
ghost use Rattle.model.specs.Vector.{norm, normalized};
ghost use Rattle.scene.specs.Values.{vec3, mat3, unit_of};

use crate::{Mat3, Vec3};

// The length of v.
pub fn vec3_len(v: Vec3) -> f32
    ensures { result ≡ norm (vec3 v) }
{
    square_root::sqrt(v.x * v.x + v.y * v.y + v.z * v.z)
}

// v divided by its length, where that is finite and above 0; none elsewhere.
pub fn normalize3(v: Vec3) -> Option<Vec3>
    ensures { unit_of result ≡ normalized (vec3 v) }
{
    let len = vec3_len(v);
    if float::is_finite(len) {
        if len > 0.0 {
            return Some(Vec3 {
                x: v.x / len,
                y: v.y / len,
                z: v.z / len,
            });
        }
    }
    None
}

// l times v: `mul3` of skinning.rs, `transform_dir` of transform.rs.
pub fn mul3(l: Mat3, v: Vec3) -> Vec3
    ensures { vec3 result ≡ turned (mat3 l) (vec3 v) }
{
    Vec3 {
        x: l.m00 * v.x + l.m01 * v.y + l.m02 * v.z,
        y: l.m10 * v.x + l.m11 * v.y + l.m12 * v.z,
        z: l.m20 * v.x + l.m21 * v.y + l.m22 * v.z,
    }
}
