// The inverses of `scene` over arrays of fixed length: 1 where there is one, written to `out`, and 0 where there is
// none.
ghost use Rattle.model.specs.Matrix.{inverse_transpose};
ghost use Rattle.model.specs.Inverse.{affine_inverse, normal_matrix};
ghost use Rattle.borrowed.specs.Written.{Answers};

use scene::Mat4;

// The inverse transpose of the linear part.
#[unsafe(no_mangle)]
pub extern "C" fn mesh3d_linear_inverse_transpose(m: &[f32; 16], out: &mut [f32; 9]) -> u32
    ensures { Answers (inverse_transpose m.now) out result }
{
    let m = *m;
    match inverse::linear_inverse_transpose(Mat4 { m }) {
        Some(l) => {
            *out = [
                l.m00, l.m01, l.m02, l.m10, l.m11, l.m12, l.m20, l.m21, l.m22,
            ];
            1
        }
        None => 0,
    }
}

// The inverse of an affine matrix.
#[unsafe(no_mangle)]
pub extern "C" fn mesh3d_mat4_affine_inverse(m: &[f32; 16], out: &mut [f32; 16]) -> u32
    ensures { Answers (affine_inverse m.now) out result }
{
    let m = *m;
    match inverse::mat4_affine_inverse(Mat4 { m }) {
        Some(n) => {
            let m = n.m;
            *out = m;
            1
        }
        None => 0,
    }
}

// The linear part of the inverse, transposed.
#[unsafe(no_mangle)]
pub extern "C" fn mesh3d_normal_matrix(m: &[f32; 16], out: &mut [f32; 9]) -> u32
    ensures { Answers (normal_matrix m.now) out result }
{
    let m = *m;
    match inverse::normal_matrix(Mat4 { m }) {
        Some(l) => {
            *out = [
                l.m00, l.m01, l.m02, l.m10, l.m11, l.m12, l.m20, l.m21, l.m22,
            ];
            1
        }
        None => 0,
    }
}
