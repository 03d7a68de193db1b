ghost use Rattle.std.specs.Prelude.{◌≡◌, ◌&&◌, ◌/◌, ◌<◌, length};
ghost use Rattle.std.specs.Float.Ieee.{lt};
ghost use Rattle.std.specs.Float.Ieee.Scale.{finite};
ghost use Rattle.float.specs.F32.{zero32};
ghost use Rattle.model.specs.Lists.{row, rows_in};
ghost use Rattle.model.specs.Vertices.{influences, mixture, joint_matrix};
ghost use Rattle.scene.specs.Values.{matrix_of};
ghost use Rattle.vertex_rows.specs.Blending.{Added};

use scene::Mat4;

// The joints that move vertices, four joints and four weights a vertex, and their matrices, sixteen floats a joint.
#[derive(Clone, Copy)]
pub struct Influences<'a> {
    pub palette: &'a [f32],
    pub joints: &'a [u32],
    pub weights: &'a [f32],
}

fn counts(w: f32) -> bool
    ensures { result ≡ (finite w && lt zero32 w) }
{
    float::is_finite(w) & (w > 0.0)
}

// Adds w times the matrix of joint j, where both count.
fn add_influence(sum: Option<Mat4>, palette: &[f32], j: usize, w: f32) -> Option<Mat4>
    ensures { Added (rows_in 16 palette.now) j w sum result }
{
    if j < palette.len() / 16 {
        if counts(w) {
            let so_far = sum.unwrap_or(Mat4 { m: [0.0f32; 16] });
            return Some(scene::mat4_madd(so_far, w, scene::matrix_at(palette, j * 16)));
        }
    }
    sum
}

// The influences of vertex v, which has a row of each, added up.
fn blend_row(by: Influences, v: usize) -> Option<Mat4>
    requires { (v < length by.joints.now / 4) × (v < length by.weights.now / 4) }
    ensures { matrix_of result ≡ mixture (influences (rows_in 16 by.entry.palette.now)
        (row 4 by.entry.joints.now v) (row 4 by.entry.weights.now v)) }
{
    let mut sum = None;
    for e in 0..4 {
        sum = add_influence(
            sum,
            by.palette,
            by.joints[v * 4 + e] as usize,
            by.weights[v * 4 + e],
        );
    }
    sum
}

// The matrix of vertex v, its weighted joint matrices added up; none where no influence counts.
pub fn joint_matrix(by: Influences, v: usize) -> Option<Mat4>
    ensures { matrix_of result ≡ joint_matrix (rows_in 16 by.entry.palette.now) (rows_in 4 by.entry.joints.now)
        (rows_in 4 by.entry.weights.now) v }
{
    if v < by.joints.len() / 4 {
        if v < by.weights.len() / 4 {
            return blend_row(by, v);
        }
    }
    None
}
