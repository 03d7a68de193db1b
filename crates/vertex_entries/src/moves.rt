ghost use Rattle.borrowed.specs.InPlace.{InPlace};
ghost use Rattle.model.specs.Lists.{rows_in};
ghost use Rattle.model.specs.Vertices.{transformed, skinned};

use borrowed::Vertices;
use scene::Mat4;
use vertex_rows::Influences;

// Moves all vertices by m.
#[unsafe(no_mangle)]
pub extern "C" fn mesh3d_transformed_floats(
    m: &[f32; 16],
    positions: &mut [f32],
    normals: &mut [f32],
    tangents: &mut [f32],
)
    ensures { InPlace (transformed m.now) positions normals tangents }
{
    let m = *m;
    let mut out = Vertices {
        positions,
        normals,
        tangents,
    };
    transform::transformed(Mat4 { m }, &mut out);
}

// Moves each vertex by the matrices of its joints.
#[unsafe(no_mangle)]
pub extern "C" fn mesh3d_skinned_floats(
    palette: &[f32],
    joints: &[u32],
    weights: &[f32],
    positions: &mut [f32],
    normals: &mut [f32],
    tangents: &mut [f32],
)
    ensures { InPlace (skinned (rows_in 16 palette.now) (rows_in 4 joints.now)
        (rows_in 4 weights.now)) positions normals tangents }
{
    let by = Influences {
        palette,
        joints,
        weights,
    };
    let mut out = Vertices {
        positions,
        normals,
        tangents,
    };
    skinning::skinned(by, &mut out);
}
