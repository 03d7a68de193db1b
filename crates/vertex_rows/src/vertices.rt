ghost use Rattle.borrowed.specs.Attributes.{SameSlices};
ghost use Rattle.scene.specs.Values.{matrix_of};
ghost use Rattle.vertex_rows.specs.Blending.{TurnedIn, SkinnedIn};

use crate::directions::{turn_normal, turn_tangent};
use crate::positions::move_position;
use borrowed::Vertices;
use scene::Mat4;

// Turns normal and tangent v, if there are any.
fn skin_directions(m: Mat4, normals: &mut [f32], tangents: &mut [f32], v: usize)
    ensures { TurnedIn m.m v normals tangents }
{
    turn_normal(inverse::linear_inverse_transpose(m), normals, v);
    turn_tangent(
        scene::linear_part(m),
        scene::linear_det(m) < 0.0,
        tangents,
        v,
    );
}

// Vertex v by its joint matrix, if it has one.
pub fn skin_vertex(joint: Option<Mat4>, out: &mut Vertices<'_>, v: usize)
    ensures moved { SkinnedIn (matrix_of joint) v out }
    ensures same_slices { SameSlices out.old out.new }
{
    if let Some(m) = joint {
        move_position(m, out.positions, v);
        skin_directions(m, out.normals, out.tangents, v);
    }
}
