ghost use Rattle.std.specs.Prelude.{◌≡◌, map};
ghost use Rattle.borrowed.specs.Attributes.{positions_in, normals_in, tangents_in, SameSlices};
ghost use Rattle.borrowed.specs.InPlace.{InPlace};
ghost use Rattle.model.specs.Lists.{rows_in};
ghost use Rattle.model.specs.Vertices.{turned_normal, transformed};
ghost use Rattle.model.specs.Attributes.{over_rows};
ghost use Rattle.scene.specs.Values.{mat3, linear_of};
ghost use Rattle.vertex_rows.specs.Rows.{tangent_by};
ghost use Rattle.transform.specs.Rigid.{TurnsAll};

use crate::blocks::turn_rows;
use borrowed::Vertices;
use scene::{Mat3, Mat4};
use vertex_rows::{flip_tangents, transform_positions};

// Turns all normals by the normal matrix, if there is one.
fn transform_normals(n: Option<Mat3>, normals: &mut [f32])
    ensures { normals.new ≡ over_rows 3
        (map (turned_normal (linear_of n)) (rows_in 3 normals.old)) normals.old }
{
    if let Some(l) = n {
        turn_rows(l, 3, normals);
    }
}

// Turns all tangents by the linear part l.
fn transform_tangents(l: Mat3, mirror: bool, tangents: &mut [f32])
    ensures { tangents.new ≡ over_rows 4
        (map (tangent_by (mat3 l) mirror) (rows_in 4 tangents.old)) tangents.old }
{
    turn_rows(l, 4, tangents);
    if !mirror {
        return;
    }
    flip_tangents(tangents);
}

fn transform_directions(m: Mat4, normals: &mut [f32], tangents: &mut [f32])
    ensures { TurnsAll m.m normals tangents }
{
    transform_normals(inverse::normal_matrix(m), normals);
    transform_tangents(scene::linear_part(m), scene::linear_det(m) < 0.0, tangents);
}

// Moves all vertices by m: positions with the perspective division, normals by the normal matrix, tangents by the
// linear part. An attribute that is absent has an empty slice.
pub fn transformed(m: Mat4, out: &mut Vertices<'_>)
    ensures moved { InPlace (transformed m.m) (positions_in out) (normals_in out) (tangents_in out) }
    ensures same_slices { SameSlices out.old out.new }
{
    transform_positions(m, out.positions);
    transform_directions(m, out.normals, out.tangents);
}
