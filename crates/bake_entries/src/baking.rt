ghost use Rattle.checks.specs.Drawn.{scene_lent};
ghost use Rattle.bake.specs.Baked.{room, Baked};

use borrowed::Vertices;
use tables::{Header, Lent};
use worlds::Room;

// The mesh of a node in the world at a time, its primitives one after the other in the three outputs. Answers 1, 2, 3,
// 5 to 10 or 0.
#[unsafe(no_mangle)]
pub extern "C" fn mesh3d_bake_floats(
    words: &[u32],
    floats: &[f32],
    node_weights: &[f32],
    mesh_weights: &[f32],
    header: Header,
    node: u32,
    time: f32,
    marks: &mut [u32],
    slots: &mut [f32],
    walk: &mut [u32],
    places: &mut [u32],
    worlds: &mut [f32],
    positions: &mut [f32],
    normals: &mut [f32],
    tangents: &mut [f32],
) -> bake::Answer
    ensures { Baked (scene_lent words floats node_weights mesh_weights header) node time
        (room marks slots walk places worlds positions normals tangents) result }
{
    let lent = Lent {
        words,
        floats,
        node_weights,
        mesh_weights,
        header,
    };
    let mut scratch = Room {
        walk,
        places,
        worlds,
    };
    let mut out = Vertices {
        positions,
        normals,
        tangents,
    };
    bake::Answer::from(bake::world_mesh_at(lent, node, time, marks, slots, &mut scratch, &mut out))
}
