ghost use Rattle.std.specs.Prelude.{◌≡◌};
ghost use Rattle.checks.specs.Drawn.{scene_lent};
ghost use Rattle.bake_room.specs.Needed.{room_for};

use bake_room::Room;
use tables::{Header, Lent};

// The lengths of the slices that a bake of a node needs. Answers 1, 2, 7 or 0.
#[unsafe(no_mangle)]
pub extern "C" fn mesh3d_bake_room(
    words: &[u32],
    floats: &[f32],
    node_weights: &[f32],
    mesh_weights: &[f32],
    header: Header,
    node: u32,
) -> Room
    ensures { result ≡ room_for (scene_lent words floats node_weights mesh_weights header) node }
{
    let lent = Lent {
        words,
        floats,
        node_weights,
        mesh_weights,
        header,
    };
    Room::from(bake_room::room_for(lent, node))
}
