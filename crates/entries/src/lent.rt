// Calls on a scene that is lent in tables (docs/TABLES.md).
ghost use Rattle.std.specs.Prelude.{◌≡◌};
ghost use Rattle.borrowed.specs.Slices.{change};
ghost use Rattle.checks.specs.Drawn.{scene_lent, tables_number};
ghost use Rattle.graph.specs.Marks.{Parents};
ghost use Rattle.pose.specs.Encoded.{Posed};
ghost use Rattle.worlds.specs.Placed.{NodesPlaced};

use tables::{Header, Lent};
use worlds::{Answer, Room};

// 1, 2 or 0: what the tables draw, over all that is lent.
#[unsafe(no_mangle)]
pub extern "C" fn mesh3d_tables_number(
    words: &[u32],
    floats: &[f32],
    node_weights: &[f32],
    mesh_weights: &[f32],
    header: Header,
) -> u32
    ensures { result ≡ tables_number (scene_lent words floats node_weights mesh_weights header) }
{
    let lent = Lent {
        words,
        floats,
        node_weights,
        mesh_weights,
        header,
    };
    refusals::number(checks::check_tables(lent))
}

// The mark of each node, written to the start of `out`: 0 for none, 1 for a root, p + 3 where node p lists it. Answers
// 1, 2, 10 or 0.
#[unsafe(no_mangle)]
pub extern "C" fn mesh3d_parents(
    words: &[u32],
    floats: &[f32],
    node_weights: &[f32],
    mesh_weights: &[f32],
    header: Header,
    out: &mut [u32],
) -> u32
    ensures { Parents (scene_lent words floats node_weights mesh_weights header) (change out) result }
{
    let lent = Lent {
        words,
        floats,
        node_weights,
        mesh_weights,
        header,
    };
    refusals::number(graph::parents(lent, out))
}

// Where every node stands in a given pose. Answers 1, 2, 6 or 0, and the entries taken.
#[unsafe(no_mangle)]
pub extern "C" fn mesh3d_place_floats(
    words: &[u32],
    floats: &[f32],
    node_weights: &[f32],
    mesh_weights: &[f32],
    header: Header,
    marks: &[u32],
    slots: &[f32],
    walk: &mut [u32],
    places: &mut [u32],
    worlds: &mut [f32],
) -> Answer
    ensures { NodesPlaced (scene_lent words floats node_weights mesh_weights header) marks.now
        slots.now (change walk) (change places) (change worlds) result }
{
    let lent = Lent {
        words,
        floats,
        node_weights,
        mesh_weights,
        header,
    };
    let mut room = Room {
        walk,
        places,
        worlds,
    };
    Answer::from(worlds::posed_node_transforms(lent, marks, slots, &mut room))
}

// The pose of every node at a time, in lent slots of four words and ten floats. Answers 1, 2, 3, 5, 6 or 0.
#[unsafe(no_mangle)]
pub extern "C" fn mesh3d_sample_pose(
    words: &[u32],
    floats: &[f32],
    node_weights: &[f32],
    mesh_weights: &[f32],
    header: Header,
    time: f32,
    marks: &mut [u32],
    slots: &mut [f32],
) -> u32
    ensures { Posed (scene_lent words floats node_weights mesh_weights header) time (change marks)
        (change slots) result }
{
    let lent = Lent {
        words,
        floats,
        node_weights,
        mesh_weights,
        header,
    };
    refusals::number(pose::sample_pose(lent, time, marks, slots))
}
