// The C functions on skins and morph weights of a lent scene; include/mesh3d.h declares them.
#![tactic(auto)]

ghost use Rattle.borrowed.specs.Slices.{change};
ghost use Rattle.checks.specs.Drawn.{scene_lent};
ghost use Rattle.skin_roots.specs.Roots.{RootAnswered};
ghost use Rattle.skin.specs.Calls.{Answered};
ghost use Rattle.skin_entries.specs.Handed.{Weighed};

use skin::Answer;
use skin_roots::Root;
use tables::{Header, Lent};

// Writes the palette of a node, from worlds that are given, to the start of `out`. Answers 1, 2, 6, 7, 9, 10 or 0.
#[unsafe(no_mangle)]
pub extern "C" fn mesh3d_joint_matrices_floats(
    words: &[u32],
    floats: &[f32],
    node_weights: &[f32],
    mesh_weights: &[f32],
    header: Header,
    node: u32,
    places: &[u32],
    worlds: &[f32],
    out: &mut [f32],
) -> Answer
    ensures { Answered (scene_lent words floats node_weights mesh_weights header) node places.now
        worlds.now (change out) result }
{
    let lent = Lent {
        words,
        floats,
        node_weights,
        mesh_weights,
        header,
    };
    Answer::from(skin::joint_matrices_with(lent, node, places, worlds, out))
}

// The root of a skin. Answers 1, 2, 11 or 0, and the node.
#[unsafe(no_mangle)]
pub extern "C" fn mesh3d_skin_root(
    words: &[u32],
    floats: &[f32],
    node_weights: &[f32],
    mesh_weights: &[f32],
    header: Header,
    skin: u32,
) -> Root
    ensures { RootAnswered (scene_lent words floats node_weights mesh_weights header) skin result }
{
    let lent = Lent {
        words,
        floats,
        node_weights,
        mesh_weights,
        header,
    };
    Root::from(skin_roots::skin_root(lent, skin))
}

// Copies the weights that a node's mesh is blended with to the start of `out`. Answers 1, 2, 7, 10 or 0, and how many
// floats were copied.
#[unsafe(no_mangle)]
pub extern "C" fn mesh3d_effective_weights_floats(
    words: &[u32],
    floats: &[f32],
    node_weights: &[f32],
    mesh_weights: &[f32],
    header: Header,
    node: u32,
    out: &mut [f32],
) -> Answer
    ensures { Weighed (scene_lent words floats node_weights mesh_weights header) node out result }
{
    let lent = Lent {
        words,
        floats,
        node_weights,
        mesh_weights,
        header,
    };
    let drawn = skin::check_weights(lent, node);
    let weights = skin::effective_morph_weights(
        words,
        floats,
        node_weights,
        mesh_weights,
        header,
        node,
    );
    Answer::from(outputs::copy_out(drawn, weights, out))
}
