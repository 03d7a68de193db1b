ghost use Rattle.std.specs.Prelude.{◌≡◌, ◌+◌, ◌*◌, get_or};
ghost use Rattle.tables.specs.Records.{channel_row};
ghost use Rattle.tables.specs.Decoded.{lent_of};
ghost use Rattle.bake_writing.specs.Weights.{Weighed, Unposed, Blending};

use animation::SampledValue;
use refusals::WEIGHT_LIMIT;
use tables::{Lent, MeshRow, NodeRow};
use tracks::Part;

// The weights of channel k at a time, at the start of `out`; answers how many.
fn posed_weights(
    words: &[u32],
    floats: &[f32],
    channels: Part,
    k: usize,
    time: f32,
    out: &mut [f32; WEIGHT_LIMIT],
) -> usize
    ensures { Weighed floats.now (channel_row words.now channels k) time
        out.new result }
{
    let t = tables::track_of(tables::channel_row(words, channels, k));
    match animation::sample(floats, t, time, out) {
        Ok(SampledValue::Vec3(_)) => 0,
        Ok(SampledValue::Quat(_)) => 0,
        Ok(SampledValue::Scalar(count)) => count,
        Err(_) => 0,
    }
}

// The weights of a node or its mesh, as many as there is room for; answers how many.
fn unposed_weights<'a>(
    node_weights: &'a [f32],
    mesh_weights: &'a [f32],
    node: NodeRow,
    mesh: MeshRow,
    out: &mut [f32; WEIGHT_LIMIT],
) -> usize
    ensures { Unposed node_weights.now mesh_weights.now node mesh
        out.new result }
{
    wire::copy_floats(
        skin::weights_of(node_weights, mesh_weights, node, mesh),
        out,
    )
}

// The word of slot i for the weights: 1 + the channel that gives them, or 0, also past the slots.
fn weights_word(marks: &[u32], i: usize) -> u32
    ensures { result ≡ get_or marks.now (i * 4 + 3) 0 }
{
    if i < marks.len() / 4 {
        let at = i * 4 + 3;
        return marks[at];
    }
    0
}

// The weights that a node's mesh is blended with, at the start of `out`: the posed ones, if there are any, otherwise
// the node's or the mesh's, as many as there is room for. Answers how many.
pub(crate) fn weights_into(
    lent: Lent,
    node: u32,
    mesh: MeshRow,
    time: f32,
    marks: &[u32],
    out: &mut [f32; WEIGHT_LIMIT],
) -> usize
    ensures { Blending (lent_of lent.entry) time marks.now node mesh out.new result }
{
    let h = lent.header;
    let i = node as usize;
    let word = weights_word(marks, i);
    if word != 0 {
        return posed_weights(
            lent.words,
            lent.floats,
            h.channels,
            (word - 1) as usize,
            time,
            out,
        );
    }
    let row = tables::node_row(lent.words, h.graph.nodes, i);
    unposed_weights(lent.node_weights, lent.mesh_weights, row, mesh, out)
}
